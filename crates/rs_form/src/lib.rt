//! Fields of a query or of a form's body, read and written (URL Standard, section 5,
//! `application/x-www-form-urlencoded`).
#![tactic(auto)]

mod laws;
mod reading;
mod writing;

pub use laws::form_laws;
pub use reading::{first_value, one_value, read_values};
pub use writing::append_field;
