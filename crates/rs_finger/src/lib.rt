//! Discovery: how an app finds the storage of `user@host` by WebFinger (RFC 7033).
#![tactic(auto)]

mod account;
mod answering;
mod finger_fault;
mod laws;
mod links;
mod names;
mod reading;
mod target;
mod writing;

pub use answering::answer_finger;
pub use finger_fault::FingerFault;
pub use laws::{account_laws, finger_laws};
pub use links::Links;
pub use names::Names;
pub use reading::read_jrd;
pub use target::finger_target;
