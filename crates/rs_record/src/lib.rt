//! The records of a user, and the rows that keep them.
#![tactic(auto)]

mod decoding;
mod encoding;
mod laws;
mod parts;
mod records;

pub use decoding::decode;
pub use encoding::{encode, encode_put};
pub use laws::row_laws;
pub use records::Record;
