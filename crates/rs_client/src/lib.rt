//! A client's commands, over the rows of its journal.
#![tactic(auto)]

mod client_fault;
mod editing;
mod opening;
mod showing;
mod source_body;
mod texts;

pub use client_fault::ClientFault;
pub use editing::{connect, put, remove, resolve};
pub use showing::{conflicts, document, listing, summary};
