//! That a client and a server understand each other: what a client asks is what the server is asked, and what the server
//! answers is what the client reads.
#![tactic(auto)]

mod answered;
mod asked;

pub use answered::answered_laws;
pub use asked::asked_ask_laws;
