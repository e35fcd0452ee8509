//! A message and its reply: what a message asks, and the reply that an answer is. No connection and no desk is known here.
#![tactic(auto)]

mod account;
mod answer;
mod asked;
mod condition;
mod content_type;
mod discovery;
mod fields;
mod fixed;
mod grant;
mod laws;
mod lines;
mod manner;
mod outline;
mod pass;
mod refusal;
mod reply;
mod request_line;
mod target;
mod verb;

pub use account::{Account, Accounts, Config};
pub use answer::{Answer, Sheet};
pub use asked::{Asked, read_request};
pub use fixed::{closing_lines, fault_status, interim_lines, starved_lines};
pub use grant::redirect_to;
pub use laws::{asked_laws, read_back_laws};
pub use manner::{MAX_REPLIES, Manner, manner_of};
pub use refusal::{Methods, Refusal};
pub use reply::{HEAD_ROOM, Written, head_room, write_answer};
pub use request_line::{RequestLine, read_line};
pub use target::{Target, target_of, target_parts};
pub use verb::{Verb, verb_of};
