//! Replies of HTTP/1.1 (RFC 9112), read and written.
#![tactic(auto)]

mod fault;
mod message;
mod replied;
mod reply;
mod reply_head;
mod reply_spelling;
mod write;

pub use fault::ReplyFault;
pub use message::ReplyMessage;
pub use replied::written_replies;
pub use reply::read_reply;
pub use reply_head::{phrase_of, put_status_line, status_start};
pub use reply_spelling::spelled_replies;
pub use write::write_reply;
