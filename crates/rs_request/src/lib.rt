//! Requests of HTTP/1.1 (RFC 9112), read from bytes that come in any pieces, and written; and of fields, framing and lines what
//! `rs_reply` reads and writes replies by.
#![tactic(auto)]

mod body;
mod buffer;
mod chunk;
mod division;
mod fault;
mod field;
mod field_line;
mod framing;
mod head;
mod item;
mod limits;
mod message;
mod name;
mod reader;
mod search;
mod spelling;
mod taken;
mod text_part;
mod unfinished;
mod write;
mod written;

pub use body::{first_line, has_line_end};
pub use chunk::size_of;
pub use division::one_division;
pub use fault::{NextFault, WireFault, WireWhy};
pub use field::{Field, Fields};
pub use field_line::{FieldValue, put_empty_line, put_field_line, put_text};
pub use framing::{Framing, stated};
pub use head::{FIELD_MIN, bytes_of, fields_at, past_breaks};
pub use limits::{
    MAX_CHUNK_LINE, MAX_FIELDS, MAX_HEAD, MAX_LENGTH_DIGITS, MAX_MESSAGE, MAX_TARGET, MAX_TRAILER,
    limit_laws,
};
pub use message::{RequestMessage, Step};
pub use name::same_name;
pub use reader::RequestReader;
pub use search::{Search, Spot, window};
pub use spelling::spelled_requests;
pub use taken::taken_requests;
pub use text_part::TextPart;
pub use unfinished::unfinished_requests;
pub use write::{put_both, put_fields, write_request};
pub use written::written_requests;
