//! Messages of HTTP/1.1 (RFC 9112), read from bytes that come in any pieces, and written: the public names of `rs_request` and
//! `rs_reply` in one place.
#![tactic(auto)]

pub use rs_reply::{
    ReplyFault, ReplyMessage, phrase_of, put_status_line, read_reply, spelled_replies,
    status_start, write_reply, written_replies,
};
pub use rs_request::{
    Field, FieldValue, Fields, MAX_CHUNK_LINE, MAX_FIELDS, MAX_HEAD, MAX_LENGTH_DIGITS,
    MAX_MESSAGE, MAX_TARGET, MAX_TRAILER, NextFault, RequestMessage, RequestReader, Step,
    WireFault, WireWhy, limit_laws, one_division, put_empty_line, put_field_line, same_name,
    spelled_requests, taken_requests, unfinished_requests, write_request, written_requests,
};
