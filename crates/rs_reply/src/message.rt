//! Replies.

use rs_path::Bytes;
use rs_request::Fields;

/// A reply (RFC 9112, section 4).
#[derive(Debug, Drop)]
pub struct ReplyMessage {
    pub status: u16,
    pub fields: Fields,
    pub body: Bytes,
}
