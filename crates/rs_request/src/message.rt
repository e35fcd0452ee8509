//! Requests.

use crate::field::Fields;
use rs_path::Bytes;

/// A request (RFC 9112, section 3).
#[derive(Debug, Drop)]
pub struct RequestMessage {
    /// The method, as it stands.
    pub method: Bytes,
    /// The target, as it stands.
    pub target: Bytes,
    /// The minor version: 0 for HTTP/1.0, 1 for HTTP/1.1.
    pub minor: u8,
    pub fields: Fields,
    /// The body, without the framing of chunks and without a trailer.
    pub body: Bytes,
    /// Whether the connection ends after the reply: the version is 1.0, or Connection lists `close`.
    pub close: bool,
    /// The place in the stream of the first byte after the message before.
    pub place: u64,
}

/// What `RequestReader::next` found.
#[derive(Debug, Drop)]
pub enum Step {
    /// More bytes are needed.
    More,
    /// A request's head was read whose sender waits for the interim reply 100 (RFC 9110, section 10.1.1).
    Interim,
    /// A whole request.
    Message(RequestMessage),
}
