//! Storage requests.

use crate::cond::Cond;
use crate::pass::Pass;
use rs_path::{Bytes, Kind, Path};
use rs_scope::Method;

/// A request on a document or a folder (draft-dejong-remotestorage, sections 5 and 6).
#[derive(Debug, Drop)]
pub struct Call {
    pub method: Method,
    pub path: Path,
    /// What the request shows of a token.
    pub pass: Pass,
    /// Its If-Match.
    pub if_match: Cond,
    /// Its If-None-Match.
    pub if_none: Cond,
    /// The content type that a Put brings.
    pub kind: Kind,
    /// The body that a Put brings.
    pub body: Bytes,
}
