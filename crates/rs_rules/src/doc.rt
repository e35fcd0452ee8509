//! Documents.

use rs_path::{Bytes, Kind};

/// A document.
#[derive(Debug, Drop)]
pub struct Doc {
    /// The number of the entry that put it.
    pub version: u64,
    /// Its content type.
    pub kind: Kind,
    /// Its contents.
    pub body: Bytes,
}
