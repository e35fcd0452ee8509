//! Conflicts of a change with what the server had.

use rs_path::Path;
use rs_talk::{Base, Change};

/// A change that the server's document stood against.
#[derive(Debug, Drop)]
pub struct Conflict {
    /// Its number, from 1 in the order in which they were made.
    pub n: u64,
    /// The path of the document.
    pub path: Path,
    /// The client's own change.
    pub local: Change,
    /// What the server had, None where there was no document.
    pub remote: Option<Base>,
}
