//! Writes.

use rs_path::Path;

/// The last write of a path: a Put or a Remove.
#[derive(Debug, Drop)]
pub struct Write {
    pub path: Path,
    /// The number of its entry.
    pub number: u64,
}
