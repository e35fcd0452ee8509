//! Documents at their paths.

use crate::doc::Doc;
use rs_path::Path;

/// A document and the path that it stands at.
#[derive(Debug, Drop)]
pub struct Placed {
    pub path: Path,
    pub doc: Doc,
}
