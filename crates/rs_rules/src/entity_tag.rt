//! Entity tags of conditions.

ghost use Rattle.std.specs.Prelude.{◌≡◌, IfOk};

use rs_path::{NoMemory, Tag};

/// An entity tag as a condition lists it (RFC 9110, section 8.8.3).
#[derive(Debug, Drop)]
pub struct EntityTag {
    /// Whether it is marked as weak, by `W/`.
    pub weak: bool,
    /// The text between its quotes.
    pub tag: Tag,
}
