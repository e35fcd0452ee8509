//! Changes that wait.

use rs_talk::Change;

/// A change of a document that isn't synchronised.
#[derive(Debug, Drop)]
pub struct Pending {
    /// The change.
    pub change: Change,
    /// The status that the server refused it with, where it was held since it was made.
    pub held: Option<u16>,
}
