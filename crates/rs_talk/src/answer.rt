//! What a client is answered.

use crate::base::Base;
use rs_path::{Items, Tag};

/// What a server answers to an ask.
#[derive(Debug, Drop)]
pub enum Answer {
    /// The document.
    Document(Base),
    /// The items of the folder, and its version.
    Listing { tag: Tag, items: Items },
    /// The folder or the document still has the known version (RFC 9110, section 15.4.5).
    Same,
    /// The document was written, and has this version; it is a new one where there was none (RFC 9110, section 15.3.2).
    Stored { tag: Tag, created: bool },
    /// The document was removed.
    Removed,
    /// Nothing is there (RFC 9110, section 15.5.5).
    Absent,
    /// Nothing was changed, since the document isn't as the ask's base says (RFC 9110, section 15.5.13).
    Unmet,
    /// Another status.
    Status(u16),
}
