//! Changes of documents.

ghost use Rattle.std.specs.Prelude.{◌≡◌, IfOk};
ghost use Rattle.rs_talk.specs.Changes.{same_change, is_removal};

use rs_path::{Bytes, Kind, NoMemory};

/// A change of a document.
#[derive(Debug, Drop)]
pub enum Change {
    /// It is written.
    Put {
        /// The content type.
        kind: Kind,
        /// The whole body.
        body: Bytes,
    },
    /// It is removed.
    Remove,
}

impl Change {
    /// An equal change, from the same allocators.
    pub fn copy(&self) -> Result<Change, NoMemory>
        ensures same { IfOk result (λ copied. copied ≡ self.now) }
    {
        match self {
            Change::Put { kind, body } => Ok(Change::Put {
                kind: kind.copy()?,
                body: body.copy()?,
            }),
            Change::Remove => Ok(Change::Remove),
        }
    }

    /// Whether both leave the same: the same content type and body, or nothing.
    pub fn is_same(&self, other: &Change) -> bool
        ensures same { result ≡ same_change self.now other.now }
    {
        match (self, other) {
            (
                Change::Put { kind, body },
                Change::Put {
                    kind: other_kind,
                    body: other_body,
                },
            ) => kind == other_kind && body == other_body,
            (Change::Remove, Change::Remove) => true,
            _ => false,
        }
    }

    /// Whether it removes the document.
    pub fn is_removal(&self) -> bool
        ensures removal { result ≡ is_removal self.now }
    {
        match self {
            Change::Put { .. } => false,
            Change::Remove => true,
        }
    }
}
