//! What a client asks.

ghost use Rattle.std.specs.Prelude.{◌≡◌, true};
ghost use Rattle.rs_path.specs.Items.{holds_of};
ghost use Rattle.rs_path.specs.Tags.{is_tag};
ghost use Rattle.rs_talk.specs.AskRequests.{has_ask_parts};
ghost use Rattle.rs_talk.specs.Asks.{ask_path, ask_method, ask_body};

use rs_path::{Bytes, Kind, Path, Tag};

/// What a client asks of a server, below the root of an account (draft-dejong-remotestorage, sections 4 to 6).
///
/// The path of `Folder` is to be that of a folder, and the path of each other that of a document.
#[derive(Debug, Drop)]
pub enum Ask {
    /// The items of a folder, unless it still has the known version.
    Folder {
        path: Path,
        known: Option<Tag>,
    },
    /// A document, unless it still has the known version.
    Document {
        path: Path,
        known: Option<Tag>,
    },
    /// A document is to be written, where it still has the version of its base, or isn't there where there is no base.
    Put {
        path: Path,
        base: Option<Tag>,
        kind: Kind,
        body: Bytes,
    },
    /// A document is to be removed, where it still has the version of its base.
    Remove {
        path: Path,
        base: Tag,
    },
}

impl Ask {
    /// The folder or the document that it is about.
    pub fn path(&self) -> &Path
        ensures path { result.now ≡ ask_path self.now }
    {
        match self {
            Ask::Folder { path, .. } => path,
            Ask::Document { path, .. } => path,
            Ask::Put { path, .. } => path,
            Ask::Remove { path, .. } => path,
        }
    }

    // The method of its request.
    pub(crate) fn method(&self) -> &'static [u8]
        ensures method { result.now ≡ ask_method self.now }
    {
        match self {
            Ask::Folder { .. } => b"GET",
            Ask::Document { .. } => b"GET",
            Ask::Put { .. } => b"PUT",
            Ask::Remove { .. } => b"DELETE",
        }
    }

    // The body of its request.
    pub(crate) fn body(&self) -> &[u8]
        ensures body { result.now ≡ ask_body self.now }
    {
        match self {
            Ask::Put { body, .. } => body.as_slice(),
            Ask::Folder { .. } => b"",
            Ask::Document { .. } => b"",
            Ask::Remove { .. } => b"",
        }
    }

    // Reads nothing: it says what the types of the parts promise.
    pub(crate) fn look(&self)
        ensures parts { has_ask_parts self.now ≡ true }
    {
        self.path().names();
        match self {
            Ask::Folder { known, .. } => look_at_tag(known),
            Ask::Document { known, .. } => look_at_tag(known),
            Ask::Put { base, kind, .. } => {
                look_at_tag(base);
                kind.as_slice();
            }
            Ask::Remove { base, .. } => {
                base.as_slice();
            }
        }
    }
}

fn look_at_tag(tag: &Option<Tag>)
    ensures part { holds_of is_tag tag.now ≡ true }
{
    if let Some(tag) = tag {
        tag.as_slice();
    }
}
