//! What one look at a path finds.

ghost use Rattle.std.specs.Prelude.{◌≡◌, true, is_some, if◌then◌else◌};
ghost use Rattle.rs_path.specs.Paths.{Path as PathValue};
ghost use Rattle.rs_rules.specs.Contents.{Contents};
ghost use Rattle.rs_rules.specs.Documents.{doc_in};
ghost use Rattle.rs_user.specs.Sights.{IsSight};

use rs_path::Path;
use rs_rules::{Doc, Tree};

/// What stands at a path. A request's path is looked at once, and all that is asked of it is answered from this.
#[derive(Clone, Copy)]
pub(crate) enum Sight<'a> {
    /// A folder, which is always there, and its version, 0 where no document is below it but for `/`.
    Folder { version: u64 },
    /// A document, which has its version.
    Document(&'a Doc),
    /// The path of a document where none is. Its version is 0.
    Nothing,
}

impl<'a> Sight<'a> {
    /// One look at the path. It takes no memory.
    pub(crate) fn of<T: Tree>(tree: &'a T, path: &Path) -> Sight<'a>
        ensures sight { (w : Contents) → T.stands tree.now w → IsSight result w path.now }
    {
        if path.is_folder() {
            return Sight::Folder {
                version: tree.version(path),
            };
        }
        match tree.find(path) {
            None => Sight::Nothing,
            Some(doc) => Sight::Document(doc),
        }
    }

    /// Whether the path is a folder, or a document is there.
    pub(crate) fn is_there(self) -> bool
        ensures there { (w : Contents) (path : PathValue) → IsSight self.entry w path
            → result ≡ (if path.folder then true else is_some (doc_in path w.docs)) }
    {
        match self {
            Sight::Nothing => false,
            _ => true,
        }
    }

    /// The version of the path, 0 where nothing is there.
    pub(crate) fn version(self) -> u64
        ensures version { (w : Contents) (path : PathValue) → IsSight self.entry w path → result ≡ w.version path }
    {
        match self {
            Sight::Folder { version } => version,
            Sight::Document(doc) => doc.version,
            Sight::Nothing => 0,
        }
    }
}
