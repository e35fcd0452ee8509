//! Documents as a client knows them.

ghost use Rattle.std.specs.Prelude.{◌≡◌, IfOk};

use rs_path::{Bytes, Kind, NoMemory, Tag};

/// A document of the server as a client last saw it.
#[derive(Debug, Drop)]
pub struct Base {
    /// Its entity tag.
    pub tag: Tag,
    /// Its content type.
    pub kind: Kind,
    /// Its contents.
    pub body: Bytes,
}

impl Base {
    /// An equal document, from the same allocators.
    pub fn copy(&self) -> Result<Base, NoMemory>
        ensures same { IfOk result (λ copied. copied ≡ self.now) }
    {
        Ok(Base {
            tag: self.tag.copy()?,
            kind: self.kind.copy()?,
            body: self.body.copy()?,
        })
    }
}
