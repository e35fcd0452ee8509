//! Items of a folder.

ghost use Rattle.std.specs.Prelude.{◌≡◌, IfOk, IsTrue};
ghost use Rattle.std.specs.Ordering.{nat_cmp};
ghost use Rattle.std.specs.Cmp.Lexicographic.{slice_cmp};
ghost use Rattle.rs_path.specs.Items.{entry_key, is_entry, is_u64, holds_of};
ghost use Rattle.rs_path.specs.Kinds.{is_kind};

use crate::key::compare_keys;
use crate::kind::Kind;
use crate::name::Name;
use crate::no_memory::NoMemory;
use crate::tag::Tag;
use std::cmp::Ordering;

/// One item of a folder: a document or a folder in it.
///
/// draft-dejong-remotestorage, section 4, folder description.
#[derive(Debug, Drop)]
pub struct Entry {
    /// Its last name.
    pub name: Name,
    /// Whether it is a folder.
    pub folder: bool,
    /// The version of the item, as an entity tag.
    pub tag: Tag,
    /// A document's content type, where it is known.
    pub kind: Option<Kind>,
    /// A document's length in bytes, where it is known.
    pub length: Option<u64>,
}

impl Entry {
    /// The order of the keys, byte by byte; a folder's key is its name and `/`. It takes no memory.
    pub fn cmp_key(&self, other: &Entry) -> Ordering
        ensures order { result ≡ slice_cmp nat_cmp (entry_key self.now) (entry_key other.now) }
    {
        compare_keys(
            self.name.as_slice(),
            self.folder,
            other.name.as_slice(),
            other.folder,
        )
    }

    // Reads nothing: it says what the types of the parts promise.
    pub(crate) fn look(&self)
        ensures parts { IsTrue (is_entry self.now) }
    {
        self.name.as_slice();
        self.tag.as_slice();
        look_at_kind(&self.kind);
        look_at_length(&self.length);
    }

    /// An equal entry, from the same allocators.
    pub fn copy(&self) -> Result<Entry, NoMemory>
        ensures same { IfOk result (λ copied. copied ≡ self.now) }
    {
        let kind = match &self.kind {
            Some(kind) => Some(kind.copy()?),
            None => None,
        };
        Ok(Entry {
            name: self.name.copy()?,
            folder: self.folder,
            tag: self.tag.copy()?,
            kind,
            length: self.length,
        })
    }
}

impl PartialEq for Entry {
    ghost use Rattle.std.specs.Cmp.{partial_equiv_from_equiv};
    ghost use Rattle.rs_path.specs.SameEntries.{same_entry, same_entry_equiv};

    ghost eq = { same_entry };

    ghost laws = { partial_equiv_from_equiv same_entry_equiv };

    fn eq(&self, other: &Entry) -> bool {
        self.name == other.name
            && self.folder == other.folder
            && self.tag == other.tag
            && self.kind == other.kind
            && self.length == other.length
    }
}

impl Eq for Entry {
    ghost use Rattle.rs_path.specs.SameEntries.{same_entry_equiv};

    ghost laws = { same_entry_equiv };
}

fn look_at_kind(kind: &Option<Kind>)
    ensures { IsTrue (holds_of is_kind kind.now) }
{
    if let Some(kind) = kind {
        kind.as_slice();
    }
}

fn look_at_length(length: &Option<u64>)
    ensures { IsTrue (holds_of is_u64 length.now) }
{
    if let Some(length) = length {
        let _length = *length;
    }
}
