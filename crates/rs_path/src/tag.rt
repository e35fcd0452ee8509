//! Texts of entity tags.

ghost use Rattle.std.specs.Prelude.{◌≡◌, ◌<◌, ◌≤◌, length, Some, None, IfOk, IsTrue, IsUtf8, decimal, if◌then◌else◌};
ghost use Rattle.std.specs.Cmp.{partial_equiv_from_equiv};
ghost use Rattle.std.proofs.lemmas.Cmp.{nat_list_eq_equiv};
ghost use Rattle.std.specs.Str.{bytes_eq};
ghost use Rattle.rs_path.specs.Tags.{is_tag, has_no_quote};

use crate::limits::MAX_TAG;
use crate::no_memory::NoMemory;
use itoa::Buffer;
use std::alloc::Global;
use std::marker::Model;

/// The text of an entity tag between its quotes: 1 to 255 bytes of 0x21 to 0x7E other than `"`.
///
/// RFC 9110, section 8.8.3, without bytes above 0x7F and with a limit. A contract sees a tag as its bytes.
#[derive(Debug, Drop)]
pub struct Tag {
    text: Vec<u8>,
}

impl Model for Tag {
    ghost use Rattle.std.specs.Prelude.{List, ℕ, IsTrue};
    ghost use Rattle.rs_path.specs.Tags.{is_tag};

    ghost Value = { List ℕ };

    ghost view = { λ t. t.text.items };

    ghost invariant = { λ t. IsTrue (is_tag t.text.items) };
}

impl Tag {
    /// The tag with these bytes, or None where they are none.
    pub fn read(alloc: Global, text: &[u8]) -> Result<Option<Tag>, NoMemory>
        ensures read { IfOk result (λ tag. tag ≡ (if is_tag text.now then Some text.now else None)) }
    {
        if !is_tag(text) {
            return Ok(None);
        }
        Ok(Some(Tag {
            text: Vec::from_slice(alloc, text)?,
        }))
    }

    /// The number in decimal.
    pub fn of(alloc: Global, n: u64) -> Result<Tag, NoMemory>
        ensures decimal { IfOk result (λ tag. tag ≡ decimal n) }
    {
        let mut buffer = Buffer::new();
        Ok(Tag {
            text: Vec::from_slice(alloc, buffer.format(n).as_bytes())?,
        })
    }

    /// The tag's bytes.
    pub fn as_slice(&self) -> &[u8]
        ensures bytes { result.now ≡ self.now }
        ensures tag { IsTrue (is_tag self.now) }
        ensures some { 0 < length self.now }
        ensures short { length self.now ≤ 255 }
        ensures text { IsUtf8 self.now }
    {
        self.text.as_slice()
    }

    /// An equal tag, from the same allocator.
    pub fn copy(&self) -> Result<Tag, NoMemory>
        ensures same { IfOk result (λ copied. copied ≡ self.now) }
    {
        Ok(Tag {
            text: self.text.clone()?,
        })
    }
}

impl PartialEq for Tag {
    ghost eq = { bytes_eq };

    ghost laws = { partial_equiv_from_equiv nat_list_eq_equiv };

    fn eq(&self, other: &Tag) -> bool {
        self.as_slice() == other.as_slice()
    }
}

impl Eq for Tag {
    ghost laws = { nat_list_eq_equiv };
}

fn is_tag(text: &[u8]) -> bool
    ensures { result ≡ is_tag text.now }
{
    !text.is_empty() && text.len() <= MAX_TAG && has_no_quote(text)
}

fn has_no_quote(text: &[u8]) -> bool
    ensures { result ≡ has_no_quote text.now }
{
    text.iter()
        .all(|byte| 0x21 <= *byte && *byte <= 0x7E && *byte != b'"')
}
