//! Content types of documents.

ghost use Rattle.std.specs.Prelude.{◌≡◌, ◌<◌, ◌≤◌, length, Some, None, IfOk, IsTrue, IsUtf8, if◌then◌else◌};
ghost use Rattle.std.specs.Cmp.{partial_equiv_from_equiv};
ghost use Rattle.std.proofs.lemmas.Cmp.{nat_list_eq_equiv};
ghost use Rattle.std.specs.Str.{bytes_eq};
ghost use Rattle.rs_path.specs.Kinds.{is_kind, is_printable, is_bare};

use crate::limits::MAX_KIND;
use crate::no_memory::NoMemory;
use std::alloc::Global;
use std::marker::Model;

/// A content type: 1 to 255 bytes of 0x20 to 0x7E, of which neither the first nor the last is a space.
///
/// What a Content-Type field may hold here (RFC 9110, section 8.3). A contract sees it as its bytes.
#[derive(Debug, Drop)]
pub struct Kind {
    text: Vec<u8>,
}

impl Model for Kind {
    ghost use Rattle.std.specs.Prelude.{List, ℕ, IsTrue};
    ghost use Rattle.rs_path.specs.Kinds.{is_kind};

    ghost Value = { List ℕ };

    ghost view = { λ k. k.text.items };

    ghost invariant = { λ k. IsTrue (is_kind k.text.items) };
}

impl Kind {
    /// The content type with these bytes, or None where they are none.
    pub fn read(alloc: Global, text: &[u8]) -> Result<Option<Kind>, NoMemory>
        ensures read { IfOk result (λ kind. kind ≡ (if is_kind text.now then Some text.now else None)) }
    {
        if !is_kind(text) {
            return Ok(None);
        }
        Ok(Some(Kind {
            text: Vec::from_slice(alloc, text)?,
        }))
    }

    /// The content type's bytes.
    pub fn as_slice(&self) -> &[u8]
        ensures bytes { result.now ≡ self.now }
        ensures kind { IsTrue (is_kind self.now) }
        ensures some { 0 < length self.now }
        ensures short { length self.now ≤ 255 }
        ensures text { IsUtf8 self.now }
    {
        self.text.as_slice()
    }

    /// An equal content type, from the same allocator.
    pub fn copy(&self) -> Result<Kind, NoMemory>
        ensures same { IfOk result (λ copied. copied ≡ self.now) }
    {
        Ok(Kind {
            text: self.text.clone()?,
        })
    }
}

impl PartialEq for Kind {
    ghost eq = { bytes_eq };

    ghost laws = { partial_equiv_from_equiv nat_list_eq_equiv };

    fn eq(&self, other: &Kind) -> bool {
        self.as_slice() == other.as_slice()
    }
}

impl Eq for Kind {
    ghost laws = { nat_list_eq_equiv };
}

fn is_kind(text: &[u8]) -> bool
    ensures { result ≡ is_kind text.now }
{
    !text.is_empty() && text.len() <= MAX_KIND && is_printable(text) && is_bare(text)
}

fn is_printable(text: &[u8]) -> bool
    ensures { result ≡ is_printable text.now }
{
    text.iter().all(|byte| 0x20 <= *byte && *byte <= 0x7E)
}

fn is_bare(text: &[u8]) -> bool
    requires { 0 < length text.now }
    ensures { result ≡ is_bare text.now }
{
    text[0] != b' ' && text[text.len() - 1] != b' '
}
