//! Parts of a text that is held once.

ghost use Rattle.std.specs.Prelude.{◌≡◌, length, IfOk};
ghost use Rattle.std.specs.Cmp.{partial_equiv_from_equiv};
ghost use Rattle.std.specs.Str.{bytes_eq};
ghost use Rattle.std.proofs.lemmas.Cmp.{nat_list_eq_equiv};
ghost use Rattle.httparse.specs.Spans.{IsWithin, span_bytes};

use httparse::spans::Span;
use rs_path::{Bytes, NoMemory};
use std::marker::Model;

/// A part of a text, as the name or the value of a field of a head. Parts of one head have its text in common, which goes with
/// the last of them. A contract sees the part's bytes as their list.
#[derive(Debug, Drop)]
pub struct TextPart {
    text: Bytes,
    from: usize,
    to: usize,
}

impl Model for TextPart {
    ghost use Rattle.std.specs.Prelude.{List, ℕ, ◌≤◌, length, slice_range};

    ghost Value = { List ℕ };

    ghost view = { λ p. slice_range p.text p.from p.to };

    ghost invariant = { λ p. (p.from ≤ p.to) × (p.to ≤ length p.text) };
}

impl TextPart {
    /// The whole of a text.
    pub fn of(text: Bytes) -> TextPart
        ensures bytes { result ≡ text }
    {
        let to = text.as_slice().len();
        TextPart { text, from: 0, to }
    }

    /// The bytes of a text at this place. Where the text is shared, this takes no memory.
    pub(crate) fn at(text: &Bytes, place: Span) -> Result<TextPart, NoMemory>
        requires { IsWithin (length text.now) place }
        ensures { IfOk result (λ part. part ≡ span_bytes text.now place) }
    {
        let text = text.copy()?;
        Ok(TextPart {
            text,
            from: place.start,
            to: place.end,
        })
    }

    /// How many bytes there are.
    pub(crate) fn len(&self) -> usize
        ensures { result ≡ length self.now }
    {
        self.to - self.from
    }

    /// The bytes.
    pub fn as_slice(&self) -> &[u8]
        ensures bytes { result.now ≡ self.now }
    {
        &self.text.as_slice()[self.from..self.to]
    }
}

impl PartialEq for TextPart {
    ghost eq = { bytes_eq };

    ghost laws = { partial_equiv_from_equiv nat_list_eq_equiv };

    fn eq(&self, other: &TextPart) -> bool {
        self.as_slice() == other.as_slice()
    }
}

impl Eq for TextPart {
    ghost laws = { nat_list_eq_equiv };
}
