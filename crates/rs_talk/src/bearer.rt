//! Tokens as a client shows them.

ghost use Rattle.std.specs.Prelude.{◌≡◌, ◌≤◌, length, position, Some, None, IfOk, IsTrue, if◌then◌else◌};
ghost use Rattle.std.specs.List.{list_all};
ghost use Rattle.std.specs.Cmp.{partial_equiv_from_equiv};
ghost use Rattle.std.proofs.lemmas.Cmp.{nat_list_eq_equiv};
ghost use Rattle.std.specs.Str.{bytes_eq};
ghost use Rattle.rs_talk.specs.Bearers.{is_bearer, is_b64token, is_bearer_front, is_bearer_byte, is_padding};

use crate::limits::MAX_BEARER;
use rs_path::NoMemory;
use std::alloc::Global;
use std::marker::Model;

/// A bearer token: 1 to 1,024 bytes of the b64token of RFC 6750, section 2.1. A contract sees it as its bytes.
#[derive(Debug, Drop)]
pub struct Bearer {
    text: Vec<u8>,
}

impl Model for Bearer {
    ghost use Rattle.std.specs.Prelude.{List, ℕ, IsTrue};
    ghost use Rattle.rs_talk.specs.Bearers.{is_bearer};

    ghost Value = { List ℕ };

    ghost view = { λ b. b.text.items };

    ghost invariant = { λ b. IsTrue (is_bearer b.text.items) };
}

impl Bearer {
    /// The token with these bytes, or None where they are none.
    pub fn read(alloc: Global, text: &[u8]) -> Result<Option<Bearer>, NoMemory>
        ensures read { IfOk result (λ bearer. bearer ≡ (if is_bearer text.now then Some text.now else None)) }
    {
        if !is_bearer(text) {
            return Ok(None);
        }
        Ok(Some(Bearer {
            text: Vec::from_slice(alloc, text)?,
        }))
    }

    /// The token's bytes.
    pub fn as_slice(&self) -> &[u8]
        ensures bytes { result.now ≡ self.now }
        ensures bearer { IsTrue (is_bearer self.now) }
        ensures short { length self.now ≤ 1024 }
    {
        self.text.as_slice()
    }

    /// An equal token, from the same allocator.
    pub fn copy(&self) -> Result<Bearer, NoMemory>
        ensures same { IfOk result (λ copied. copied ≡ self.now) }
    {
        Ok(Bearer {
            text: self.text.clone()?,
        })
    }
}

impl PartialEq for Bearer {
    ghost eq = { bytes_eq };

    ghost laws = { partial_equiv_from_equiv nat_list_eq_equiv };

    fn eq(&self, other: &Bearer) -> bool {
        self.as_slice() == other.as_slice()
    }
}

impl Eq for Bearer {
    ghost laws = { nat_list_eq_equiv };
}

fn is_bearer(text: &[u8]) -> bool
    ensures bearer { result ≡ is_bearer text.now }
{
    text.len() <= MAX_BEARER && is_b64token(text)
}

fn is_b64token(text: &[u8]) -> bool
    ensures token { result ≡ is_b64token text.now }
{
    match first_padding(text) {
        None => is_bearer_front(text),
        Some(place) => is_bearer_front(&text[..place]) && is_all_padding(&text[place..]),
    }
}

fn first_padding(text: &[u8]) -> Option<usize>
    ensures first { result ≡ position is_padding text.now }
{
    text.iter().position(|byte| *byte == b'=')
}

fn is_all_padding(text: &[u8]) -> bool
    ensures all { result ≡ list_all is_padding text.now }
{
    text.iter().all(|byte| *byte == b'=')
}

fn is_bearer_front(text: &[u8]) -> bool
    ensures front { result ≡ is_bearer_front text.now }
{
    !text.is_empty() && are_bearer_bytes(text)
}

fn are_bearer_bytes(text: &[u8]) -> bool
    ensures all { result ≡ list_all is_bearer_byte text.now }
{
    text.iter().all(|byte| is_bearer_byte(*byte))
}

fn is_bearer_byte(byte: u8) -> bool
    ensures test { result ≡ is_bearer_byte byte }
{
    byte.is_ascii_alphanumeric() || matches!(byte, b'-' | b'.' | b'_' | b'~' | b'+' | b'/')
}
