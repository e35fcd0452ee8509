//! Access tokens.

ghost use Rattle.std.specs.Prelude.{◌≡◌, length, Some, IsTrue};
ghost use Rattle.std.specs.List.{list_all};
ghost use Rattle.std.specs.Prelude.{refl};
ghost use Rattle.std.specs.Cmp.{partial_equiv_from_equiv};
ghost use Rattle.std.specs.Cmp.Lexicographic.{slice_cmp, texts_ties};
ghost use Rattle.std.specs.Ordering.{nat_cmp, as_partial_cmp};
ghost use Rattle.std.specs.Str.{bytes_eq};
ghost use Rattle.std.proofs.lemmas.Cmp.{nat_list_cmp_total, nat_list_eq_equiv};
ghost use Rattle.rs_scope.specs.TokenOrder.{token_order};
ghost use Rattle.rs_scope.specs.Tokens.{is_token, is_lower_digit, token_reading, token_text, bytes_of_words};

use std::cmp::Ordering;
use std::marker::Model;

/// An access token: sixteen bytes, with a text of 32 lower hexadecimal digits.
///
/// What an application sends as its bearer token (RFC 6750, section 2.1). A contract sees it as its bytes.
#[derive(Debug, Clone, Copy)]
pub struct Token {
    bytes: [u8; 16],
}

impl Model for Token {
    ghost use Rattle.std.specs.Prelude.{List, ℕ, IsTrue};
    ghost use Rattle.rs_scope.specs.Tokens.{is_token};

    ghost Value = { List ℕ };

    ghost view = { λ t. t.bytes };

    ghost inverse = { λ bytes. record { bytes = bytes } };

    ghost invariant = { λ t. IsTrue (is_token t.bytes) };
}

impl Token {
    /// The token with this text, or None where the text isn't exactly 32 lower hexadecimal digits.
    pub fn read(text: &[u8]) -> Option<Token>
        ensures read { result ≡ token_reading text.now }
    {
        if text.len() != 32 || !has_lower_digits(text) {
            return None;
        }
        let mut bytes = [0u8; 16];
        match hex::decode_to_slice(text, &mut bytes) {
            Ok(()) => Some(Token { bytes }),
            Err(_) => None,
        }
    }

    /// The token of sixteen bytes.
    pub fn of_bytes(bytes: &[u8]) -> Token
        requires sixteen { length bytes.now ≡ 16 }
        ensures bytes { result ≡ bytes.now }
    {
        let mut copied = [0u8; 16];
        copied.copy_from_slice(bytes);
        Token { bytes: copied }
    }

    /// The token of two words, the first word first and each with its high byte first.
    pub fn of_words(first: u64, second: u64) -> Token
        ensures bytes { result ≡ bytes_of_words first second }
    {
        let mut bytes = [0u8; 16];
        bytes[..8].copy_from_slice(&first.to_be_bytes());
        bytes[8..].copy_from_slice(&second.to_be_bytes());
        Token { bytes }
    }

    /// The token's bytes.
    pub fn as_bytes(&self) -> &[u8]
        ensures bytes { result.now ≡ self.now }
        ensures token { IsTrue (is_token self.now) }
        ensures length { length self.now ≡ 16 }
    {
        &self.bytes
    }

    /// The token's 32 lower hexadecimal digits, the high four bits of a byte first.
    pub fn digits(&self) -> [u8; 32]
        ensures digits { result ≡ token_text self.now }
        ensures back { token_reading (token_text self.now) ≡ Some self.now }
    {
        let mut digits = [0u8; 32];
        let _written = hex::encode_to_slice(self.bytes, &mut digits);
        digits
    }
}

impl PartialEq for Token {
    ghost eq = { bytes_eq };

    ghost laws = { partial_equiv_from_equiv nat_list_eq_equiv };

    fn eq(&self, other: &Token) -> bool {
        self.as_bytes() == other.as_bytes()
    }
}

impl Eq for Token {
    ghost laws = { nat_list_eq_equiv };
}

impl PartialOrd for Token {
    ghost partial_cmp = { as_partial_cmp (slice_cmp nat_cmp) };

    ghost laws = { token_order };

    fn partial_cmp(&self, other: &Token) -> Option<Ordering> {
        Some(self.cmp(other))
    }
}

/// The order of the bytes.
impl Ord for Token {
    ghost cmp = { slice_cmp nat_cmp };

    ghost total = { nat_list_cmp_total };

    ghost matches_partial_cmp = { λ p q. refl };

    ghost matches_eq = { texts_ties };

    fn cmp(&self, other: &Token) -> Ordering {
        self.as_bytes().cmp(other.as_bytes())
    }
}

fn has_lower_digits(text: &[u8]) -> bool
    ensures { result ≡ list_all is_lower_digit text.now }
{
    text.iter()
        .all(|byte| matches!(*byte, b'0'..=b'9' | b'a'..=b'f'))
}
