//! Names of users.

ghost use Rattle.std.specs.Prelude.{◌≡◌};
ghost use Rattle.std.specs.List.{list_all};
ghost use Rattle.rs_path.specs.Users.{is_user, is_user_byte};

use crate::limits::MAX_USER;

/// Whether the text is a user's name: 1 to 32 bytes of `a` to `z`, digits, `-` and `_`.
pub fn is_user(text: &[u8]) -> bool
    ensures user { result ≡ is_user text.now }
{
    (1..=MAX_USER).contains(&text.len()) && are_user_bytes(text)
}

fn are_user_bytes(text: &[u8]) -> bool
    ensures all { result ≡ list_all is_user_byte text.now }
{
    text.iter().all(|byte| is_user_byte(*byte))
}

fn is_user_byte(byte: u8) -> bool
    ensures test { result ≡ is_user_byte byte }
{
    byte.is_ascii_lowercase() || byte.is_ascii_digit() || byte == b'-' || byte == b'_'
}
