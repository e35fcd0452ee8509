//! Digests of passwords, as words.

ghost use Rattle.std.specs.Prelude.{◌≡◌};
ghost use Rattle.std.specs.List.{list_all};
ghost use Rattle.rs_scope.specs.Tokens.{is_lower_digit};
ghost use Rattle.rs_config.specs.Secrets.{secret_reading};

/// The 32 bytes with this text, or None where it isn't exactly 64 lower hexadecimal digits.
pub fn read_secret(text: &[u8]) -> Option<[u8; 32]>
    ensures read { result ≡ secret_reading text.now }
{
    if text.len() != 64 || !has_lower_digits(text) {
        return None;
    }
    let mut bytes = [0u8; 32];
    match hex::decode_to_slice(text, &mut bytes) {
        Ok(()) => Some(bytes),
        Err(_) => None,
    }
}

fn has_lower_digits(text: &[u8]) -> bool
    ensures { result ≡ list_all is_lower_digit text.now }
{
    text.iter()
        .all(|byte| matches!(*byte, b'0'..=b'9' | b'a'..=b'f'))
}
