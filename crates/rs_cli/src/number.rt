//! Numbers of the command line.

ghost use Rattle.std.specs.Prelude.{◌≡◌};
ghost use Rattle.std.specs.List.{list_all};
ghost use Rattle.std.specs.Char.{is_ascii_digit};
ghost use Rattle.rs_cli.specs.Numbers.{is_numeral, number_spelled};

/// The most digits of a number.
const MAX_DIGITS: usize = 20;

/// The number that the word spells in decimal digits, without sign and leading zero; None where it spells none, or one
/// greater than the greatest of 64 bits.
pub fn read_number(word: &str) -> Option<u64>
    ensures number { result ≡ number_spelled word.now }
{
    if !is_numeral(word.as_bytes()) {
        return None;
    }
    match word.parse::<u64>() {
        Ok(number) => Some(number),
        Err(_) => None,
    }
}

fn is_numeral(word: &[u8]) -> bool
    ensures numeral { result ≡ is_numeral word.now }
{
    are_digits(word)
        && 1 <= word.len()
        && word.len() <= MAX_DIGITS
        && (word.len() == 1 || word[0] != b'0')
}

fn are_digits(word: &[u8]) -> bool
    ensures digits { result ≡ list_all is_ascii_digit word.now }
{
    word.iter().all(|byte| byte.is_ascii_digit())
}
