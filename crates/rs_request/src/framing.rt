//! What the fields of a head say of the body (RFC 9112, section 6).

ghost use Rattle.std.specs.Prelude.{◌≡◌, true, false, Option};
ghost use Rattle.std.specs.Char.{is_ascii_digit};
ghost use Rattle.std.specs.Str.Parse.{digits_value};
ghost use Rattle.std.specs.List.{find, list_all, list_any};
ghost use Rattle.rs_request.specs.Framing.{is_length, same_length, has_two_lengths, has_bad_length, is_chunked, length_framing, is_length_field, differs_from, stated, framed, request_framing, has_its_host, head_framing, has_body, expects_interim, ends_connection, says_close};

use crate::fault::WireWhy;
use crate::field::Field;
use crate::item::lists;
use crate::limits::{MAX_LENGTH_DIGITS, MAX_TARGET};
use crate::name::{count_named, first_named, has_named, some_says};
use rs_path::MAX_BODY;

/// How the end of a body is known (RFC 9112, section 6.3).
#[derive(Clone, Copy, Debug, PartialEq, Eq)]
pub enum Framing {
    /// The head states nothing.
    Unstated,
    /// So many bytes.
    Length(u64),
    /// Chunks, and a trailer.
    Chunked,
}

/// Whether a text is 1 to 18 digits.
#[tactic(auto, unfolding(crate::specs::Framing::is_length))]
fn is_length(text: &[u8]) -> bool
    ensures { result ≡ is_length text.now }
{
    if text.is_empty() || text.len() > MAX_LENGTH_DIGITS {
        return false;
    }
    are_digits(text)
}

/// Whether each byte is a digit.
fn are_digits(text: &[u8]) -> bool
    ensures { result ≡ list_all is_ascii_digit text.now }
{
    text.iter().all(|b| b.is_ascii_digit())
}

/// The number that digits give.
fn number(digits: &[u8]) -> u64
    requires { is_length digits.now ≡ true }
    ensures { result ≡ digits_value 10 digits.now }
{
    let mut sum: u64 = 0;
    for digit in digits {
        sum = sum * 10 + u64::from(*digit - b'0');
    }
    sum
}

/// Whether two texts of Content-Length are the same.
#[tactic(auto, unfolding(crate::specs::Framing::same_length))]
fn same_length(a: &[u8], b: &[u8]) -> bool
    ensures { result ≡ same_length a.now b.now }
{
    if is_length(a) && is_length(b) {
        number(a) == number(b)
    } else {
        a == b
    }
}

/// Whether there are two Content-Length fields that aren't the same.
#[tactic(auto, unfolding(crate::specs::Framing::has_two_lengths))]
fn has_two_lengths(fields: &[Field]) -> bool
    ensures { result ≡ has_two_lengths fields.now }
{
    match first_named(fields, b"content-length") {
        Some(first) => differs(first, fields),
        None => false,
    }
}

/// Whether some Content-Length isn't the same as that of the field.
fn differs(first: &Field, fields: &[Field]) -> bool
    ensures { result ≡ list_any (differs_from first.now) fields.now }
{
    fields.iter().any(|f| f.is_named(b"content-length")
        && !same_length(first.value.as_slice(), f.value.as_slice()))
}

/// Whether a Content-Length isn't 1 to 18 digits.
#[tactic(auto, unfolding(crate::specs::Framing::has_bad_length))]
fn has_bad_length(fields: &[Field]) -> bool
    ensures { result ≡ has_bad_length fields.now }
{
    fields.iter().any(|f| f.is_named(b"content-length") && !is_length(f.value.as_slice()))
}

/// The framing by the first Content-Length.
fn length_of(fields: &[Field]) -> Framing
    requires { has_bad_length fields.now ≡ false }
    ensures { result ≡ length_framing (find is_length_field fields.now) }
{
    match first_named(fields, b"content-length") {
        Some(first) => Framing::Length(number(first.value.as_slice())),
        None => Framing::Unstated,
    }
}

/// Whether there is one Transfer-Encoding, and it is `chunked`.
#[tactic(auto, unfolding(crate::specs::Framing::is_chunked))]
fn is_chunked(fields: &[Field]) -> bool
    ensures { result ≡ is_chunked fields.now }
{
    count_named(fields, b"transfer-encoding") == 1
        && some_says(fields, b"transfer-encoding", b"chunked")
}

/// What the fields of a message state of the body (RFC 9112, section 6), or what is wrong with it.
///
/// `Coding` where there is a Transfer-Encoding, but not one alone that is `chunked`; `TwoLengths` where a Content-Length stands
/// beside it, or beside another one that isn't the same; `BadLength` where a Content-Length isn't 1 to 18 digits.
#[tactic(auto, unfolding(crate::specs::Framing::stated))]
pub fn stated(fields: &[Field]) -> Result<Framing, WireWhy>
    ensures { result ≡ stated fields.now }
{
    if has_named(fields, b"transfer-encoding") {
        if !is_chunked(fields) {
            return Err(WireWhy::Coding);
        }
        if has_named(fields, b"content-length") {
            return Err(WireWhy::TwoLengths);
        }
        return Ok(Framing::Chunked);
    }
    if has_two_lengths(fields) {
        return Err(WireWhy::TwoLengths);
    }
    if has_bad_length(fields) {
        return Err(WireWhy::BadLength);
    }
    Ok(length_of(fields))
}

/// How the body of a request is framed.
#[tactic(auto, unfolding(crate::specs::Framing::request_framing))]
fn request_framing(minor: u8, fields: &[Field]) -> Result<Framing, WireWhy>
    ensures { result ≡ request_framing minor fields.now }
{
    if minor == 0 && has_named(fields, b"transfer-encoding") {
        return Err(WireWhy::Coding);
    }
    match stated(fields) {
        Ok(Framing::Length(n)) if n > MAX_BODY as u64 => Err(WireWhy::BodyLong),
        Ok(Framing::Unstated) => Ok(Framing::Length(0)),
        other => other,
    }
}

/// Whether a request has exactly one Host, where its version asks for one.
#[tactic(auto, unfolding(crate::specs::Framing::has_its_host))]
fn has_its_host(minor: u8, fields: &[Field]) -> bool
    ensures { result ≡ has_its_host minor fields.now }
{
    minor == 0 || count_named(fields, b"host") == 1
}

/// The framing of a request, or the first fault of its head.
#[tactic(auto, unfolding(crate::specs::Framing::head_framing))]
pub(crate) fn head_framing(
    minor: u8,
    target_length: usize,
    fields: &[Field],
) -> Result<Framing, WireWhy>
    ensures { result ≡ head_framing minor target_length fields.now }
{
    if !has_its_host(minor, fields) {
        return Err(WireWhy::BadHead);
    }
    if target_length > MAX_TARGET {
        return Err(WireWhy::TargetLong);
    }
    request_framing(minor, fields)
}

impl Framing {
    /// Whether a body comes.
    fn has_body(self) -> bool
        ensures { result ≡ has_body self }
    {
        match self {
            Framing::Unstated => false,
            Framing::Length(n) => n > 0,
            Framing::Chunked => true,
        }
    }
}

/// Whether the sender of a request waits for the interim reply.
#[tactic(auto, unfolding(crate::specs::Framing::expects_interim))]
pub(crate) fn expects_interim(minor: u8, fields: &[Field], framing: Framing) -> bool
    ensures { result ≡ expects_interim minor fields.now framing }
{
    minor == 1 && framing.has_body() && some_says(fields, b"expect", b"100-continue")
}

/// Whether the connection ends after the reply.
#[tactic(auto, unfolding(crate::specs::Framing::ends_connection))]
pub(crate) fn ends_connection(minor: u8, fields: &[Field]) -> bool
    ensures { result ≡ ends_connection minor fields.now }
{
    minor == 0 || lists_close(fields)
}

/// Whether a Connection field lists `close`.
fn lists_close(fields: &[Field]) -> bool
    ensures { result ≡ list_any says_close fields.now }
{
    fields.iter().any(|f| f.is_named(b"connection") && lists(b"close", f.value.as_slice()))
}
