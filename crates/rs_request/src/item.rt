//! The items of a value that is a list (RFC 9110, section 5.6.1).

ghost use Rattle.std.specs.Prelude.{◌≡◌, ◌+◌, ◌^◌, ◌<◌, ◌==◌, length, reverse, position, IfSome};
ghost use Rattle.httparse.specs.Grammar.{skip_ows, trim_ows};
ghost use Rattle.rs_request.specs.Items.{is_list_item, lists};

use crate::name::same_name;
use httparse::is_space_or_tab;

const COMMA: u8 = b',';

/// The bytes from the first that is no blank.
fn trim_start(mut bytes: &[u8]) -> &[u8]
    ensures { result.now ≡ skip_ows bytes.now }
{
    while let [first, rest @ ..] = bytes
        && is_space_or_tab(*first)
    {
        bytes = rest;
    }
    bytes
}

/// The bytes up to the last that is no blank.
fn trim_end(mut bytes: &[u8]) -> &[u8]
    ensures { result.now ≡ reverse (skip_ows (reverse bytes.now)) }
{
    while let [rest @ .., last] = bytes
        && is_space_or_tab(*last)
    {
        bytes = rest;
    }
    bytes
}

/// Whether a piece is the item, without the blanks round it and without case.
#[tactic(auto, unfolding(httparse::specs::Grammar::trim_ows))]
fn is_list_item(item: &[u8], piece: &[u8]) -> bool
    ensures { result ≡ is_list_item item.now piece.now }
{
    same_name(trim_end(trim_start(piece)), item)
}

/// The index of the first comma.
fn first_comma(bytes: &[u8]) -> Option<usize>
    ensures place { result ≡ position (λ b. b == COMMA) bytes.now }
    ensures within { IfSome result (λ i. i < length bytes.now) }
    ensures small { IfSome result (λ i. i + 1 < 2 ^ 64) }
{
    bytes.iter().position(|b| *b == COMMA)
}

/// Whether a value lists the item between commas.
pub(crate) fn lists(item: &[u8], value: &[u8]) -> bool
    ensures { result ≡ lists item.now value.now }
{
    let mut rest = value;
    while let Some(comma) = first_comma(rest) {
        if is_list_item(item, &rest[..comma]) {
            return true;
        }
        let (_, after) = rest.split_at(comma + 1);
        rest = after;
    }
    is_list_item(item, rest)
}
