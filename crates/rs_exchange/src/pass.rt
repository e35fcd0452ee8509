//! What a request shows of a token.

ghost use Rattle.std.specs.Prelude.{◌≡◌, ◌<◌, ◌==◌, ℕ, List, length, not, position, IfSome};
ghost use Rattle.rs_exchange.specs.Fields.{Occurring};
ghost use Rattle.rs_exchange.specs.Passes.{after_spaces, pass_of_text, pass_of_scheme, pass_of_value, pass_of};

use crate::fields::Occurs;
use rs_rules::Pass;
use rs_scope::Token;
use rs_wire::same_name;

/// What the Authorization fields show.
pub(crate) fn read_pass(fields: Occurs) -> Pass
    ensures pass { (values : List (List ℕ)) → Occurring fields.entry values → result ≡ pass_of values }
{
    match fields {
        Occurs::Never => Pass::Missing,
        Occurs::Once(value) => pass_of_value(value),
        Occurs::Often => Pass::Strange,
    }
}

fn pass_of_value(value: &[u8]) -> Pass
    ensures pass { result ≡ pass_of_value value.now }
{
    match first_space(value) {
        Some(space) => pass_of_scheme(&value[..space], &value[space..]),
        None => pass_of_scheme(value, &[]),
    }
}

fn pass_of_scheme(scheme: &[u8], text: &[u8]) -> Pass
    ensures pass { result ≡ pass_of_scheme scheme.now text.now }
{
    if same_name(scheme, b"bearer") {
        pass_of_text(after_spaces(text))
    } else {
        Pass::Missing
    }
}

fn pass_of_text(text: &[u8]) -> Pass
    ensures pass { result ≡ pass_of_text text.now }
{
    match Token::read(text) {
        Some(token) => Pass::Known(token),
        None => Pass::Strange,
    }
}

fn after_spaces(text: &[u8]) -> &[u8]
    ensures rest { result.now ≡ after_spaces text.now }
{
    match first_other(text) {
        Some(at) => &text[at..],
        None => &[],
    }
}

fn first_space(text: &[u8]) -> Option<usize>
    ensures first { result ≡ position (λ byte. byte == 32) text.now }
    ensures within { IfSome result (λ at. at < length text.now) }
{
    text.iter().position(|byte| *byte == b' ')
}

fn first_other(text: &[u8]) -> Option<usize>
    ensures first { result ≡ position (λ byte. not (byte == 32)) text.now }
    ensures within { IfSome result (λ at. at < length text.now) }
{
    text.iter().position(|byte| *byte != b' ')
}
