//! The methods of requests.

ghost use Rattle.std.specs.Prelude.{◌≡◌, if◌then◌else◌};
ghost use Rattle.rs_exchange.specs.Targets.{verb_of};

use rs_scope::Method;

/// The method of a request, as far as any target knows it (RFC 9110, section 9).
#[derive(Clone, Copy, Debug, PartialEq, Eq)]
pub enum Verb {
    /// GET, HEAD, PUT or DELETE.
    Data(Method),
    Options,
    Post,
    /// A method that no target takes.
    Other,
}

/// The method with this name. Methods have a case (RFC 9110, section 9.1).
#[tactic(auto, unfolding(crate::specs::Targets::verb_of))]
pub fn verb_of(text: &[u8]) -> Verb
    ensures verb { result ≡ verb_of text.now }
{
    if text == b"GET".as_slice() {
        Verb::Data(Method::Get)
    } else if text == b"HEAD".as_slice() {
        Verb::Data(Method::Head)
    } else if text == b"PUT".as_slice() {
        Verb::Data(Method::Put)
    } else if text == b"DELETE".as_slice() {
        Verb::Data(Method::Delete)
    } else if text == b"OPTIONS".as_slice() {
        Verb::Options
    } else if text == b"POST".as_slice() {
        Verb::Post
    } else {
        Verb::Other
    }
}
