//! How a reply is written.

ghost use Rattle.std.specs.Prelude.{◌≡◌, ◌||◌, ◌+◌, ◌<◌, ◌^◌};
ghost use Rattle.rs_exchange.specs.Manners.{is_head, is_last};

use crate::request_line::RequestLine;
use crate::verb::Verb;
use rs_scope::Method;

/// The most replies on one connection to messages that were read.
pub const MAX_REPLIES: u64 = 1_000;

/// What a request and its place on the connection say of how its reply is written.
#[derive(Clone, Copy, Debug, PartialEq, Eq)]
pub struct Manner {
    /// Whether pages of any origin may read the reply. Not where the target begins with `/oauth/`.
    pub shared: bool,
    /// Whether the request is a HEAD, whose reply is that of a GET without its body (RFC 9110, section 9.3.2).
    pub bodiless: bool,
    /// Whether the connection ends behind the reply (RFC 9112, section 9.6).
    pub closing: bool,
}

/// How the reply to a message with this request line is written, which asks to close or not, after so many others.
pub fn manner_of(line: &RequestLine, close: bool, count: u64) -> Manner
    requires few { count + 1 < 2 ^ 64 }
    ensures manner { result ≡ record {
      shared = line.now.shared;
      bodiless = is_head line.now.verb;
      closing = close || is_last count;
    } }
{
    Manner {
        shared: line.shared,
        bodiless: is_head(line.verb),
        closing: close || count + 1 == MAX_REPLIES,
    }
}

fn is_head(verb: Verb) -> bool
    ensures head { result ≡ is_head verb }
{
    match verb {
        Verb::Data(Method::Head) => true,
        _ => false,
    }
}
