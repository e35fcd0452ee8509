//! The request line of a message (RFC 9112, section 3), read once.

ghost use Rattle.std.specs.Prelude.{◌≡◌};
ghost use Rattle.rs_exchange.specs.Targets.{is_shared, request_line_of, line_seen};

use crate::account::Accounts;
use crate::target::{Target, target_of, target_parts};
use crate::verb::{Verb, verb_of};

/// What the request line of a message is, to a server of some users.
#[derive(Clone, Copy, Debug)]
pub struct RequestLine<'a> {
    pub verb: Verb,
    pub target: Target<'a>,
    /// Whether pages of any origin may read the reply. Not where the target begins with `/oauth/`.
    pub shared: bool,
}

/// Reads the method and the target of a message, as they stand in it.
pub fn read_line<'a>(accounts: &Accounts, method: &[u8], target: &'a [u8]) -> RequestLine<'a>
    ensures line { line_seen result ≡ request_line_of accounts.now method.now target.now }
{
    let (text, query) = target_parts(target);
    RequestLine {
        verb: verb_of(method),
        target: target_of(accounts, text, query),
        shared: is_shared(text),
    }
}

fn is_shared(text: &[u8]) -> bool
    ensures shared { result ≡ is_shared text.now }
{
    !text.starts_with(b"/oauth/")
}
