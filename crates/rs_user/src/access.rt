//! Who may: the first three steps.

ghost use Rattle.std.specs.Prelude.{◌≡◌, ℕ, List, None, IfSome};
ghost use Rattle.std.specs.Option.{option_or};
ghost use Rattle.rs_rules.specs.Snapshots.{Snapshot};
ghost use Rattle.rs_rules.specs.Answers.{first_of, early_steps, place_steps, record_of_call};
ghost use Rattle.rs_user.specs.Grants.{scopes_in, token_refusal};

use crate::granted::Grants;
use rs_rules::{Call, Pass, Reply};
use rs_scope::{Token, free_read, reaches};

/// The reply to a request whose token isn't enough (RFC 6750, section 3.1), or None where it is.
pub(crate) fn refused_access(granted: &Grants, call: &Call) -> Option<Reply>
    ensures access { (s : Snapshot) → ((token : List ℕ) → scopes_in token granted.now ≡ s.scopes token)
        → first_of (early_steps s call.now) ≡ option_or result (first_of (place_steps s call.now)) }
    ensures plain { IfSome result (λ reply. record_of_call call.now reply ≡ None) }
{
    if free_read(call.method, &call.path) {
        return None;
    }
    match &call.pass {
        Pass::Missing => Some(Reply::NoToken),
        Pass::Strange => Some(Reply::BadToken),
        Pass::Known(token) => refused_token(granted, token, call),
    }
}

fn refused_token(granted: &Grants, token: &Token, call: &Call) -> Option<Reply>
    ensures reply { result ≡ token_refusal (scopes_in token.now granted.now) call.now.method call.now.path }
{
    match granted.scopes_in(token) {
        None => Some(Reply::BadToken),
        Some(scopes) => {
            if reaches(scopes, call.method, &call.path) {
                None
            } else {
                Some(Reply::Forbidden)
            }
        }
    }
}
