//! Which message granted a token, as a law.

ghost use Rattle.std.specs.Prelude.{◌≡◌, ℕ, List};
ghost use Rattle.rs_scope.specs.declared.scope.Scope.{Scope};
ghost use Rattle.rs_record.specs.declared.records.Record.TheVariants.{Grant as GrantRecord};
ghost use Rattle.rs_rules.specs.Histories.{History};
ghost use Rattle.rs_request.specs.declared.message.RequestMessage.{RequestMessage};
ghost use Rattle.rs_exchange.specs.declared.account.Config.{Config};
ghost use Rattle.rs_exchange.specs.Requests.{asked_of};
ghost use Rattle.rs_front.specs.Due.{Users, Outcome, GoesOn};
ghost use Rattle.rs_front.specs.Granting.{AddsOne, IsGrantOf};

use rs_exchange::asked_laws;
use rs_rules::taken_laws;

/// A token is granted over a connection only by a message that asks for a grant which the user's password allows
/// (`asked_laws`, clause `allowed`), with the scopes that it asks for; the token is that of the two words that were drawn for it.
pub fn grant_law()
    ensures granted { (users : Users) (config : Config) (m : RequestMessage) (outcome : Outcome) (old new : ℕ → History) (user : ℕ) (token : List ℕ) (scopes : List Scope)
        → GoesOn users (asked_of config m) outcome old new → AddsOne (users.me user) (old user) (new user) (GrantRecord token scopes)
        → IsGrantOf (asked_of config m) user token scopes outcome }
{
    asked_laws();
    taken_laws();
}
