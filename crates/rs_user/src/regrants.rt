//! Revocations and grants that leave all but the numbers as it was.

ghost use Rattle.std.specs.Prelude.{◌≡◌, ◌+◌, ◌*◌, ◌≤◌, List, true, is_some, Some};
ghost use Rattle.rs_scope.specs.declared.scope.Scope.{Scope};
ghost use Rattle.rs_rules.specs.Limits.{max_len};
ghost use Rattle.rs_rules.specs.Histories.{History, len, with_entries};
ghost use Rattle.rs_rules.specs.Tokens.{scopes_of};
ghost use Rattle.rs_user.specs.Regrants.{regrants};
ghost use Rattle.rs_user.specs.Standing.{StandsFor};

use crate::state::UserState;
use rs_rules::{Tree, lawful_laws, step_laws};
use rs_scope::Token;

impl<T: Tree> UserState<T> {
    /// The state after so many revocations of a granted token, each followed by a grant of the scopes that it had. No step
    /// of it is run and no row is kept: only the numbers of records grow. It takes no memory.
    ///
    /// A test stands so at the last record of a history, which no run reaches.
    pub fn after_regrants(self, token: &Token, pairs: u64) -> UserState<T>
        requires granted { (h : History) × StandsFor T.stands self h × (is_some (scopes_of h token.now) ≡ true) × (len h + 2 * pairs ≤ max_len) }
        ensures regranted { (h : History) (scopes : List Scope) → StandsFor T.stands self h → scopes_of h token.now ≡ Some scopes
            → StandsFor T.stands result (with_entries h (regrants token.now scopes pairs)) }
        ensures stands { (h : History) × StandsFor T.stands result h }
        ensures count { result.rows ≡ self.rows + 2 * pairs }
        ensures quota { result.quota ≡ self.quota }
    {
        lawful_laws();
        step_laws();
        let mut state = self;
        state.len += 2 * pairs;
        state.rows += 2 * pairs;
        state
    }
}
