//! The tokens that are granted.

ghost use Rattle.std.specs.Prelude.{◌≡◌, List, [], ℕ, true, Some, None, OnOk, OnErr, is_none, option_copied, if◌then◌else◌};
ghost use Rattle.std.specs.Str.{bytes_eq};
ghost use Rattle.rs_user.specs.Grants.{scopes_in};

use rs_path::NoMemory;
use rs_scope::{Scopes, Token};
use std::alloc::Global;
use std::collections::BTreeMap;
use std::marker::Model;

/// The granted tokens with their scopes, each once, in the order of their bytes. A look-up, a grant and a withdrawal take a
/// time that grows with the logarithm of their number. A contract sees them as the list of the tokens with their scopes, and
/// looks a token up there.
#[derive(Drop)]
pub(crate) struct Grants {
    map: BTreeMap<Token, Scopes>,
    alloc: Global,
}

impl Model for Grants {
    ghost use Rattle.std.specs.Prelude.{List, ℕ};
    ghost use Rattle.rs_scope.specs.declared.scope.Scope.{Scope};

    ghost Value = { List (List ℕ × List Scope) };

    ghost view = { λ s. s.map.entries };
}

impl Grants {
    /// No token is granted.
    pub(crate) fn new(alloc: Global) -> Grants
        ensures empty { result ≡ [] }
    {
        Grants {
            map: BTreeMap::new(alloc),
            alloc,
        }
    }

    /// The allocator of the tokens.
    pub(crate) fn allocator(&self) -> Global {
        self.alloc
    }

    /// The scopes of the token, if it is granted.
    pub(crate) fn scopes_in(&self, token: &Token) -> Option<&Scopes>
        ensures scopes { option_copied result ≡ scopes_in token.now self.now }
    {
        self.map.get(token)
    }

    /// Adds the grant of a token that isn't granted. Where there is no memory for it, all is as before.
    pub(crate) fn add(&mut self, token: Token, scopes: Scopes) -> Result<(), NoMemory>
        requires fresh { is_none (scopes_in token self.old) ≡ true }
        ensures scopes { OnOk result ((other : List ℕ) → scopes_in other self.new
            ≡ (if bytes_eq token other then Some scopes else scopes_in other self.old)) }
        ensures same { OnErr result ((other : List ℕ) → scopes_in other self.new ≡ scopes_in other self.old) }
    {
        self.map.insert(token, scopes)?;
        Ok(())
    }

    /// Drops the grant of the token, if there is one.
    pub(crate) fn withdraw(&mut self, token: &Token)
        ensures scopes { (other : List ℕ) → scopes_in other self.new
            ≡ (if bytes_eq token.now other then None else scopes_in other self.old) }
    {
        self.map.remove(token);
    }
}
