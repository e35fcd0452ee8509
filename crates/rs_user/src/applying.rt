//! What a record does to a state.

ghost use Rattle.std.specs.Prelude.{◌≡◌, ◌+◌, ◌<◌, ℕ, List, Option, true, is_none, OnOk, OnErr};
ghost use Rattle.rs_path.specs.Paths.{Path as PathValue};
ghost use Rattle.rs_scope.specs.declared.scope.Scope.{Scope};
ghost use Rattle.rs_record.specs.declared.records.Record.TheVariants.{Put as PutRecord, Remove as RemoveRecord, Grant as GrantRecord, Revoke as RevokeRecord};
ghost use Rattle.rs_rules.specs.Limits.{max_len};
ghost use Rattle.rs_rules.specs.Histories.{History, len, with_entry};
ghost use Rattle.rs_rules.specs.Snapshots.{snapshot};
ghost use Rattle.rs_rules.specs.Lawful.{may_follow, IsLawful};
ghost use Rattle.rs_rules.specs.Tokens.{scopes_of};
ghost use Rattle.rs_user.specs.Standing.{StandsFor};

use crate::state::UserState;
use rs_path::{NoMemory, Path};
use rs_rules::{Tree, lawful_laws, step_laws, version_bounds};
use rs_scope::{Scopes, Token};

impl<T: Tree> UserState<T> {
    /// Puts the document that the tree made room for.
    pub(crate) fn put(&mut self, ready: T::Ready)
        requires fits { (h : History) × (path : PathValue) × (kind : List ℕ) × (body : List ℕ) × (writer : Option (List ℕ))
            × StandsFor T.stands self.old h × T.ready_for self.old.tree ready path kind body
            × (may_follow (snapshot h) (PutRecord path kind body writer) ≡ true) × (len h < max_len) }
        ensures put { (h : History) (who : ℕ) (path : PathValue) (kind body : List ℕ) (writer : Option (List ℕ))
            → StandsFor T.stands self.old h → T.ready_for self.old.tree ready path kind body
            → may_follow (snapshot h) (PutRecord path kind body writer) ≡ true → len h < max_len
            → StandsFor T.stands self.new (with_entry h (record { who = who; what = PutRecord path kind body writer })) }
        ensures counted { (self.new.rows ≡ self.old.rows + 1) × (self.new.quota ≡ self.old.quota) }
    {
        version_bounds();
        lawful_laws();
        step_laws();
        self.tree.put(self.len + 1, ready);
        self.len += 1;
        self.rows += 1;
    }

    /// Removes the document at the path.
    pub(crate) fn remove(&mut self, path: &Path)
        requires fits { (h : History) × (writer : Option (List ℕ)) × StandsFor T.stands self.old h
            × (may_follow (snapshot h) (RemoveRecord path.now writer) ≡ true) × (len h < max_len) }
        ensures removed { (h : History) (who : ℕ) (writer : Option (List ℕ)) → StandsFor T.stands self.old h
            → may_follow (snapshot h) (RemoveRecord path.now writer) ≡ true → len h < max_len
            → StandsFor T.stands self.new (with_entry h (record { who = who; what = RemoveRecord path.now writer })) }
        ensures counted { (self.new.rows ≡ self.old.rows + 1) × (self.new.quota ≡ self.old.quota) }
    {
        version_bounds();
        lawful_laws();
        step_laws();
        self.tree.remove(self.len + 1, path);
        self.len += 1;
        self.rows += 1;
    }

    /// Grants scopes to a token. Where there is no memory for it, the state stands for what it stood for.
    pub(crate) fn grant(&mut self, token: Token, scopes: Scopes) -> Result<(), NoMemory>
        requires fits { (h : History) × StandsFor T.stands self.old h
            × (may_follow (snapshot h) (GrantRecord token scopes) ≡ true) × (len h < max_len) }
        ensures granted { (h : History) (who : ℕ) → StandsFor T.stands self.old h
            → may_follow (snapshot h) (GrantRecord token scopes) ≡ true → len h < max_len
            → OnOk result (StandsFor T.stands self.new (with_entry h (record { who = who; what = GrantRecord token scopes }))) }
        ensures same { OnErr result ((h : History) → StandsFor T.stands self.old h → StandsFor T.stands self.new h) }
        ensures counted { OnOk result (self.new.rows ≡ self.old.rows + 1) }
        ensures uncounted { OnErr result (self.new.rows ≡ self.old.rows) }
        ensures quota { self.new.quota ≡ self.old.quota }
    {
        lawful_laws();
        step_laws();
        self.granted.add(token, scopes)?;
        self.len += 1;
        self.rows += 1;
        Ok(())
    }

    /// Takes back the last record's grant to the token, which had no scopes before: as if it had never been made.
    pub(crate) fn ungrant(&mut self, token: &Token)
        requires last { (h : History) × (who : ℕ) × (scopes : List Scope)
            × StandsFor T.stands self.old (with_entry h (record { who = who; what = GrantRecord token.now scopes })) }
        ensures taken_back { (h : History) (who : ℕ) (scopes : List Scope) → IsLawful h → is_none (scopes_of h token.now) ≡ true
            → StandsFor T.stands self.old (with_entry h (record { who = who; what = GrantRecord token.now scopes }))
            → StandsFor T.stands self.new h }
        ensures counted { self.new.rows + 1 ≡ self.old.rows }
        ensures quota { self.new.quota ≡ self.old.quota }
    {
        step_laws();
        self.granted.withdraw(token);
        self.len -= 1;
        self.rows -= 1;
    }

    /// Takes a token's scopes away.
    pub(crate) fn revoke(&mut self, token: &Token)
        requires fits { (h : History) × StandsFor T.stands self.old h × (len h < max_len) }
        ensures revoked { (h : History) (who : ℕ) → StandsFor T.stands self.old h
            → may_follow (snapshot h) (RevokeRecord token.now) ≡ true → len h < max_len
            → StandsFor T.stands self.new (with_entry h (record { who = who; what = RevokeRecord token.now })) }
        ensures counted { (self.new.rows ≡ self.old.rows + 1) × (self.new.quota ≡ self.old.quota) }
    {
        lawful_laws();
        step_laws();
        self.granted.withdraw(token);
        self.len += 1;
        self.rows += 1;
    }
}
