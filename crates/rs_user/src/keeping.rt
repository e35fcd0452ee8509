//! Records kept: the row behind the others, and then what the record does to the state.

ghost use Rattle.std.specs.Prelude.{◌≡◌, ◌+◌, ◌<◌, ◌≤◌, ℕ, true};
ghost use Rattle.rs_record.specs.declared.records.Record.TheVariants.{Grant as GrantRecord, Revoke as RevokeRecord};
ghost use Rattle.rs_rules.specs.declared.reply.Reply.TheVariants.{Stored, Removed, Granted as GrantedReply, Revoked};
ghost use Rattle.rs_rules.specs.Limits.{max_len};
ghost use Rattle.rs_rules.specs.Histories.{History, len};
ghost use Rattle.rs_rules.specs.Snapshots.{snapshot};
ghost use Rattle.rs_rules.specs.Answers.{put_record, remove_record};
ghost use Rattle.rs_rules.specs.Lawful.{may_follow};
ghost use Rattle.rs_user.specs.Standing.{StandsFor};
ghost use Rattle.rs_user.specs.Preparations.{IsRowOf};
ghost use Rattle.rs_user.specs.Turns.{Keeps, TellsFault};

use crate::state::UserState;
use rs_face::{KeepFault, Keeper};
use rs_rules::{Call, DeskFault, Reply, Tree, Turn, lawful_laws};
use rs_scope::{Scopes, Token};

impl<T: Tree> UserState<T> {
    /// Keeps a Put and puts the document.
    pub(crate) fn keep_put<K: Keeper>(
        &mut self,
        keeper: &mut K,
        call: &Call,
        row: &[u8],
        created: bool,
    ) -> Result<Turn, DeskFault>
        requires may { (h : History) × StandsFor T.stands self.old h × (may_follow (snapshot h) (put_record call.now) ≡ true) × (len h < max_len) }
        requires row { IsRowOf row.now (put_record call.now) }
        ensures keeps { (h : History) (who : ℕ) → StandsFor T.stands self.old h → may_follow (snapshot h) (put_record call.now) ≡ true → len h < max_len
            → Keeps T.stands self.new h who (put_record call.now) (Stored (len h + 1) created) result (K.rows keeper.old) (K.rows keeper.new) (K.faults keeper.old) (K.faults keeper.new) }
        ensures later { K.faults keeper.old ≤ K.faults keeper.new }
        ensures count { K.row_count keeper.new + self.old.rows ≡ K.row_count keeper.old + self.new.rows }
        ensures quota { self.new.quota ≡ self.old.quota }
    {
        lawful_laws();
        let ready = self.tree.prepare(&call.path, &call.kind, &call.body)?;
        let front = self.len;
        match keeper.append(row) {
            Ok(()) => {
                self.put(ready);
                Ok(Turn {
                    reply: Reply::Stored {
                        version: front + 1,
                        created,
                    },
                    front,
                })
            }
            Err(fault) => not_kept(fault, front),
        }
    }

    /// Keeps a Remove and removes the document, which has this version.
    pub(crate) fn keep_remove<K: Keeper>(
        &mut self,
        keeper: &mut K,
        call: &Call,
        row: &[u8],
        version: u64,
    ) -> Result<Turn, DeskFault>
        requires may { (h : History) × StandsFor T.stands self.old h × (may_follow (snapshot h) (remove_record call.now) ≡ true) × (len h < max_len) }
        requires row { IsRowOf row.now (remove_record call.now) }
        ensures keeps { (h : History) (who : ℕ) → StandsFor T.stands self.old h → may_follow (snapshot h) (remove_record call.now) ≡ true → len h < max_len
            → Keeps T.stands self.new h who (remove_record call.now) (Removed version) result (K.rows keeper.old) (K.rows keeper.new) (K.faults keeper.old) (K.faults keeper.new) }
        ensures later { K.faults keeper.old ≤ K.faults keeper.new }
        ensures count { K.row_count keeper.new + self.old.rows ≡ K.row_count keeper.old + self.new.rows }
        ensures quota { self.new.quota ≡ self.old.quota }
    {
        let front = self.len;
        match keeper.append(row) {
            Ok(()) => {
                self.remove(&call.path);
                Ok(Turn {
                    reply: Reply::Removed { version },
                    front,
                })
            }
            Err(fault) => not_kept(fault, front),
        }
    }

    /// Grants the scopes and keeps the Grant. The grant comes first, since it may want memory; it is taken back where its row
    /// isn't kept.
    pub(crate) fn keep_grant<K: Keeper>(
        &mut self,
        keeper: &mut K,
        token: &Token,
        scopes: &Scopes,
        row: &[u8],
    ) -> Result<Turn, DeskFault>
        requires may { (h : History) × StandsFor T.stands self.old h × (may_follow (snapshot h) (GrantRecord token.now scopes.now) ≡ true) × (len h < max_len) }
        requires row { IsRowOf row.now (GrantRecord token.now scopes.now) }
        ensures keeps { (h : History) (who : ℕ) → StandsFor T.stands self.old h → may_follow (snapshot h) (GrantRecord token.now scopes.now) ≡ true → len h < max_len
            → Keeps T.stands self.new h who (GrantRecord token.now scopes.now) GrantedReply result (K.rows keeper.old) (K.rows keeper.new) (K.faults keeper.old) (K.faults keeper.new) }
        ensures later { K.faults keeper.old ≤ K.faults keeper.new }
        ensures count { K.row_count keeper.new + self.old.rows ≡ K.row_count keeper.old + self.new.rows }
        ensures quota { self.new.quota ≡ self.old.quota }
    {
        let front = self.len;
        self.grant(*token, scopes.copy()?)?;
        match keeper.append(row) {
            Ok(()) => Ok(Turn {
                reply: Reply::Granted,
                front,
            }),
            Err(fault) => {
                self.ungrant(token);
                not_kept(fault, front)
            }
        }
    }

    /// Keeps a Revoke and takes the scopes away.
    pub(crate) fn keep_revoke<K: Keeper>(
        &mut self,
        keeper: &mut K,
        token: &Token,
        row: &[u8],
    ) -> Result<Turn, DeskFault>
        requires may { (h : History) × StandsFor T.stands self.old h × (len h < max_len) }
        requires row { IsRowOf row.now (RevokeRecord token.now) }
        ensures keeps { (h : History) (who : ℕ) → StandsFor T.stands self.old h → may_follow (snapshot h) (RevokeRecord token.now) ≡ true → len h < max_len
            → Keeps T.stands self.new h who (RevokeRecord token.now) Revoked result (K.rows keeper.old) (K.rows keeper.new) (K.faults keeper.old) (K.faults keeper.new) }
        ensures later { K.faults keeper.old ≤ K.faults keeper.new }
        ensures count { K.row_count keeper.new + self.old.rows ≡ K.row_count keeper.old + self.new.rows }
        ensures quota { self.new.quota ≡ self.old.quota }
    {
        let front = self.len;
        match keeper.append(row) {
            Ok(()) => {
                self.revoke(token);
                Ok(Turn {
                    reply: Reply::Revoked,
                    front,
                })
            }
            Err(fault) => not_kept(fault, front),
        }
    }
}

// What is told where the row wasn't kept.
fn not_kept(fault: KeepFault, front: u64) -> Result<Turn, DeskFault>
    ensures told { TellsFault fault result }
{
    match fault {
        KeepFault::Failed => Ok(Turn {
            reply: Reply::StoreFailed,
            front,
        }),
        KeepFault::NoMemory => Err(DeskFault::NoMemory),
    }
}
