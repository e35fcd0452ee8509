//! Turns of a state.

ghost use Rattle.std.specs.Prelude.{◌≡◌, ◌≤◌, ℕ, true, option_copied};
ghost use Rattle.rs_record.specs.declared.records.Record.TheVariants.{Grant as GrantRecord, Revoke as RevokeRecord};
ghost use Rattle.rs_rules.specs.declared.request.Request.TheVariants.{Store, Grant, Revoke};
ghost use Rattle.rs_rules.specs.Histories.{History};
ghost use Rattle.rs_rules.specs.Requests.{is_within_limit};
ghost use Rattle.rs_user.specs.Preparations.{IsRowOf, IsMadeFor};
ghost use Rattle.rs_user.specs.Standing.{StandsFor};
ghost use Rattle.rs_user.specs.Turns.{StateTurned};

use crate::decision::Decision;
use crate::laws::turn_laws;
use crate::preparation::PreparedRequest;
use crate::state::UserState;
use rs_face::Keeper;
use rs_rules::{
    Call, DeskFault, MAX_LEN, Reply, Request, Tree, Turn, answer_laws, lawful_laws, taken_laws,
};
use rs_scope::{Scopes, Token};

impl<T: Tree> UserState<T> {
    /// Answers a request that is asked under the number `who`, and keeps what it adds: the row of its record is appended
    /// to the keeper, and then the state changes. The state doesn't keep the number.
    ///
    /// For every history that the state stands for, the reply is its `answer` and the front its length; the state then
    /// stands for it followed by what was taken, and the told rows have grown by the row of just that. `StoreFailed`
    /// comes only where the keeper's count of faults rose; then, and at `NoMemory`, the state stands for what it stood
    /// for, and the rows are as before. All growth is made room for before the row is appended.
    ///
    /// The request is prepared, and then it has its turn. Where others wait for the state, the two are done apart:
    /// `PreparedRequest::new`, and `turn_prepared` within the turn.
    pub fn turn<K: Keeper>(
        &mut self,
        keeper: &mut K,
        who: u64,
        request: &Request,
    ) -> Result<Turn, DeskFault>
        requires stands { (h : History) × StandsFor T.stands self.old h }
        requires rows { K.row_count keeper.old ≡ self.old.rows }
        requires body { is_within_limit request.now ≡ true }
        ensures turned { (h : History) → StandsFor T.stands self.old h
            → StateTurned T.stands self.new h self.old.quota who request.now result (K.rows keeper.old) (K.rows keeper.new) (K.faults keeper.old) (K.faults keeper.new) }
        ensures stands { (h : History) × StandsFor T.stands self.new h }
        ensures later { K.faults keeper.old ≤ K.faults keeper.new }
        ensures count { K.row_count keeper.new ≡ self.new.rows }
        ensures quota { self.new.quota ≡ self.old.quota }
    {
        let prepared = PreparedRequest::new(self.granted.allocator(), request)?;
        self.turn_prepared(keeper, who, &prepared)
    }

    /// The turn of a request that was prepared, as `turn` of the request: no row is spelled in it and no body digested. What
    /// is made is what depends on the state, the room for one document or grant more, and the reply.
    pub fn turn_prepared<K: Keeper>(
        &mut self,
        keeper: &mut K,
        who: u64,
        prepared: &PreparedRequest<'_>,
    ) -> Result<Turn, DeskFault>
        requires stands { (h : History) × StandsFor T.stands self.old h }
        requires rows { K.row_count keeper.old ≡ self.old.rows }
        ensures turned { (h : History) → StandsFor T.stands self.old h
            → StateTurned T.stands self.new h self.old.quota who prepared.now result (K.rows keeper.old) (K.rows keeper.new) (K.faults keeper.old) (K.faults keeper.new) }
        ensures stands { (h : History) × StandsFor T.stands self.new h }
        ensures later { K.faults keeper.old ≤ K.faults keeper.new }
        ensures count { K.row_count keeper.new ≡ self.new.rows }
        ensures quota { self.new.quota ≡ self.old.quota }
    {
        let row = prepared.row();
        match prepared.request() {
            Request::Store(call) => self.store(keeper, call, row),
            Request::Grant { token, scopes } => self.grant_to(keeper, token, scopes, row.unwrap()),
            Request::Revoke { token } => self.revoke_from(keeper, token, row.unwrap()),
        }
    }

    fn store<K: Keeper>(
        &mut self,
        keeper: &mut K,
        call: &Call,
        row: Option<&[u8]>,
    ) -> Result<Turn, DeskFault>
        requires stands { (h : History) × StandsFor T.stands self.old h }
        requires rows { K.row_count keeper.old ≡ self.old.rows }
        requires body { is_within_limit (Store call.now) ≡ true }
        requires made { IsMadeFor (option_copied row) (Store call.now) }
        ensures turned { (h : History) (who : ℕ) → StandsFor T.stands self.old h
            → StateTurned T.stands self.new h self.old.quota who (Store call.now) result (K.rows keeper.old) (K.rows keeper.new) (K.faults keeper.old) (K.faults keeper.new) }
        ensures later { K.faults keeper.old ≤ K.faults keeper.new }
        ensures count { K.row_count keeper.new ≡ self.new.rows }
        ensures quota { self.new.quota ≡ self.old.quota }
    {
        lawful_laws();
        taken_laws();
        turn_laws();
        answer_laws();
        match self.decide(call)? {
            Decision::Answer(reply) => Ok(Turn {
                reply,
                front: self.len,
            }),
            Decision::Put { created } => self.keep_put(keeper, call, row.unwrap(), created),
            Decision::Remove { version } => self.keep_remove(keeper, call, row.unwrap(), version),
        }
    }

    fn grant_to<K: Keeper>(
        &mut self,
        keeper: &mut K,
        token: &Token,
        scopes: &Scopes,
        row: &[u8],
    ) -> Result<Turn, DeskFault>
        requires stands { (h : History) × StandsFor T.stands self.old h }
        requires rows { K.row_count keeper.old ≡ self.old.rows }
        requires row { IsRowOf row.now (GrantRecord token.now scopes.now) }
        ensures turned { (h : History) (who : ℕ) → StandsFor T.stands self.old h
            → StateTurned T.stands self.new h self.old.quota who (Grant token.now scopes.now) result (K.rows keeper.old) (K.rows keeper.new) (K.faults keeper.old) (K.faults keeper.new) }
        ensures later { K.faults keeper.old ≤ K.faults keeper.new }
        ensures count { K.row_count keeper.new ≡ self.new.rows }
        ensures quota { self.new.quota ≡ self.old.quota }
    {
        if self.len >= MAX_LEN {
            return Ok(self.answered(Reply::RecordsFull));
        }
        if self.granted.scopes_in(token).is_some() {
            return Ok(self.answered(Reply::TokenTaken));
        }
        self.keep_grant(keeper, token, scopes, row)
    }

    fn revoke_from<K: Keeper>(
        &mut self,
        keeper: &mut K,
        token: &Token,
        row: &[u8],
    ) -> Result<Turn, DeskFault>
        requires stands { (h : History) × StandsFor T.stands self.old h }
        requires rows { K.row_count keeper.old ≡ self.old.rows }
        requires row { IsRowOf row.now (RevokeRecord token.now) }
        ensures turned { (h : History) (who : ℕ) → StandsFor T.stands self.old h
            → StateTurned T.stands self.new h self.old.quota who (Revoke token.now) result (K.rows keeper.old) (K.rows keeper.new) (K.faults keeper.old) (K.faults keeper.new) }
        ensures later { K.faults keeper.old ≤ K.faults keeper.new }
        ensures count { K.row_count keeper.new ≡ self.new.rows }
        ensures quota { self.new.quota ≡ self.old.quota }
    {
        if self.granted.scopes_in(token).is_none() {
            return Ok(self.answered(Reply::NotGranted));
        }
        if self.len >= MAX_LEN {
            return Ok(self.answered(Reply::RecordsFull));
        }
        self.keep_revoke(keeper, token, row)
    }

    // The reply, on all the records that there are.
    fn answered(&self, reply: Reply) -> Turn
        ensures turn { result ≡ record { reply = reply; front = self.now.len } }
    {
        Turn {
            reply,
            front: self.len,
        }
    }
}
