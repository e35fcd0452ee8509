//! Rows opened as a state.

ghost use Rattle.std.specs.Prelude.{◌≡◌, true, IfOk, IfSome, OnOk};
ghost use Rattle.rs_face.specs.Causes.{HasCause};
ghost use Rattle.rs_record.specs.Records.{body_limit};
ghost use Rattle.rs_rules.specs.Histories.{History, with_entry};
ghost use Rattle.rs_rules.specs.Snapshots.{snapshot};
ghost use Rattle.rs_rules.specs.Lawful.{may_follow, writer_may};
ghost use Rattle.rs_user.specs.Standing.{StandsFor};
ghost use Rattle.rs_user.specs.Openings.{may_be_next, row_refusal, IsMadeOf, Opens, StandsAnew, TakesRecord};

use crate::state::UserState;
use rs_face::Keeper;
use rs_path::{MAX_BODY, MAX_PLAIN_BODY, NoMemory, Path};
use rs_record::{Record, decode};
use rs_row::{OpenFault, Refusal, Replayed, RowFault, TakeFault, open_rows};
use rs_rules::{MAX_LEN, Tree, lawful_laws};
use rs_scope::{Method, Token, reaches};
use std::alloc::Global;

impl<T: Tree> UserState<T> {
    /// The state of the rows, read once from the first to the last, as many at a time as the keeper reads at once, under a
    /// quota in bytes.
    ///
    /// It stands for the history that the rows spell, whose entries have `who` 0; what the quota is plays no part. The
    /// first row that spells no record is `BadRow`, with the place of its fault; the first whose record no request adds
    /// to those before it is `Unlawful`; of two such rows the earlier is told. `KeeperFailed` comes only where the
    /// keeper's count of faults rose. The rows are as before.
    ///
    /// Also where the keeper tells no rows the state stands for a history of which nothing was given up, and whose
    /// entries have `who` 0.
    pub fn open<K: Keeper>(
        alloc: Global,
        keeper: &mut K,
        quota: u64,
    ) -> Result<UserState<T>, OpenFault>
        ensures opened { IfSome (K.rows keeper.old) (Opens T.stands result) }
        ensures stands { IfOk result (λ state. (h : History) × StandsFor T.stands state h) }
        ensures begun { IfOk result (λ state. StandsAnew T.stands state (K.rows keeper.old)) }
        ensures count { IfOk result (λ state. state.rows ≡ K.row_count keeper.new) }
        ensures quota { IfOk result (λ state. state.quota ≡ quota) }
        ensures rows { K.rows keeper.new ≡ K.rows keeper.old }
        ensures len { K.row_count keeper.new ≡ K.row_count keeper.old }
        ensures cause { HasCause (K.faults keeper.old) (K.faults keeper.new) OpenFault.KeeperFailed result }
    {
        let nothing = UserState::new(alloc, quota)?;
        open_rows(alloc, keeper, nothing)
    }

    // Takes a record, if some request adds it.
    fn take(&mut self, what: Record) -> Result<(), TakeFault>
        requires stands { (h : History) × StandsFor T.stands self.old h }
        ensures taken { (h : History) → StandsFor T.stands self.old h → TakesRecord T.stands self.new result h what }
        ensures quota { self.new.quota ≡ self.old.quota }
    {
        if !self.may_be_next(&what) {
            return Err(TakeFault::Refused {
                why: Refusal::Misplaced,
            });
        }
        self.add(what)?;
        Ok(())
    }

    // Adds a record that stands rightly, and that there is room for.
    fn add(&mut self, what: Record) -> Result<(), NoMemory>
        requires may { (h : History) × StandsFor T.stands self.old h × (may_be_next h what ≡ true) }
        ensures added { (h : History) → StandsFor T.stands self.old h → may_be_next h what ≡ true
            → OnOk result (StandsFor T.stands self.new (with_entry h (record { who = 0; what = what }))) }
        ensures quota { self.new.quota ≡ self.old.quota }
    {
        lawful_laws();
        match what {
            Record::Put {
                path,
                kind,
                body,
                ..
            } => {
                let ready = self.tree.prepare(&path, &kind, &body)?;
                self.put(ready);
            }
            Record::Remove { path, .. } => self.remove(&path),
            Record::Grant { token, scopes } => self.grant(token, scopes)?,
            Record::Revoke { token } => self.revoke(&token),
        }
        Ok(())
    }

    // Whether some request adds the record.
    fn may_be_next(&self, what: &Record) -> bool
        requires stands { (h : History) × StandsFor T.stands self.now h }
        ensures may { (h : History) → StandsFor T.stands self.now h → result ≡ may_be_next h what.now }
    {
        self.len < MAX_LEN && self.may_follow(what)
    }

    // Whether the record stands rightly after those before it.
    fn may_follow(&self, what: &Record) -> bool
        requires stands { (h : History) × StandsFor T.stands self.now h }
        ensures may { (h : History) → StandsFor T.stands self.now h → result ≡ may_follow (snapshot h) what.now }
    {
        match what {
            Record::Put {
                path,
                body,
                writer,
                ..
            } => {
                !path.is_folder()
                    && body.as_slice().len() <= limit_of(writer)
                    && self.tree.clash(path).is_none()
                    && self.tree.full(path).is_none()
                    && self.writer_may(writer, Method::Put, path)
            }
            Record::Remove { path, writer } => {
                self.tree.find(path).is_some() && self.writer_may(writer, Method::Delete, path)
            }
            Record::Grant { token, .. } => self.granted.scopes_in(token).is_none(),
            Record::Revoke { token } => self.granted.scopes_in(token).is_some(),
        }
    }

    // Whether the writer, where there is one, is granted with scopes that reach.
    fn writer_may(&self, writer: &Option<Token>, method: Method, path: &Path) -> bool
        ensures may { (h : History) → StandsFor T.stands self.now h → result ≡ writer_may (snapshot h) writer.now method path.now }
    {
        match writer {
            None => true,
            Some(token) => match self.granted.scopes_in(token) {
                None => false,
                Some(scopes) => reaches(scopes, method, path),
            },
        }
    }
}

impl<T: Tree> Replayed for UserState<T> {
    ghost refusal = { row_refusal };

    ghost made_of = { λ state rows. IsMadeOf T.stands state rows };

    ghost setting = { λ state. state.quota };

    fn take_row(&mut self, row: &[u8]) -> Result<(), TakeFault> {
        match decode(self.granted.allocator(), row) {
            Ok(what) => self.take(what),
            Err(RowFault::Bad { place }) => Err(TakeFault::Refused {
                why: Refusal::Bad { place },
            }),
            Err(RowFault::NoMemory) => Err(TakeFault::NoMemory),
        }
    }
}

// The greatest number of bytes of a body.
fn limit_of(writer: &Option<Token>) -> usize
    ensures limit { result ≡ body_limit writer.now }
{
    match writer {
        None => MAX_PLAIN_BODY,
        Some(_) => MAX_BODY,
    }
}
