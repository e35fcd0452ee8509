//! What events do to a client: the growth first, which may want memory, and then the rest, which can't fail.

ghost use Rattle.std.specs.Prelude.{◌≡◌, ◌<◌, true, false, IfOk, OnErr, option_map, unwrap_or};
ghost use Rattle.rs_talk.specs.declared.change.Change.TheVariants.{Remove};
ghost use Rattle.rs_cache.specs.States.{pending_at, change_at, doubts_at, drop_record};
ghost use Rattle.rs_cache.specs.Effects.{accepted, resolved_by, base_as, base_by, conflict_at};
ghost use Rattle.rs_cache.specs.Limits.{max_journal};
ghost use Rattle.rs_cache.specs.Readiness.{more_doubts, finished, finished_by, finished_base, with_pending_left, taken_back, base_taken_back, with_pending_back, is_open_if, finds_place, IsPrepared, IsPreparedFor, IsPreparedBase, with_waiting, with_ended, based};

use crate::client::Client;
use crate::conflict::Conflict;
use crate::connection::Connection;
use crate::doubts::{Doubts, has_change};
use crate::event::{Event, copy_of_base};
use crate::pending::Pending;
use crate::resolve::Resolve;
use crate::spot::{Spot, clear, clear_all, fill_spot, make_spot, undo_spot};
use rs_path::{NoMemory, Path, Tag};
use rs_talk::{Base, Change};

/// What an event is about to do, with all the memory that it takes.
#[derive(Drop)]
pub(crate) enum Ready {
    /// The client is connected.
    Connection(Connection),
    /// A change waits, or is held.
    Pending(Spot<Pending>),
    /// Nothing is to be done.
    Nothing,
    /// A change is in doubt.
    Doubt(Spot<Doubts>),
    /// The base of a path is set, or taken away.
    Base(ReadyBase),
    /// The same, and the conflict that stands last among the records already is made.
    Conflict(ReadyBase),
    /// A folder is kept.
    Kept(Spot<Tag>),
    /// A folder isn't kept any more.
    Unkept(Path),
    /// A conflict goes, and its change may wait again.
    Resolved {
        n: u64,
        pending: Option<Spot<Pending>>,
    },
}

/// A base that is about to be set, or taken away.
#[derive(Drop)]
pub(crate) struct ReadyBase {
    /// The path.
    path: Path,
    /// The place of the new base, None where there is to be none.
    spot: Option<Spot<Base>>,
    /// The folders above the path, which aren't kept any more.
    folders: Vec<Path>,
    /// Whether the change that waits ends.
    ends: bool,
}

impl Client {
    /// Makes room for all that the event does.
    ///
    /// A new path has its value from then on, so this isn't the state before any more; after an error it is.
    pub(crate) fn prepare(&mut self, event: Event) -> Result<Ready, NoMemory>
        requires room { self.old.rows < max_journal }
        ensures ready { IfOk result (λ ready. IsPreparedFor event self.old self.new ready) }
        ensures err { OnErr result (self.new ≡ self.old) }
    {
        match event {
            Event::Connect {
                root,
                token,
                scopes,
            } => Ok(Ready::Connection(Connection {
                root,
                token,
                scopes,
            })),
            Event::Edit { path, change } => self.prepare_change(path, change, None),
            Event::Sent { path } => self.prepare_doubt(path),
            Event::Accepted { path, tag } => self.prepare_accepted(path, tag),
            Event::Absorbed { path, tag } => self.prepare_accepted(path, tag),
            Event::Held { path, status } => self.prepare_held(path, status),
            Event::Conflict { path, remote } => self.prepare_conflict(path, remote),
            Event::Pulled { path, base } => self.prepare_shown(path, Some(base)),
            Event::Gone { path } => self.prepare_shown(path, None),
            Event::Settled { path, tag } => {
                Ok(Ready::Kept(make_spot(&mut self.kept, path, tag)?))
            }
            Event::Unsettled { path } => Ok(Ready::Unkept(path)),
            Event::Resolved { n, how } => self.prepare_resolved(n, how),
        }
    }

    fn prepare_change(
        &mut self,
        path: Path,
        change: Change,
        held: Option<u16>,
    ) -> Result<Ready, NoMemory>
        ensures ready { IfOk result (λ ready. IsPrepared (with_waiting path (record { change = change; held = held }) self.old) self.old self.new ready) }
        ensures err { OnErr result (self.new ≡ self.old) }
    {
        let pending = Pending { change, held };
        Ok(Ready::Pending(make_spot(&mut self.pending, path, pending)?))
    }

    fn prepare_held(&mut self, path: Path, status: u16) -> Result<Ready, NoMemory>
        ensures ready { IfOk result (λ ready. IsPreparedFor (Event.Held path status) self.old self.new ready) }
        ensures err { OnErr result (self.new ≡ self.old) }
    {
        match self.waiting_copy(&path)? {
            None => Ok(Ready::Nothing),
            Some(change) => self.prepare_change(path, change, Some(status)),
        }
    }

    // A copy of the change that waits at the path.
    fn waiting_copy(&self, path: &Path) -> Result<Option<Change>, NoMemory>
        ensures change { IfOk result (λ change. change ≡ change_at self.now path.now) }
    {
        match self.pending.get(path) {
            None => Ok(None),
            Some(pending) => Ok(Some(pending.change.copy()?)),
        }
    }

    fn prepare_doubt(&mut self, path: Path) -> Result<Ready, NoMemory>
        ensures ready { IfOk result (λ ready. IsPreparedFor (Event.Sent path) self.old self.new ready) }
        ensures err { OnErr result (self.new ≡ self.old) }
    {
        match self.new_doubts(&path)? {
            None => Ok(Ready::Nothing),
            Some(doubts) => Ok(Ready::Doubt(make_spot(&mut self.doubts, path, doubts)?)),
        }
    }

    // The doubts of the path and the change that waits there, None where none does or it is among them.
    fn new_doubts(&self, path: &Path) -> Result<Option<Doubts>, NoMemory>
        ensures doubts { IfOk result (λ doubts. doubts ≡ more_doubts (pending_at self.now path.now) (doubts_at self.now path.now)) }
    {
        let Some(pending) = self.pending.get(path) else {
            return Ok(None);
        };
        let before = self.doubts_at(path);
        if has_change(before, &pending.change) {
            return Ok(None);
        }
        Ok(Some(Doubts::with(self.alloc, before, &pending.change)?))
    }

    fn prepare_accepted(&mut self, path: Path, tag: Option<Tag>) -> Result<Ready, NoMemory>
        ensures ready { IfOk result (λ ready. IsPrepared (accepted path tag self.old) self.old self.new ready) }
        ensures err { OnErr result (self.new ≡ self.old) }
    {
        let base = self.accepted_base(&path, tag)?;
        let ready = self.prepare_base(path, base, true)?;
        Ok(Ready::Base(ready))
    }

    // The document that the change that waits at the path becomes with the tag.
    fn accepted_base(&self, path: &Path, tag: Option<Tag>) -> Result<Option<Base>, NoMemory>
        ensures base { IfOk result (λ base. base ≡ base_by tag (pending_at self.now path.now)) }
    {
        let Some(tag) = tag else {
            return Ok(None);
        };
        match self.pending.get(path) {
            None => Ok(None),
            Some(pending) => base_as(tag, &pending.change),
        }
    }

    fn prepare_shown(&mut self, path: Path, base: Option<Base>) -> Result<Ready, NoMemory>
        ensures ready { IfOk result (λ ready. IsPrepared (based path base false self.old) self.old self.new ready) }
        ensures err { OnErr result (self.new ≡ self.old) }
    {
        let base = self.prepare_base(path, base, false)?;
        Ok(Ready::Base(base))
    }

    fn prepare_conflict(&mut self, path: Path, remote: Option<Base>) -> Result<Ready, NoMemory>
        requires room { self.old.rows < max_journal }
        ensures ready { IfOk result (λ ready. IsPreparedFor (Event.Conflict path remote) self.old self.new ready) }
        ensures err { OnErr result (self.new ≡ self.old) }
    {
        let conflict = self.conflict_at(&path, &remote)?;
        self.records.push(conflict)?;
        match self.prepare_base(path, remote, true) {
            Ok(ready) => Ok(Ready::Conflict(ready)),
            Err(fault) => {
                self.records.pop();
                Err(fault)
            }
        }
    }

    // The conflict of the change that waits at the path with what the server has.
    fn conflict_at(&self, path: &Path, remote: &Option<Base>) -> Result<Conflict, NoMemory>
        requires room { self.now.rows < max_journal }
        ensures conflict { IfOk result (λ conflict. conflict ≡ conflict_at self.now path.now remote.now) }
    {
        Ok(Conflict {
            n: self.made + 1,
            path: path.copy()?,
            local: self.local_at(path)?,
            remote: copy_of_base(remote)?,
        })
    }

    // A copy of the change that waits at the path, a Remove where none does.
    fn local_at(&self, path: &Path) -> Result<Change, NoMemory>
        ensures local { IfOk result (λ local. local ≡ unwrap_or (change_at self.now path.now) Remove) }
    {
        match self.pending.get(path) {
            None => Ok(Change::Remove),
            Some(pending) => pending.change.copy(),
        }
    }

    fn prepare_base(
        &mut self,
        path: Path,
        base: Option<Base>,
        ends: bool,
    ) -> Result<ReadyBase, NoMemory>
        ensures ready { IfOk result (λ ready. IsPreparedBase (based path base ends self.old) self.old self.new ready) }
        ensures err { OnErr result (self.new ≡ self.old) }
    {
        let folders = path.ancestors()?;
        match base {
            None => Ok(ReadyBase {
                path,
                spot: None,
                folders,
                ends,
            }),
            Some(base) => {
                let spot = make_spot(&mut self.base, path.copy()?, base)?;
                Ok(ReadyBase {
                    path,
                    spot: Some(spot),
                    folders,
                    ends,
                })
            }
        }
    }

    fn prepare_resolved(&mut self, n: u64, how: Resolve) -> Result<Ready, NoMemory>
        ensures ready { IfOk result (λ ready. IsPreparedFor (Event.Resolved n how) self.old self.new ready) }
        ensures err { OnErr result (self.new ≡ self.old) }
    {
        match self.kept_change(n, how)? {
            None => Ok(Ready::Resolved { n, pending: None }),
            Some((path, change)) => {
                let pending = Pending { change, held: None };
                let spot = make_spot(&mut self.pending, path, pending)?;
                Ok(Ready::Resolved {
                    n,
                    pending: Some(spot),
                })
            }
        }
    }

    // The change that waits again where a conflict is resolved so.
    fn kept_change(&self, n: u64, how: Resolve) -> Result<Option<(Path, Change)>, NoMemory>
        ensures kept { IfOk result (λ kept. option_map (λ k. record { path = k.0; change = k.1 }) kept ≡ resolved_by self.now how n) }
    {
        match (self.standing(n), how) {
            (Some(conflict), Resolve::Keep) => {
                if conflict.local.is_removal() && !self.is_viewed(&conflict.path) {
                    return Ok(None);
                }
                Ok(Some((conflict.path.copy()?, conflict.local.copy()?)))
            }
            _ => Ok(None),
        }
    }

    /// Does what was prepared, and counts the event.
    pub(crate) fn finish(&mut self, ready: Ready)
        requires room { self.old.rows < max_journal }
        requires place { finds_place ready self.old ≡ true }
        ensures finished { self.new ≡ finished ready self.old }
    {
        self.rows += 1;
        self.do_ready(ready);
    }

    // Does what was prepared, the event counted already.
    fn do_ready(&mut self, ready: Ready)
        requires room { self.old.made < self.old.rows }
        requires place { finds_place ready self.old ≡ true }
        ensures done { self.new ≡ finished_by ready self.old }
    {
        match ready {
            Ready::Nothing => {}
            Ready::Connection(connection) => self.connection = Some(connection),
            Ready::Pending(spot) => fill_spot(&mut self.pending, spot),
            Ready::Doubt(spot) => fill_spot(&mut self.doubts, spot),
            Ready::Base(base) => self.do_base(base),
            Ready::Conflict(base) => {
                self.made += 1;
                self.do_base(base);
            }
            Ready::Kept(spot) => fill_spot(&mut self.kept, spot),
            Ready::Unkept(path) => clear(&mut self.kept, &path),
            Ready::Resolved { n, pending } => {
                drop_record(&mut self.records, n);
                self.do_pending(pending);
            }
        }
    }

    // Gives the path of a conflict its change again, if it is to have it.
    fn do_pending(&mut self, spot: Option<Spot<Pending>>)
        requires place { is_open_if spot self.old.pending ≡ true }
        ensures done { self.new ≡ with_pending_left spot self.old }
    {
        if let Some(spot) = spot {
            fill_spot(&mut self.pending, spot);
        }
    }

    fn do_base(&mut self, base: ReadyBase)
        requires place { is_open_if base.spot self.old.base ≡ true }
        ensures done { self.new ≡ finished_base base self.old }
    {
        let ReadyBase {
            path,
            spot,
            folders,
            ends,
        } = base;
        clear(&mut self.doubts, &path);
        clear_all(&mut self.kept, folders.as_slice());
        self.end_pending(&path, ends);
        match spot {
            Some(spot) => fill_spot(&mut self.base, spot),
            None => clear(&mut self.base, &path),
        }
    }

    // Ends what waits at the path, if it is to end.
    fn end_pending(&mut self, path: &Path, ends: bool)
        ensures ended { self.new ≡ with_ended ends path.now self.old }
    {
        if ends {
            clear(&mut self.pending, path);
        }
    }

    /// Takes away the room that was made.
    pub(crate) fn undo(&mut self, ready: Ready)
        ensures undone { self.new ≡ taken_back ready self.old }
    {
        match ready {
            Ready::Nothing | Ready::Connection(_) | Ready::Unkept(_) => {}
            Ready::Pending(spot) => undo_spot(&mut self.pending, spot),
            Ready::Doubt(spot) => undo_spot(&mut self.doubts, spot),
            Ready::Base(base) => self.undo_base(base),
            Ready::Conflict(base) => {
                self.undo_base(base);
                self.records.pop();
            }
            Ready::Kept(spot) => undo_spot(&mut self.kept, spot),
            Ready::Resolved { pending, .. } => self.undo_pending(pending),
        }
    }

    fn undo_pending(&mut self, spot: Option<Spot<Pending>>)
        ensures undone { self.new ≡ with_pending_back spot self.old }
    {
        if let Some(spot) = spot {
            undo_spot(&mut self.pending, spot);
        }
    }

    fn undo_base(&mut self, base: ReadyBase)
        ensures undone { self.new ≡ base_taken_back base self.old }
    {
        let ReadyBase { spot, .. } = base;
        if let Some(spot) = spot {
            undo_spot(&mut self.base, spot);
        }
    }
}

// The document that a change with an entity tag has become.
fn base_as(tag: Tag, change: &Change) -> Result<Option<Base>, NoMemory>
    ensures base { IfOk result (λ base. base ≡ base_as tag change.now) }
{
    match change {
        Change::Put { kind, body } => Ok(Some(Base {
            tag,
            kind: kind.copy()?,
            body: body.copy()?,
        })),
        Change::Remove => Ok(None),
    }
}

// Takes away the conflict with the number.
fn drop_record(records: &mut Vec<Conflict>, n: u64)
    ensures dropped { records.new.items ≡ drop_record n records.old.items }
{
    records.retain(|conflict| conflict.n != n);
}
