//! Where an event may stand.

ghost use Rattle.std.specs.Prelude.{◌≡◌, IfOk, option_copied};
ghost use Rattle.rs_talk.specs.Changes.{same_change, change_to};
ghost use Rattle.rs_cache.specs.States.{in_scope, is_sent, is_doubted, base_at, pending_at, record_in};
ghost use Rattle.rs_cache.specs.Places.{may_note, may_come, is_document_in, is_folder_in, is_editable, is_showable, is_same_state, fits_tag, holds_with, waits_for, may_replace, may_resolve};

use crate::client::Client;
use crate::conflict::Conflict;
use crate::event::Event;
use crate::limits::{MAX_JOURNAL, MAX_SHOWN_BODY};
use crate::resolve::Resolve;
use rs_path::{MAX_BODY, NoMemory, Path, Tag};
use rs_scope::{Method, reaches, root_laws};
use rs_talk::{Base, Change};

impl Client {
    /// Whether the event may come next.
    pub(crate) fn may_come(&self, event: &Event) -> Result<bool, NoMemory>
        ensures may { IfOk result (λ may. may ≡ may_come self.now event.now) }
    {
        let connects = matches!(event, Event::Connect { .. });
        if self.rows >= MAX_JOURNAL || connects != (self.rows == 0) {
            return Ok(false);
        }
        self.may_note(event)
    }

    // Whether the event may stand here, its turn and number set aside.
    fn may_note(&self, event: &Event) -> Result<bool, NoMemory>
        ensures may { IfOk result (λ may. may ≡ may_note self.now event.now) }
    {
        match event {
            Event::Connect { .. } => Ok(true),
            Event::Edit { path, change } => self.may_edit(path, change),
            Event::Sent { path } => Ok(!path.is_folder() && self.pending.contains_key(path)),
            Event::Accepted { path, tag } => {
                Ok(!path.is_folder() && self.is_sent(path) && self.fits_tag(path, tag))
            }
            Event::Absorbed { path, tag } => Ok(!path.is_folder() && self.fits_tag(path, tag)),
            Event::Held { path, status } => {
                Ok(!path.is_folder() && self.is_sent(path) && holds_with(*status))
            }
            Event::Conflict { path, remote } => Ok(self.may_conflict(path, remote.as_ref())),
            Event::Pulled { path, base } => Ok(self.may_pull(path, base)),
            Event::Gone { path } => Ok(
                !path.is_folder() && self.base.contains_key(path) && self.may_replace(path, None),
            ),
            Event::Settled { path, .. } => Ok(self.is_folder_in(path)),
            Event::Unsettled { path } => Ok(self.is_folder_in(path)),
            Event::Resolved { n, how } => self.may_resolve(*n, *how),
        }
    }

    /// Whether a root of the scopes holds the path.
    pub(crate) fn in_scope(&self, path: &Path) -> bool
        ensures scope { result ≡ in_scope self.now path.now }
    {
        root_laws();
        path.names();
        match &self.connection {
            None => false,
            Some(connection) => reaches(&connection.scopes, Method::Get, path),
        }
    }

    fn is_document_in(&self, path: &Path) -> bool
        ensures scope { result ≡ is_document_in self.now path.now }
    {
        !path.is_folder() && self.in_scope(path)
    }

    fn is_folder_in(&self, path: &Path) -> bool
        ensures scope { result ≡ is_folder_in self.now path.now }
    {
        path.is_folder() && self.in_scope(path)
    }

    fn may_edit(&self, path: &Path, change: &Change) -> Result<bool, NoMemory>
        ensures may { IfOk result (λ may. may ≡ may_note self.now (Event.Edit path.now change.now)) }
    {
        if !self.is_document_in(path) || !is_editable(change) {
            return Ok(false);
        }
        match change {
            Change::Put { .. } => Ok(self.clash(path)?.is_none()),
            Change::Remove => Ok(self.view(path).is_some()),
        }
    }

    // Whether the change that waits is among the doubts.
    fn is_sent(&self, path: &Path) -> bool
        ensures sent { result ≡ is_sent self.now path.now }
    {
        match self.pending.get(path) {
            None => false,
            Some(pending) => self.doubted(path, &pending.change),
        }
    }

    // Whether there is a tag exactly where the change that waits isn't a removal.
    fn fits_tag(&self, path: &Path, tag: &Option<Tag>) -> bool
        ensures fits { result ≡ fits_tag tag.now (pending_at self.now path.now) }
    {
        match self.pending.get(path) {
            None => false,
            Some(pending) => tag.is_none() == pending.change.is_removal(),
        }
    }

    fn may_conflict(&self, path: &Path, remote: Option<&Base>) -> bool
        ensures may { result ≡ may_note self.now (Event.Conflict path.now (option_copied remote.entry)) }
    {
        !path.is_folder()
            && self.pending.contains_key(path)
            && is_showable(remote)
            && !self.is_same_state(path, remote)
            && !self.waits_for_state(path, remote)
    }

    fn may_pull(&self, path: &Path, base: &Base) -> bool
        ensures may { result ≡ may_note self.now (Event.Pulled path.now base.now) }
    {
        self.is_document_in(path)
            && is_showable(Some(base))
            && !self.is_same_state(path, Some(base))
            && self.may_replace(path, Some(base))
    }

    // Whether the base is this state of the server, by tag.
    fn is_same_state(&self, path: &Path, remote: Option<&Base>) -> bool
        ensures same { result ≡ is_same_state (base_at self.now path.now) (option_copied remote.entry) }
    {
        match (self.base.get(path), remote) {
            (None, None) => true,
            (Some(base), Some(remote)) => base.tag == remote.tag,
            _ => false,
        }
    }

    // Whether the change that waits makes this state of the server.
    fn waits_for_state(&self, path: &Path, remote: Option<&Base>) -> bool
        ensures waits { result ≡ waits_for (change_to (option_copied remote.entry)) (pending_at self.now path.now) }
    {
        match self.pending.get(path) {
            None => false,
            Some(pending) => makes(&pending.change, remote),
        }
    }

    // Whether this state of the server may become the base without an end of what waits.
    fn may_replace(&self, path: &Path, remote: Option<&Base>) -> bool
        ensures may { result ≡ may_replace self.now path.now (option_copied remote.entry) }
    {
        match self.pending.get(path) {
            None => true,
            Some(pending) => self.is_doubted_state(path, remote) && !makes(&pending.change, remote),
        }
    }

    // Whether a doubt of the path makes this state of the server.
    fn is_doubted_state(&self, path: &Path, remote: Option<&Base>) -> bool
        ensures doubted { result ≡ is_doubted self.now path.now (change_to (option_copied remote.entry)) }
    {
        self.doubts_at(path)
            .iter()
            .any(|doubt| makes(doubt, remote))
    }

    fn may_resolve(&self, n: u64, how: Resolve) -> Result<bool, NoMemory>
        ensures may { IfOk result (λ may. may ≡ may_resolve self.now how (record_in n self.now.records)) }
    {
        match (self.standing(n), how) {
            (None, _) => Ok(false),
            (Some(_), Resolve::Drop) => Ok(true),
            (Some(conflict), Resolve::Keep) => {
                Ok(conflict.local.is_removal() || self.clash(&conflict.path)?.is_none())
            }
        }
    }

    /// The conflict with this number.
    pub(crate) fn standing(&self, n: u64) -> Option<&Conflict>
        ensures conflict { option_copied result ≡ record_in n self.now.records }
    {
        self.records.iter().find(|conflict| conflict.n == n)
    }
}

// Whether the change makes this state of the server, its tag set aside.
fn makes(change: &Change, remote: Option<&Base>) -> bool
    ensures makes { result ≡ same_change (change_to (option_copied remote.entry)) change.now }
{
    match (change, remote) {
        (Change::Put { kind, body }, Some(base)) => base.kind == *kind && base.body == *body,
        (Change::Remove, None) => true,
        _ => false,
    }
}

fn is_editable(change: &Change) -> bool
    ensures editable { result ≡ is_editable change.now }
{
    match change {
        Change::Put { body, .. } => body.as_slice().len() <= MAX_BODY,
        Change::Remove => true,
    }
}

fn is_showable(remote: Option<&Base>) -> bool
    ensures showable { result ≡ is_showable (option_copied remote.entry) }
{
    match remote {
        None => true,
        Some(base) => base.body.as_slice().len() <= MAX_SHOWN_BODY,
    }
}

fn holds_with(status: u16) -> bool
    ensures holds { result ≡ holds_with status }
{
    matches!(status, 403 | 409 | 413 | 414 | 507)
}
