//! A client's state, and what it tells of it.

ghost use Rattle.std.specs.Prelude.{◌≡◌, true, Some, is_some, option_map, option_copied};
ghost use Rattle.rs_talk.specs.declared.change.Change.TheVariants.{Put};
ghost use Rattle.rs_cache.specs.States.{base_at, change_at, doubts_at, kept_at, is_doubted};
ghost use Rattle.rs_cache.specs.Views.{view_at};
ghost use Rattle.rs_cache.specs.Places.{waits_for};
ghost use Rattle.std.specs.Range.Bound.{bound_map};
ghost use Rattle.rs_cache.specs.Asked.{put_only, has_other_doubt, from_after, later_path, next_pending_of, next_base_of, summary_of};

use crate::conflict::Conflict;
use crate::connection::Connection;
use crate::doubts::{Doubts, has_change};
use crate::pending::Pending;
use crate::summary::Summary;
use rs_path::{Bytes, Kind, Path, Tag};
use rs_scope::Scopes;
use rs_talk::{Base, Bearer, Change, Root};
use std::alloc::Global;
use std::collections::BTreeMap;
use std::marker::Model;
use std::ops::Bound;

/// A client's state: the one that its journal leaves. A contract sees it as that `State`.
#[derive(Drop)]
pub struct Client {
    pub(crate) alloc: Global,
    pub(crate) connection: Option<Connection>,
    pub(crate) base: BTreeMap<Path, Base>,
    pub(crate) pending: BTreeMap<Path, Pending>,
    pub(crate) doubts: BTreeMap<Path, Doubts>,
    pub(crate) kept: BTreeMap<Path, Tag>,
    pub(crate) records: Vec<Conflict>,
    pub(crate) made: u64,
    pub(crate) rows: u64,
}

impl Model for Client {
    ghost use Rattle.std.specs.Prelude.{◌≡◌, ◌≤◌, ◌<◌, true, is_some};
    ghost use Rattle.rs_cache.specs.States.{State};

    ghost Value = { State };

    ghost view = { λ c. record {
      connection = c.connection;
      base = c.base.entries;
      pending = c.pending.entries;
      doubts = c.doubts.entries;
      kept = c.kept.entries;
      records = c.records.items;
      made = c.made;
      rows = c.rows;
    } };

    ghost invariant = { λ c. (c.made ≤ c.rows) × (is_some c.connection ≡ true → 0 < c.rows) };
}

impl Client {
    /// Whether the client is connected to an account. It takes no memory.
    pub fn is_connected(&self) -> bool
        ensures connected { result ≡ is_some self.now.connection }
    {
        self.connection.is_some()
    }

    /// The root of the account. It takes no memory.
    pub fn root(&self) -> &Root
        requires connected { is_some self.now.connection ≡ true }
        ensures root { option_map (λ connection. connection.root) self.now.connection ≡ Some result.now }
    {
        match &self.connection {
            Some(connection) => &connection.root,
            None => unreachable!(),
        }
    }

    /// The token that the client shows. It takes no memory.
    pub fn token(&self) -> &Bearer
        requires connected { is_some self.now.connection ≡ true }
        ensures token { option_map (λ connection. connection.token) self.now.connection ≡ Some result.now }
    {
        match &self.connection {
            Some(connection) => &connection.token,
            None => unreachable!(),
        }
    }

    /// What the token may do. It takes no memory.
    pub fn scopes(&self) -> &Scopes
        requires connected { is_some self.now.connection ≡ true }
        ensures scopes { option_map (λ connection. connection.scopes) self.now.connection ≡ Some result.now }
    {
        match &self.connection {
            Some(connection) => &connection.scopes,
            None => unreachable!(),
        }
    }

    /// The document at the path in the view: the change that waits, or the base where none does. It takes no memory.
    pub fn view(&self, path: &Path) -> Option<(&Kind, &Bytes)>
        ensures view { option_map (λ shown. Put shown.0.now shown.1.now) result ≡ put_only (view_at self.now path.now) }
    {
        match self.pending.get(path) {
            Some(pending) => match &pending.change {
                Change::Put { kind, body } => Some((kind, body)),
                Change::Remove => None,
            },
            None => match self.base.get(path) {
                Some(base) => Some((&base.kind, &base.body)),
                None => None,
            },
        }
    }

    /// The document at the path that was last synchronised. It takes no memory.
    pub fn base(&self, path: &Path) -> Option<&Base>
        ensures base { option_copied result ≡ base_at self.now path.now }
    {
        self.base.get(path)
    }

    /// The change that waits at the path. It takes no memory.
    pub fn pending(&self, path: &Path) -> Option<&Change>
        ensures pending { option_copied result ≡ change_at self.now path.now }
    {
        match self.pending.get(path) {
            Some(pending) => Some(&pending.change),
            None => None,
        }
    }

    /// Whether the change is among the doubts of the path. It takes no memory.
    pub fn doubted(&self, path: &Path, change: &Change) -> bool
        ensures doubted { result ≡ is_doubted self.now path.now change.now }
    {
        has_change(self.doubts_at(path), change)
    }

    /// Whether some doubt of the path isn't the change that waits there. It takes no memory.
    pub fn doubted_other(&self, path: &Path) -> bool
        ensures other { result ≡ has_other_doubt self.now path.now }
    {
        let pending = self.pending.get(path);
        self.doubts_at(path)
            .iter()
            .any(|doubt| !waits_for(doubt, pending))
    }

    /// The entity tag of the folder at which all below it is known. It takes no memory.
    pub fn kept(&self, folder: &Path) -> Option<&Tag>
        ensures kept { option_copied result ≡ kept_at self.now folder.now }
    {
        self.kept.get(folder)
    }

    /// The first path, in their order, where a change waits, behind this one. It takes no memory.
    pub fn next_pending(&self, after: Option<&Path>) -> Option<&Path>
        ensures next { option_copied result ≡ next_pending_of self.now (option_copied after.entry) }
    {
        match self
            .pending
            .range((start_after(after), Bound::Unbounded))
            .next()
        {
            Some((path, _)) => Some(path),
            None => None,
        }
    }

    /// The first path, in their order, with a base below the folder, behind this one. It takes no memory.
    pub fn next_base(&self, folder: &Path, after: Option<&Path>) -> Option<&Path>
        requires folder { folder.now.folder ≡ true }
        ensures next { option_copied result ≡ next_base_of self.now folder.now (option_copied after.entry) }
    {
        match self
            .base
            .range((Bound::Excluded(later(folder, after)), Bound::Unbounded))
            .next()
        {
            None => None,
            Some((path, _)) => {
                if path.starts_with(folder) {
                    Some(path)
                } else {
                    None
                }
            }
        }
    }

    /// The conflicts that aren't resolved, in the order in which they were made. It takes no memory.
    pub fn conflicts(&self) -> &[Conflict]
        ensures conflicts { result.now ≡ self.now.records }
    {
        self.records.as_slice()
    }

    /// How much the client has. It takes no memory.
    pub fn summary(&self) -> Summary
        ensures summary { result ≡ summary_of self.now }
    {
        Summary {
            documents: self.base.len() as u64,
            pending: self.pending.len() as u64,
            held: self.held(),
            conflicts: self.records.len() as u64,
        }
    }

    // How many changes are held.
    fn held(&self) -> u64
        ensures held { result ≡ (summary_of self.now).held }
    {
        self.pending
            .values()
            .filter(|pending| pending.held.is_some())
            .count() as u64
    }

    /// The doubts of the path.
    pub(crate) fn doubts_at(&self, path: &Path) -> &[Change]
        ensures doubts { result.now ≡ doubts_at self.now path.now }
    {
        match self.doubts.get(path) {
            Some(doubts) => doubts.as_slice(),
            None => &[],
        }
    }
}

/// Whether the change that waits is this one.
pub(crate) fn waits_for(change: &Change, pending: Option<&Pending>) -> bool
    ensures waits { result ≡ waits_for change.now (option_copied pending.entry) }
{
    match pending {
        None => false,
        Some(pending) => change.is_same(&pending.change),
    }
}

// Behind this path, or from the first on.
fn start_after(after: Option<&Path>) -> Bound<&Path>
    ensures start { bound_map (λ p. p.now) result ≡ from_after (option_copied after.entry) }
{
    match after {
        None => Bound::Unbounded,
        Some(path) => Bound::Excluded(path),
    }
}

// The greater of a folder and a path, where there is one.
fn later<'a>(folder: &'a Path, after: Option<&'a Path>) -> &'a Path
    ensures later { result.now ≡ later_path folder.now (option_copied after.entry) }
{
    match after {
        None => folder,
        Some(after) => { if folder < after { after } else { folder } }
    }
}
