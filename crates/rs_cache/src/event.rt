//! The events of a client's journal.

ghost use Rattle.std.specs.Prelude.{◌≡◌, IfOk};

use crate::resolve::Resolve;
use rs_path::{NoMemory, Path, Tag};
use rs_scope::Scopes;
use rs_talk::{Base, Bearer, Change, Root};

/// One event of a client's journal, which is the list of its events in the order in which they came.
///
/// Where an event may stand, and what it does, say `may_note` and `effect`. Paths are of documents, but for those of
/// `Settled` and `Unsettled`, which are of folders.
#[derive(Debug, Drop)]
pub enum Event {
    /// The client was connected to an account.
    Connect {
        /// The root of the account.
        root: Root,
        /// The token that the client shows.
        token: Bearer,
        /// What the token may do.
        scopes: Scopes,
    },
    /// The user changed a document.
    Edit {
        /// The path of the document.
        path: Path,
        /// The change.
        change: Change,
    },
    /// The change that waits is being sent.
    Sent {
        /// The path of the document.
        path: Path,
    },
    /// The server made the change that waited.
    Accepted {
        /// The path of the document.
        path: Path,
        /// The entity tag that it has since, None for a removal.
        tag: Option<Tag>,
    },
    /// The server had what the change would have made.
    Absorbed {
        /// The path of the document.
        path: Path,
        /// The entity tag that it has, None for a removal.
        tag: Option<Tag>,
    },
    /// The server refused the change, which goes on to wait.
    Held {
        /// The path of the document.
        path: Path,
        /// The status of the refusal.
        status: u16,
    },
    /// The server had something else; the change is kept in a record of the conflict.
    Conflict {
        /// The path of the document.
        path: Path,
        /// What the server had, None where there was no document.
        remote: Option<Base>,
    },
    /// The document was fetched.
    Pulled {
        /// The path of the document.
        path: Path,
        /// The document.
        base: Base,
    },
    /// The document is no more.
    Gone {
        /// The path of the document.
        path: Path,
    },
    /// All below the folder is known.
    Settled {
        /// The path of the folder.
        path: Path,
        /// The entity tag that the folder had.
        tag: Tag,
    },
    /// It isn't known whether all below the folder is.
    Unsettled {
        /// The path of the folder.
        path: Path,
    },
    /// The user resolved a conflict.
    Resolved {
        /// The number of the conflict.
        n: u64,
        /// What becomes of the change.
        how: Resolve,
    },
}

impl Event {
    /// An equal event, from the same allocators.
    pub fn copy(&self) -> Result<Event, NoMemory>
        ensures same { IfOk result (λ copied. copied ≡ self.now) }
    {
        match self {
            Event::Connect {
                root,
                token,
                scopes,
            } => Ok(Event::Connect {
                root: root.copy()?,
                token: token.copy()?,
                scopes: scopes.copy()?,
            }),
            Event::Edit { path, change } => Ok(Event::Edit {
                path: path.copy()?,
                change: change.copy()?,
            }),
            Event::Sent { path } => Ok(Event::Sent { path: path.copy()? }),
            Event::Accepted { path, tag } => Ok(Event::Accepted {
                path: path.copy()?,
                tag: copy_of_tag(tag)?,
            }),
            Event::Absorbed { path, tag } => Ok(Event::Absorbed {
                path: path.copy()?,
                tag: copy_of_tag(tag)?,
            }),
            Event::Held { path, status } => Ok(Event::Held {
                path: path.copy()?,
                status: *status,
            }),
            Event::Conflict { path, remote } => Ok(Event::Conflict {
                path: path.copy()?,
                remote: copy_of_base(remote)?,
            }),
            Event::Pulled { path, base } => Ok(Event::Pulled {
                path: path.copy()?,
                base: base.copy()?,
            }),
            Event::Gone { path } => Ok(Event::Gone { path: path.copy()? }),
            Event::Settled { path, tag } => Ok(Event::Settled {
                path: path.copy()?,
                tag: tag.copy()?,
            }),
            Event::Unsettled { path } => Ok(Event::Unsettled { path: path.copy()? }),
            Event::Resolved { n, how } => Ok(Event::Resolved { n: *n, how: *how }),
        }
    }
}

fn copy_of_tag(tag: &Option<Tag>) -> Result<Option<Tag>, NoMemory>
    ensures { IfOk result (λ copied. copied ≡ tag.now) }
{
    match tag {
        None => Ok(None),
        Some(tag) => Ok(Some(tag.copy()?)),
    }
}

/// An equal document, where there is one.
pub(crate) fn copy_of_base(base: &Option<Base>) -> Result<Option<Base>, NoMemory>
    ensures { IfOk result (λ copied. copied ≡ base.now) }
{
    match base {
        None => Ok(None),
        Some(base) => Ok(Some(base.copy()?)),
    }
}
