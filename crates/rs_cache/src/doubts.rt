//! Changes that may have reached the server.

ghost use Rattle.std.specs.Prelude.{◌≡◌, ◌++◌, ◌∷◌, [], IfOk};
ghost use Rattle.std.specs.List.{list_any};
ghost use Rattle.rs_talk.specs.Changes.{same_change};

use rs_path::NoMemory;
use rs_talk::Change;
use std::alloc::Global;
use std::marker::Model;

/// The changes of a document that were sent since its base last changed, each once. A contract sees their list.
#[derive(Debug, Drop)]
pub struct Doubts {
    list: Vec<Change>,
}

impl Model for Doubts {
    ghost use Rattle.std.specs.Prelude.{List};
    ghost use Rattle.rs_talk.specs.declared.change.Change.{Change};

    ghost Value = { List Change };

    ghost view = { λ d. d.list.items };
}

impl Doubts {
    /// The changes.
    pub(crate) fn as_slice(&self) -> &[Change]
        ensures changes { result.now ≡ self.now }
    {
        self.list.as_slice()
    }

    /// These changes and one more.
    pub(crate) fn with(
        alloc: Global,
        before: &[Change],
        change: &Change,
    ) -> Result<Doubts, NoMemory>
        ensures more { IfOk result (λ doubts. doubts ≡ before.now ++ change.now ∷ []) }
    {
        let mut list = Vec::with_capacity(alloc, before.len())?;
        for doubt in before {
            list.push(doubt.copy()?)?;
        }
        list.push(change.copy()?)?;
        Ok(Doubts { list })
    }
}

/// Whether the change is among these.
pub(crate) fn has_change(changes: &[Change], change: &Change) -> bool
    ensures among { result ≡ list_any (same_change change.now) changes.now }
{
    changes.iter().any(|other| change.is_same(other))
}
