//! Decisions on storage requests.

ghost use Rattle.std.specs.Prelude.{◌≡◌, ◌+◌, ◌<◌, ◌^◌, ℕ, true, length, IfOk};
ghost use Rattle.rs_rules.specs.Documents.{live_in};
ghost use Rattle.rs_rules.specs.Snapshots.{Snapshot};
ghost use Rattle.rs_rules.specs.Answers.{is_put, answer_call_in, last_step, shown};
ghost use Rattle.rs_user.specs.Decisions.{DecisionAgrees};
ghost use Rattle.rs_user.specs.Sights.{IsSight};
ghost use Rattle.rs_user.specs.Standing.{Shows};

use crate::access::refused_access;
use crate::limits::refused_limit;
use crate::place::{refused_condition, refused_write};
use crate::sight::Sight;
use crate::state::UserState;
use rs_path::{NoMemory, Path};
use rs_rules::{Call, Reply, Tree};
use rs_scope::Method;

/// What a storage request comes to, before anything is done.
#[derive(Debug, Drop)]
pub(crate) enum Decision {
    /// The reply; no record is added.
    Answer(Reply),
    /// The document is put, and none was there or one was.
    Put { created: bool },
    /// The document, which has this version, is removed.
    Remove { version: u64 },
}

impl<T: Tree> UserState<T> {
    /// Decides a request by the first step that applies. Its path is looked at once.
    pub(crate) fn decide(&self, call: &Call) -> Result<Decision, NoMemory>
        requires room { (s : Snapshot) × Shows T.stands self.now s × (is_put call.now.method ≡ true → live_in s.contents.docs + length call.now.body < 2 ^ 64) }
        ensures decided { (s : Snapshot) → Shows T.stands self.now s → IfOk result (DecisionAgrees s call.now (answer_call_in s self.now.quota call.now)) }
    {
        if let Some(reply) = refused_access(&self.granted, call) {
            return Ok(Decision::Answer(reply));
        }
        if let Some(reply) = refused_write(&self.tree, call)? {
            return Ok(Decision::Answer(reply));
        }
        let sight = Sight::of(&self.tree, &call.path);
        if let Some(reply) = refused_condition(call, sight) {
            return Ok(Decision::Answer(reply));
        }
        if let Some(reply) = refused_limit(&self.tree, self.len, self.quota, call, sight)? {
            return Ok(Decision::Answer(reply));
        }
        last(&self.tree, call, sight)
    }
}

// Steps 13 to 15.
fn last<T: Tree>(tree: &T, call: &Call, sight: Sight<'_>) -> Result<Decision, NoMemory>
    requires sight { (s : Snapshot) × IsSight sight s.contents call.now.path }
    ensures last { (s : Snapshot) → T.stands tree.now s.contents → IsSight sight.entry s.contents call.now.path → IfOk result (DecisionAgrees s call.now (last_step s call.now call.now.method)) }
{
    match call.method {
        Method::Get | Method::Head => Ok(Decision::Answer(shown(tree, &call.path, sight)?)),
        Method::Put => Ok(Decision::Put {
            created: !sight.is_there(),
        }),
        Method::Delete => Ok(Decision::Remove {
            version: sight.version(),
        }),
    }
}

// What stands at the path.
fn shown<T: Tree>(tree: &T, path: &Path, sight: Sight<'_>) -> Result<Reply, NoMemory>
    requires sight { (s : Snapshot) × IsSight sight s.contents path.now }
    ensures shown { (s : Snapshot) → T.stands tree.now s.contents → IsSight sight.entry s.contents path.now
        → IfOk result (λ reply. reply ≡ shown s path.now) }
{
    match sight {
        Sight::Folder { version } => Ok(Reply::Folder {
            version,
            items: tree.items(path)?,
        }),
        Sight::Document(doc) => Ok(Reply::Found {
            version: doc.version,
            kind: doc.kind.copy()?,
            body: doc.body.copy()?,
        }),
        Sight::Nothing => Ok(Reply::Absent),
    }
}
