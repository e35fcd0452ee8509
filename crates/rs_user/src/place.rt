//! What stands at the path, and conditions on it: steps 4 to 9.

ghost use Rattle.std.specs.Prelude.{◌≡◌, true, false, None, IfOk, IfSome, is_none};
ghost use Rattle.rs_rules.specs.Contents.{Contents};
ghost use Rattle.rs_rules.specs.Clashes.{clash_in};
ghost use Rattle.rs_rules.specs.Snapshots.{Snapshot};
ghost use Rattle.rs_rules.specs.Answers.{first_of, clash_reply, write_steps, condition_steps, is_present, path_version, is_put, record_of_call};
ghost use Rattle.rs_user.specs.Sights.{IsSight};

use crate::conditions::{excludes, meets};
use crate::fronts::clash_at;
use crate::sight::Sight;
use rs_path::NoMemory;
use rs_rules::{Call, Reply, Tree};
use rs_scope::Method;

/// The reply to a write that has no place at its path, or None where it has, and where nothing is written: steps 4 and 5.
pub(crate) fn refused_write<T: Tree>(tree: &T, call: &Call) -> Result<Option<Reply>, NoMemory>
    requires stands { (w : Contents) × T.stands tree.now w }
    ensures write { (s : Snapshot) → T.stands tree.now s.contents → IfOk result (λ reply. reply ≡ first_of (write_steps s call.now)) }
    ensures document { IfOk result (λ reply. is_none reply ≡ true → is_put call.now.method ≡ true → call.now.path.folder ≡ false) }
    ensures plain { IfOk result (λ reply. IfSome reply (λ one. record_of_call call.now one ≡ None)) }
{
    if call.method.is_reading() {
        return Ok(None);
    }
    if call.path.is_folder() {
        return Ok(Some(Reply::FolderWrite));
    }
    match call.method {
        Method::Put => refused_clash(tree, call),
        _ => Ok(None),
    }
}

// Step 5, of a Put.
fn refused_clash<T: Tree>(tree: &T, call: &Call) -> Result<Option<Reply>, NoMemory>
    requires stands { (w : Contents) × T.stands tree.now w }
    requires document { call.now.path.folder ≡ false }
    ensures clash { (w : Contents) → T.stands tree.now w → IfOk result (λ reply. reply ≡ clash_reply call.now.path (clash_in w.docs call.now.path)) }
    ensures plain { IfOk result (λ reply. IfSome reply (λ one. record_of_call call.now one ≡ None)) }
{
    let names = call.path.names();
    match tree.clash(&call.path) {
        None => Ok(None),
        Some(count) => {
            let path = clash_at(&call.path, names, count)?;
            Ok(Some(Reply::Clash { path }))
        }
    }
}

/// The reply to a request whose conditions what stands at its path doesn't meet, or None where it does: steps 6 to 9.
pub(crate) fn refused_condition(call: &Call, sight: Sight<'_>) -> Option<Reply>
    ensures condition { (s : Snapshot) → IsSight sight.entry s.contents call.now.path
        → result ≡ first_of (condition_steps call.now (is_present s call.now) (path_version s call.now)) }
    ensures plain { IfSome result (λ one. record_of_call call.now one ≡ None) }
{
    refused_by(call, sight.is_there(), sight.version())
}

// The reply where the conditions aren't met of what is there or not and has the version.
fn refused_by(call: &Call, there: bool, version: u64) -> Option<Reply>
    ensures condition { result ≡ first_of (condition_steps call.now there version) }
    ensures plain { IfSome result (λ one. record_of_call call.now one ≡ None) }
{
    let reads = call.method.is_reading();
    let named = excludes(&call.if_none, there, version);
    if !is_put(call.method) && !there {
        Some(Reply::Absent)
    } else if !meets(&call.if_match, there, version) || !reads && named {
        Some(Reply::Unmet)
    } else if reads && named {
        Some(Reply::Same { version })
    } else {
        None
    }
}

fn is_put(method: Method) -> bool
    ensures put { result ≡ is_put method }
{
    match method {
        Method::Put => true,
        _ => false,
    }
}
