//! Room for one more record, for the body, and in each folder above the path: steps 10 to 12.

ghost use Rattle.std.specs.Prelude.{◌≡◌, ◌+◌, ◌<◌, ◌^◌, true, false, None, length, IfOk, IfSome};
ghost use Rattle.rs_path.specs.Paths.{Path as PathValue};
ghost use Rattle.rs_rules.specs.Contents.{Contents};
ghost use Rattle.rs_rules.specs.Documents.{others, live_in};
ghost use Rattle.rs_rules.specs.Snapshots.{Snapshot};
ghost use Rattle.rs_rules.specs.Answers.{first_of, is_put, room_steps, limit_steps, record_of_call};
ghost use Rattle.rs_user.specs.Sights.{IsSight};

use crate::fronts::folder_front;
use crate::sight::Sight;
use rs_path::{Bytes, NoMemory};
use rs_rules::{Call, MAX_LEN, Reply, Tree, live_laws};
use rs_scope::Method;

/// The reply to a write that there is no room for, or None where there is.
pub(crate) fn refused_limit<T: Tree>(
    tree: &T,
    len: u64,
    quota: u64,
    call: &Call,
    sight: Sight<'_>,
) -> Result<Option<Reply>, NoMemory>
    requires document { is_put call.now.method ≡ true → call.now.path.folder ≡ false }
    requires room { (w : Contents) × T.stands tree.now w × IsSight sight w call.now.path
        × (is_put call.now.method ≡ true → live_in w.docs + length call.now.body < 2 ^ 64) }
    ensures limit { (s : Snapshot) → T.stands tree.now s.contents → IsSight sight.entry s.contents call.now.path → len ≡ s.len → IfOk result (λ reply. reply ≡ first_of (limit_steps s quota call.now)) }
    ensures plain { IfOk result (λ reply. IfSome reply (λ one. record_of_call call.now one ≡ None)) }
{
    if call.method.is_reading() {
        return Ok(None);
    }
    if len >= MAX_LEN {
        return Ok(Some(Reply::RecordsFull));
    }
    match call.method {
        Method::Put => refused_room(tree, quota, call, sight),
        _ => Ok(None),
    }
}

// Steps 11 and 12 of a Put.
fn refused_room<T: Tree>(
    tree: &T,
    quota: u64,
    call: &Call,
    sight: Sight<'_>,
) -> Result<Option<Reply>, NoMemory>
    requires put { is_put call.now.method ≡ true }
    requires document { call.now.path.folder ≡ false }
    requires room { (w : Contents) × T.stands tree.now w × IsSight sight w call.now.path × (live_in w.docs + length call.now.body < 2 ^ 64) }
    ensures room { (s : Snapshot) → T.stands tree.now s.contents → IsSight sight.entry s.contents call.now.path → IfOk result (λ reply. reply ≡ first_of (room_steps s quota call.now)) }
    ensures plain { IfOk result (λ reply. IfSome reply (λ one. record_of_call call.now one ≡ None)) }
{
    if quota < live_after(tree, sight, &call.body) {
        return Ok(Some(Reply::OverQuota { live: tree.live() }));
    }
    match tree.full(&call.path) {
        None => Ok(None),
        Some(count) => {
            let path = folder_front(&call.path, count)?;
            Ok(Some(Reply::FolderFull { path }))
        }
    }
}

// The sum of the lengths of the bodies once this one stands at the path of a document that was looked at.
fn live_after<T: Tree>(tree: &T, sight: Sight<'_>, body: &Bytes) -> u64
    requires room { (w : Contents) × (path : PathValue) × T.stands tree.now w × IsSight sight w path × (live_in w.docs + length body.now < 2 ^ 64) }
    ensures live { (w : Contents) (path : PathValue) → T.stands tree.now w → IsSight sight.entry w path → path.folder ≡ false
        → result ≡ live_in (others path w.docs) + length body.now }
{
    live_laws();
    let replaced = match sight {
        Sight::Document(doc) => doc.body.as_slice().len() as u64,
        _ => 0,
    };
    tree.live() - replaced + body.as_slice().len() as u64
}
