//! Events spelled as rows.

ghost use Rattle.std.specs.Prelude.{◌≡◌, ◌++◌, ◌∷◌, [], ◌≤◌, ◌<◌, ◌^◌, true, false, length, IfOk, OnOk, Ok, Some, IsTrue};
ghost use Rattle.std.specs.Int.{w16, w64, to_be_bytes};
ghost use Rattle.rs_path.specs.Kinds.{is_kind};
ghost use Rattle.rs_path.specs.Paths.{is_path};
ghost use Rattle.rs_path.specs.Tags.{is_tag};
ghost use Rattle.rs_scope.specs.Scopes.{scopes_text};
ghost use Rattle.rs_talk.specs.Roots.{root_text};
ghost use Rattle.rs_row.specs.RowTexts.{behind_1, behind_2};
ghost use Rattle.rs_cache.specs.EventParts.{HasTagPart, HasChangeParts, HasRemoteParts, HasBaseParts, HasEventParts};
ghost use Rattle.rs_cache.specs.EventReadings.{event_reading};
ghost use Rattle.rs_cache.specs.EventRows.{row_start, path_bytes, tag_bytes, content_bytes, change_bytes, base_bytes, remote_bytes, resolve_byte, event_row};
ghost use Rattle.rs_cache.specs.Spellable.{IsShortChange, IsShortRemote, IsSpellable};

use crate::event::Event;
use crate::resolve::Resolve;
use rs_path::{Bytes, Kind, NoMemory, Path, Tag};
use rs_row::{push_behind_1, push_behind_2};
use rs_scope::Scopes;
use rs_talk::{Base, Bearer, Change, Root};
use std::alloc::Global;

/// The row of an event, which is read back as the event.
#[tactic(auto, using(crate::proofs::EventLemmas::event_back))]
pub fn event_row(alloc: Global, event: &Event) -> Result<Vec<u8>, NoMemory>
    requires spellable { IsSpellable event.now }
    ensures row { IfOk result (λ row. row.items ≡ event_row event.now) }
    ensures back { IfOk result (λ row. event_reading (event_row event.now) ≡ Ok (Some event.now)) }
{
    let row = row_of(alloc, event)?;
    Ok(row)
}

fn row_of(alloc: Global, event: &Event) -> Result<Vec<u8>, NoMemory>
    requires spellable { IsSpellable event.now }
    ensures row { IfOk result (λ row. row.items ≡ event_row event.now) }
    ensures parts { IfOk result (λ row. HasEventParts event.now) }
{
    match event {
        Event::Connect {
            root,
            token,
            scopes,
        } => connect_row(alloc, root, token, scopes),
        Event::Edit { path, change } => edit_row(alloc, path, change),
        Event::Sent { path } => path_row(alloc, 18, path),
        Event::Accepted { path, tag } => tag_row(alloc, 19, path, tag),
        Event::Absorbed { path, tag } => tag_row(alloc, 20, path, tag),
        Event::Held { path, status } => held_row(alloc, path, *status),
        Event::Conflict { path, remote } => conflict_row(alloc, path, remote),
        Event::Pulled { path, base } => pulled_row(alloc, path, base),
        Event::Gone { path } => path_row(alloc, 24, path),
        Event::Settled { path, tag } => settled_row(alloc, path, tag),
        Event::Unsettled { path } => path_row(alloc, 26, path),
        Event::Resolved { n, how } => resolved_row(alloc, *n, *how),
    }
}

fn connect_row(
    alloc: Global,
    root: &Root,
    token: &Bearer,
    scopes: &Scopes,
) -> Result<Vec<u8>, NoMemory>
    ensures row { IfOk result (λ row. row.items
        ≡ row_start 16 ++ (behind_2 (root_text root.now) ++ (behind_2 token.now ++ behind_2 (scopes_text scopes.now)))) }
    ensures parts { HasEventParts (Event.Connect root.now token.now scopes.now) }
{
    scopes.as_slice();
    let root = root.as_slice();
    let token = token.as_slice();
    let mut row = started(alloc, 16)?;
    push_behind_2(&mut row, root)?;
    push_behind_2(&mut row, token)?;
    let mut text = Vec::new(alloc);
    scopes.write(&mut text)?;
    push_behind_2(&mut row, text.as_slice())?;
    Ok(row)
}

fn edit_row(alloc: Global, path: &Path, change: &Change) -> Result<Vec<u8>, NoMemory>
    requires short { IsShortChange change.now }
    ensures row { IfOk result (λ row. row.items ≡ row_start 17 ++ (path_bytes path.now ++ change_bytes change.now)) }
    ensures path { is_path path.now ≡ true }
    ensures parts { IfOk result (λ row. HasChangeParts change.now) }
{
    let mut row = path_row(alloc, 17, path)?;
    push_change(&mut row, change)?;
    Ok(row)
}

fn tag_row(alloc: Global, number: u8, path: &Path, tag: &Option<Tag>) -> Result<Vec<u8>, NoMemory>
    ensures row { IfOk result (λ row. row.items ≡ row_start number ++ (path_bytes path.now ++ tag_bytes tag.now)) }
    ensures path { is_path path.now ≡ true }
    ensures parts { IfOk result (λ row. HasTagPart tag.now) }
{
    let mut row = path_row(alloc, number, path)?;
    push_tag(&mut row, tag)?;
    Ok(row)
}

fn held_row(alloc: Global, path: &Path, status: u16) -> Result<Vec<u8>, NoMemory>
    ensures row { IfOk result (λ row. row.items ≡ row_start 21 ++ (path_bytes path.now ++ to_be_bytes w16 status)) }
    ensures path { is_path path.now ≡ true }
    ensures small { status < 2 ^ 16 }
{
    let mut row = path_row(alloc, 21, path)?;
    row.extend_from_slice(&status.to_be_bytes())?;
    Ok(row)
}

fn conflict_row(alloc: Global, path: &Path, remote: &Option<Base>) -> Result<Vec<u8>, NoMemory>
    requires short { IsShortRemote remote.now }
    ensures row { IfOk result (λ row. row.items ≡ row_start 22 ++ (path_bytes path.now ++ remote_bytes remote.now)) }
    ensures path { is_path path.now ≡ true }
    ensures parts { IfOk result (λ row. HasRemoteParts remote.now) }
{
    let mut row = path_row(alloc, 22, path)?;
    push_remote(&mut row, remote)?;
    Ok(row)
}

fn pulled_row(alloc: Global, path: &Path, base: &Base) -> Result<Vec<u8>, NoMemory>
    requires short { length base.now.body ≤ 134217728 }
    ensures row { IfOk result (λ row. row.items ≡ row_start 23 ++ (path_bytes path.now ++ base_bytes base.now)) }
    ensures path { is_path path.now ≡ true }
    ensures parts { IfOk result (λ row. HasBaseParts base.now) }
{
    let mut row = path_row(alloc, 23, path)?;
    push_base(&mut row, base)?;
    Ok(row)
}

fn settled_row(alloc: Global, path: &Path, tag: &Tag) -> Result<Vec<u8>, NoMemory>
    ensures row { IfOk result (λ row. row.items ≡ row_start 25 ++ (path_bytes path.now ++ behind_1 tag.now)) }
    ensures path { is_path path.now ≡ true }
    ensures parts { IfOk result (λ row. is_tag tag.now ≡ true) }
{
    let mut row = path_row(alloc, 25, path)?;
    push_behind_1(&mut row, tag.as_slice())?;
    Ok(row)
}

fn resolved_row(alloc: Global, n: u64, how: Resolve) -> Result<Vec<u8>, NoMemory>
    ensures row { IfOk result (λ row. row.items ≡ row_start 27 ++ (to_be_bytes w64 n ++ resolve_byte how ∷ [])) }
    ensures small { n < 2 ^ 64 }
{
    let mut row = started(alloc, 27)?;
    row.extend_from_slice(&n.to_be_bytes())?;
    row.push(resolve_byte(how))?;
    Ok(row)
}

fn resolve_byte(how: Resolve) -> u8
    ensures byte { result ≡ resolve_byte how }
{
    match how {
        Resolve::Keep => 1,
        Resolve::Drop => 2,
    }
}

// The format, and the number of the event's kind.
fn started(alloc: Global, number: u8) -> Result<Vec<u8>, NoMemory>
    ensures row { IfOk result (λ row. row.items ≡ row_start number) }
{
    Ok(Vec::from_slice(alloc, &[1, number])?)
}

// The beginning of a row whose first field is a path.
fn path_row(alloc: Global, number: u8, path: &Path) -> Result<Vec<u8>, NoMemory>
    ensures row { IfOk result (λ row. row.items ≡ row_start number ++ path_bytes path.now) }
    ensures path { is_path path.now ≡ true }
{
    path.names();
    let mut row = started(alloc, number)?;
    let mut text = Vec::new(alloc);
    path.write_plain(&mut text)?;
    push_behind_2(&mut row, text.as_slice())?;
    Ok(row)
}

// A tag, or nothing behind the length 0.
fn push_tag(out: &mut Vec<u8>, tag: &Option<Tag>) -> Result<(), NoMemory>
    ensures tag { OnOk result (out.new.items ≡ out.old.items ++ tag_bytes tag.now) }
    ensures parts { HasTagPart tag.now }
{
    match tag {
        None => push_behind_1(out, b""),
        Some(tag) => push_behind_1(out, tag.as_slice()),
    }
}

// The content of a Put behind its byte, or the byte of a removal.
fn push_change(out: &mut Vec<u8>, change: &Change) -> Result<(), NoMemory>
    requires short { IsShortChange change.now }
    ensures change { OnOk result (out.new.items ≡ out.old.items ++ change_bytes change.now) }
    ensures parts { IfOk result (λ done. HasChangeParts change.now) }
{
    match change {
        Change::Put { kind, body } => {
            out.push(1)?;
            push_content(out, kind, body)
        }
        Change::Remove => Ok(out.push(2)?),
    }
}

// A document that may be there, behind its tag.
fn push_remote(out: &mut Vec<u8>, remote: &Option<Base>) -> Result<(), NoMemory>
    requires short { IsShortRemote remote.now }
    ensures remote { OnOk result (out.new.items ≡ out.old.items ++ remote_bytes remote.now) }
    ensures parts { IfOk result (λ done. HasRemoteParts remote.now) }
{
    match remote {
        None => push_behind_1(out, b""),
        Some(base) => push_base(out, base),
    }
}

fn push_base(out: &mut Vec<u8>, base: &Base) -> Result<(), NoMemory>
    requires short { length base.now.body ≤ 134217728 }
    ensures base { OnOk result (out.new.items ≡ out.old.items ++ base_bytes base.now) }
    ensures parts { IfOk result (λ done. HasBaseParts base.now) }
{
    push_behind_1(out, base.tag.as_slice())?;
    push_content(out, &base.kind, &base.body)
}

// A content type and a body, which is copied once.
fn push_content(out: &mut Vec<u8>, kind: &Kind, body: &Bytes) -> Result<(), NoMemory>
    requires short { length body.now ≤ 134217728 }
    ensures content { OnOk result (out.new.items ≡ out.old.items ++ content_bytes kind.now body.now) }
    ensures kind { is_kind kind.now ≡ true }
{
    push_behind_1(out, kind.as_slice())?;
    out.extend_from_slice(&(body.as_slice().len() as u32).to_be_bytes())?;
    out.extend_from_slice(body.as_slice())?;
    Ok(())
}
