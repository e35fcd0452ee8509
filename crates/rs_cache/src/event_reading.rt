//! Rows read as events.

ghost use Rattle.std.specs.Prelude.{◌≡◌, ◌+◌, ◌≤◌, ◌^◌, IfOk, MatchResult, Ok, Some, None};
ghost use Rattle.rs_row.specs.RowFields.{byte_meant, IsRowFault, ReadsMeant, ReadsRow};
ghost use Rattle.rs_cache.specs.declared.event.Event.TheVariants.{Sent, Gone, Accepted, Absorbed};
ghost use Rattle.rs_cache.specs.EventReadings.{root_if_written, root_meant, bearer_meant, resolve_meant, content_in, change_in, remote_in, connect_reading, edit_reading, document_event_reading, tag_event_reading, held_reading, conflict_reading, pulled_reading, settled_reading, unsettled_reading, resolved_reading, event_of_kind, event_behind, event_reading};
ghost use Rattle.rs_cache.specs.EventRows.{SpellsRow};

use crate::event::Event;
use crate::limits::MAX_SHOWN_BODY;
use crate::resolve::Resolve;
use rs_path::{Bytes, Kind, MAX_BODY};
use rs_row::{
    RowFault, read_body, read_document_field, read_end, read_kind_field, read_optional_tag_field,
    read_path_field, read_scopes_field, read_text_2, read_u16, read_u64,
};
use rs_talk::{Base, Bearer, Change, Root, RootFault};
use std::alloc::Global;

/// The event that the row spells, or None where it spells one that stands nowhere.
///
/// What is refused, and at which place, says `event_reading`.
pub fn read_event(alloc: Global, row: &[u8]) -> Result<Option<Event>, RowFault>
    ensures read { ReadsRow result (event_reading row.now) }
    ensures canonical { IfOk result (λ event. SpellsRow row.now event) }
{
    let event = read_row(alloc, row)?;
    Ok(event)
}

fn read_row(alloc: Global, row: &[u8]) -> Result<Option<Event>, RowFault>
    ensures read { ReadsRow result (event_reading row.now) }
{
    match row {
        [1, rest @ ..] => read_behind(alloc, rest),
        _ => Err(RowFault::Bad { place: 0 }),
    }
}

fn read_behind(alloc: Global, row: &[u8]) -> Result<Option<Event>, RowFault>
    ensures { ReadsRow result (event_behind row.now) }
{
    match row {
        [kind, rest @ ..] => read_of_kind(alloc, *kind, rest),
        [] => Err(RowFault::Bad { place: 1 }),
    }
}

fn read_of_kind(alloc: Global, kind: u8, row: &[u8]) -> Result<Option<Event>, RowFault>
    ensures { ReadsRow result (event_of_kind kind row.now) }
{
    match kind {
        16 => read_connect(alloc, row),
        17 => read_edit(alloc, row),
        18 => read_sent(alloc, row),
        19 => read_accepted(alloc, row),
        20 => read_absorbed(alloc, row),
        21 => read_held(alloc, row),
        22 => read_conflict(alloc, row),
        23 => read_pulled(alloc, row),
        24 => read_gone(alloc, row),
        25 => read_settled(alloc, row),
        26 => read_unsettled(alloc, row),
        27 => read_resolved(row),
        _ => Err(RowFault::Bad { place: 1 }),
    }
}

fn read_connect(alloc: Global, row: &[u8]) -> Result<Option<Event>, RowFault>
    ensures { ReadsRow result (connect_reading row.now) }
{
    let (text, behind, row) = read_text_2(2, row)?;
    let root = read_root(alloc, 4, text)?;
    let (text, after, row) = read_text_2(behind, row)?;
    let token = read_bearer(alloc, behind + 2, text)?;
    let (scopes, end, row) = read_scopes_field(alloc, after, row)?;
    read_end(end, row)?;
    Ok(Some(Event::Connect {
        root,
        token,
        scopes,
    }))
}

fn read_edit(alloc: Global, row: &[u8]) -> Result<Option<Event>, RowFault>
    ensures { ReadsRow result (edit_reading row.now) }
{
    let (path, place, row) = read_document_field(alloc, 2, row)?;
    let (change, place, row) = read_change(alloc, place, row)?;
    read_end(place, row)?;
    Ok(Some(Event::Edit { path, change }))
}

fn read_sent(alloc: Global, row: &[u8]) -> Result<Option<Event>, RowFault>
    ensures { ReadsRow result (document_event_reading (λ path. Sent path) row.now) }
{
    let (path, place, row) = read_document_field(alloc, 2, row)?;
    read_end(place, row)?;
    Ok(Some(Event::Sent { path }))
}

fn read_gone(alloc: Global, row: &[u8]) -> Result<Option<Event>, RowFault>
    ensures { ReadsRow result (document_event_reading (λ path. Gone path) row.now) }
{
    let (path, place, row) = read_document_field(alloc, 2, row)?;
    read_end(place, row)?;
    Ok(Some(Event::Gone { path }))
}

fn read_accepted(alloc: Global, row: &[u8]) -> Result<Option<Event>, RowFault>
    ensures { ReadsRow result (tag_event_reading (λ path tag. Accepted path tag) row.now) }
{
    let (path, place, row) = read_document_field(alloc, 2, row)?;
    let (tag, place, row) = read_optional_tag_field(alloc, place, row)?;
    read_end(place, row)?;
    Ok(Some(Event::Accepted { path, tag }))
}

fn read_absorbed(alloc: Global, row: &[u8]) -> Result<Option<Event>, RowFault>
    ensures { ReadsRow result (tag_event_reading (λ path tag. Absorbed path tag) row.now) }
{
    let (path, place, row) = read_document_field(alloc, 2, row)?;
    let (tag, place, row) = read_optional_tag_field(alloc, place, row)?;
    read_end(place, row)?;
    Ok(Some(Event::Absorbed { path, tag }))
}

fn read_held(alloc: Global, row: &[u8]) -> Result<Option<Event>, RowFault>
    ensures { ReadsRow result (held_reading row.now) }
{
    let (path, place, row) = read_document_field(alloc, 2, row)?;
    let (status, place, row) = read_u16(place, row)?;
    read_end(place, row)?;
    Ok(Some(Event::Held { path, status }))
}

fn read_conflict(alloc: Global, row: &[u8]) -> Result<Option<Event>, RowFault>
    ensures { ReadsRow result (conflict_reading row.now) }
{
    let (path, place, row) = read_document_field(alloc, 2, row)?;
    let (remote, place, row) = read_remote(alloc, place, row)?;
    read_end(place, row)?;
    Ok(Some(Event::Conflict { path, remote }))
}

fn read_pulled(alloc: Global, row: &[u8]) -> Result<Option<Event>, RowFault>
    ensures { ReadsRow result (pulled_reading row.now) }
{
    let (path, place, row) = read_document_field(alloc, 2, row)?;
    let (tag, place, row) = read_optional_tag_field(alloc, place, row)?;
    let (kind, body, place, row) = read_content(alloc, MAX_SHOWN_BODY, place, row)?;
    read_end(place, row)?;
    match tag {
        None => Ok(None),
        Some(tag) => Ok(Some(Event::Pulled {
            path,
            base: Base { tag, kind, body },
        })),
    }
}

fn read_settled(alloc: Global, row: &[u8]) -> Result<Option<Event>, RowFault>
    ensures { ReadsRow result (settled_reading row.now) }
{
    let (path, place, row) = read_path_field(alloc, 2, row)?;
    let (tag, place, row) = read_optional_tag_field(alloc, place, row)?;
    read_end(place, row)?;
    match tag {
        None => Ok(None),
        Some(tag) => Ok(Some(Event::Settled { path, tag })),
    }
}

fn read_unsettled(alloc: Global, row: &[u8]) -> Result<Option<Event>, RowFault>
    ensures { ReadsRow result (unsettled_reading row.now) }
{
    let (path, place, row) = read_path_field(alloc, 2, row)?;
    read_end(place, row)?;
    Ok(Some(Event::Unsettled { path }))
}

fn read_resolved(row: &[u8]) -> Result<Option<Event>, RowFault>
    ensures { ReadsRow result (resolved_reading row.now) }
{
    let (n, place, row) = read_u64(2, row)?;
    let (how, place, row) = read_resolve(place, row)?;
    read_end(place, row)?;
    Ok(Some(Event::Resolved { n, how }))
}

// ---- fields

// A content type and a body of at most so many bytes.
fn read_content(
    alloc: Global,
    limit: usize,
    place: u32,
    row: &[u8],
) -> Result<(Kind, Bytes, u32, &[u8]), RowFault>
    requires near { place ≤ 2 ^ 20 }
    requires limit { limit ≤ 2 ^ 27 }
    ensures read { MatchResult result
        (λ field. content_in limit place row.now ≡ Ok (record { value = record { kind = field.0; body = field.1 }; place = field.2; rest = field.3.now }))
        (λ fault. IsRowFault fault (content_in limit place row.now)) }
    ensures near { IfOk result (λ field. field.2 ≤ place + 2 ^ 28) }
{
    let (kind, behind, rest) = read_kind_field(alloc, place, row)?;
    let (body, end, rest) = read_body(alloc, limit, behind, rest)?;
    Ok((kind, body, end, rest))
}

fn read_change(alloc: Global, place: u32, row: &[u8]) -> Result<(Change, u32, &[u8]), RowFault>
    requires near { place ≤ 2 ^ 19 }
    ensures read { MatchResult result
        (λ field. change_in place row.now ≡ Ok (record { value = field.0; place = field.1; rest = field.2.now }))
        (λ fault. IsRowFault fault (change_in place row.now)) }
    ensures near { IfOk result (λ field. field.1 ≤ place + 2 ^ 29) }
{
    match row {
        [1, rest @ ..] => {
            let (kind, body, end, rest) = read_content(alloc, MAX_BODY, place + 1, rest)?;
            Ok((Change::Put { kind, body }, end, rest))
        }
        [2, rest @ ..] => Ok((Change::Remove, place + 1, rest)),
        _ => Err(RowFault::Bad { place }),
    }
}

fn read_remote(
    alloc: Global,
    place: u32,
    row: &[u8],
) -> Result<(Option<Base>, u32, &[u8]), RowFault>
    requires near { place ≤ 2 ^ 19 }
    ensures read { MatchResult result
        (λ field. remote_in place row.now ≡ Ok (record { value = field.0; place = field.1; rest = field.2.now }))
        (λ fault. IsRowFault fault (remote_in place row.now)) }
    ensures near { IfOk result (λ field. field.1 ≤ place + 2 ^ 29) }
{
    let (tag, place, row) = read_optional_tag_field(alloc, place, row)?;
    let Some(tag) = tag else {
        return Ok((None, place, row));
    };
    let (kind, body, place, row) = read_content(alloc, MAX_SHOWN_BODY, place, row)?;
    Ok((Some(Base { tag, kind, body }), place, row))
}

fn read_resolve(place: u32, row: &[u8]) -> Result<(Resolve, u32, &[u8]), RowFault>
    requires near { place ≤ 2 ^ 20 }
    ensures read { MatchResult result
        (λ field. byte_meant resolve_meant place row.now ≡ Ok (record { value = field.0; place = field.1; rest = field.2.now }))
        (λ fault. IsRowFault fault (byte_meant resolve_meant place row.now)) }
    ensures near { IfOk result (λ field. field.1 ≡ place + 1) }
{
    match row {
        [1, rest @ ..] => Ok((Resolve::Keep, place + 1, rest)),
        [2, rest @ ..] => Ok((Resolve::Drop, place + 1, rest)),
        _ => Err(RowFault::Bad { place }),
    }
}

// ---- texts

// The root whose address is written as just this text, which begins at the place.
fn read_root(alloc: Global, place: u32, text: &[u8]) -> Result<Root, RowFault>
    ensures { ReadsMeant result place (root_meant text.now) }
{
    match Root::read(alloc, text) {
        Ok(root) => root_if_written(place, root, text),
        Err(RootFault::NoMemory) => Err(RowFault::NoMemory),
        Err(_) => Err(RowFault::Bad { place }),
    }
}

// The root, if its address is written as just this text.
fn root_if_written(place: u32, root: Root, text: &[u8]) -> Result<Root, RowFault>
    ensures { ReadsMeant result place (root_if_written text.now (Ok root)) }
{
    if root.as_slice() != text {
        return Err(RowFault::Bad { place });
    }
    Ok(root)
}

// The bearer token with this text, which begins at the place.
fn read_bearer(alloc: Global, place: u32, text: &[u8]) -> Result<Bearer, RowFault>
    ensures { ReadsMeant result place (bearer_meant text.now) }
{
    match Bearer::read(alloc, text)? {
        Some(token) => Ok(token),
        None => Err(RowFault::Bad { place }),
    }
}
