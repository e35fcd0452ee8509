//! Where the parts of a reply begin.

ghost use Rattle.std.specs.Prelude.{◌≡◌, ◌<◌, ◌≤◌, length, IfOk, IfNone, IfSome};
ghost use Rattle.rs_talk.specs.AnswerReadings.{part_place};
ghost use Rattle.rs_talk.specs.Places.{head_start, head_end, last_part};

use crate::part::Part;
use rs_path::NoMemory;
use rs_request::{Search, Spot, past_breaks, window};
use rs_wire::{ReplyFault, read_reply};
use std::alloc::Global;

/// The place of the first byte of this part of the reply that the bytes are.
pub(crate) fn part_place(alloc: Global, bytes: &[u8], part: Part) -> Result<u64, NoMemory>
    ensures place { IfOk result (λ place. place ≡ part_place bytes.now part) }
{
    let end = head_end(alloc, bytes)?;
    match part {
        Part::Head => Ok(head_start(bytes, end)),
        Part::Body => Ok(end),
    }
}

// The place behind the head: read as one without a body, the reply has bytes too many from there on, or none.
fn head_end(alloc: Global, bytes: &[u8]) -> Result<u64, NoMemory>
    ensures end { IfOk result (λ end. end ≡ head_end bytes.now) }
{
    match read_reply(alloc, true, bytes) {
        Ok(_) => Ok(bytes.len() as u64),
        Err(ReplyFault::Bad { place }) => Ok(place),
        Err(ReplyFault::NoMemory) => Err(NoMemory),
    }
}

// The place of the head's first byte that is no CR and no LF, where the head ends there.
fn head_start(bytes: &[u8], end: u64) -> u64
    requires end { end ≡ head_end bytes.now }
    ensures start { result ≡ head_start bytes.now }
{
    let heads = window(bytes, end as usize);
    end - past_breaks(last_part(heads)).len() as u64
}

// The last of heads, which stand one after another.
fn last_part(heads: &[u8]) -> &[u8]
    ensures last { result.now ≡ last_part heads.now }
    ensures within { length result.now ≤ length heads.now }
{
    let mut rest = heads;
    while let Some(next) = next_part(rest) {
        rest = next;
    }
    rest
}

// What stands behind the first of heads, where something does.
fn next_part(heads: &[u8]) -> Option<&[u8]>
    ensures last { IfNone result (last_part heads.now ≡ heads.now) }
    ensures next { IfSome result (λ next. last_part heads.now ≡ last_part next.now) }
    ensures shorter { IfSome result (λ next. length next.now < length heads.now) }
{
    let mut search = Search::from(Spot::Before);
    let Some(count) = search.seek(heads) else {
        return None;
    };
    if count == heads.len() {
        return None;
    }
    Some(&heads[count..])
}
