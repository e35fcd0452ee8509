//! Halls over keepers in memory, and grants that are asked of their desks.

ghost use Rattle.std.specs.Prelude.{◌≡◌, ◌<◌, true, length, IfOk};
ghost use Rattle.rs_rules.specs.Requests.{is_within_limit};
ghost use Rattle.rs_hall.specs.Halls.{locks_of};

use rs_face::MemKeeper;
use rs_hall::{Gate, Hall, Seats, SharedDesk};
use rs_path::Bytes;
use rs_plain::PlainTree;
use rs_rules::{Desk, Reply, Request, Turn};
use rs_scope::{Scopes, Token};
use std::alloc::Global;
use std::sync::Wait;
use std::test::Fail;

/// The hall of these tests, and its seats.
pub type TestHall = Hall<MemKeeper, PlainTree>;

pub type TestSeats = Seats<MemKeeper, PlainTree>;

/// Two keepers: one with no rows, and one with these.
pub fn keepers_of(alloc: Global, rows: &[&'static str]) -> Result<Vec<MemKeeper>, Fail>
    ensures { IfOk result (λ keepers. length keepers.items ≡ 2) }
{
    let mut kept = Vec::new(alloc);
    for row in rows {
        kept.push(Bytes::of(Vec::from_slice(alloc, row.as_bytes())?))?;
    }
    let mut keepers = Vec::with_capacity(alloc, 2)?;
    keepers.push(MemKeeper::new(Vec::new(alloc), Vec::new(alloc)))?;
    keepers.push(MemKeeper::new(kept, Vec::new(alloc)))?;
    Ok(keepers)
}

/// A hall of two users with no rows.
pub fn hall_of_two(alloc: Global) -> Result<(TestHall, TestSeats), Fail>
    ensures own { IfOk result (λ r. locks_of r.1.each.items ≡ r.0.locks.items) }
    ensures two { IfOk result (λ r. length r.1.each.items ≡ 2) }
{
    let mut keepers = keepers_of(alloc, &[])?;
    match Hall::open(alloc, &mut keepers, &[100, 100]) {
        Ok(opened) => Ok(opened),
        Err(_) => Err("rows that aren't opened")?,
    }
}

/// A grant of `*:rw` to the token with this number.
pub fn grant_of(alloc: Global, number: u64) -> Result<Request, Fail>
    ensures { IfOk result (λ request. is_within_limit request ≡ true) }
{
    Ok(Request::Grant {
        token: Token::of_words(0, number),
        scopes: Scopes::read(alloc, b"*:rw")?,
    })
}

/// Asks the desk, and says whether the answer is that the grant was made.
pub fn is_granted<'h, G: Gate, R: Wait>(
    desk: &mut SharedDesk<'h, MemKeeper, PlainTree, G, R>,
    user: u32,
    request: &Request,
) -> bool
    requires served { user < length desk.old.seats.each.items }
    requires short { is_within_limit request.now ≡ true }
    ensures locks { locks_of desk.new.seats.each.items ≡ locks_of desk.old.seats.each.items }
    ensures as_many { length desk.new.seats.each.items ≡ length desk.old.seats.each.items }
{
    matches!(
        desk.turn(user, request),
        Ok(Turn {
            reply: Reply::Granted,
            ..
        })
    )
}
