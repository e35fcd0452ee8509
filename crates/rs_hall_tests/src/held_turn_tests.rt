//! A turn that is held, beside which another user is served.

ghost use Rattle.std.specs.Prelude.{◌≡◌, ◌<◌, true, length};
ghost use Rattle.rs_rules.specs.Requests.{is_within_limit};
ghost use Rattle.rs_hall.specs.Halls.{locks_of};

use crate::asking::{TestHall, TestSeats, grant_of, hall_of_two, is_granted};
use crate::held_gate::HeldGate;
use rs_face::MemKeeper;
use rs_hall::SharedDesk;
use rs_plain::PlainTree;
use rs_rules::Request;
use std::sync::Wait;
use std::test::Fail;
use std::thread::{Threads, join};

type TestDesk<'h, R> = SharedDesk<'h, MemKeeper, PlainTree, HeldGate, R>;

// Asks user 1 while a turn of user 0 is held, and lets that turn go. Whether the request was granted while it was held.
fn granted_beside<R: Wait>(desk: &mut TestDesk<'_, R>, gate: &HeldGate, request: &Request) -> bool
    requires served { 1 < length desk.old.seats.each.items }
    requires short { is_within_limit request.now ≡ true }
{
    gate.wait_for_a_turn();
    let granted = is_granted(desk, 1, request);
    let held = gate.holds();
    gate.open();
    granted && held
}

// A turn of user 0 in one thread, and one of user 1 beside it in another.
fn grant_in_two<R: Threads + Wait + Sync>(
    rt: &R,
    hall: &TestHall,
    gate: &HeldGate,
    one: TestSeats,
    other: TestSeats,
    request: &Request,
) -> (bool, bool)
    requires one { locks_of one.each.items ≡ hall.now.locks.items }
    requires other { locks_of other.each.items ≡ hall.now.locks.items }
    requires two { (length one.each.items ≡ 2) × (length other.each.items ≡ 2) }
    requires short { is_within_limit request.now ≡ true }
{
    let mut slow = SharedDesk::new(rt, hall, one, gate);
    let mut quick = SharedDesk::new(rt, hall, other, gate);
    join(
        rt,
        move ||
            requires { (length slow.seats.each.items ≡ 2) × (is_within_limit request.now ≡ true) }
        { is_granted(&mut slow, 0, request) },
        move ||
            requires { (length quick.seats.each.items ≡ 2) × (is_within_limit request.now ≡ true) }
        { granted_beside(&mut quick, gate, request) },
    )
}

#[test]
fn a_held_turn_keeps_no_other_user_waiting(rt: HostRuntime) -> Result<(), Fail> {
    let alloc = rt.alloc();
    let (hall, mut one) = hall_of_two(alloc)?;
    let Ok(other) = one.split(&hall) else {
        return Err("no seats")?;
    };
    let gate = HeldGate::new();
    let request = grant_of(alloc, 1)?;
    let granted = grant_in_two(&rt, &hall, &gate, one, other, &request);
    assert_eq!(rt; granted, (true, true));
    Ok(())
}
