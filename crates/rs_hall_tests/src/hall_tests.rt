//! Halls opened and closed, and desks that meet.

ghost use Rattle.std.specs.Prelude.{◌≡◌, length, IfOk};
ghost use Rattle.rs_hall.specs.Halls.{locks_of};

use crate::asking::{TestHall, TestSeats, grant_of, hall_of_two, is_granted, keepers_of};
use rs_face::MemKeeper;
use rs_hall::{Hall, HallFault, OpenGate, SharedDesk};
use rs_plain::PlainTree;
use rs_rules::OpenFault;
use std::alloc::Global;
use std::process::Abort;
use std::sync::Wait;
use std::test::Fail;

// Two desks of a hall write to the history of user 0 and meet, and one writes to that of user 1. The seats of the first desk.
fn write_and_meet<R: Wait + Abort>(
    rt: &R,
    alloc: Global,
    hall: &TestHall,
    seats: TestSeats,
    other: TestSeats,
) -> Result<TestSeats, Fail>
    requires seats { locks_of seats.each.items ≡ hall.now.locks.items }
    requires other { locks_of other.each.items ≡ hall.now.locks.items }
    requires two { (length seats.each.items ≡ 2) × (length other.each.items ≡ 2) }
    ensures own { IfOk result (λ r. locks_of r.each.items ≡ hall.now.locks.items) }
{
    let gate = OpenGate;
    let mut one = SharedDesk::new(rt, hall, seats, &gate);
    let mut two = SharedDesk::new(rt, hall, other, &gate);
    assert!(rt; is_granted(&mut one, 0, &grant_of(alloc, 1)?));
    assert!(rt; is_granted(&mut two, 0, &grant_of(alloc, 2)?));
    assert!(rt; is_granted(&mut two, 1, &grant_of(alloc, 3)?));
    assert_eq!(rt; (one.front(0), two.front(0)), (1, 2));
    assert_eq!(rt; one.meet(&mut two, 0), 2);
    Ok(one.into_seats())
}

#[test]
fn desks_of_one_hall_see_one_list(rt: HostRuntime) -> Result<(), Fail> {
    let alloc = rt.alloc();
    let (hall, mut seats) = hall_of_two(alloc)?;
    let Ok(other) = seats.split(&hall) else {
        return Err("no seats")?;
    };
    let seats = write_and_meet(&rt, alloc, &hall, seats, other)?;
    let Ok(keepers) = hall.close(&rt, seats) else {
        return Err("no memory")?;
    };
    let mut rows = Vec::new(alloc);
    for keeper in keepers.iter() {
        rows.push(keeper.rows().len())?;
    }
    assert_eq!(rt; rows.as_slice(), [2, 1].as_slice());
    Ok(())
}

#[test]
fn a_bad_row_is_told_by_user_and_keeps_all_keepers(rt: HostRuntime) -> Result<(), Fail> {
    let alloc = rt.alloc();
    let mut keepers = keepers_of(alloc, &["no record"])?;
    let fault = match Hall::<MemKeeper, PlainTree>::open(alloc, &mut keepers, &[100, 100]) {
        Ok(_) => return Err("rows that are opened")?,
        Err(fault) => fault,
    };
    assert!(rt;
        matches!(
            fault,
            HallFault::User {
                user: 1,
                fault: OpenFault::BadRow { index: 0, .. }
            }
        )
    );
    assert_eq!(rt; keepers.len(), 2);
    Ok(())
}
