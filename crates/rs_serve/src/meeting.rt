//! Desks that meet.

ghost use Rattle.std.specs.Prelude.{◌≡◌, length};
ghost use Rattle.rs_hall.specs.Halls.{AreLater, locks_of};
ghost use Rattle.rs_serve.specs.Staffs.{AllOfHall, HasSeen, HasSeenAll, HasSeenDesk, IsOfHall, failed_in, posts_of, served_in};

use crate::worker::Worker;
use rs_chain::ChainTree;
use rs_face::Keeper;
use rs_hall::{Gate, Hall, Seats, SharedDesk};

// Lets the first desk see what the other has seen of each user.
fn meet_users<'h, K, G, R>(
    first: &mut SharedDesk<'h, K, ChainTree, G, R>,
    other: &mut SharedDesk<'h, K, ChainTree, G, R>,
    users: u32,
)
where
    K: Keeper + Drop,
    G: Gate,
    requires one_hall { locks_of other.old.seats.each.items ≡ locks_of first.old.seats.each.items }
    requires users { users ≡ length first.old.seats.each.items }
    ensures later { AreLater first.old.seats.each.items first.new.seats.each.items }
    ensures seen { HasSeen first.new.seats.each.items other.old.seats.each.items }
{
    for user in 0..users {
        first.meet(other, user);
    }
}

// Lets the first desk see what the worker's own has seen, where it has one.
fn meet_worker<'h, P, K, G, R>(
    rt: &'h R,
    hall: &'h Hall<K, ChainTree>,
    gate: &'h G,
    first: &mut SharedDesk<'h, K, ChainTree, G, R>,
    worker: &mut Worker<P, Seats<K, ChainTree>>,
    users: u32,
)
where
    P: Drop,
    K: Keeper + Drop,
    G: Gate,
    requires own { locks_of first.old.seats.each.items ≡ hall.now.locks.items }
    requires hall { IsOfHall hall.now.locks.items worker.old.desk (λ desk. desk.each.items) }
    requires users { users ≡ length first.old.seats.each.items }
    ensures later { AreLater first.old.seats.each.items first.new.seats.each.items }
    ensures seen { HasSeenDesk first.new.seats.each.items worker.old.desk (λ desk. desk.each.items) }
    ensures post { worker.new.post ≡ worker.old.post }
    ensures end { worker.new.end ≡ worker.old.end }
{
    let Some(seats) = worker.desk.take() else {
        return;
    };
    let mut desk = SharedDesk::new(rt, hall, seats, gate);
    meet_users(first, &mut desk, users);
}

// Lets the first desk see what each worker's own has seen.
pub(crate) fn meet_all<'h, P, K, G, R>(
    rt: &'h R,
    hall: &'h Hall<K, ChainTree>,
    gate: &'h G,
    first: &mut SharedDesk<'h, K, ChainTree, G, R>,
    workers: &mut [Worker<P, Seats<K, ChainTree>>],
    users: u32,
)
where
    P: Drop,
    K: Keeper + Drop,
    G: Gate,
    requires own { locks_of first.old.seats.each.items ≡ hall.now.locks.items }
    requires hall { AllOfHall hall.now.locks.items workers.old (λ desk. desk.each.items) }
    requires users { users ≡ length first.old.seats.each.items }
    ensures later { AreLater first.old.seats.each.items first.new.seats.each.items }
    ensures seen { HasSeenAll first.new.seats.each.items workers.old (λ desk. desk.each.items) }
    ensures posts { posts_of workers.new ≡ posts_of workers.old }
    ensures served { served_in workers.new ≡ served_in workers.old }
    ensures failed { failed_in workers.new ≡ failed_in workers.old }
{
    let Some((worker, rest)) = workers.split_first_mut() else {
        return;
    };
    meet_worker(rt, hall, gate, first, worker, users);
    meet_all(rt, hall, gate, first, rest, users);
}
