//! Posts and seats, made workers.

ghost use Rattle.std.specs.Prelude.{◌≡◌, ◌≤◌, length, IfOk, OnOk, []};
ghost use Rattle.rs_hall.specs.Abreast.{EachPair};
ghost use Rattle.rs_hall.specs.Halls.{locks_of};
ghost use Rattle.rs_hall.specs.Splits.{KnowsMore};
ghost use Rattle.rs_serve.specs.Staffs.{IsSplitDesk, Staffed};

use crate::worker::Worker;
use rs_chain::ChainTree;
use rs_face::Keeper;
use rs_hall::{Hall, Seats, SplitFault};
use rs_path::NoMemory;
use rs_work::WorkerEnd;
use std::alloc::Global;

// Makes workers of these posts, from the last to the first: each with seats that are split off the first ones, or
// without any where no seat is left.
pub(crate) fn staff<P: Drop, K: Keeper + Drop>(
    alloc: Global,
    hall: &Hall<K, ChainTree>,
    first: &mut Seats<K, ChainTree>,
    posts: &mut Vec<P>,
) -> Result<Vec<Worker<P, Seats<K, ChainTree>>>, NoMemory>
    requires hall { locks_of first.old.each.items ≡ hall.now.locks.items }
    requires few { length posts.old.items ≤ 64 }
    ensures staffed { IfOk result (λ workers. Staffed first.old.each.items first.new.each.items posts.old.items [] workers.items (λ desk. desk.each.items)) }
    ensures taken { OnOk result (posts.new.items ≡ []) }
{
    let mut workers = Vec::with_capacity(alloc, posts.len())?;
    let mut place = 0;
    while let Some(post) = posts.pop() {
        place += 1;
        let desk = split_seats(hall, first)?;
        workers.push(Worker {
            place,
            post,
            desk,
            end: IDLE,
        })?;
    }
    Ok(workers)
}

// Seats that are split off the first ones, or None where no seat is left.
fn split_seats<K: Keeper + Drop>(
    hall: &Hall<K, ChainTree>,
    first: &mut Seats<K, ChainTree>,
) -> Result<Option<Seats<K, ChainTree>>, NoMemory>
    requires hall { locks_of first.old.each.items ≡ hall.now.locks.items }
    ensures known { EachPair KnowsMore first.old.each.items first.new.each.items }
    ensures own { locks_of first.new.each.items ≡ hall.now.locks.items }
    ensures split { IfOk result (λ desk. IsSplitDesk first.old.each.items first.new.each.items hall.now.locks.items desk (λ d. d.each.items)) }
{
    match first.split(hall) {
        Ok(seats) => Ok(Some(seats)),
        Err(SplitFault::Full { .. }) => Ok(None),
        Err(SplitFault::NoMemory) => Err(NoMemory),
    }
}

// What was done before any connection was taken.
pub(crate) const IDLE: WorkerEnd = WorkerEnd {
    served: 0,
    failed: false,
};
