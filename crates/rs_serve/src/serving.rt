//! Serving.

ghost use Rattle.std.specs.Prelude.{◌≡◌, ◌<◌, ◌≤◌, length, IfOk, IfErr};
ghost use Rattle.rs_exchange.specs.Accounts.{IsConfig};
ghost use Rattle.rs_work.specs.Connections.{course_of};
ghost use Rattle.rs_hall.specs.Halls.{locks_of};
ghost use Rattle.rs_serve.specs.Staffs.{ServesHall};
ghost use Rattle.rs_serve.specs.Servings.{ServesUsers, ServesNobody};

use crate::meeting::meet_all;
use crate::post::Post;
use crate::returning::put_back;
use crate::staffing::{IDLE, staff};
use crate::tally::Tally;
use crate::threads::{serve_in_threads, serve_late};
use crate::worker::Worker;
use rs_chain::ChainTree;
use rs_exchange::Config;
use rs_face::{Entropy, Keeper, Listener};
use rs_hall::{Gate, Hall, HallFault, Seats, SharedDesk};
use rs_path::NoMemory;
use rs_work::Watch;
use std::alloc::Global;
use std::sync::Wait;
use std::thread::Threads;

/// Serves the connections of all posts to the users of the accounts, in as many threads as there are posts, and gives posts and
/// keepers back in their order.
///
/// The rows of each user are opened under that user's quota, and locked. Each post is served as `work` says, over a desk of its
/// own; the watch is told its place among the posts as the worker's number. A post for which no seat is left is served after the
/// others, over the desk of the first. When all are served, the rows of each keeper are those of the one history of its user, of
/// which each desk saw fronts.
///
/// The answer is `User` for the first user whose rows aren't opened, and why; all posts and keepers stand as before then. Where
/// memory runs out, posts and keepers may be gone. There are as many keepers and quotas as accounts, in their order, at most
/// 1,000, and at least one post and at most 64.
///
/// It isn't said that a connection or a turn ever comes.
pub fn serve_users<R, N, E, K, G, V>(
    rt: &R,
    alloc: Global,
    front: &Config,
    quotas: &[u64],
    posts: &mut Vec<Post<N, E>>,
    keepers: &mut Vec<K>,
    gate: &G,
    watch: &V,
) -> Result<Tally, HallFault>
where
    R: Threads + Wait + Sync,
    N: Listener + Send + Drop,
    E: Entropy + Send + Drop,
    K: Keeper + Send + Drop,
    G: Gate + Sync,
    V: Watch + Sync,
    requires config { IsConfig front.now }
    requires users { length quotas.now ≡ length front.now.accounts }
    requires keepers { length quotas.now ≡ length keepers.old.items }
    requires few_users { length quotas.now ≤ 1000 }
    requires some_post { 0 < length posts.old.items }
    requires few_posts { length posts.old.items ≤ 64 }
    ensures serves { IfOk result (λ tally. ServesUsers (record {
      coming = N.coming;
      back = N.back;
      given = N.given;
      ends = N.ends;
      faults = N.faults;
      words = E.words;
      failures = E.faults;
      connection = course_of N.In.left N.In.faults N.Out.written N.Out.faults N.Out.wants;
    })
        K.rows front.now quotas.now posts.old.items posts.new.items keepers.old.items keepers.new.items tally) }
    ensures refused { IfErr result (λ fault. ServesNobody K.rows K.row_count K.faults fault posts.old.items posts.new.items keepers.old.items keepers.new.items) }
{
    let (hall, seats) = Hall::open(alloc, keepers, quotas)?;
    let (seats, tally) = serve_hall(
        rt,
        alloc,
        front,
        &hall,
        seats,
        quotas.len() as u32,
        posts,
        gate,
        watch,
    )?;
    *keepers = hall.close(rt, seats)?;
    Ok(tally)
}

// Serves all posts over the hall, and gives out the first seats, which have seen all that others have, and the tally.
fn serve_hall<'h, R, N, E, K, G, V>(
    rt: &'h R,
    alloc: Global,
    front: &Config,
    hall: &'h Hall<K, ChainTree>,
    mut seats: Seats<K, ChainTree>,
    users: u32,
    posts: &mut Vec<Post<N, E>>,
    gate: &'h G,
    watch: &V,
) -> Result<(Seats<K, ChainTree>, Tally), NoMemory>
where
    R: Threads + Wait + Sync,
    N: Listener + Send + Drop,
    E: Entropy + Send + Drop,
    K: Keeper + Send + Drop,
    G: Gate + Sync,
    V: Watch + Sync,
    requires config { IsConfig front.now }
    requires hall { locks_of seats.each.items ≡ hall.now.locks.items }
    requires users { users ≡ length seats.each.items }
    requires accounts { users ≡ length front.now.accounts }
    requires some_post { 0 < length posts.old.items }
    requires few_posts { length posts.old.items ≤ 64 }
    ensures serves { IfOk result (λ r. ServesHall (record {
      coming = N.coming;
      back = N.back;
      given = N.given;
      ends = N.ends;
      faults = N.faults;
      words = E.words;
      failures = E.faults;
      connection = course_of N.In.left N.In.faults N.Out.written N.Out.faults N.Out.wants;
    })
        front.now seats.each.items r.0.each.items posts.old.items posts.new.items r.1) }
{
    posts.reverse();
    let Some(post) = posts.pop() else {
        unreachable!();
    };
    let mut workers = staff(alloc, hall, &mut seats, posts)?;
    workers.push(Worker {
        place: 0,
        post,
        desk: Some(seats),
        end: IDLE,
    })?;
    serve_in_threads(rt, alloc, front, hall, gate, workers.as_mut_slice(), watch);
    let Some(
        Worker {
            post,
            desk,
            end,
            ..
        },
    ) = workers.pop()
    else {
        unreachable!();
    };
    let Some(seats) = desk else {
        unreachable!();
    };
    let mut desk = SharedDesk::new(rt, hall, seats, gate);
    serve_late(alloc, front, &mut desk, workers.as_mut_slice(), watch);
    meet_all(rt, hall, gate, &mut desk, workers.as_mut_slice(), users);
    let tally = put_back(posts, workers, end)?;
    posts.push(post)?;
    posts.reverse();
    Ok((desk.into_seats(), tally))
}
