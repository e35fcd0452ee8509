//! Posts, served in threads.

ghost use Rattle.std.specs.Prelude.{◌≡◌, ◌<◌, length};
ghost use Rattle.rs_exchange.specs.Accounts.{IsConfig};
ghost use Rattle.rs_work.specs.Connections.{course_of};
ghost use Rattle.rs_serve.specs.Staffs.{AllAtHall, AllLate, AllServed, IsOfHall, LateOver, RunsAt, ServedOver};

use crate::post::Post;
use crate::worker::Worker;
use rs_chain::ChainTree;
use rs_exchange::Config;
use rs_face::{Entropy, Keeper, Listener};
use rs_hall::{Gate, Hall, Seats, SharedDesk};
use rs_work::{Watch, WorkerEnd, work};
use std::alloc::Global;
use std::sync::Wait;
use std::thread::{self, Threads};

// Serves the connections of a post over a desk. Whether the seats are the post's own is for the caller to say.
fn serve_post<N, E, K, G, R, V>(
    alloc: Global,
    front: &Config,
    post: &mut Post<N, E>,
    desk: &mut SharedDesk<'_, K, ChainTree, G, R>,
    place: u32,
    watch: &V,
) -> WorkerEnd
where
    N: Listener + Drop,
    E: Entropy + Drop,
    K: Keeper + Drop,
    G: Gate,
    R: Wait,
    V: Watch,
    requires config { IsConfig front.now }
    requires users { length desk.old.seats.each.items ≡ length front.now.accounts }
    ensures run { (has_seats : _) → RunsAt (record {
      coming = N.coming;
      back = N.back;
      given = N.given;
      ends = N.ends;
      faults = N.faults;
      words = E.words;
      failures = E.faults;
      connection = course_of N.In.left N.In.faults N.Out.written N.Out.faults N.Out.wants;
    })
        front.now has_seats post.old post.new desk.old.seats.each.items desk.new.seats.each.items result }
{
    work(
        alloc,
        front,
        &mut post.listener,
        desk,
        &mut post.entropy,
        place,
        watch,
    )
}

// Serves the connections of a worker over a desk of its own seats, where it has any.
fn serve_worker<N, E, K, G, R, V>(
    rt: &R,
    alloc: Global,
    front: &Config,
    hall: &Hall<K, ChainTree>,
    gate: &G,
    worker: &mut Worker<Post<N, E>, Seats<K, ChainTree>>,
    watch: &V,
)
where
    N: Listener + Drop,
    E: Entropy + Drop,
    K: Keeper + Drop,
    G: Gate,
    R: Wait,
    V: Watch,
    requires config { IsConfig front.now }
    requires users { length hall.now.locks.items ≡ length front.now.accounts }
    requires hall { IsOfHall hall.now.locks.items worker.old.desk (λ desk. desk.each.items) }
    ensures served { ServedOver (record {
      coming = N.coming;
      back = N.back;
      given = N.given;
      ends = N.ends;
      faults = N.faults;
      words = E.words;
      failures = E.faults;
      connection = course_of N.In.left N.In.faults N.Out.written N.Out.faults N.Out.wants;
    })
        front.now worker.old.desk worker.old worker.new (λ desk. desk.each.items) }
{
    let Some(seats) = worker.desk.take() else {
        return;
    };
    let mut desk = SharedDesk::new(rt, hall, seats, gate);
    worker.end = serve_post(
        alloc,
        front,
        &mut worker.post,
        &mut desk,
        worker.place,
        watch,
    );
    worker.desk = Some(desk.into_seats());
}

// Serves each worker over a desk of its own, all at the same time, each in a thread of its own where one can be made.
pub(crate) fn serve_in_threads<N, E, K, G, R, V>(
    rt: &R,
    alloc: Global,
    front: &Config,
    hall: &Hall<K, ChainTree>,
    gate: &G,
    workers: &mut [Worker<Post<N, E>, Seats<K, ChainTree>>],
    watch: &V,
)
where
    N: Listener + Send + Drop,
    E: Entropy + Send + Drop,
    K: Keeper + Send + Drop,
    G: Gate + Sync,
    R: Threads + Wait + Sync,
    V: Watch + Sync,
    requires config { IsConfig front.now }
    requires some { 0 < length workers.old }
    requires users { length hall.now.locks.items ≡ length front.now.accounts }
    requires hall { AllAtHall hall.now.locks.items workers.old (λ desk. desk.each.items) }
    ensures served { AllServed (record {
      coming = N.coming;
      back = N.back;
      given = N.given;
      ends = N.ends;
      faults = N.faults;
      words = E.words;
      failures = E.faults;
      connection = course_of N.In.left N.In.faults N.Out.written N.Out.faults N.Out.wants;
    })
        front.now workers.old workers.new (λ desk. desk.each.items) }
{
    let threads = workers.len();
    thread::for_each_mut(
        rt,
        workers,
        threads,
        &|_: usize, worker: &mut Worker<Post<N, E>, Seats<K, ChainTree>>|
            requires { IsConfig front.now × (length hall.now.locks.items ≡ length front.now.accounts)
                × IsOfHall hall.now.locks.items worker.old.desk (λ desk. desk.each.items) }
            ensures { ServedOver (record {
              coming = N.coming;
              back = N.back;
              given = N.given;
              ends = N.ends;
              faults = N.faults;
              words = E.words;
              failures = E.faults;
              connection = course_of N.In.left N.In.faults N.Out.written N.Out.faults N.Out.wants;
            })
                front.entry.now worker.old.desk worker.old worker.new (λ desk. desk.each.items) }
        { serve_worker(rt, alloc, front, hall, gate, worker, watch) },
    );
}

// Serves each worker that has no desk of its own over this one, one after another.
pub(crate) fn serve_late<N, E, K, G, R, V>(
    alloc: Global,
    front: &Config,
    desk: &mut SharedDesk<'_, K, ChainTree, G, R>,
    workers: &mut [Worker<Post<N, E>, Seats<K, ChainTree>>],
    watch: &V,
)
where
    N: Listener + Drop,
    E: Entropy + Drop,
    K: Keeper + Drop,
    G: Gate,
    R: Wait,
    V: Watch,
    requires config { IsConfig front.now }
    requires users { length desk.old.seats.each.items ≡ length front.now.accounts }
    ensures late { AllLate (record {
      coming = N.coming;
      back = N.back;
      given = N.given;
      ends = N.ends;
      faults = N.faults;
      words = E.words;
      failures = E.faults;
      connection = course_of N.In.left N.In.faults N.Out.written N.Out.faults N.Out.wants;
    })
        front.now workers.old workers.new desk.old.seats.each.items desk.new.seats.each.items }
    ensures users { length desk.new.seats.each.items ≡ length front.now.accounts }
{
    let Some((worker, rest)) = workers.split_first_mut() else {
        return;
    };
    serve_if_late(alloc, front, desk, worker, watch);
    serve_late(alloc, front, desk, rest, watch);
}

// Serves the worker over this desk, where it has none of its own.
fn serve_if_late<N, E, K, G, R, V>(
    alloc: Global,
    front: &Config,
    desk: &mut SharedDesk<'_, K, ChainTree, G, R>,
    worker: &mut Worker<Post<N, E>, Seats<K, ChainTree>>,
    watch: &V,
)
where
    N: Listener + Drop,
    E: Entropy + Drop,
    K: Keeper + Drop,
    G: Gate,
    R: Wait,
    V: Watch,
    requires config { IsConfig front.now }
    requires users { length desk.old.seats.each.items ≡ length front.now.accounts }
    ensures late { LateOver (record {
      coming = N.coming;
      back = N.back;
      given = N.given;
      ends = N.ends;
      faults = N.faults;
      words = E.words;
      failures = E.faults;
      connection = course_of N.In.left N.In.faults N.Out.written N.Out.faults N.Out.wants;
    })
        front.now worker.old.desk worker.old worker.new desk.old.seats.each.items desk.new.seats.each.items }
    ensures users { length desk.new.seats.each.items ≡ length front.now.accounts }
{
    if worker.desk.is_some() {
        return;
    }
    worker.end = serve_post(alloc, front, &mut worker.post, desk, worker.place, watch);
}
