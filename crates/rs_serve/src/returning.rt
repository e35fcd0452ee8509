//! Posts, put back.

ghost use Rattle.std.specs.Prelude.{◌≡◌, ◌++◌, ◌+◌, ◌-◌, ◌^◌, ◌||◌, min, reverse, IfOk, OnOk};
ghost use Rattle.rs_serve.specs.Staffs.{failed_in, posts_of, served_in};

use crate::tally::Tally;
use crate::worker::Worker;
use rs_path::NoMemory;
use rs_work::WorkerEnd;

// Puts the post of each worker behind those that stand there, from the last to the first, and tells what
// they and the first did together.
pub(crate) fn put_back<P: Drop, D: Drop>(
    posts: &mut Vec<P>,
    mut workers: Vec<Worker<P, D>>,
    first: WorkerEnd,
) -> Result<Tally, NoMemory>
    ensures posts { OnOk result (posts.new.items ≡ posts.old.items ++ reverse (posts_of workers.items)) }
    ensures served { IfOk result (λ tally. tally.served ≡ min (first.served + served_in workers.items) (2 ^ 64 - 1)) }
    ensures failed { IfOk result (λ tally. tally.failed ≡ (first.failed || failed_in workers.items)) }
{
    let none = Tally {
        served: 0,
        failed: false,
    };
    let mut tally = none.with(first);
    while let Some(worker) = workers.pop() {
        tally = tally.with(worker.end);
        posts.push(worker.post)?;
    }
    Ok(tally)
}
