//! A worker.
ghost use Rattle.std.specs.Prelude.{◌≡◌, ℕ, ◌+◌, ◌<◌, map, length, IfSome};
ghost use Rattle.rs_face.specs.Courses.{course};
ghost use Rattle.rs_rules.specs.Desks.{ForHistories};
ghost use Rattle.rs_exchange.specs.Accounts.{IsAccount, IsConfig};
ghost use Rattle.rs_front.specs.Due.{users_of_desk};
ghost use Rattle.rs_work.specs.Connections.{is_starved, course_of, ServesConnection, ServesAll, ServesOne, Works, EndsBy};

use crate::watch::Watch;
use rs_face::{Entropy, ListenFault, Listener};
use rs_front::{Config, End, serve_stream};
use rs_rules::Desk;
use std::alloc::Global;

/// What a worker did until it took no more connections.
#[derive(Clone, Copy, Debug, PartialEq, Eq)]
pub struct WorkerEnd {
    /// How many connections it took, served and gave back.
    pub served: u64,
    /// The listener failed; otherwise it said that no connection will come.
    pub failed: bool,
}

/// Serves the connections of a listener over a desk, one after another, until none will come or the listener fails.
///
/// Each connection is served whole, by one call of `serve_stream`, and then given back. It is marked as starved where its end
/// was `NoMemory`, and nowhere else. The watch is told its end, under the worker's number and the connection's own, which is
/// counted from 1.
///
/// `failed` says that the listener's count of faults rose. Otherwise it said that no connection will come.
///
/// The server's address is UTF-8, and its users' names are names of users. The desk serves the user of each account, whose number
/// is its place in the list. It goes on to do so, so that the next call can be made over it. All connections draw on the one
/// entropy, in order.
///
/// No memory is taken but by serving. A listener that waits, and objects and a desk that do, may wait for ever. Otherwise the
/// call returns.
pub fn work<N: Listener, D: Desk, E: Entropy, V: Watch>(
    alloc: Global,
    config: &Config,
    listener: &mut N,
    desk: &mut D,
    entropy: &mut E,
    worker: u32,
    watch: &V,
) -> WorkerEnd
    requires served { (user : ℕ) → IsAccount config.now.accounts user → D.serves desk.old user }
    requires config { IsConfig config.now }
    ensures connections { Works (N.coming listener.old) (N.coming listener.new) (N.back listener.old) (N.back listener.new)
        result.served (λ all. ForHistories (IsAccount config.now.accounts) (D.stands desk.old) (D.stands desk.new) (λ old now.
        ServesAll (users_of_desk D.quota D.me D.alone desk.old) config.now
        (map (course_of N.In.left N.In.faults N.Out.written N.Out.faults N.Out.wants) all)
        (course E.words E.faults entropy.old entropy.new)
        old now (D.faults desk.old) (D.faults desk.new))) }
    ensures given { N.given listener.new ≡ N.given listener.old + result.served }
    ensures ended { EndsBy result.failed (N.faults listener.old) (N.faults listener.new)
        (N.ends listener.old) (N.ends listener.new) (N.coming listener.new) }
    ensures is_later { D.is_later desk.old desk.new }
{
    let mut served = 0;
    'serving: loop {
        let (source, sink) = match listener.accept() {
            Ok(Some(connection)) => connection,
            Ok(None) => {
                return WorkerEnd {
                    served,
                    failed: false,
                };
            }
            Err(ListenFault::Failed) => {
                return WorkerEnd {
                    served,
                    failed: true,
                };
            }
        };
        served += 1;
        let end = serve_one(alloc, config, listener, source, sink, desk, entropy);
        watch.ended(worker, served, &end);
    }
}

// Serves a connection that the listener gave, and gives it back.
fn serve_one<N: Listener, D: Desk, E: Entropy>(
    alloc: Global,
    config: &Config,
    listener: &mut N,
    mut source: N::In,
    mut sink: N::Out,
    desk: &mut D,
    entropy: &mut E,
) -> End
    requires served { (user : ℕ) → IsAccount config.now.accounts user → D.serves desk.old user }
    requires config { IsConfig config.now }
    requires out { IfSome (N.back listener.old) (λ back. length back < N.given listener.old) }
    ensures connection { ServesOne source sink (N.back listener.old) (N.back listener.new) result
        (λ one. ForHistories (IsAccount config.now.accounts) (D.stands desk.old) (D.stands desk.new) (λ old now.
        ServesConnection (users_of_desk D.quota D.me D.alone desk.old) config.now
        (course_of N.In.left N.In.faults N.Out.written N.Out.faults N.Out.wants one)
        (course E.words E.faults entropy.old entropy.new)
        old now (D.faults desk.old) (D.faults desk.new))) }
    ensures coming { N.coming listener.new ≡ N.coming listener.old }
    ensures given { N.given listener.new ≡ N.given listener.old }
    ensures ends { N.ends listener.new ≡ N.ends listener.old }
    ensures faults { N.faults listener.new ≡ N.faults listener.old }
    ensures is_later { D.is_later desk.old desk.new }
{
    let end = serve_stream(alloc, config, &mut source, &mut sink, desk, entropy);
    listener.end(source, sink, is_starved(end));
    end
}

// Whether serving ended for want of memory.
fn is_starved(end: End) -> bool
    ensures starved { result ≡ is_starved end }
{
    matches!(end, End::NoMemory)
}
