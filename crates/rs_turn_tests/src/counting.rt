//! A counter behind the lock.
ghost use Rattle.std.specs.Prelude.{◌≡◌, ◌<◌, ℕ, [], IfOk};

use rs_path::NoMemory;
use rs_turn::{Deed, Held, Seat, TurnLock};
use std::alloc::Global;
use std::hint;
use std::sync::Wait;
use std::test::Fail;
use std::thread::{Threads, join};

/// A count, which stands for any list of that length.
#[derive(Drop)]
struct Counter {
    count: u64,
    limit: u64,
    faults: u64,
}

impl Held for Counter {
    ghost use Rattle.std.specs.Prelude.{◌≡◌, length};

    type What = ();

    type Basis = u64;

    ghost stands = { λ c h. c.count ≡ length h };

    ghost basis = { λ c. c.limit };

    ghost faults = { λ c. c.faults };

    fn len(&self) -> u64 {
        self.count
    }
}

/// Pauses so often.
fn dwell(pauses: u32) {
    for _ in 0..pauses {
        hint::spin_loop();
    }
}

/// Counts one more, after so many pauses, or fails where the limit is reached. The answer is the
/// count, or None.
#[derive(Drop)]
struct Count {
    pauses: u32,
}

impl Deed<Counter> for Count {
    ghost use Rattle.std.specs.Prelude.{◌≡◌, ◌<◌, ◌≤◌, length, Some, None, is_none, MatchOption};

    type Answer = Option<u64>;

    ghost adds = { λ _ _ _. Some tt };

    ghost shows = { λ _ limit h _ h' a _. MatchOption a (limit ≤ length h) (λ n. n ≡ length h') };

    ghost is_failed = { is_none };

    fn act(&mut self, value: &mut Counter, _who: u64) -> Option<u64> {
        dwell(self.pauses);
        if value.count >= value.limit {
            value.faults = value.faults.saturating_add(1);
            return None;
        }
        value.count += 1;
        Some(value.count)
    }

    fn failed(answer: &Option<u64>) -> bool {
        answer.is_none()
    }
}

/// A lock round a counter that goes to the limit, and its first seat.
fn locked_counter(alloc: Global, limit: u64) -> Result<(TurnLock<Counter>, Seat<Counter>), NoMemory>
    ensures { IfOk result (λ r. r.1.lock ≡ r.0) }
{
    let counter = Counter {
        count: 0,
        limit,
        faults: 0,
    };
    TurnLock::new(alloc, counter)
}

/// Counts so often, and says whether the seat's front rose each time, and never fell.
fn count_often<R: Wait>(
    rt: &R,
    lock: &TurnLock<Counter>,
    mut seat: Seat<Counter>,
    times: u32,
    pauses: u32,
) -> (Seat<Counter>, bool)
    requires { seat.lock ≡ lock.now }
    ensures { result.0.lock ≡ seat.lock }
{
    let mut rose = true;
    for _ in 0..times {
        let before = seat.front();
        lock.with_turn(rt, &mut seat, &mut Count { pauses });
        rose = rose && before < seat.front();
    }
    (seat, rose)
}

/// Two threads count so often each, each through its own seat, with so many pauses in each turn.
fn count_in_two<R: Threads + Wait + Sync>(
    rt: &R,
    lock: &TurnLock<Counter>,
    one: Seat<Counter>,
    other: Seat<Counter>,
    times: u32,
    pauses: u32,
) -> ((Seat<Counter>, bool), (Seat<Counter>, bool))
    requires { (one.lock ≡ lock.now) × (other.lock ≡ lock.now) }
    ensures { (result.0.0.lock ≡ lock.now) × (result.1.0.lock ≡ lock.now) }
{
    join(
        rt,
        move ||
            requires { one.lock ≡ lock.now }
            ensures { result.0.lock ≡ lock.entry.now }
        { count_often(rt, lock, one, times, pauses) },
        move ||
            requires { other.lock ≡ lock.now }
            ensures { result.0.lock ≡ lock.entry.now }
        { count_often(rt, lock, other, times, pauses) },
    )
}

#[test]
fn two_threads_count_to_2000(rt: HostRuntime) -> Result<(), Fail> {
    let Ok((lock, mut one)) = locked_counter(rt.alloc(), 5_000) else {
        panic!(rt; "memory");
    };
    let Ok(other) = lock.seat(&mut one) else {
        panic!(rt; "a seat");
    };
    let ((mut one, one_rose), (mut other, other_rose)) = count_in_two(
        &rt, &lock, one, other, 1_000, 0,
    );
    assert!(rt; one_rose && other_rose);
    let met = lock.meet(&mut one, &mut other);
    assert!(rt; (met, one.front(), other.front()) == (2_000, 2_000, 2_000));
    assert_eq!(rt; lock.close(&rt, other).count, 2_000);
    Ok(())
}

// Each turn is so long that the other seat, which waits for it, sleeps: it has to be woken.
#[test]
fn seats_that_sleep_are_woken(rt: HostRuntime) -> Result<(), Fail> {
    let Ok((lock, mut one)) = locked_counter(rt.alloc(), 5_000) else {
        panic!(rt; "memory");
    };
    let Ok(other) = lock.seat(&mut one) else {
        panic!(rt; "a seat");
    };
    let ((one, _), _) = count_in_two(&rt, &lock, one, other, 20, 20_000);
    assert_eq!(rt; lock.close(&rt, one).count, 40);
    Ok(())
}

#[test]
fn seats_are_numbered_and_meet(rt: HostRuntime) -> Result<(), Fail> {
    let Ok((lock, mut one)) = locked_counter(rt.alloc(), 3) else {
        panic!(rt; "memory");
    };
    let Ok(mut other) = lock.seat(&mut one) else {
        panic!(rt; "a seat");
    };
    assert!(rt; (one.who(), other.who(), one.front(), other.front()) == (1, 2, 0, 0));
    assert_eq!(rt;
        lock.with_turn(&rt, &mut one, &mut Count { pauses: 0 }),
        Some(1)
    );
    assert_eq!(rt;
        lock.with_turn(&rt, &mut other, &mut Count { pauses: 0 }),
        Some(2)
    );
    assert!(rt; (one.front(), other.front()) == (1, 2));
    assert_eq!(rt; lock.meet(&mut one, &mut other), 2);
    assert!(rt; (one.front(), other.front()) == (2, 2));
    Ok(())
}

#[test]
fn a_failed_deed_raises_faults_by_one(rt: HostRuntime) -> Result<(), Fail> {
    let Ok((lock, mut seat)) = locked_counter(rt.alloc(), 1) else {
        panic!(rt; "memory");
    };
    for (answer, faults, front) in [(Some(1), 0, 1), (None, 1, 1), (None, 2, 1)] {
        assert_eq!(rt;
            lock.with_turn(&rt, &mut seat, &mut Count { pauses: 0 }),
            answer
        );
        assert!(rt; (seat.faults(), seat.front()) == (faults, front));
    }
    Ok(())
}
