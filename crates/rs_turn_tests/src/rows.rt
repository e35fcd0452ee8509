//! Rows behind the lock: what a caller has of a lock's promise that lists begin with what the value stood for.
ghost use Rattle.std.specs.Prelude.{◌≡◌, ℕ, List, ◌++◌, IfOk};

use rs_path::NoMemory;
use rs_turn::{Deed, Held, TurnLock};
use std::alloc::Global;
use std::sync::Wait;
use std::test::Fail;

/// Rows, which tell the list that they stand for, and how many there may be.
#[derive(Drop)]
struct Rows {
    rows: Vec<u64>,
    room: usize,
}

impl Held for Rows {
    ghost use Rattle.std.specs.Prelude.{◌≡◌, map};

    type What = u64;

    type Basis = usize;

    ghost stands = { λ r h. map (λ e. e.what) h ≡ r.rows.items };

    ghost basis = { λ r. r.room };

    ghost faults = { λ _. 0 };

    fn len(&self) -> u64 {
        self.rows.len() as u64
    }
}

/// Adds a row, where there is room. The answer is whether it was added.
#[derive(Drop)]
struct Add {
    row: u64,
}

impl Deed<Rows> for Add {
    ghost use Rattle.std.specs.Prelude.{◌≡◌, Some, false, ⊤};

    type Answer = bool;

    ghost adds = { λ d _ _. Some d.row };

    ghost shows = { λ _ _ _ _ _ _ _. ⊤ };

    ghost is_failed = { λ _. false };

    fn act(&mut self, value: &mut Rows, _who: u64) -> bool {
        if value.rows.len() >= value.room {
            return false;
        }
        match value.rows.push(self.row) {
            Ok(()) => true,
            Err(_) => false,
        }
    }

    fn failed(_answer: &bool) -> bool {
        false
    }
}

/// Makes a lock of the rows, adds a row in a turn, and closes it: the rows before begin those after, and the room is the same.
fn add_by_lock<R: Wait>(rt: &R, alloc: Global, rows: Rows, row: u64) -> Result<Rows, NoMemory>
    ensures room { IfOk result (λ after. after.room ≡ rows.room) }
    ensures rows { IfOk result (λ after. (more : List ℕ) × (after.rows.items ≡ rows.rows.items ++ more)) }
{
    let (lock, mut seat) = TurnLock::new(alloc, rows)?;
    lock.with_turn(rt, &mut seat, &mut Add { row });
    Ok(lock.close(rt, seat))
}

#[test]
fn rows_begin_those_after(rt: HostRuntime) -> Result<(), Fail> {
    let alloc = rt.alloc();
    let rows = Vec::from_slice(alloc, &[7, 8])?;
    let Ok(after) = add_by_lock(&rt, alloc, Rows { rows, room: 3 }, 9) else {
        panic!(rt; "memory");
    };
    assert!(rt; after.rows.as_slice() == [7, 8, 9].as_slice());
    let Ok(after) = add_by_lock(&rt, alloc, after, 10) else {
        panic!(rt; "memory");
    };
    assert!(rt; after.rows.as_slice() == [7, 8, 9].as_slice());
    Ok(())
}
