//! A keeper in memory that fails by a list of calls.
ghost use Rattle.std.specs.Prelude.{◌≡◌, ◌<◌, ◌≤◌, ◌+◌, ◌↔◌, [], ◌∷◌, ◌++◌, Some, OnOk, OnErr, IsErrOf, IsTrue, is_ok, length, slice_get, if◌then◌else◌};
ghost use Rattle.rs_face.specs.Calls.{no_calls, fails_next, after_call};
ghost use Rattle.rs_face.specs.Causes.{HasCause};
ghost use Rattle.rs_face.specs.Rows.{IsRun};

use crate::calls::Calls;
use crate::{Bytes, KeepFault, Keeper, NoFailKeeper};
use std::marker::Model;

/// A keeper that holds its rows in memory and fails where it is told to. Contracts see it as a
/// `KeeperState`: its rows, oldest first, and its calls.
#[derive(Debug, Drop)]
pub struct MemKeeper {
    keeper: NoFailKeeper,
    calls: Calls,
}

impl Model for MemKeeper {
    ghost use Rattle.rs_face.specs.Rows.{KeeperState};

    ghost Value = { KeeperState };

    ghost view = { λ s. record { rows = s.keeper; calls = s.calls } };
}

impl MemKeeper {
    /// A keeper that holds these rows at first. `failing` has the numbers of the reads and appends
    /// that fail, counted from 1.
    pub fn new(rows: Vec<Bytes>, failing: Vec<u64>) -> MemKeeper
        ensures { result ≡ record { rows = rows.items; calls = no_calls failing.items } }
    {
        MemKeeper {
            keeper: NoFailKeeper::new(rows),
            calls: Calls::new(failing),
        }
    }

    /// The rows, oldest first.
    pub fn rows(&self) -> &[Bytes]
        ensures { result.now ≡ self.now.rows }
    {
        self.keeper.rows()
    }
}

impl Keeper for MemKeeper {
    ghost use Rattle.std.specs.Prelude.{Some, length, refl};

    ghost rows = { λ s. Some s.rows };

    ghost row_count = { λ s. length s.rows };

    ghost faults = { λ s. s.calls.faults };

    ghost counted = { λ _. refl };

    fn len(&self) -> u64 {
        self.keeper.len()
    }

    fn read(&mut self, i: u64, out: &mut Vec<u8>) -> Result<(), KeepFault>
        requires { i < length self.old.rows }
        ensures ok { OnOk result (slice_get self.old.rows i ≡ Some out.new.items) }
        ensures err { OnErr result (out.new.items ≡ []) }
        ensures rows { self.new.rows ≡ self.old.rows }
        ensures cause { HasCause self.old.calls.faults self.new.calls.faults
            KeepFault.Failed result }
        // A call fails exactly where its number is in the list.
        ensures fails { IsErrOf result KeepFault.Failed ↔ IsTrue (fails_next self.old.calls) }
        ensures calls { self.new.calls ≡ after_call self.old.calls }
    {
        if self.calls.fails() {
            out.clear();
            return Err(KeepFault::Failed);
        }
        self.keeper.read(i, out)
    }

    // It reads one row at once, so that each call reads a row and may be told to fail.
    fn read_run(&mut self, i: u64, out: &mut Vec<Vec<u8>>) -> Result<(), KeepFault>
        requires { i < length self.old.rows }
        ensures some { OnOk result (0 < length out.new.items) }
        ensures within { OnOk result (i + length out.new.items ≤ length self.old.rows) }
        ensures ok { OnOk result (IsRun self.old.rows i out.new.items) }
        ensures err { OnErr result (out.new.items ≡ []) }
        ensures rows { self.new.rows ≡ self.old.rows }
        ensures cause { HasCause self.old.calls.faults self.new.calls.faults
            KeepFault.Failed result }
        ensures fails { IsErrOf result KeepFault.Failed ↔ IsTrue (fails_next self.old.calls) }
        ensures calls { self.new.calls ≡ after_call self.old.calls }
    {
        if self.calls.fails() {
            out.clear();
            return Err(KeepFault::Failed);
        }
        self.keeper.read_run(i, out)
    }

    fn append(&mut self, row: &[u8]) -> Result<(), KeepFault>
        ensures rows { self.new.rows
            ≡ (if is_ok result then self.old.rows ++ row.now ∷ [] else self.old.rows) }
        ensures cause { HasCause self.old.calls.faults self.new.calls.faults
            KeepFault.Failed result }
        ensures fails { IsErrOf result KeepFault.Failed ↔ IsTrue (fails_next self.old.calls) }
        ensures calls { self.new.calls ≡ after_call self.old.calls }
    {
        if self.calls.fails() {
            return Err(KeepFault::Failed);
        }
        self.keeper.append(row)
    }
}
