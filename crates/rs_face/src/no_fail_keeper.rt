//! A keeper in memory that never fails.
ghost use Rattle.std.specs.Prelude.{◌≡◌, ◌+◌, ◌<◌, ◌≤◌, [], ◌∷◌, ◌++◌, Some, OnOk, OnErr, IfErr, is_ok, length, map, slice_get, if◌then◌else◌};
ghost use Rattle.rs_face.specs.Rows.{IsRun, with_row};

use crate::{Bytes, KeepFault, Keeper};
use std::marker::Model;

/// A keeper that holds its rows in memory and never fails, but where it can't grow. Contracts see
/// it as its rows, oldest first.
#[derive(Debug, Drop)]
pub struct NoFailKeeper {
    rows: Vec<Bytes>,
}

impl Model for NoFailKeeper {
    ghost use Rattle.std.specs.Prelude.{List, ℕ};

    ghost Value = { List (List ℕ) };

    ghost view = { λ s. s.rows.items };
}

impl NoFailKeeper {
    /// A keeper that holds these rows at first.
    pub fn new(rows: Vec<Bytes>) -> NoFailKeeper
        ensures { result ≡ rows.items }
    {
        NoFailKeeper { rows }
    }

    /// The rows, oldest first.
    pub fn rows(&self) -> &[Bytes]
        ensures { result.now ≡ self.now }
    {
        self.rows.as_slice()
    }
}

impl Keeper for NoFailKeeper {
    ghost use Rattle.std.specs.Prelude.{Some, length, refl};

    ghost rows = { λ s. Some s };

    ghost row_count = { length };

    ghost faults = { λ _. 0 };

    ghost counted = { λ _. refl };

    fn len(&self) -> u64 {
        self.rows.len() as u64
    }

    fn read(&mut self, i: u64, out: &mut Vec<u8>) -> Result<(), KeepFault>
        requires { i < length self.old }
        ensures ok { OnOk result (slice_get self.old i ≡ Some out.new.items) }
        ensures err { OnErr result (out.new.items ≡ []) }
        ensures rows { self.new ≡ self.old }
        ensures no_other { IfErr result (λ fault. fault ≡ KeepFault.NoMemory) }
    {
        out.clear();
        out.extend_from_slice(self.rows[i as usize].as_slice())?;
        Ok(())
    }

    // It reads one row at once.
    fn read_run(&mut self, i: u64, out: &mut Vec<Vec<u8>>) -> Result<(), KeepFault>
        requires { i < length self.old }
        ensures some { OnOk result (0 < length out.new.items) }
        ensures within { OnOk result (i + length out.new.items ≤ length self.old) }
        ensures ok { OnOk result (IsRun self.old i out.new.items) }
        ensures err { OnErr result (out.new.items ≡ []) }
        ensures rows { self.new ≡ self.old }
        ensures no_other { IfErr result (λ fault. fault ≡ KeepFault.NoMemory) }
    {
        out.clear();
        let alloc = *self.rows.allocator();
        out.push(Vec::from_slice(alloc, self.rows[i as usize].as_slice())?)?;
        Ok(())
    }

    fn append(&mut self, row: &[u8]) -> Result<(), KeepFault>
        ensures rows { self.new ≡ (if is_ok result then self.old ++ row.now ∷ [] else self.old) }
        ensures no_other { IfErr result (λ fault. fault ≡ KeepFault.NoMemory) }
    {
        let alloc = *self.rows.allocator();
        let copy = Vec::from_slice(alloc, row)?;
        self.rows.push(Bytes::of(copy))?;
        Ok(())
    }
}
