//! Where rows are kept.
ghost use Rattle.std.specs.Prelude.{◌≡◌, ℕ, ◌+◌, ◌<◌, ◌≤◌, List, [], Option, Some, IfSome, OnOk, OnErr, IsErrOf, is_ok, length, slice_get, if◌then◌else◌};
ghost use Rattle.rs_face.specs.Causes.{HasCause};
ghost use Rattle.rs_face.specs.Rows.{IsRun, with_row};

use std::alloc::{AllocError, AllocFailed};

/// Why a row wasn't read or wasn't kept.
#[derive(Clone, Copy, Debug, PartialEq, Eq)]
pub enum KeepFault {
    /// The keeper failed, and counted a fault.
    Failed,
    /// There was no memory for the row. This is no fault, and isn't counted.
    NoMemory,
}

impl From<AllocError> for KeepFault {
    ghost use Rattle.rs_face.specs.declared.keeper.KeepFault.TheVariants.{NoMemory};

    ghost from_gives = { λ _ fault. fault ≡ NoMemory };

    fn from(_error: AllocError) -> KeepFault {
        KeepFault::NoMemory
    }
}

impl<T: Drop> From<AllocFailed<T>> for KeepFault {
    ghost use Rattle.rs_face.specs.declared.keeper.KeepFault.TheVariants.{NoMemory};

    ghost from_gives = { λ _ fault. fault ≡ NoMemory };

    fn from(_error: AllocFailed<T>) -> KeepFault {
        KeepFault::NoMemory
    }
}

/// Rows of bytes that stay, oldest first: a list in memory, a table of a database.
pub trait Keeper {
    /// The rows, where the keeper tells them.
    ghost rows: { Self → Option (List (List ℕ)) };

    /// How many rows there are. This is known of every keeper.
    ghost row_count: { Self → ℕ };

    /// How many reads and appends failed so far.
    ghost faults: { Self → ℕ };

    /// How many rows there are. This takes no memory and can't fail.
    fn len(&self) -> u64
        ensures { result ≡ row_count self.now };

    /// Leaves row `i`, counted from 0, in `out`, in place of what was there. After an error `out`
    /// is empty. Whatever a read answers, the rows are as before.
    fn read(&mut self, i: u64, out: &mut Vec<u8>) -> Result<(), KeepFault>
        requires { i < row_count self.old }
        ensures ok { OnOk result
            (IfSome (rows self.old) (λ rows. slice_get rows i ≡ Some out.new.items)) }
        ensures err { OnErr result (out.new.items ≡ []) }
        ensures rows { rows self.new ≡ rows self.old }
        ensures len { row_count self.new ≡ row_count self.old }
        ensures cause { HasCause (faults self.old) (faults self.new) KeepFault.Failed result }
        ensures quiet { OnOk result (faults self.new ≡ faults self.old) }
        ensures no_memory { IsErrOf result KeepFault.NoMemory → faults self.new ≡ faults self.old };

    /// Leaves row `i`, counted from 0, and as many of those behind it as the keeper reads at once, in `out`, in place of what
    /// was there. After an error `out` is empty. Whatever it answers, the rows are as before.
    ///
    /// This is how many rows are read in their order: a keeper may find several at the cost of one. How many it reads at once
    /// isn't said, but that it is at least one.
    fn read_run(&mut self, i: u64, out: &mut Vec<Vec<u8>>) -> Result<(), KeepFault>
        requires { i < row_count self.old }
        ensures some { OnOk result (0 < length out.new.items) }
        ensures within { OnOk result (i + length out.new.items ≤ row_count self.old) }
        ensures ok { OnOk result (IfSome (rows self.old) (λ rows. IsRun rows i out.new.items)) }
        ensures err { OnErr result (out.new.items ≡ []) }
        ensures rows { rows self.new ≡ rows self.old }
        ensures len { row_count self.new ≡ row_count self.old }
        ensures cause { HasCause (faults self.old) (faults self.new) KeepFault.Failed result }
        ensures quiet { OnOk result (faults self.new ≡ faults self.old) }
        ensures no_memory { IsErrOf result KeepFault.NoMemory → faults self.new ≡ faults self.old };

    /// Adds a row behind the others. After an error the rows are as before.
    fn append(&mut self, row: &[u8]) -> Result<(), KeepFault>
        ensures ok { OnOk result (rows self.new ≡ with_row (rows self.old) row.now) }
        ensures err { OnErr result (rows self.new ≡ rows self.old) }
        ensures len { row_count self.new
            ≡ (if is_ok result then row_count self.old + 1 else row_count self.old) }
        ensures cause { HasCause (faults self.old) (faults self.new) KeepFault.Failed result }
        ensures quiet { OnOk result (faults self.new ≡ faults self.old) }
        ensures no_memory { IsErrOf result KeepFault.NoMemory → faults self.new ≡ faults self.old };

    /// Where the rows are told, there are as many as the keeper says.
    ghost counted: { (keeper : Self) → IfSome (rows keeper) (λ rows. row_count keeper ≡ length rows) };
}
