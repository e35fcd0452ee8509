//! Why a row spells nothing.

ghost use Rattle.std.specs.Prelude.{◌≡◌};

use rs_path::NoMemory;
use std::alloc::{AllocError, AllocFailed};

/// The answer to a row that isn't read.
#[derive(Debug, Clone, Copy, PartialEq, Eq)]
pub enum RowFault {
    /// The row spells nothing: the index of the first byte of the first field with a wrong value; the row's length
    /// where a field is cut short; the index of the first surplus byte.
    Bad { place: u32 },
    /// Memory ran out.
    NoMemory,
}

impl From<NoMemory> for RowFault {
    ghost use Rattle.rs_row.specs.declared.row_fault.RowFault.TheVariants.{NoMemory};

    ghost from_gives = { λ _ fault. fault ≡ NoMemory };

    fn from(_e: NoMemory) -> RowFault {
        RowFault::NoMemory
    }
}

impl From<AllocError> for RowFault {
    ghost use Rattle.rs_row.specs.declared.row_fault.RowFault.TheVariants.{NoMemory};

    ghost from_gives = { λ _ fault. fault ≡ NoMemory };

    fn from(_e: AllocError) -> RowFault {
        RowFault::NoMemory
    }
}

impl<T: Drop> From<AllocFailed<T>> for RowFault {
    ghost use Rattle.rs_row.specs.declared.row_fault.RowFault.TheVariants.{NoMemory};

    ghost from_gives = { λ _ fault. fault ≡ NoMemory };

    fn from(_e: AllocFailed<T>) -> RowFault {
        RowFault::NoMemory
    }
}
