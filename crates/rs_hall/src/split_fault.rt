//! Why no seats were split off.

ghost use Rattle.std.specs.Prelude.{◌≡◌};

use std::alloc::{AllocError, AllocFailed};

/// The answer where a hall's seats aren't split.
#[derive(Debug, Clone, Copy, PartialEq, Eq)]
pub enum SplitFault {
    /// At the lock of a user no seat is left: so many are numbered, at least 4,294,967,295.
    Full { made: u64 },
    /// Memory ran out.
    NoMemory,
}

impl From<AllocError> for SplitFault {
    ghost use Rattle.rs_hall.specs.declared.split_fault.SplitFault.TheVariants.{NoMemory};

    ghost from_gives = { λ _ fault. fault ≡ NoMemory };

    fn from(_e: AllocError) -> SplitFault {
        SplitFault::NoMemory
    }
}

impl<T: Drop> From<AllocFailed<T>> for SplitFault {
    ghost use Rattle.rs_hall.specs.declared.split_fault.SplitFault.TheVariants.{NoMemory};

    ghost from_gives = { λ _ fault. fault ≡ NoMemory };

    fn from(_e: AllocFailed<T>) -> SplitFault {
        SplitFault::NoMemory
    }
}
