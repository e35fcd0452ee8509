//! Why no hall was opened.

ghost use Rattle.std.specs.Prelude.{◌≡◌};

use rs_path::NoMemory;
use rs_rules::OpenFault;
use std::alloc::{AllocError, AllocFailed};

/// The answer to keepers over which no hall is opened.
#[derive(Debug, Clone, Copy, PartialEq, Eq)]
pub enum HallFault {
    /// The rows of this user are the first that aren't opened, and why. That is never want of memory.
    User { user: u32, fault: OpenFault },
    /// Memory ran out.
    NoMemory,
}

impl From<NoMemory> for HallFault {
    ghost use Rattle.rs_hall.specs.declared.hall_fault.HallFault.TheVariants.{NoMemory};

    ghost from_gives = { λ _ fault. fault ≡ NoMemory };

    fn from(_e: NoMemory) -> HallFault {
        HallFault::NoMemory
    }
}

impl From<AllocError> for HallFault {
    ghost use Rattle.rs_hall.specs.declared.hall_fault.HallFault.TheVariants.{NoMemory};

    ghost from_gives = { λ _ fault. fault ≡ NoMemory };

    fn from(_e: AllocError) -> HallFault {
        HallFault::NoMemory
    }
}

impl<T: Drop> From<AllocFailed<T>> for HallFault {
    ghost use Rattle.rs_hall.specs.declared.hall_fault.HallFault.TheVariants.{NoMemory};

    ghost from_gives = { λ _ fault. fault ≡ NoMemory };

    fn from(_e: AllocFailed<T>) -> HallFault {
        HallFault::NoMemory
    }
}
