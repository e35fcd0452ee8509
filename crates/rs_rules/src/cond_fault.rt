//! Why a text is no condition.

ghost use Rattle.std.specs.Prelude.{◌≡◌};

use rs_path::NoMemory;
use std::alloc::{AllocError, AllocFailed};

/// The answer to a text that isn't read as a condition.
#[derive(Debug, Clone, Copy, PartialEq, Eq)]
pub enum CondFault {
    /// The text is neither `*` nor a list of entity tags: the index of the first byte of the first item that is
    /// no tag, or 0 where the list has no item.
    Bad { place: u32 },
    /// Memory ran out.
    NoMemory,
}

impl From<NoMemory> for CondFault {
    ghost use Rattle.rs_rules.specs.declared.cond_fault.CondFault.TheVariants.{NoMemory};

    ghost from_gives = { λ _ fault. fault ≡ NoMemory };

    fn from(_e: NoMemory) -> CondFault {
        CondFault::NoMemory
    }
}

impl From<AllocError> for CondFault {
    ghost use Rattle.rs_rules.specs.declared.cond_fault.CondFault.TheVariants.{NoMemory};

    ghost from_gives = { λ _ fault. fault ≡ NoMemory };

    fn from(_e: AllocError) -> CondFault {
        CondFault::NoMemory
    }
}

impl<T: Drop> From<AllocFailed<T>> for CondFault {
    ghost use Rattle.rs_rules.specs.declared.cond_fault.CondFault.TheVariants.{NoMemory};

    ghost from_gives = { λ _ fault. fault ≡ NoMemory };

    fn from(_e: AllocFailed<T>) -> CondFault {
        CondFault::NoMemory
    }
}
