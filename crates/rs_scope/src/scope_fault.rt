//! Why a text is no scopes.

ghost use Rattle.std.specs.Prelude.{◌≡◌};

use rs_path::NoMemory;
use std::alloc::{AllocError, AllocFailed};

/// The answer to a text that isn't read as scopes.
#[derive(Debug, Clone, Copy, PartialEq, Eq)]
pub enum ScopeFault {
    /// The text is no scopes: 1,024 where it is longer than that, else 0 where it has no item, else the index of
    /// the first byte of the first item that is none.
    Bad { place: u32 },
    /// Memory ran out.
    NoMemory,
}

impl From<NoMemory> for ScopeFault {
    ghost use Rattle.rs_scope.specs.declared.scope_fault.ScopeFault.TheVariants.{NoMemory};

    ghost from_gives = { λ _ fault. fault ≡ NoMemory };

    fn from(_e: NoMemory) -> ScopeFault {
        ScopeFault::NoMemory
    }
}

impl From<AllocError> for ScopeFault {
    ghost use Rattle.rs_scope.specs.declared.scope_fault.ScopeFault.TheVariants.{NoMemory};

    ghost from_gives = { λ _ fault. fault ≡ NoMemory };

    fn from(_e: AllocError) -> ScopeFault {
        ScopeFault::NoMemory
    }
}

impl<T: Drop> From<AllocFailed<T>> for ScopeFault {
    ghost use Rattle.rs_scope.specs.declared.scope_fault.ScopeFault.TheVariants.{NoMemory};

    ghost from_gives = { λ _ fault. fault ≡ NoMemory };

    fn from(_e: AllocFailed<T>) -> ScopeFault {
        ScopeFault::NoMemory
    }
}
