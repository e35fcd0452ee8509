//! Why a text names no root.

ghost use Rattle.std.specs.Prelude.{◌≡◌};

use rs_path::NoMemory;
use std::alloc::AllocError;

/// The answer to a text that isn't read as a root.
#[derive(Debug, Clone, Copy, PartialEq, Eq)]
pub enum RootFault {
    /// The address has the scheme `https`, which is not served.
    Https,
    /// It is no address, or none of a root.
    BadUrl,
    /// Memory ran out.
    NoMemory,
}

impl From<NoMemory> for RootFault {
    ghost use Rattle.rs_talk.specs.declared.root_fault.RootFault.TheVariants.{NoMemory};

    ghost from_gives = { λ _ fault. fault ≡ NoMemory };

    fn from(_e: NoMemory) -> RootFault {
        RootFault::NoMemory
    }
}

impl From<AllocError> for RootFault {
    ghost use Rattle.rs_talk.specs.declared.root_fault.RootFault.TheVariants.{NoMemory};

    ghost from_gives = { λ _ fault. fault ≡ NoMemory };

    fn from(_e: AllocError) -> RootFault {
        RootFault::NoMemory
    }
}
