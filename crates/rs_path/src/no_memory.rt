//! Want of memory.

ghost use Rattle.std.specs.Prelude.{◌≡◌};

use std::alloc::{AllocError, AllocFailed};

/// The allocator had no memory. A call that answers this has left all else as it was.
#[derive(Debug, Clone, Copy, PartialEq, Eq)]
pub struct NoMemory;

impl From<AllocError> for NoMemory {
    ghost from_gives = { λ _ e. e ≡ record {} };

    fn from(_e: AllocError) -> NoMemory {
        NoMemory
    }
}

impl<T: Drop> From<AllocFailed<T>> for NoMemory {
    ghost from_gives = { λ _ e. e ≡ record {} };

    fn from(_e: AllocFailed<T>) -> NoMemory {
        NoMemory
    }
}
