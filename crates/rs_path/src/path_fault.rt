//! Why a text is no path.

ghost use Rattle.std.specs.Prelude.{◌≡◌};

use crate::no_memory::NoMemory;
use std::alloc::{AllocError, AllocFailed};

/// Why a text, or one segment of it, is refused as a path.
#[derive(Debug, Clone, Copy, PartialEq, Eq)]
pub enum PathWhy {
    /// The text is empty or doesn't begin with `/`, or a segment other than the last is empty.
    Empty,
    /// A name would have a `/`.
    Slash,
    /// A name would have a zero byte.
    Nul,
    /// A name would be `.` or `..`.
    Dots,
    /// A name would have more than 255 bytes.
    NameLong,
    /// The segment is the 33rd.
    Deep,
    /// A name would not be UTF-8.
    NotUtf8,
    /// A `%` without two hexadecimal digits after it.
    BadEscape,
}

/// The answer to a text that isn't read as a path.
#[derive(Debug, Clone, Copy, PartialEq, Eq)]
pub enum PathFault {
    /// The text is no path: the cause, and the index of the first byte of the segment at fault.
    Bad { why: PathWhy, place: u32 },
    /// Memory ran out.
    NoMemory,
}

impl From<NoMemory> for PathFault {
    ghost use Rattle.rs_path.specs.declared.path_fault.PathFault.TheVariants.{NoMemory};

    ghost from_gives = { λ _ fault. fault ≡ NoMemory };

    fn from(_e: NoMemory) -> PathFault {
        PathFault::NoMemory
    }
}

impl From<AllocError> for PathFault {
    ghost use Rattle.rs_path.specs.declared.path_fault.PathFault.TheVariants.{NoMemory};

    ghost from_gives = { λ _ fault. fault ≡ NoMemory };

    fn from(_e: AllocError) -> PathFault {
        PathFault::NoMemory
    }
}

impl<T: Drop> From<AllocFailed<T>> for PathFault {
    ghost use Rattle.rs_path.specs.declared.path_fault.PathFault.TheVariants.{NoMemory};

    ghost from_gives = { λ _ fault. fault ≡ NoMemory };

    fn from(_e: AllocFailed<T>) -> PathFault {
        PathFault::NoMemory
    }
}
