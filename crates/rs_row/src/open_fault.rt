//! Why rows aren't opened.

ghost use Rattle.std.specs.Prelude.{◌≡◌};
ghost use Rattle.rs_row.specs.RowOpenings.{refused_at};

use crate::refusal::Refusal;
use rs_path::NoMemory;

/// The answer to rows that aren't opened.
#[derive(Debug, Clone, Copy, PartialEq, Eq)]
pub enum OpenFault {
    /// The row at the index spells nothing: the place of the fault in it.
    BadRow { index: u64, place: u32 },
    /// What the row at the index spells doesn't stand rightly after the rows before it.
    Unlawful { index: u64 },
    /// The rows could not be read.
    KeeperFailed,
    /// Memory ran out.
    NoMemory,
}

impl OpenFault {
    /// The answer to rows of which the one with the index is refused.
    pub fn of(index: u64, why: Refusal) -> OpenFault
        ensures refused { result ≡ refused_at index why }
    {
        match why {
            Refusal::Bad { place } => OpenFault::BadRow { index, place },
            Refusal::Misplaced => OpenFault::Unlawful { index },
        }
    }
}

impl From<NoMemory> for OpenFault {
    ghost use Rattle.rs_row.specs.declared.open_fault.OpenFault.TheVariants.{NoMemory};

    ghost from_gives = { λ _ fault. fault ≡ NoMemory };

    fn from(_e: NoMemory) -> OpenFault {
        OpenFault::NoMemory
    }
}
