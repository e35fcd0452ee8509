//! Why one row isn't taken.

ghost use Rattle.std.specs.Prelude.{◌≡◌};

use rs_path::NoMemory;

/// What is wrong with a row behind others.
#[derive(Debug, Clone, Copy, PartialEq, Eq)]
pub enum Refusal {
    /// It spells nothing: the place of the fault.
    Bad { place: u32 },
    /// What it spells doesn't stand rightly behind them.
    Misplaced,
}

/// The answer to a row that isn't taken.
#[derive(Debug, Clone, Copy, PartialEq, Eq)]
pub enum TakeFault {
    /// It is refused.
    Refused { why: Refusal },
    /// Memory ran out.
    NoMemory,
}

impl From<NoMemory> for TakeFault {
    ghost use Rattle.rs_row.specs.declared.refusal.TakeFault.TheVariants.{NoMemory};

    ghost from_gives = { λ _ fault. fault ≡ NoMemory };

    fn from(_e: NoMemory) -> TakeFault {
        TakeFault::NoMemory
    }
}
