//! Why bytes are no answer.

ghost use Rattle.std.specs.Prelude.{◌≡◌};

use rs_path::NoMemory;

/// The answer to bytes that aren't read as the answer to an ask.
#[derive(Debug, Clone, Copy, PartialEq, Eq)]
pub enum AnswerFault {
    /// The bytes are no answer from this place on: the number of bytes before it.
    Bad { place: u64 },
    /// Memory ran out.
    NoMemory,
}

impl From<NoMemory> for AnswerFault {
    ghost use Rattle.rs_talk.specs.declared.answer_fault.AnswerFault.TheVariants.{NoMemory};

    ghost from_gives = { λ _ fault. fault ≡ NoMemory };

    fn from(_e: NoMemory) -> AnswerFault {
        AnswerFault::NoMemory
    }
}
