//! How a command ended.

ghost use Rattle.std.specs.Prelude.{◌≡◌};
ghost use Rattle.rs_cli.specs.Notes.{code_of};

use crate::note::Note;

/// How a command ended: the code that the program ends with, and what it says about it.
#[derive(Debug, PartialEq, Eq, Drop)]
pub struct Status {
    pub code: u8,
    pub note: Note,
}

impl Note {
    /// The status with this note.
    pub fn status(self) -> Status
        ensures note { result.note ≡ self }
        ensures code { result.code ≡ code_of self }
    {
        Status {
            code: self.code(),
            note: self,
        }
    }
}
