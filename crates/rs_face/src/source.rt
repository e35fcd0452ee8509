//! Where bytes come from.
ghost use Rattle.std.specs.Prelude.{◌≡◌, ℕ, List, Option, OnOk};
ghost use Rattle.std.specs.Io.{ReadsAtMost};
ghost use Rattle.std.specs.Io.KnownBytes.{ReadConsumes};
ghost use Rattle.rs_face.specs.Causes.{HasCause};
ghost use Rattle.rs_face.specs.Told.{StaysTold};

/// Why a read gave nothing.
#[derive(Clone, Copy, Debug, PartialEq, Eq)]
pub enum SourceFault {
    /// The source failed, and counted a fault.
    Failed,
}

/// Bytes that come from outside, in order: standard input, a socket, a file.
pub trait Source {
    /// The bytes that are left, where the source tells them.
    ghost left: { Self → Option (List ℕ) };

    /// How many reads failed so far.
    ghost faults: { Self → ℕ };

    /// Moves bytes from the front of what is left into the front of `room`, and answers how many.
    ///
    /// A read into a room that isn't empty takes at least one byte, or answers 0 at the end of the
    /// input. What lies in the room behind the bytes that were read is anything. A failed read
    /// takes none.
    fn read(&mut self, room: &mut [u8]) -> Result<usize, SourceFault>
        ensures bound { ReadsAtMost result room.new }
        ensures bytes { ReadConsumes (left self.old) (left self.new) result room.new }
        ensures told { StaysTold (left self.old) (left self.new) }
        ensures cause { HasCause (faults self.old) (faults self.new) SourceFault.Failed result }
        ensures quiet { OnOk result (faults self.new ≡ faults self.old) };
}
