//! Where bytes go to.
ghost use Rattle.std.specs.Prelude.{◌≡◌, ℕ, ◌<◌, List, Option, OnOk, OnErr, IfOk, IsErrOf, length};
ghost use Rattle.std.specs.Io.{WritesAtMost};
ghost use Rattle.std.specs.Io.KnownBytes.{Appends, Keeps, WriteAppends};
ghost use Rattle.rs_face.specs.Causes.{HasCause};
ghost use Rattle.rs_face.specs.Told.{StaysTold, AppendsFront};

use std::alloc::AllocError;

/// Why a write or a flush did nothing.
#[derive(Clone, Copy, Debug, PartialEq, Eq)]
pub enum SinkFault {
    /// The sink failed, and counted a fault.
    Failed,
    /// A sink in memory couldn't grow. This is no fault, and is counted as a want of memory.
    NoMemory,
}

impl From<AllocError> for SinkFault {
    ghost use Rattle.rs_face.specs.declared.sink.SinkFault.TheVariants.{NoMemory};

    ghost from_gives = { λ _ fault. fault ≡ NoMemory };

    fn from(_error: AllocError) -> SinkFault {
        SinkFault::NoMemory
    }
}

/// Bytes that go outside, in order: standard output, a socket, a file.
pub trait Sink {
    /// The bytes that were written so far, where the sink tells them.
    ghost written: { Self → Option (List ℕ) };

    /// How many writes and flushes failed so far.
    ghost faults: { Self → ℕ };

    /// How many writes and flushes wanted memory so far.
    ghost wants: { Self → ℕ };

    /// Takes bytes from the front of `piece`, and answers how many.
    ///
    /// Of a piece that isn't empty it takes between 1 and all of its bytes. A write that answers
    /// `Failed` or `NoMemory` takes none.
    fn write(&mut self, piece: &[u8]) -> Result<usize, SinkFault>
        ensures bound { WritesAtMost result piece.now }
        ensures some { 0 < length piece.now → IfOk result (λ count. 0 < count) }
        ensures bytes { WriteAppends (written self.old) (written self.new) result piece.now }
        ensures told { StaysTold (written self.old) (written self.new) }
        ensures cause { HasCause (faults self.old) (faults self.new) SinkFault.Failed result }
        ensures quiet { OnOk result (faults self.new ≡ faults self.old) }
        ensures no_memory { IsErrOf result SinkFault.NoMemory → faults self.new ≡ faults self.old }
        ensures want { HasCause (wants self.old) (wants self.new) SinkFault.NoMemory result }
        ensures content { OnOk result (wants self.new ≡ wants self.old) }
        ensures failed { IsErrOf result SinkFault.Failed → wants self.new ≡ wants self.old };

    /// Hands on what the sink may hold back. Whatever it answers, what was written is as before.
    fn flush(&mut self) -> Result<(), SinkFault>
        ensures bytes { Keeps (written self.old) (written self.new) }
        ensures told { StaysTold (written self.old) (written self.new) }
        ensures cause { HasCause (faults self.old) (faults self.new) SinkFault.Failed result }
        ensures quiet { OnOk result (faults self.new ≡ faults self.old) }
        ensures no_memory { IsErrOf result SinkFault.NoMemory → faults self.new ≡ faults self.old }
        ensures want { HasCause (wants self.old) (wants self.new) SinkFault.NoMemory result }
        ensures content { OnOk result (wants self.new ≡ wants self.old) }
        ensures failed { IsErrOf result SinkFault.Failed → wants self.new ≡ wants self.old };
}

/// Writes the whole piece, in as many writes as the sink wants. After an error the sink has taken
/// a front of the piece and nothing else.
pub fn write_all<W: Sink>(sink: &mut W, piece: &[u8]) -> Result<(), SinkFault>
    ensures ok { OnOk result (Appends (W.written sink.old) (W.written sink.new) piece.now) }
    ensures err { OnErr result (AppendsFront (W.written sink.old) (W.written sink.new) piece.now) }
    ensures told { StaysTold (W.written sink.old) (W.written sink.new) }
    ensures cause { HasCause (W.faults sink.old) (W.faults sink.new) SinkFault.Failed result }
    ensures quiet { OnOk result (W.faults sink.new ≡ W.faults sink.old) }
    ensures no_memory { IsErrOf result SinkFault.NoMemory → W.faults sink.new ≡ W.faults sink.old }
    ensures want { HasCause (W.wants sink.old) (W.wants sink.new) SinkFault.NoMemory result }
    ensures content { OnOk result (W.wants sink.new ≡ W.wants sink.old) }
    ensures failed { IsErrOf result SinkFault.Failed → W.wants sink.new ≡ W.wants sink.old }
{
    let mut rest = piece;
    while !rest.is_empty() {
        let count = sink.write(rest)?;
        rest = &rest[count..];
    }
    Ok(())
}
