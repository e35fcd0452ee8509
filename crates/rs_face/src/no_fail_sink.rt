//! A sink in memory that never fails.
ghost use Rattle.std.specs.Prelude.{◌≡◌, ◌<◌, length, Some, IsOk, IfOk, IfErr, OnOk};
ghost use Rattle.std.specs.Io.{WritesAtMost};
ghost use Rattle.std.specs.Io.KnownBytes.{Keeps, WriteAppends};
ghost use Rattle.rs_face.specs.Causes.{HasCause};

use crate::{Sink, SinkFault};
use std::marker::Model;

/// A sink that keeps its bytes in memory and never fails, but where it can't grow. Contracts see
/// it as a `GrowingState`: the bytes that were written, and how many writes wanted memory.
#[derive(Debug, Drop)]
pub struct NoFailSink {
    bytes: Vec<u8>,
    wants: u64,
}

impl Model for NoFailSink {
    ghost use Rattle.rs_face.specs.Pieces.{GrowingState};

    ghost Value = { GrowingState };

    ghost view = { λ s. record { bytes = s.bytes.items; wants = s.wants } };
}

impl NoFailSink {
    /// A sink that holds these bytes at first.
    pub fn new(bytes: Vec<u8>) -> NoFailSink
        ensures { result ≡ record { bytes = bytes.items; wants = 0 } }
    {
        NoFailSink { bytes, wants: 0 }
    }

    /// What the sink holds: the bytes that it began with, and those that were written.
    pub fn written(&self) -> &[u8]
        ensures { result.now ≡ self.now.bytes }
    {
        self.bytes.as_slice()
    }
}

impl Sink for NoFailSink {
    ghost written = { λ s. Some s.bytes };

    ghost faults = { λ _. 0 };

    ghost wants = { λ s. s.wants };

    /// Takes the whole piece, or none of it where there is no memory for it.
    fn write(&mut self, piece: &[u8]) -> Result<usize, SinkFault>
        ensures bound { WritesAtMost result piece.now }
        ensures some { 0 < length piece.now → IfOk result (λ count. 0 < count) }
        ensures bytes { WriteAppends (Some self.old.bytes) (Some self.new.bytes) result piece.now }
        ensures count { IfOk result (λ count. count ≡ length piece.now) }
        ensures err { IfErr result (λ fault. fault ≡ SinkFault.NoMemory) }
        ensures want { HasCause self.old.wants self.new.wants SinkFault.NoMemory result }
        ensures content { OnOk result (self.new.wants ≡ self.old.wants) }
    {
        match self.bytes.extend_from_slice(piece) {
            Ok(()) => Ok(piece.len()),
            Err(_) => {
                self.wants = self.wants.saturating_add(1);
                Err(SinkFault::NoMemory)
            }
        }
    }

    fn flush(&mut self) -> Result<(), SinkFault>
        ensures bytes { Keeps (Some self.old.bytes) (Some self.new.bytes) }
        ensures ok { IsOk result }
        ensures content { self.new.wants ≡ self.old.wants }
    {
        Ok(())
    }
}
