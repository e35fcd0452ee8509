//! A sink in memory that fails by a list of calls.
ghost use Rattle.std.specs.Prelude.{◌≡◌, ◌<◌, ◌↔◌, min, max, length, Some, IfOk, IfErr, OnOk, IsErrOf, IsTrue};
ghost use Rattle.std.specs.Io.{WritesAtMost};
ghost use Rattle.std.specs.Io.KnownBytes.{Keeps, WriteAppends};
ghost use Rattle.rs_face.specs.Calls.{no_calls, fails_next, after_call};
ghost use Rattle.rs_face.specs.Causes.{HasCause};

use crate::calls::Calls;
use crate::{NoFailSink, Sink, SinkFault};
use std::marker::Model;

/// A sink that keeps its bytes in memory, takes them in pieces, and fails where it is told to.
/// Contracts see it as a `SinkState`: the bytes that were written, how many writes wanted memory,
/// the most bytes that one write takes, and its calls.
#[derive(Debug, Drop)]
pub struct MemSink {
    sink: NoFailSink,
    piece: usize,
    calls: Calls,
}

impl Model for MemSink {
    ghost use Rattle.std.specs.Prelude.{◌<◌};
    ghost use Rattle.rs_face.specs.Pieces.{SinkState};

    ghost Value = { SinkState };

    ghost view = { λ s. record {
      bytes = s.sink.bytes;
      wants = s.sink.wants;
      piece = s.piece;
      calls = s.calls;
    } };

    ghost invariant = { λ s. 0 < s.piece };
}

impl MemSink {
    /// A sink that holds these bytes at first, and takes each piece whole. `failing` has the
    /// numbers of the calls that fail, counted from 1; a flush is a call too.
    pub fn new(bytes: Vec<u8>, failing: Vec<u64>) -> MemSink
        ensures { result ≡ record {
          bytes = bytes.items;
          wants = 0;
          piece = usize.MAX;
          calls = no_calls failing.items;
        } }
    {
        MemSink::in_pieces(bytes, usize::MAX, failing)
    }

    /// The same, but a write takes at most `piece` bytes, or 1 where that is 0.
    pub fn in_pieces(bytes: Vec<u8>, piece: usize, failing: Vec<u64>) -> MemSink
        ensures { result ≡ record {
          bytes = bytes.items;
          wants = 0;
          piece = max piece 1;
          calls = no_calls failing.items;
        } }
    {
        MemSink {
            sink: NoFailSink::new(bytes),
            piece: piece.max(1),
            calls: Calls::new(failing),
        }
    }

    /// What the sink holds: the bytes that it began with, and those that were written.
    pub fn written(&self) -> &[u8]
        ensures { result.now ≡ self.now.bytes }
    {
        self.sink.written()
    }
}

impl Sink for MemSink {
    ghost written = { λ s. Some s.bytes };

    ghost faults = { λ s. s.calls.faults };

    ghost wants = { λ s. s.wants };

    fn write(&mut self, piece: &[u8]) -> Result<usize, SinkFault>
        ensures bound { WritesAtMost result piece.now }
        ensures some { 0 < length piece.now → IfOk result (λ count. 0 < count) }
        ensures bytes { WriteAppends (Some self.old.bytes) (Some self.new.bytes) result piece.now }
        ensures cause { HasCause self.old.calls.faults self.new.calls.faults
            SinkFault.Failed result }
        // A call fails exactly where its number is in the list.
        ensures fails { IsErrOf result SinkFault.Failed ↔ IsTrue (fails_next self.old.calls) }
        ensures want { HasCause self.old.wants self.new.wants SinkFault.NoMemory result }
        ensures content { OnOk result (self.new.wants ≡ self.old.wants) }
        ensures failed { IsErrOf result SinkFault.Failed → self.new.wants ≡ self.old.wants }
        ensures count { IfOk result (λ count. count ≡ min (length piece.now) self.old.piece) }
        ensures calls { self.new.calls ≡ after_call self.old.calls }
        ensures piece { self.new.piece ≡ self.old.piece }
    {
        if self.calls.fails() {
            return Err(SinkFault::Failed);
        }
        let most = piece.len().min(self.piece);
        self.sink.write(&piece[..most])
    }

    fn flush(&mut self) -> Result<(), SinkFault>
        ensures bytes { Keeps (Some self.old.bytes) (Some self.new.bytes) }
        ensures cause { HasCause self.old.calls.faults self.new.calls.faults
            SinkFault.Failed result }
        ensures fails { IsErrOf result SinkFault.Failed ↔ IsTrue (fails_next self.old.calls) }
        ensures no_other { IfErr result (λ fault. fault ≡ SinkFault.Failed) }
        ensures content { self.new.wants ≡ self.old.wants }
        ensures calls { self.new.calls ≡ after_call self.old.calls }
        ensures piece { self.new.piece ≡ self.old.piece }
    {
        if self.calls.fails() {
            return Err(SinkFault::Failed);
        }
        Ok(())
    }
}
