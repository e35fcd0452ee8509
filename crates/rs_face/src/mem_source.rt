//! A source in memory that fails by a list of calls.
ghost use Rattle.std.specs.Prelude.{◌≡◌, ◌↔◌, min, max, length, Some, IfOk, IsErr, IsTrue};
ghost use Rattle.std.specs.Io.{ReadsAtMost};
ghost use Rattle.std.specs.Io.KnownBytes.{ReadConsumes};
ghost use Rattle.rs_face.specs.Calls.{no_calls, fails_next, after_call};
ghost use Rattle.rs_face.specs.Causes.{HasCause};

use crate::calls::Calls;
use crate::{NoFailSource, Source, SourceFault};
use std::marker::Model;

/// A source that holds its bytes in memory, hands them out in pieces, and fails where it is told
/// to. Contracts see it as a `SourceState`: the bytes that are left, the most bytes that one read
/// gives, and its calls.
#[derive(Debug, Drop)]
pub struct MemSource {
    source: NoFailSource,
    piece: usize,
    calls: Calls,
}

impl Model for MemSource {
    ghost use Rattle.std.specs.Prelude.{◌<◌};
    ghost use Rattle.rs_face.specs.Pieces.{SourceState};

    ghost Value = { SourceState };

    ghost view = { λ s. record { left = s.source; piece = s.piece; calls = s.calls } };

    ghost invariant = { λ s. 0 < s.piece };
}

impl MemSource {
    /// A source of these bytes, which gives as many as the room takes. `failing` has the numbers
    /// of the reads that fail, counted from 1.
    pub fn new(bytes: Vec<u8>, failing: Vec<u64>) -> MemSource
        ensures { result ≡ record {
          left = bytes.items;
          piece = usize.MAX;
          calls = no_calls failing.items;
        } }
    {
        MemSource::in_pieces(bytes, usize::MAX, failing)
    }

    /// The same, but a read gives at most `piece` bytes, or 1 where that is 0.
    pub fn in_pieces(bytes: Vec<u8>, piece: usize, failing: Vec<u64>) -> MemSource
        ensures { result ≡ record {
          left = bytes.items;
          piece = max piece 1;
          calls = no_calls failing.items;
        } }
    {
        MemSource {
            source: NoFailSource::new(bytes),
            piece: piece.max(1),
            calls: Calls::new(failing),
        }
    }
}

impl Source for MemSource {
    ghost left = { λ s. Some s.left };

    ghost faults = { λ s. s.calls.faults };

    fn read(&mut self, room: &mut [u8]) -> Result<usize, SourceFault>
        ensures bound { ReadsAtMost result room.new }
        ensures bytes { ReadConsumes (Some self.old.left) (Some self.new.left) result room.new }
        ensures cause { HasCause self.old.calls.faults self.new.calls.faults
            SourceFault.Failed result }
        // A read fails exactly where its number is in the list.
        ensures fails { IsErr result ↔ IsTrue (fails_next self.old.calls) }
        ensures count { IfOk result (λ count.
            count ≡ min (min (length room.old) self.old.piece) (length self.old.left)) }
        ensures calls { self.new.calls ≡ after_call self.old.calls }
        ensures piece { self.new.piece ≡ self.old.piece }
    {
        if self.calls.fails() {
            return Err(SourceFault::Failed);
        }
        let most = room.len().min(self.piece);
        self.source.read(&mut room[..most])
    }
}
