//! A sink that holds small writes back.
ghost use Rattle.std.specs.Prelude.{◌≡◌, ◌≤◌, ◌++◌, [], true, false, IfOk, IsErrOf, OnOk, drop, length};
ghost use Rattle.std.specs.Io.KnownBytes.{Keeps};
ghost use Rattle.rs_face.specs.declared.sink.SinkFault.TheVariants as SinkFault;
ghost use Rattle.rs_face.specs.Causes.{HasCause};
ghost use Rattle.rs_face.specs.Told.{StaysTold};
ghost use Rattle.rs_stream.specs.HeldBytes.{told_of};

use rs_face::{NoMemory, Sink, SinkFault};
use std::alloc::Global;
use std::marker::Model;

/// The most bytes that are held back.
pub const HELD_BYTES: usize = 16_384;

/// A sink over another, which holds small writes back until `flush`, or until no more fit, and so hands them on in one write. A
/// piece that is larger goes out at once, behind what is held.
///
/// It tells what the sink below tells and then what it holds; where the sink below fails, the rest stays held. After a flush
/// that succeeded nothing is held. Contracts see it as the sink below and the bytes that it holds.
#[derive(Drop)]
pub struct HeldSink<W: Sink + Drop> {
    sink: W,
    bytes: Vec<u8>,
    // How many of the bytes were handed on.
    sent: usize,
}

impl<W: Sink + Drop> Model for HeldSink<W> {
    ghost use Rattle.std.specs.Prelude.{◌≤◌, drop, length};
    ghost use Rattle.rs_stream.specs.HeldBytes.{Held};

    ghost Value = { Held W };

    ghost view = { λ s. record { inner = s.sink; held = drop s.sent s.bytes.items } };

    ghost invariant = { λ s. s.sent ≤ length s.bytes.items };
}

impl<W: Sink + Drop> HeldSink<W> {
    /// A sink over this one, which holds nothing yet. The room is made here; without memory the sink is dropped.
    pub fn new(alloc: Global, sink: W) -> Result<HeldSink<W>, NoMemory>
        ensures holds { IfOk result (λ made. made ≡ record { inner = sink; held = [] }) }
    {
        Ok(HeldSink {
            sink,
            bytes: Vec::with_capacity(alloc, HELD_BYTES)?,
            sent: 0,
        })
    }

    /// The sink below. What is held is dropped: flush first.
    pub fn into_inner(self) -> W
        ensures inner { result ≡ self.inner }
    {
        let HeldSink { sink, .. } = self;
        sink
    }

    // Holds the piece back, where it fits.
    fn hold(&mut self, piece: &[u8]) -> bool
        ensures inner { self.new.inner ≡ self.old.inner }
        ensures held { result ≡ true → self.new.held ≡ self.old.held ++ piece.now }
        ensures other { result ≡ false → self.new.held ≡ self.old.held }
    {
        if self.bytes.len() + piece.len() > HELD_BYTES {
            return false;
        }
        self.bytes.extend_from_slice(piece).is_ok()
    }

    // Hands on what is held.
    fn send(&mut self) -> Result<(), SinkFault>
        ensures sent { OnOk result (self.new.held ≡ []) }
        ensures keeps { Keeps (told_of W.written self.old) (told_of W.written self.new) }
        ensures told { StaysTold (told_of W.written self.old) (told_of W.written self.new) }
        ensures cause { HasCause (W.faults self.old.inner) (W.faults self.new.inner) SinkFault.Failed result }
        ensures quiet { OnOk result (W.faults self.new.inner ≡ W.faults self.old.inner) }
        ensures no_memory { IsErrOf result SinkFault.NoMemory → W.faults self.new.inner ≡ W.faults self.old.inner }
        ensures want { HasCause (W.wants self.old.inner) (W.wants self.new.inner) SinkFault.NoMemory result }
        ensures content { OnOk result (W.wants self.new.inner ≡ W.wants self.old.inner) }
        ensures failed { IsErrOf result SinkFault.Failed → W.wants self.new.inner ≡ W.wants self.old.inner }
    {
        'sending: while self.sent < self.bytes.len() {
            let count = self.sink.write(from(self.bytes.as_slice(), self.sent))?;
            self.sent += count;
        }
        self.bytes.clear();
        self.sent = 0;
        Ok(())
    }
}

// The bytes from a place on.
fn from(bytes: &[u8], place: usize) -> &[u8]
    requires within { place ≤ length bytes.now }
    ensures rest { result.now ≡ drop place bytes.now }
{
    &bytes[place..]
}

impl<W: Sink + Drop> Sink for HeldSink<W> {
    ghost written = { λ s. told_of W.written s };

    ghost faults = { λ s. W.faults s.inner };

    ghost wants = { λ s. W.wants s.inner };

    fn write(&mut self, piece: &[u8]) -> Result<usize, SinkFault> {
        if self.hold(piece) {
            return Ok(piece.len());
        }
        self.send()?;
        if self.hold(piece) {
            return Ok(piece.len());
        }
        self.sink.write(piece)
    }

    fn flush(&mut self) -> Result<(), SinkFault> {
        self.send()?;
        self.sink.flush()
    }
}
