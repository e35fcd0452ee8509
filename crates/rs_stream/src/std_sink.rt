//! A writer as a sink.
ghost use Rattle.std.specs.Prelude.{◌≡◌};

use crate::steady::SteadyWrite;
use rs_face::{Sink, SinkFault};
use std::io::ErrorKind;
use std::marker::Model;

/// A writer as a sink, with a count of the writes and flushes that failed. A write that a signal interrupts is made again.
///
/// It tells what the writer tells: a write that answers `k` has put exactly the first `k` bytes behind those that the writer
/// holds, a flush and a failed write none. Contracts see it as the writer and the count.
#[derive(Drop)]
pub struct StdSink<W: SteadyWrite + Drop> {
    writer: W,
    faults: u64,
}

impl<W: SteadyWrite + Drop> Model for StdSink<W> {
    ghost use Rattle.rs_stream.specs.Streams.{Stream};

    ghost Value = { Stream W };

    ghost view = { λ s. record { inner = s.writer; faults = s.faults } };
}

impl<W: SteadyWrite + Drop> StdSink<W> {
    /// The sink over this writer.
    pub fn new(writer: W) -> StdSink<W>
        ensures { result ≡ record { inner = writer; faults = 0 } }
    {
        StdSink { writer, faults: 0 }
    }

    /// The writer below.
    pub fn into_inner(self) -> W
        ensures { result ≡ self.inner }
    {
        let StdSink { writer, faults: _ } = self;
        writer
    }
}

impl<W: SteadyWrite + Drop> Sink for StdSink<W> {
    ghost written = { λ s. W.contents s.inner };

    ghost faults = { λ s. s.faults };

    ghost wants = { λ _. 0 };

    fn write(&mut self, piece: &[u8]) -> Result<usize, SinkFault> {
        if piece.is_empty() {
            return Ok(0);
        }
        'again: for _ in 0..u64::MAX {
            match self.writer.write(piece) {
                Ok(0) => break,
                Ok(count) => return Ok(count),
                Err(error) if error.kind() == ErrorKind::Interrupted => {}
                Err(_) => break,
            }
        }
        self.faults = self.faults.saturating_add(1);
        Err(SinkFault::Failed)
    }

    fn flush(&mut self) -> Result<(), SinkFault> {
        if self.writer.flush().is_ok() {
            return Ok(());
        }
        self.faults = self.faults.saturating_add(1);
        Err(SinkFault::Failed)
    }
}
