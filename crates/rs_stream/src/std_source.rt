//! A reader as a source.
ghost use Rattle.std.specs.Prelude.{◌≡◌};

use crate::steady::SteadyRead;
use rs_face::{Source, SourceFault};
use std::io::ErrorKind;
use std::marker::Model;

/// A reader as a source, with a count of the reads that failed. A read that a signal interrupts is made again.
///
/// It tells what the reader tells: a read takes exactly the bytes that it hands over from those that the reader has left.
/// Contracts see it as the reader and the count.
#[derive(Drop)]
pub struct StdSource<R: SteadyRead + Drop> {
    reader: R,
    faults: u64,
}

impl<R: SteadyRead + Drop> Model for StdSource<R> {
    ghost use Rattle.rs_stream.specs.Streams.{Stream};

    ghost Value = { Stream R };

    ghost view = { λ s. record { inner = s.reader; faults = s.faults } };
}

impl<R: SteadyRead + Drop> StdSource<R> {
    /// The source over this reader.
    pub fn new(reader: R) -> StdSource<R>
        ensures { result ≡ record { inner = reader; faults = 0 } }
    {
        StdSource { reader, faults: 0 }
    }

    /// The reader below.
    pub fn into_inner(self) -> R
        ensures { result ≡ self.inner }
    {
        let StdSource { reader, faults: _ } = self;
        reader
    }
}

impl<R: SteadyRead + Drop> Source for StdSource<R> {
    ghost left = { λ s. R.remaining s.inner };

    ghost faults = { λ s. s.faults };

    fn read(&mut self, room: &mut [u8]) -> Result<usize, SourceFault> {
        'again: for _ in 0..u64::MAX {
            match self.reader.read(room) {
                Ok(count) => return Ok(count),
                Err(error) if error.kind() == ErrorKind::Interrupted => {}
                Err(_) => break,
            }
        }
        self.faults = self.faults.saturating_add(1);
        Err(SourceFault::Failed)
    }
}
