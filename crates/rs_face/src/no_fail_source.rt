//! A source in memory that never fails.
ghost use Rattle.std.specs.Prelude.{◌≡◌, min, length, Some, Ok};
ghost use Rattle.std.specs.Io.{ReadsAtMost};
ghost use Rattle.std.specs.Io.KnownBytes.{ReadConsumes};

use crate::{Source, SourceFault};
use std::marker::Model;

/// A source that holds its bytes in memory and never fails. Contracts see it as the bytes that
/// are left.
#[derive(Debug, Drop)]
pub struct NoFailSource {
    bytes: Vec<u8>,
    at: usize,
}

impl Model for NoFailSource {
    ghost use Rattle.std.specs.Prelude.{List, ℕ, ◌≤◌, drop, vec_len};

    ghost Value = { List ℕ };

    ghost view = { λ s. drop s.at s.bytes.items };

    ghost invariant = { λ s. s.at ≤ vec_len s.bytes };
}

impl NoFailSource {
    /// A source of these bytes.
    pub fn new(bytes: Vec<u8>) -> NoFailSource
        ensures { result ≡ bytes.items }
    {
        NoFailSource { bytes, at: 0 }
    }
}

impl Source for NoFailSource {
    ghost left = { λ s. Some s };

    ghost faults = { λ _. 0 };

    /// Gives as many bytes as the room takes.
    fn read(&mut self, room: &mut [u8]) -> Result<usize, SourceFault>
        ensures bound { ReadsAtMost result room.new }
        ensures bytes { ReadConsumes (Some self.old) (Some self.new) result room.new }
        ensures count { result ≡ Ok (min (length room.old) (length self.old)) }
    {
        let count = room.len().min(self.bytes.len() - self.at);
        room[..count].copy_from_slice(&self.bytes[self.at..self.at + count]);
        self.at += count;
        Ok(count)
    }
}
