//! Bytes that were fed and not yet taken.

ghost use Rattle.std.specs.Prelude.{◌≡◌, ◌≤◌, [], ◌++◌, length, drop, OnOk, OnErr};

use rs_path::NoMemory;
use std::alloc::Global;
use std::marker::Model;

/// A queue of bytes. What was taken from its front is dropped once it is half of what is kept, so that each byte is moved
/// a bounded number of times. A contract sees the bytes that are left.
#[derive(Debug, Drop)]
pub(crate) struct Buffer {
    bytes: Vec<u8>,
    start: usize,
}

impl Model for Buffer {
    ghost use Rattle.std.specs.Prelude.{List, ℕ, ◌≤◌, drop, length};

    ghost Value = { List ℕ };

    ghost view = { λ b. drop b.start b.bytes.items };

    ghost invariant = { λ b. b.start ≤ length b.bytes.items };
}

impl Buffer {
    /// No bytes.
    pub(crate) fn new(alloc: Global) -> Buffer
        ensures empty { result ≡ [] }
    {
        Buffer {
            bytes: Vec::new(alloc),
            start: 0,
        }
    }

    /// The bytes.
    pub(crate) fn as_slice(&self) -> &[u8]
        ensures bytes { result.now ≡ self.now }
    {
        &self.bytes.as_slice()[self.start..]
    }

    /// Drops the first bytes.
    pub(crate) fn skip(&mut self, count: usize)
        requires within { count ≤ length self.old }
        ensures rest { self.new ≡ drop count self.old }
    {
        self.start += count;
    }

    /// Puts a piece at the end.
    pub(crate) fn append(&mut self, piece: &[u8]) -> Result<(), NoMemory>
        ensures ok { OnOk result (self.new ≡ self.old ++ piece.now) }
        ensures err { OnErr result (self.new ≡ self.old) }
    {
        self.compact();
        self.bytes.extend_from_slice(piece)?;
        Ok(())
    }

    /// Moves the bytes to the front, where that is fewer bytes than were taken.
    fn compact(&mut self)
        ensures same { self.new ≡ self.old }
    {
        let left = self.bytes.len() - self.start;
        if left <= self.start {
            self.bytes.copy_within(self.start.., 0);
            self.bytes.truncate(left);
            self.start = 0;
        }
    }
}
