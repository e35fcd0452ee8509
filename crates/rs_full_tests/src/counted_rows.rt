//! Rows that are only counted.

use rs_face::{KeepFault, Keeper};

/// Rows of which only the number is kept: none is read, for want of memory.
#[derive(Drop)]
pub struct CountedRows {
    pub len: u64,
}

impl Keeper for CountedRows {
    ghost use Rattle.std.specs.Prelude.{None};

    ghost rows = { λ _. None };

    ghost row_count = { λ k. k.len };

    ghost faults = { λ _. 0 };

    ghost counted = { λ _. tt };

    fn len(&self) -> u64 {
        self.len
    }

    fn read(&mut self, _i: u64, out: &mut Vec<u8>) -> Result<(), KeepFault> {
        out.clear();
        Err(KeepFault::NoMemory)
    }

    fn read_run(&mut self, _i: u64, out: &mut Vec<Vec<u8>>) -> Result<(), KeepFault> {
        out.clear();
        Err(KeepFault::NoMemory)
    }

    fn append(&mut self, _row: &[u8]) -> Result<(), KeepFault> {
        if self.len == u64::MAX {
            return Err(KeepFault::NoMemory);
        }
        self.len += 1;
        Ok(())
    }
}
