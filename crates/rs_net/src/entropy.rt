//! The system's random bytes, as an entropy. It tells no words, since no clause can say what the system draws.

use rs_face::{Entropy, EntropyFault};
use std::random::RandomSource;

/// Words of the system's random source, with a count of the draws that failed.
#[derive(Drop)]
pub struct OsEntropy<R: RandomSource + Drop> {
    source: R,
    faults: u64,
}

impl<R: RandomSource + Drop> OsEntropy<R> {
    pub fn new(source: R) -> OsEntropy<R> {
        OsEntropy { source, faults: 0 }
    }
}

impl<R: RandomSource + Drop> Entropy for OsEntropy<R> {
    ghost use Rattle.std.specs.Prelude.{None};

    ghost words = { λ _. None };

    ghost faults = { λ s. s.faults };

    fn word(&mut self) -> Result<u64, EntropyFault> {
        let mut bytes = [0; 8];
        if self.source.fill_bytes(&mut bytes).is_ok() {
            return Ok(u64::from_be_bytes(bytes));
        }
        self.faults = self.faults.saturating_add(1);
        Err(EntropyFault::Failed)
    }
}
