//! A gate that notes that a turn has ended, and who waits for it.

use rs_hall::Gate;
use std::sync::atomic::{AtomicU64, Ordering};

/// How often is looked for what another thread does.
pub const LOOKS: u64 = 1_000_000_000;

/// Open once a turn of a user has ended.
#[derive(Drop)]
pub struct Latch {
    ended: AtomicU64,
}

impl Latch {
    pub fn new() -> Latch {
        Latch {
            ended: AtomicU64::new(0),
        }
    }

    /// Waits until a turn has ended, for so many looks at most.
    pub fn wait(&self) {
        for _ in 0..LOOKS {
            if self.ended.load(Ordering::SeqCst) != 0 {
                return;
            }
        }
    }
}

impl Gate for Latch {
    fn enter(&self, _user: u32, _who: u64) {}

    fn leave(&self, _user: u32, _who: u64) {
        self.ended.store(1, Ordering::SeqCst);
    }
}
