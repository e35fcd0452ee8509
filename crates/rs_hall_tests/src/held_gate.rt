//! A gate that holds turns open.

use rs_hall::Gate;
use std::sync::atomic::{AtomicU64, Ordering};

/// How often is looked for what another thread does.
pub const LOOKS: u64 = 20_000_000_000;

/// A gate that holds each turn of user 0 until it is opened.
#[derive(Drop)]
pub struct HeldGate {
    begun: AtomicU64,
    opened: AtomicU64,
    ended: AtomicU64,
}

impl HeldGate {
    pub fn new() -> HeldGate {
        HeldGate {
            begun: AtomicU64::new(0),
            opened: AtomicU64::new(0),
            ended: AtomicU64::new(0),
        }
    }

    /// Lets the held turns go.
    pub fn open(&self) {
        self.opened.store(1, Ordering::SeqCst);
    }

    /// Waits until a turn is held.
    pub fn wait_for_a_turn(&self) {
        comes(&self.begun);
    }

    /// Whether a turn is held now.
    pub fn holds(&self) -> bool {
        self.begun.load(Ordering::SeqCst) != 0 && self.ended.load(Ordering::SeqCst) == 0
    }
}

// Looks until the word isn't 0.
fn comes(word: &AtomicU64) {
    for _ in 0..LOOKS {
        if word.load(Ordering::SeqCst) != 0 {
            return;
        }
    }
}

impl Gate for HeldGate {
    fn enter(&self, user: u32, _who: u64) {
        if user == 0 {
            self.begun.store(1, Ordering::SeqCst);
            comes(&self.opened);
        }
    }

    fn leave(&self, user: u32, _who: u64) {
        if user == 0 {
            self.ended.store(1, Ordering::SeqCst);
        }
    }
}
