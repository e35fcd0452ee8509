//! An entropy in memory that fails by a list of calls.
ghost use Rattle.std.specs.Prelude.{◌≡◌, ◌↔◌, ◌∷◌, ◌||◌, Some, IfOk, OnErr, IsErr, IsTrue};
ghost use Rattle.rs_face.specs.Calls.{no_calls, fails_next};
ghost use Rattle.rs_face.specs.Causes.{HasCause};
ghost use Rattle.rs_face.specs.Words.{is_used_up, calls_after_word};

use crate::calls::Calls;
use crate::{Entropy, EntropyFault};
use std::marker::Model;

/// An entropy that gives the words of a list, and fails where it is told to and when they are used
/// up. Contracts see it as an `EntropyState`: the words that are left, and its calls.
#[derive(Debug, Drop)]
pub struct MemEntropy {
    words: Vec<u64>,
    at: usize,
    calls: Calls,
}

impl Model for MemEntropy {
    ghost use Rattle.std.specs.Prelude.{◌≤◌, drop, length};
    ghost use Rattle.rs_face.specs.Words.{EntropyState};

    ghost Value = { EntropyState };

    ghost view = { λ s. record { words = drop s.at s.words.items; calls = s.calls } };

    ghost invariant = { λ s. s.at ≤ length s.words.items };
}

impl MemEntropy {
    /// An entropy of these words. `failing` has the numbers of the draws that fail, counted from 1.
    pub fn new(words: Vec<u64>, failing: Vec<u64>) -> MemEntropy
        ensures { result ≡ record { words = words.items; calls = no_calls failing.items } }
    {
        MemEntropy {
            words,
            at: 0,
            calls: Calls::new(failing),
        }
    }
}

impl Entropy for MemEntropy {
    ghost words = { λ s. Some s.words };

    ghost faults = { λ s. s.calls.faults };

    fn word(&mut self) -> Result<u64, EntropyFault>
        ensures ok { IfOk result (λ word. self.old.words ≡ word ∷ self.new.words) }
        ensures err { OnErr result (self.new.words ≡ self.old.words) }
        ensures cause { HasCause self.old.calls.faults self.new.calls.faults
            EntropyFault.Failed result }
        // A draw fails exactly where its number is in the list, or no word is left.
        ensures fails { IsErr result ↔ IsTrue (fails_next self.old.calls || is_used_up self.old) }
        ensures calls { self.new.calls ≡ calls_after_word self.old }
    {
        if self.calls.fails() {
            return Err(EntropyFault::Failed);
        }
        if self.at == self.words.len() {
            self.calls.fault();
            return Err(EntropyFault::Failed);
        }
        let word = self.words[self.at];
        self.at += 1;
        Ok(word)
    }
}
