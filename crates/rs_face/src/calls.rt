//! Which calls of an object in memory fail.
ghost use Rattle.std.specs.Prelude.{◌≡◌, ◌<◌, ◌^◌};
ghost use Rattle.rs_face.specs.Calls.{no_calls, fails_next, after_call, after_fault};

use std::marker::Model;

/// Counts the calls of an object, and says which of them fail.
#[derive(Debug, Drop)]
pub(crate) struct Calls {
    failing: Vec<u64>,
    made: u64,
    faults: u64,
}

impl Model for Calls {
    ghost use Rattle.rs_face.specs.Calls.{Calls as CallsSeen};

    ghost Value = { CallsSeen };

    ghost view = { λ s. record { failing = s.failing.items; made = s.made; faults = s.faults } };
}

impl Calls {
    /// No call was made yet. `failing` has the numbers of the calls that fail, counted from 1.
    pub(crate) fn new(failing: Vec<u64>) -> Calls
        ensures { result ≡ no_calls failing.items }
    {
        Calls {
            failing,
            made: 0,
            faults: 0,
        }
    }

    /// Counts a call, and answers whether it fails. Both counts stay at their greatest value.
    pub(crate) fn fails(&mut self) -> bool
        ensures answer { result ≡ fails_next self.old }
        ensures after { self.new ≡ after_call self.old }
        ensures in_range { self.old.faults < 2 ^ 64 }
    {
        let faults = self.faults;
        self.made = self.made.saturating_add(1);
        let fails = self.failing.contains(&self.made);
        if fails {
            self.faults = faults.saturating_add(1);
        }
        fails
    }
    /// Counts a fault of a call that isn't in the list.
    pub(crate) fn fault(&mut self)
        ensures after { self.new ≡ after_fault self.old }
        ensures in_range { self.old.faults < 2 ^ 64 }
    {
        self.faults = self.faults.saturating_add(1);
    }
}
