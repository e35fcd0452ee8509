//! A listener in memory that fails by a list of calls.
ghost use Rattle.std.specs.Prelude.{◌≡◌, ◌↔◌, ◌<◌, ◌≤◌, ◌^◌, [], ◌∷◌, ◌++◌, Some, IfOk, IsErr, IsTrue, length};
ghost use Rattle.rs_face.specs.Calls.{no_calls, fails_next, after_call};
ghost use Rattle.rs_face.specs.Causes.{HasCause};
ghost use Rattle.rs_face.specs.Listening.{GivesNext, after_given, after_end};

use crate::calls::Calls;
use crate::{Ended, ListenFault, Listener, MemSink, MemSource, NoMemory};
use std::marker::Model;

/// A listener that holds its connections in memory, gives them in order, and fails where it is told to. Contracts see it as a
/// `ListenerState`: the connections that will come, those that were taken back, how many it gave, how often it answered that
/// none will come, and its calls of `accept`.
#[derive(Debug, Drop)]
pub struct MemListener {
    // The last that will come is the first in the list.
    coming: Vec<(MemSource, MemSink)>,
    back: Vec<Ended<MemSource, MemSink>>,
    given: u64,
    ends: u64,
    calls: Calls,
}

impl Model for MemListener {
    ghost use Rattle.std.specs.Prelude.{◌≡◌, ◌≤◌, ◌+◌, reverse, vec_len, vec_capacity};
    ghost use Rattle.rs_face.specs.Listeners.{ListenerState};

    ghost Value = { ListenerState };

    ghost view = { λ s. record {
      coming = reverse s.coming.items;
      back = s.back.items;
      given = s.given;
      ends = s.ends;
      calls = s.calls;
    } };

    ghost invariant = { λ s. (vec_len s.back ≤ s.given) × (s.given + vec_len s.coming ≤ vec_capacity s.back) };
}

impl MemListener {
    /// A listener that gives these connections, the first in the list first. `failing` has the numbers of the calls of `accept`
    /// that fail, counted from 1. Room is made for all that will be taken back.
    pub fn new(
        connections: Vec<(MemSource, MemSink)>,
        failing: Vec<u64>,
    ) -> Result<MemListener, NoMemory>
        ensures { IfOk result (λ listener. listener ≡ record {
          coming = connections.items;
          back = [];
          given = 0;
          ends = 0;
          calls = no_calls failing.items;
        }) }
    {
        let mut coming = connections;
        let back = Vec::with_capacity(*coming.allocator(), coming.len())?;
        coming.as_mut_slice().reverse();
        Ok(MemListener {
            coming,
            back,
            given: 0,
            ends: 0,
            calls: Calls::new(failing),
        })
    }

    /// The connections that were taken back, in order.
    pub fn ended(&self) -> &[Ended<MemSource, MemSink>]
        ensures { result.now ≡ self.now.back }
    {
        self.back.as_slice()
    }
}

impl Listener for MemListener {
    type In = MemSource;

    type Out = MemSink;

    ghost use Rattle.std.specs.Prelude.{Some};

    ghost coming = { λ s. Some s.coming };

    ghost back = { λ s. Some s.back };

    ghost given = { λ s. s.given };

    ghost ends = { λ s. s.ends };

    ghost faults = { λ s. s.calls.faults };

    fn accept(&mut self) -> Result<Option<(MemSource, MemSink)>, ListenFault>
        ensures next { GivesNext (Some self.old.coming) (Some self.new.coming) result }
        ensures back { self.new.back ≡ self.old.back }
        ensures given { self.new.given ≡ after_given result self.old.given }
        ensures ends { self.new.ends ≡ after_end result self.old.ends }
        ensures cause { HasCause self.old.calls.faults self.new.calls.faults ListenFault.Failed result }
        ensures fair { length self.old.back ≤ self.old.given }
        ensures few { self.new.given < 2 ^ 64 }
        // A call fails exactly where its number is in the list.
        ensures fails { IsErr result ↔ IsTrue (fails_next self.old.calls) }
        ensures calls { self.new.calls ≡ after_call self.old.calls }
    {
        if self.calls.fails() {
            return Err(ListenFault::Failed);
        }
        match self.coming.pop() {
            None => {
                self.ends = self.ends.saturating_add(1);
                Ok(None)
            }
            Some(connection) => {
                self.given += 1;
                Ok(Some(connection))
            }
        }
    }

    fn end(&mut self, source: MemSource, sink: MemSink, starved: bool)
        requires out { length self.old.back < self.old.given }
        ensures back { self.new.back ≡ self.old.back ++ record { source = source; sink = sink; starved = starved } ∷ [] }
        ensures coming { self.new.coming ≡ self.old.coming }
        ensures given { self.new.given ≡ self.old.given }
        ensures ends { self.new.ends ≡ self.old.ends }
        ensures calls { self.new.calls ≡ self.old.calls }
    {
        let _ = self.back.push(Ended {
            source,
            sink,
            starved,
        });
    }
}
