//! Where connections come from.
ghost use Rattle.std.specs.Prelude.{◌≡◌, ℕ, ◌+◌, ◌<◌, ◌≤◌, ◌^◌, List, Option, IfSome, OnOk, length, if◌then◌else◌};
ghost use Rattle.rs_face.specs.Causes.{HasCause};
ghost use Rattle.rs_face.specs.Listening.{GivesNext, after_given, after_end, with_last};

use crate::{Sink, Source};

/// Why no connection was taken.
#[derive(Clone, Copy, Debug, PartialEq, Eq)]
pub enum ListenFault {
    /// The listener failed for good, and counted a fault.
    Failed,
}

/// A connection that was served and taken back.
#[derive(Debug, Drop)]
pub struct Ended<S: Drop, W: Drop> {
    /// Where its bytes came from, as serving left it.
    pub source: S,
    /// Where its replies went, as serving left it.
    pub sink: W,
    /// Whether its serving ended for want of memory.
    pub starved: bool,
}

/// Connections that come from outside, in order: those of a socket that listens.
///
/// The two ends of a connection may be used by another thread than the listener's.
pub trait Listener {
    /// Where the bytes of a connection come from.
    type In: Source + Send + Drop;

    /// Where its replies go.
    type Out: Sink + Send + Drop;

    ghost use Rattle.std.specs.Prelude.{ℕ, List, Option};
    ghost use Rattle.rs_face.specs.declared.listener.Ended.{Ended};

    /// The connections that will come, in order, where the listener tells them.
    ghost coming: { Self → Option (List (Self.In × Self.Out)) };

    /// The connections that were taken back, in order, where the listener tells them.
    ghost back: { Self → Option (List (Ended Self.In Self.Out)) };

    /// How many connections it gave so far. This is known of every listener.
    ghost given: { Self → ℕ };

    /// How often it answered that none will come.
    ghost ends: { Self → ℕ };

    /// How many calls failed so far.
    ghost faults: { Self → ℕ };

    /// Waits for the next connection, and gives its two ends; None where none will come.
    ///
    /// A failed call gives none, and those that will come are as before. A listener never took back more connections than it
    /// gave, and gives fewer than 2^64.
    fn accept(&mut self) -> Result<Option<(Self::In, Self::Out)>, ListenFault>
        ensures next { GivesNext (coming self.old) (coming self.new) result }
        ensures back { back self.new ≡ back self.old }
        ensures given { given self.new ≡ after_given result (given self.old) }
        ensures ends { ends self.new ≡ after_end result (ends self.old) }
        ensures cause { HasCause (faults self.old) (faults self.new) ListenFault.Failed result }
        ensures quiet { OnOk result (faults self.new ≡ faults self.old) }
        ensures fair { IfSome (back self.old) (λ back. length back ≤ given self.old) }
        ensures few { given self.new < 2 ^ 64 };

    /// Takes a connection back that was served; `starved` says that its serving ended for want of memory. It takes no memory.
    ///
    /// A listener that tells wants to have taken back fewer connections than it gave.
    fn end(&mut self, source: Self::In, sink: Self::Out, starved: bool)
        requires out { IfSome (back self.old) (λ back. length back < given self.old) }
        ensures back { back self.new ≡ with_last (back self.old) (record { source = source; sink = sink; starved = starved }) }
        ensures coming { coming self.new ≡ coming self.old }
        ensures given { given self.new ≡ given self.old }
        ensures ends { ends self.new ≡ ends self.old }
        ensures faults { faults self.new ≡ faults self.old };
}
