//! A caller's seat at a lock.
ghost use Rattle.std.specs.Prelude.{◌≡◌, length};
ghost use Rattle.rs_turn.specs.Origins.{BeginsAsMade};

use crate::board::Place;
use crate::held::Held;
use std::marker::Model;

/// A seat at a `TurnLock`, by which one caller takes its turns. It may go to another thread.
///
/// Clauses see its lock, its number `who`, the `list` of entries that it has seen, which begins the
/// one history of the lock and itself begins with what the value stood for when the lock was made,
/// `made`, at least how many seats of the lock are numbered, and `faults`, how many of its own
/// turns failed.
#[derive(Drop)]
pub struct Seat<V: Held> {
    pub(crate) place: Place<V>,
    pub(crate) who: u64,
    pub(crate) front: u64,
    pub(crate) faults: u64,
}

impl<V: Held> Model for Seat<V> {
    ghost use Rattle.std.specs.Prelude.{◌≡◌, ◌<◌, ◌≤◌, length, []};
    ghost use Rattle.rs_turn.specs.declared.board.Stage.TheVariants.{Idle};
    ghost use Rattle.rs_turn.specs.Origins.{BeginsAsMade};
    ghost use Rattle.rs_turn.specs.Sitting.{Sitting};

    ghost Value = { Sitting V.What V };

    ghost view = { λ s. record { lock = record { table = s.place.table_id; origin = s.place.me.0.origin }; who = s.who; list = s.place.me.0.seen; made = s.place.me.0.made; faults = s.faults } };

    ghost invariant = { λ s. (s.who ≡ s.place.me.0.number) × (0 < s.who) × (s.who ≤ s.place.me.0.made) × (s.front ≡ length s.place.me.0.seen) × (s.place.me.1 ≡ []) × (s.place.me.0.stage ≡ Idle) × BeginsAsMade V.stands s.place.me.0.origin s.place.me.0.seen };
}

impl<V: Held> Seat<V> {
    /// The seat's number. No other seat of its lock has it.
    pub fn who(&self) -> u64
        ensures { result ≡ self.now.who }
    {
        self.who
    }

    /// How many entries the seat has seen. They begin with those that the value stood for when the
    /// lock was made.
    pub fn front(&self) -> u64
        ensures length { result ≡ length self.now.list }
        ensures started { BeginsAsMade V.stands self.now.lock.origin self.now.list }
    {
        self.front
    }

    /// How many of the seat's turns had a failed answer. At the greatest `u64` it stays.
    pub fn faults(&self) -> u64
        ensures { result ≡ self.now.faults }
    {
        self.faults
    }
}
