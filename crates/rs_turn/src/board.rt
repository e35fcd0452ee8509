//! The table that the seats of a lock share.
//!
//! Word 0 says whether a seat holds the value: `FREE`, `HELD`, or `WANTED` where one holds it and
//! another may sleep until it comes home. Word 1 is the length of the history, and word 2 the
//! number of the last seat that was numbered. The one slot holds the value, but for the time from
//! the grab that finds word 0 free to the pass that frees it.
use crate::held::Held;
use atomic_table::{Seat, Shared, Table, TableRule};
use rs_path::LogEntry;
use std::alloc::Global;
use std::collections::LinkedList;
use std::snapshot::Snapshot;

pub(crate) const TURN: usize = 0;

pub(crate) const COUNT: usize = 1;

pub(crate) const MADE: usize = 2;

/// No seat holds the value.
pub(crate) const FREE: u64 = 0;

/// A seat holds the value, and none sleeps until it comes home.
pub(crate) const HELD: u64 = 1;

/// A seat holds the value, and another may sleep until it comes home.
pub(crate) const WANTED: u64 = 2;

/// What a seat is about. No value of it is made.
pub enum Stage {
    Idle,
    /// It has the value.
    Holding,
    /// It has looked at how many seats were numbered, and may number one.
    Looked,
    /// It has drawn this number for a new seat.
    Drew(u64),
}

/// What a seat knows. No value of it is made.
pub struct View<W, O> {
    /// The value that the lock was made with.
    pub origin: Option<O>,
    /// The history as far as the seat has seen it.
    pub seen: LinkedList<LogEntry<W>>,
    /// What another seat told it of the history.
    pub told: LinkedList<LogEntry<W>>,
    /// The seat's number. 0 has none: a note from one seat to another.
    pub number: u64,
    /// At least so many seats were numbered.
    pub made: u64,
    pub stage: Stage,
}

/// The rule of the table.
pub struct Turns;

impl<V: Held> TableRule<Option<Box<V, Global>>, View<V::What, V>, Snapshot<V>> for Turns {
    ghost use Rattle.rs_turn.specs.Origins.{StandsFrom};
    ghost use Rattle.rs_turn.specs.Rule.{TurnRule, opened};

    ghost holds = { λ k. TurnRule V.stands (λ o b. StandsFrom V.stands V.basis o b.value) k.value };

    ghost first = { λ k. opened k.value };
}

type Slot<V> = Option<Box<V, Global>>;

type Known<V> = View<<V as Held>::What, V>;

pub(crate) type Owned<V> = Table<Slot<V>, Known<V>, Snapshot<V>, Turns, Global>;

pub(crate) type Board<V> = Shared<Slot<V>, Known<V>, Snapshot<V>, Turns>;

pub(crate) type Place<V> = Seat<Slot<V>, Known<V>>;
