//! The lock.
ghost use Rattle.std.specs.Prelude.{◌≡◌, ℕ, ◌<◌, List, [], Some, IfOk};
ghost use Rattle.rs_path.specs.declared.log_entry.LogEntry.{LogEntry};
ghost use Rattle.rs_path.specs.Logs.{StartsWith, own};
ghost use Rattle.rs_turn.specs.Origins.{BeginsAs, BeginsAsMade, HasBasisOf};

use crate::board::{FREE, Owned};
use crate::held::Held;
use crate::seat::Seat;
use crate::steps::count;
use crate::waiting::take;
use atomic_table::Table;
use rs_path::NoMemory;
use std::alloc::Global;
use std::marker::Model;
use std::snapshot::Snapshot;
use std::sync::Wait;

/// A lock whose callers take turns, each by a `Seat` of its own, and whose turns make one history.
///
/// Clauses see which lock it is, and its `origin`: the value that it was made with, as it was then.
/// What never changes of the values since is read off it: their `basis`, and that each list that a
/// seat sees begins with one that the origin stood for. A seat is of this lock where the seat's
/// `lock` is the lock.
#[derive(Drop)]
pub struct TurnLock<V: Held> {
    pub(crate) table: Owned<V>,
}

impl<V: Held> Model for TurnLock<V> {
    ghost use Rattle.std.specs.Prelude.{◌≡◌, Some};
    ghost use Rattle.rs_turn.specs.Sitting.{Lock};

    ghost Value = { Lock V };

    ghost view = { λ l. record { table = l.table.shared.table_id; origin = Some l.table.shared.key.value } };

    ghost invariant = { λ l. l.table.shared.table_id.words ≡ 3 };
}

impl<V: Held> TurnLock<V> {
    /// A lock of this value, and its first seat, which has number 1 and has seen the history so
    /// far.
    ///
    /// Each entry that the value stands for so far has `who` 0. The seat's list begins with those
    /// entries, and so does each later one of a seat that is split off it: no seat's list is ever
    /// cut. Where there is no memory the value is dropped.
    pub fn new(alloc: Global, value: V) -> Result<(TurnLock<V>, Seat<V>), NoMemory>
        requires { (h : List (LogEntry V.What)) × V.stands value h × ((n : ℕ) → 0 < n → own n h ≡ []) }
        ensures lock { IfOk result (λ r. r.0.origin ≡ Some value) }
        ensures seat { IfOk result (λ r. (r.1.lock ≡ r.0) × (r.1.who ≡ 1) × (r.1.made ≡ 1) × (r.1.faults ≡ 0) × (own 1 r.1.list ≡ [])) }
        ensures started { IfOk result (λ r. BeginsAs V.stands value r.1.list) }
    {
        let about = Snapshot::of(&value);
        let words = [FREE, value.len(), 1];
        let value = Box::new(alloc, value)?;
        let mut slots = Vec::with_capacity(alloc, 1)?;
        slots.push(Some(value))?;
        let Ok((table, mut place)) = Table::new(alloc, &words, slots, &about) else {
            return Err(NoMemory);
        };
        let front = count(&table.shared, &mut place);
        let seat = Seat {
            place,
            who: 1,
            front,
            faults: 0,
        };
        Ok((TurnLock { table }, seat))
    }

    /// Waits for the seat's last turn and gives the value out.
    ///
    /// The value has the lock's basis and stands for a history which begins with all that the seat
    /// has seen, and with what the value stood for when the lock was made. This takes no memory.
    pub fn close<R: Wait>(self, rt: &R, seat: Seat<V>) -> V
        requires { seat.lock ≡ self }
        ensures basis { HasBasisOf V.basis self.origin result }
        ensures list { (h : List (LogEntry V.What)) × V.stands result h × StartsWith h seat.list × BeginsAsMade V.stands self.origin h }
    {
        let mut place = seat.place;
        let value = take(rt, &self.table.shared, &mut place);
        Box::into_inner(value)
    }
}
