//! A turn.
ghost use Rattle.std.specs.Prelude.{◌≡◌, ℕ, ◌+◌, ◌^◌, ◌<◌, cond, List, [], length};
ghost use Rattle.rs_face.specs.Causes.{one_more};
ghost use Rattle.rs_path.specs.declared.log_entry.LogEntry.{LogEntry};
ghost use Rattle.rs_turn.specs.Origins.{BeginsAsMade};
ghost use Rattle.rs_turn.specs.Places.{IsPlaceOf, IsAtRest};
ghost use Rattle.rs_turn.specs.Plays.{having_seen};
ghost use Rattle.rs_turn.specs.TookTurn.{TookTurn, Acted};

use crate::board::{Board, Place};
use crate::deed::Deed;
use crate::held::Held;
use crate::lock::TurnLock;
use crate::seat::Seat;
use crate::steps::{book, pass};
use crate::waiting::take;
use std::marker::Brand;
use std::snapshot::Snapshot;
use std::sync::Wait;

/// What came of a deed: its answer, by how much the list grew, and its length.
struct Done<A> {
    answer: A,
    more: u64,
    front: u64,
}

/// Does the deed.
fn act<V: Held, D: Deed<V>>(deed: &mut D, value: &mut V, who: u64) -> Done<D::Answer>
    requires { (h : List (LogEntry V.What)) × V.stands value.old h }
    ensures basis { V.basis value.new ≡ V.basis value.old }
    ensures acted { (h : List (LogEntry V.What)) → V.stands value.old h → Acted V.stands V.basis (D.adds deed.old) (D.shows deed.old) value.old value.new h who result.more result.front result.answer deed.new }
{
    let before = value.len();
    let answer = deed.act(value, who);
    let front = value.len();
    Done {
        answer,
        more: front - before,
        front,
    }
}

/// Takes a turn: the answer, and how many entries the seat has seen then.
fn turn<V: Held, D: Deed<V>, R: Wait>(
    rt: &R,
    board: &Board<V>,
    place: &mut Place<V>,
    who: u64,
    deed: &mut D,
) -> (D::Answer, u64)
    requires place { IsPlaceOf board.now.table_id place.old }
    requires rest { IsAtRest place.old }
    requires who { who ≡ place.old.me.0.number }
    requires started { BeginsAsMade V.stands place.old.me.0.origin place.old.me.0.seen }
    ensures table { place.new.table_id ≡ place.old.table_id }
    ensures rest { (place.new.me.1 ≡ []) × (place.new.me.0 ≡ having_seen place.old.me.0 place.new.me.0.seen) }
    ensures started { BeginsAsMade V.stands place.old.me.0.origin place.new.me.0.seen }
    ensures turn { TookTurn V.stands V.basis (D.adds deed.old) (D.shows deed.old) place.old.me.0.origin who place.old.me.0.seen place.new.me.0.seen result.0 deed.new }
    ensures front { result.1 ≡ length place.new.me.0.seen }
{
    let mut value = take(rt, board, place);
    let asked = Snapshot::of(&*deed);
    let was = Snapshot::of(&*value);
    let done = act(deed, &mut *value, who);
    book::<Brand, V, D>(board, place, done.more, &asked, &was, who);
    pass(board, place, value);
    let Done {
        answer,
        more: _,
        front,
    } = done;
    (answer, front)
}

impl<V: Held> TurnLock<V> {
    /// Waits for the seat's turn and does the deed.
    ///
    /// `act` is called once, on a value that has the origin's basis and stands for a history which
    /// begins with what the origin stood for and with all that the seat had seen, and the answer is
    /// that call's. The seat has then seen the history as it was after the call. Its `faults` rise
    /// by one where the answer is a failed one, and at the greatest `u64` they stay. The lock's own
    /// part takes no memory. A deed that takes a turn at the same lock waits for ever.
    pub fn with_turn<D: Deed<V>, R: Wait>(
        &self,
        rt: &R,
        seat: &mut Seat<V>,
        deed: &mut D,
    ) -> D::Answer
        requires { seat.old.lock ≡ self.now }
        ensures turn { TookTurn V.stands V.basis (D.adds deed.old) (D.shows deed.old) self.now.origin seat.old.who seat.old.list seat.new.list result deed.new }
        ensures started { BeginsAsMade V.stands self.now.origin seat.new.list }
        ensures faults { seat.new.faults ≡ cond (D.is_failed result) (one_more seat.old.faults) seat.old.faults }
        ensures rest { seat.new ≡ record seat.old { list = seat.new.list; faults = seat.new.faults } }
    {
        let board = &self.table.shared;
        let (answer, front) = turn(rt, board, &mut seat.place, seat.who, deed);
        seat.front = front;
        if D::failed(&answer) {
            seat.faults = seat.faults.saturating_add(1);
        }
        answer
    }
}
