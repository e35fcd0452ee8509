//! The single steps of a seat on the table.
ghost use Rattle.std.specs.Prelude.{◌≡◌, ℕ, ◌+◌, ◌^◌, ◌<◌, ◌⊎◌, [], ◌∷◌, length};
ghost use Rattle.rs_turn.specs.declared.board.Stage.TheVariants.{Idle, Holding, Looked, Drew};
ghost use Rattle.rs_turn.specs.Places.{IsPlaceOf, IsAtRest, grown_by};
ghost use Rattle.rs_turn.specs.Plays.{Grabs, Books, Passes, Sees, Numbers, CountsLog, Adopts, at_stage, parted, informed, spent};
ghost use Rattle.rs_path.specs.Logs.{StartsWith};
ghost use Rattle.rs_turn.specs.Origins.{StandsFrom};

use crate::board::{Board, COUNT, FREE, MADE, Place, TURN, WANTED};
use crate::held::Held;
use crate::plays::{Adopt, Book, Count, Grab, Inform, Number, Part, Pass, See, Told};
use std::alloc::Global;
use std::snapshot::Snapshot;

/// Takes the value if it is free, and leaves this mark, or a greater one that stood there: what was
/// found.
pub(crate) fn grab<V: Held>(board: &Board<V>, place: &mut Place<V>, mark: u64) -> u64
    requires place { IsPlaceOf board.now.table_id place.old }
    requires rest { IsAtRest place.old }
    requires mark { 0 < mark }
    ensures table { place.new.table_id ≡ place.old.table_id }
    ensures grabbed { Grabs (λ o b. StandsFrom V.stands V.basis o b.value) place.old.me result place.new.me }
{
    board.fetch_max::<Grab>(place, TURN, mark)
}

/// Adds the entry to the history, if there is one.
pub(crate) fn book<E: Told<V::What>, V: Held, D>(
    board: &Board<V>,
    place: &mut Place<V>,
    more: u64,
    _deed: &Snapshot<D>,
    _value: &Snapshot<V>,
    _who: u64,
)
    requires place { IsPlaceOf board.now.table_id place.old }
    requires holds { place.old.me.0.stage ≡ Holding }
    requires entry { more ≡ grown_by E.entry }
    requires room { length place.old.me.0.seen + more < 2 ^ 64 }
    ensures table { place.new.table_id ≡ place.old.table_id }
    ensures booked { Books E.entry place.old.me 0 place.new.me }
{
    board.fetch_add::<Book<E>>(place, COUNT, more);
}

/// Puts the value back, and wakes one who may sleep.
pub(crate) fn pass<V: Held>(board: &Board<V>, place: &mut Place<V>, value: Box<V, Global>)
    requires place { IsPlaceOf board.now.table_id place.old }
    requires holds { (place.old.me.1 ≡ (0, None) ∷ []) × (place.old.me.0.stage ≡ Holding) }
    requires value { (o : V) × (place.old.me.0.origin ≡ Some o) × StandsFrom V.stands V.basis o value.value place.old.me.0.seen }
    ensures table { place.new.table_id ≡ place.old.table_id }
    ensures passed { Passes place.old.me 0 place.new.me }
{
    let empty = board.exchange(place, 0, Some(value));
    let None = empty else { unreachable!() };
    // Who sleeps has left `WANTED` before, and who is woken leaves it again for the others.
    if board.swap::<Pass>(place, TURN, FREE) == WANTED {
        board.wake_one(TURN);
    }
}

/// How many seats were numbered.
pub(crate) fn see<V: Held>(board: &Board<V>, place: &mut Place<V>) -> u64
    requires place { IsPlaceOf board.now.table_id place.old }
    requires rest { IsAtRest place.old }
    ensures table { place.new.table_id ≡ place.old.table_id }
    ensures seen { Sees place.old.me result place.new.me }
{
    board.load::<See>(place, MADE)
}

/// Numbers one more seat: how many were numbered before.
pub(crate) fn number<V: Held>(board: &Board<V>, place: &mut Place<V>) -> u64
    requires place { IsPlaceOf board.now.table_id place.old }
    requires looked { place.old.me.0.stage ≡ Looked }
    ensures table { place.new.table_id ≡ place.old.table_id }
    ensures numbered { Numbers place.old.me result place.new.me }
{
    board.fetch_add::<Number>(place, MADE, 1)
}

/// The length of the history, which the seat has seen now.
pub(crate) fn count<V: Held>(board: &Board<V>, place: &mut Place<V>) -> u64
    requires place { IsPlaceOf board.now.table_id place.old }
    requires rest { IsAtRest place.old }
    ensures table { place.new.table_id ≡ place.old.table_id }
    ensures counted { CountsLog V.stands place.old.me result place.new.me }
{
    board.load::<Count>(place, COUNT)
}

/// The seat has seen what it was told.
pub(crate) fn adopt<V: Held>(board: &Board<V>, place: &mut Place<V>)
    requires place { IsPlaceOf board.now.table_id place.old }
    requires rest { IsAtRest place.old }
    requires told { StartsWith place.old.me.0.told place.old.me.0.seen }
    ensures table { place.new.table_id ≡ place.old.table_id }
    ensures adopted { Adopts place.old.me 0 place.new.me }
{
    board.load::<Adopt>(place, COUNT);
}

/// A new seat, where a number was drawn for it, and else a note of what the seat has seen.
pub(crate) fn part<V: Held>(board: &Board<V>, place: &mut Place<V>) -> Place<V>
    requires place { IsPlaceOf board.now.table_id place.old }
    requires quiet { (place.old.me.0.stage ≡ Idle) ⊎ ((n : ℕ) × (place.old.me.0.stage ≡ Drew n)) }
    ensures table { (place.new.table_id ≡ place.old.table_id) × (result.table_id ≡ place.old.table_id) }
    ensures parted { (place.new.me ≡ (at_stage place.old.me.0 Idle, place.old.me.1)) × (result.me ≡ (parted place.old.me.0, [])) }
{
    board.split_seat::<Part>(place)
}

/// Tells the seat what the note says.
pub(crate) fn inform<V: Held>(board: &Board<V>, place: &mut Place<V>, note: Place<V>)
    requires place { IsPlaceOf board.now.table_id place.old }
    requires note { (note.table_id ≡ place.old.table_id) × (note.me.1 ≡ []) × (note.me.0.stage ≡ Idle) × (note.me.0.number ≡ 0) }
    requires rest { IsAtRest place.old }
    ensures table { place.new.table_id ≡ place.old.table_id }
    ensures informed { place.new.me ≡ (informed place.old.me.0 note.me.0, place.old.me.1) }
{
    board.join_seat::<Inform>(place, note);
}
