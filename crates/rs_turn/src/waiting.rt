//! Waiting for the turn.
ghost use Rattle.std.specs.Prelude.{◌≡◌, true, false};
ghost use Rattle.rs_turn.specs.Origins.{StandsFrom};
ghost use Rattle.rs_turn.specs.Places.{IsPlaceOf, IsAtRest, HasTaken};
ghost use Rattle.rs_turn.specs.Plays.{TakesValue};

use crate::board::{Board, FREE, HELD, Place, TURN, WANTED};
use crate::held::Held;
use crate::steps::grab;
use std::alloc::Global;
use std::hint;
use std::sync::Wait;

/// So often a seat looks before it sleeps.
const LOOKS: u32 = 64;

/// Takes the value if it is free within a few looks, and says whether. Where another sleeps already
/// it looks no more.
fn glance<V: Held>(board: &Board<V>, place: &mut Place<V>) -> bool
    requires place { IsPlaceOf board.now.table_id place.old }
    requires rest { IsAtRest place.old }
    ensures table { place.new.table_id ≡ place.old.table_id }
    ensures taken { result ≡ true → TakesValue (λ o b. StandsFrom V.stands V.basis o b.value) place.old.me.0 place.new.me }
    ensures missed { result ≡ false → place.new.me ≡ place.old.me }
{
    for _ in 0..LOOKS {
        let found = board.peek(TURN);
        if found == FREE && grab(board, place, HELD) == FREE {
            return true;
        }
        if found == WANTED {
            return false;
        }
        hint::spin_loop();
    }
    false
}

/// Takes the value, and sleeps until it is free where a glance didn't get it.
fn wait<V: Held, R: Wait>(rt: &R, board: &Board<V>, place: &mut Place<V>)
    requires place { IsPlaceOf board.now.table_id place.old }
    requires rest { IsAtRest place.old }
    ensures table { place.new.table_id ≡ place.old.table_id }
    ensures taken { TakesValue (λ o b. StandsFrom V.stands V.basis o b.value) place.old.me.0 place.new.me }
{
    if glance(board, place) {
        return;
    }
    for _ in rt.forever() {
        // It sleeps only after it has left `WANTED`, so that the pass wakes it or another.
        if grab(board, place, WANTED) == FREE {
            return;
        }
        board.park(rt, TURN, WANTED as u32);
    }
    unreachable!()
}

/// Waits for the turn and takes the value.
pub(crate) fn take<V: Held, R: Wait>(
    rt: &R,
    board: &Board<V>,
    place: &mut Place<V>,
) -> Box<V, Global>
    requires place { IsPlaceOf board.now.table_id place.old }
    requires rest { IsAtRest place.old }
    ensures table { place.new.table_id ≡ place.old.table_id }
    ensures taken { HasTaken (λ o b. StandsFrom V.stands V.basis o b.value) place.old.me.0 result place.new.me }
{
    wait(rt, board, place);
    board.exchange(place, 0, None).unwrap()
}
