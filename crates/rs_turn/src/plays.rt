//! What each step on the table tells. These types are for the proofs alone.
ghost use Rattle.std.specs.Prelude.{Option, None};
ghost use Rattle.rs_turn.specs.Origins.{StandsFrom};
ghost use Rattle.rs_turn.specs.Plays.{Grabs, Books, Passes, Sees, Numbers, CountsLog, Adopts, at_stage, parted, informed, spent};
ghost use Rattle.rs_turn.specs.declared.board.Stage.TheVariants.{Idle};

use crate::board::View;
use crate::held::Held;
use atomic_table::{Join, Play, Split};
use std::alloc::Global;
use std::marker::{Brand, PhantomData};

/// The seat takes the value, if it is free.
pub(crate) struct Grab;

impl<V: Held> Play<Option<Box<V, Global>>, View<V::What, V>> for Grab {
    ghost then = { λ _ m r n. Grabs (λ o b. StandsFrom V.stands V.basis o b.value) m r n };
}

/// The entry that a turn adds, if it adds one. A call at `Brand` picks it.
pub(crate) trait Told<W> {
    ghost entry: { Option W };
}

impl<W> Told<W> for Brand {
    ghost entry = { None };
}

/// The history gets the entry.
pub(crate) struct Book<E> {
    entry: PhantomData<E>,
}

impl<S, W, O, E: Told<W>> Play<S, View<W, O>> for Book<E> {
    ghost then = { λ _ m r n. Books E.entry m r n };
}

/// The value comes home, and is free.
pub(crate) struct Pass;

impl<S, W, O> Play<S, View<W, O>> for Pass {
    ghost then = { λ _ m r n. Passes m r n };
}

/// How many seats were numbered is looked at.
pub(crate) struct See;

impl<S, W, O> Play<S, View<W, O>> for See {
    ghost then = { λ _ m r n. Sees m r n };
}

/// One more seat is numbered.
pub(crate) struct Number;

impl<S, W, O> Play<S, View<W, O>> for Number {
    ghost then = { λ _ m r n. Numbers m r n };
}

/// The whole history is seen.
pub(crate) struct Count;

impl<V: Held> Play<Option<Box<V, Global>>, View<V::What, V>> for Count {
    ghost then = { λ _ m r n. CountsLog V.stands m r n };
}

/// What the other seat told is seen.
pub(crate) struct Adopt;

impl<S, W, O> Play<S, View<W, O>> for Adopt {
    ghost then = { λ _ m r n. Adopts m r n };
}

/// A new seat, where a number was drawn, and else a note of what the seat has seen.
pub(crate) struct Part;

impl<W, O> Split<View<W, O>> for Part {
    ghost left = { λ v. at_stage v Idle };

    ghost right = { parted };
}

/// A note is read.
pub(crate) struct Inform;

impl<W, O> Join<View<W, O>> for Inform {
    ghost both = { informed };

    ghost spent = { spent };
}
