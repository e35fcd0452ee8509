//! What a user's lock holds.

ghost use Rattle.std.specs.Prelude.{◌≡◌};

use rs_face::Keeper;
use rs_record::Record;
use rs_rules::Tree;
use rs_turn::Held;
use rs_user::UserState;

/// A user's state, and the keeper of its rows.
///
/// It stands for the list of the user's records and of who made them, which is a history of which nothing was given up. Where
/// the keeper tells its rows, they are those of that history.
#[derive(Drop)]
pub struct Room<K: Keeper + Drop, T: Tree> {
    pub(crate) state: UserState<T>,
    pub(crate) keeper: K,
}

impl<K: Keeper + Drop, T: Tree> Held for Room<K, T> {
    ghost use Rattle.rs_hall.specs.Rooms.{IsRoom};

    type What = Record;

    /// The user's quota, in bytes.
    type Basis = u64;

    ghost stands = { IsRoom T.stands K.rows K.row_count };

    ghost basis = { λ room. room.state.quota };

    ghost faults = { λ room. K.faults room.keeper };

    fn len(&self) -> u64 {
        self.state.len()
    }
}
