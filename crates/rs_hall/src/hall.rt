//! Halls.

use crate::room::Room;
use rs_face::Keeper;
use rs_rules::Tree;
use rs_turn::{Seat, TurnLock};

/// A turn lock for each user, by number: no user's turn waits for another's.
#[derive(Drop)]
pub struct Hall<K: Keeper + Drop, T: Tree> {
    pub(crate) locks: Vec<TurnLock<Room<K, T>>>,
}

/// A seat at the lock of each user of a hall, by number.
///
/// The seats are of a hall where the lock of each is the hall's lock of that user.
#[derive(Drop)]
pub struct Seats<K: Keeper + Drop, T: Tree> {
    pub(crate) each: Vec<Seat<Room<K, T>>>,
}
