//! Halls, closed.

ghost use Rattle.std.specs.Prelude.{◌≡◌, IfOk};
ghost use Rattle.rs_hall.specs.Abreast.{EachPair};
ghost use Rattle.rs_hall.specs.Closings.{ComesBack};
ghost use Rattle.rs_hall.specs.Halls.{locks_of};

use crate::hall::{Hall, Seats};
use rs_face::Keeper;
use rs_path::NoMemory;
use rs_rules::Tree;
use std::sync::Wait;

impl<K: Keeper + Drop, T: Tree> Hall<K, T> {
    /// Waits for a last turn of each user's seat, and gives the keepers out, in the order of users.
    ///
    /// Each keeper comes with a state that stands for a list which begins with what the user's seat has seen, and with what
    /// the lock's first room stood for, under that room's quota; told rows are those of that list. Memory is taken first:
    /// where it runs out, the hall and its keepers are gone.
    pub fn close<R: Wait>(self, rt: &R, seats: Seats<K, T>) -> Result<Vec<K>, NoMemory>
        requires own { locks_of seats.each.items ≡ self.locks.items }
        ensures keepers { IfOk result (λ keepers. EachPair (ComesBack T.stands K.rows K.row_count) seats.each.items keepers.items) }
    {
        let Hall { mut locks } = self;
        let Seats { mut each } = seats;
        let mut keepers = Vec::with_capacity(*locks.allocator(), locks.len())?;
        while let Some(lock) = locks.pop() {
            let Some(seat) = each.pop() else {
                unreachable!();
            };
            let room = lock.close(rt, seat);
            keepers.push(room.keeper)?;
        }
        keepers.reverse();
        Ok(keepers)
    }
}
