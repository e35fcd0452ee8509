//! Seats, split.

ghost use Rattle.std.specs.Prelude.{◌≡◌, IfOk, IfErr};
ghost use Rattle.rs_turn.specs.Sitting.{IsSplitFrom};
ghost use Rattle.rs_hall.specs.Abreast.{EachPair, EachTriple};
ghost use Rattle.rs_hall.specs.Halls.{locks_of};
ghost use Rattle.rs_hall.specs.Splits.{KnowsMore, SplitRefuses, split_fault_of};

use crate::hall::{Hall, Seats};
use crate::split_fault::SplitFault;
use rs_face::Keeper;
use rs_rules::Tree;
use rs_turn::SeatFault;

impl<K: Keeper + Drop, T: Tree> Seats<K, T> {
    /// One seat more at the lock of each user, each split off this hall's seat of that user, in the order of users.
    ///
    /// A new seat has seen what its parent has, and no turn of it was taken. Its number is above its parent's and above each
    /// that its parent knows of, its own included from then on: so of the seats that are split off the same seats, one after
    /// another, no two of a user have one number. `Full` is handed on from the first lock that answers it. Memory is taken
    /// first: where it runs out, no seat was numbered.
    pub fn split(&mut self, hall: &Hall<K, T>) -> Result<Seats<K, T>, SplitFault>
        requires own { locks_of self.old.each.items ≡ hall.now.locks.items }
        ensures known { EachPair KnowsMore self.old.each.items self.new.each.items }
        ensures own { locks_of self.new.each.items ≡ hall.now.locks.items }
        ensures split { IfOk result (λ seats. EachTriple IsSplitFrom self.old.each.items self.new.each.items seats.each.items) }
        ensures hall { IfOk result (λ seats. locks_of seats.each.items ≡ hall.now.locks.items) }
        ensures refused { IfErr result (λ fault. SplitRefuses fault self.old.each.items self.new.each.items) }
    {
        let mut each = Vec::with_capacity(*self.each.allocator(), self.each.len())?;
        for place in 0..self.each.len() {
            match hall.locks[place].seat(&mut self.each[place]) {
                Ok(seat) => each.push(seat)?,
                Err(fault) => return Err(handed_on(fault)),
            }
        }
        Ok(Seats { each })
    }
}

// What is told where a lock has no seat left.
fn handed_on(fault: SeatFault) -> SplitFault
    ensures { result ≡ split_fault_of fault }
{
    match fault {
        SeatFault::Full { made } => SplitFault::Full { made },
    }
}
