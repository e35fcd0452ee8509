//! One seat more.
ghost use Rattle.std.specs.Prelude.{◌≡◌, ◌≤◌, IfOk, IfErr};
ghost use Rattle.rs_turn.specs.Limits.{max_seats};
ghost use Rattle.rs_turn.specs.Sitting.{IsSplitFrom};

use crate::held::Held;
use crate::limits::MAX_SEATS;
use crate::lock::TurnLock;
use crate::seat::Seat;
use crate::seat_fault::SeatFault;
use crate::steps::{number, part, see};

impl<V: Held> TurnLock<V> {
    /// A new seat, which has seen what `from` has.
    ///
    /// Its number is greater than that of `from`, and than each number that `from` knows of. `Full`
    /// comes exactly where 4,294,967,295 seats or more were numbered when `from` looked, or when it
    /// drew the number; it carries how many there were when `from` looked last. This takes no
    /// memory.
    pub fn seat(&self, from: &mut Seat<V>) -> Result<Seat<V>, SeatFault>
        requires { from.old.lock ≡ self.now }
        ensures from { (from.new ≡ record from.old { made = from.new.made }) × (from.old.made ≤ from.new.made) }
        ensures seat { IfOk result (λ s. IsSplitFrom from.old from.new s) }
        ensures full { IfErr result (λ f. (f ≡ SeatFault.Full from.new.made) × (max_seats ≤ from.new.made)) }
    {
        let board = &self.table.shared;
        let made = see(board, &mut from.place);
        if made >= MAX_SEATS {
            return Err(SeatFault::Full { made });
        }
        let before = number(board, &mut from.place);
        if before >= MAX_SEATS {
            let made = see(board, &mut from.place);
            return Err(SeatFault::Full { made });
        }
        let place = part(board, &mut from.place);
        Ok(Seat {
            place,
            who: before + 1,
            front: from.front,
            faults: 0,
        })
    }
}
