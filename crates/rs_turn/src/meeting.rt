//! Two seats meet.
ghost use Rattle.std.specs.Prelude.{◌≡◌, length};
ghost use Rattle.rs_path.specs.Logs.{StartsWith, own};
ghost use Rattle.rs_turn.specs.Origins.{BeginsAsMade};

use crate::held::Held;
use crate::lock::TurnLock;
use crate::seat::Seat;
use crate::steps::{adopt, count, inform, part};

impl<V: Held> TurnLock<V> {
    /// Gives both seats one list, of which each old one is a prefix, and answers its length.
    ///
    /// The entries of each of the two seats in it are those that it had in its old list: the ones
    /// that its own turns added. This takes no memory.
    pub fn meet(&self, one: &mut Seat<V>, other: &mut Seat<V>) -> u64
        requires one { one.old.lock ≡ self.now }
        requires other { other.old.lock ≡ self.now }
        ensures one { one.new ≡ record one.old { list = one.new.list } }
        ensures other { other.new ≡ record other.old { list = one.new.list } }
        ensures begins { StartsWith one.new.list one.old.list × StartsWith one.new.list other.old.list }
        ensures started { BeginsAsMade V.stands self.now.origin one.new.list }
        ensures mine { (own one.old.who one.new.list ≡ own one.old.who one.old.list) × (own other.old.who one.new.list ≡ own other.old.who other.old.list) }
        ensures length { result ≡ length one.new.list }
    {
        let board = &self.table.shared;
        let note = part(board, &mut one.place);
        inform(board, &mut other.place, note);
        let front = count(board, &mut other.place);
        let note = part(board, &mut other.place);
        inform(board, &mut one.place, note);
        adopt(board, &mut one.place);
        one.front = front;
        other.front = front;
        front
    }
}
