//! Desks that share a hall.

ghost use Rattle.std.specs.Prelude.{◌≡◌, ◌<◌, ◌≤◌, true, false, length};
ghost use Rattle.rs_path.specs.Logs.{StartsWith};
ghost use Rattle.rs_rules.specs.Growth.{Turned};
ghost use Rattle.rs_hall.specs.Rooms.{history_of};
ghost use Rattle.rs_hall.specs.Halls.{HasMet, list_at, locks_of, quota_of_origin};

use crate::ask::Ask;
use crate::gate::Gate;
use crate::hall::{Hall, Seats};
use crate::room::Room;
use rs_face::Keeper;
use rs_rules::{Desk, DeskFault, Request, Tree, Turn, growth_laws};
use rs_turn::{Seat, TurnLock};
use rs_user::PreparedRequest;
use std::sync::Wait;

/// A desk over a hall, by a seat at each user's lock.
///
/// Other desks of the hall make entries too, each under the numbers of its own seats. The desk stands for exactly one history
/// of each user: the list that its seat has seen. A request is decided in a turn of its user's lock, on all that was done
/// there before; no turn holds another user's lock. It is prepared before: a body is digested, and the row of its record
/// spelled, while nobody waits for it. The gate is told of each turn.
///
/// A turn may wait, and it isn't said that it ever comes. A gate that takes a turn of the same user waits for ever.
#[derive(Drop)]
pub struct SharedDesk<'h, K: Keeper + Drop, T: Tree, G: Gate, R> {
    pub(crate) rt: &'h R,
    pub(crate) hall: &'h Hall<K, T>,
    pub(crate) gate: &'h G,
    pub(crate) seats: Seats<K, T>,
    pub(crate) ghost own: { locks_of seats.each.items ≡ hall.now.locks.items },
}

impl<'h, K: Keeper + Drop, T: Tree, G: Gate, R> SharedDesk<'h, K, T, G, R> {
    /// A desk over the hall, by these seats of it.
    pub fn new(
        rt: &'h R,
        hall: &'h Hall<K, T>,
        seats: Seats<K, T>,
        gate: &'h G,
    ) -> SharedDesk<'h, K, T, G, R>
        requires { locks_of seats.each.items ≡ hall.now.locks.items }
        ensures seats { result.seats ≡ seats }
        ensures hall { result.hall.now ≡ hall.now }
    {
        SharedDesk {
            rt,
            hall,
            gate,
            seats,
        }
    }

    /// How many entries of the user the desk has seen. This takes no memory.
    pub fn front(&self, user: u32) -> u64
        requires { user < length self.now.seats.each.items }
        ensures { result ≡ length (list_at self.now.seats.each.items user) }
    {
        self.seats.each[user as usize].front()
    }

    /// Gives both desks one list of the user, of which each old one is a prefix, and answers its length.
    ///
    /// Both desks are of one hall. The entries of each of the two seats in that list are those that it had in its old one: the
    /// ones that its own turns added. The lists of other users stay as they are. This takes no memory, and waits for nobody.
    pub fn meet(&mut self, other: &mut SharedDesk<'h, K, T, G, R>, user: u32) -> u64
        requires one_hall { locks_of other.old.seats.each.items ≡ locks_of self.old.seats.each.items }
        requires user { user < length self.old.seats.each.items }
        ensures one_list { list_at other.new.seats.each.items user ≡ list_at self.new.seats.each.items user }
        ensures length { result ≡ length (list_at self.new.seats.each.items user) }
        ensures self_later { HasMet self.old.seats.each.items self.new.seats.each.items user }
        ensures other_later { HasMet other.old.seats.each.items other.new.seats.each.items user }
    {
        let place = user as usize;
        self.hall.locks[place].meet(&mut self.seats.each[place], &mut other.seats.each[place])
    }

    /// The seats, as they stand.
    pub fn into_seats(self) -> Seats<K, T>
        ensures { result ≡ self.entry.seats }
    {
        self.seats
    }
}

// Asks the prepared request in a turn of its user's lock.
fn ask<K: Keeper + Drop, T: Tree, G: Gate, R: Wait>(
    rt: &R,
    lock: &TurnLock<Room<K, T>>,
    seat: &mut Seat<Room<K, T>>,
    gate: &G,
    user: u32,
    prepared: &PreparedRequest<'_>,
) -> Result<Turn, DeskFault>
    requires lock { seat.old.lock ≡ lock.now }
    ensures rest { seat.new ≡ record seat.old { list = seat.new.list; faults = seat.new.faults } }
    ensures begins { StartsWith seat.new.list seat.old.list }
    ensures later { seat.old.faults ≤ seat.new.faults }
    ensures turned { Turned (history_of seat.old.list) (history_of seat.new.list) (quota_of_origin seat.old.lock.origin) seat.old.who false
        prepared.now result seat.old.faults seat.new.faults }
{
    growth_laws();
    // Says that the count is one of 64 bits.
    seat.faults();
    let mut ask = Ask {
        prepared,
        gate,
        user,
    };
    lock.with_turn(rt, seat, &mut ask)
}

impl<'h, K: Keeper + Drop, T: Tree, G: Gate, R: Wait> Desk for SharedDesk<'h, K, T, G, R> {
    ghost use Rattle.std.specs.Prelude.{◌≡◌, ◌<◌, ℕ, false, length, refl};
    ghost use Rattle.std.proofs.Common.{ap};
    ghost use Rattle.rs_hall.specs.Rooms.{history_of};
    ghost use Rattle.rs_hall.specs.Halls.{AreLater, by_user, faults_in, list_at, locks_of, numbers_of, quotas_of};
    ghost use Rattle.rs_hall.specs.LaterSeats.{later_served, seats_go_on, seats_stay};

    ghost serves = { λ desk user. user < length desk.seats.each.items };

    ghost stands = { λ desk user h. h ≡ history_of (list_at desk.seats.each.items user) };

    ghost quota = { λ desk. by_user (quotas_of (locks_of desk.seats.each.items)) };

    ghost me = { λ desk. by_user (numbers_of desk.seats.each.items) };

    ghost alone = { λ desk. false };

    ghost faults = { λ desk. faults_in desk.seats.each.items };

    ghost is_later = { λ old new. AreLater old.seats.each.items new.seats.each.items };

    ghost stays = { λ desk. seats_stay desk.seats.each.items };

    ghost goes_on = { λ a b c first second. seats_go_on a.seats.each.items b.seats.each.items c.seats.each.items first second };

    ghost keeps = { λ old new later. record {
      users = λ user served. later_served old.seats.each.items new.seats.each.items user later served;
      same_quota = ap (λ locks. by_user (quotas_of locks)) later.locks;
      same_number = ap by_user later.numbers;
      same_alone = refl;
      later = later.no_fewer;
    } };

    fn turn(&mut self, user: u32, request: &Request) -> Result<Turn, DeskFault> {
        let prepared = PreparedRequest::new(*self.seats.each.allocator(), request)?;
        let place = user as usize;
        ask(
            self.rt,
            &self.hall.locks[place],
            &mut self.seats.each[place],
            self.gate,
            user,
            &prepared,
        )
    }
}
