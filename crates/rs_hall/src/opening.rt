//! Halls, opened over keepers.

ghost use Rattle.std.specs.Prelude.{◌≡◌, ◌≤◌, [], length, IfOk, IfErr, OnOk};
ghost use Rattle.rs_hall.specs.Abreast.{EachPair, EachTriple};
ghost use Rattle.rs_hall.specs.Entrances.{HallRefuses, IsEntrance, IsFirstOf, IsKept, IsLockable, IsReady, refusal_of};
ghost use Rattle.rs_hall.specs.Halls.{locks_of};
ghost use Rattle.rs_hall.specs.Limits.{max_users};

use crate::hall::{Hall, Seats};
use crate::hall_fault::HallFault;
use crate::room::Room;
use rs_face::Keeper;
use rs_path::NoMemory;
use rs_rules::{OpenFault, Tree};
use rs_turn::TurnLock;
use rs_user::UserState;
use std::alloc::Global;

impl<K: Keeper + Drop, T: Tree> Hall<K, T> {
    /// Opens the rows of each user, in the order of users, each under that user's quota in bytes, and makes a lock of each state
    /// with its keeper. The seats are the first of their locks.
    ///
    /// The keepers are taken out of the list only where all rows are open. `User` is the first user whose rows
    /// `UserState::open` refuses for another cause than memory, and its `KeeperFailed` comes only where the count of faults of
    /// that keeper rose; all keepers then stand in the list as before, with the rows that they had. Where memory runs out while
    /// the locks are made, keepers are dropped.
    pub fn open(
        alloc: Global,
        keepers: &mut Vec<K>,
        quotas: &[u64],
    ) -> Result<(Hall<K, T>, Seats<K, T>), HallFault>
        requires each { length quotas.now ≡ length keepers.old.items }
        requires few { length quotas.now ≤ max_users }
        ensures hall { IfOk result (λ r. locks_of r.1.each.items ≡ r.0.locks.items) }
        ensures entrances { IfOk result (λ r. EachTriple (IsEntrance T.stands K.rows K.row_count K.faults) quotas.now keepers.old.items r.1.each.items) }
        ensures taken { OnOk result (keepers.new.items ≡ []) }
        ensures refused { IfErr result (λ fault. HallRefuses K.rows K.row_count K.faults fault keepers.old.items keepers.new.items) }
    {
        let states = open_states::<K, T>(alloc, keepers, quotas)?;
        match lock_rooms(alloc, keepers, states) {
            Ok(opened) => Ok(opened),
            Err(NoMemory) => Err(HallFault::NoMemory),
        }
    }
}

// Opens the rows of each user, in order.
fn open_states<K: Keeper + Drop, T: Tree>(
    alloc: Global,
    keepers: &mut Vec<K>,
    quotas: &[u64],
) -> Result<Vec<UserState<T>>, HallFault>
    requires each { length quotas.now ≡ length keepers.old.items }
    requires few { length quotas.now ≤ max_users }
    ensures ready { IfOk result (λ states. EachTriple (IsReady T.stands K.rows K.row_count) quotas.now keepers.new.items states.items) }
    ensures kept { OnOk result (EachPair (IsKept K.rows K.row_count K.faults) keepers.old.items keepers.new.items) }
    ensures refused { IfErr result (λ fault. HallRefuses K.rows K.row_count K.faults fault keepers.old.items keepers.new.items) }
{
    let mut states = Vec::with_capacity(alloc, quotas.len())?;
    for (place, quota) in quotas.iter().enumerate() {
        match UserState::open(alloc, &mut keepers[place], *quota) {
            Ok(state) => states.push(state)?,
            Err(fault) => return Err(refusal(place as u32, fault)),
        }
    }
    Ok(states)
}

// What is told where the rows of the user aren't opened.
fn refusal(user: u32, fault: OpenFault) -> HallFault
    ensures { result ≡ refusal_of user fault }
{
    match fault {
        OpenFault::NoMemory => HallFault::NoMemory,
        OpenFault::BadRow { .. } | OpenFault::Unlawful { .. } | OpenFault::KeeperFailed => {
            HallFault::User { user, fault }
        }
    }
}

// Makes a lock of each state with its keeper, from the last user to the first.
fn lock_rooms<K: Keeper + Drop, T: Tree>(
    alloc: Global,
    keepers: &mut Vec<K>,
    mut states: Vec<UserState<T>>,
) -> Result<(Hall<K, T>, Seats<K, T>), NoMemory>
    requires { EachPair (IsLockable T.stands K.rows K.row_count) keepers.old.items states.items }
    ensures hall { IfOk result (λ r. locks_of r.1.each.items ≡ r.0.locks.items) }
    ensures first { IfOk result (λ r. EachTriple (IsFirstOf T.stands K.rows K.row_count) states.items keepers.old.items r.1.each.items) }
    ensures taken { OnOk result (keepers.new.items ≡ []) }
{
    let mut locks = Vec::with_capacity(alloc, states.len())?;
    let mut each = Vec::with_capacity(alloc, states.len())?;
    while let Some(state) = states.pop() {
        let Some(keeper) = keepers.pop() else {
            unreachable!();
        };
        let (lock, seat) = TurnLock::new(alloc, Room { state, keeper })?;
        locks.push(lock)?;
        each.push(seat)?;
    }
    locks.reverse();
    each.reverse();
    Ok((Hall { locks }, Seats { each }))
}
