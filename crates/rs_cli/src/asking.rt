//! Rows opened, and asked to grant or to revoke a token.

ghost use Rattle.std.specs.Prelude.{◌≡◌, ◌≤◌, IfOk, OnOk};
ghost use Rattle.rs_rules.specs.Histories.{History};
ghost use Rattle.rs_user.specs.Standing.{StandsFor};
ghost use Rattle.rs_face.specs.Courses.{course, IsSame, IsLater};
ghost use Rattle.rs_cli.specs.Asking.{OpensRows, IsAbout, Asks, after_request, fault_of_reply};

use crate::request_fault::RequestFault;
use rs_face::Keeper;
use rs_rules::{DeskFault, OpenFault, Reply, Request, Tree};
use rs_scope::Token;
use rs_user::UserState;
use std::alloc::Global;

/// Under which number a command asks, as a `SoloDesk` does.
const WHO: u64 = 1;

/// The state of the rows under a quota in bytes, or why they are not opened. The rows are as before.
pub fn open_rows<T: Tree, K: Keeper>(
    alloc: Global,
    keeper: &mut K,
    quota: u64,
) -> Result<UserState<T>, OpenFault>
    ensures opened { OpensRows T.stands (course K.rows K.faults keeper.old keeper.new) (K.row_count keeper.new) result }
    ensures quota { IfOk result (λ state. state.quota ≡ quota) }
    ensures rows { IsSame (course K.rows K.faults keeper.old keeper.new) }
    ensures later { IsLater (course K.rows K.faults keeper.old keeper.new) }
{
    UserState::open(alloc, keeper, quota)
}

/// Asks the state to grant or to revoke the token, under the number of a command.
pub fn ask<T: Tree, K: Keeper>(
    state: &mut UserState<T>,
    keeper: &mut K,
    request: &Request,
    token: Token,
) -> Result<(), RequestFault>
    requires stands { (h : History) × StandsFor T.stands state.old h }
    requires rows { K.row_count keeper.old ≡ state.old.rows }
    requires about { IsAbout request.now token }
    ensures asked { (h : History) → StandsFor T.stands state.old h
        → Asks h request.now token (course K.rows K.faults keeper.old keeper.new) result }
    ensures stands { (h : History) → StandsFor T.stands state.old h → OnOk result (StandsFor T.stands state.new (after_request h request.now)) }
    ensures count { K.row_count keeper.new ≡ state.new.rows }
    ensures quota { state.new.quota ≡ state.old.quota }
    ensures later { IsLater (course K.rows K.faults keeper.old keeper.new) }
{
    match state.turn(keeper, WHO, request) {
        Ok(turn) => fault_of_reply(&turn.reply, token),
        Err(DeskFault::NoMemory) => Err(RequestFault::NoMemory),
    }
}

// What a reply to a grant or a revocation of the token comes to.
fn fault_of_reply(reply: &Reply, token: Token) -> Result<(), RequestFault>
    ensures fault { result ≡ fault_of_reply reply.now token }
{
    match reply {
        Reply::Granted | Reply::Revoked => Ok(()),
        Reply::NotGranted => Err(RequestFault::NotGranted),
        Reply::RecordsFull => Err(RequestFault::RecordsFull),
        Reply::TokenTaken => Err(RequestFault::TokenTaken { token }),
        // no other reply comes here but StoreFailed
        _ => Err(RequestFault::KeeperFailed),
    }
}
