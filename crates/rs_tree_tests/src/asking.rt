//! Two desks that are asked the same.

ghost use Rattle.std.specs.Prelude.{◌≡◌, true};
ghost use Rattle.rs_rules.specs.Requests.{is_within_limit};

use crate::telling::text_of;
use rs_rules::{Desk, Reply, Request, Turn};
use std::alloc::Global;
use std::process::Abort;
use std::test::Fail;

/// The turn of a request.
pub fn turn_of<D: Desk>(desk: &mut D, request: &Request) -> Result<Turn, Fail>
    requires served { D.serves desk.old 0 }
    requires body { is_within_limit request.now ≡ true }
    ensures served { D.serves desk.new 0 }
{
    match desk.turn(0, request) {
        Ok(turn) => Ok(turn),
        Err(_) => Err("no memory")?,
    }
}

/// The reply that both desks give.
pub fn ask<R: Abort, D: Desk, E: Desk>(
    rt: &R,
    alloc: Global,
    one: &mut D,
    other: &mut E,
    request: &Request,
) -> Result<Reply, Fail>
    requires one { D.serves one.old 0 }
    requires other { E.serves other.old 0 }
    requires body { is_within_limit request.now ≡ true }
    ensures one { D.serves one.new 0 }
    ensures other { E.serves other.new 0 }
{
    let turn = turn_of(one, request)?;
    let twin = turn_of(other, request)?;
    let told = text_of(alloc, &turn)?;
    let also = text_of(alloc, &twin)?;
    assert_eq!(rt; told.as_slice(), also.as_slice());
    Ok(turn.reply)
}
