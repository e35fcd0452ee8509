//! Desks that are asked what rows say.

ghost use Rattle.std.specs.Prelude.{◌≡◌, true};
ghost use Rattle.rs_rules.specs.Requests.{is_within_limit};

use crate::rows::case_of;
use crate::telling::text_of;
use rs_rules::{Desk, Request};
use std::alloc::Global;
use std::process::Abort;
use std::test::Fail;

// The reply to a request, as the table writes it.
fn reply_of<D: Desk>(alloc: Global, desk: &mut D, request: &Request) -> Result<Vec<u8>, Fail>
    requires served { D.serves desk.old 0 }
    requires body { is_within_limit request.now ≡ true }
    ensures served { D.serves desk.new 0 }
{
    match desk.turn(0, request) {
        Ok(turn) => text_of(alloc, &turn.reply),
        Err(_) => Err("no memory")?,
    }
}

/// Each row of the table has its reply. The number of rows.
pub fn check<D: Desk>(
    rt: &impl Abort,
    alloc: Global,
    desk: &mut D,
    table: &'static str,
) -> Result<usize, Fail>
    requires served { D.serves desk.old 0 }
    ensures served { D.serves desk.new 0 }
{
    let mut rows: usize = 0;
    for row in table.trim().split('\n') {
        rows = rows.saturating_add(1);
        let (request, wanted) = case_of(alloc, row)?;
        let reply = reply_of(alloc, desk, &request)?;
        assert_eq!(rt; reply.as_slice(), wanted.as_bytes(), "at row {rows}");
    }
    Ok(rows)
}

/// The rows of the tables, one table after another, have their replies. The number of rows.
pub fn check_all<D: Desk>(
    rt: &impl Abort,
    alloc: Global,
    desk: &mut D,
    tables: &[&'static str],
) -> Result<usize, Fail>
    requires served { D.serves desk.old 0 }
{
    let mut rows: usize = 0;
    for table in tables {
        rows = rows.saturating_add(check(rt, alloc, desk, table)?);
    }
    Ok(rows)
}
