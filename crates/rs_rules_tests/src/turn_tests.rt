//! Turns and openings, against replies and rows worked out by hand, and that each call answers with ample memory.

use crate::asking::{check, expect};
use crate::rows::{owner, stranger};
use crate::turn_cases::{
    ABSENT, CLASHES, EMPTIED, FIRST, FOURTH_FAILS, NARROW, PUBLIC, QUOTA, SECOND_FAILS, TAGS,
    THIRD_FAILS,
};
use rs_chain::ChainTree;
use rs_face::{Keeper, MemKeeper};
use rs_path::{Bytes, Path};
use rs_plain::PlainTree;
use rs_rules::{Desk, OpenFault, Request, Tree};
use rs_scope::{Scopes, Token};
use rs_user::{SoloDesk, UserState};
use std::alloc::Global;
use std::process::Abort;
use std::test::Fail;

// The table of a run over no rows, after the grant of these scopes; the appends with these numbers fail.
fn run<T: Tree, R: Abort>(
    rt: &R,
    alloc: Global,
    scopes: &str,
    quota: u64,
    failing: Vec<u64>,
    table: &'static str,
) -> Result<usize, Fail> {
    let mut keeper = MemKeeper::new(Vec::new(alloc), failing);
    let scopes = Scopes::read(alloc, scopes.as_bytes())?;
    let Ok(mut state) = UserState::<T>::open(alloc, &mut keeper, quota) else {
        return Err("rows that aren't opened")?;
    };
    let mut desk = SoloDesk::new(&mut state, &mut keeper);
    let grant = Request::Grant {
        token: owner(),
        scopes,
    };
    expect(rt, alloc, &mut desk, &grant, b"Granted")?;
    check(rt, alloc, &mut desk, table)
}

fn check_documents<T: Tree, R: Abort>(rt: &R, alloc: Global) -> Result<(), Fail> {
    for (table, rows) in [
        (FIRST, 8),
        (EMPTIED, 5),
        (CLASHES, 5),
        (ABSENT, 3),
        (TAGS, 8),
    ] {
        let checked = run::<T, R>(rt, alloc, "*:rw", 1000, Vec::new(alloc), table)?;
        assert_eq!(rt; checked, rows);
    }
    Ok(())
}

#[test]
fn documents_and_listings(rt: HostRuntime) -> Result<(), Fail> {
    let alloc = rt.alloc();
    check_documents::<PlainTree, _>(&rt, alloc)?;
    check_documents::<ChainTree, _>(&rt, alloc)
}

fn check_limits<T: Tree, R: Abort>(rt: &R, alloc: Global) -> Result<(), Fail> {
    for (scopes, table, rows) in [
        ("*:rw", QUOTA, 5),
        ("notes:r", NARROW, 7),
        ("*:rw", PUBLIC, 6),
    ] {
        let checked = run::<T, R>(rt, alloc, scopes, 10, Vec::new(alloc), table)?;
        assert_eq!(rt; checked, rows);
    }
    Ok(())
}

#[test]
fn quota_and_scopes(rt: HostRuntime) -> Result<(), Fail> {
    let alloc = rt.alloc();
    check_limits::<PlainTree, _>(&rt, alloc)?;
    check_limits::<ChainTree, _>(&rt, alloc)
}

fn check_failures<T: Tree, R: Abort>(rt: &R, alloc: Global) -> Result<(), Fail> {
    for (table, number, rows) in [
        (SECOND_FAILS, 2, 4),
        (THIRD_FAILS, 3, 5),
        (FOURTH_FAILS, 4, 5),
    ] {
        let failing = Vec::from_slice(alloc, &[number])?;
        let checked = run::<T, R>(rt, alloc, "*:rw", 1000, failing, table)?;
        assert_eq!(rt; checked, rows);
    }
    Ok(())
}

#[test]
fn a_failed_append_leaves_all_as_it_was(rt: HostRuntime) -> Result<(), Fail> {
    let alloc = rt.alloc();
    check_failures::<PlainTree, _>(&rt, alloc)?;
    check_failures::<ChainTree, _>(&rt, alloc)
}

// ---- openings

pub const GRANT: &[u8] =
    b"\x01\x03\x00\x01\x02\x03\x04\x05\x06\x07\x08\x09\x0A\x0B\x0C\x0D\x0E\x0F\x00\x08notes:rw";

const GRANT_TO_READ: &[u8] =
    b"\x01\x03\x00\x01\x02\x03\x04\x05\x06\x07\x08\x09\x0A\x0B\x0C\x0D\x0E\x0F\x00\x07notes:r";

const REVOKE: &[u8] = b"\x01\x04\x00\x01\x02\x03\x04\x05\x06\x07\x08\x09\x0A\x0B\x0C\x0D\x0E\x0F";

pub const PUT: &[u8] = b"\x01\x01\x00\x08/notes/x\x0Atext/plain\x00\x00\x00\x05hello";

const REMOVE: &[u8] = b"\x01\x02\x00\x02/x";

const WRITTEN_PUT: &[u8] =
    b"\x02\x01\x00\x01\x02\x03\x04\x05\x06\x07\x08\x09\x0A\x0B\x0C\x0D\x0E\x0F\x2C\xF2\x4D\xBA\x5F\xB0\xA3\x0E\x26\xE8\x3B\x2A\xC5\xB9\xE2\x9E\x1B\x16\x1E\x5C\x1F\xA7\x42\x5E\x73\x04\x33\x62\x93\x8B\x98\x24\x00\x08/notes/x\x0Atext/plain\x00\x00\x00\x05hello";

const CUT: &[u8] = b"\x01\x03";

pub fn keeper_of(alloc: Global, rows: &[&[u8]], failing: Vec<u64>) -> Result<MemKeeper, Fail> {
    let mut list = Vec::new(alloc);
    for row in rows {
        list.push(Bytes::of(row.to_vec(alloc)?))?;
    }
    Ok(MemKeeper::new(list, failing))
}

// The number of the records and the version of `/notes/x`, or the fault.
fn opened(alloc: Global, mut keeper: MemKeeper) -> Result<Result<(u64, u64), OpenFault>, Fail> {
    let path = Path::read_plain(alloc, b"/notes/x")?;
    match UserState::<PlainTree>::open(alloc, &mut keeper, 0) {
        Ok(state) => Ok(Ok((state.len(), state.tree().version(&path)))),
        Err(fault) => Ok(Err(fault)),
    }
}

fn opened_rows(alloc: Global, rows: &[&[u8]]) -> Result<Result<(u64, u64), OpenFault>, Fail> {
    opened(alloc, keeper_of(alloc, rows, Vec::new(alloc))?)
}

#[test]
fn lawful_rows_are_opened(rt: HostRuntime) -> Result<(), Fail> {
    let alloc = rt.alloc();
    assert_eq!(rt; opened_rows(alloc, &[])?, Ok((0, 0)));
    assert_eq!(rt; opened_rows(alloc, &[GRANT, PUT])?, Ok((2, 2)));
    assert_eq!(rt; opened_rows(alloc, &[PUT, GRANT])?, Ok((2, 1)));
    assert_eq!(rt; opened_rows(alloc, &[GRANT, PUT, WRITTEN_PUT])?, Ok((3, 3)));
    assert_eq!(rt; opened_rows(alloc, &[GRANT, REVOKE, GRANT])?, Ok((3, 0)));
    Ok(())
}

#[test]
fn the_first_unlawful_row_is_named(rt: HostRuntime) -> Result<(), Fail> {
    let alloc = rt.alloc();
    let cases: [(&[&[u8]], u64); 6] = [
        (&[PUT, PUT, REMOVE], 2),
        (&[GRANT_TO_READ, WRITTEN_PUT], 1),
        (&[WRITTEN_PUT], 0),
        (&[GRANT, GRANT], 1),
        (&[GRANT, REVOKE, REVOKE], 2),
        (&[REVOKE, CUT], 0),
    ];
    for (rows, index) in cases {
        assert_eq!(rt;
            opened_rows(alloc, rows)?,
            Err(OpenFault::Unlawful { index })
        );
    }
    Ok(())
}

#[test]
fn a_damaged_row_is_named_wherever_it_stands(rt: HostRuntime) -> Result<(), Fail> {
    let alloc = rt.alloc();
    let cases: [(&[&[u8]], u64); 3] = [
        (&[CUT, REVOKE], 0),
        (&[GRANT, CUT, PUT], 1),
        (&[GRANT, PUT, CUT], 2),
    ];
    for (rows, index) in cases {
        assert_eq!(rt;
            opened_rows(alloc, rows)?,
            Err(OpenFault::BadRow { index, place: 2 })
        );
    }
    let failing = Vec::from_slice(alloc, &[2])?;
    let keeper = keeper_of(alloc, &[GRANT, PUT], failing)?;
    assert_eq!(rt; opened(alloc, keeper)?, Err(OpenFault::KeeperFailed));
    Ok(())
}

// ---- grants, and the state itself

// A row that begins so, goes on with the token of this number, and ends so.
fn token_row(alloc: Global, start: &[u8], number: u64, end: &[u8]) -> Result<Bytes, Fail> {
    let mut row = Vec::from_slice(alloc, start)?;
    row.extend_from_slice(Token::of_words(0, number).as_bytes())?;
    row.extend_from_slice(end)?;
    Ok(Bytes::of(row))
}

// The rows of grants to the tokens of these numbers, and of revocations behind them.
fn granted_rows(alloc: Global, granted: &[u64], revoked: &[u64]) -> Result<MemKeeper, Fail> {
    let mut rows = Vec::new(alloc);
    for number in granted {
        rows.push(token_row(alloc, b"\x01\x03", *number, b"\x00\x08notes:rw")?)?;
    }
    for number in revoked {
        rows.push(token_row(alloc, b"\x01\x04", *number, b"")?)?;
    }
    Ok(MemKeeper::new(rows, Vec::new(alloc)))
}

#[test]
fn tokens_are_found_whatever_the_order_of_their_grants(rt: HostRuntime) -> Result<(), Fail> {
    let alloc = rt.alloc();
    let mut keeper = granted_rows(alloc, &[5, 1, 4, 2, 6, 3], &[4, 1])?;
    let Ok(state) = UserState::<PlainTree>::open(alloc, &mut keeper, 0) else {
        return Err("rows that aren't opened")?;
    };
    for number in 0..8u64 {
        let there = matches!(number, 2 | 3 | 5 | 6);
        assert_eq!(rt;
            state.granted(&Token::of_words(0, number)),
            there,
            "token {number}"
        );
    }
    Ok(())
}

// A desk of a user whose token is granted: it isn't granted again before it is revoked.
fn grant_and_revoke<D: Desk>(rt: &impl Abort, alloc: Global, desk: &mut D) -> Result<(), Fail>
    requires served { D.serves desk.old 0 }
{
    let grant = Request::Grant {
        token: owner(),
        scopes: Scopes::read(alloc, b"notes:rw")?,
    };
    expect(rt, alloc, desk, &grant, b"TokenTaken")?;
    expect(
        rt,
        alloc,
        desk,
        &Request::Revoke { token: stranger() },
        b"NotGranted",
    )?;
    expect(
        rt,
        alloc,
        desk,
        &Request::Revoke { token: owner() },
        b"Revoked",
    )?;
    expect(rt, alloc, desk, &grant, b"Granted")
}

#[test]
fn a_token_is_granted_once_and_revoked(rt: HostRuntime) -> Result<(), Fail> {
    let alloc = rt.alloc();
    let mut keeper = keeper_of(alloc, &[GRANT], Vec::new(alloc))?;
    let Ok(mut state) = UserState::<PlainTree>::open(alloc, &mut keeper, 0) else {
        return Err("rows that aren't opened")?;
    };
    grant_and_revoke(&rt, alloc, &mut SoloDesk::new(&mut state, &mut keeper))?;
    assert_eq!(rt; keeper.len(), 3);
    Ok(())
}

// A desk whose first append fails: the same grant is taken when it is asked again.
fn grant_again<D: Desk>(rt: &impl Abort, alloc: Global, desk: &mut D) -> Result<(), Fail>
    requires served { D.serves desk.old 0 }
{
    let grant = Request::Grant {
        token: owner(),
        scopes: Scopes::read(alloc, b"notes:rw")?,
    };
    expect(rt, alloc, desk, &grant, b"StoreFailed")?;
    expect(rt, alloc, desk, &grant, b"Granted")
}

#[test]
fn a_grant_that_was_not_kept_is_taken_again(rt: HostRuntime) -> Result<(), Fail> {
    let alloc = rt.alloc();
    let failing = Vec::from_slice(alloc, &[1])?;
    let mut keeper = keeper_of(alloc, &[], failing)?;
    let Ok(mut state) = UserState::<PlainTree>::open(alloc, &mut keeper, 0) else {
        return Err("rows that aren't opened")?;
    };
    grant_again(&rt, alloc, &mut SoloDesk::new(&mut state, &mut keeper))?;
    assert_eq!(rt; keeper.len(), 1);
    Ok(())
}

#[test]
fn a_turn_of_the_state_itself(rt: HostRuntime) -> Result<(), Fail> {
    let alloc = rt.alloc();
    let mut keeper = keeper_of(alloc, &[], Vec::new(alloc))?;
    let Ok(mut state) = UserState::<PlainTree>::open(alloc, &mut keeper, 5) else {
        return Err("rows that aren't opened")?;
    };
    let grant = Request::Grant {
        token: owner(),
        scopes: Scopes::read(alloc, b"notes:rw")?,
    };
    let Ok(turn) = state.turn(&mut keeper, 7, &grant) else {
        return Err("no memory")?;
    };
    assert_eq!(rt; turn.front, 0);
    assert!(rt; state.granted(&owner()));
    assert_eq!(rt; state.len(), 1);
    let row = keeper.rows().first().ok_or("no row")?;
    assert_eq!(rt; row.as_slice(), GRANT);
    Ok(())
}
