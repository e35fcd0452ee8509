//! That rows which are read in runs are the rows which are read one by one, and where a run ends.

use crate::keeping::{database, row_at};
use rs_face::{KeepFault, Keeper};
use rs_sqlite::{RUN_BYTES, SqlKeeper};
use sqlite::{Connection, MemStore};
use std::alloc::{AllocError, Global};
use std::test::Fail;

// The bytes of a row: few, but where it is the large one.
fn bytes_of(alloc: Global, n: u64, large: Option<u64>) -> Result<Vec<u8>, AllocError> {
    if large == Some(n) {
        vec![in alloc; 7; RUN_BYTES]
    } else {
        Ok(format!(in alloc; "row {n}")?.into_bytes())
    }
}

// A keeper in memory of so many rows.
fn keeper_of(alloc: Global, count: u64, large: Option<u64>) -> Result<SqlKeeper<MemStore>, Fail> {
    let mut keeper = SqlKeeper::open(Connection::open_in_memory(alloc)?)?;
    for n in 0..count {
        keeper.append(bytes_of(alloc, n, large)?.as_slice())?;
    }
    Ok(keeper)
}

// Whether the rows from `at` on, read one by one, are these.
fn are_rows(
    alloc: Global,
    keeper: &mut SqlKeeper<MemStore>,
    at: u64,
    run: &[Vec<u8>],
) -> Result<bool, KeepFault> {
    let mut n = at;
    for row in run {
        match row_at(alloc, keeper, n)? {
            Some(wanted) if wanted.as_slice() == row.as_slice() => n = n.saturating_add(1),
            _ => return Ok(false),
        }
    }
    Ok(true)
}

// Whether a keeper of so many rows gives runs of these sizes, and in them its rows.
fn has_runs(alloc: Global, count: u64, large: Option<u64>, sizes: &[usize]) -> Result<bool, Fail> {
    let mut keeper = keeper_of(alloc, count, large)?;
    let mut run = Vec::new(alloc);
    let mut at = 0;
    for size in sizes {
        if at >= keeper.len() {
            return Ok(false);
        }
        keeper.read_run(at, &mut run)?;
        if run.len() != *size || !are_rows(alloc, &mut keeper, at, run.as_slice())? {
            return Ok(false);
        }
        at = at.saturating_add(run.len() as u64);
    }
    Ok(at == count && keeper.faults() == 0)
}

#[test]
fn runs_are_the_rows(rt: HostRuntime) -> Result<(), Fail> {
    let alloc = rt.alloc();
    assert!(rt; has_runs(alloc, 0, None, &[])?);
    assert!(rt; has_runs(alloc, 1, None, &[1])?);
    assert!(rt; has_runs(alloc, 63, None, &[63])?);
    assert!(rt; has_runs(alloc, 64, None, &[64])?);
    assert!(rt; has_runs(alloc, 65, None, &[64, 1])?);
    assert!(rt; has_runs(alloc, 200, None, &[64, 64, 64, 8])?);
    Ok(())
}

#[test]
fn a_run_ends_behind_a_large_row(rt: HostRuntime) -> Result<(), Fail> {
    let alloc = rt.alloc();
    assert!(rt; has_runs(alloc, 70, Some(10), &[11, 59])?);
    assert!(rt; has_runs(alloc, 3, Some(0), &[1, 2])?);
    assert!(rt; has_runs(alloc, 3, Some(2), &[3])?);
    Ok(())
}

// A row that holds no bytes is a fault of the run that reaches it.
#[test]
fn a_run_that_fails_is_empty(rt: HostRuntime) -> Result<(), Fail> {
    let alloc = rt.alloc();
    let mut keeper = SqlKeeper::open(database(
        alloc,
        &[
            "CREATE TABLE kept(n INTEGER PRIMARY KEY, bytes BLOB NOT NULL)",
            "INSERT INTO kept VALUES (1, x'01'), (2, 'text'), (3, x'03')",
        ],
    )?)?;
    assert_eq!(rt; keeper.len(), 3);
    let mut run = Vec::new(alloc);
    assert_eq!(rt; keeper.read_run(0, &mut run), Err(KeepFault::Failed));
    assert!(rt; run.is_empty());
    assert_eq!(rt; keeper.faults(), 1);
    assert_eq!(rt; keeper.len(), 3);
    assert_eq!(rt; keeper.read_run(2, &mut run), Ok(()));
    assert_eq!(rt; run.len(), 1);
    Ok(())
}
