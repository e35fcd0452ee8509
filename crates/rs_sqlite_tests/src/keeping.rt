//! What the contracts leave to a run: that the rows are in the database, in memory and in files.

ghost use Rattle.std.specs.Prelude.{IfOk, IsTrue};
ghost use Rattle.sqlite_disk.specs.Memory.{memory_is_usable};

use rs_face::{KeepFault, Keeper};
use rs_sqlite::SqlKeeper;
use sqlite::{Alter, Connection, Error, FileStore, Files, MemStore, Options};
use sqlite_disk::{Disk, Fuse, Memory};
use std::alloc::Global;
use std::io;
use std::test::Fail;

// Few pages in memory, so that an open is quick.
pub(crate) fn options() -> Options {
    Options {
        cache_pages: 16,
        spill_pages: 16,
        checkpoint_frames: 1000,
        seed: 1,
    }
}

// Opens a database in the memory of two disks.
fn open_files(alloc: Global, db: Memory) -> Result<Connection<FileStore<Memory>>, Error>
    requires { IsTrue (memory_is_usable db) }
{
    let files = Files {
        log: Memory::new(alloc),
        db,
    };
    match Connection::open_files(alloc, files, options()) {
        Ok(connection) => Ok(connection),
        Err((error, _)) => Err(error),
    }
}

// Copies the log into the database file, which is then all of it.
pub(crate) fn close_files(connection: Connection<FileStore<Memory>>) -> Result<Memory, Error>
    ensures { IfOk result (λ db. IsTrue (memory_is_usable db)) }
{
    match connection.close_files() {
        Ok(Files { log: _, db }) => Ok(db),
        Err(failed) => Err(failed.0),
    }
}

fn keep_two<S: Alter + Drop>(keeper: &mut SqlKeeper<S>) -> Result<(), KeepFault> {
    keeper.append(b"first")?;
    keeper.append(b"")
}

// The row, or None where there is none at this place.
pub(crate) fn row_at<S: Alter + Drop>(
    alloc: Global,
    keeper: &mut SqlKeeper<S>,
    i: u64,
) -> Result<Option<Vec<u8>>, KeepFault> {
    if i >= keeper.len() {
        return Ok(None);
    }
    let mut out = Vec::from_slice(alloc, b"before")?;
    keeper.read(i, &mut out)?;
    Ok(Some(out))
}

fn execute<S: Alter>(connection: &mut Connection<S>, sql: &str) -> Result<(), Error> {
    connection.execute(sql, &[])?;
    Ok(())
}

pub(crate) fn is_row<S: Alter + Drop>(
    alloc: Global,
    keeper: &mut SqlKeeper<S>,
    i: u64,
    wanted: &[u8],
) -> Result<bool, KeepFault> {
    match row_at(alloc, keeper, i)? {
        Some(row) => Ok(row.as_slice() == wanted),
        None => Ok(false),
    }
}

#[test]
fn rows_are_kept_in_memory(rt: HostRuntime) -> Result<(), Fail> {
    let alloc = rt.alloc();
    let mut keeper = SqlKeeper::open(Connection::open_in_memory(alloc)?)?;
    assert_eq!(rt; keeper.len(), 0);
    keep_two(&mut keeper)?;
    assert_eq!(rt; keeper.len(), 2);
    assert!(rt; is_row(alloc, &mut keeper, 1, b"")?);
    assert!(rt; is_row(alloc, &mut keeper, 0, b"first")?);
    Ok(())
}

#[test]
fn rows_stay_in_the_files(rt: HostRuntime) -> Result<(), Fail> {
    let alloc = rt.alloc();
    let mut keeper = SqlKeeper::open(open_files(alloc, Memory::new(alloc))?)?;
    keep_two(&mut keeper)?;
    assert_eq!(rt; keeper.len(), 2);
    let db = close_files(keeper.into_connection())?;
    let mut again = SqlKeeper::open(open_files(alloc, db)?)?;
    assert_eq!(rt; again.len(), 2);
    assert!(rt; is_row(alloc, &mut again, 0, b"first")?);
    assert!(rt; is_row(alloc, &mut again, 1, b"")?);
    again.append(b"third")?;
    assert_eq!(rt; again.len(), 3);
    assert!(rt; is_row(alloc, &mut again, 2, b"third")?);
    Ok(())
}

// A database in memory in which these statements were run.
pub(crate) fn database(alloc: Global, statements: &[&str]) -> Result<Connection<MemStore>, Error> {
    let mut connection = Connection::open_in_memory(alloc)?;
    for sql in statements {
        execute(&mut connection, sql)?;
    }
    Ok(connection)
}

#[test]
fn a_table_that_is_there_is_taken(rt: HostRuntime) -> Result<(), Fail> {
    let alloc = rt.alloc();
    let mut keeper = SqlKeeper::open(database(
        alloc,
        &[
            "CREATE TABLE kept(n INTEGER PRIMARY KEY, bytes BLOB NOT NULL)",
            "INSERT INTO kept VALUES (2, x'02')",
            "INSERT INTO kept VALUES (1, x'01')",
        ],
    )?)?;
    assert_eq!(rt; keeper.len(), 2);
    assert!(rt; is_row(alloc, &mut keeper, 0, b"\x01")?);
    assert!(rt; is_row(alloc, &mut keeper, 1, b"\x02")?);
    keeper.append(b"more")?;
    assert!(rt; is_row(alloc, &mut keeper, 2, b"more")?);
    Ok(())
}

#[test]
fn other_databases_are_refused(rt: HostRuntime) -> Result<(), Fail> {
    let alloc = rt.alloc();
    let rows: [&[&str]; 5] = [
        &["CREATE TABLE kept(a BLOB)"],
        &["CREATE VIEW kept AS SELECT 1 AS n"],
        &[
            "CREATE TABLE kept(n INTEGER PRIMARY KEY, bytes BLOB NOT NULL)",
            "INSERT INTO kept VALUES (1, x'01')",
            "INSERT INTO kept VALUES (3, x'03')",
        ],
        &[
            "CREATE TABLE kept(n INTEGER PRIMARY KEY, bytes BLOB NOT NULL)",
            "INSERT INTO kept VALUES (0, x'00')",
        ],
        &["BEGIN"],
    ];
    for statements in rows {
        let opened = SqlKeeper::open(database(alloc, statements)?);
        assert_eq!(rt; opened.err(), Some(KeepFault::Failed));
    }
    Ok(())
}

#[test]
fn a_refused_statement_leaves_the_rows(rt: HostRuntime) -> Result<(), Fail> {
    let alloc = rt.alloc();
    let mut keeper = SqlKeeper::open(database(
        alloc,
        &[
            "CREATE TABLE kept(n INTEGER PRIMARY KEY, bytes BLOB NOT NULL CHECK (length(bytes) < 5))",
            "INSERT INTO kept VALUES (1, 'text')",
        ],
    )?)?;
    assert_eq!(rt; keeper.append(b"too long"), Err(KeepFault::Failed));
    assert_eq!(rt; keeper.len(), 1);
    keeper.append(b"two")?;
    assert_eq!(rt; keeper.len(), 2);
    assert!(rt; is_row(alloc, &mut keeper, 1, b"two")?);
    let mut out = Vec::from_slice(alloc, b"before")?;
    assert!(rt; keeper.len() > 0);
    assert_eq!(rt; keeper.read(0, &mut out), Err(KeepFault::Failed));
    assert!(rt; out.is_empty());
    Ok(())
}

// The bytes of a disk, on another.
pub(crate) fn copy_of(alloc: Global, disk: &Memory) -> io::Result<Memory>
    ensures { IfOk result (λ copy. IsTrue (memory_is_usable copy)) }
{
    let mut copy = Memory::new(alloc);
    copy.write_at(0, disk.bytes())?;
    Ok(copy)
}

// A database with one row.
pub(crate) fn one_row(alloc: Global) -> Result<Memory, Fail>
    ensures { IfOk result (λ db. IsTrue (memory_is_usable db)) }
{
    let mut keeper = SqlKeeper::open(open_files(alloc, Memory::new(alloc))?)?;
    keeper.append(b"first")?;
    Ok(close_files(keeper.into_connection())?)
}

type Stopping = SqlKeeper<FileStore<Fuse<Memory>>>;

// A keeper of that database, whose log stops after so many calls; None where it stops as it is opened.
fn stopping(alloc: Global, db: &Memory, calls: u64) -> io::Result<Option<Stopping>> {
    let files = Files {
        log: Fuse::new(Memory::new(alloc), calls),
        db: Fuse::new(copy_of(alloc, db)?, 1_000_000),
    };
    match Connection::open_files(alloc, files, options()) {
        Ok(connection) => Ok(SqlKeeper::open(connection).ok()),
        Err(_) => Ok(None),
    }
}

// Keeps rows until one isn't kept, at most four.
fn fill(keeper: &mut Stopping) {
    for _ in 0..4 {
        if keeper.append(b"more").is_err() {
            return;
        }
    }
}

// A keeper of what the disks hold.
fn opened_again(alloc: Global, keeper: Stopping) -> Result<SqlKeeper<FileStore<Memory>>, Fail> {
    let files = keeper.into_connection().into_store().close();
    let copies = Files {
        log: copy_of(alloc, files.log.inner())?,
        db: copy_of(alloc, files.db.inner())?,
    };
    match Connection::open_files(alloc, copies, options()) {
        Ok(connection) => Ok(SqlKeeper::open(connection)?),
        Err((error, _)) => Err(error.into()),
    }
}

// A row that was kept is there whenever the disk stops, and the one that failed is there whole or not at all.
#[test]
fn rows_outlive_a_disk_that_stops(rt: HostRuntime) -> Result<(), Fail> {
    let alloc = rt.alloc();
    let db = one_row(alloc)?;
    let mut last_stop = 0;
    for stop in 0..16 {
        let Some(mut keeper) = stopping(alloc, &db, 5 * stop)? else {
            continue;
        };
        fill(&mut keeper);
        let kept = keeper.len();
        let mut again = opened_again(alloc, keeper)?;
        assert!(rt; kept <= again.len() && again.len() - kept <= 1);
        assert!(rt; is_row(alloc, &mut again, 0, b"first")?);
        for i in 1..again.len() {
            assert!(rt; is_row(alloc, &mut again, i, b"more")?);
        }
        if kept < 5 {
            last_stop = stop;
        }
    }
    assert!(rt; 0 < last_stop && last_stop < 15);
    Ok(())
}
