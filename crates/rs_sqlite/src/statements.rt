//! The statements of a keeper, each in a function of its own, with what it does to the table of rows where the disk is clean.

ghost use Rattle.std.specs.Prelude.{◌≡◌, ℕ, ◌+◌, ◌<◌, ◌≤◌, pos, List, [], ◌∷◌, ◌++◌, Some, slice_get, length, IfOk, IfSome, OnOk, OnErr};
ghost use Rattle.rs_face.specs.Rows.{IsRun};
ghost use Rattle.sqlite.specs.declared.types.Value.{Value};
ghost use Rattle.sqlite.specs.declared.types.Value.TheVariants.{Int, Blob};
ghost use Rattle.sqlite.specs.Order.{column};
ghost use Rattle.sqlite.specs.Held.{state};
ghost use Rattle.sqlite.specs.State.{HasCleanDisk, Survives};
ghost use Rattle.rs_sqlite.specs.Limits.{max_rows};
ghost use Rattle.rs_sqlite.specs.RowRuns.{HasBegunRun, HasShown, ShowsNext};
ghost use Rattle.rs_sqlite.specs.Tables.{HoldsRows, IsOpenedAs, LeavesRows, HasRows};

use crate::limits::RUN_BYTES;
use sqlite::{Alter, Connection, Error, Row, Rows, params};
use std::alloc::Global;

/// How many rows the database has, numbered from 1 without a gap; None where they are numbered otherwise. The table
/// is made where it isn't there.
pub(crate) fn rows_of<S: Alter>(connection: &mut Connection<S>) -> Result<Option<u64>, Error>
    ensures few { IfOk result (λ rows. IfSome rows (λ count. count ≤ max_rows)) }
    ensures holds { (rows : List (List ℕ)) → IsOpenedAs (state S.Store connection.old) rows
        → HasCleanDisk (state S.Store connection.new) → OnOk result (HoldsRows (state S.Store connection.new) rows) }
    ensures count { (rows : List (List ℕ)) → IsOpenedAs (state S.Store connection.old) rows
        → HasCleanDisk (state S.Store connection.new) → IfOk result (λ found. IfSome found (λ count. count ≡ length rows)) }
    ensures clean { HasCleanDisk (state S.Store connection.new) → HasCleanDisk (state S.Store connection.old) }
{
    make_table(connection)?;
    let row = ask_count(connection)?;
    read_count(&row)
}

fn make_table<S: Alter>(connection: &mut Connection<S>) -> Result<usize, Error>
    ensures holds { (rows : List (List ℕ)) → IsOpenedAs (state S.Store connection.old) rows
        → HasCleanDisk (state S.Store connection.new) → OnOk result (HoldsRows (state S.Store connection.new) rows) }
    ensures clean { HasCleanDisk (state S.Store connection.new) → HasCleanDisk (state S.Store connection.old) }
{
    connection.execute(
        "CREATE TABLE IF NOT EXISTS kept(n INTEGER PRIMARY KEY, bytes BLOB NOT NULL)",
        &[],
    )
}

fn ask_count<S: Alter>(connection: &mut Connection<S>) -> Result<Row, Error>
    ensures count { (rows : List (List ℕ)) → HoldsRows (state S.Store connection.old) rows
        → HasCleanDisk (state S.Store connection.new) → IfOk result (λ row. column row 0 ≡ Int (pos (length rows))) }
    ensures holds { (rows : List (List ℕ)) → HoldsRows (state S.Store connection.old) rows
        → HasCleanDisk (state S.Store connection.new) → OnOk result (HoldsRows (state S.Store connection.new) rows) }
    ensures clean { HasCleanDisk (state S.Store connection.new) → HasCleanDisk (state S.Store connection.old) }
{
    connection.query_row(
        "SELECT count(bytes), coalesce(min(n), 1), coalesce(max(n), 0) FROM kept",
        &[],
    )
}

fn read_count(row: &Row) -> Result<Option<u64>, Error>
    ensures few { IfOk result (λ found. IfSome found (λ count. count ≤ max_rows)) }
    ensures count { (n : ℕ) → column row.now 0 ≡ Int (pos n) → IfOk result (λ found. IfSome found (λ count. count ≡ n)) }
{
    let count: i64 = row.get(0)?;
    let least: i64 = row.get(1)?;
    let greatest: i64 = row.get(2)?;
    if count < 0 || least != 1 || greatest != count {
        return Ok(None);
    }
    Ok(Some(count as u64))
}

/// Adds a row at the position `n`, as one transaction.
pub(crate) fn insert<S: Alter>(
    connection: &mut Connection<S>,
    n: i64,
    row: &[u8],
) -> Result<usize, Error>
    ensures holds { (rows : List (List ℕ)) → HoldsRows (state S.Store connection.old) rows → n ≡ pos (1 + length rows)
        → 1 + length rows ≤ max_rows → HasCleanDisk (state S.Store connection.new)
        → OnOk result (HoldsRows (state S.Store connection.new) (rows ++ row.now ∷ [])) }
    ensures refused { (rows : List (List ℕ)) → HoldsRows (state S.Store connection.old) rows
        → HasCleanDisk (state S.Store connection.new) → OnErr result (LeavesRows (state S.Store connection.new) rows) }
    ensures stop { (rows : List (List ℕ)) → HoldsRows (state S.Store connection.old) rows → n ≡ pos (1 + length rows)
        → Survives (state S.Store connection.old) (state S.Store connection.new) (HasRows (rows ++ row.now ∷ [])) }
{
    connection.execute(
        "INSERT INTO kept(n, bytes) VALUES (?1, ?2)",
        params![n, row],
    )
}

/// The row at the position `n`.
pub(crate) fn fetch<S: Alter>(connection: &mut Connection<S>, n: i64) -> Result<Vec<u8>, Error>
    ensures row { (rows : List (List ℕ)) (i : ℕ) (row : List ℕ) → HoldsRows (state S.Store connection.old) rows
        → n ≡ pos (1 + i) → slice_get rows i ≡ Some row → HasCleanDisk (state S.Store connection.new)
        → IfOk result (λ out. out.items ≡ row) }
    ensures holds { (rows : List (List ℕ)) → HoldsRows (state S.Store connection.old) rows
        → HasCleanDisk (state S.Store connection.new) → LeavesRows (state S.Store connection.new) rows }
    ensures stop { (rows : List (List ℕ)) → HoldsRows (state S.Store connection.old) rows
        → Survives (state S.Store connection.old) (state S.Store connection.new) (λ _. ⊥) }
{
    ask_row(connection, n)?.get(0)
}

fn ask_row<S: Alter>(connection: &mut Connection<S>, n: i64) -> Result<Row, Error>
    ensures row { (rows : List (List ℕ)) (i : ℕ) (row : List ℕ) → HoldsRows (state S.Store connection.old) rows
        → n ≡ pos (1 + i) → slice_get rows i ≡ Some row → HasCleanDisk (state S.Store connection.new)
        → IfOk result (λ out. column out 0 ≡ Blob row) }
    ensures holds { (rows : List (List ℕ)) → HoldsRows (state S.Store connection.old) rows
        → HasCleanDisk (state S.Store connection.new) → LeavesRows (state S.Store connection.new) rows }
    ensures stop { (rows : List (List ℕ)) → HoldsRows (state S.Store connection.old) rows
        → Survives (state S.Store connection.old) (state S.Store connection.new) (λ _. ⊥) }
{
    connection.query_row("SELECT bytes FROM kept WHERE n = ?1", params![n])
}

/// The row at the position `first` and those behind it, by one scan of the table: as many as `most`, or fewer where those
/// have `RUN_BYTES`. The error is `QueryReturnedNoRows` where the table has neither so many rows nor so many bytes from there.
pub(crate) fn fetch_run<S: Alter>(
    alloc: Global,
    connection: &mut Connection<S>,
    first: i64,
    most: u64,
) -> Result<Vec<Vec<u8>>, Error>
    requires { 0 < most }
    ensures some { IfOk result (λ run. 0 < length run.items) }
    ensures most { IfOk result (λ run. length run.items ≤ most) }
    ensures run { (rows : List (List ℕ)) (i : ℕ) → HoldsRows (state S.Store connection.old) rows → first ≡ pos (1 + i)
        → HasCleanDisk (state S.Store connection.new) → IfOk result (λ run. IsRun rows i run.items) }
    ensures holds { (rows : List (List ℕ)) → HoldsRows (state S.Store connection.old) rows
        → HasCleanDisk (state S.Store connection.new) → LeavesRows (state S.Store connection.new) rows }
    ensures stop { (rows : List (List ℕ)) → HoldsRows (state S.Store connection.old) rows
        → Survives (state S.Store connection.old) (state S.Store connection.new) (λ _. ⊥) }
{
    let mut rows = connection.query(
        "SELECT bytes FROM kept WHERE n >= ?1 ORDER BY n",
        params![first],
    )?;
    take_run(alloc, &mut rows, most)
}

// The next rows of a query, at least one: as many as `most`, or fewer where those have `RUN_BYTES`.
fn take_run<S: Alter>(
    alloc: Global,
    rows: &mut Rows<'_, S>,
    most: u64,
) -> Result<Vec<Vec<u8>>, Error>
    requires { 0 < most }
    ensures same_reference { rows.new.conn.ghost_name ≡ rows.old.conn.ghost_name }
    ensures some { IfOk result (λ run. 0 < length run.items) }
    ensures most { IfOk result (λ run. length run.items ≤ most) }
    ensures shown { (params : List Value) → HasBegunRun S.Store params rows.old.conn.now
        → HasCleanDisk (state S.Store rows.new.conn.now) → IfOk result (λ run. HasShown S.Store params rows.new.conn.now run.items) }
    ensures holds { (told : List (List ℕ)) → HoldsRows (state S.Store rows.old.conn.now) told
        → HasCleanDisk (state S.Store rows.new.conn.now) → OnOk result (HoldsRows (state S.Store rows.new.conn.now) told) }
    ensures leaves { (told : List (List ℕ)) → HoldsRows (state S.Store rows.old.conn.now) told
        → HasCleanDisk (state S.Store rows.new.conn.now) → OnErr result (LeavesRows (state S.Store rows.new.conn.now) told) }
    ensures stop { Survives (state S.Store rows.old.conn.now) (state S.Store rows.new.conn.now) (λ _. ⊥) }
{
    let mut run = Vec::new(alloc);
    let mut bytes = 0usize;
    'rows: for count in 0..most {
        let row = next_bytes(rows)?;
        bytes = bytes.saturating_add(row.len());
        run.push(row)?;
        if bytes >= RUN_BYTES {
            return Ok(run);
        }
    }
    Ok(run)
}

// The bytes of the next row. There being none is an error, since a keeper asks for no more rows than it counts.
fn next_bytes<S: Alter>(rows: &mut Rows<'_, S>) -> Result<Vec<u8>, Error>
    ensures same_reference { rows.new.conn.ghost_name ≡ rows.old.conn.ghost_name }
    ensures next { HasCleanDisk (state S.Store rows.new.conn.now)
        → IfOk result (λ bytes. ShowsNext S.Store rows.old.conn.now rows.new.conn.now bytes) }
    ensures holds { (told : List (List ℕ)) → HoldsRows (state S.Store rows.old.conn.now) told
        → HasCleanDisk (state S.Store rows.new.conn.now) → OnOk result (HoldsRows (state S.Store rows.new.conn.now) told) }
    ensures leaves { (told : List (List ℕ)) → HoldsRows (state S.Store rows.old.conn.now) told
        → HasCleanDisk (state S.Store rows.new.conn.now) → OnErr result (LeavesRows (state S.Store rows.new.conn.now) told) }
    ensures stop { Survives (state S.Store rows.old.conn.now) (state S.Store rows.new.conn.now) (λ _. ⊥) }
{
    rows.advance()?;
    match rows.get() {
        Some(row) => row.get(0),
        None => Err(Error::QueryReturnedNoRows),
    }
}
