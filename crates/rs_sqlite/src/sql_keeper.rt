//! A keeper over a database.
ghost use Rattle.std.specs.Prelude.{◌≡◌, ℕ, ◌+◌, ◌<◌, ◌≤◌, pos, List, [], ◌∷◌, ◌++◌, None, slice_get, Some, length, if◌then◌else◌, is_ok, IfOk, OnOk, OnErr, IsErrOf};
ghost use Rattle.sqlite.specs.Held.{state};
ghost use Rattle.sqlite.specs.State.{HasCleanDisk, Survives};
ghost use Rattle.sqlite_trees.specs.Objects.{version_tree, version_rows};
ghost use Rattle.rs_face.specs.Causes.{one_more, HasCause};
ghost use Rattle.rs_face.specs.Rows.{IsRun};
ghost use Rattle.rs_sqlite.specs.Limits.{max_rows};
ghost use Rattle.rs_sqlite.specs.Keeping.{fault_of, faults_after, KeepsRows, StillKeeps};
ghost use Rattle.rs_sqlite.specs.Tables.{IsOpenedAs, HasRows};

use crate::limits::{MAX_ROWS, RUN_ROWS};
use crate::statements::{fetch, fetch_run, insert, rows_of};
use crate::versions::with_version;
use rs_face::{KeepFault, Keeper};
use sqlite::{Alter, Connection, Error, ErrorCode};
use std::alloc::Global;
use std::marker::Model;

/// A keeper that holds its rows in the table `kept(n INTEGER PRIMARY KEY, bytes BLOB NOT NULL)` of a database.
///
/// `n` is the row's position, counted from 1. Contracts see it as its connection, the number of rows and the number of
/// statements that were refused for another cause than memory.
///
/// As a `Keeper` it tells no rows, since any disk may lie. What is in the table is said by clauses of its own, which hold
/// where the disk is clean (`HasCleanDisk` of `sqlite`): nobody else has written the database, and the disk has returned
/// what was written. [`TellingKeeper`](crate::TellingKeeper) tells the rows over a store that is always clean.
pub struct SqlKeeper<S: Alter> {
    connection: Connection<S>,
    len: u64,
    faults: u64,
}

impl<S: Alter + Drop> Drop for SqlKeeper<S> {
    fn drop(self) {
        let SqlKeeper {
            connection: _,
            len: _,
            faults: _,
        } = self;
    }
}

impl<S: Alter> Model for SqlKeeper<S> {
    ghost use Rattle.rs_sqlite.specs.Keeping.{Keeping, keeping_code};

    ghost Value = { Keeping S };

    ghost coded = { keeping_code S.code };

    ghost use Rattle.std.specs.Prelude.{◌≤◌};
    ghost use Rattle.rs_sqlite.specs.Limits.{max_rows};

    ghost view = { λ k. record { connection = k.connection; rows = k.len; faults = k.faults } };

    ghost invariant = { λ k. k.len ≤ max_rows };
}

impl<S: Alter + Drop> SqlKeeper<S> {
    /// A keeper of the rows of a database. The table is made where it isn't there.
    ///
    /// The connection isn't within a transaction. The answer is `NoMemory` where a statement lacked memory, and else
    /// `Failed`: where a statement was refused, as over a table `kept` of another shape, and where the rows that are
    /// there aren't numbered from 1 without a gap. A database that has the table of rows and nothing else, and a new
    /// one, are opened as the rows that they have.
    pub fn open(connection: Connection<S>) -> Result<SqlKeeper<S>, KeepFault>
        ensures faults { IfOk result (λ keeper. keeper.faults ≡ 0) }
        ensures rows { (rows : List (List ℕ)) → IsOpenedAs (state S.Store connection) rows
            → IfOk result (λ keeper. HasCleanDisk (state S.Store keeper.connection) → KeepsRows S.Store keeper rows) }
        // A disk that is clean now was clean before.
        ensures clean { IfOk result (λ keeper. HasCleanDisk (state S.Store keeper.connection) → HasCleanDisk (state S.Store connection)) }
    {
        let mut connection = connection;
        if !connection.is_autocommit() {
            return Err(KeepFault::Failed);
        }
        match rows_of(&mut connection) {
            Ok(Some(len)) => Ok(SqlKeeper {
                connection,
                len,
                faults: 0,
            }),
            Ok(None) => Err(KeepFault::Failed),
            Err(error) => Err(fault_of(&error)),
        }
    }

    /// How many statements were refused so far for another cause than memory. A number that would pass 2^64 - 1 stays there.
    pub fn faults(&self) -> u64
        ensures faults { result ≡ self.now.faults }
    {
        self.faults
    }

    /// The same keeper, whose count of faults goes on from this number.
    pub fn with_faults(self, faults: u64) -> SqlKeeper<S>
        ensures connection { result.connection ≡ self.connection }
        ensures rows { result.rows ≡ self.rows }
        ensures faults { result.faults ≡ faults }
    {
        let mut keeper = self;
        keeper.faults = faults;
        keeper
    }

    /// The same keeper, whose database has this user version. The rows stay, and are read again, as by an opening.
    ///
    /// The answer is `NoMemory` where memory ran out, and else `Failed`. What was kept is in the files then, and the next
    /// opening finds the user version as it was, or this one.
    pub(crate) fn with_version(self, alloc: Global, version: u32) -> Result<SqlKeeper<S>, KeepFault>
        ensures faults { IfOk result (λ keeper. keeper.faults ≡ self.faults) }
        ensures version { IfOk result (λ keeper. HasCleanDisk (state S.Store keeper.connection)
            → (state S.Store keeper.connection).now.trees version_tree ≡ version_rows version) }
        ensures rows { (rows : List (List ℕ)) → KeepsRows S.Store self rows
            → IfOk result (λ keeper. HasCleanDisk (state S.Store keeper.connection) → KeepsRows S.Store keeper rows) }
    {
        let SqlKeeper {
            connection,
            len,
            faults,
        } = self;
        let connection = with_version(alloc, connection, version)?;
        Ok(SqlKeeper {
            connection,
            len,
            faults,
        })
    }

    /// The connection, to close it.
    pub fn into_connection(self) -> Connection<S>
        ensures same { result ≡ self.connection }
    {
        let SqlKeeper {
            connection,
            len: _,
            faults: _,
        } = self;
        connection
    }
}

impl<S: Alter> Keeper for SqlKeeper<S> {
    ghost rows = { λ _. None };

    ghost row_count = { λ k. k.rows };

    ghost faults = { λ k. k.faults };

    ghost counted = { λ _. tt };

    fn len(&self) -> u64 {
        self.len
    }

    fn read(&mut self, i: u64, out: &mut Vec<u8>) -> Result<(), KeepFault>
        requires { i < self.old.rows }
        ensures err { OnErr result (out.new.items ≡ []) }
        ensures len { self.new.rows ≡ self.old.rows }
        ensures cause { HasCause self.old.faults self.new.faults KeepFault.Failed result }
        ensures quiet { OnOk result (self.new.faults ≡ self.old.faults) }
        ensures no_memory { IsErrOf result KeepFault.NoMemory → self.new.faults ≡ self.old.faults }
        // What is in the table, where the disk is clean.
        ensures row { (rows : List (List ℕ)) → KeepsRows S.Store self.old rows
            → HasCleanDisk (state S.Store self.new.connection) → OnOk result (slice_get rows i ≡ Some out.new.items) }
        ensures kept { (rows : List (List ℕ)) → KeepsRows S.Store self.old rows
            → HasCleanDisk (state S.Store self.new.connection) → StillKeeps S.Store self.new rows }
        // A stop leaves what it could leave before.
        ensures stop { (rows : List (List ℕ)) → KeepsRows S.Store self.old rows
            → Survives (state S.Store self.old.connection) (state S.Store self.new.connection) (λ _. ⊥) }
    {
        out.clear();
        match fetch(&mut self.connection, number_of(i)) {
            Ok(row) => {
                *out = row;
                Ok(())
            }
            Err(error) => Err(self.answer_to(&error)),
        }
    }

    // The rows from `i` on are one scan of the table: at most `RUN_ROWS`, and no more once they have `RUN_BYTES`.
    fn read_run(&mut self, i: u64, out: &mut Vec<Vec<u8>>) -> Result<(), KeepFault>
        requires { i < self.old.rows }
        ensures some { OnOk result (0 < length out.new.items) }
        ensures within { OnOk result (i + length out.new.items ≤ self.old.rows) }
        ensures err { OnErr result (out.new.items ≡ []) }
        ensures len { self.new.rows ≡ self.old.rows }
        ensures cause { HasCause self.old.faults self.new.faults KeepFault.Failed result }
        ensures quiet { OnOk result (self.new.faults ≡ self.old.faults) }
        ensures no_memory { IsErrOf result KeepFault.NoMemory → self.new.faults ≡ self.old.faults }
        // What is in the table, where the disk is clean.
        ensures run { (rows : List (List ℕ)) → KeepsRows S.Store self.old rows
            → HasCleanDisk (state S.Store self.new.connection) → OnOk result (IsRun rows i out.new.items) }
        ensures kept { (rows : List (List ℕ)) → KeepsRows S.Store self.old rows
            → HasCleanDisk (state S.Store self.new.connection) → StillKeeps S.Store self.new rows }
        // A stop leaves what it could leave before.
        ensures stop { (rows : List (List ℕ)) → KeepsRows S.Store self.old rows
            → Survives (state S.Store self.old.connection) (state S.Store self.new.connection) (λ _. ⊥) }
    {
        let alloc = *out.allocator();
        *out = Vec::new(alloc);
        let most = (self.len - i).min(RUN_ROWS);
        match fetch_run(alloc, &mut self.connection, number_of(i), most) {
            Ok(run) => {
                *out = run;
                Ok(())
            }
            Err(error) => Err(self.answer_to(&error)),
        }
    }

    fn append(&mut self, row: &[u8]) -> Result<(), KeepFault>
        ensures len { self.new.rows ≡ (if is_ok result then self.old.rows + 1 else self.old.rows) }
        ensures cause { HasCause self.old.faults self.new.faults KeepFault.Failed result }
        ensures quiet { OnOk result (self.new.faults ≡ self.old.faults) }
        ensures no_memory { IsErrOf result KeepFault.NoMemory → self.new.faults ≡ self.old.faults }
        // What is in the table, where the disk is clean.
        ensures appended { (rows : List (List ℕ)) → KeepsRows S.Store self.old rows
            → HasCleanDisk (state S.Store self.new.connection)
            → OnOk result (KeepsRows S.Store self.new (rows ++ row.now ∷ [])) }
        ensures refused { (rows : List (List ℕ)) → KeepsRows S.Store self.old rows
            → HasCleanDisk (state S.Store self.new.connection) → OnErr result (StillKeeps S.Store self.new rows) }
        // A stop leaves what it could leave before, or the rows with this one.
        ensures stop { (rows : List (List ℕ)) → KeepsRows S.Store self.old rows
            → Survives (state S.Store self.old.connection) (state S.Store self.new.connection)
            (HasRows (rows ++ row.now ∷ [])) }
    {
        if self.len == MAX_ROWS {
            self.count_fault();
            return Err(KeepFault::Failed);
        }
        match insert(&mut self.connection, number_of(self.len), row) {
            Ok(_) => {
                self.len += 1;
                Ok(())
            }
            Err(error) => Err(self.answer_to(&error)),
        }
    }
}

impl<S: Alter> SqlKeeper<S> {
    // What a refused statement is answered with. It is counted, unless it lacked memory.
    fn answer_to(&mut self, error: &Error) -> KeepFault
        ensures fault { result ≡ fault_of error.now }
        ensures connection { self.new.connection ≡ self.old.connection }
        ensures rows { self.new.rows ≡ self.old.rows }
        ensures faults { self.new.faults ≡ faults_after result self.old.faults }
    {
        let fault = fault_of(error);
        if fault == KeepFault::Failed {
            self.count_fault();
        }
        fault
    }

    fn count_fault(&mut self)
        ensures connection { self.new.connection ≡ self.old.connection }
        ensures rows { self.new.rows ≡ self.old.rows }
        ensures faults { self.new.faults ≡ one_more self.old.faults }
    {
        self.faults = self.faults.saturating_add(1);
    }
}

/// What a refused statement is answered with.
pub(crate) fn fault_of(error: &Error) -> KeepFault
    ensures { result ≡ fault_of error.now }
{
    match error {
        Error::SqliteFailure(ErrorCode::OutOfMemory) => KeepFault::NoMemory,
        _ => KeepFault::Failed,
    }
}

// The number in the table of the row at this place.
fn number_of(place: u64) -> i64
    requires { place < max_rows }
    ensures { result ≡ pos (1 + place) }
{
    place as i64 + 1
}
