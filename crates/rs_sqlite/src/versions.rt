//! The user version of a database, which no statement of `sqlite` sets.

ghost use Rattle.std.specs.Prelude.{◌≡◌, ℕ, List, IfOk};
ghost use Rattle.sqlite.specs.Held.{state};
ghost use Rattle.sqlite.specs.State.{HasCleanDisk};
ghost use Rattle.sqlite_trees.specs.Objects.{version_tree, version_rows};
ghost use Rattle.rs_sqlite.specs.FileKinds.{fault_of_store};
ghost use Rattle.rs_sqlite.specs.Tables.{HoldsRows};

use crate::sql_keeper::fault_of;
use rs_face::KeepFault;
use sqlite::{Alter, Connection};
use sqlite_trees::error::StoreError;
use sqlite_trees::store::Store;
use std::alloc::Global;

/// The same database with this user version, committed. Its rows are read again, as by an opening.
///
/// The answer is `NoMemory` where memory ran out, and else `Failed`. The connection is dropped then, and the next opening
/// finds the user version as it was, or this one.
pub(crate) fn with_version<S: Alter + Drop>(
    alloc: Global,
    connection: Connection<S>,
    version: u32,
) -> Result<Connection<S>, KeepFault>
    ensures version { IfOk result (λ again. HasCleanDisk (state S.Store again)
        → (state S.Store again).now.trees version_tree ≡ version_rows version) }
    ensures holds { (rows : List (List ℕ)) → HoldsRows (state S.Store connection) rows
        → IfOk result (λ again. HasCleanDisk (state S.Store again) → HoldsRows (state S.Store again) rows) }
{
    let _schema = connection.schema();
    let mut store = connection.into_store();
    match store.set_version(version) {
        Ok(()) => {}
        Err(error) => return Err(fault_of_store(error)),
    }
    match store.commit() {
        Ok(()) => {}
        Err(error) => return Err(fault_of_store(error)),
    }
    match Connection::over(alloc, store) {
        Ok(again) => Ok(again),
        Err((error, _)) => Err(fault_of(&error)),
    }
}

// What a store's refusal is answered with.
fn fault_of_store(error: StoreError) -> KeepFault
    ensures { result ≡ fault_of_store error }
{
    match error {
        StoreError::OutOfMemory => KeepFault::NoMemory,
        _ => KeepFault::Failed,
    }
}
