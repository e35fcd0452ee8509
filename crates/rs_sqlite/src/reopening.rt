//! A keeper over files, from one opening to the next.
ghost use Rattle.std.specs.Prelude.{◌≡◌, ℕ, List, IfOk};
ghost use Rattle.sqlite.specs.Files.{over_files, file_state, IsOpened};
ghost use Rattle.sqlite.specs.State.{HasCleanDisk, IsLive};
ghost use Rattle.rs_sqlite.specs.Keeping.{KeepsRows};

use crate::sql_keeper::{SqlKeeper, fault_of};
use rs_face::KeepFault;
use sqlite::{Connection, FileStore, Options};
use sqlite_disk::Disk;
use std::alloc::Global;

/// Closes the files of a keeper and opens them again: the rows that it kept are there, where the disk is clean
/// (`HasCleanDisk` of `sqlite`) in the end.
///
/// `NoMemory` where closing or opening lacked memory, and else `Failed`: what is left of the files is closed then.
pub fn reopen<D: Disk + Drop>(
    alloc: Global,
    keeper: SqlKeeper<FileStore<D>>,
    options: Options,
) -> Result<SqlKeeper<FileStore<D>>, KeepFault>
    ensures rows { (rows : List (List ℕ)) → KeepsRows over_files keeper rows
        → IfOk result (λ again. HasCleanDisk (file_state again.connection) → KeepsRows over_files again rows) }
{
    SqlKeeper::open(reconnect(alloc, keeper.into_connection(), options)?)
}

// Closes the files of a connection and opens them again: what was committed is there.
fn reconnect<D: Disk + Drop>(
    alloc: Global,
    connection: Connection<FileStore<D>>,
    options: Options,
) -> Result<Connection<FileStore<D>>, KeepFault>
    ensures live { IsLive (file_state connection) }
    ensures opened { IfOk result (λ again. HasCleanDisk (file_state again) → IsOpened again) }
    ensures same { IfOk result (λ again. HasCleanDisk (file_state again)
        → (file_state again).committed.trees ≡ (file_state connection).committed.trees) }
{
    let _schema = connection.schema();
    let files = match connection.close_files() {
        Ok(files) => files,
        Err((error, _)) => return Err(fault_of(&error)),
    };
    match Connection::open_files(alloc, files, options) {
        Ok(again) => Ok(again),
        Err((error, _)) => Err(fault_of(&error)),
    }
}
