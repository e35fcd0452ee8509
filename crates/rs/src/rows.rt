//! Rows in a database file: those of a user in `rows.db` of the present folder or another, those of a client in its `journal.db`.

ghost use Rattle.std.specs.Prelude.{◌≡◌, IfOk};

use crate::running::RowsPlace;
use crate::serving::UserFiles;
use rs_face::{KeepFault, Keeper};
use rs_sqlite::{FileKind, SqlKeeper, open_files};
use sqlite::{File, FileStore, Options, Unknown};
use sqlite_std_file::{OpenError, open};
use std::hash::{BuildHasher, RandomState};
use std::io::ErrorKind;

/// A keeper of the rows of a file. It tells no rows, since any disk may lie.
// A type of its own, so that what generic functions know of it isn't proved anew of all parts of SQLite in each of them.
#[derive(Drop)]
pub struct FileRows {
    keeper: SqlKeeper<FileStore<File>>,
}

impl FileRows {
    // Goes on with this count of faults.
    fn with_faults(self, faults: u64) -> FileRows
        ensures faults { result.keeper.faults ≡ faults }
    {
        FileRows {
            keeper: self.keeper.with_faults(faults),
        }
    }

    // How many reads and appends failed so far.
    fn faults(&self) -> u64
        ensures faults { result ≡ self.now.keeper.faults }
    {
        self.keeper.faults()
    }
}

impl Keeper for FileRows {
    ghost use Rattle.std.specs.Prelude.{None};

    ghost rows = { λ _. None };

    ghost row_count = { λ f. f.keeper.rows };

    ghost faults = { λ f. f.keeper.faults };

    ghost counted = { λ _. tt };

    fn len(&self) -> u64 {
        self.keeper.len()
    }

    fn read(&mut self, i: u64, out: &mut Vec<u8>) -> Result<(), KeepFault> {
        self.keeper.read(i, out)
    }

    fn read_run(&mut self, i: u64, out: &mut Vec<Vec<u8>>) -> Result<(), KeepFault> {
        self.keeper.read_run(i, out)
    }

    fn append(&mut self, row: &[u8]) -> Result<(), KeepFault> {
        self.keeper.append(row)
    }
}

/// How many pages of the file are kept in memory. They are enough for the way to a row, and a run reads each row once.
const CACHE_PAGES: usize = 64;

/// A file of rows in the folder that the program runs in. It tells no rows, since any disk may lie.
#[derive(Drop)]
pub struct RowsInFile<'a> {
    rt: &'a HostRuntime,
    name: &'static str,
    kind: FileKind,
    faults: u64,
    is_opened: bool,
}

impl<'a> RowsInFile<'a> {
    /// The rows of a user, in `rows.db`.
    pub fn of_user(rt: &'a HostRuntime) -> RowsInFile<'a> {
        RowsInFile::at(rt, "rows.db", FileKind::UserRows)
    }

    /// The rows of a client's journal, in `journal.db`.
    pub fn of_journal(rt: &'a HostRuntime) -> RowsInFile<'a> {
        RowsInFile::at(rt, "journal.db", FileKind::Journal)
    }

    fn at(rt: &'a HostRuntime, name: &'static str, kind: FileKind) -> RowsInFile<'a> {
        RowsInFile {
            rt,
            name,
            kind,
            faults: 0,
            is_opened: false,
        }
    }
}

impl RowsPlace for RowsInFile<'_> {
    type Rows = FileRows;

    ghost use Rattle.std.specs.Prelude.{None};

    ghost kept = { λ _. None };

    ghost faults = { λ s. s.faults };

    ghost is_opened = { λ s. s.is_opened };

    fn open(&mut self) -> Result<FileRows, KeepFault> {
        self.is_opened = true;
        match open_rows(self.rt, self.name, self.kind) {
            Ok(rows) => Ok(rows.with_faults(self.faults)),
            Err(KeepFault::Failed) => {
                self.faults = self.faults.saturating_add(1);
                Err(KeepFault::Failed)
            }
            Err(KeepFault::NoMemory) => Err(KeepFault::NoMemory),
        }
    }

    /// Where this fails, what was kept is in the log beside the file, and the next opening takes it.
    fn close(&mut self, rows: FileRows) {
        self.faults = rows.faults();
        close_rows(rows);
    }
}

/// The files of the system.
#[derive(Drop)]
pub struct SystemFiles<'a> {
    rt: &'a HostRuntime,
}

impl<'a> SystemFiles<'a> {
    pub fn new(rt: &'a HostRuntime) -> SystemFiles<'a> {
        SystemFiles { rt }
    }
}

impl UserFiles for SystemFiles<'_> {
    type Rows = FileRows;

    fn open(&self, name: &str) -> Result<FileRows, KeepFault> {
        open_rows(self.rt, name, FileKind::UserRows)
    }

    fn close(&self, rows: FileRows) {
        close_rows(rows);
    }
}

// Opens the rows of this kind in this file, which are none where there is no such file yet. It is one program's at a time,
// and a file of rows of another kind isn't opened.
// With few pages in memory: `Connection::open` would take room for 2,000, 8 MiB, at once.
fn open_rows(rt: &HostRuntime, name: &str, kind: FileKind) -> Result<FileRows, KeepFault> {
    let files = match open(rt, name, Unknown) {
        Ok(files) => files,
        Err(OpenError::OutOfMemory) => return Err(KeepFault::NoMemory),
        Err(OpenError::Io(error)) if error.kind() == ErrorKind::OutOfMemory => {
            return Err(KeepFault::NoMemory);
        }
        Err(_) => return Err(KeepFault::Failed),
    };
    let Ok(state) = RandomState::new(rt) else {
        return Err(KeepFault::Failed);
    };
    let options = Options {
        cache_pages: CACHE_PAGES,
        ..Options::new(state.hash_one(&0u8))
    };
    Ok(FileRows {
        keeper: open_files(rt.alloc(), files, options, kind)?,
    })
}

// Closes rows. Where this fails, what was kept is in the log beside the file, and the next opening takes it.
fn close_rows(rows: FileRows) {
    let _ = rows.keeper.into_connection().close();
}
