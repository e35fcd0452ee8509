//! Keepers over database files, which say what their rows are.

ghost use Rattle.std.specs.Prelude.{◌≡◌, IsTrue, IfOk};
ghost use Rattle.sqlite_wal.specs.Reads.{OnlyReads};

use crate::file_kind::FileKind;
use crate::sql_keeper::{SqlKeeper, fault_of};
use rs_face::KeepFault;
use sqlite::{Connection, FileStore, Files, Options};
use sqlite_disk::Disk;
use sqlite_wal::{Error, probe_frames, probe_page_size};
use std::alloc::Global;

/// Where the header of a database file has its user version.
const VERSION_AT: usize = 60;

/// How many bytes the header has.
const HEADER_LEN: usize = 100;

/// How many bytes of a log come before its first frame, and before the page of each frame.
const LOG_HEADER_LEN: usize = 32;

const FRAME_HEADER_LEN: usize = 24;

/// A keeper of the rows of a database file of this kind, which lies with its log.
///
/// A file without a mark is taken, and has the mark then: a new one, and one of a version of `rs` that made none. The
/// answer is `NoMemory` where memory ran out, and else `Failed`: where the files are of another kind, or a database of
/// another program that has a user version, where they can't be read or opened as a database, and as `SqlKeeper::open`.
pub fn open_files<D: Disk + Drop>(
    alloc: Global,
    files: Files<D>,
    options: Options,
    kind: FileKind,
) -> Result<SqlKeeper<FileStore<D>>, KeepFault>
    requires log { IsTrue (D.Disk.is_usable files.log) }
    requires db { IsTrue (D.Disk.is_usable files.db) }
    ensures faults { IfOk result (λ keeper. keeper.faults ≡ 0) }
{
    let mut files = files;
    let version = user_version(alloc, &mut files)?;
    if version != 0 && version != kind.mark() {
        return Err(KeepFault::Failed);
    }
    let keeper = SqlKeeper::open(connect(alloc, files, options)?)?;
    if version != 0 {
        return Ok(keeper);
    }
    keeper.with_version(alloc, kind.mark())
}

fn connect<D: Disk + Drop>(
    alloc: Global,
    files: Files<D>,
    options: Options,
) -> Result<Connection<FileStore<D>>, KeepFault>
    requires log { IsTrue (D.Disk.is_usable files.log) }
    requires db { IsTrue (D.Disk.is_usable files.db) }
{
    match Connection::open_files(alloc, files, options) {
        Ok(connection) => Ok(connection),
        Err((error, _)) => Err(fault_of(&error)),
    }
}

// The user version in the header, as an opening finds it: in the log's last frame of the first page, or else in the file. It
// is 0 where there is no header yet. Nothing is written.
fn user_version<D: Disk>(alloc: Global, files: &mut Files<D>) -> Result<u32, KeepFault>
    requires log { IsTrue (D.Disk.is_usable files.old.log) }
    requires db { IsTrue (D.Disk.is_usable files.old.db) }
    ensures log { OnlyReads D.Disk files.old.log files.new.log }
    ensures db { OnlyReads D.Disk files.old.db files.new.db }
{
    let Ok(size) = probe_page_size(files) else {
        return Err(KeepFault::Failed);
    };
    let Some(size) = size else {
        return Ok(0);
    };
    let frames = match probe_frames(alloc, &mut files.log, size) {
        Ok(frames) => frames,
        Err(error) => return Err(fault_of_log(error)),
    };
    match last_of_first_page(frames.as_slice()) {
        Some(frame) => {
            let place = frame_place(frame, size.bytes()).saturating_add(VERSION_AT);
            read_number(&mut files.log, place)
        }
        None => version_in_file(&mut files.db),
    }
}

// The last frame of the first page, of the pages of the frames.
fn last_of_first_page(frames: &[u32]) -> Option<usize> {
    frames.iter().rposition(|page| *page == 1)
}

// Where the page of a frame begins in the log.
fn frame_place(frame: usize, page_size: usize) -> usize {
    frame
        .saturating_mul(page_size.saturating_add(FRAME_HEADER_LEN))
        .saturating_add(LOG_HEADER_LEN + FRAME_HEADER_LEN)
}

fn version_in_file<D: Disk>(db: &mut D) -> Result<u32, KeepFault>
    requires usable { IsTrue (D.Disk.is_usable db.old) }
    ensures same { OnlyReads D.Disk db.old db.new }
{
    let Ok(len) = db.len() else {
        return Err(KeepFault::Failed);
    };
    if len < HEADER_LEN {
        return Ok(0);
    }
    read_number(db, VERSION_AT)
}

// The number of four bytes at the place.
fn read_number<D: Disk>(file: &mut D, place: usize) -> Result<u32, KeepFault>
    requires usable { IsTrue (D.Disk.is_usable file.old) }
    ensures same { OnlyReads D.Disk file.old file.new }
{
    let mut number = [0; 4];
    if file.read_at(place, &mut number).is_err() {
        return Err(KeepFault::Failed);
    }
    Ok(u32::from_be_bytes(number))
}

// What a log that isn't read is answered with.
fn fault_of_log(error: Error) -> KeepFault {
    match error {
        Error::OutOfMemory => KeepFault::NoMemory,
        _ => KeepFault::Failed,
    }
}
