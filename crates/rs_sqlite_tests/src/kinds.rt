//! What a database file says that its rows are: the user version in its header.

ghost use Rattle.std.specs.Prelude.{IfOk, IsTrue};
ghost use Rattle.sqlite_disk.specs.Memory.{memory_is_usable};

use crate::keeping::{close_files, copy_of, is_row, one_row, options};
use rs_face::{KeepFault, Keeper};
use rs_sqlite::{FileKind, SqlKeeper, open_files};
use sqlite::{FileStore, Files};
use sqlite_disk::{Disk, Memory};
use std::alloc::Global;
use std::test::Fail;

type Kept = SqlKeeper<FileStore<Memory>>;

// A keeper of a database file that has no log.
fn opened(alloc: Global, db: Memory, kind: FileKind) -> Result<Kept, KeepFault>
    requires { IsTrue (memory_is_usable db) }
{
    let files = Files {
        log: Memory::new(alloc),
        db,
    };
    open_files(alloc, files, options(), kind)
}

// Whether the header of a database file has this user version.
fn says(db: &Memory, version: &[u8]) -> bool {
    match db.bytes().get(60..64) {
        Some(found) => found == version,
        None => false,
    }
}

// A new database file of the kind, with one row.
fn new_file(alloc: Global, kind: FileKind) -> Result<Memory, Fail>
    ensures { IfOk result (λ db. IsTrue (memory_is_usable db)) }
{
    let mut keeper = opened(alloc, Memory::new(alloc), kind)?;
    keeper.append(b"first")?;
    Ok(close_files(keeper.into_connection())?)
}

#[test]
fn a_new_file_says_what_it_is(rt: HostRuntime) -> Result<(), Fail> {
    let alloc = rt.alloc();
    assert!(rt; says(&new_file(alloc, FileKind::UserRows)?, b"rs\x00\x01"));
    assert!(rt; says(&new_file(alloc, FileKind::Journal)?, b"rs\x00\x02"));
    Ok(())
}

#[test]
fn a_file_of_its_kind_is_opened(rt: HostRuntime) -> Result<(), Fail> {
    let alloc = rt.alloc();
    let db = new_file(alloc, FileKind::Journal)?;
    let mut keeper = opened(alloc, db, FileKind::Journal)?;
    assert_eq!(rt; keeper.len(), 1);
    assert!(rt; is_row(alloc, &mut keeper, 0, b"first")?);
    Ok(())
}

#[test]
fn a_file_of_another_kind_is_refused(rt: HostRuntime) -> Result<(), Fail> {
    let alloc = rt.alloc();
    let rows = new_file(alloc, FileKind::UserRows)?;
    assert_eq!(rt;
        opened(alloc, rows, FileKind::Journal).err(),
        Some(KeepFault::Failed)
    );
    let journal = new_file(alloc, FileKind::Journal)?;
    assert_eq!(rt;
        opened(alloc, journal, FileKind::UserRows).err(),
        Some(KeepFault::Failed)
    );
    Ok(())
}

#[test]
fn a_file_without_a_mark_gets_it(rt: HostRuntime) -> Result<(), Fail> {
    let alloc = rt.alloc();
    let db = one_row(alloc)?;
    assert!(rt; says(&db, b"\x00\x00\x00\x00"));
    let mut keeper = opened(alloc, copy_of(alloc, &db)?, FileKind::UserRows)?;
    assert_eq!(rt; keeper.len(), 1);
    assert!(rt; is_row(alloc, &mut keeper, 0, b"first")?);
    let marked = close_files(keeper.into_connection())?;
    assert!(rt; says(&marked, b"rs\x00\x01"));
    assert_eq!(rt;
        opened(alloc, marked, FileKind::Journal).err(),
        Some(KeepFault::Failed)
    );
    Ok(())
}

#[test]
fn a_header_in_the_log_alone_is_found(rt: HostRuntime) -> Result<(), Fail> {
    let alloc = rt.alloc();
    let mut keeper = opened(alloc, Memory::new(alloc), FileKind::Journal)?;
    keeper.append(b"first")?;
    let left = keeper.into_connection().into_store().close();
    for kind in [FileKind::UserRows, FileKind::Journal] {
        let files = Files {
            log: copy_of(alloc, &left.log)?,
            db: copy_of(alloc, &left.db)?,
        };
        let found = open_files(alloc, files, options(), kind);
        assert_eq!(rt; found.is_ok(), kind == FileKind::Journal);
    }
    Ok(())
}

#[test]
fn a_user_version_that_is_no_mark_is_refused(rt: HostRuntime) -> Result<(), Fail> {
    let alloc = rt.alloc();
    let mut db = one_row(alloc)?;
    db.write_at(60, &[0, 0, 0, 7])?;
    assert_eq!(rt;
        opened(alloc, db, FileKind::UserRows).err(),
        Some(KeepFault::Failed)
    );
    Ok(())
}
