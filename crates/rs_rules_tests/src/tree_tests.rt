//! Both trees after a few writes, against values worked out by hand, and that each call answers with ample memory.
//!
//! A row is `edits | path | what the tree tells`. Edits are numbered from 1: `PATH=BODY` puts a document, `-PATH` removes it.

ghost use Rattle.std.specs.Prelude.{◌≡◌, false, IfOk, IsTrue};
ghost use Rattle.rs_record.specs.Records.{is_writable};

use crate::rows::{body_of, plain_text};
use rs_chain::ChainTree;
use rs_face::MemKeeper;
use rs_path::{Bytes, Entry, NoMemory, Path, Tag};
use rs_plain::PlainTree;
use rs_record::{Record, encode};
use rs_rules::Tree;
use rs_user::UserState;
use std::alloc::Global;
use std::process::Abort;
use std::test::Fail;

// ---- rows of a table

// The record of an edit.
fn record_of(alloc: Global, edit: &str) -> Result<Record, Fail>
    ensures writable { IfOk result (λ what. IsTrue (is_writable what)) }
{
    match edit.split_once('=') {
        Some((path, body)) => Ok(Record::Put {
            path: document_of(alloc, path)?,
            kind: plain_text(alloc)?,
            body: body_of(alloc, body)?,
            writer: None,
        }),
        None => Ok(Record::Remove {
            path: document_of(alloc, edit.strip_prefix('-').ok_or("no edit")?)?,
            writer: None,
        }),
    }
}

// The path of a document.
fn document_of(alloc: Global, text: &str) -> Result<Path, Fail>
    ensures document { IfOk result (λ path. path.folder ≡ false) }
{
    let path = Path::read_plain(alloc, text.as_bytes())?;
    if path.is_folder() {
        return Err("no document")?;
    }
    Ok(path)
}

// The rows of these edits.
fn rows_of(alloc: Global, edits: &str) -> Result<Vec<Bytes>, Fail> {
    let mut rows = Vec::new(alloc);
    for edit in edits.split(' ') {
        if !edit.is_empty() {
            let mut row = Vec::new(alloc);
            encode(&record_of(alloc, edit)?, &mut row)?;
            rows.push(Bytes::of(row))?;
        }
    }
    Ok(rows)
}

// The state whose tree has taken these edits.
fn grown<T: Tree>(alloc: Global, edits: &str) -> Result<UserState<T>, Fail> {
    let mut keeper = MemKeeper::new(rows_of(alloc, edits)?, Vec::new(alloc));
    match UserState::open(alloc, &mut keeper, 0) {
        Ok(state) => Ok(state),
        Err(_) => Err("an edit that doesn't follow")?,
    }
}

// The state, the path and what the tree tells of a row.
fn case_of<T: Tree>(
    alloc: Global,
    row: &'static str,
) -> Result<(UserState<T>, Path, &'static [u8]), Fail> {
    let mut cells = row.split('|');
    let state = grown(alloc, cells.next().ok_or("no edits")?.trim())?;
    let path = cells.next().ok_or("no path")?.trim();
    let told = cells.next().ok_or("nothing told")?.trim();
    Ok((
        state,
        Path::read_plain(alloc, path.as_bytes())?,
        told.as_bytes(),
    ))
}

// ---- versions

const VERSIONS: &str = r#"
                                 | /        | 0
                                 | /a       | 0
/a/x=hello /a/x=v1               | /        | 2
/a/x=hello /a/x=v1               | /a/      | 2
/a/x=hello /a/x=v1               | /a/x     | 2
/a/x=hello /a/x=v1               | /a       | 0
/a/x=hello /a/x=v1               | /a/x/    | 0
/a/x=hello /a/x=v1 -/a/x         | /        | 3
/a/x=hello /a/x=v1 -/a/x         | /a/      | 0
/a/x=hello /a/x=v1 -/a/x         | /a/x     | 0
/a/b/c/d=hello -/a/b/c/d         | /        | 2
/a/b/c/d=hello -/a/b/c/d         | /a/      | 0
/a/b/c/d=hello -/a/b/c/d         | /a/b/    | 0
/a/b/c/d=hello -/a/b/c/d         | /a/b/c/  | 0
/a/b/c/d=hello -/a/b/c/d         | /a/b/c/d | 0
/a/b/c/d=hello /a/y=v1 -/a/b/c/d | /        | 3
/a/b/c/d=hello /a/y=v1 -/a/b/c/d | /a/      | 3
/a/b/c/d=hello /a/y=v1 -/a/b/c/d | /a/b/    | 0
/a/b/c/d=hello /a/y=v1 -/a/b/c/d | /a/b/c/  | 0
/a/b/c/d=hello /a/y=v1 -/a/b/c/d | /a/y     | 2
/a/x=v1 /b/y=v1                  | /        | 2
/a/x=v1 /b/y=v1                  | /a/      | 1
/a/x=v1 /b/y=v1                  | /a/x     | 1
/a/x=v1 /b/y=v1                  | /b/      | 2
/a/x=v1 -/a/x /a/x=v1            | /a/      | 3
/a/x=v1 -/a/x /a/x=v1            | /a/x     | 3
/a=v1 /ab/x=hello /a.b=v1        | /        | 3
/a=v1 /ab/x=hello /a.b=v1        | /a       | 1
/a=v1 /ab/x=hello /a.b=v1        | /a/      | 0
/a=v1 /ab/x=hello /a.b=v1        | /ab      | 0
/a=v1 /ab/x=hello /a.b=v1        | /ab/     | 2
"#;

// Each row tells the version of its path. The number of rows.
fn check_versions<T: Tree, R: Abort>(rt: &R, alloc: Global) -> Result<usize, Fail> {
    let mut rows: usize = 0;
    for row in VERSIONS.trim().split('\n') {
        rows = rows.saturating_add(1);
        let (state, path, told) = case_of::<T>(alloc, row)?;
        let version = Tag::of(alloc, state.tree().version(&path))?;
        assert_eq!(rt; version.as_slice(), told, "at {row}");
    }
    Ok(rows)
}

#[test]
fn each_write_gives_its_number_up_to_the_root(rt: HostRuntime) -> Result<(), Fail> {
    let alloc = rt.alloc();
    assert_eq!(rt; check_versions::<PlainTree, _>(&rt, alloc)?, 31);
    assert_eq!(rt; check_versions::<ChainTree, _>(&rt, alloc)?, 31);
    Ok(())
}

// ---- listings

// The items of a folder, each as its name, with `/` behind a folder's, its tag, its content type and `;`.
fn items_of<T: Tree>(alloc: Global, tree: &T, folder: &Path) -> Result<Vec<u8>, Fail> {
    let mut text = Vec::new(alloc);
    if !folder.is_folder() {
        return Err("no folder")?;
    }
    let items = tree.items(folder)?;
    for item in items.as_slice() {
        spell(item, &mut text)?;
    }
    Ok(text)
}

fn spell(item: &Entry, text: &mut Vec<u8>) -> Result<(), NoMemory> {
    text.extend_from_slice(item.name.as_slice())?;
    if item.folder {
        text.push(b'/')?;
    }
    text.push(b' ')?;
    text.extend_from_slice(item.tag.as_slice())?;
    if let Some(kind) = &item.kind {
        text.push(b' ')?;
        text.extend_from_slice(kind.as_slice())?;
    }
    text.push(b';')?;
    Ok(())
}

const LISTINGS: &str = r#"
                                 | /     |
/a/x=hello /a/x=v1               | /     | a/ 2;
/a/x=hello /a/x=v1               | /a/   | x 2 text/plain;
/a/x=hello /a/x=v1               | /x/   |
/a/x=hello /a/x=v1 -/a/x         | /     |
/a/b/c/d=hello -/a/b/c/d         | /     |
/a/b/c/d=hello -/a/b/c/d         | /a/b/ |
/a/b/c/d=hello /a/y=v1 -/a/b/c/d | /     | a/ 3;
/a/b/c/d=hello /a/y=v1 -/a/b/c/d | /a/   | y 2 text/plain;
/a/x=v1 /b/y=v1                  | /     | a/ 1;b/ 2;
/a=v1 /ab/x=hello /a.b=v1        | /     | a 1 text/plain;a.b 3 text/plain;ab/ 2;
/notes/a=v1 /notes.txt=v1        | /     | notes.txt 2 text/plain;notes/ 1;
"#;

// Each row tells the items of its folder. The number of rows.
fn check_listings<T: Tree, R: Abort>(rt: &R, alloc: Global) -> Result<usize, Fail> {
    let mut rows: usize = 0;
    for row in LISTINGS.trim().split('\n') {
        rows = rows.saturating_add(1);
        let (state, folder, told) = case_of::<T>(alloc, row)?;
        let items = items_of(alloc, state.tree(), &folder)?;
        assert_eq!(rt; items.as_slice(), told, "at {row}");
    }
    Ok(rows)
}

#[test]
fn a_folder_lists_its_documents_and_folders(rt: HostRuntime) -> Result<(), Fail> {
    let alloc = rt.alloc();
    assert_eq!(rt; check_listings::<PlainTree, _>(&rt, alloc)?, 12);
    assert_eq!(rt; check_listings::<ChainTree, _>(&rt, alloc)?, 12);
    Ok(())
}

// ---- what is in the way

// The number of names that a document at the path clashes with, or `-`.
fn clash_of<T: Tree>(alloc: Global, tree: &T, path: &Path) -> Result<Vec<u8>, Fail> {
    match tree.clash(path) {
        Some(count) => Ok(Tag::of(alloc, count as u64)?.as_slice().to_vec(alloc)?),
        None => Ok(b"-".to_vec(alloc)?),
    }
}

const CLASHES: &str = r#"
                                 | /a/x           | -
/notes/a=v1 /notes.txt=v1        | /notes/a       | -
/notes/a=v1 /notes.txt=v1        | /notes/b       | -
/notes/a=v1 /notes.txt=v1        | /notes         | 1
/notes/a=v1 /notes.txt=v1        | /notes/a/b     | 2
/notes/a=v1 /notes.txt=v1        | /notes/a/b/c/d | 2
/notes/a=v1 /notes.txt=v1        | /notes.txt/a   | 1
/notes/a=v1 /notes.txt=v1        | /note          | -
/a/b/c/d=hello /a/y=v1 -/a/b/c/d | /a/b           | -
/a/b/c/d=hello /a/y=v1 -/a/b/c/d | /a/b/c/d       | -
/a=v1 /ab/x=hello /a.b=v1        | /a/x           | 1
/a=v1 /ab/x=hello /a.b=v1        | /ab            | 1
"#;

// Each row tells what a document at its path clashes with. The number of rows.
fn check_clashes<T: Tree, R: Abort>(rt: &R, alloc: Global) -> Result<usize, Fail> {
    let mut rows: usize = 0;
    for row in CLASHES.trim().split('\n') {
        rows = rows.saturating_add(1);
        let (state, path, told) = case_of::<T>(alloc, row)?;
        let clash = clash_of(alloc, state.tree(), &path)?;
        assert_eq!(rt; clash.as_slice(), told, "at {row}");
        assert_eq!(rt; state.tree().full(&path), None, "at {row}");
    }
    Ok(rows)
}

#[test]
fn a_clash_names_what_is_in_the_way(rt: HostRuntime) -> Result<(), Fail> {
    let alloc = rt.alloc();
    assert_eq!(rt; check_clashes::<PlainTree, _>(&rt, alloc)?, 12);
    assert_eq!(rt; check_clashes::<ChainTree, _>(&rt, alloc)?, 12);
    Ok(())
}

// ---- bodies

// The body of the document at the path, or `-`, and the sum of the lengths of all bodies.
fn bodies_of<T: Tree>(alloc: Global, tree: &T, path: &Path) -> Result<Vec<u8>, Fail> {
    let mut text = match tree.find(path) {
        Some(doc) => doc.body.as_slice().to_vec(alloc)?,
        None => b"-".to_vec(alloc)?,
    };
    text.push(b' ')?;
    text.extend_from_slice(Tag::of(alloc, tree.live())?.as_slice())?;
    Ok(text)
}

const BODIES: &str = r#"
                                 | /a/x  | - 0
/a/x=hello /a/x=v1               | /a/x  | v1 2
/a/x=hello /a/x=v1               | /a    | - 2
/a/x=hello /a/x=v1 -/a/x         | /a/x  | - 0
/a/b/c/d=hello /a/y=v1 -/a/b/c/d | /a/y  | v1 2
/a=v1 /ab/x=hello /a.b=v1        | /ab/x | hello 9
/a/x=v1 -/a/x /a/x=v1            | /a/x  | v1 2
"#;

// Each row tells the body at its path. The number of rows.
fn check_bodies<T: Tree, R: Abort>(rt: &R, alloc: Global) -> Result<usize, Fail> {
    let mut rows: usize = 0;
    for row in BODIES.trim().split('\n') {
        rows = rows.saturating_add(1);
        let (state, path, told) = case_of::<T>(alloc, row)?;
        let bodies = bodies_of(alloc, state.tree(), &path)?;
        assert_eq!(rt; bodies.as_slice(), told, "at {row}");
    }
    Ok(rows)
}

#[test]
fn bodies_are_found_and_counted(rt: HostRuntime) -> Result<(), Fail> {
    let alloc = rt.alloc();
    assert_eq!(rt; check_bodies::<PlainTree, _>(&rt, alloc)?, 7);
    assert_eq!(rt; check_bodies::<ChainTree, _>(&rt, alloc)?, 7);
    Ok(())
}
