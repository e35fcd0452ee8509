//! A folder of 50,000 documents, which the linked tree opens from rows.

ghost use Rattle.std.specs.Prelude.{◌≡◌, ◌≤◌, ◌<◌, ◌+◌, ◌^◌, true, false, length, IfOk, IsTrue};
ghost use Rattle.rs_record.specs.Records.{is_writable};
ghost use Rattle.rs_rules.specs.Requests.{is_within_limit};

use crate::asking::turn_of;
use crate::draws::{granting, reading, token_of};
use rs_chain::ChainTree;
use rs_face::MemKeeper;
use rs_path::{Bytes, Kind, Path, Tag};
use rs_record::{Record, encode};
use rs_rules::{Call, Cond, Desk, Pass, Reply, Request};
use rs_scope::Method;
use rs_user::{SoloDesk, UserState};
use std::alloc::Global;
use std::process::Abort;
use std::test::Fail;

// ---- rows

// The path of a document, of which the name is the number.
fn path_of(alloc: Global, number: u64) -> Result<Path, Fail>
    ensures document { IfOk result (λ path. path.folder ≡ false) }
{
    let mut text = b"/f/".to_vec(alloc)?;
    text.extend_from_slice(Tag::of(alloc, number)?.as_slice())?;
    let path = Path::read_plain(alloc, text.as_slice())?;
    if path.is_folder() {
        return Err("no document")?;
    }
    Ok(path)
}

fn plain_text(alloc: Global) -> Result<Kind, Fail> {
    Ok(Kind::read(alloc, b"text/plain")?.ok_or("no content type")?)
}

fn one_byte(alloc: Global) -> Result<Bytes, Fail>
    ensures short { IfOk result (λ body. length body ≤ 1) }
{
    Ok(Bytes::of(b"1".to_vec(alloc)?))
}

fn record_of(alloc: Global, number: u64) -> Result<Record, Fail>
    ensures writable { IfOk result (λ what. IsTrue (is_writable what)) }
{
    Ok(Record::Put {
        path: path_of(alloc, number)?,
        kind: plain_text(alloc)?,
        body: one_byte(alloc)?,
        writer: None,
    })
}

// Documents of one byte in `/f/`, in the order of their names.
fn rows(alloc: Global) -> Result<Vec<Bytes>, Fail> {
    let mut rows = Vec::new(alloc);
    for number in 100_000..150_000 {
        let mut row = Vec::new(alloc);
        encode(&record_of(alloc, number)?, &mut row)?;
        rows.push(Bytes::of(row))?;
    }
    Ok(rows)
}

// ---- cases

const CASES: &str = r#"
PUT    | /f/new    | full
PUT    | /f/new/x  | full
PUT    | /f/149999 | replaced
PUT    | /g/new    | created
DELETE | /f/100000 | removed
PUT    | /f/new/x  | created
PUT    | /f/new/y  | created
PUT    | /f/100000 | full
DELETE | /f/new/x  | removed
PUT    | /f/100000 | full
DELETE | /f/new/y  | removed
PUT    | /f/100000 | created
"#;

fn request_of(alloc: Global, method: &str, path: &str) -> Result<Request, Fail>
    ensures short { IfOk result (λ request. is_within_limit request ≡ true) }
{
    Ok(Request::Store(Call {
        method: if method == "PUT" {
            Method::Put
        } else {
            Method::Delete
        },
        path: Path::read_plain(alloc, path.as_bytes())?,
        pass: Pass::Known(token_of(0)),
        if_match: Cond::Missing,
        if_none: Cond::Missing,
        kind: plain_text(alloc)?,
        body: one_byte(alloc)?,
    }))
}

fn case_of(alloc: Global, row: &'static str) -> Result<(Request, &'static str), Fail>
    ensures short { IfOk result (λ case. is_within_limit case.0 ≡ true) }
{
    let mut cells = row.split('|');
    let method = cells.next().ok_or("no method")?.trim();
    let path = cells.next().ok_or("no path")?.trim();
    let reply = cells.next().ok_or("no reply")?.trim();
    Ok((request_of(alloc, method, path)?, reply))
}

fn word_of(reply: &Reply) -> &'static str {
    match reply {
        Reply::Stored { created: true, .. } => "created",
        Reply::Stored { created: false, .. } => "replaced",
        Reply::Removed { .. } => "removed",
        Reply::FolderFull { path } if path.depth() == 1 => "full",
        _ => "another reply",
    }
}

// Each row has its reply.
fn check<R: Abort, D: Desk>(rt: &R, alloc: Global, desk: &mut D) -> Result<(), Fail>
    requires served { D.serves desk.old 0 }
    ensures served { D.serves desk.new 0 }
{
    for row in CASES.trim().split('\n') {
        let (request, wanted) = case_of(alloc, row)?;
        let turn = turn_of(desk, &request)?;
        assert_eq!(rt; word_of(&turn.reply), wanted, "at {row}");
    }
    Ok(())
}

// How many items the folder shows.
fn count<D: Desk>(alloc: Global, desk: &mut D) -> Result<usize, Fail>
    requires served { D.serves desk.old 0 }
    ensures served { D.serves desk.new 0 }
{
    let folder = Path::read_plain(alloc, b"/f/")?;
    let turn = turn_of(desk, &reading(alloc, folder)?)?;
    match &turn.reply {
        Reply::Folder { items, .. } => Ok(items.as_slice().len()),
        _ => Err("no folder")?,
    }
}

fn full_folder<R: Abort, D: Desk>(rt: &R, alloc: Global, desk: &mut D) -> Result<(), Fail>
    requires served { D.serves desk.old 0 }
{
    turn_of(desk, &granting(alloc, token_of(0), b"*:rw")?)?;
    assert_eq!(rt; count(alloc, desk)?, 50_000);
    check(rt, alloc, desk)?;
    assert_eq!(rt; count(alloc, desk)?, 50_000);
    Ok(())
}

#[test]
fn a_full_folder_takes_no_item(rt: HostRuntime) -> Result<(), Fail> {
    let alloc = rt.alloc();
    let mut keeper = MemKeeper::new(rows(alloc)?, Vec::new(alloc));
    let Ok(mut state) = UserState::<ChainTree>::open(alloc, &mut keeper, 60_000) else {
        return Err("rows that aren't opened")?;
    };
    full_folder(&rt, alloc, &mut SoloDesk::new(&mut state, &mut keeper))
}
