//! The fifteen steps, case by case, and a folder of 50,000 items: what the plain program replies.

use crate::plain_answer::{Seen, answer, look_at};
use crate::rows::{case_of, former, owner, plain_text, reader, text_of, token_of};
use crate::step_cases::{
    ABSENT, BAD_TOKEN, CLASH, FOLDER_FULL, FOLDER_WRITE, FORBIDDEN, FREE_READS, FULL_AT_END,
    FULL_OVER_QUOTA, GRANTS, GRANTS_AT_END, LAST_GRANTS, LAST_ITEM, LAST_RECORD, LAST_STEPS,
    LOWERED_QUOTA, NO_TOKEN, OVER_QUOTA, RECORDS_FULL, SAME, UNMET, UNMET_BY_NONE,
};
use rs_path::{Bytes, Path, Tag};
use rs_record::Record;
use rs_rules::Request;
use rs_scope::{Scopes, Token};
use std::alloc::Global;
use std::process::Abort;
use std::test::Fail;

const AMPLE: u64 = 1_073_741_824;

// As many records as leave no room behind the story.
const AT_END: u64 = 4_294_967_285;

// ---- records

fn grant(alloc: Global, token: Token, scopes: &str) -> Result<Record, Fail> {
    Ok(Record::Grant {
        token,
        scopes: Scopes::read(alloc, scopes.as_bytes())?,
    })
}

fn put(alloc: Global, path: &str, body: &str) -> Result<Record, Fail> {
    Ok(Record::Put {
        path: Path::read_plain(alloc, path.as_bytes())?,
        kind: plain_text(alloc)?,
        body: Bytes::of(body.as_bytes().to_vec(alloc)?),
        writer: None,
    })
}

// The owner may all, and the reader may read notes. Left are three documents of 5, 10 and 5 bytes; one was removed, and
// a third token granted and revoked.
fn story(alloc: Global) -> Result<Vec<Record>, Fail> {
    let mut records = Vec::new(alloc);
    records.push(grant(alloc, owner(), "*:rw")?)?;
    records.push(grant(alloc, reader(), "notes:r")?)?;
    records.push(put(alloc, "/a/b", "first")?)?;
    records.push(put(alloc, "/x", "0123456789")?)?;
    records.push(put(alloc, "/public/n/d", "hello")?)?;
    records.push(put(alloc, "/a/b", "hello")?)?;
    records.push(put(alloc, "/gone/g", "hello")?)?;
    records.push(Record::Remove {
        path: Path::read_plain(alloc, b"/gone/g")?,
        writer: None,
    })?;
    records.push(grant(alloc, former(), "*:rw")?)?;
    records.push(Record::Revoke { token: former() })?;
    Ok(records)
}

// ---- rows of the table

// The name, the request and the reply of a row, which begins with its name.
fn named_case_of(
    alloc: Global,
    row: &'static str,
) -> Result<(&'static str, Request, &'static str), Fail> {
    let (name, row) = row.split_once('|').ok_or("no name")?;
    let (request, reply) = case_of(alloc, row)?;
    Ok((name.trim(), request, reply))
}

fn grant_case_of(
    alloc: Global,
    row: &'static str,
) -> Result<(&'static str, Request, &'static str), Fail> {
    let mut cells = row.split('|');
    let name = cells.next().ok_or("no name")?.trim();
    let what = cells.next().ok_or("no deed")?.trim();
    let token = token_of(cells.next().ok_or("nobody")?.trim())?;
    let reply = cells.next().ok_or("no reply")?.trim();
    let request = match what {
        "GRANT" => Request::Grant {
            token,
            scopes: Scopes::read(alloc, b"*:r")?,
        },
        "REVOKE" => Request::Revoke { token },
        _ => Err("no such deed")?,
    };
    Ok((name, request, reply))
}

// ---- the steps

// Each row of the table has its reply. The number of rows.
fn check(
    rt: &impl Abort,
    alloc: Global,
    seen: &Seen<'_>,
    quota: u64,
    table: &'static str,
) -> Result<usize, Fail> {
    let mut rows: usize = 0;
    for row in table.trim().split('\n') {
        rows = rows.saturating_add(1);
        let (name, request, wanted) = named_case_of(alloc, row)?;
        let reply = answer(seen, quota, &request)?;
        let text = text_of(alloc, &reply)?;
        assert_eq!(rt; text.as_slice(), wanted.as_bytes(), "at {name}");
    }
    Ok(rows)
}

fn check_grants(
    rt: &impl Abort,
    alloc: Global,
    seen: &Seen<'_>,
    table: &'static str,
) -> Result<usize, Fail> {
    let mut rows: usize = 0;
    for row in table.trim().split('\n') {
        rows = rows.saturating_add(1);
        let (name, request, wanted) = grant_case_of(alloc, row)?;
        let reply = answer(seen, AMPLE, &request)?;
        let text = text_of(alloc, &reply)?;
        assert_eq!(rt; text.as_slice(), wanted.as_bytes(), "at {name}");
    }
    Ok(rows)
}

#[test]
fn the_first_step_that_applies_replies(rt: HostRuntime) -> Result<(), Fail> {
    let tables = [
        (NO_TOKEN, 0, AMPLE, 13),
        (FREE_READS, 0, AMPLE, 8),
        (BAD_TOKEN, 0, AMPLE, 8),
        (FORBIDDEN, 0, AMPLE, 14),
        (FOLDER_WRITE, 0, AMPLE, 8),
        (CLASH, 0, 20, 10),
        (ABSENT, 0, AMPLE, 9),
        (UNMET, 0, 20, 11),
        (UNMET_BY_NONE, 0, 20, 7),
        (SAME, 0, AMPLE, 7),
        (RECORDS_FULL, AT_END, 20, 11),
        (LAST_RECORD, AT_END - 1, AMPLE, 2),
        (OVER_QUOTA, 0, 20, 4),
        (LOWERED_QUOTA, 0, 5, 4),
        (LAST_STEPS, 0, AMPLE, 13),
    ];
    let alloc = rt.alloc();
    let records = story(alloc)?;
    for (table, before, quota, rows) in tables {
        let seen = look_at(alloc, before, records.as_slice())?;
        let checked = check(&rt, alloc, &seen, quota, table)?;
        assert_eq!(rt; checked, rows);
    }
    Ok(())
}

#[test]
fn grants_and_revokes_have_rules_of_their_own(rt: HostRuntime) -> Result<(), Fail> {
    let tables = [
        (GRANTS, 0, 6),
        (GRANTS_AT_END, AT_END, 5),
        (LAST_GRANTS, AT_END - 1, 2),
    ];
    let alloc = rt.alloc();
    let records = story(alloc)?;
    for (table, before, rows) in tables {
        let seen = look_at(alloc, before, records.as_slice())?;
        let checked = check_grants(&rt, alloc, &seen, table)?;
        assert_eq!(rt; checked, rows);
    }
    Ok(())
}

// ---- a folder of 50,000 items

// The owner's grant, and documents of two bytes in the folder `/f/`, by number from 1.
fn crowd(alloc: Global, count: u64) -> Result<Vec<Record>, Fail> {
    let mut records = Vec::new(alloc);
    records.push(grant(alloc, owner(), "*:rw")?)?;
    for i in 1..=count {
        let mut path = b"/f/".to_vec(alloc)?;
        path.extend_from_slice(Tag::of(alloc, i)?.as_slice())?;
        records.push(Record::Put {
            path: Path::read_plain(alloc, path.as_slice())?,
            kind: plain_text(alloc)?,
            body: Bytes::of(b"ab".to_vec(alloc)?),
            writer: None,
        })?;
    }
    Ok(records)
}

#[test]
fn a_folder_has_at_most_50000_items(rt: HostRuntime) -> Result<(), Fail> {
    let alloc = rt.alloc();
    let records = crowd(alloc, 50_000)?;
    let full = look_at(alloc, 0, records.as_slice())?;
    assert_eq!(rt; check(&rt, alloc, &full, AMPLE, FOLDER_FULL)?, 8);
    assert_eq!(rt; check(&rt, alloc, &full, 100_004, FULL_OVER_QUOTA)?, 2);
    let at_end = look_at(alloc, 4_294_917_294, records.as_slice())?;
    assert_eq!(rt; check(&rt, alloc, &at_end, AMPLE, FULL_AT_END)?, 2);
    let fewer = crowd(alloc, 49_999)?;
    let nearly = look_at(alloc, 0, fewer.as_slice())?;
    assert_eq!(rt; check(&rt, alloc, &nearly, AMPLE, LAST_ITEM)?, 2);
    Ok(())
}
