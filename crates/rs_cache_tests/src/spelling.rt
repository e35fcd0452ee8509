//! Journals as texts, and their rows, which are made here by the tables of FORMATS and by no call of the crate.
//!
//! Events are divided by `; `, and their parts by a space, and `+` stands for a space in a path: `connect notes:rw`, `edit /a put v`, `edit /a remove`, `sent /a`,
//! `accepted /a 3`, `absorbed /a 3`, `held /a 409`, `conflict /a 5 w`, `pulled /a 3 v`, `gone /a`, `settled / 3`, `unsettled /`,
//! `resolved 1 keep`. A tag that isn't there is `-`, and the documents are of the type `text/plain`.

use rs_face::NoFailKeeper;
use rs_path::Bytes;
use std::alloc::Global;
use std::test::Fail;

/// The root of each account.
pub(crate) const ROOT: &[u8] = b"http://localhost/storage/alice";

const KIND: &[u8] = b"text/plain";

/// A keeper of the rows of the journal.
pub(crate) fn keeper_of(alloc: Global, journal: &str) -> Result<NoFailKeeper, Fail> {
    Ok(NoFailKeeper::new(rows_of(alloc, journal)?))
}

/// The rows of the journal. An empty text is one without an event.
pub(crate) fn rows_of(alloc: Global, journal: &str) -> Result<Vec<Bytes>, Fail> {
    let mut rows = Vec::new(alloc);
    for event in journal.split(';') {
        let event = event.trim();
        if !event.is_empty() {
            rows.push(Bytes::of(row_of(alloc, event)?))?;
        }
    }
    Ok(rows)
}

/// The row of the event.
pub(crate) fn row_of(alloc: Global, event: &str) -> Result<Vec<u8>, Fail> {
    let (name, rest) = event.split_once(' ').ok_or("an event without parts")?;
    let mut row = Vec::new(alloc);
    row.push(1)?;
    row.push(number_of(name)?)?;
    if name == "connect" {
        push_connect(&mut row, rest)?;
    } else if name == "resolved" {
        push_resolved(&mut row, rest)?;
    } else {
        push_path_event(&mut row, name, rest)?;
    }
    Ok(row)
}

fn number_of(name: &str) -> Result<u8, Fail> {
    Ok(match name {
        "connect" => 16,
        "edit" => 17,
        "sent" => 18,
        "accepted" => 19,
        "absorbed" => 20,
        "held" => 21,
        "conflict" => 22,
        "pulled" => 23,
        "gone" => 24,
        "settled" => 25,
        "unsettled" => 26,
        "resolved" => 27,
        _ => return Err("no event".into()),
    })
}

fn push_connect(row: &mut Vec<u8>, scopes: &str) -> Result<(), Fail> {
    push_text(row, 2, ROOT)?;
    push_text(row, 2, b"T")?;
    push_text(row, 2, scopes.as_bytes())
}

fn push_resolved(row: &mut Vec<u8>, parts: &str) -> Result<(), Fail> {
    let (n, how) = parts.split_once(' ').ok_or("no way to resolve")?;
    push_number(row, 8, number(n)?)?;
    row.push(if how == "keep" { 1 } else { 2 })?;
    Ok(())
}

// What comes behind the number of an event that has a path.
fn push_path_event(row: &mut Vec<u8>, name: &str, parts: &str) -> Result<(), Fail> {
    let (path, rest) = parts.split_once(' ').unwrap_or((parts, ""));
    push_path(row, path)?;
    match name {
        "edit" => push_change(row, rest),
        "accepted" | "absorbed" | "settled" => push_tag(row, rest),
        "held" => push_number(row, 2, number(rest)?),
        "conflict" | "pulled" => push_document(row, rest),
        _ => Ok(()),
    }
}

fn push_path(row: &mut Vec<u8>, path: &str) -> Result<(), Fail> {
    push_number(row, 2, path.len() as u64)?;
    for byte in path.as_bytes() {
        row.push(if *byte == b'+' { b' ' } else { *byte })?;
    }
    Ok(())
}

fn push_change(row: &mut Vec<u8>, change: &str) -> Result<(), Fail> {
    match change.split_once(' ') {
        Some((_, body)) => {
            row.push(1)?;
            push_content(row, body)
        }
        None => {
            row.push(2)?;
            Ok(())
        }
    }
}

// A tag, and the document behind it where there is one.
fn push_document(row: &mut Vec<u8>, parts: &str) -> Result<(), Fail> {
    match parts.split_once(' ') {
        Some((tag, body)) => {
            push_tag(row, tag)?;
            push_content(row, body)
        }
        None => push_tag(row, parts),
    }
}

fn push_content(row: &mut Vec<u8>, body: &str) -> Result<(), Fail> {
    push_text(row, 1, KIND)?;
    push_text(row, 4, body.as_bytes())
}

fn push_tag(row: &mut Vec<u8>, tag: &str) -> Result<(), Fail> {
    push_text(row, 1, if tag == "-" { b"" } else { tag.as_bytes() })
}

// The length in so many bytes, and the text.
fn push_text(row: &mut Vec<u8>, width: usize, text: &[u8]) -> Result<(), Fail> {
    push_number(row, width, text.len() as u64)?;
    row.extend_from_slice(text)?;
    Ok(())
}

// The number in so many bytes, the greatest first.
fn push_number(row: &mut Vec<u8>, width: usize, n: u64) -> Result<(), Fail> {
    let bytes = n.to_be_bytes();
    let digits = bytes
        .get(bytes.len().saturating_sub(width)..)
        .ok_or("a wide number")?;
    row.extend_from_slice(digits)?;
    Ok(())
}

fn number(text: &str) -> Result<u64, Fail> {
    Ok(text.parse::<u64>().ok().ok_or("no number")?)
}
