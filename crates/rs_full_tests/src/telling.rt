//! Replies as the text of a row.

use rs_path::{Entry, Path, Tag};
use rs_rules::Reply;
use std::alloc::Global;
use std::test::Fail;

fn push_number(alloc: Global, out: &mut Vec<u8>, number: u64) -> Result<(), Fail> {
    out.push(b' ')?;
    out.extend_from_slice(Tag::of(alloc, number)?.as_slice())?;
    Ok(())
}

fn push_path(out: &mut Vec<u8>, path: &Path) -> Result<(), Fail> {
    out.push(b' ')?;
    path.write_plain(out)?;
    Ok(())
}

fn push_item(alloc: Global, out: &mut Vec<u8>, item: &Entry) -> Result<(), Fail> {
    out.extend_from_slice(b", ")?;
    out.extend_from_slice(item.name.as_slice())?;
    out.push(b' ')?;
    out.extend_from_slice(item.tag.as_slice())?;
    if let Some(kind) = &item.kind {
        out.push(b' ')?;
        out.extend_from_slice(kind.as_slice())?;
    }
    if let Some(length) = item.length {
        push_number(alloc, out, length)?;
    }
    Ok(())
}

fn word_of(reply: &Reply) -> &'static [u8] {
    match reply {
        Reply::Folder { .. } => b"Folder",
        Reply::Stored { .. } => b"Stored",
        Reply::Removed { .. } => b"Removed",
        Reply::Same { .. } => b"Same",
        Reply::BadToken => b"BadToken",
        Reply::Forbidden => b"Forbidden",
        Reply::Clash { .. } => b"Clash",
        Reply::Absent => b"Absent",
        Reply::Unmet => b"Unmet",
        Reply::RecordsFull => b"RecordsFull",
        Reply::OverQuota { .. } => b"OverQuota",
        Reply::FolderFull { .. } => b"FolderFull",
        Reply::Granted => b"Granted",
        Reply::NotGranted => b"NotGranted",
        _ => b"a reply that no row has",
    }
}

fn push_parts(alloc: Global, out: &mut Vec<u8>, reply: &Reply) -> Result<(), Fail> {
    match reply {
        Reply::Folder { version, items } => {
            push_number(alloc, out, *version)?;
            for item in items.as_slice() {
                push_item(alloc, out, item)?;
            }
        }
        Reply::Stored { version, created } => {
            push_number(alloc, out, *version)?;
            out.extend_from_slice(if *created { b" created" } else { b" replaced" })?;
        }
        Reply::Removed { version } | Reply::Same { version } | Reply::OverQuota { live: version } =>
            push_number(alloc, out, *version)?,
        Reply::Clash { path } | Reply::FolderFull { path } => push_path(out, path)?,
        _ => {}
    }
    Ok(())
}

/// The reply's name and what it has, as a row writes them.
pub fn text_of(alloc: Global, reply: &Reply) -> Result<Vec<u8>, Fail> {
    let mut out = word_of(reply).to_vec(alloc)?;
    push_parts(alloc, &mut out, reply)?;
    Ok(out)
}
