//! What is compared: a turn, and what a tree shows of a path, each as a text that leaves nothing out.

use rs_path::{Entry, Kind, Path, Tag};
use rs_rules::{Doc, Reply, Tree, Turn};
use std::alloc::Global;
use std::test::Fail;

/// One bit for each kind of reply. The three highest are those of a store that fails and of what is full.
pub fn bit_of(reply: &Reply) -> u64 {
    match reply {
        Reply::Found { .. } => 0x1,
        Reply::Folder { .. } => 0x2,
        Reply::Stored { created: true, .. } => 0x4,
        Reply::Stored { created: false, .. } => 0x8,
        Reply::Removed { .. } => 0x10,
        Reply::Same { .. } => 0x20,
        Reply::NoToken => 0x40,
        Reply::BadToken => 0x80,
        Reply::Forbidden => 0x100,
        Reply::FolderWrite => 0x200,
        Reply::Clash { .. } => 0x400,
        Reply::Absent => 0x800,
        Reply::Unmet => 0x1000,
        Reply::OverQuota { .. } => 0x2000,
        Reply::Granted => 0x4000,
        Reply::TokenTaken => 0x8000,
        Reply::Revoked => 0x1_0000,
        Reply::NotGranted => 0x2_0000,
        Reply::StoreFailed => 0x4_0000,
        Reply::FolderFull { .. } => 0x8_0000,
        Reply::RecordsFull => 0x10_0000,
    }
}

/// The version of a document that a reply shows, else 0.
pub fn version_in(reply: &Reply) -> u64 {
    match reply {
        Reply::Found { version, .. } => *version,
        _ => 0,
    }
}

fn add_number(alloc: Global, out: &mut Vec<u8>, number: u64) -> Result<(), Fail> {
    out.push(b' ')?;
    out.extend_from_slice(Tag::of(alloc, number)?.as_slice())?;
    Ok(())
}

fn add_path(out: &mut Vec<u8>, path: &Path) -> Result<(), Fail> {
    out.push(b' ')?;
    path.write_plain(out)?;
    Ok(())
}

fn add_content(out: &mut Vec<u8>, kind: &Kind, body: &[u8]) -> Result<(), Fail> {
    out.push(b' ')?;
    out.extend_from_slice(kind.as_slice())?;
    out.push(b' ')?;
    out.extend_from_slice(body)?;
    Ok(())
}

fn add_item(alloc: Global, out: &mut Vec<u8>, item: &Entry) -> Result<(), Fail> {
    out.push(if item.folder { b'/' } else { b',' })?;
    out.extend_from_slice(item.name.as_slice())?;
    out.push(b' ')?;
    out.extend_from_slice(item.tag.as_slice())?;
    if let Some(kind) = &item.kind {
        out.push(b' ')?;
        out.extend_from_slice(kind.as_slice())?;
    }
    if let Some(length) = item.length {
        add_number(alloc, out, length)?;
    }
    Ok(())
}

fn add_parts(alloc: Global, out: &mut Vec<u8>, reply: &Reply) -> Result<(), Fail> {
    match reply {
        Reply::Found {
            version,
            kind,
            body,
        } => {
            add_number(alloc, out, *version)?;
            add_content(out, kind, body.as_slice())?;
        }
        Reply::Folder { version, items } => {
            add_number(alloc, out, *version)?;
            for item in items.as_slice() {
                add_item(alloc, out, item)?;
            }
        }
        Reply::Stored { version, .. }
        | Reply::Removed { version }
        | Reply::Same { version }
        | Reply::OverQuota { live: version } => add_number(alloc, out, *version)?,
        Reply::Clash { path } | Reply::FolderFull { path } => add_path(out, path)?,
        _ => {}
    }
    Ok(())
}

/// The kind of a turn's reply, the number of records before it, and all that the reply has.
pub fn text_of(alloc: Global, turn: &Turn) -> Result<Vec<u8>, Fail> {
    let mut out = Vec::new(alloc);
    add_number(alloc, &mut out, bit_of(&turn.reply))?;
    add_number(alloc, &mut out, turn.front)?;
    add_parts(alloc, &mut out, &turn.reply)?;
    Ok(out)
}

fn add_count(alloc: Global, out: &mut Vec<u8>, count: Option<u32>) -> Result<(), Fail> {
    match count {
        Some(count) => add_number(alloc, out, count as u64)?,
        None => out.extend_from_slice(b" -")?,
    }
    Ok(())
}

fn add_document(alloc: Global, out: &mut Vec<u8>, doc: &Doc) -> Result<(), Fail> {
    add_number(alloc, out, doc.version)?;
    add_content(out, &doc.kind, doc.body.as_slice())
}

/// What a tree shows of a path: the version, what it clashes with, the full folder, the sum of the bodies, the document.
pub fn shown_of<T: Tree>(alloc: Global, tree: &T, path: &Path) -> Result<Vec<u8>, Fail> {
    let mut out = Vec::new(alloc);
    add_number(alloc, &mut out, tree.version(path))?;
    add_count(alloc, &mut out, tree.clash(path))?;
    add_count(alloc, &mut out, tree.full(path))?;
    add_number(alloc, &mut out, tree.live())?;
    if let Some(doc) = tree.find(path) {
        add_document(alloc, &mut out, doc)?;
    }
    Ok(out)
}
