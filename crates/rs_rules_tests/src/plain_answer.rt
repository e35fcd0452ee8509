//! The answer once more, for the tests: a small plain program over a flat list of records, without a tree.

use rs_path::{Child, Entry, Items, Path, Tag};
use rs_record::Record;
use rs_rules::{Call, Cond, Doc, Pass, Placed, Reply, Request};
use rs_scope::{Method, Scopes, Token, free_read, reaches};
use std::alloc::Global;
use std::cmp::Ordering;
use std::collections::BTreeSet;
use std::test::Fail;

const MAX_RECORDS: u64 = 4_294_967_295;

const MAX_ITEMS: usize = 50_000;

/// What the steps look at: the records, how many went before them and left nothing, and the documents that they left.
#[derive(Drop)]
pub struct Seen<'a> {
    alloc: Global,
    before: u64,
    records: &'a [Record],
    docs: Vec<Placed>,
}

/// What is seen after `before` records that left nothing and then these records.
pub fn look_at(alloc: Global, before: u64, records: &[Record]) -> Result<Seen<'_>, Fail> {
    Ok(Seen {
        alloc,
        before,
        records,
        docs: documents(alloc, before, records)?,
    })
}

/// The reply to a request under a quota in bytes.
pub fn answer(seen: &Seen<'_>, quota: u64, request: &Request) -> Result<Reply, Fail> {
    match request {
        Request::Store(call) => answer_call(seen, quota, call),
        Request::Grant { token, .. } => Ok(answer_grant(seen, token)),
        Request::Revoke { token } => Ok(answer_revoke(seen, token)),
    }
}

fn answer_grant(seen: &Seen<'_>, token: &Token) -> Reply {
    if MAX_RECORDS <= count(seen.before, seen.records) {
        Reply::RecordsFull
    } else if scopes(seen.records, token).is_some() {
        Reply::TokenTaken
    } else {
        Reply::Granted
    }
}

fn answer_revoke(seen: &Seen<'_>, token: &Token) -> Reply {
    if scopes(seen.records, token).is_none() {
        Reply::NotGranted
    } else if MAX_RECORDS <= count(seen.before, seen.records) {
        Reply::RecordsFull
    } else {
        Reply::Revoked
    }
}

// ---- the fifteen steps

fn answer_call(seen: &Seen<'_>, quota: u64, call: &Call) -> Result<Reply, Fail> {
    if let Some(reply) = refusal(seen, call) {
        return Ok(reply);
    }
    if let Some(reply) = misfit(seen, call)? {
        return Ok(reply);
    }
    if let Some(reply) = condition(seen, call)? {
        return Ok(reply);
    }
    if let Some(reply) = limit(seen, quota, call)? {
        return Ok(reply);
    }
    outcome(seen, call)
}

// 1 to 3.
fn refusal(seen: &Seen<'_>, call: &Call) -> Option<Reply> {
    if free_read(call.method, &call.path) {
        return None;
    }
    match &call.pass {
        Pass::Missing => Some(Reply::NoToken),
        Pass::Strange => Some(Reply::BadToken),
        Pass::Known(token) => match scopes(seen.records, token) {
            None => Some(Reply::BadToken),
            Some(scopes) => {
                if reaches(scopes, call.method, &call.path) {
                    None
                } else {
                    Some(Reply::Forbidden)
                }
            }
        },
    }
}

// 4 to 6.
fn misfit(seen: &Seen<'_>, call: &Call) -> Result<Option<Reply>, Fail> {
    if !call.method.is_reading() && call.path.is_folder() {
        return Ok(Some(Reply::FolderWrite));
    }
    if call.method == Method::Put {
        return Ok(match clash(seen, &call.path)? {
            Some(path) => Some(Reply::Clash { path }),
            None => None,
        });
    }
    if is_there(seen, &call.path) {
        Ok(None)
    } else {
        Ok(Some(Reply::Absent))
    }
}

// 7 to 9.
fn condition(seen: &Seen<'_>, call: &Call) -> Result<Option<Reply>, Fail> {
    let version = version(seen, &call.path);
    let asked = !matches!(&call.if_match, Cond::Missing);
    if asked && !names(seen, &call.if_match, &call.path, false)? {
        return Ok(Some(Reply::Unmet));
    }
    if !names(seen, &call.if_none, &call.path, true)? {
        return Ok(None);
    }
    if call.method.is_reading() {
        Ok(Some(Reply::Same { version }))
    } else {
        Ok(Some(Reply::Unmet))
    }
}

// 10 to 12.
fn limit(seen: &Seen<'_>, quota: u64, call: &Call) -> Result<Option<Reply>, Fail> {
    if !call.method.is_reading() && MAX_RECORDS <= count(seen.before, seen.records) {
        return Ok(Some(Reply::RecordsFull));
    }
    if call.method != Method::Put {
        return Ok(None);
    }
    let after = sum_without(seen, Some(&call.path)).saturating_add(
        call.body.as_slice().len() as u64,
    );
    if quota < after {
        return Ok(Some(Reply::OverQuota {
            live: sum_without(seen, None),
        }));
    }
    for folder in call.path.ancestors()?.as_slice() {
        if MAX_ITEMS < item_count_with(seen, folder, &call.path)? {
            return Ok(Some(Reply::FolderFull {
                path: folder.copy()?,
            }));
        }
    }
    Ok(None)
}

// 13 to 15.
fn outcome(seen: &Seen<'_>, call: &Call) -> Result<Reply, Fail> {
    let version = version(seen, &call.path);
    match call.method {
        Method::Get | Method::Head => shown(seen, &call.path),
        Method::Put => Ok(Reply::Stored {
            version: count(seen.before, seen.records).saturating_add(1),
            created: !is_there(seen, &call.path),
        }),
        Method::Delete => Ok(Reply::Removed { version }),
    }
}

fn shown(seen: &Seen<'_>, path: &Path) -> Result<Reply, Fail> {
    if path.is_folder() {
        return Ok(Reply::Folder {
            version: version(seen, path),
            items: items(seen, path)?,
        });
    }
    let doc = document(seen, path).ok_or("a document that isn't there")?;
    Ok(Reply::Found {
        version: doc.version,
        kind: doc.kind.copy()?,
        body: doc.body.copy()?,
    })
}

// ---- what the records left

fn count(before: u64, records: &[Record]) -> u64 {
    before.saturating_add(records.len() as u64)
}

// The scopes of the token's last Grant or Revoke, where that is a Grant.
fn scopes<'a>(records: &'a [Record], token: &Token) -> Option<&'a Scopes> {
    let mut last = None;
    for record in records {
        match record {
            Record::Grant { token: to, scopes } => {
                if to == token {
                    last = Some(scopes);
                }
            }
            Record::Revoke { token: from } => {
                if from == token {
                    last = None;
                }
            }
            _ => {}
        }
    }
    last
}

// The documents: from the last record back, what the first Put or Remove of each path says.
fn documents(alloc: Global, before: u64, records: &[Record]) -> Result<Vec<Placed>, Fail> {
    let mut decided = BTreeSet::new(alloc);
    let mut docs = Vec::new(alloc);
    let mut number = count(before, records);
    for record in records.iter().rev() {
        match record {
            Record::Put {
                path,
                kind,
                body,
                ..
            } => {
                if decided.insert(path)? {
                    docs.push(Placed {
                        path: path.copy()?,
                        doc: Doc {
                            version: number,
                            kind: kind.copy()?,
                            body: body.copy()?,
                        },
                    })?;
                }
            }
            Record::Remove { path, .. } => {
                decided.insert(path)?;
            }
            _ => {}
        }
        number = number.saturating_sub(1);
    }
    Ok(docs)
}

fn document<'a>(seen: &'a Seen<'_>, path: &Path) -> Option<&'a Doc> {
    for placed in seen.docs.as_slice() {
        if placed.path == *path {
            return Some(&placed.doc);
        }
    }
    None
}

// Folders are always there to be read.
fn is_there(seen: &Seen<'_>, path: &Path) -> bool {
    path.is_folder() || document(seen, path).is_some()
}

fn has_below(seen: &Seen<'_>, folder: &Path) -> bool {
    for placed in seen.docs.as_slice() {
        if placed.path.starts_with(folder) {
            return true;
        }
    }
    false
}

fn version(seen: &Seen<'_>, path: &Path) -> u64 {
    if !path.is_folder() {
        return match document(seen, path) {
            Some(doc) => doc.version,
            None => 0,
        };
    }
    if path.depth() == 0 || has_below(seen, path) {
        greatest_below(seen, path)
    } else {
        0
    }
}

// The greatest number of a Put or Remove below the folder.
fn greatest_below(seen: &Seen<'_>, folder: &Path) -> u64 {
    let mut greatest = 0;
    let mut number = seen.before;
    for record in seen.records {
        number = number.saturating_add(1);
        let below = match record {
            Record::Put { path, .. } | Record::Remove { path, .. } => path.starts_with(folder),
            _ => false,
        };
        if below {
            greatest = number;
        }
    }
    greatest
}

// The sum of the lengths of the bodies, without that of one path.
fn sum_without(seen: &Seen<'_>, path: Option<&Path>) -> u64 {
    let mut sum: u64 = 0;
    for placed in seen.docs.as_slice() {
        let counts = match path {
            Some(path) => placed.path != *path,
            None => true,
        };
        if counts {
            sum = sum.saturating_add(placed.doc.body.as_slice().len() as u64);
        }
    }
    sum
}

// Whether the condition names what is at the path; a weak tag only where it may.
fn names(seen: &Seen<'_>, cond: &Cond, path: &Path, weakly: bool) -> Result<bool, Fail> {
    let there = is_there(seen, path);
    match cond {
        Cond::Missing => Ok(false),
        Cond::Any => Ok(there),
        Cond::Tags(tags) => {
            let own = Tag::of(seen.alloc, version(seen, path))?;
            for listed in tags.as_slice() {
                if there && listed.tag == own && (weakly || !listed.weak) {
                    return Ok(true);
                }
            }
            Ok(false)
        }
    }
}

// What a document at the path clashes with: the first document from `/` that it would be below, or the folder with its
// names.
fn clash(seen: &Seen<'_>, path: &Path) -> Result<Option<Path>, Fail> {
    let mut first: Option<&Path> = None;
    for placed in seen.docs.as_slice() {
        let above = placed.path.depth() < path.depth()
            && path.names().starts_with(placed.path.names());
        let nearer = match first {
            Some(found) => placed.path.depth() < found.depth(),
            None => true,
        };
        if above && nearer {
            first = Some(&placed.path);
        }
    }
    if let Some(found) = first {
        return Ok(Some(found.copy()?));
    }
    let folder = folder_of(seen.alloc, path)?;
    if has_below(seen, &folder) {
        Ok(Some(folder))
    } else {
        Ok(None)
    }
}

// The folder with a document's names.
fn folder_of(alloc: Global, path: &Path) -> Result<Path, Fail> {
    let mut text = Vec::new(alloc);
    path.write_plain(&mut text)?;
    text.push(b'/')?;
    Ok(Path::read_plain(alloc, text.as_slice())?)
}

// The number of items of a folder that the path is below, with a document there: the documents in it, each once, and
// the folders in it.
fn item_count_with(seen: &Seen<'_>, folder: &Path, path: &Path) -> Result<usize, Fail> {
    let mut documents: usize = 0;
    let mut folders = BTreeSet::new(seen.alloc);
    for placed in seen.docs.as_slice() {
        if is_in(folder, &placed.path) {
            documents = documents.saturating_add(1);
        } else if let Some(child) = child_towards(folder, &placed.path)? {
            folders.insert(child)?;
        }
    }
    if is_in(folder, path) {
        if document(seen, path).is_none() {
            documents = documents.saturating_add(1);
        }
    } else if let Some(child) = child_towards(folder, path)? {
        folders.insert(child)?;
    }
    Ok(documents.saturating_add(folders.len()))
}

// The document is in the folder itself.
fn is_in(folder: &Path, path: &Path) -> bool {
    path.depth() == folder.depth().saturating_add(1) && path.starts_with(folder)
}

// The children of a folder, in their order.
fn children(seen: &Seen<'_>, folder: &Path) -> Result<BTreeSet<Child>, Fail> {
    let mut children = BTreeSet::new(seen.alloc);
    for placed in seen.docs.as_slice() {
        if let Some(child) = child_towards(folder, &placed.path)? {
            children.insert(child)?;
        }
    }
    Ok(children)
}

// The child of the folder that the document is, or is below.
fn child_towards(folder: &Path, path: &Path) -> Result<Option<Child>, Fail> {
    if !path.starts_with(folder) {
        return Ok(None);
    }
    match path.names().get(folder.depth() as usize) {
        Some(name) => Ok(Some(Child {
            name: name.copy()?,
            folder: !is_in(folder, path),
        })),
        None => Ok(None),
    }
}

fn items(seen: &Seen<'_>, folder: &Path) -> Result<Items, Fail> {
    let mut items = Items::new(seen.alloc);
    for child in children(seen, folder)?.iter() {
        let item = item(seen, folder, child)?;
        let ascends = items
            .as_slice()
            .iter()
            .all(|earlier| earlier.cmp_key(&item) == Ordering::Less);
        let plain = !item.folder || (item.kind.is_none() && item.length.is_none());
        if ascends && plain {
            items.push(item)?;
        }
    }
    Ok(items)
}

fn item(seen: &Seen<'_>, folder: &Path, child: &Child) -> Result<Entry, Fail> {
    let mut text = Vec::new(seen.alloc);
    folder.write_plain(&mut text)?;
    text.extend_from_slice(child.name.as_slice())?;
    if child.folder {
        text.push(b'/')?;
    }
    let path = Path::read_plain(seen.alloc, text.as_slice())?;
    let tag = Tag::of(seen.alloc, version(seen, &path))?;
    if child.folder {
        return Ok(Entry {
            name: child.name.copy()?,
            folder: true,
            tag,
            kind: None,
            length: None,
        });
    }
    let doc = document(seen, &path).ok_or("a child that isn't there")?;
    Ok(Entry {
        name: child.name.copy()?,
        folder: false,
        tag,
        kind: Some(doc.kind.copy()?),
        length: Some(doc.body.as_slice().len() as u64),
    })
}
