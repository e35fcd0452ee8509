//! What a reply says to an ask (RFC 9110, section 15; draft-dejong-remotestorage, sections 4 to 6).

ghost use Rattle.std.specs.Prelude.{◌≡◌, ◌==◌, ◌||◌, IfOk};
ghost use Rattle.rs_folder.specs.FolderReadings.{folder_reading};
ghost use Rattle.rs_talk.specs.AnswerReadings.{tag_shown, kind_shown, document_read, items_read, listing_read, same_read, stored_read, folder_judged, document_judged, put_judged, remove_judged, judged};

use crate::answer::Answer;
use crate::ask::Ask;
use crate::base::Base;
use crate::part::Part;
use crate::shown::{read_kind, read_tag};
use rs_folder::{FolderFault, read_folder};
use rs_path::{NoMemory, Tag};
use rs_wire::{Field, ReplyMessage};
use std::alloc::Global;

/// What this reply says to the ask, or the part of it that is wrong.
pub(crate) fn judge_reply(
    alloc: Global,
    ask: &Ask,
    reply: ReplyMessage,
) -> Result<Result<Answer, Part>, NoMemory>
    ensures judged { IfOk result (λ answer. answer ≡ judged ask.now reply) }
{
    match ask {
        Ask::Folder { known, .. } => judge_folder(alloc, known, &reply),
        Ask::Document { known, .. } => judge_document(alloc, known, reply),
        Ask::Put { .. } => judge_put(alloc, &reply),
        Ask::Remove { .. } => Ok(judge_remove(&reply)),
    }
}

// What it says of a folder.
fn judge_folder(
    alloc: Global,
    known: &Option<Tag>,
    reply: &ReplyMessage,
) -> Result<Result<Answer, Part>, NoMemory>
    ensures judged { IfOk result (λ answer. answer ≡ folder_judged known.now reply.now) }
{
    match reply.status {
        200 => read_listing(alloc, reply),
        304 => Ok(read_same(known)),
        404 => Ok(Ok(Answer::Absent)),
        status => Ok(Ok(Answer::Status(status))),
    }
}

// What it says of a document.
fn judge_document(
    alloc: Global,
    known: &Option<Tag>,
    reply: ReplyMessage,
) -> Result<Result<Answer, Part>, NoMemory>
    ensures judged { IfOk result (λ answer. answer ≡ document_judged known.now reply) }
{
    match reply.status {
        200 => read_document(alloc, reply),
        304 => Ok(read_same(known)),
        404 => Ok(Ok(Answer::Absent)),
        status => Ok(Ok(Answer::Status(status))),
    }
}

// What it says of a document that was to be written.
fn judge_put(alloc: Global, reply: &ReplyMessage) -> Result<Result<Answer, Part>, NoMemory>
    ensures judged { IfOk result (λ answer. answer ≡ put_judged reply.now) }
{
    match reply.status {
        200 | 204 => read_stored(alloc, reply.fields.as_slice(), false),
        201 => read_stored(alloc, reply.fields.as_slice(), true),
        304 => Ok(Err(Part::Head)),
        412 => Ok(Ok(Answer::Unmet)),
        status => Ok(Ok(Answer::Status(status))),
    }
}

// What it says of a document that was to be removed.
fn judge_remove(reply: &ReplyMessage) -> Result<Answer, Part>
    ensures judged { result ≡ remove_judged reply.now }
{
    match reply.status {
        200 | 204 => Ok(Answer::Removed),
        304 => Err(Part::Head),
        404 => Ok(Answer::Absent),
        412 => Ok(Answer::Unmet),
        status => Ok(Answer::Status(status)),
    }
}

// The document that it shows.
fn read_document(alloc: Global, reply: ReplyMessage) -> Result<Result<Answer, Part>, NoMemory>
    ensures read { IfOk result (λ answer. answer ≡ document_read (tag_shown reply.fields) (kind_shown reply.fields) reply.body) }
{
    let Some(tag) = read_tag(alloc, reply.fields.as_slice())? else {
        return Ok(Err(Part::Head));
    };
    let Some(kind) = read_kind(alloc, reply.fields.as_slice())? else {
        return Ok(Err(Part::Head));
    };
    Ok(Ok(Answer::Document(Base {
        tag,
        kind,
        body: reply.body,
    })))
}

// The items of the folder that it shows.
fn read_listing(alloc: Global, reply: &ReplyMessage) -> Result<Result<Answer, Part>, NoMemory>
    ensures read { IfOk result (λ answer. answer ≡ listing_read (tag_shown reply.now.fields) reply.now.body) }
{
    let Some(tag) = read_tag(alloc, reply.fields.as_slice())? else {
        return Ok(Err(Part::Head));
    };
    read_items(alloc, tag, reply.body.as_slice())
}

// The items that the body describes.
fn read_items(alloc: Global, tag: Tag, body: &[u8]) -> Result<Result<Answer, Part>, NoMemory>
    ensures read { IfOk result (λ answer. answer ≡ items_read tag (folder_reading body.now)) }
{
    match read_folder(alloc, body) {
        Ok(items) => Ok(Ok(Answer::Listing { tag, items })),
        Err(FolderFault::NoMemory) => Err(NoMemory),
        Err(_) => Ok(Err(Part::Body)),
    }
}

// That the known version is the present one.
fn read_same(known: &Option<Tag>) -> Result<Answer, Part>
    ensures read { result ≡ same_read known.now }
{
    match known {
        Some(_) => Ok(Answer::Same),
        None => Err(Part::Head),
    }
}

// The version of what was written.
fn read_stored(
    alloc: Global,
    fields: &[Field],
    created: bool,
) -> Result<Result<Answer, Part>, NoMemory>
    ensures read { IfOk result (λ answer. answer ≡ stored_read (tag_shown fields.now) created) }
{
    match read_tag(alloc, fields)? {
        Some(tag) => Ok(Ok(Answer::Stored { tag, created })),
        None => Ok(Err(Part::Head)),
    }
}
