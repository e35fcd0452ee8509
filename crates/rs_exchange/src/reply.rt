//! Replies, written.

ghost use Rattle.std.specs.Prelude.{◌≡◌, ◌≤◌, true, [], ◌++◌, length, IfOk, OnErr, vec_capacity, if◌then◌else◌};
ghost use Rattle.rs_exchange.specs.Lines.{head_lines};
ghost use Rattle.rs_exchange.specs.Replies.{outline_of, reply_bytes, has_content, listing_of};

use crate::answer::Answer;
use crate::lines::{put_first_lines, put_last_lines};
use crate::manner::Manner;
use crate::outline::outline_of;
use rs_folder::write_folder;
use rs_path::{Bytes, NoMemory};
use rs_rules::Reply;
use std::alloc::Global;

/// The bytes of a reply: its head, and the body that is sent behind it.
#[derive(Debug, Drop)]
pub struct Written {
    pub head: Vec<u8>,
    pub body: Bytes,
}

/// How many bytes the head of a reply without a body of its own may have.
pub const HEAD_ROOM: usize = 1_024;

/// Room for the head of a reply. It is made before a desk is asked, so that the reply to a write takes no memory.
pub fn head_room(alloc: Global) -> Result<Vec<u8>, NoMemory>
    ensures empty { IfOk result (λ room. room.items ≡ []) }
    ensures enough { IfOk result (λ room. HEAD_ROOM ≤ vec_capacity room) }
{
    Ok(Vec::with_capacity(alloc, HEAD_ROOM)?)
}

/// The bytes of the reply that an answer is, its head in that room. A body that the answer has is moved on; a folder's
/// description is made. Memory is wanted for an answer with a part of any length alone, which no answer to a write has.
pub fn write_answer(
    alloc: Global,
    room: Vec<u8>,
    manner: Manner,
    answer: Answer,
) -> Result<Written, NoMemory>
    requires empty { room.items ≡ [] }
    requires enough { HEAD_ROOM ≤ vec_capacity room }
    ensures bytes { IfOk result (λ written. written.head.items ++ written.body ≡ reply_bytes manner answer) }
    ensures made { OnErr result (has_content answer ≡ true) }
{
    let listing = listing_of(alloc, &answer)?;
    let size = size_of(&answer, listing.as_slice());
    let head = head_of(room, manner, &answer, size)?;
    Ok(Written {
        head,
        body: sent_body(alloc, manner.bodiless, answer, listing),
    })
}

// The head of the reply, whose body has so many bytes.
fn head_of(room: Vec<u8>, manner: Manner, answer: &Answer, size: usize) -> Result<Vec<u8>, NoMemory>
    requires empty { room.items ≡ [] }
    requires enough { HEAD_ROOM ≤ vec_capacity room }
    requires size { size ≡ length (outline_of answer.now).body }
    ensures head { IfOk result (λ head. head.items ≡ head_lines manner (outline_of answer.now)) }
    ensures made { OnErr result (has_content answer.now ≡ true) }
{
    let outline = outline_of(answer);
    let mut head = room;
    put_first_lines(&mut head, manner.shared, outline)?;
    put_last_lines(&mut head, manner.closing, outline.status, size)?;
    Ok(head)
}

// The description of a folder that is answered, else nothing.
fn listing_of(alloc: Global, answer: &Answer) -> Result<Bytes, NoMemory>
    ensures listing { IfOk result (λ listing. listing ≡ listing_of answer.now) }
    ensures made { OnErr result (has_content answer.now ≡ true) }
{
    let mut listing = Vec::new(alloc);
    match answer {
        Answer::Decided(Reply::Folder { items, .. }) => write_folder(alloc, items, &mut listing)?,
        _ => {}
    }
    Ok(Bytes::of(listing))
}

// The length of the body, where the description is there.
fn size_of(answer: &Answer, listing: &[u8]) -> usize
    requires listing { listing.now ≡ listing_of answer.now }
    ensures size { result ≡ length (outline_of answer.now).body }
{
    match answer {
        Answer::Decided(Reply::Found { body, .. }) => body.as_slice().len(),
        Answer::Made { text, .. } => text.as_slice().len(),
        _ => listing.len(),
    }
}

// The body that is sent, where the description is there: none to a HEAD.
fn sent_body(alloc: Global, bodiless: bool, answer: Answer, listing: Bytes) -> Bytes
    requires listing { listing ≡ listing_of answer }
    ensures body { result ≡ (if bodiless then [] else (outline_of answer).body) }
{
    if bodiless {
        Bytes::of(Vec::new(alloc))
    } else {
        into_body(answer, listing)
    }
}

// The body, where the description is there.
fn into_body(answer: Answer, listing: Bytes) -> Bytes
    requires listing { listing ≡ listing_of answer }
    ensures body { result ≡ (outline_of answer).body }
{
    match answer {
        Answer::Decided(Reply::Found { body, .. }) => body,
        Answer::Made { text, .. } => text,
        _ => listing,
    }
}
