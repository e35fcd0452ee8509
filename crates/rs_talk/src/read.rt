//! The bytes of a reply, read as the answer to an ask.

ghost use Rattle.rs_talk.specs.AnswerReadings.{judged, answer_at, answer_reading, ReadsAnswer};

use crate::answer::Answer;
use crate::answer_fault::AnswerFault;
use crate::ask::Ask;
use crate::judging::judge_reply;
use crate::places::part_place;
use rs_wire::{ReplyFault, ReplyMessage, read_reply};
use std::alloc::Global;

/// The answer that the bytes of a reply are to the ask (RFC 9110, section 15; draft-dejong-remotestorage, sections 4 to 6).
///
/// 200 is the document or the folder, 304 that it still has the known version, and 404 that nothing is there. 200, 201 and 204
/// to a Put are its version, and 412 says that nothing was changed. To a Remove 200 and 204 say that it was done. All else is
/// a status. A document without Content-Type has the content type `application/octet-stream`.
///
/// `Bad` has the place of the first fault, the number of bytes before it: that of `read_reply` where they are no reply; the
/// first byte of its head, past CR and LF, where a document, a folder or what was written hasn't exactly one strong entity
/// tag, or a document has another Content-Type than one content type, or a 304 comes where no version was known; the first
/// byte behind the head where the description of a folder is none.
pub fn read_answer(alloc: Global, ask: &Ask, bytes: &[u8]) -> Result<Answer, AnswerFault>
    ensures read { ReadsAnswer result (answer_reading ask.now bytes.now) }
{
    match read_reply(alloc, false, bytes) {
        Ok(reply) => answer_of(alloc, ask, bytes, reply),
        Err(ReplyFault::Bad { place }) => Err(AnswerFault::Bad { place }),
        Err(ReplyFault::NoMemory) => Err(AnswerFault::NoMemory),
    }
}

// The answer that this reply is, which the bytes are.
fn answer_of(
    alloc: Global,
    ask: &Ask,
    bytes: &[u8],
    reply: ReplyMessage,
) -> Result<Answer, AnswerFault>
    ensures read { ReadsAnswer result (answer_at bytes.now (judged ask.now reply)) }
{
    match judge_reply(alloc, ask, reply)? {
        Ok(answer) => Ok(answer),
        Err(part) => Err(AnswerFault::Bad {
            place: part_place(alloc, bytes, part)?,
        }),
    }
}
