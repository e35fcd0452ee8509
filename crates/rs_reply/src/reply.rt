//! A reply, read (RFC 9112, sections 4, 6 and 7.1).

ghost use Rattle.std.specs.Prelude.{◌≡◌, ◌<◌, ◌≤◌, ◌*◌, ◌+◌, [], length, None, Ok, IfOk, IfNone, IfSome};
ghost use Rattle.rs_request.specs.Lines.{past_breaks};
ghost use Rattle.rs_reply.specs.ReplyTexts.{response_head};
ghost use Rattle.rs_reply.specs.Replies.{IsResponseIn, judged_reply, first_byte, reply_head_at, last_head, IsHeadIn, trailer_end, data_chunk, chunk_at, IsChunkIn, chunks_from, reply_body, reply_framing, reply_of, IsReply};
ghost use Rattle.rs_reply.specs.Writing.{has_no_body};

use crate::fault::ReplyFault;
use crate::message::ReplyMessage;
use httparse::Status;
use httparse::spans::{EMPTY_HEADER_SPAN, HeaderSpan, ResponseSpans, parse_response};
use rs_path::{Bytes, NoMemory};
use rs_request::{
    FIELD_MIN, Fields, Framing, MAX_CHUNK_LINE, MAX_HEAD, MAX_TRAILER, Search, Spot, bytes_of,
    fields_at, first_line, has_line_end, past_breaks, size_of, stated, window,
};
use std::alloc::Global;

/// The head of a reply, and where it begins and ends.
#[derive(Debug, Drop)]
pub(crate) struct ReplyHead {
    pub(crate) status: u16,
    pub(crate) fields: Fields,
    pub(crate) place: usize,
    pub(crate) end: usize,
}

/// A chunk: where its line ends, the size of its data, and where it ends. The chunk of size 0 ends with the trailer.
#[derive(Clone, Copy, Debug, PartialEq, Eq)]
pub(crate) struct Chunk {
    pub(crate) line: usize,
    pub(crate) size: usize,
    pub(crate) end: usize,
}

/// Reads the reply that the bytes are, past replies of a status from 100 to 199 (RFC 9112, sections 4, 6 and 7.1).
///
/// `bodiless` says that it answers a HEAD. Such a reply, a 204 and a 304 have no body; else the body is chunked, as long as
/// Content-Length says, or all that is left.
///
/// `Bad` has the place of the first fault, the number of bytes before it: the first byte, past CR and LF, of a head that
/// isn't in the grammar, that doesn't end within 16,384 bytes, or that states a wrong length or another coding; the first
/// byte of a chunk's line where that line, of at most 256 bytes, isn't in the grammar or the data has no CR LF behind it;
/// that of a trailer of more than 16,384 bytes; the number of the bytes where they end too early; the first byte after the
/// reply.
pub fn read_reply(alloc: Global, bodiless: bool, bytes: &[u8]) -> Result<ReplyMessage, ReplyFault>
    ensures { IsReply (reply_of bodiless bytes.now) result }
{
    match whole_reply(alloc, bodiless, bytes)? {
        Ok(reply) => Ok(reply),
        Err(place) => Err(ReplyFault::Bad {
            place: place as u64,
        }),
    }
}

/// The reply that the bytes are, or the place of the fault.
fn whole_reply(
    alloc: Global,
    bodiless: bool,
    bytes: &[u8],
) -> Result<Result<ReplyMessage, usize>, NoMemory>
    ensures { IfOk result (λ r. r ≡ reply_of bodiless bytes.now) }
{
    match last_head(alloc, bytes)? {
        Err(place) => Ok(Err(place)),
        Ok(head) => match stated(head.fields.as_slice()) {
            Err(_) => Ok(Err(head.place)),
            Ok(framing) => {
                let framing = reply_framing(has_no_body(bodiless, head.status), framing);
                match reply_body(alloc, bytes, head.end, framing)? {
                    Err(place) => Ok(Err(place)),
                    Ok((body, end)) => {
                        if end < bytes.len() {
                            return Ok(Err(end));
                        }
                        Ok(Ok(ReplyMessage {
                            status: head.status,
                            fields: head.fields,
                            body,
                        }))
                    }
                }
            }
        },
    }
}

/// Whether a reply has no body, whatever its fields say.
fn has_no_body(bodiless: bool, status: u16) -> bool
    ensures { result ≡ has_no_body bodiless status }
{
    bodiless || (status == 204 || status == 304)
}

/// How a reply is framed: one that has no body is as long as its head.
fn reply_framing(none: bool, framing: Framing) -> Framing
    ensures { result ≡ reply_framing none framing }
{
    if none { Framing::Length(0) } else { framing }
}

/// Where the parts of a head are, where the whole text is one.
fn find_parts(text: &[u8], room: &mut [HeaderSpan]) -> Option<ResponseSpans>
    requires clean { past_breaks text.now ≡ text.now }
    requires roomy { length text.now < 3 * length room.old + 3 }
    ensures none { IfNone result (response_head text.now ≡ None) }
    ensures some { IfSome result (λ spans. IsResponseIn text.now room.new spans) }
{
    match parse_response(text, room) {
        Ok(Status::Complete(spans)) => {
            if spans.len != text.len() {
                return None;
            }
            Some(spans)
        }
        Ok(Status::Partial) => None,
        Err(_) => None,
    }
}

/// The head that the whole text is, whose first byte is at this place, up to that end.
fn read_head(
    alloc: Global,
    text: &[u8],
    at: usize,
    end: usize,
) -> Result<Result<ReplyHead, usize>, NoMemory>
    requires { past_breaks text.now ≡ text.now }
    ensures { IfOk result (λ r. r ≡ judged_reply at end text.now) }
{
    let mut room = vec![in alloc; EMPTY_HEADER_SPAN; text.len() / FIELD_MIN]?;
    let Some(spans) = find_parts(text, &mut room) else {
        return Ok(Err(at));
    };
    let head = head_of(alloc, text, &room, &spans, at, end)?;
    Ok(Ok(head))
}

/// The head whose parts are at these places.
fn head_of(
    alloc: Global,
    text: &[u8],
    room: &[HeaderSpan],
    spans: &ResponseSpans,
    at: usize,
    end: usize,
) -> Result<ReplyHead, NoMemory>
    requires { IsResponseIn text.now room.now spans.now }
    ensures { IfOk result (λ h. judged_reply at end text.now ≡ Ok h) }
{
    let fields = fields_at(alloc, text, &room[..spans.headers])?;
    Ok(ReplyHead {
        status: spans.code,
        fields,
        place: at,
        end,
    })
}

/// The place of the first byte from the place on that is no CR and no LF, or the length.
#[tactic(auto, using(rs_request::proofs::Cited::past_breaks_le), unfolding(crate::specs::Replies::first_byte))]
fn first_byte(bytes: &[u8], at: usize) -> usize
    requires { at ≤ length bytes.now }
    ensures { result ≡ first_byte bytes.now at }
{
    bytes.len() - past_breaks(&bytes[at..]).len()
}

/// The head after the place, past CR and LF, or the place of its fault.
fn head_at(alloc: Global, bytes: &[u8], at: usize) -> Result<Result<ReplyHead, usize>, NoMemory>
    requires { at ≤ length bytes.now }
    ensures found { IfOk result (λ r. r ≡ reply_head_at bytes.now at) }
    ensures within { IfOk result (IsHeadIn bytes.now at) }
{
    let place = first_byte(bytes, at);
    let rest = &bytes[at..];
    let window = window(rest, MAX_HEAD);
    let mut search = Search::from(Spot::Before);
    let Some(count) = search.seek(window) else {
        if rest.len() < MAX_HEAD {
            return Ok(Err(bytes.len()));
        }
        return Ok(Err(place));
    };
    read_head(alloc, past_breaks(&rest[..count]), place, at + count)
}

/// The first head that no other follows.
fn last_head(alloc: Global, bytes: &[u8]) -> Result<Result<ReplyHead, usize>, NoMemory>
    ensures found { IfOk result (λ r. r ≡ last_head bytes.now 0) }
    ensures within { IfOk result (IsHeadIn bytes.now 0) }
{
    let mut at = 0;
    loop {
        match head_at(alloc, bytes, at)? {
            Err(place) => return Ok(Err(place)),
            Ok(head) => {
                if head.status / 100 != 1 {
                    return Ok(Ok(head));
                }
                at = head.end;
            }
        }
    }
}

/// The end of a trailer that begins at the place.
fn trailer_end(bytes: &[u8], at: usize) -> Result<usize, usize>
    requires { at ≤ length bytes.now }
    ensures found { result ≡ trailer_end bytes.now at }
    ensures within { IfOk result (λ end. (at ≤ end) × (end ≤ length bytes.now)) }
{
    let rest = &bytes[at..];
    let window = window(rest, MAX_TRAILER);
    let mut search = Search::from(Spot::Fresh);
    match search.seek(window) {
        Some(count) => Ok(at + count),
        None if rest.len() < MAX_TRAILER => Err(bytes.len()),
        None => Err(at),
    }
}

/// The chunk whose line begins at one place and ends before the other.
fn data_chunk(bytes: &[u8], at: usize, line: usize, size: u64) -> Result<Chunk, usize>
    requires { line ≤ length bytes.now }
    ensures found { result ≡ data_chunk bytes.now at line size }
    ensures within { at < line → IsChunkIn bytes.now at result }
{
    if ((bytes.len() - line) as u64) < size {
        return Err(bytes.len());
    }
    let after = line + size as usize;
    let left = &bytes[after..];
    if left.len() < 2 {
        return Err(bytes.len());
    }
    if !has_line_end(left) {
        return Err(at);
    }
    Ok(Chunk {
        line,
        size: size as usize,
        end: after + 2,
    })
}

/// The chunk at the place, or the place of its fault.
fn chunk_at(bytes: &[u8], at: usize) -> Result<Chunk, usize>
    requires { at ≤ length bytes.now }
    ensures found { result ≡ chunk_at bytes.now at }
    ensures within { IsChunkIn bytes.now at result }
{
    let rest = &bytes[at..];
    let Some(count) = first_line(window(rest, MAX_CHUNK_LINE), 0) else {
        if rest.len() < MAX_CHUNK_LINE {
            return Err(bytes.len());
        }
        return Err(at);
    };
    let Some(size) = size_of(&rest[..count]) else {
        return Err(at);
    };
    let line = at + count;
    if size != 0 {
        return data_chunk(bytes, at, line, size);
    }
    match trailer_end(bytes, line) {
        Ok(end) => Ok(Chunk { line, size: 0, end }),
        Err(place) => Err(place),
    }
}

/// The body of the chunks from the place on, and their end.
fn chunked_body(
    alloc: Global,
    bytes: &[u8],
    from: usize,
) -> Result<Result<(Bytes, usize), usize>, NoMemory>
    requires { from ≤ length bytes.now }
    ensures { IfOk result (λ r. r ≡ chunks_from bytes.now [] from) }
{
    let mut body = Vec::new(alloc);
    let mut at = from;
    loop {
        match chunk_at(bytes, at) {
            Err(place) => return Ok(Err(place)),
            Ok(chunk) => {
                if chunk.size == 0 {
                    return Ok(Ok((Bytes::of(body), chunk.end)));
                }
                body.extend_from_slice(&bytes[chunk.line..chunk.line + chunk.size])?;
                at = chunk.end;
            }
        }
    }
}

/// The body from the place on, and its end.
fn reply_body(
    alloc: Global,
    bytes: &[u8],
    at: usize,
    framing: Framing,
) -> Result<Result<(Bytes, usize), usize>, NoMemory>
    requires { at ≤ length bytes.now }
    ensures { IfOk result (λ r. r ≡ reply_body bytes.now at framing) }
{
    let rest = &bytes[at..];
    match framing {
        Framing::Unstated => {
            let body = bytes_of(alloc, rest)?;
            Ok(Ok((body, bytes.len())))
        }
        Framing::Length(n) => {
            if (rest.len() as u64) < n {
                return Ok(Err(bytes.len()));
            }
            let body = bytes_of(alloc, &rest[..n as usize])?;
            Ok(Ok((body, at + n as usize)))
        }
        Framing::Chunked => chunked_body(alloc, bytes, at),
    }
}
