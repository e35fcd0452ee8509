//! The head of a request (RFC 9112, sections 3 and 5).

ghost use Rattle.std.specs.Prelude.{◌≡◌, ◌<◌, ◌==◌, [], length, map, take, None, IfOk, IfNone, IfSome, All};
ghost use Rattle.std.specs.List.{list_all, list_any};
ghost use Rattle.httparse.specs.Grammar.{RequestHead, ReadsRequest};
ghost use Rattle.httparse.specs.Spans.{IsWithin, IsHeaderWithin, header_bytes, span_bytes};
ghost use Rattle.rs_request.specs.Limits.{max_head};
ghost use Rattle.rs_request.specs.Lines.{is_break, past_breaks};
ghost use Rattle.rs_request.specs.Sought.{IsSought};
ghost use Rattle.rs_request.specs.RequestTexts.{request_head};
ghost use Rattle.rs_request.specs.RequestHeads.{judged_request, pair_fields, begun_at, IsRequestIn, long_head, head_at, IsHeadWithin};

use crate::fault::WireWhy;
use crate::field::{Field, Fields};
use crate::framing::{Framing, ends_connection, expects_interim, head_framing};
use crate::limits::{MAX_FIELDS, MAX_HEAD};
use crate::message::RequestMessage;
use crate::search::{Search, Spot, window};
use crate::text_part::TextPart;
use httparse::Status;
use httparse::spans::{EMPTY_HEADER_SPAN, HeaderSpan, RequestSpans, parse_request};
use rs_path::{Bytes, NoMemory};
use std::alloc::Global;

/// A request whose head was read.
#[derive(Debug, Drop)]
pub(crate) struct Begun {
    /// The request without its body.
    pub(crate) message: RequestMessage,
    /// How the body is framed.
    pub(crate) framing: Framing,
    /// Whether the sender waits for the interim reply.
    pub(crate) expects: bool,
}

/// A field of a head takes at least so many bytes: a name, a colon and a line end.
pub const FIELD_MIN: usize = 3;

/// A head with so many fields, or fewer, is read with no list of their places on the heap.
const FEW_FIELDS: usize = 32;

/// A copy of the bytes.
pub fn bytes_of(alloc: Global, text: &[u8]) -> Result<Bytes, NoMemory>
    ensures { IfOk result (λ bytes. bytes ≡ text.now) }
{
    let mut list = Vec::new(alloc);
    list.extend_from_slice(text)?;
    Ok(Bytes::of(list))
}

/// The fields at these places of a text, each value without the blanks round it. The text is copied once.
pub fn fields_at(alloc: Global, text: &[u8], spans: &[HeaderSpan]) -> Result<Fields, NoMemory>
    requires { All (IsHeaderWithin (length text.now)) spans.now }
    ensures { IfOk result (λ fields. fields ≡ pair_fields (map (header_bytes text.now) spans.now)) }
{
    let shared = bytes_of(alloc, text)?.shared();
    let mut fields = Fields::with_room(alloc, spans.len())?;
    for span in spans {
        let name = TextPart::at(&shared, span.name)?;
        let value = TextPart::at(&shared, span.value)?;
        fields.push(Field { name, value })?;
    }
    Ok(fields)
}

/// Where the parts of a head are, where the whole text is one that has no more fields than there is room for.
fn find_parts(text: &[u8], room: &mut [HeaderSpan]) -> Option<RequestSpans>
    requires { past_breaks text.now ≡ text.now }
    ensures none { IfNone result ((h : RequestHead) → ReadsRequest text.now h [] → length room.old < length h.fields) }
    ensures some { IfSome result (λ spans. IsRequestIn text.now room.new spans) }
{
    match parse_request(text, room) {
        Ok(Status::Complete(spans)) => {
            if spans.len != text.len() {
                return None;
            }
            Some(spans)
        }
        Ok(Status::Partial) => None,
        Err(_) => None,
    }
}

/// Whether a byte is CR or LF.
fn is_break(byte: u8) -> bool
    ensures { result ≡ is_break byte }
{
    byte == b'\r' || byte == b'\n'
}

/// Whether the bytes are CR and LF alone.
pub(crate) fn are_breaks(bytes: &[u8]) -> bool
    ensures { result ≡ list_all is_break bytes.now }
{
    bytes.iter().all(|b| is_break(*b))
}

/// The bytes from the first that is no CR and no LF: line ends before a head are dropped (RFC 9112, section 2.2).
pub fn past_breaks(mut bytes: &[u8]) -> &[u8]
    ensures value { result.now ≡ past_breaks bytes.now }
    ensures clean { past_breaks result.now ≡ result.now }
{
    while let [first, rest @ ..] = bytes
        && is_break(*first)
    {
        bytes = rest;
    }
    bytes
}

/// Whether there is an LF.
fn has_line_feed(bytes: &[u8]) -> bool
    ensures { result ≡ list_any (λ b. b == 10) bytes.now }
{
    bytes.iter().any(|b| *b == b'\n')
}

/// Why a head that has no end within its limit is refused.
fn long_head(window: &[u8]) -> WireWhy
    ensures { result ≡ long_head window.now }
{
    if has_line_feed(past_breaks(window)) {
        WireWhy::HeadLong
    } else {
        WireWhy::TargetLong
    }
}

/// What bytes hold of a head that begins at this place in the stream: nothing yet, its first fault, or the request that
/// begins with it and the number of bytes that the head takes.
pub(crate) fn head_at(
    alloc: Global,
    search: &mut Search,
    bytes: &[u8],
    place: u64,
) -> Result<Option<Result<(Begun, usize), WireWhy>>, NoMemory>
    ensures found { IsSought Spot.Before search.old (take max_head bytes.now)
        → IfOk result (λ head. head ≡ head_at place bytes.now) }
    ensures kept { IsSought Spot.Before search.old (take max_head bytes.now)
        → IsSought Spot.Before search.new (take max_head bytes.now) }
    ensures within { IfOk result (IsHeadWithin bytes.now) }
{
    let window = window(bytes, MAX_HEAD);
    let Some(count) = search.seek(window) else {
        if bytes.len() < MAX_HEAD {
            return Ok(None);
        }
        return Ok(Some(Err(long_head(window))));
    };
    match read_head(alloc, past_breaks(&window[..count]), place)? {
        Ok(begun) => Ok(Some(Ok((begun, count)))),
        Err(why) => Ok(Some(Err(why))),
    }
}

/// The first fault of a head, or the request that begins with it.
pub(crate) fn read_head(
    alloc: Global,
    text: &[u8],
    place: u64,
) -> Result<Result<Begun, WireWhy>, NoMemory>
    requires { past_breaks text.now ≡ text.now }
    ensures { IfOk result (λ head. head ≡ judged_request place text.now) }
{
    let mut room = [EMPTY_HEADER_SPAN; FEW_FIELDS];
    match find_parts(text, &mut room) {
        Some(spans) => judge(alloc, text, &room, &spans, place),
        None => read_any_head(alloc, text, place),
    }
}

/// The same of a head that may have as many fields as its bytes allow: only a head that is whole has too many of them.
fn read_any_head(alloc: Global, text: &[u8], place: u64) -> Result<Result<Begun, WireWhy>, NoMemory>
    requires { past_breaks text.now ≡ text.now }
    ensures { IfOk result (λ head. head ≡ judged_request place text.now) }
{
    let mut room = vec![in alloc; EMPTY_HEADER_SPAN; text.len() / FIELD_MIN]?;
    let Some(spans) = find_parts(text, &mut room) else {
        return Ok(Err(WireWhy::BadHead));
    };
    judge(alloc, text, &room, &spans, place)
}

/// The same of a head whose parts are at these places.
fn judge(
    alloc: Global,
    text: &[u8],
    room: &[HeaderSpan],
    spans: &RequestSpans,
    place: u64,
) -> Result<Result<Begun, WireWhy>, NoMemory>
    requires { IsRequestIn text.now room.now spans.now }
    ensures { IfOk result (λ head. head ≡ judged_request place text.now) }
{
    if spans.headers > MAX_FIELDS {
        return Ok(Err(WireWhy::HeadLong));
    }
    let fields = fields_at(alloc, text, &room[..spans.headers])?;
    let target = spans.path.of(text);
    match head_framing(spans.version, target.len(), fields.as_slice()) {
        Err(why) => Ok(Err(why)),
        Ok(framing) => {
            let begun = begin(alloc, text, spans, fields, framing, place)?;
            Ok(Ok(begun))
        }
    }
}

/// The request that begins with a head.
fn begin(
    alloc: Global,
    text: &[u8],
    spans: &RequestSpans,
    fields: Fields,
    framing: Framing,
    place: u64,
) -> Result<Begun, NoMemory>
    requires method { IsWithin (length text.now) spans.now.method }
    requires path { IsWithin (length text.now) spans.now.path }
    ensures { IfOk result (λ b. b ≡ begun_at place (span_bytes text.now spans.now.method)
        (span_bytes text.now spans.now.path) spans.now.version fields framing) }
{
    let close = ends_connection(spans.version, fields.as_slice());
    let expects = expects_interim(spans.version, fields.as_slice(), framing);
    let message = RequestMessage {
        method: bytes_of(alloc, spans.method.of(text))?,
        target: bytes_of(alloc, spans.path.of(text))?,
        minor: spans.version,
        fields,
        body: Bytes::of(Vec::new(alloc)),
        close,
        place,
    };
    Ok(Begun {
        message,
        framing,
        expects,
    })
}
