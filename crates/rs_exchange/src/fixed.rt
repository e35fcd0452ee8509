//! Replies that are always the same, and take no memory.

ghost use Rattle.std.specs.Prelude.{◌≡◌, ◌++◌};
ghost use Rattle.rs_reply.specs.Writing.{start_text, phrase_of};
ghost use Rattle.rs_exchange.specs.FixedReplies.{interim_bytes, starved_bytes, fault_status, closing_message, closing_bytes};

use rs_wire::WireWhy;

/// What follows the status 100 and its phrase in the interim reply (RFC 9110, section 15.2.1).
#[tactic(auto, unfolding(crate::specs::FixedReplies::interim_bytes))]
pub fn interim_lines() -> &'static [u8]
    ensures lines { start_text 100 ++ (phrase_of 100 ++ result.now) ≡ interim_bytes }
{
    b"\r\n\r\n"
}

/// What follows the status 503 and its phrase in the fixed reply for want of memory, which closes where the connection ends
/// behind it (RFC 9110, section 15.6.4).
#[tactic(auto, unfolding(crate::specs::FixedReplies::starved_bytes))]
pub fn starved_lines(closing: bool) -> &'static [u8]
    ensures lines { start_text 503 ++ (phrase_of 503 ++ result.now) ≡ starved_bytes closing }
{
    if closing {
        b"\r\nAccess-Control-Allow-Origin: *\r\nContent-Length: 0\r\nConnection: close\r\n\r\n"
    } else {
        b"\r\nAccess-Control-Allow-Origin: *\r\nContent-Length: 0\r\n\r\n"
    }
}

/// The status of the reply to bytes that are no request. There is no reply where the input was cut short.
pub fn fault_status(why: WireWhy) -> Option<u16>
    ensures status { result ≡ fault_status why }
{
    match why {
        WireWhy::BadHead => Some(400),
        WireWhy::HeadLong => Some(431),
        WireWhy::TargetLong => Some(414),
        WireWhy::BodyLong => Some(413),
        WireWhy::BadLength => Some(400),
        WireWhy::TwoLengths => Some(400),
        WireWhy::BadChunk => Some(400),
        WireWhy::Coding => Some(501),
        WireWhy::Truncated => None,
    }
}

/// What follows the status and its phrase in such a reply, which closes.
#[tactic(auto, unfolding(crate::specs::FixedReplies::closing_bytes))]
pub fn closing_lines(status: u16) -> &'static [u8]
    ensures lines { start_text status ++ (phrase_of status ++ result.now) ≡ closing_bytes status }
{
    b"\r\nAccess-Control-Allow-Origin: *\r\nAccess-Control-Expose-Headers: ETag, Content-Type, Content-Length\r\nContent-Length: 0\r\nConnection: close\r\n\r\n"
}
