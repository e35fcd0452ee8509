//! Why bytes are no message.

use rs_path::NoMemory;

/// Why the bytes of a stream are no request.
#[derive(Clone, Copy, Debug, PartialEq, Eq)]
pub enum WireWhy {
    /// The head is none of the grammar, or a request of version 1.1 hasn't exactly one Host (RFC 9112, sections 3 to 5).
    BadHead,
    /// The head doesn't end within its limit, or it has too many fields.
    HeadLong,
    /// The request line doesn't end within the limit of a head, or the target is too long.
    TargetLong,
    /// The body is longer than its limit.
    BodyLong,
    /// A Content-Length isn't 1 to 18 digits (RFC 9110, section 8.6).
    BadLength,
    /// A Content-Length stands beside a chunked body, or there are two different ones (RFC 9112, section 6.3).
    TwoLengths,
    /// A chunk's line, its end or the trailer is wrong or too long (RFC 9112, section 7.1).
    BadChunk,
    /// A Transfer-Encoding other than one `chunked` in version 1.1 (RFC 9112, section 6.1).
    Coding,
    /// The input ended inside a message.
    Truncated,
}

/// Why the bytes of a stream are no request, and the place in the stream: the number of bytes before it.
#[derive(Clone, Copy, Debug, PartialEq, Eq)]
pub struct WireFault {
    pub why: WireWhy,
    pub place: u64,
}

/// Why `RequestReader::next` gives no step.
#[derive(Clone, Copy, Debug, PartialEq, Eq)]
pub enum NextFault {
    /// The stream holds no further message.
    Wire(WireFault),
    /// The allocator had no memory, and the reader is as before.
    NoMemory,
}

impl From<NoMemory> for NextFault {
    ghost from_gives = { λ _ e. e ≡ NextFault.NoMemory };

    ghost use Rattle.rs_request.specs.declared.fault.NextFault.TheVariants as NextFault;
    ghost use Rattle.std.specs.Prelude.{◌≡◌};

    fn from(_e: NoMemory) -> NextFault {
        NextFault::NoMemory
    }
}
