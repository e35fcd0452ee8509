//! The limits of messages, in bytes where nothing else is said. The body of a request has `rs_path::MAX_BODY` bytes at most.

ghost use Rattle.std.specs.Prelude.{◌≡◌};
ghost use Rattle.rs_request.specs.Limits.{max_head, max_fields, max_target, max_length_digits, max_chunk_line, max_trailer, max_message};

/// The head of a request or of a reply, with the line ends that were dropped before it.
pub const MAX_HEAD: usize = 16_384;

/// The fields of a request's head, counted.
pub const MAX_FIELDS: usize = 128;

/// The target of a request.
pub const MAX_TARGET: usize = 8_192;

/// The digits of a Content-Length, counted.
pub const MAX_LENGTH_DIGITS: usize = 18;

/// The line before a chunk, with its line end.
pub const MAX_CHUNK_LINE: usize = 256;

/// All lines of a trailer together.
pub const MAX_TRAILER: usize = 16_384;

/// The bytes of a request that isn't whole yet, fewer than these: a head, and a body in chunks of one byte each behind the
/// longest lines, up to the end of its trailer.
pub const MAX_MESSAGE: u64 = 17_381_228_800;

/// The limits are these numbers. The function does nothing: its contract is the law.
pub fn limit_laws()
    ensures head { MAX_HEAD ≡ max_head }
    ensures fields { MAX_FIELDS ≡ max_fields }
    ensures target { MAX_TARGET ≡ max_target }
    ensures digits { MAX_LENGTH_DIGITS ≡ max_length_digits }
    ensures chunk_line { MAX_CHUNK_LINE ≡ max_chunk_line }
    ensures trailer { MAX_TRAILER ≡ max_trailer }
    ensures message { MAX_MESSAGE ≡ max_message }
{}
