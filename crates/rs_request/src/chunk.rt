//! The line before a chunk (RFC 9112, section 7.1).

ghost use Rattle.std.specs.Prelude.{◌≡◌};
ghost use Rattle.rs_request.specs.ChunkTexts.{size_of};

use httparse::{Status, parse_chunk_size};

/// The size in bytes that the line before a chunk gives, where the whole text is such a line with its line end (RFC 9112,
/// section 7.1).
pub fn size_of(line: &[u8]) -> Option<u64>
    ensures { result ≡ size_of line.now }
{
    match parse_chunk_size(line) {
        Ok(Status::Complete((len, size))) => {
            if len != line.len() {
                return None;
            }
            Some(size)
        }
        Ok(Status::Partial) => None,
        Err(_) => None,
    }
}
