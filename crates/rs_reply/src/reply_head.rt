//! The line with which a reply begins, written (RFC 9112, section 4). No call takes memory where there is room.

ghost use Rattle.std.specs.Prelude.{◌≡◌, ◌+◌, ◌<◌, ◌≤◌, ◌++◌, length, OnOk, OnErr, vec_capacity};
ghost use Rattle.rs_reply.specs.Writing.{status_digits, phrase_of, start_text, status_line};

use rs_path::NoMemory;
use rs_request::put_text;

/// Appends the status line of a reply, with the phrase of its status.
#[tactic(auto, using(std::proofs::Common::append_assoc), unfolding(crate::specs::Writing::status_line))]
pub fn put_status_line(out: &mut Vec<u8>, status: u16) -> Result<(), NoMemory>
    ensures put { OnOk result (out.new.items ≡ out.old.items ++ status_line status) }
    ensures capacity { vec_capacity out.old ≤ vec_capacity out.new }
    ensures full { OnErr result (vec_capacity out.old < length out.old.items + length (status_line status)) }
{
    put_text(out, &status_start(status))?;
    put_text(out, phrase_of(status))?;
    put_text(out, b"\r\n")?;
    Ok(())
}

/// What a status line begins with: the version, the three digits of the status, and the spaces behind both.
pub fn status_start(status: u16) -> [u8; 13]
    ensures start { result ≡ start_text status }
{
    [
        b'H',
        b'T',
        b'T',
        b'P',
        b'/',
        b'1',
        b'.',
        b'1',
        b' ',
        b'0' + (status / 100 % 10) as u8,
        b'0' + (status / 10 % 10) as u8,
        b'0' + (status % 10) as u8,
        b' ',
    ]
}

/// The phrase of a status, empty where it has none here (RFC 9110, section 15; RFC 6585; RFC 4918, section 11.5).
pub fn phrase_of(status: u16) -> &'static [u8]
    ensures phrase { result.now ≡ phrase_of status }
{
    match status {
        100 => b"Continue",
        200 => b"OK",
        201 => b"Created",
        204 => b"No Content",
        302 => b"Found",
        304 => b"Not Modified",
        400 => b"Bad Request",
        401 => b"Unauthorized",
        403 => b"Forbidden",
        404 => b"Not Found",
        405 => b"Method Not Allowed",
        409 => b"Conflict",
        412 => b"Precondition Failed",
        413 => b"Content Too Large",
        414 => b"URI Too Long",
        431 => b"Request Header Fields Too Large",
        500 => b"Internal Server Error",
        501 => b"Not Implemented",
        503 => b"Service Unavailable",
        507 => b"Insufficient Storage",
        _ => b"",
    }
}
