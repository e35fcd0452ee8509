//! Texts read as paths.

ghost use Rattle.std.specs.Prelude.{◌≡◌, ◌+◌, ◌*◌, ◌<◌, ◌≤◌, ◌∷◌, [], length, Some, None, Ok, IfOk, IfSome, ◌==◌, ◌&&◌, option_copied, position};
ghost use Rattle.std.specs.List.{slice_split, list_any};
ghost use Rattle.percent_encoding.specs.Percent.{percent_decode};
ghost use Rattle.rs_path.specs.Paths.{is_nil};
ghost use Rattle.rs_path.specs.Readings.{name_fault, begins_with_digits, has_whole_escapes, escaped_name, plain_name, name_by, segment_name, segments_reading, is_slash, rest_parts, reading, Reads, ReadsName};

use crate::limits::{MAX_NAME, MAX_NAMES};
use crate::name::{self, Name};
use crate::no_memory::NoMemory;
use crate::path::Path;
use crate::path_fault::{PathFault, PathWhy};
use crate::spelling::Spelling;
use percent_encoding::percent_decode;
use std::alloc::Global;

/// The path of a text in this spelling.
pub(crate) fn read_path(alloc: Global, spelling: Spelling, text: &[u8]) -> Result<Path, PathFault>
    ensures read { Reads result (reading (name_by spelling) text.now) }
{
    match text {
        [b'/', rest @ ..] => read_segments(alloc, spelling, rest),
        _ => Err(PathFault::Bad {
            why: PathWhy::Empty,
            place: 0,
        }),
    }
}

// The path of what follows the first slash.
fn read_segments(alloc: Global, spelling: Spelling, text: &[u8]) -> Result<Path, PathFault>
    ensures read { Reads result (segments_reading (name_by spelling) 1 [] (slice_split is_slash text.now)) }
{
    let mut names = Vec::new(alloc);
    let mut place = 1;
    let mut rest = text;
    'segments: loop {
        let (segment, more) = cut(rest);
        if ends_folder(segment, more) {
            return Ok(Path::of(names, true)?);
        }
        let name = read_segment(alloc, spelling, names.len(), segment, place)?;
        names.push(name)?;
        let Some(after) = more else {
            return Ok(Path::of(names, false)?);
        };
        place += segment.len() as u32 + 1;
        rest = after;
    }
}

// Whether the segment is the empty last one, which marks a folder.
fn ends_folder(segment: &[u8], more: Option<&[u8]>) -> bool
    ensures { result ≡ (is_nil segment.now && is_nil (rest_parts (option_copied more.entry))) }
{
    segment.is_empty() && more.is_none()
}

// What stands before the first slash, and what follows it.
fn cut(text: &[u8]) -> (&[u8], Option<&[u8]>)
    ensures parts { slice_split is_slash text.now ≡ result.0.now ∷ rest_parts (option_copied result.1) }
    ensures shorter { IfSome result.1 (λ after. length after.now < length text.now) }
{
    match first_slash(text) {
        Some(end) => (&text[..end], Some(&text[end + 1..])),
        None => (text, None),
    }
}

fn first_slash(text: &[u8]) -> Option<usize>
    ensures { result ≡ position is_slash text.now }
{
    text.iter().position(|byte| *byte == b'/')
}

// The name of the segment that begins at the place, after a number of names.
fn read_segment(
    alloc: Global,
    spelling: Spelling,
    count: usize,
    segment: &[u8],
    place: u32,
) -> Result<Name, PathFault>
    ensures read { ReadsName result place (segment_name (name_by spelling) count segment.now) }
    ensures short { IfOk result (λ _. (count < 32) × (length segment.now ≤ 765)) }
{
    if count >= MAX_NAMES {
        return Err(PathFault::Bad {
            why: PathWhy::Deep,
            place,
        });
    }
    if segment.is_empty() {
        return Err(PathFault::Bad {
            why: PathWhy::Empty,
            place,
        });
    }
    match spelling {
        Spelling::Escaped => read_escaped_name(alloc, segment, place),
        Spelling::Plain => read_plain_name(alloc, segment, place),
    }
}

fn read_escaped_name(alloc: Global, segment: &[u8], place: u32) -> Result<Name, PathFault>
    requires { 0 < length segment.now }
    ensures read { ReadsName result place (escaped_name segment.now) }
    ensures short { IfOk result (λ _. length segment.now ≤ 765) }
{
    if !has_whole_escapes(segment) {
        return Err(PathFault::Bad {
            why: PathWhy::BadEscape,
            place,
        });
    }
    let bytes = unescape(alloc, segment)?;
    match name_fault(bytes.as_slice()) {
        Some(why) => Err(PathFault::Bad { why, place }),
        None => Ok(Name::of(bytes)),
    }
}

// The segment's bytes, with each escape replaced by its byte.
fn unescape(alloc: Global, segment: &[u8]) -> Result<Vec<u8>, NoMemory>
    ensures { IfOk result (λ bytes. bytes.items ≡ percent_decode segment.now) }
{
    let mut bytes = Vec::new(alloc);
    percent_decode(segment).append_to(&mut bytes)?;
    Ok(bytes)
}

fn read_plain_name(alloc: Global, segment: &[u8], place: u32) -> Result<Name, PathFault>
    requires { 0 < length segment.now }
    ensures read { ReadsName result place (plain_name segment.now) }
    ensures short { IfOk result (λ _. length segment.now ≤ 255) }
{
    match name_fault(segment) {
        Some(why) => Err(PathFault::Bad { why, place }),
        None => Ok(Name::of(Vec::from_slice(alloc, segment)?)),
    }
}

// Why the bytes are no name, if they aren't.
fn name_fault(name: &[u8]) -> Option<PathWhy>
    ensures fault { result ≡ name_fault name.now }
{
    if has_byte(name, b'/') {
        return Some(PathWhy::Slash);
    }
    if has_byte(name, 0) {
        return Some(PathWhy::Nul);
    }
    if !name::is_utf8(name) {
        return Some(PathWhy::NotUtf8);
    }
    if name::is_dots(name) {
        return Some(PathWhy::Dots);
    }
    if name.len() > MAX_NAME {
        return Some(PathWhy::NameLong);
    }
    None
}

fn has_byte(text: &[u8], wanted: u8) -> bool
    ensures { result ≡ list_any (λ byte. byte == wanted) text.now }
{
    text.iter().any(|byte| *byte == wanted)
}

// Whether two hexadecimal digits follow each `%`.
fn has_whole_escapes(segment: &[u8]) -> bool
    ensures { result ≡ has_whole_escapes segment.now }
{
    for (i, byte) in segment.iter().enumerate() {
        if *byte == b'%' && !begins_with_digits(&segment[i + 1..]) {
            return false;
        }
    }
    true
}

fn begins_with_digits(text: &[u8]) -> bool
    ensures { result ≡ begins_with_digits text.now }
{
    match text {
        [high, low, ..] => high.is_ascii_hexdigit() && low.is_ascii_hexdigit(),
        _ => false,
    }
}
