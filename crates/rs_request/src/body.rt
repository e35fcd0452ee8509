//! The body of a request, as its bytes come (RFC 9112, sections 6 and 7.1).

ghost use Rattle.std.specs.Prelude.{◌≡◌, ℕ, true, false, Ok, ◌+◌, ◌^◌, ◌<◌, ◌≤◌, ◌==◌, None, min, [], length, take, ◌++◌, IfOk, IfSome, OnOk, OnErr};
ghost use Rattle.rs_request.specs.Bodies.{has_line_end, first_part, next_part};
ghost use Rattle.rs_request.specs.ChunkTexts.{size_of};
ghost use Rattle.rs_request.specs.BodyReaders.{Moves, IsMoveWithin, IsPartAt, IsMove, IsLineSought, IsSameBody};
ghost use Rattle.rs_request.specs.Limits.{max_trailer};
ghost use Rattle.rs_request.specs.Lines.{first_line};
ghost use Rattle.rs_request.specs.Sought.{IsSought};

use crate::chunk::size_of;
use crate::fault::{WireFault, WireWhy};
use crate::framing::Framing;
use crate::limits::{MAX_CHUNK_LINE, MAX_TRAILER};
use crate::search::{Search, Spot, line_length, window};
use rs_path::{MAX_BODY, NoMemory};
use std::alloc::Global;

/// The part of a body that comes next.
#[derive(Clone, Copy, Debug, PartialEq, Eq)]
pub(crate) enum Part {
    /// So many bytes, which end the body.
    Length(u64),
    /// A chunk's line, which has no LF in so many bytes.
    Line(usize),
    /// So many bytes of a chunk, and CR LF.
    Data(u64),
    /// The trailer.
    Trailer(Search),
}

/// What became of the bytes that were given. Each number is how many of them were taken.
#[derive(Clone, Copy, Debug, PartialEq, Eq)]
pub(crate) enum Move {
    /// More bytes are needed.
    Wait(usize),
    /// A part ended, and another comes.
    On(usize),
    /// The body is whole.
    End(usize),
    /// The bytes are no body.
    Fault(WireFault),
}

/// The body so far, and the part that comes next.
#[derive(Debug, Drop)]
pub(crate) struct BodyReader {
    pub(crate) body: Vec<u8>,
    pub(crate) part: Part,
}

/// A number of bytes, as far as there are so many.
fn at_most(left: u64, rest: &[u8]) -> usize
    ensures { result ≡ min left (length rest.now) }
{
    if left < rest.len() as u64 {
        left as usize
    } else {
        rest.len()
    }
}

/// Puts bytes at the end of a list, the first of so many that are to come: there is room for all of these once there are some,
/// so that the list doesn't grow as they come.
fn put_some(list: &mut Vec<u8>, bytes: &[u8], left: u64) -> Result<(), NoMemory>
    ensures ok { OnOk result (list.new.items ≡ list.old.items ++ bytes.now) }
    ensures err { OnErr result (list.new.items ≡ list.old.items) }
{
    if bytes.is_empty() {
        return Ok(());
    }
    list.reserve(left as usize)?;
    list.extend_from_slice(bytes)?;
    Ok(())
}

/// The number of bytes up to and with the first LF, where there is none in the first `sought` bytes.
pub fn first_line(bytes: &[u8], sought: usize) -> Option<usize>
    ensures within { IfSome result (λ count. (0 < count) × (count ≤ length bytes.now)) }
    ensures found { sought ≤ length bytes.now → first_line (take sought bytes.now) ≡ None
        → result ≡ first_line bytes.now }
{
    if sought > bytes.len() {
        return None;
    }
    match line_length(&bytes[sought..]) {
        Some(count) => Some(sought + count),
        None => None,
    }
}

/// Whether CR LF stands at the front.
pub fn has_line_end(rest: &[u8]) -> bool
    ensures { result ≡ has_line_end rest.now }
{
    rest.len() >= 2 && rest[0] == b'\r' && rest[1] == b'\n'
}

impl BodyReader {
    /// The reader of a body with this framing.
    pub(crate) fn new(alloc: Global, framing: Framing) -> BodyReader
        ensures body { result.body.items ≡ [] }
        ensures part { result.part ≡ first_part framing }
    {
        let part = match framing {
            Framing::Unstated => Part::Length(0),
            Framing::Length(n) => Part::Length(n),
            Framing::Chunked => Part::Line(0),
        };
        BodyReader {
            body: Vec::new(alloc),
            part,
        }
    }

    /// Takes what the bytes hold of the body. The first has the place `at`.
    pub(crate) fn advance(&mut self, rest: &[u8], at: u64) -> Result<Move, NoMemory>
        ensures within { IfOk result (IsMoveWithin rest.now) }
        ensures ok { IsPartAt self.old.part rest.now → at + length rest.now < 2 ^ 64
            → IfOk result (IsMove self.old self.new at rest.now) }
        ensures err { OnErr result (IsSameBody self.old self.new) }
    {
        match self.part {
            Part::Length(left) => self.length_part(left, rest, at),
            Part::Line(sought) => Ok(self.line_part(sought, rest, at)),
            Part::Data(left) => self.data_part(left, rest, at),
            Part::Trailer(search) => Ok(self.trailer_part(search, rest, at)),
        }
    }

    /// Takes a whole piece, where the bytes that come next are known to be more of the body than it. Says whether it did.
    pub(crate) fn take_whole(&mut self, piece: &[u8]) -> Result<bool, NoMemory>
        ensures took { result ≡ Ok true → (at : ℕ) → Moves self.old self.new at (length piece.now) piece.now }
        ensures other { result ≡ Ok false → IsSameBody self.old self.new }
        ensures err { OnErr result (IsSameBody self.old self.new) }
    {
        match self.part {
            Part::Length(left) => self.take_of_length(left, piece),
            Part::Data(left) => self.take_of_chunk(left, piece),
            Part::Line(_) | Part::Trailer(_) => Ok(false),
        }
    }

    // The same of a body of known length.
    fn take_of_length(&mut self, left: u64, piece: &[u8]) -> Result<bool, NoMemory>
        requires { self.old.part ≡ Part.Length left }
        ensures took { result ≡ Ok true → (at : ℕ) → Moves self.old self.new at (length piece.now) piece.now }
        ensures other { result ≡ Ok false → IsSameBody self.old self.new }
        ensures err { OnErr result (IsSameBody self.old self.new) }
    {
        let count = piece.len() as u64;
        if left <= count {
            return Ok(false);
        }
        put_some(&mut self.body, piece, left)?;
        self.part = Part::Length(left - count);
        Ok(true)
    }

    // The same of a chunk.
    fn take_of_chunk(&mut self, left: u64, piece: &[u8]) -> Result<bool, NoMemory>
        requires { self.old.part ≡ Part.Data left }
        ensures took { result ≡ Ok true → (at : ℕ) → Moves self.old self.new at (length piece.now) piece.now }
        ensures other { result ≡ Ok false → IsSameBody self.old self.new }
        ensures err { OnErr result (IsSameBody self.old self.new) }
    {
        let count = piece.len() as u64;
        if left <= count {
            return Ok(false);
        }
        put_some(&mut self.body, piece, left)?;
        self.part = Part::Data(left - count);
        Ok(true)
    }

    /// Takes bytes of a body of known length.
    fn length_part(&mut self, left: u64, rest: &[u8], at: u64) -> Result<Move, NoMemory>
        requires { self.old.part ≡ Part.Length left }
        ensures within { IfOk result (IsMoveWithin rest.now) }
        ensures ok { IfOk result (IsMove self.old self.new at rest.now) }
        ensures err { OnErr result (IsSameBody self.old self.new) }
    {
        let count = at_most(left, rest);
        put_some(&mut self.body, &rest[..count], left)?;
        if count as u64 == left {
            return Ok(Move::End(count));
        }
        self.part = Part::Length(left - count as u64);
        Ok(Move::Wait(count))
    }

    /// Takes a chunk's line.
    fn line_part(&mut self, sought: usize, rest: &[u8], at: u64) -> Move
        requires { self.old.part ≡ Part.Line sought }
        ensures within { IsMoveWithin rest.now result }
        ensures ok { IsLineSought sought rest.now → IsMove self.old self.new at rest.now result }
    {
        let window = window(rest, MAX_CHUNK_LINE);
        match first_line(window, sought) {
            Some(count) => match next_part(self.body.len(), &rest[..count]) {
                Ok(part) => {
                    self.part = part;
                    Move::On(count)
                }
                Err(why) => Move::Fault(WireFault { why, place: at }),
            },
            None if rest.len() < MAX_CHUNK_LINE => {
                self.part = Part::Line(rest.len());
                Move::Wait(0)
            }
            None => Move::Fault(WireFault {
                why: WireWhy::BadChunk,
                place: at,
            }),
        }
    }

    /// Takes bytes of a chunk, and the line end after them.
    fn data_part(&mut self, left: u64, rest: &[u8], at: u64) -> Result<Move, NoMemory>
        requires { self.old.part ≡ Part.Data left }
        ensures within { IfOk result (IsMoveWithin rest.now) }
        ensures ok { at + length rest.now < 2 ^ 64
            → IfOk result (IsMove self.old self.new at rest.now) }
        ensures err { OnErr result (IsSameBody self.old self.new) }
    {
        let count = at_most(left, rest);
        put_some(&mut self.body, &rest[..count], left)?;
        self.part = Part::Data(left - count as u64);
        if (count as u64) < left {
            return Ok(Move::Wait(count));
        }
        let after = &rest[count..];
        if after.len() < 2 {
            return Ok(Move::Wait(count));
        }
        if !has_line_end(after) {
            return Ok(Move::Fault(WireFault {
                why: WireWhy::BadChunk,
                place: at.saturating_add(count as u64),
            }));
        }
        self.part = Part::Line(0);
        Ok(Move::On(count + 2))
    }

    /// Looks for the end of the trailer.
    fn trailer_part(&mut self, search: Search, rest: &[u8], at: u64) -> Move
        requires { self.old.part ≡ Part.Trailer search }
        ensures within { IsMoveWithin rest.now result }
        ensures ok { IsSought Spot.Fresh search (take max_trailer rest.now)
            → IsMove self.old self.new at rest.now result }
    {
        let mut search = search;
        let window = window(rest, MAX_TRAILER);
        match search.seek(window) {
            Some(count) => Move::End(count),
            None if rest.len() < MAX_TRAILER => {
                self.part = Part::Trailer(search);
                Move::Wait(0)
            }
            None => Move::Fault(WireFault {
                why: WireWhy::BadChunk,
                place: at,
            }),
        }
    }
}

/// The part after a chunk line, where the chunks so far have so many bytes.
fn next_part(so_far: usize, line: &[u8]) -> Result<Part, WireWhy>
    ensures { result ≡ next_part so_far (size_of line.now) }
{
    let Some(size) = size_of(line) else {
        return Err(WireWhy::BadChunk);
    };
    if size > MAX_BODY as u64 || so_far as u64 > MAX_BODY as u64 - size {
        return Err(WireWhy::BodyLong);
    }
    if size == 0 {
        return Ok(Part::Trailer(Search::from(Spot::Fresh)));
    }
    Ok(Part::Data(size))
}
