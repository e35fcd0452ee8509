//! Requests, read from a stream that comes in any pieces.

ghost use Rattle.std.specs.Prelude.{◌≡◌, ◌+◌, ◌^◌, ◌<◌, ◌≤◌, [], length, take, drop, None, Some, Ok, Err, not, ◌&&◌, OnOk, OnErr};

use crate::body::{BodyReader, Move};
use crate::buffer::Buffer;
use crate::fault::{NextFault, WireFault, WireWhy};
use crate::head::{Begun, are_breaks, head_at};
use crate::message::{RequestMessage, Step};
use crate::search::{Search, Spot};
use rs_path::{Bytes, NoMemory};
use std::alloc::Global;
use std::mem;

/// A request whose head was read, and its body so far.
#[derive(Debug, Drop)]
pub(crate) struct Opened {
    pub(crate) begun: Begun,
    /// Whether the interim reply was asked for.
    pub(crate) told: bool,
    pub(crate) reader: BodyReader,
}

/// Where in a message the reader is.
#[derive(Debug, Drop)]
pub(crate) enum Stage {
    /// Before the end of a head.
    Head(Search),
    /// In a body.
    Body(Opened),
    /// At a fault.
    Stopped(WireFault),
}

/// Reads requests from a stream that comes in any pieces.
///
/// What it answers is a function of the bytes that it was fed since the last message, however they were cut. Its work is
/// linear in the bytes of the stream. A piece inside a body is put at the body's end and kept nowhere else.
#[derive(Debug, Drop)]
pub struct RequestReader {
    alloc: Global,
    /// Bytes that were fed and not yet taken.
    buffer: Buffer,
    /// The place in the stream of the first of them.
    taken: u64,
    stage: Stage,
}

/// The stage between messages.
fn start() -> Stage
    ensures { result ≡ Stage.Head (record { sought = 0; spot = Spot.Before }) }
{
    Stage::Head(Search::from(Spot::Before))
}

impl RequestReader {
    ghost use Rattle.rs_request.specs.Readings.{Fed, unfed, fed_with, finish_of};
    ghost use Rattle.rs_request.specs.Readers.{Stands, IsFed, StandsAtHead, StandsInBody, fed_count, Nexts, IsReaderTurn};

    /// A reader that was fed nothing.
    #[tactic(auto, unfolding(crate::specs::Readers::fed_count, crate::specs::Readers::Stands))]
    pub fn new(alloc: Global) -> RequestReader
        ensures unfed { Stands result unfed }
        ensures count { fed_count result ≡ 0 }
    {
        RequestReader {
            alloc,
            buffer: Buffer::new(alloc),
            taken: 0,
            stage: start(),
        }
    }

    /// Takes the next piece of the stream. Fewer than 2^64 bytes may be fed in all.
    #[tactic(auto, unfolding(crate::specs::Readers::fed_count))]
    pub fn feed(&mut self, piece: &[u8]) -> Result<(), NoMemory>
        requires { fed_count self.old + length piece.now < 2 ^ 64 }
        ensures ok { (fed : Fed) → Stands self.old fed
            → OnOk result (Stands self.new (fed_with fed piece.now)) }
        ensures err { (fed : Fed) → Stands self.old fed → OnErr result (Stands self.new fed) }
        ensures count { OnOk result (fed_count self.new ≡ fed_count self.old + length piece.now) }
        ensures same_count { OnErr result (fed_count self.new ≡ fed_count self.old) }
    {
        if !self.buffer.as_slice().is_empty() {
            return self.buffer.append(piece);
        }
        match mem::replace(&mut self.stage, start()) {
            Stage::Body(opened) => self.feed_body(opened, piece),
            stage => {
                self.stage = stage;
                self.buffer.append(piece)
            }
        }
    }

    // Takes the next piece where all before it was taken. What of it is surely of a body goes straight into the body.
    #[tactic(auto, unfolding(crate::specs::Readers::fed_count))]
    fn feed_body(&mut self, opened: Opened, piece: &[u8]) -> Result<(), NoMemory>
        requires empty { self.old.buffer ≡ [] }
        requires few { fed_count self.old + length piece.now < 2 ^ 64 }
        ensures ok { (fed : Fed) → IsFed (Stage.Body opened) self.old.taken self.old.buffer fed
            → OnOk result (Stands self.new (fed_with fed piece.now)) }
        ensures err { (fed : Fed) → IsFed (Stage.Body opened) self.old.taken self.old.buffer fed → OnErr result (Stands self.new fed) }
        ensures count { OnOk result (fed_count self.new ≡ fed_count self.old + length piece.now) }
        ensures same_count { OnErr result (fed_count self.new ≡ fed_count self.old) }
    {
        let mut opened = opened;
        let took = opened.reader.take_whole(piece);
        self.stage = Stage::Body(opened);
        if took? {
            self.taken = self.taken.saturating_add(piece.len() as u64);
            return Ok(());
        }
        self.buffer.append(piece)
    }

    /// What the bytes fed so far come to: the next message, the interim reply that is due, or `More` where there is neither.
    ///
    /// The interim reply comes once for each message that expects it, before the message. A fault is the first in the order of
    /// `WireWhy`'s rules and is answered again at each later call. After want of memory the reader is as before.
    pub fn next(&mut self) -> Result<Step, NextFault>
        ensures answer { (fed : Fed) → Stands self.old fed → Nexts fed self.new result }
        ensures count { fed_count self.old < 2 ^ 64 → fed_count self.new ≡ fed_count self.old }
    {
        loop {
            if let Some(step) = self.turn()? {
                return Ok(step);
            }
        }
    }

    /// Says that the stream has ended, once `next` answered `More`: a fault where a message has begun and isn't whole.
    ///
    /// Line ends alone begin no message. Where `next` answered a fault there is no other.
    pub fn finish(&self) -> Result<(), WireFault>
        ensures { (fed : Fed) → Stands self.now fed → result ≡ finish_of fed }
    {
        let bytes = self.buffer.as_slice();
        let end = self.taken.saturating_add(bytes.len() as u64);
        let truncated = WireFault {
            why: WireWhy::Truncated,
            place: end,
        };
        match &self.stage {
            Stage::Stopped(_) => Ok(()),
            Stage::Body(_) => Err(truncated),
            Stage::Head(_) => {
                if are_breaks(bytes) {
                    Ok(())
                } else {
                    Err(truncated)
                }
            }
        }
    }

    /// Goes on by one part of a message.
    #[tactic(auto, unfolding(crate::specs::Readers::fed_count))]
    fn turn(&mut self) -> Result<Option<Step>, NextFault>
        ensures shorter { result ≡ Ok None → length self.new.buffer < length self.old.buffer }
        ensures answer { (fed : Fed) → Stands self.old fed → IsReaderTurn fed self.new result }
        ensures count { fed_count self.old < 2 ^ 64 → fed_count self.new ≡ fed_count self.old }
    {
        match mem::replace(&mut self.stage, start()) {
            Stage::Head(search) => self.head_turn(search),
            Stage::Body(opened) => self.body_turn(opened),
            Stage::Stopped(fault) => self.stop(fault),
        }
    }

    /// Stops at a fault.
    fn stop(&mut self, fault: WireFault) -> Result<Option<Step>, NextFault>
        ensures result { result ≡ Err (NextFault.Wire fault) }
        ensures stage { self.new ≡ record self.old { stage = Stage.Stopped fault } }
    {
        self.stage = Stage::Stopped(fault);
        Err(NextFault::Wire(fault))
    }

    /// Drops bytes that were taken.
    fn skip(&mut self, count: usize)
        requires { count ≤ length self.old.buffer }
        ensures buffer { self.new.buffer ≡ drop count self.old.buffer }
        ensures stage { self.new.stage ≡ self.old.stage }
        ensures taken { self.old.taken + count < 2 ^ 64 → self.new.taken ≡ self.old.taken + count }
    {
        self.buffer.skip(count);
        self.taken = self.taken.saturating_add(count as u64);
    }

    /// Looks for a head.
    #[tactic(auto, unfolding(crate::specs::Readers::fed_count))]
    fn head_turn(&mut self, search: Search) -> Result<Option<Step>, NextFault>
        ensures shorter { result ≡ Ok None → length self.new.buffer < length self.old.buffer }
        ensures answer { (fed : Fed) → IsFed (Stage.Head search) self.old.taken self.old.buffer fed
            → IsReaderTurn fed self.new result }
        ensures count { fed_count self.old < 2 ^ 64 → fed_count self.new ≡ fed_count self.old }
    {
        let mut search = search;
        let found = head_at(self.alloc, &mut search, self.buffer.as_slice(), self.taken);
        self.stage = Stage::Head(search);
        match found {
            Err(_) => Err(NextFault::NoMemory),
            Ok(None) => Ok(Some(Step::More)),
            Ok(Some(Err(why))) => {
                let place = self.taken;
                self.stop(WireFault { why, place })
            }
            Ok(Some(Ok((begun, count)))) => {
                self.skip(count);
                let reader = BodyReader::new(self.alloc, begun.framing);
                self.stage = Stage::Body(Opened {
                    begun,
                    told: false,
                    reader,
                });
                Ok(None)
            }
        }
    }

    /// Reads of a body.
    #[tactic(auto, unfolding(crate::specs::Readers::fed_count))]
    fn body_turn(&mut self, opened: Opened) -> Result<Option<Step>, NextFault>
        ensures shorter { result ≡ Ok None → length self.new.buffer < length self.old.buffer }
        ensures answer { (fed : Fed) → IsFed (Stage.Body opened) self.old.taken self.old.buffer fed
            → IsReaderTurn fed self.new result }
        ensures count { fed_count self.old < 2 ^ 64 → fed_count self.new ≡ fed_count self.old }
    {
        let mut opened = opened;
        if opened.is_interim_due() {
            opened.told = true;
            self.stage = Stage::Body(opened);
            return Ok(Some(Step::Interim));
        }
        match opened.reader.advance(self.buffer.as_slice(), self.taken) {
            Err(_) => {
                self.stage = Stage::Body(opened);
                Err(NextFault::NoMemory)
            }
            Ok(Move::Wait(count)) => {
                self.skip(count);
                self.stage = Stage::Body(opened);
                Ok(Some(Step::More))
            }
            Ok(Move::On(count)) => {
                self.skip(count);
                self.stage = Stage::Body(opened);
                Ok(None)
            }
            Ok(Move::End(count)) => {
                self.skip(count);
                self.stage = start();
                Ok(Some(Step::Message(opened.into_message())))
            }
            Ok(Move::Fault(fault)) => self.stop(fault),
        }
    }
}

impl Opened {
    ghost use Rattle.rs_request.specs.Readings.{with_body};

    /// Whether the interim reply is due.
    fn is_interim_due(&self) -> bool
        ensures { result ≡ (self.now.begun.expects && not self.now.told) }
    {
        self.begun.expects && !self.told
    }

    /// The message with its whole body.
    fn into_message(self) -> RequestMessage
        ensures { result ≡ with_body self.begun.message self.reader.body.items }
    {
        let mut message = self.begun.message;
        message.body = Bytes::of(self.reader.body).shared();
        message
    }
}
