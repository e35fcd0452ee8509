//! The messages of a source, one after another.

ghost use Rattle.std.specs.Prelude.{◌≡◌, ◌+◌, ◌<◌, ◌≤◌, ◌^◌, ℕ, List, Bool, false};
ghost use Rattle.rs_face.specs.Courses.{course};
ghost use Rattle.rs_request.specs.Readers.{Stands, fed_count};
ghost use Rattle.rs_request.specs.Readings.{Fed, finish_of};
ghost use Rattle.rs_request.specs.Laws.{fed_at};
ghost use Rattle.rs_front.specs.Inputs.{Fills, ending, most_read, ReadsOn, ReadsNext, IsBetween, IsReading};

use crate::sending::send_fixed;
use rs_exchange::interim_lines;
use rs_face::{Sink, SinkFault, Source, SourceFault};
use rs_wire::{
    NextFault, RequestMessage, RequestReader, Step, WireFault, one_division, taken_requests,
    unfinished_requests,
};

/// The most bytes that one read gives.
const READ_SIZE: usize = 8_192;

/// What comes next on a connection.
#[derive(Debug, Drop)]
pub(crate) enum Next {
    /// A whole message.
    Message(RequestMessage),
    /// The end of the input, between two messages.
    End,
    /// Bytes that are no request, or the end of the input inside a message.
    Bad(WireFault),
    /// The source failed.
    NotRead,
    /// Memory is wanted for reading.
    NoMemory,
    /// An interim reply couldn't be written.
    NotWritten(SinkFault),
}

/// What one read brought.
#[derive(Clone, Copy, Debug, PartialEq, Eq)]
pub(crate) enum Filled {
    /// At least one byte.
    More,
    /// Nothing: the input is at its end.
    End,
    /// Nothing: the source failed.
    Failed,
    /// Memory is wanted for what was read.
    NoMemory,
}

/// Reads until a message is whole, and writes the interim reply where its sender waits for one.
pub(crate) fn next_message<S: Source, W: Sink>(
    reader: &mut RequestReader,
    source: &mut S,
    sink: &mut W,
) -> Next
    requires between { IsBetween reader.old }
    requires room { fed_count reader.old + (most_read + most_read) < 2 ^ 64 }
    ensures reads { (place : ℕ) (bytes : List ℕ) → Stands reader.old (fed_at place bytes false)
        → ReadsNext place bytes reader.new
        (course S.left S.faults source.old source.new)
        (course W.written W.faults sink.old sink.new)
        (course W.written W.wants sink.old sink.new) result }
    ensures count { fed_count reader.new ≤ fed_count reader.old + (most_read + most_read) }
    ensures source_later { S.faults source.old ≤ S.faults source.new }
    ensures sink_later { W.faults sink.old ≤ W.faults sink.new }
    ensures wants_later { W.wants sink.old ≤ W.wants sink.new }
{
    unfinished_requests();
    taken_requests();
    if let Some(next) = read_on(reader, source) {
        return next;
    }
    if let Err(fault) = send_fixed(sink, 100, interim_lines()) {
        return Next::NotWritten(fault);
    }
    // The interim reply is due once.
    read_on(reader, source).unwrap()
}

// Reads until a message is whole, or the interim reply to it is due; that is None.
fn read_on<S: Source>(reader: &mut RequestReader, source: &mut S) -> Option<Next>
    requires reading { IsReading reader.old }
    requires room { fed_count reader.old + most_read < 2 ^ 64 }
    ensures reads { (place : ℕ) (bytes : List ℕ) (told : Bool) → Stands reader.old (fed_at place bytes told)
        → ReadsOn place bytes told reader.new
        (course S.left S.faults source.old source.new) result }
    ensures count { fed_count reader.new ≤ fed_count reader.old + most_read }
    ensures later { S.faults source.old ≤ S.faults source.new }
{
    one_division();
    unfinished_requests();
    'reading: loop {
        match reader.next() {
            Ok(Step::Message(message)) => return Some(Next::Message(message)),
            Ok(Step::Interim) => return None,
            Ok(Step::More) => match fill(reader, source) {
                Filled::More => {}
                Filled::End => return Some(end_of(reader)),
                Filled::Failed => return Some(Next::NotRead),
                Filled::NoMemory => return Some(Next::NoMemory),
            },
            Err(NextFault::Wire(fault)) => return Some(Next::Bad(fault)),
            Err(NextFault::NoMemory) => return Some(Next::NoMemory),
        }
    }
}

// What the end of the input is after what was read.
fn end_of(reader: &RequestReader) -> Next
    ensures end { (fed : Fed) → Stands reader.now fed → result ≡ ending (finish_of fed) }
{
    match reader.finish() {
        Ok(()) => Next::End,
        Err(fault) => Next::Bad(fault),
    }
}

// Reads once.
fn fill<S: Source>(reader: &mut RequestReader, source: &mut S) -> Filled
    requires room { fed_count reader.old + 8192 < 2 ^ 64 }
    ensures filled { (fed : Fed) → Stands reader.old fed
        → Fills fed reader.new (S.left source.old) (S.left source.new) (S.faults source.old) (S.faults source.new) result }
    ensures count { fed_count reader.new ≤ fed_count reader.old + 8192 }
    ensures later { S.faults source.old ≤ S.faults source.new }
{
    let mut room = [0; READ_SIZE];
    match source.read(&mut room) {
        Ok(0) => Filled::End,
        Ok(count) => match reader.feed(&room[..count]) {
            Ok(()) => Filled::More,
            Err(_) => Filled::NoMemory,
        },
        Err(SourceFault::Failed) => Filled::Failed,
    }
}
