//! One connection served whole.

ghost use Rattle.std.specs.Prelude.{◌≡◌, ◌≤◌, ◌++◌, ℕ};
ghost use Rattle.rs_face.specs.Courses.{course};
ghost use Rattle.rs_rules.specs.Desks.{ForHistories};
ghost use Rattle.rs_request.specs.Readers.{Stands};
ghost use Rattle.rs_request.specs.Readings.{unfed};
ghost use Rattle.rs_exchange.specs.Accounts.{IsAccount, IsConfig};
ghost use Rattle.rs_front.specs.Due.{users_of_desk};
ghost use Rattle.rs_front.specs.Ends.{Serves};
ghost use Rattle.rs_reply.specs.Writing.{start_text, phrase_of};
ghost use Rattle.rs_exchange.specs.FixedReplies.{fault_bytes};
ghost use Rattle.rs_front.specs.Sending.{EndsWith, end_of};

use crate::input::{Next, next_message};
use crate::sending::send_fixed;
use crate::settling::reply_to;
use rs_exchange::{Config, MAX_REPLIES, closing_lines, fault_status, starved_lines};
use rs_face::{Entropy, Sink, SinkFault, Source};
use rs_rules::Desk;
use rs_wire::{RequestReader, WireFault, one_division, taken_requests, unfinished_requests};
use std::alloc::Global;

/// How a connection ended.
#[derive(Clone, Copy, Debug, PartialEq, Eq)]
pub enum End {
    /// The input ended between two messages, or the last message asked to close.
    Closed,
    /// 1,000 messages were replied to, and the last didn't ask to close.
    Limit,
    /// The source failed.
    ReadFault,
    /// The sink failed.
    WriteFault,
    /// Memory was wanted for reading, or by the sink.
    NoMemory,
    /// Bytes that are no request; the reply was written, none where the input was cut short.
    BadMessage { fault: WireFault },
}

/// Serves the messages of a connection over a desk: reads them from the source and writes the due bytes to the sink, in order
/// and nothing else, up to the end of the connection.
///
/// Due of each message are the interim reply, where its sender waits for one (RFC 9110, section 10.1.1), and its reply. Each
/// answer is that of its user's one history at a point of it, on from the answer before. Where memory is wanted the fixed 503 is
/// due, the message has taken nothing, and serving goes on; a 500 says that the desk's count of faults rose. Behind the messages
/// the reply to bytes that are no request is due, or the 503 that closes where reading wants memory. After 1,000 replies, and
/// after one to a message that asks to close (RFC 9112, section 9.6), the input isn't looked at any more.
///
/// All of it comes in time. No message is decided before what is due of those before it was written, and none once the sink
/// failed or wanted memory. The interim reply is written before the body is waited for, and nothing is read behind a message
/// beyond what the read that brought its end gave.
///
/// For a grant that a user's password allows (RFC 6749, section 4.2), two words of the entropy are drawn: the token that they make
/// is asked for, and no other. Where the entropy fails, whose count then rises, or the desk doesn't grant the token, the app is told
/// `server_error`.
///
/// The server's address is UTF-8, and its users' names are names of users. The desk serves the user of each account, whose number is its place in the list. It goes on to do so, under the same quotas
/// and numbers and as alone as before (`Desk::keeps`), so that it can serve the next connection. Over a desk that waits for
/// nobody, and objects that do, the call returns.
pub fn serve_stream<S: Source, W: Sink, D: Desk, E: Entropy>(
    alloc: Global,
    config: &Config,
    source: &mut S,
    sink: &mut W,
    desk: &mut D,
    entropy: &mut E,
) -> End
    requires served { (user : ℕ) → IsAccount config.now.accounts user → D.serves desk.old user }
    requires config { IsConfig config.now }
    ensures serves { ForHistories (IsAccount config.now.accounts) (D.stands desk.old) (D.stands desk.new) (λ old now.
        Serves (users_of_desk D.quota D.me D.alone desk.old now) config.now
        (course S.left S.faults source.old source.new)
        (course W.written W.faults sink.old sink.new) (course W.written W.wants sink.old sink.new)
        (course E.words E.faults entropy.old entropy.new)
        old (D.faults desk.old) (D.faults desk.new) result) }
    ensures is_later { D.is_later desk.old desk.new }
{
    let mut reader = RequestReader::new(alloc);
    serve_messages(alloc, config, &mut reader, source, sink, desk, entropy)
}

// Serves the messages of a source of which nothing was read.
fn serve_messages<S: Source, W: Sink, D: Desk, E: Entropy>(
    alloc: Global,
    config: &Config,
    reader: &mut RequestReader,
    source: &mut S,
    sink: &mut W,
    desk: &mut D,
    entropy: &mut E,
) -> End
    requires served { (user : ℕ) → IsAccount config.now.accounts user → D.serves desk.old user }
    requires config { IsConfig config.now }
    requires fresh { Stands reader.old unfed }
    ensures serves { ForHistories (IsAccount config.now.accounts) (D.stands desk.old) (D.stands desk.new) (λ old now.
        Serves (users_of_desk D.quota D.me D.alone desk.old now) config.now
        (course S.left S.faults source.old source.new)
        (course W.written W.faults sink.old sink.new) (course W.written W.wants sink.old sink.new)
        (course E.words E.faults entropy.old entropy.new)
        old (D.faults desk.old) (D.faults desk.new) result) }
    ensures is_later { D.is_later desk.old desk.new }
{
    one_division();
    unfinished_requests();
    taken_requests();
    'serving: for count in 0..MAX_REPLIES {
        let message = match next_message(reader, source, sink) {
            Next::Message(message) => message,
            Next::End => return End::Closed,
            Next::Bad(fault) => return end_at_fault(sink, fault),
            Next::NotRead => return End::ReadFault,
            Next::NoMemory => return end_with(sink, 503, starved_lines(true), End::NoMemory),
            Next::NotWritten(fault) => return end_of(fault),
        };
        let close = message.close;
        if let Err(fault) = reply_to(alloc, config, desk, entropy, message, count, sink) {
            return end_of(fault);
        }
        if close {
            return End::Closed;
        }
    }
    End::Limit
}

// Writes the reply to bytes that are no request. There is none where the input was cut short.
fn end_at_fault<W: Sink>(sink: &mut W, fault: WireFault) -> End
    ensures ends { EndsWith (course W.written W.faults sink.old sink.new) (course W.written W.wants sink.old sink.new)
        (fault_bytes fault.why) (End.BadMessage fault) result }
{
    let end = End::BadMessage { fault };
    match fault_status(fault.why) {
        Some(status) => end_with(sink, status, closing_lines(status), end),
        None => end,
    }
}

// Writes the last reply; the end is that one, or says that the reply couldn't be written.
fn end_with<W: Sink>(sink: &mut W, status: u16, lines: &[u8], end: End) -> End
    ensures ends { EndsWith (course W.written W.faults sink.old sink.new) (course W.written W.wants sink.old sink.new)
        (start_text status ++ (phrase_of status ++ lines.now)) end result }
{
    match send_fixed(sink, status, lines) {
        Ok(()) => end,
        Err(fault) => end_of(fault),
    }
}

// How a connection ends whose reply couldn't be written.
fn end_of(fault: SinkFault) -> End
    ensures end { result ≡ end_of fault }
{
    match fault {
        SinkFault::Failed => End::WriteFault,
        SinkFault::NoMemory => End::NoMemory,
    }
}
