//! Replies, sent.

ghost use Rattle.std.specs.Prelude.{◌++◌};
ghost use Rattle.rs_face.specs.declared.sink.SinkFault.TheVariants as SinkFault;
ghost use Rattle.rs_face.specs.Causes.{HasCause};
ghost use Rattle.rs_face.specs.Courses.{course, Writes};
ghost use Rattle.rs_reply.specs.Writing.{start_text, phrase_of};

use rs_face::{Sink, SinkFault, write_all};
use rs_wire::{phrase_of, status_start};

/// Writes a reply in two parts, and hands it on.
pub(crate) fn send<W: Sink>(sink: &mut W, head: &[u8], body: &[u8]) -> Result<(), SinkFault>
    ensures writes { Writes (course W.written W.faults sink.old sink.new) (head.now ++ body.now) result }
    ensures cause { HasCause (W.faults sink.old) (W.faults sink.new) SinkFault.Failed result }
    ensures want { HasCause (W.wants sink.old) (W.wants sink.new) SinkFault.NoMemory result }
{
    write_all(sink, head)?;
    write_all(sink, body)?;
    sink.flush()
}

/// Writes a reply without a body, by its status and what follows the phrase of that, and hands it on. It takes no memory.
pub(crate) fn send_fixed<W: Sink>(sink: &mut W, status: u16, lines: &[u8]) -> Result<(), SinkFault>
    ensures writes { Writes (course W.written W.faults sink.old sink.new) (start_text status ++ (phrase_of status ++ lines.now)) result }
    ensures cause { HasCause (W.faults sink.old) (W.faults sink.new) SinkFault.Failed result }
    ensures want { HasCause (W.wants sink.old) (W.wants sink.new) SinkFault.NoMemory result }
{
    write_all(sink, &status_start(status))?;
    send(sink, phrase_of(status), lines)
}
