//! Printed lines.

ghost use Rattle.std.specs.Prelude.{◌++◌, decimal};
ghost use Rattle.rs_face.specs.Causes.{HasCause};
ghost use Rattle.rs_face.specs.Courses.{course, Writes};
ghost use Rattle.rs_cli.specs.ClientEnds.{SaysDone, SaysShown};
ghost use Rattle.rs_cli.specs.Grants.{Prints, line_of};

use crate::causes::note_of_printing;
use crate::note::Note;
use itoa::Buffer;
use rs_client::ClientFault;
use rs_face::{Sink, SinkFault, write_all};
use rs_path::Bytes;

/// Prints the text and a line end, and hands them on. The note is `Empty`, or says why not; then a front of them was written.
pub fn print_line<W: Sink>(sink: &mut W, text: &[u8]) -> Note
    ensures prints { Prints (course W.written W.faults sink.old sink.new) (line_of text.now) result }
{
    note_of_printing(write_line(sink, text))
}

/// Prints the text, and hands it on. The note is as that of [`print_line`].
fn print_text<W: Sink>(sink: &mut W, text: &[u8]) -> Note
    ensures prints { Prints (course W.written W.faults sink.old sink.new) text.now result }
{
    note_of_printing(write_text(sink, text))
}

/// Prints the text, the number in decimal and a line end, and hands them on. The note is as that of [`print_line`].
pub fn print_count<W: Sink>(sink: &mut W, text: &[u8], count: u64) -> Note
    ensures prints { Prints (course W.written W.faults sink.old sink.new) (line_of (text.now ++ decimal count)) result }
{
    note_of_printing(write_count(sink, text, count))
}

#[tactic(auto, using(std::proofs::Common::append_assoc))]
fn write_count<W: Sink>(sink: &mut W, text: &[u8], count: u64) -> Result<(), SinkFault>
    ensures writes { Writes (course W.written W.faults sink.old sink.new) (line_of (text.now ++ decimal count)) result }
    ensures cause { HasCause (W.faults sink.old) (W.faults sink.new) SinkFault.Failed result }
{
    write_all(sink, text)?;
    write_line(sink, Buffer::new().format(count).as_bytes())
}

fn write_text<W: Sink>(sink: &mut W, text: &[u8]) -> Result<(), SinkFault>
    ensures writes { Writes (course W.written W.faults sink.old sink.new) text.now result }
    ensures cause { HasCause (W.faults sink.old) (W.faults sink.new) SinkFault.Failed result }
{
    write_all(sink, text)?;
    sink.flush()
}

fn write_line<W: Sink>(sink: &mut W, text: &[u8]) -> Result<(), SinkFault>
    ensures writes { Writes (course W.written W.faults sink.old sink.new) (line_of text.now) result }
    ensures cause { HasCause (W.faults sink.old) (W.faults sink.new) SinkFault.Failed result }
{
    write_all(sink, text)?;
    write_all(sink, b"\n")?;
    sink.flush()
}

/// Prints the word of a command that was done and a line end, or says why it wasn't done.
pub fn print_done<W: Sink>(sink: &mut W, done: Result<(), ClientFault>, word: &[u8]) -> Note
    ensures says { SaysDone word.now (course W.written W.faults sink.old sink.new) done result }
{
    match done {
        Ok(()) => print_line(sink, word),
        Err(fault) => Note::from(fault),
    }
}

/// Prints the text that a command shows, as it is, or says why there is none.
pub fn print_shown<W: Sink>(sink: &mut W, shown: Result<Bytes, ClientFault>) -> Note
    ensures says { SaysShown (course W.written W.faults sink.old sink.new) shown result }
{
    match shown {
        Ok(text) => print_text(sink, text.as_slice()),
        Err(fault) => Note::from(fault),
    }
}
