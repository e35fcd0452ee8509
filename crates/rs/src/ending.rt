//! How the program ends.

ghost use Rattle.std.specs.Prelude.{◌≡◌, IfOk};
ghost use Rattle.std.specs.Process.{exit_status};
ghost use Rattle.rs_face.specs.Causes.{HasCause};
ghost use Rattle.rs_face.specs.Courses.{course, Writes};
ghost use Rattle.rs.specs.Shells.{said_of};

use rs_cli::Status;
use rs_face::{Sink, SinkFault, write_all};
use rs_path::NoMemory;
use std::alloc::Global;
use std::process::ExitCode;

/// The code that the program ends with.
pub fn exit_code(status: &Status) -> ExitCode
    ensures code { exit_status result ≡ status.now.code }
{
    ExitCode::from(status.code)
}

/// Writes what is said about a status other than 0, and a line end. Where this fails, a front of it was written.
pub fn report<W: Sink>(alloc: Global, status: &Status, sink: &mut W) -> Result<(), SinkFault>
    ensures writes { Writes (course W.written W.faults sink.old sink.new) (said_of status.now) result }
    ensures cause { HasCause (W.faults sink.old) (W.faults sink.new) SinkFault.Failed result }
{
    match report_text(alloc, status) {
        Ok(text) => write_all(sink, text.as_slice()),
        Err(NoMemory) => Err(SinkFault::NoMemory),
    }
}

fn report_text(alloc: Global, status: &Status) -> Result<Vec<u8>, NoMemory>
    ensures text { IfOk result (λ text. text.items ≡ said_of status.now) }
{
    let mut text = Vec::new(alloc);
    if status.code == 0 {
        return Ok(text);
    }
    status.note.write(&mut text)?;
    text.push(b'\n')?;
    Ok(text)
}
