//! Who tells an operator how connections ended.

use crate::lines::say;
use itoa::Buffer;
use rs_front::End;
use rs_work::Watch;

/// Writes a line to standard error for each connection that had no plain end: which it was and why. No line has a byte of a
/// message.
#[derive(Drop)]
pub struct LineWatch<'a> {
    rt: &'a HostRuntime,
}

impl<'a> LineWatch<'a> {
    pub fn new(rt: &'a HostRuntime) -> LineWatch<'a> {
        LineWatch { rt }
    }
}

impl Watch for LineWatch<'_> {
    fn ended(&self, worker: u32, connection: u64, end: &End) {
        let Some(why) = why(end) else {
            return;
        };
        say(
            self.rt,
            &[
                b"connection ",
                Buffer::new().format(connection).as_bytes(),
                b" of worker ",
                Buffer::new().format(worker).as_bytes(),
                b": ",
                why,
            ],
        );
    }
}

// Why a connection ended that had no plain end.
fn why(end: &End) -> Option<&'static [u8]> {
    match end {
        End::Closed | End::Limit => None,
        End::ReadFault => Some(b"a read failed, or waited too long"),
        End::WriteFault => Some(b"a write failed, or waited too long"),
        End::NoMemory => Some(b"no memory"),
        End::BadMessage { .. } => Some(b"bytes that are no request"),
    }
}
