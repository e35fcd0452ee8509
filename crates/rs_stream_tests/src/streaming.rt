//! Readers and writers that give and take little, are interrupted, or fail.

ghost use Rattle.std.specs.Prelude.{false, refl};

use rs_face::{MemSink, Sink, SinkFault, Source, SourceFault, write_all};
use rs_stream::{HeldSink, StdSink, StdSource, SteadyRead, SteadyWrite};
use std::io;
use std::io::{Error, ErrorKind, Read, Write};
use std::test::Fail;

/// A stream that is interrupted so many times, and then fails or moves one byte at each call.
#[derive(Drop)]
struct Shaky {
    interruptions: u8,
    fails: bool,
    moved: Vec<u8>,
}

impl Shaky {
    fn refusal(&mut self) -> Option<ErrorKind> {
        if self.interruptions > 0 {
            self.interruptions -= 1;
            return Some(ErrorKind::Interrupted);
        }
        if self.fails {
            return Some(ErrorKind::BrokenPipe);
        }
        None
    }
}

impl Read for Shaky {
    fn read(&mut self, buf: &mut [u8]) -> io::Result<usize> {
        if let Some(kind) = self.refusal() {
            return Err(Error::from(kind));
        }
        if buf.is_empty() {
            return Ok(0);
        }
        buf[0] = b'x';
        Ok(1)
    }
}

impl Write for Shaky {
    fn write(&mut self, buf: &[u8]) -> io::Result<usize> {
        if let Some(kind) = self.refusal() {
            return Err(Error::from(kind));
        }
        if buf.is_empty() {
            return Ok(0);
        }
        match self.moved.push(buf[0]) {
            Ok(()) => Ok(1),
            Err(_) => Err(Error::from(ErrorKind::OutOfMemory)),
        }
    }

    fn flush(&mut self) -> io::Result<()> {
        match self.refusal() {
            Some(kind) => Err(Error::from(kind)),
            None => Ok(()),
        }
    }
}

impl SteadyRead for Shaky {
    ghost is_telling = { false };

    ghost steady = { λ _. refl };
}

impl SteadyWrite for Shaky {
    ghost is_telling = { false };

    ghost steady = { λ _. refl };
}

fn make_shaky(rt: &HostRuntime, interruptions: u8, fails: bool) -> Shaky {
    Shaky {
        interruptions,
        fails,
        moved: Vec::new(rt.alloc()),
    }
}

#[test]
fn a_slice_is_read_to_its_end(rt: HostRuntime) -> Result<(), Fail> {
    let mut source = StdSource::new(b"abcde".as_slice());
    let mut room = [0; 3];
    assert_eq!(rt; source.read(&mut room), Ok(3));
    assert_eq!(rt; room, [97, 98, 99]);
    assert_eq!(rt; source.read(&mut room), Ok(2));
    assert_eq!(rt; room, [100, 101, 99]);
    assert_eq!(rt; source.read(&mut room), Ok(0));
    Ok(())
}

#[test]
fn interrupted_reads_are_made_again(rt: HostRuntime) -> Result<(), Fail> {
    let mut room = [0; 3];
    assert_eq!(rt;
        StdSource::new(make_shaky(&rt, 2, false)).read(&mut room),
        Ok(1)
    );
    assert_eq!(rt; room, [120, 0, 0]);
    assert_eq!(rt;
        StdSource::new(make_shaky(&rt, 2, true)).read(&mut room),
        Err(SourceFault::Failed)
    );
    Ok(())
}

#[test]
fn short_writes_lose_nothing(rt: HostRuntime) -> Result<(), Fail> {
    let mut sink = StdSink::new(make_shaky(&rt, 3, false));
    write_all(&mut sink, b"all of it")?;
    let writer = sink.into_inner();
    assert_eq!(rt; writer.moved.as_slice(), b"all of it".as_slice());
    Ok(())
}

#[test]
fn failed_writes_and_flushes_are_told(rt: HostRuntime) -> Result<(), Fail> {
    let mut sink = StdSink::new(make_shaky(&rt, 1, true));
    assert_eq!(rt; sink.write(b"a"), Err(SinkFault::Failed));
    assert_eq!(rt; sink.flush(), Err(SinkFault::Failed));
    assert_eq!(rt; sink.write(b""), Ok(0));
    Ok(())
}

#[test]
fn small_writes_are_held_until_a_flush(rt: HostRuntime) -> Result<(), Fail> {
    let rt = &rt;
    let alloc = rt.alloc();
    let mut held = HeldSink::new(alloc, MemSink::new(Vec::new(alloc), Vec::new(alloc)))?;
    write_all(&mut held, b"ab")?;
    write_all(&mut held, b"cd")?;
    assert_eq!(rt; held.into_inner().written(), b"".as_slice());
    // The first of the calls below fails; what it was to take goes out with the next flush.
    let mut held = HeldSink::new(alloc, MemSink::new(Vec::new(alloc), [1].to_vec(alloc)?))?;
    write_all(&mut held, b"ab")?;
    assert_eq!(rt; held.flush(), Err(SinkFault::Failed));
    write_all(&mut held, b"cd")?;
    held.flush()?;
    assert_eq!(rt; held.into_inner().written(), b"abcd".as_slice());
    Ok(())
}
