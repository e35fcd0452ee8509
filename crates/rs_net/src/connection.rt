//! The two ends of a connection.
ghost use Rattle.std.specs.Prelude.{◌≡◌, [], IfSome};

use rs_stream::{HeldSink, StdSink, StdSource};
use std::alloc::Global;
use std::io::{self, Read};
use std::net::{Shutdown, TcpStream};
use std::time::{Clock, Duration, Instant};

/// How long a connection that is closed is read on: no read begins later, and no read waits longer than half of it.
pub const LINGER_MILLISECONDS: u64 = 2000;

/// How many reads that takes at most, of 4,096 bytes each.
const LINGER_READS: u32 = 4096;

/// Where the bytes of a connection come from. It tells none, since no clause can say what a peer sends.
pub type TcpSource = StdSource<TcpStream>;

/// Where the replies of a connection go. It holds small writes back until `flush`, so that a reply is one write.
pub type TcpSink = HeldSink<StdSink<TcpStream>>;

/// The two ends of this connection, of which none has failed and none holds anything yet. What is flushed goes out at once
/// (TCP_NODELAY), and a read or a write that waits longer than the limit fails.
///
/// None, and the connection is closed, where the system refuses an option or a second descriptor, or there is no memory. It
/// refuses a limit of 0.
pub fn two_ends(alloc: Global, stream: TcpStream, limit: Duration) -> Option<(TcpSource, TcpSink)>
    ensures source { IfSome result (λ ends. ends.0.faults ≡ 0) }
    ensures sink { IfSome result (λ ends. ends.1.inner.faults ≡ 0) }
    ensures held { IfSome result (λ ends. ends.1.held ≡ []) }
{
    stream.set_nodelay(true).ok()?;
    stream.set_read_timeout(Some(limit)).ok()?;
    stream.set_write_timeout(Some(limit)).ok()?;
    let other = stream.try_clone().ok()?;
    let sink = HeldSink::new(alloc, StdSink::new(other)).ok()?;
    Some((StdSource::new(stream), sink))
}

/// Closes a connection. The peer sees the end at once; what it still sends is dropped until it closes too, for about
/// `LINGER_MILLISECONDS` at most. Otherwise the system would reset the connection over bytes that nobody read, and the peer could
/// lose the last reply (RFC 9112, section 9.6).
pub fn close<C: Clock>(clock: &C, source: TcpSource, sink: TcpSink) {
    let mut stream = source.into_inner();
    // an error says that the peer is gone or silent: then there is nobody to wait for
    let _ = linger(clock, &mut stream);
    drop(sink);
}

fn linger<C: Clock>(clock: &C, stream: &mut TcpStream) -> io::Result<()> {
    stream.shutdown(Shutdown::Write)?;
    stream.set_read_timeout(Some(Duration::from_millis(LINGER_MILLISECONDS / 2)))?;
    let start = Instant::now(clock)?;
    let mut room = [0; 4096];
    for _ in 0..LINGER_READS {
        let is_closed = stream.read(&mut room)? == 0;
        if is_closed || start.elapsed(clock)? >= Duration::from_millis(LINGER_MILLISECONDS) {
            break;
        }
    }
    Ok(())
}
