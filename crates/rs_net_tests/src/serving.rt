//! Connections over the loopback address, both ends in this process.

use rs_face::{Listener, Sink, SinkFault, Source, SourceFault, write_all};
use rs_net::{NetListener, TcpSink, TcpSource, close, two_ends};
use std::alloc::{AllocError, Global};
use std::io::{ErrorKind, Read, Write};
use std::net::{Ipv4Addr, Net, Shutdown, SocketAddr, TcpListener, TcpStream};
use std::test::Fail;
use std::thread::Threads;
use std::time::Duration;
use std::{io, thread};

/// How long a read or a write may wait where it is to succeed.
const AMPLE_SECONDS: u64 = 20;

/// How long it may wait where it is to fail.
const SHORT_MILLISECONDS: u64 = 50;

fn listen<N>(net: &N) -> io::Result<(TcpListener, SocketAddr)>
where
    N: Net<Listener = TcpListener, Stream = TcpStream>,
{
    let listener = TcpListener::bind(net, SocketAddr::from((Ipv4Addr::LOCALHOST, 0)))?;
    let address = listener.local_addr()?;
    Ok((listener, address))
}

/// A client, and the two ends of its connection.
fn connect<N>(
    net: &N,
    alloc: Global,
    limit: Duration,
) -> io::Result<(TcpStream, TcpSource, TcpSink)>
where
    N: Net<Listener = TcpListener, Stream = TcpStream>,
{
    let (listener, address) = listen(net)?;
    let client = TcpStream::connect(net, address)?;
    let (stream, _) = listener.accept()?;
    match two_ends(alloc, stream, limit) {
        Some((source, sink)) => Ok((client, source, sink)),
        None => Err(io::Error::from(ErrorKind::Other)),
    }
}

/// Reads byte by byte until the room is full or the input ends, and says how many came.
fn fill(source: &mut TcpSource, room: &mut [u8]) -> Result<usize, SourceFault> {
    let full = room.len();
    let mut one = [0; 1];
    for (place, byte) in room.iter_mut().enumerate() {
        if source.read(&mut one)? == 0 {
            return Ok(place);
        }
        *byte = one[0];
    }
    Ok(full)
}

/// So many bytes of 0.
fn zeros(alloc: Global, len: usize) -> Result<Vec<u8>, AllocError> {
    vec![in alloc; 0; len]
}

/// So many bytes, of which no two neighbours are the same.
fn numbered(alloc: Global, len: u32) -> Result<Vec<u8>, AllocError> {
    let mut bytes = Vec::new(alloc);
    for place in 0..len {
        bytes.push((place % 251) as u8)?;
    }
    Ok(bytes)
}

#[test]
fn pieces_are_read_to_the_end(rt: HostRuntime) -> Result<(), Fail> {
    let (mut client, mut source, _sink) = connect(
        &rt,
        rt.alloc(),
        Duration::from_secs(AMPLE_SECONDS),
    )?;
    client.write_all(b"ab")?;
    client.write_all(b"cde")?;
    let mut room = [0; 5];
    assert_eq!(rt; fill(&mut source, &mut room), Ok(5));
    assert_eq!(rt; room, *b"abcde");
    client.write_all(b"f")?;
    client.shutdown(Shutdown::Write)?;
    assert_eq!(rt; fill(&mut source, &mut room), Ok(1));
    assert_eq!(rt; room, *b"fbcde");
    assert_eq!(rt; source.read(&mut room), Ok(0));
    Ok(())
}

#[test]
fn a_reply_goes_out_at_its_flush(rt: HostRuntime) -> Result<(), Fail> {
    let (mut client, _source, mut sink) = connect(
        &rt,
        rt.alloc(),
        Duration::from_secs(AMPLE_SECONDS),
    )?;
    client.set_read_timeout(Some(Duration::from_millis(SHORT_MILLISECONDS)))?;
    let mut room = [0; 9];
    write_all(&mut sink, b"one")?;
    write_all(&mut sink, b"two")?;
    match client.read(&mut room) {
        Err(error) => assert_eq!(rt; error.kind(), ErrorKind::WouldBlock),
        Ok(count) => panic!(rt; "{count} bytes before the flush"),
    }
    sink.flush()?;
    client.set_read_timeout(Some(Duration::from_secs(AMPLE_SECONDS)))?;
    assert_eq!(rt; client.read(&mut room)?, 6);
    assert_eq!(rt; room, *b"onetwo\0\0\0");
    Ok(())
}

#[test]
fn a_silent_client_is_a_failed_read(rt: HostRuntime) -> Result<(), Fail> {
    let (mut client, mut source, _sink) = connect(
        &rt,
        rt.alloc(),
        Duration::from_millis(SHORT_MILLISECONDS),
    )?;
    let mut room = [0; 3];
    assert_eq!(rt; source.read(&mut room), Err(SourceFault::Failed));
    client.write_all(b"abc")?;
    assert_eq!(rt; fill(&mut source, &mut room), Ok(3));
    Ok(())
}

#[test]
fn a_client_that_takes_nothing_is_a_failed_write(rt: HostRuntime) -> Result<(), Fail> {
    let (_client, _source, mut sink) = connect(
        &rt,
        rt.alloc(),
        Duration::from_millis(SHORT_MILLISECONDS),
    )?;
    let piece = zeros(rt.alloc(), 1_048_576)?;
    let mut end = Ok(());
    for _ in 0..1_000 {
        end = write_all(&mut sink, piece.as_slice());
        if end.is_err() {
            break;
        }
    }
    assert_eq!(rt; end, Err(SinkFault::Failed));
    Ok(())
}

#[test]
fn a_client_that_resets_is_a_failed_read(rt: HostRuntime) -> Result<(), Fail> {
    let (client, mut source, mut sink) = connect(
        &rt,
        rt.alloc(),
        Duration::from_secs(AMPLE_SECONDS),
    )?;
    write_all(&mut sink, b"unread")?;
    sink.flush()?;
    let mut room = [0; 6];
    assert_eq!(rt; client.peek(&mut room)?, 6);
    // Closed with bytes that it didn't read, a socket resets its connection.
    drop(client);
    assert_eq!(rt; source.read(&mut room), Err(SourceFault::Failed));
    Ok(())
}

#[test]
fn a_large_piece_passes_in_order(rt: HostRuntime) -> Result<(), Fail> {
    let (client, _source, mut sink) = connect(&rt, rt.alloc(), Duration::from_secs(AMPLE_SECONDS))?;
    let piece = numbered(rt.alloc(), 20_480)?;
    let mut room = zeros(rt.alloc(), 20_484)?;
    let (sent, got) = thread::join(
        &rt,
        || -> bool { send_behind_a_head(&mut sink, piece.as_slice()) },
        || -> bool { read_whole(&client, room.as_mut_slice()) },
    );
    assert!(rt; sent && got);
    assert!(rt; room.as_slice().starts_with(b"head"));
    assert!(rt; room.as_slice().ends_with(piece.as_slice()));
    Ok(())
}

fn send_behind_a_head(sink: &mut TcpSink, piece: &[u8]) -> bool {
    write_all(sink, b"head").is_ok() && write_all(sink, piece).is_ok() && sink.flush().is_ok()
}

fn read_whole(mut client: &TcpStream, room: &mut [u8]) -> bool {
    client.read_exact(room).is_ok()
}

#[test]
fn a_client_that_still_sends_reads_the_last_reply(rt: HostRuntime) -> Result<(), Fail> {
    let (mut client, source, mut sink) = connect(
        &rt,
        rt.alloc(),
        Duration::from_secs(AMPLE_SECONDS),
    )?;
    client.write_all(zeros(rt.alloc(), 30_000)?.as_slice())?;
    write_all(&mut sink, b"refused")?;
    sink.flush()?;
    close(&rt, source, sink);
    client.set_read_timeout(Some(Duration::from_secs(AMPLE_SECONDS)))?;
    let mut room = [0; 9];
    assert_eq!(rt; client.read(&mut room)?, 7);
    assert_eq!(rt; room, *b"refused\0\0");
    assert_eq!(rt; client.read(&mut room)?, 0);
    Ok(())
}

#[test]
fn none_come_after_the_most(rt: HostRuntime) -> Result<(), Fail> {
    let (listener, address) = listen(&rt)?;
    let mut net = NetListener::giving(
        rt.alloc(),
        &rt,
        &listener,
        Duration::from_secs(AMPLE_SECONDS),
        2,
    );
    for name in [*b"a", *b"b"] {
        let mut client = TcpStream::connect(&rt, address)?;
        client.write_all(&name)?;
        let Ok(Some((mut source, sink))) = net.accept() else {
            panic!(rt; "no connection");
        };
        let mut room = [0; 1];
        assert_eq!(rt; source.read(&mut room), Ok(1));
        assert_eq!(rt; room, name);
        net.end(source, sink, false);
        // Both ends are closed.
        assert_eq!(rt; client.read(&mut room)?, 0);
    }
    let _waiting = TcpStream::connect(&rt, address)?;
    for _ in 0..2 {
        assert!(rt; matches!(net.accept(), Ok(None)));
    }
    Ok(())
}

/// A worker, and the byte that it got.
#[derive(Drop)]
struct Worker<N: Listener + Drop> {
    net: N,
    got: u8,
}

/// Takes a connection, reads one byte of it, and gives it back.
fn work<N: Listener + Drop>(worker: &mut Worker<N>) {
    if let Ok(Some((mut source, sink))) = worker.net.accept() {
        let mut room = [0; 1];
        if source.read(&mut room) == Ok(1) {
            worker.got = room[0];
        }
        worker.net.end(source, sink, false);
    }
}

/// Each worker works in a thread of its own.
fn work_all<N: Listener + Send + Drop, R: Threads + Sync>(rt: &R, workers: &mut [Worker<N>]) {
    let threads = workers.len();
    if threads > 0 {
        thread::for_each_mut(rt, workers, threads, &|_, worker| work(worker));
    }
}

#[test]
fn workers_share_a_socket(rt: HostRuntime) -> Result<(), Fail> {
    let (listener, address) = listen(&rt)?;
    let mut workers = Vec::with_capacity(rt.alloc(), 2)?;
    for _ in 0..2 {
        let limit = Duration::from_secs(AMPLE_SECONDS);
        let net = NetListener::giving(rt.alloc(), &rt, &listener, limit, 1);
        workers.push(Worker { net, got: 0 })?;
    }
    let mut one = TcpStream::connect(&rt, address)?;
    let mut other = TcpStream::connect(&rt, address)?;
    one.write_all(b"a")?;
    other.write_all(b"b")?;
    work_all(&rt, workers.as_mut_slice());
    let mut got = 0;
    for worker in workers.iter() {
        got ^= worker.got;
    }
    assert_eq!(rt; got, b'a' ^ b'b');
    Ok(())
}
