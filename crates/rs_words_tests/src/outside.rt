//! What the fakes answer and hold, as tables.
use rs_face::{
    Bytes, Entropy, EntropyFault, KeepFault, Keeper, MemEntropy, MemKeeper, MemSink, MemSource,
    NoFailKeeper, NoFailSink, NoFailSource, Sink, SinkFault, Source, SourceFault, write_all,
};
use std::test::Fail;

#[test]
fn source_hands_out_pieces(rt: HostRuntime) -> Result<(), Fail> {
    for (piece, count, read) in [
        (0, 1, *b"a...."),
        (1, 1, *b"a...."),
        (4, 4, *b"abcd."),
        (7, 5, *b"abcde"),
    ] {
        let bytes = b"abcdefgh".to_vec(rt.alloc())?;
        let mut source = MemSource::in_pieces(bytes, piece, Vec::new(rt.alloc()));
        let mut room = *b".....";
        assert_eq!(rt; source.read(&mut room), Ok(count), "in pieces of {piece}");
        assert_eq!(rt; room, read, "in pieces of {piece}");
    }
    Ok(())
}

#[test]
fn source_fails_by_number(rt: HostRuntime) -> Result<(), Fail> {
    let bytes = b"abc".to_vec(rt.alloc())?;
    let mut source = MemSource::new(bytes, [2, 4].to_vec(rt.alloc())?);
    let mut room = *b"..";
    for (answer, read) in [
        (Ok(2), *b"ab"),
        (Err(SourceFault::Failed), *b"ab"),
        (Ok(1), *b"cb"),
        (Err(SourceFault::Failed), *b"cb"),
        (Ok(0), *b"cb"),
    ] {
        assert_eq!(rt; source.read(&mut room), answer);
        assert_eq!(rt; room, read);
    }
    Ok(())
}

#[test]
fn source_that_never_fails(rt: HostRuntime) -> Result<(), Fail> {
    let mut source = NoFailSource::new(b"abc".to_vec(rt.alloc())?);
    let mut room = *b"..";
    for (count, read) in [(2, *b"ab"), (1, *b"cb"), (0, *b"cb")] {
        assert_eq!(rt; source.read(&mut room), Ok(count));
        assert_eq!(rt; room, read);
    }
    Ok(())
}

#[test]
fn sink_fails_by_number(rt: HostRuntime) -> Result<(), Fail> {
    let held = b"<".to_vec(rt.alloc())?;
    let mut sink = MemSink::in_pieces(held, 2, [2, 4].to_vec(rt.alloc())?);
    assert_eq!(rt; sink.write(b"abc"), Ok(2));
    assert_eq!(rt; sink.write(b"c"), Err(SinkFault::Failed));
    assert_eq!(rt; sink.flush(), Ok(()));
    assert_eq!(rt; sink.flush(), Err(SinkFault::Failed));
    assert_eq!(rt; sink.written(), b"<ab".as_slice());
    assert_eq!(rt; sink.write(b"c"), Ok(1));
    assert_eq!(rt; sink.written(), b"<abc".as_slice());
    Ok(())
}

#[test]
fn whole_piece_or_a_front(rt: HostRuntime) -> Result<(), Fail> {
    let failed = Err(SinkFault::Failed);
    for (failing, answer, written) in [
        (1, failed, b"<".as_slice()),
        (2, failed, b"<ab".as_slice()),
        (3, failed, b"<abcd".as_slice()),
        (4, Ok(()), b"<abcde".as_slice()),
    ] {
        let held = b"<".to_vec(rt.alloc())?;
        let mut sink = MemSink::in_pieces(held, 2, [failing].to_vec(rt.alloc())?);
        assert_eq!(rt;
            write_all(&mut sink, b"abcde"),
            answer,
            "failing at {failing}"
        );
        assert_eq!(rt; sink.written(), written, "failing at {failing}");
    }
    Ok(())
}

#[test]
fn sinks_that_take_all(rt: HostRuntime) -> Result<(), Fail> {
    let mut sink = NoFailSink::new(b"<".to_vec(rt.alloc())?);
    write_all(&mut sink, b"abc")?;
    sink.flush()?;
    assert_eq!(rt; sink.written(), b"<abc".as_slice());
    let mut sink = MemSink::new(Vec::new(rt.alloc()), Vec::new(rt.alloc()));
    assert_eq!(rt; sink.write(b"abc"), Ok(3));
    assert_eq!(rt; sink.written(), b"abc".as_slice());
    Ok(())
}

#[test]
fn keeper_fails_by_number(rt: HostRuntime) -> Result<(), Fail> {
    let mut rows = Vec::new(rt.alloc());
    rows.push(Bytes::of(b"one".to_vec(rt.alloc())?))?;
    let mut keeper = MemKeeper::new(rows, [2, 4].to_vec(rt.alloc())?);
    let mut out = b"before".to_vec(rt.alloc())?;
    assert_eq!(rt; keeper.append(b"two"), Ok(()));
    assert_eq!(rt; keeper.append(b"three"), Err(KeepFault::Failed));
    assert_eq!(rt; keeper.len(), 2);
    assert_eq!(rt; keeper.read(1, &mut out), Ok(()));
    assert_eq!(rt; out.as_slice(), b"two".as_slice());
    assert_eq!(rt; keeper.read(1, &mut out), Err(KeepFault::Failed));
    assert_eq!(rt; out.as_slice(), b"".as_slice());
    assert_eq!(rt; keeper.rows().len(), 2);
    assert_eq!(rt; keeper.rows()[0].as_slice(), b"one".as_slice());
    Ok(())
}

#[test]
fn keeper_that_never_fails(rt: HostRuntime) -> Result<(), Fail> {
    let mut keeper = NoFailKeeper::new(Vec::new(rt.alloc()));
    let mut out = Vec::new(rt.alloc());
    keeper.append(b"one")?;
    assert_eq!(rt; keeper.len(), 1);
    keeper.read(0, &mut out)?;
    assert_eq!(rt; out.as_slice(), b"one".as_slice());
    assert_eq!(rt; keeper.rows().len(), 1);
    Ok(())
}

#[test]
fn entropy_fails_by_number_and_when_used_up(rt: HostRuntime) -> Result<(), Fail> {
    let failed = Err(EntropyFault::Failed);
    let words = [5, 6].to_vec(rt.alloc())?;
    let mut entropy = MemEntropy::new(words, [2].to_vec(rt.alloc())?);
    for answer in [Ok(5), failed, Ok(6), failed, failed] {
        assert_eq!(rt; entropy.word(), answer);
    }
    Ok(())
}
