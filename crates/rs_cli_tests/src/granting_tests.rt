//! Runs of `grant` and `revoke` over rows in memory.

use crate::exchanges::{has_rows, keeper_of, run, run_over};
use rs_cli::Note;
use rs_face::{MemEntropy, MemKeeper, MemSink, MemSource};
use rs_scope::Token;
use std::alloc::Global;
use std::process::Abort;
use std::test::Fail;

const FIRST: u64 = 0x0001_0203_0405_0607;

const SECOND: u64 = 0x0809_0A0B_0C0D_0E0F;

const PRINTED: &[u8] = b"000102030405060708090a0b0c0d0e0f\n";

/// Grant of the token of the two words with `notes:rw`.
const GRANT_ROW: &[u8] =
    b"\x01\x03\x00\x01\x02\x03\x04\x05\x06\x07\x08\x09\x0a\x0b\x0c\x0d\x0e\x0f\x00\x08notes:rw";

const REVOKE_ROW: &[u8] =
    b"\x01\x04\x00\x01\x02\x03\x04\x05\x06\x07\x08\x09\x0a\x0b\x0c\x0d\x0e\x0f";

/// An input that no command but `pipe` reads.
fn unread(alloc: Global) -> Result<MemSource, Fail> {
    Ok(MemSource::new(b"GET".to_vec(alloc)?, [1].to_vec(alloc)?))
}

/// `grant notes:rw` over these rows and words ends so, with these rows and printed bytes. A number that isn't 0 is that of
/// the call that fails, of the keeper, the entropy and the sink.
fn sees_grant(
    rt: &impl Abort,
    alloc: Global,
    failing: (u64, u64, u64),
    rows: &[&[u8]],
    words: &[u64],
    rows_after: &[&[u8]],
    printed: &[u8],
) -> Result<Note, Fail> {
    let (keeper_fails, entropy_fails, sink_fails) = failing;
    let mut keeper = keeper_of(alloc, rows, &[keeper_fails])?;
    let mut entropy = MemEntropy::new(words.to_vec(alloc)?, [entropy_fails].to_vec(alloc)?);
    let mut sink = MemSink::new(Vec::new(alloc), [sink_fails].to_vec(alloc)?);
    let mut source = unread(alloc)?;
    let line = "grant notes:rw";
    let status = run_over(
        alloc,
        line,
        &mut source,
        &mut sink,
        &mut keeper,
        &mut entropy,
    )?;
    has_rows(rt, &keeper, rows_after)?;
    assert_eq!(rt; sink.written(), printed);
    Ok(status.note)
}

#[test]
fn a_token_is_granted(rt: HostRuntime) -> Result<(), Fail> {
    let words = [FIRST, SECOND];
    let alloc = rt.alloc();
    let after = [GRANT_ROW];
    let note = sees_grant(&rt, alloc, (0, 0, 0), &[], &words, &after, PRINTED)?;
    assert_eq!(rt; note, Note::Empty);
    // again after it was revoked
    let before = [GRANT_ROW, REVOKE_ROW];
    let after = [GRANT_ROW, REVOKE_ROW, GRANT_ROW];
    let note = sees_grant(&rt, alloc, (0, 0, 0), &before, &words, &after, PRINTED)?;
    assert_eq!(rt; note, Note::Empty);
    Ok(())
}

#[test]
fn a_token_is_granted_once(rt: HostRuntime) -> Result<(), Fail> {
    let rows = [GRANT_ROW];
    let words = [FIRST, SECOND];
    let note = sees_grant(&rt, rt.alloc(), (0, 0, 0), &rows, &words, &rows, b"")?;
    assert_eq!(rt;
        note,
        Note::TokenTaken {
            token: Token::of_words(FIRST, SECOND)
        }
    );
    Ok(())
}

#[test]
fn a_draw_that_fails(rt: HostRuntime) -> Result<(), Fail> {
    let rows = [GRANT_ROW];
    let alloc = rt.alloc();
    // one word, none, and a call that fails
    let note = sees_grant(&rt, alloc, (0, 0, 0), &rows, &[1], &rows, b"")?;
    assert_eq!(rt; note, Note::EntropyFailed);
    let note = sees_grant(&rt, alloc, (0, 0, 0), &rows, &[], &rows, b"")?;
    assert_eq!(rt; note, Note::EntropyFailed);
    let note = sees_grant(&rt, alloc, (0, 2, 0), &rows, &[1, 2], &rows, b"")?;
    assert_eq!(rt; note, Note::EntropyFailed);
    Ok(())
}

#[test]
fn rows_that_are_wrong_come_before_a_draw(rt: HostRuntime) -> Result<(), Fail> {
    let alloc = rt.alloc();
    let rows: [&[u8]; 1] = [b"\x01\x03"];
    let note = sees_grant(&rt, alloc, (0, 0, 0), &rows, &[], &rows, b"")?;
    assert_eq!(rt; note, Note::RowAt { index: 0, place: 2 });
    let rows = [GRANT_ROW, GRANT_ROW];
    let note = sees_grant(&rt, alloc, (0, 0, 0), &rows, &[], &rows, b"")?;
    assert_eq!(rt; note, Note::RowUnlawful { index: 1 });
    Ok(())
}

#[test]
fn a_keeper_that_fails(rt: HostRuntime) -> Result<(), Fail> {
    let rows = [GRANT_ROW];
    let alloc = rt.alloc();
    // the read, and the append
    let note = sees_grant(&rt, alloc, (1, 0, 0), &rows, &[1, 2], &rows, b"")?;
    assert_eq!(rt; note, Note::KeeperFailed);
    let note = sees_grant(&rt, alloc, (2, 0, 0), &rows, &[1, 2], &rows, b"")?;
    assert_eq!(rt; note, Note::KeeperFailed);
    Ok(())
}

#[test]
fn a_sink_that_fails(rt: HostRuntime) -> Result<(), Fail> {
    let after = [GRANT_ROW];
    let words = [FIRST, SECOND];
    let alloc = rt.alloc();
    // the digits, the line end and the flush; the token is granted
    let digits = b"000102030405060708090a0b0c0d0e0f";
    let note = sees_grant(&rt, alloc, (0, 0, 1), &[], &words, &after, b"")?;
    assert_eq!(rt; note, Note::SinkFailed);
    let note = sees_grant(&rt, alloc, (0, 0, 2), &[], &words, &after, digits)?;
    assert_eq!(rt; note, Note::SinkFailed);
    let note = sees_grant(&rt, alloc, (0, 0, 3), &[], &words, &after, PRINTED)?;
    assert_eq!(rt; note, Note::SinkFailed);
    Ok(())
}

/// `revoke` of the token over these rows ends so, with these rows and printed bytes; the call of the keeper and the call of
/// the sink with these numbers fail.
fn sees_revoke(
    rt: &impl Abort,
    alloc: Global,
    failing: (u64, u64),
    rows: &[&[u8]],
    rows_after: &[&[u8]],
    printed: &[u8],
) -> Result<Note, Fail> {
    let (keeper_fails, sink_fails) = failing;
    let mut keeper = keeper_of(alloc, rows, &[keeper_fails])?;
    let mut sink = MemSink::new(Vec::new(alloc), [sink_fails].to_vec(alloc)?);
    let mut source = unread(alloc)?;
    let line = "revoke 000102030405060708090a0b0c0d0e0f";
    let status = run(alloc, line, &mut source, &mut sink, &mut keeper)?;
    has_rows(rt, &keeper, rows_after)?;
    assert_eq!(rt; sink.written(), printed);
    Ok(status.note)
}

#[test]
fn a_token_is_revoked(rt: HostRuntime) -> Result<(), Fail> {
    let rows = [GRANT_ROW];
    let after = [GRANT_ROW, REVOKE_ROW];
    let note = sees_revoke(&rt, rt.alloc(), (0, 0), &rows, &after, b"revoked\n")?;
    assert_eq!(rt; note, Note::Empty);
    // it could not be printed
    let note = sees_revoke(&rt, rt.alloc(), (0, 1), &rows, &after, b"")?;
    assert_eq!(rt; note, Note::SinkFailed);
    Ok(())
}

#[test]
fn a_token_that_is_not_granted(rt: HostRuntime) -> Result<(), Fail> {
    let note = sees_revoke(&rt, rt.alloc(), (0, 0), &[], &[], b"")?;
    assert_eq!(rt; note, Note::NotThere);
    let rows = [GRANT_ROW, REVOKE_ROW];
    let note = sees_revoke(&rt, rt.alloc(), (0, 0), &rows, &rows, b"")?;
    assert_eq!(rt; note, Note::NotThere);
    Ok(())
}

#[test]
fn rows_that_revoke_refuses(rt: HostRuntime) -> Result<(), Fail> {
    let alloc = rt.alloc();
    let rows: [&[u8]; 1] = [b"\x01\x03"];
    let note = sees_revoke(&rt, alloc, (0, 0), &rows, &rows, b"")?;
    assert_eq!(rt; note, Note::RowAt { index: 0, place: 2 });
    let rows = [REVOKE_ROW];
    let note = sees_revoke(&rt, alloc, (0, 0), &rows, &rows, b"")?;
    assert_eq!(rt; note, Note::RowUnlawful { index: 0 });
    let rows = [GRANT_ROW];
    let note = sees_revoke(&rt, alloc, (2, 0), &rows, &rows, b"")?;
    assert_eq!(rt; note, Note::KeeperFailed);
    Ok(())
}

/// The words over an input that no command but `pipe` reads print this and end so.
fn sees_words(
    rt: &impl Abort,
    alloc: Global,
    line: &str,
    keeper: &mut MemKeeper,
    entropy: &mut MemEntropy,
    printed: &[u8],
) -> Result<Note, Fail> {
    let mut source = unread(alloc)?;
    let mut sink = MemSink::new(Vec::new(alloc), Vec::new(alloc));
    let status = run_over(alloc, line, &mut source, &mut sink, keeper, entropy)?;
    assert_eq!(rt; sink.written(), printed);
    Ok(status.note)
}

#[test]
fn granted_and_then_revoked(rt: HostRuntime) -> Result<(), Fail> {
    let alloc = rt.alloc();
    let mut keeper = keeper_of(alloc, &[], &[])?;
    let drawn = [FIRST, SECOND, FIRST].to_vec(alloc)?;
    let mut entropy = MemEntropy::new(drawn, Vec::new(alloc));
    let (grant, revoke) = ("grant notes:rw", "revoke 000102030405060708090a0b0c0d0e0f");
    let note = sees_words(&rt, alloc, grant, &mut keeper, &mut entropy, PRINTED)?;
    assert_eq!(rt; note, Note::Empty);
    has_rows(&rt, &keeper, &[GRANT_ROW])?;
    // one word is left
    let note = sees_words(&rt, alloc, grant, &mut keeper, &mut entropy, b"")?;
    assert_eq!(rt; note, Note::EntropyFailed);
    let note = sees_words(&rt, alloc, revoke, &mut keeper, &mut entropy, b"revoked\n")?;
    assert_eq!(rt; note, Note::Empty);
    let note = sees_words(&rt, alloc, revoke, &mut keeper, &mut entropy, b"")?;
    assert_eq!(rt; note, Note::NotThere);
    has_rows(&rt, &keeper, &[GRANT_ROW, REVOKE_ROW])
}

#[test]
fn words_without_rows(rt: HostRuntime) -> Result<(), Fail> {
    let alloc = rt.alloc();
    let mut keeper = keeper_of(alloc, &[b"\x01\x03"], &[1])?;
    let mut entropy = MemEntropy::new(Vec::new(alloc), Vec::new(alloc));
    let version = b"rs 0.1.0\n";
    let help =
        b"rs pipe USER TOKEN SCOPES [QUOTA [BASE SALT SECRET]]\nrs grant SCOPES\nrs revoke TOKEN\nrs connect ROOT TOKEN SCOPES\nrs put PATH TYPE\nrs get PATH\nrs rm PATH\nrs ls FOLDER\nrs status\nrs conflicts\nrs resolve N keep|drop\nrs serve --config FILE [--workers N]\nrs --help\nrs --version\n";
    let note = sees_words(&rt, alloc, "--version", &mut keeper, &mut entropy, version)?;
    assert_eq!(rt; note, Note::Empty);
    let note = sees_words(&rt, alloc, "--help", &mut keeper, &mut entropy, help)?;
    assert_eq!(rt; note, Note::Empty);
    let note = sees_words(&rt, alloc, "revoke", &mut keeper, &mut entropy, b"")?;
    assert_eq!(rt; note, Note::Word { index: 1 });
    // and with them
    let note = sees_words(&rt, alloc, "grant notes:rw", &mut keeper, &mut entropy, b"")?;
    assert_eq!(rt; note, Note::KeeperFailed);
    let note = sees_words(&rt, alloc, "grant notes:rw", &mut keeper, &mut entropy, b"")?;
    assert_eq!(rt; note, Note::RowAt { index: 0, place: 2 });
    Ok(())
}
