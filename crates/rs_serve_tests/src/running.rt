//! One run after another: how each ends, and what it leaves.

use crate::objects::{
    ALICE, BOTH, CREATED, FOUND, GET, GRANT_ROW, PUT, TestPost, keeper, post, run,
};
use rs_cli::Note;
use rs_config::{ConfigKey, serve_help_text};
use rs_face::{MemKeeper, MemSink};
use rs_hall::OpenGate;
use std::alloc::Global;
use std::process::Abort;
use std::sync::Wait;
use std::test::Fail;
use std::thread::Threads;

const WORDS: &str = "--config c --workers 1";

// What is served: the texts of each connection, and which calls of the listener and of the sink fail.
#[derive(Drop)]
struct Case<'a> {
    words: &'a str,
    file: &'a str,
    texts: &'a [&'a str],
    failing: &'a [u64],
    sink_failing: &'a [u64],
    rows: &'a [&'a [&'a [u8]]],
}

// What is left: the note, the user, what was printed, the replies, the numbers of rows.
#[derive(Drop)]
struct Left {
    note: Note,
    user: Option<u32>,
    printed: Vec<u8>,
    replies: Vec<Vec<u8>>,
    rows: Vec<usize>,
}

fn left_by<R: Threads + Wait + Sync>(rt: &R, alloc: Global, case: &Case<'_>) -> Result<Left, Fail> {
    let mut posts: Vec<TestPost> = Vec::new(alloc);
    posts.push(post(alloc, case.texts, case.failing, None)?)?;
    let mut keepers: Vec<MemKeeper> = Vec::new(alloc);
    for rows in case.rows {
        keepers.push(keeper(alloc, rows)?)?;
    }
    let mut sink = MemSink::new(Vec::new(alloc), case.sink_failing.to_vec(alloc)?);
    let end = run(
        rt,
        alloc,
        case.words,
        case.file,
        &mut posts,
        &mut keepers,
        &OpenGate,
        &mut sink,
    )?;
    let mut replies = Vec::new(alloc);
    for post in posts.iter() {
        for ended in post.listener.inner.ended() {
            replies.push(Vec::from_slice(alloc, ended.sink.written())?)?;
        }
    }
    let mut rows = Vec::new(alloc);
    for keeper in keepers.iter() {
        rows.push(keeper.rows().len())?;
    }
    Ok(Left {
        note: end.status.note,
        user: end.user,
        printed: Vec::from_slice(alloc, sink.written())?,
        replies,
        rows,
    })
}

// The run ends with this note, for the rows of this user or of none, and leaves this printed, these replies and so many rows.
fn leaves(
    rt: &impl Abort,
    left: &Left,
    note: Note,
    user: Option<u32>,
    printed: &[u8],
    replies: &[&str],
    rows: &[usize],
) -> Result<(), Fail> {
    assert_eq!(rt; left.note, note);
    assert_eq!(rt; left.user, user);
    assert_eq!(rt; left.printed.as_slice(), printed);
    assert_eq!(rt; left.replies.len(), replies.len());
    for (reply, wanted) in left.replies.iter().zip(replies) {
        assert_eq!(rt; reply.as_slice(), wanted.as_bytes());
    }
    assert_eq!(rt; left.rows.as_slice(), rows);
    Ok(())
}

#[test]
fn served_connections_are_counted(rt: HostRuntime) -> Result<(), Fail> {
    let alloc = rt.alloc();
    let case = Case {
        words: WORDS,
        file: ALICE,
        texts: &[PUT],
        failing: &[],
        sink_failing: &[],
        rows: &[&[GRANT_ROW]],
    };
    let left = left_by(&rt, alloc, &case)?;
    leaves(
        &rt,
        &left,
        Note::Empty,
        None,
        b"served 1\n",
        &[CREATED],
        &[2],
    )?;
    let case = Case {
        words: WORDS,
        file: ALICE,
        texts: &[PUT, GET],
        failing: &[],
        sink_failing: &[],
        rows: &[&[GRANT_ROW]],
    };
    let left = left_by(&rt, alloc, &case)?;
    leaves(
        &rt,
        &left,
        Note::Empty,
        None,
        b"served 2\n",
        &[CREATED, FOUND],
        &[2],
    )?;
    let case = Case {
        words: WORDS,
        file: ALICE,
        texts: &[],
        failing: &[],
        sink_failing: &[],
        rows: &[&[GRANT_ROW]],
    };
    let left = left_by(&rt, alloc, &case)?;
    leaves(&rt, &left, Note::Empty, None, b"served 0\n", &[], &[1])
}

#[test]
fn words_and_files_are_refused_first(rt: HostRuntime) -> Result<(), Fail> {
    let alloc = rt.alloc();
    let mut case = Case {
        words: "--workers 1",
        file: ALICE,
        texts: &[PUT],
        failing: &[],
        sink_failing: &[],
        rows: &[&[GRANT_ROW]],
    };
    let left = left_by(&rt, alloc, &case)?;
    leaves(&rt, &left, Note::Words, None, b"", &[], &[1])?;
    case.words = "--help";
    let left = left_by(&rt, alloc, &case)?;
    let mut help = Vec::from_slice(alloc, serve_help_text())?;
    help.push(b'\n')?;
    leaves(&rt, &left, Note::Empty, None, help.as_slice(), &[], &[1])?;
    case.words = WORDS;
    case.file = "listen = \"x\"";
    let left = left_by(&rt, alloc, &case)?;
    let key = ConfigKey::Base;
    leaves(&rt, &left, Note::Config { key }, None, b"", &[], &[1])?;
    case.file = "=";
    let left = left_by(&rt, alloc, &case)?;
    leaves(&rt, &left, Note::ConfigToml, None, b"", &[], &[1])
}

#[test]
fn the_first_user_whose_rows_are_wrong_is_told(rt: HostRuntime) -> Result<(), Fail> {
    let alloc = rt.alloc();
    let case = Case {
        words: WORDS,
        file: BOTH,
        texts: &[PUT],
        failing: &[],
        sink_failing: &[],
        rows: &[&[GRANT_ROW], &[GRANT_ROW, b"\x01"]],
    };
    let left = left_by(&rt, alloc, &case)?;
    let note = Note::RowAt { index: 1, place: 1 };
    leaves(&rt, &left, note, Some(1), b"", &[], &[1, 2])?;
    let case = Case {
        words: WORDS,
        file: BOTH,
        texts: &[PUT],
        failing: &[],
        sink_failing: &[],
        rows: &[&[GRANT_ROW, GRANT_ROW], &[b"\x01"]],
    };
    let left = left_by(&rt, alloc, &case)?;
    let note = Note::RowUnlawful { index: 1 };
    leaves(&rt, &left, note, Some(0), b"", &[], &[2, 1])
}

#[test]
fn a_listener_and_a_sink_that_fail(rt: HostRuntime) -> Result<(), Fail> {
    let alloc = rt.alloc();
    let mut case = Case {
        words: WORDS,
        file: ALICE,
        texts: &[PUT, GET],
        failing: &[2],
        sink_failing: &[],
        rows: &[&[GRANT_ROW]],
    };
    let left = left_by(&rt, alloc, &case)?;
    leaves(
        &rt,
        &left,
        Note::ListenerFailed,
        None,
        b"",
        &[CREATED],
        &[2],
    )?;
    case.failing = &[];
    case.sink_failing = &[1];
    let left = left_by(&rt, alloc, &case)?;
    leaves(
        &rt,
        &left,
        Note::SinkFailed,
        None,
        b"",
        &[CREATED, FOUND],
        &[2],
    )
}
