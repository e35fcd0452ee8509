//! Runs over rows that are there, and over objects that fail.

use crate::exchanges::{GRANT_ROW, PIPE, has_rows, keeper_of, replies, requests, run, writes};
use rs_cli::{Note, Status};
use rs_face::{MemSink, MemSource};
use std::alloc::Global;
use std::process::Abort;
use std::test::Fail;

/// A PUT and a GET of one document, and their replies.
const BOTH: &str = r#"
> PUT /notes/x | If-None-Match: * | hello
< 201 Created | ETag: "2"; Content-Length: 0
> GET /notes/x
< 200 OK | ETag: "2"; Cache-Control: no-cache; Content-Type: text/plain; Content-Length: 5 | hello
"#;

const GET: &str = r#"
> GET /notes/x
< 200 OK | ETag: "2"; Cache-Control: no-cache; Content-Type: text/plain; Content-Length: 5 | hello
"#;

/// The row of the PUT: its writer, the SHA-256 of `hello`, the path, the content type and the body.
const PUT_ROW: &[u8] =
    b"\x02\x01\x00\x01\x02\x03\x04\x05\x06\x07\x08\x09\x0a\x0b\x0c\x0d\x0e\x0f\x2c\xf2\x4d\xba\x5f\xb0\xa3\x0e\x26\xe8\x3b\x2a\xc5\xb9\xe2\x9e\x1b\x16\x1e\x5c\x1f\xa7\x42\x5e\x73\x04\x33\x62\x93\x8b\x98\x24\x00\x08/notes/x\x0atext/plain\x00\x00\x00\x05hello";

#[test]
fn a_second_run_opens_what_the_first_kept(rt: HostRuntime) -> Result<(), Fail> {
    let alloc = rt.alloc();
    let mut keeper = keeper_of(alloc, &[], &[])?;
    for table in [BOTH, GET] {
        let (input, output) = (requests(alloc, table)?, replies(alloc, table)?);
        writes(
            &rt,
            alloc,
            PIPE,
            &mut keeper,
            input.as_slice(),
            1,
            output.as_slice(),
            &Note::Empty,
        )?;
        has_rows(&rt, &keeper, &[GRANT_ROW, PUT_ROW])?;
    }
    Ok(())
}

/// `pipe` over these rows, of which the keeper's calls with these numbers fail, serves nothing and ends so.
fn serves_nothing(
    rt: &impl Abort,
    alloc: Global,
    rows: &[&[u8]],
    failing: &[u64],
    note: Note,
) -> Result<(), Fail> {
    let mut keeper = keeper_of(alloc, rows, failing)?;
    let input = requests(alloc, BOTH)?;
    writes(
        rt,
        alloc,
        PIPE,
        &mut keeper,
        input.as_slice(),
        1,
        b"",
        &note,
    )?;
    has_rows(rt, &keeper, rows)
}

#[test]
fn rows_that_are_wrong_are_not_served(rt: HostRuntime) -> Result<(), Fail> {
    let alloc = rt.alloc();
    let at = Note::RowAt { index: 0, place: 2 };
    let unlawful = Note::RowUnlawful { index: 1 };
    serves_nothing(&rt, alloc, &[b"\x01\x03"], &[], at)?;
    serves_nothing(&rt, alloc, &[GRANT_ROW, GRANT_ROW], &[], unlawful)
}

#[test]
fn a_keeper_that_fails_before_serving(rt: HostRuntime) -> Result<(), Fail> {
    let alloc = rt.alloc();
    // the first read, and the append of the grant
    serves_nothing(&rt, alloc, &[GRANT_ROW], &[1], Note::KeeperFailed)?;
    serves_nothing(&rt, alloc, &[], &[1], Note::KeeperFailed)
}

/// `pipe` over a source whose call with this number fails, in pieces of 60 bytes, writes this.
fn source_fails(rt: &impl Abort, alloc: Global, call: u64, output: &[u8]) -> Result<(), Fail> {
    let input = requests(alloc, BOTH)?;
    let mut source = MemSource::in_pieces(input, 60, [call].to_vec(alloc)?);
    let mut sink = MemSink::new(Vec::new(alloc), Vec::new(alloc));
    let mut keeper = keeper_of(alloc, &[], &[])?;
    let status = run(alloc, PIPE, &mut source, &mut sink, &mut keeper)?;
    let failed = Status {
        code: 12,
        note: Note::SourceFailed,
    };
    assert_eq!(rt; status, failed);
    assert_eq!(rt; sink.written(), output);
    Ok(())
}

#[test]
fn a_source_that_fails(rt: HostRuntime) -> Result<(), Fail> {
    let alloc = rt.alloc();
    let output = replies(alloc, BOTH)?;
    // the reply to the PUT has 153 bytes
    let first = &output.as_slice()[..output.len().min(153)];
    // the input has 292 bytes: the third read ends the PUT, the fifth the GET, and the sixth finds the end
    source_fails(&rt, alloc, 1, b"")?;
    source_fails(&rt, alloc, 3, b"")?;
    source_fails(&rt, alloc, 4, first)?;
    source_fails(&rt, alloc, 5, first)?;
    source_fails(&rt, alloc, 6, output.as_slice())
}

/// `pipe` over a sink whose call with this number fails writes so many bytes of the replies.
fn sink_fails(rt: &impl Abort, alloc: Global, call: u64, count: usize) -> Result<(), Fail> {
    let (input, output) = (requests(alloc, BOTH)?, replies(alloc, BOTH)?);
    let mut source = MemSource::new(input, Vec::new(alloc));
    let mut sink = MemSink::new(Vec::new(alloc), [call].to_vec(alloc)?);
    let mut keeper = keeper_of(alloc, &[], &[])?;
    let status = run(alloc, PIPE, &mut source, &mut sink, &mut keeper)?;
    let failed = Status {
        code: 11,
        note: Note::SinkFailed,
    };
    assert_eq!(rt; status, failed);
    assert_eq!(rt;
        sink.written(),
        &output.as_slice()[..output.len().min(count)]
    );
    has_rows(rt, &keeper, &[GRANT_ROW, PUT_ROW])
}

#[test]
fn a_sink_that_fails(rt: HostRuntime) -> Result<(), Fail> {
    let alloc = rt.alloc();
    // a head and a flush, then a head, a body and a flush
    sink_fails(&rt, alloc, 1, 0)?;
    sink_fails(&rt, alloc, 2, 153)?;
    sink_fails(&rt, alloc, 3, 153)?;
    sink_fails(&rt, alloc, 4, 352)?;
    sink_fails(&rt, alloc, 5, 357)
}
