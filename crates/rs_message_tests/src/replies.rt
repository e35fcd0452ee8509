//! Replies as they stand on the wire: what they are read as, and the place of each fault.

use crate::rows::{bytes_of, cells, next_cell};
use rs_wire::{ReplyFault, ReplyMessage, read_reply};
use std::alloc::{AllocError, Global};
use std::process::Abort;
use std::test::Fail;

pub(crate) const FOUND: &[u8] =
    b"HTTP/1.1 200 OK\r\nAccess-Control-Allow-Origin: *\r\nAccess-Control-Expose-Headers: ETag, Content-Type, Content-Length\r\nETag: \"2\"\r\nCache-Control: no-cache\r\nContent-Type: text/plain\r\nContent-Length: 5\r\n\r\nhello";

const CHUNKED: &[u8] =
    b"HTTP/1.1 200 OK\r\nTransfer-Encoding: chunked\r\n\r\n5;a=b\r\nhello\r\n3\r\n my\r\n0\r\nA: b\r\n\r\n";

/// A reply as a line of text.
pub(crate) fn show(alloc: Global, reply: &ReplyMessage) -> Result<Vec<u8>, AllocError> {
    let mut out = Vec::new(alloc);
    let status = reply.status;
    let front = format!(in alloc; "{status}")?;
    out.extend_from_slice(front.as_bytes())?;
    for field in reply.fields.as_slice() {
        out.push(b'|')?;
        out.extend_from_slice(field.name.as_slice())?;
        out.push(b'=')?;
        out.extend_from_slice(field.value.as_slice())?;
    }
    out.push(b'|')?;
    out.extend_from_slice(reply.body.as_slice())?;
    Ok(out)
}

/// What the bytes are as a reply, or the place of the fault. Without memory it is nothing.
pub(crate) fn outcome(alloc: Global, bodiless: bool, bytes: &[u8]) -> Result<Vec<u8>, AllocError> {
    match read_reply(alloc, bodiless, bytes) {
        Ok(reply) => show(alloc, &reply),
        Err(ReplyFault::Bad { place }) => {
            let text = format!(in alloc; "bad at {place}")?;
            Vec::from_slice(alloc, text.as_bytes())
        }
        Err(ReplyFault::NoMemory) => Ok(Vec::new(alloc)),
    }
}

/// Checks that the bytes are refused at the place, as a reply to a request that isn't HEAD.
fn check_place(rt: &impl Abort, alloc: Global, bytes: &[u8], place: usize) -> Result<(), Fail> {
    let expected = format!(in alloc; "bad at {place}")?;
    let out = outcome(alloc, false, bytes)?;
    assert_eq!(rt; out.as_slice(), expected.as_bytes());
    Ok(())
}

// The reply of a name, or the bytes of the cell.
fn reply_of(alloc: Global, cell: &str) -> Result<Vec<u8>, AllocError> {
    match cell {
        "FOUND" => Vec::from_slice(alloc, FOUND),
        "CHUNKED" => Vec::from_slice(alloc, CHUNKED),
        _ => bytes_of(alloc, cell),
    }
}

// Checks each row of a table: a reply, by its name or as it stands here, and its outcome.
fn check_rows(
    rt: &impl Abort,
    alloc: Global,
    bodiless: bool,
    table: &'static str,
) -> Result<(), Fail> {
    for row in table.trim().split('\n') {
        let (bytes, expected) = cells(row)?;
        let bytes = reply_of(alloc, bytes)?;
        let expected = bytes_of(alloc, expected)?;
        let out = outcome(alloc, bodiless, bytes.as_slice())?;
        assert_eq!(rt; out, expected);
    }
    Ok(())
}

const WHOLE: &str = r#"
FOUND => 200|Access-Control-Allow-Origin=*|Access-Control-Expose-Headers=ETag, Content-Type, Content-Length|ETag="2"|Cache-Control=no-cache|Content-Type=text/plain|Content-Length=5|hello
HTTP/1.1 200 OK\r\n\r\nto the end => 200|to the end
HTTP/1.1 200 OK\r\n\r\n => 200|
HTTP/1.1 200 OK\r\nContent-Length: 5\r\nContent-Length: 05\r\n\r\nhello => 200|Content-Length=5|Content-Length=05|hello
HTTP/1.1 404 Not Found\r\nContent-Length: 0\r\n\r\n => 404|Content-Length=0|
CHUNKED => 200|Transfer-Encoding=chunked|hello my
HTTP/1.0 200\r\ntransfer-encoding: CHUNKED\r\n\r\n0\r\n\r\n => 200|transfer-encoding=CHUNKED|
HTTP/1.1 100 Continue\r\n\r\nHTTP/1.1 204 No Content\r\n\r\n => 204|
HTTP/1.1 100 Continue\r\n\r\nHTTP/1.1 103 Early Hints\r\nContent-Length: x\r\n\r\nHTTP/1.1 200 OK\r\nContent-Length: 1\r\n\r\na => 200|Content-Length=1|a
\r\n\nHTTP/1.1 200 OK\r\n\r\n => 200|
HTTP/1.1 304 Not Modified\r\nContent-Length: 5\r\n\r\n => 304|Content-Length=5|
HTTP/1.1 204 No Content\r\nTransfer-Encoding: chunked\r\n\r\n => 204|Transfer-Encoding=chunked|
"#;

#[test]
fn whole_replies(rt: HostRuntime) -> Result<(), Fail> {
    check_rows(&rt, rt.alloc(), false, WHOLE)
}

const TO_HEAD: &str = r#"
HTTP/1.1 200 OK\r\nContent-Length: 5\r\n\r\n => 200|Content-Length=5|
HTTP/1.1 200 OK\r\nTransfer-Encoding: chunked\r\n\r\n => 200|Transfer-Encoding=chunked|
HTTP/1.1 200 OK\r\n\r\n => 200|
HTTP/1.1 100 Continue\r\n\r\nHTTP/1.1 200 OK\r\n\r\n => 200|
HTTP/1.1 200 OK\r\nContent-Length: 5\r\n\r\nhello => bad at 38
HTTP/1.1 200 OK\r\nTransfer-Encoding: chunked\r\n\r\n0\r\n\r\n => bad at 47
HTTP/1.1 200 OK\r\nContent-Length: x\r\n\r\n => bad at 0
HTTP/1.1 200 OK\r\nTransfer-Encoding: gzip\r\n\r\n => bad at 0
HTTP/1.1 200 OK\r\n => bad at 17
"#;

#[test]
fn replies_to_head(rt: HostRuntime) -> Result<(), Fail> {
    check_rows(&rt, rt.alloc(), true, TO_HEAD)
}

#[test]
fn replies_that_end_early(rt: HostRuntime) -> Result<(), Fail> {
    let alloc = rt.alloc();
    for text in [FOUND, CHUNKED] {
        for length in 0..text.len() {
            check_place(&rt, alloc, &text[..length], length)?;
        }
    }
    Ok(())
}

const REFUSED_HEADS: &str = r#"
=> bad at 0
H => bad at 1
HTTP/1.1 100 Continue\r\n\r\n => bad at 25
HTTP/1.1 200 OK\r\n => bad at 17
HTTP/1.1 100 Continue\r\n\r\nHTTP/1.1 200 OK\r\n => bad at 42
HTTP/2 200 OK\r\n\r\n => bad at 0
HTTP/1.1 99 Low\r\n\r\n => bad at 0
HTTP/1.1 2000 High\r\n\r\n => bad at 0
GET / HTTP/1.1\r\n\r\n => bad at 0
HTTP/1.1 200 OK\r\nA : b\r\n\r\n => bad at 0
HTTP/1.1 200 OK\r\nA: b\r\n c\r\n\r\n => bad at 0
\r\n\nHTTP/2 200 OK\r\n\r\n => bad at 3
HTTP/1.1 100 Continue\r\n\r\nHTTP/2 200 OK\r\n\r\n => bad at 25
HTTP/1.1 100 Continue\r\n\r\n\r\nHTTP/2 200 OK\r\n\r\n => bad at 27
\r\n\r\n => bad at 4
HTTP/1.1 200 OK\r\nContent-Length: -1\r\n\r\na => bad at 0
HTTP/1.1 200 OK\r\nContent-Length: +1\r\n\r\na => bad at 0
HTTP/1.1 200 OK\r\nContent-Length: 1, 1\r\n\r\na => bad at 0
HTTP/1.1 200 OK\r\nContent-Length:\r\n\r\na => bad at 0
HTTP/1.1 200 OK\r\nContent-Length: 1000000000000000000\r\n\r\n => bad at 0
HTTP/1.1 200 OK\r\nContent-Length: 1\r\nContent-Length: 2\r\n\r\na => bad at 0
HTTP/1.1 100 Continue\r\n\r\nHTTP/1.1 200 OK\r\nContent-Length: x\r\n\r\n => bad at 25
\r\nHTTP/1.1 200 OK\r\nContent-Length: x\r\n\r\n => bad at 2
HTTP/1.1 204 No Content\r\nContent-Length: x\r\n\r\n => bad at 0
HTTP/1.1 200 OK\r\nTransfer-Encoding: chunked\r\nContent-Length: 5\r\n\r\n0\r\n\r\n => bad at 0
HTTP/1.1 200 OK\r\nTransfer-Encoding: gzip\r\n\r\na => bad at 0
HTTP/1.1 200 OK\r\nTransfer-Encoding: gzip, chunked\r\n\r\n0\r\n\r\n => bad at 0
HTTP/1.1 200 OK\r\nTransfer-Encoding: chunked\r\nTransfer-Encoding: chunked\r\n\r\n0\r\n\r\n => bad at 0
HTTP/1.1 100 Continue\r\n\r\nHTTP/1.1 200 OK\r\nTransfer-Encoding: gzip\r\n\r\na => bad at 25
"#;

#[test]
fn heads_of_replies_that_are_refused(rt: HostRuntime) -> Result<(), Fail> {
    check_rows(&rt, rt.alloc(), false, REFUSED_HEADS)
}

const REFUSED_BODIES: &str = r#"
HTTP/1.1 200 OK\r\nContent-Length: 5\r\n\r\nhell => bad at 42
HTTP/1.1 200 OK\r\nContent-Length: 5\r\n\r\n => bad at 38
HTTP/1.1 200 OK\r\nContent-Length: 5\r\n\r\nhello! => bad at 43
HTTP/1.1 200 OK\r\nContent-Length: 5\r\n\r\nhello\r\n => bad at 43
HTTP/1.1 200 OK\r\nContent-Length: 999999999999999999\r\n\r\na => bad at 56
HTTP/1.1 204 No Content\r\n\r\n! => bad at 27
HTTP/1.1 304 Not Modified\r\nContent-Length: 1\r\n\r\na => bad at 48
HTTP/1.1 100 Continue\r\n\r\nHTTP/1.1 204 No Content\r\n\r\nHTTP/1.1 200 OK\r\n\r\n => bad at 52
HTTP/1.1 200 OK\r\nTransfer-Encoding: chunked\r\n\r\nx\r\n => bad at 47
HTTP/1.1 200 OK\r\nTransfer-Encoding: chunked\r\n\r\n0x5\r\nhello\r\n0\r\n\r\n => bad at 47
HTTP/1.1 200 OK\r\nTransfer-Encoding: chunked\r\n\r\n\r\n0\r\n\r\n => bad at 47
HTTP/1.1 200 OK\r\nTransfer-Encoding: chunked\r\n\r\n10000000000000000\r\n => bad at 47
HTTP/1.1 200 OK\r\nTransfer-Encoding: chunked\r\n\r\n5\r\nhello!!0\r\n\r\n => bad at 47
HTTP/1.1 200 OK\r\nTransfer-Encoding: chunked\r\n\r\n5\r\nhello\n\n0\r\n\r\n => bad at 47
HTTP/1.1 200 OK\r\nTransfer-Encoding: chunked\r\n\r\n1\r\na\r\ny\r\n => bad at 53
HTTP/1.1 200 OK\r\nTransfer-Encoding: chunked\r\n\r\n1\r\na\r\n1\r\na!\r\n0\r\n\r\n => bad at 53
HTTP/1.1 200 OK\r\nTransfer-Encoding: chunked\r\n\r\nFFFFFFFFFFFFFFFF\r\na => bad at 66
HTTP/1.1 200 OK\r\nTransfer-Encoding: chunked\r\n\r\n5;a=b\r\nhello\r\n3\r\n my\r\n0\r\nA: b\r\n\r\n! => bad at 80
HTTP/1.1 200 OK\r\nTransfer-Encoding: chunked\r\n\r\n0\r\n\r\nHTTP/1.1 200 OK\r\n => bad at 52
"#;

#[test]
fn bodies_of_replies_that_are_refused(rt: HostRuntime) -> Result<(), Fail> {
    check_rows(&rt, rt.alloc(), false, REFUSED_BODIES)
}

// A front, filled up to a length, and an end.
const LONG_PARTS: &str = r#"
HTTP/1.1 200 OK\r\nA: + 16381 + \r\n\r\n => bad at 0
HTTP/1.1 200 OK\r\n + 16383 + => bad at 16383
HTTP/1.1 200 OK\r\n + 16384 + => bad at 0
\r\n\nHTTP/1.1 200 OK\r\n + 16384 + => bad at 3
\r\nHTTP/1.1 200 OK\r\nA: + 16381 + \r\n\r\n => bad at 2
HTTP/1.1 100 Continue\r\n\r\nHTTP/1.1 200 OK\r\nA: + 16406 + \r\n\r\n => bad at 25
HTTP/1.1 200 OK\r\nTransfer-Encoding: chunked\r\n\r\n0; + 301 + \r\n\r\n => 200|Transfer-Encoding=chunked|
HTTP/1.1 200 OK\r\nTransfer-Encoding: chunked\r\n\r\n0; + 302 + \r\n\r\n => bad at 47
HTTP/1.1 200 OK\r\nTransfer-Encoding: chunked\r\n\r\n0; + 303 + => bad at 47
HTTP/1.1 200 OK\r\nTransfer-Encoding: chunked\r\n\r\n0; + 302 + => bad at 302
HTTP/1.1 200 OK\r\nTransfer-Encoding: chunked\r\n\r\n0\r\n + 16430 + \r\n\r\n => 200|Transfer-Encoding=chunked|
HTTP/1.1 200 OK\r\nTransfer-Encoding: chunked\r\n\r\n0\r\n + 16431 + \r\n\r\n => bad at 50
HTTP/1.1 200 OK\r\nTransfer-Encoding: chunked\r\n\r\n0\r\n + 16434 + => bad at 50
HTTP/1.1 200 OK\r\nTransfer-Encoding: chunked\r\n\r\n0\r\n + 16433 + => bad at 16433
"#;

#[test]
fn long_parts_of_replies(rt: HostRuntime) -> Result<(), Fail> {
    let alloc = rt.alloc();
    for row in LONG_PARTS.trim().split('\n') {
        let (parts, expected) = cells(row)?;
        let mut parts = parts.split('+');
        let mut bytes = bytes_of(alloc, next_cell(&mut parts)?)?;
        bytes.resize(next_cell(&mut parts)?.parse::<usize>()?, b'A')?;
        let end = bytes_of(alloc, next_cell(&mut parts)?)?;
        bytes.extend_from_slice(end.as_slice())?;
        let expected = bytes_of(alloc, expected)?;
        let out = outcome(alloc, false, bytes.as_slice())?;
        assert_eq!(&rt; out, expected);
    }
    Ok(())
}

#[test]
fn longest_reply_head(rt: HostRuntime) -> Result<(), Fail> {
    let alloc = rt.alloc();
    let mut bytes = Vec::from_slice(alloc, b"HTTP/1.1 200 OK\r\nA:")?;
    bytes.resize(16_380, b'A')?;
    bytes.extend_from_slice(b"\r\n\r\n")?;
    let out = outcome(alloc, false, bytes.as_slice())?;
    assert!(rt; out.starts_with(b"200|A=AAA"));
    Ok(())
}

#[test]
fn replies_of_many_fields(rt: HostRuntime) -> Result<(), Fail> {
    let alloc = rt.alloc();
    let mut bytes = Vec::from_slice(alloc, b"HTTP/1.1 200 OK\r\n")?;
    for _ in 0..1_000 {
        bytes.extend_from_slice(b"a:\r\n")?;
    }
    bytes.extend_from_slice(b"\r\n")?;
    let out = outcome(alloc, false, bytes.as_slice())?;
    assert!(rt; out.starts_with(b"200|a=|a=|"));
    Ok(())
}
