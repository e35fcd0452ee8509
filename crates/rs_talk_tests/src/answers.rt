//! The bytes of replies as answers to asks, and the places of faults.

use crate::asks::ask_of;
use crate::rows::{bytes_of, cells};
use rs_path::{Entry, Tag};
use rs_talk::{Answer, AnswerFault, Ask, Base, read_answer};
use std::alloc::{AllocError, Global};
use std::test::Fail;

fn put_word(out: &mut Vec<u8>, word: &[u8]) -> Result<(), AllocError> {
    out.push(b' ')?;
    out.extend_from_slice(word)
}

fn show_document(alloc: Global, base: &Base) -> Result<Vec<u8>, AllocError> {
    let mut out = Vec::from_slice(alloc, b"document")?;
    put_word(&mut out, base.tag.as_slice())?;
    put_word(&mut out, base.kind.as_slice())?;
    put_word(&mut out, base.body.as_slice())?;
    Ok(out)
}

fn show_listing(alloc: Global, tag: &Tag, items: &[Entry]) -> Result<Vec<u8>, AllocError> {
    let mut out = Vec::from_slice(alloc, b"listing")?;
    put_word(&mut out, tag.as_slice())?;
    for item in items {
        put_word(&mut out, item.name.as_slice())?;
        if item.folder {
            out.push(b'/')?;
        }
        put_word(&mut out, item.tag.as_slice())?;
    }
    Ok(out)
}

fn show_stored(alloc: Global, tag: &Tag, created: bool) -> Result<Vec<u8>, AllocError> {
    let mut out = Vec::from_slice(alloc, if created { b"created" } else { b"written" })?;
    put_word(&mut out, tag.as_slice())?;
    Ok(out)
}

fn show_status(alloc: Global, status: u16) -> Result<Vec<u8>, AllocError> {
    let text = format!(in alloc; "status {status}")?;
    Vec::from_slice(alloc, text.as_bytes())
}

/// An answer as a line of text.
fn show(alloc: Global, answer: &Answer) -> Result<Vec<u8>, AllocError> {
    match answer {
        Answer::Document(base) => show_document(alloc, base),
        Answer::Listing { tag, items } => show_listing(alloc, tag, items.as_slice()),
        Answer::Same => Vec::from_slice(alloc, b"same"),
        Answer::Stored { tag, created } => show_stored(alloc, tag, *created),
        Answer::Removed => Vec::from_slice(alloc, b"removed"),
        Answer::Absent => Vec::from_slice(alloc, b"absent"),
        Answer::Unmet => Vec::from_slice(alloc, b"unmet"),
        Answer::Status(status) => show_status(alloc, *status),
    }
}

/// What the bytes are as an answer, or the place of the fault. Without memory it is nothing.
fn outcome(alloc: Global, ask: &Ask, bytes: &[u8]) -> Result<Vec<u8>, AllocError> {
    match read_answer(alloc, ask, bytes) {
        Ok(answer) => show(alloc, &answer),
        Err(AnswerFault::Bad { place }) => {
            let text = format!(in alloc; "bad at {place}")?;
            Vec::from_slice(alloc, text.as_bytes())
        }
        Err(AnswerFault::NoMemory) => Ok(Vec::new(alloc)),
    }
}

fn check_rows(rt: &impl std::process::Abort, alloc: Global, rows: &str) -> Result<(), Fail> {
    for row in rows.trim().split('\n') {
        let (row, expected) = cells(row)?;
        let (ask, bytes) = row.split_once(":").ok_or("no ask")?;
        let ask = ask_of(alloc, ask.trim())?;
        let bytes = bytes_of(alloc, bytes.trim())?;
        let expected = bytes_of(alloc, expected)?;
        let out = outcome(alloc, &ask, bytes.as_slice())?;
        assert_eq!(rt; out, expected);
    }
    Ok(())
}

const READ: &str = r#"
get /a -: HTTP/1.1 200 OK\r\nETag: "2"\r\nContent-Type: text/plain\r\nContent-Length: 5\r\n\r\nhello => document 2 text/plain hello
get /a 1: HTTP/1.1 200 OK\r\nETag: "2"\r\n\r\nhello => document 2 application/octet-stream hello
get /a -: HTTP/1.1 200 OK\r\netag:"!#"\r\nTransfer-Encoding: chunked\r\n\r\n5\r\nhello\r\n0\r\n\r\n => document !# application/octet-stream hello
get /a -: HTTP/1.1 100 Continue\r\n\r\nHTTP/1.1 200 OK\r\nETag: "2"\r\n\r\n => document 2 application/octet-stream\x20
get /a 2: HTTP/1.1 304 Not Modified\r\n\r\n => same
get /a 2: HTTP/1.1 304 Not Modified\r\nETag: "3"\r\nContent-Length: 7\r\n\r\n => same
get / 5: HTTP/1.1 304 Not Modified\r\nETag: "5"\r\n\r\n => same
get /a -: HTTP/1.1 404 Not Found\r\nContent-Length: 0\r\n\r\n => absent
get /a/ 5: HTTP/1.1 404 Not Found\r\nContent-Length: 0\r\n\r\n => absent
get /a -: HTTP/1.1 412 Precondition Failed\r\n\r\n => status 412
get /a -: HTTP/1.1 201 Created\r\nETag: "2"\r\n\r\n => status 201
get /a -: HTTP/1.1 204 No Content\r\nETag: "2"\r\n\r\n => status 204
get /a -: HTTP/1.1 206 Partial Content\r\nETag: "2"\r\n\r\nhe => status 206
get /a -: HTTP/1.1 401 Unauthorized\r\nWWW-Authenticate: Bearer\r\n\r\nno => status 401
get /a -: HTTP/1.1 503 Service Unavailable\r\nAccess-Control-Allow-Origin: *\r\nContent-Length: 0\r\n\r\n => status 503
get / -: HTTP/1.1 200 OK\r\nETag: "2"\r\n\r\n{"items":{"x":{"ETag":"2"},"f/":{"ETag":"1"}}} => listing 2 f/ 1 x 2
get / -: HTTP/1.1 200 OK\r\nETag: "2"\r\nContent-Type: a\r\nContent-Type: b\r\n\r\n{"items":{}} => listing 2
put /a - v1: HTTP/1.1 201 Created\r\nETag: "2"\r\nContent-Length: 0\r\n\r\n => created 2
put /a 2 v1: HTTP/1.1 200 OK\r\nETag: "3"\r\nContent-Length: 0\r\n\r\n => written 3
put /a 2 v1: HTTP/1.1 204 No Content\r\nETag: "3"\r\n\r\n => written 3
put /a 2 v1: HTTP/1.1 412 Precondition Failed\r\n\r\n => unmet
put /a 2 v1: HTTP/1.1 404 Not Found\r\n\r\n => status 404
put /a 2 v1: HTTP/1.1 409 Conflict\r\n\r\n => status 409
put /a 2 v1: HTTP/1.1 202 Accepted\r\n\r\n => status 202
remove /a 2: HTTP/1.1 200 OK\r\nETag: "2"\r\nContent-Length: 0\r\n\r\n => removed
remove /a 2: HTTP/1.1 204 No Content\r\n\r\n => removed
remove /a 2: HTTP/1.1 404 Not Found\r\n\r\n => absent
remove /a 2: HTTP/1.1 412 Precondition Failed\r\n\r\n => unmet
remove /a 2: HTTP/1.1 201 Created\r\nETag: "2"\r\n\r\n => status 201
remove /a 2: HTTP/1.1 507 Insufficient Storage\r\n\r\n => status 507
"#;

#[test]
fn replies_are_read_as_answers(rt: HostRuntime) -> Result<(), Fail> {
    check_rows(&rt, rt.alloc(), READ)
}

// The heads have 17 bytes up to their first field.
const REFUSED: &str = r#"
get /a -: => bad at 0
get /a -: no reply\r\n\r\n => bad at 0
get /a -: HTTP/1.1 200 OK\r\nETag: "2"\r\nContent-Length: 5\r\n\r\nhell => bad at 53
get /a -: HTTP/1.1 200 OK\r\nETag: "2"\r\nContent-Length: 5\r\n\r\nhello! => bad at 54
get /a -: HTTP/1.1 200 OK\r\n\r\nhello => bad at 0
get /a -: \r\n\nHTTP/1.1 200 OK\r\n\r\nhello => bad at 3
get /a -: HTTP/1.1 100 Continue\r\n\r\nHTTP/1.1 200 OK\r\n\r\nhello => bad at 25
get /a -: HTTP/1.1 100 Continue\r\n\r\nHTTP/1.1 103 Early Hints\r\nA: b\r\n\r\n\r\nHTTP/1.1 200 OK\r\n\r\n => bad at 61
get /a -: HTTP/1.1 100 Continue\n\n\nHTTP/1.1 200 OK\n\nhello\r\n\r\nhello => bad at 24
get /a -: HTTP/1.1 200 OK\r\nETag: W/"2"\r\n\r\nhello => bad at 0
get /a -: HTTP/1.1 200 OK\r\nETag: 2\r\n\r\nhello => bad at 0
get /a -: HTTP/1.1 200 OK\r\nETag: "\r\n\r\nhello => bad at 0
get /a -: HTTP/1.1 200 OK\r\nETag: ""\r\n\r\nhello => bad at 0
get /a -: HTTP/1.1 200 OK\r\nETag: "2\r\n\r\nhello => bad at 0
get /a -: HTTP/1.1 200 OK\r\nETag: "2", "3"\r\n\r\nhello => bad at 0
get /a -: HTTP/1.1 200 OK\r\nETag: "2"\r\nETag: "2"\r\n\r\nhello => bad at 0
get /a -: HTTP/1.1 200 OK\r\nETag: "2"\r\nContent-Type:\r\n\r\nhello => bad at 0
get /a -: HTTP/1.1 200 OK\r\nETag: "2"\r\nContent-Type: caf\xc3\xa9\r\n\r\nhello => bad at 0
get /a -: HTTP/1.1 200 OK\r\nETag: "2"\r\nContent-Type: a\r\nContent-Type: a\r\n\r\nhello => bad at 0
get /a -: HTTP/1.1 304 Not Modified\r\n\r\n => bad at 0
get / -: HTTP/1.1 304 Not Modified\r\n\r\n => bad at 0
put /a 2 v1: HTTP/1.1 304 Not Modified\r\nETag: "2"\r\n\r\n => bad at 0
remove /a 2: HTTP/1.1 304 Not Modified\r\nETag: "2"\r\n\r\n => bad at 0
put /a 2 v1: HTTP/1.1 200 OK\r\n\r\n => bad at 0
put /a 2 v1: HTTP/1.1 100 Continue\r\n\r\nHTTP/1.1 201 Created\r\nETag: W/"2"\r\n\r\n => bad at 25
put /a 2 v1: HTTP/1.1 204 No Content\r\n\r\n => bad at 0
get / -: HTTP/1.1 200 OK\r\n\r\n{ => bad at 0
get / -: HTTP/1.1 200 OK\r\nETag: "2"\r\n\r\n{ => bad at 30
get / -: HTTP/1.1 200 OK\r\nETag: "2"\r\n\r\n => bad at 30
get / -: HTTP/1.1 200 OK\r\nETag: "2"\r\n\r\n{"items":{"..":{"ETag":"2"}}} => bad at 30
get / -: HTTP/1.1 200 OK\r\nETag: "2"\r\nContent-Length: 2\r\n\r\n[] => bad at 49
get / -: HTTP/1.1 200 OK\r\nETag: "2"\r\nTransfer-Encoding: chunked\r\n\r\n2\r\n[]\r\n0\r\n\r\n => bad at 58
get / -: HTTP/1.1 100 Continue\r\n\r\n\r\nHTTP/1.1 200 OK\r\nETag: "2"\r\n\r\n[] => bad at 57
"#;

#[test]
fn replies_that_are_no_answers_are_refused_with_the_place(rt: HostRuntime) -> Result<(), Fail> {
    check_rows(&rt, rt.alloc(), REFUSED)
}
