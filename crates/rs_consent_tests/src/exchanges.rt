//! Runs of `pipe`: objects in memory, and tables of requests and replies as the bytes that stand on the wire.

use rs_cli::{Note, Status, read_command, run_here};
use rs_face::{Entropy, MemEntropy, MemKeeper, MemSink, MemSource};
use rs_path::NoMemory;
use std::alloc::Global;
use std::process::Abort;
use std::test::Fail;

/// `pipe` where alice has no password.
pub(crate) const PIPE: &str = "pipe alice ffffffffffffffffffffffffffffffff *:rw";

/// `pipe` where alice's password is `open sesame`: the last word is SHA-256 of `s1open sesame`, by sha256sum.
pub(crate) const PIPE_AT: &str =
    "pipe alice ffffffffffffffffffffffffffffffff *:rw 1000 http://localhost s1 c23b1680972df2709e75c4e0f56c01a23a4eec0fd21314252d7efeb768ee5a73";

/// The row of the grant that both make.
pub(crate) const OWNER_ROW: &[u8] =
    b"\x01\x03\xff\xff\xff\xff\xff\xff\xff\xff\xff\xff\xff\xff\xff\xff\xff\xff\x00\x04*:rw";

/// Words of entropy. The first two make the token `000102030405060708090a0b0c0d0e0f`.
pub(crate) const WORDS: [u64; 4] = [
    0x0001_0203_0405_0607,
    0x0809_0A0B_0C0D_0E0F,
    0x1011_1213_1415_1617,
    0x1819_1A1B_1C1D_1E1F,
];

/// What an app asks for.
const ASK: &str =
    "response_type=token&client_id=c&redirect_uri=https%3A%2F%2Fapp.example%2Fcb&scope=notes%3Arw&state=s1";

/// The page on it, of 643 bytes.
const PAGE: &str = r#"<!DOCTYPE html>
<html><head><meta charset="utf-8"><title>Grant access</title></head><body>
<p>https://app.example asks for notes:rw on the storage of alice.</p>
<form method="post" action="/oauth/alice">
<input type="hidden" name="response_type" value="token">
<input type="hidden" name="client_id" value="c">
<input type="hidden" name="redirect_uri" value="https://app.example/cb">
<input type="hidden" name="scope" value="notes:rw">
<input type="hidden" name="state" value="s1">
<input type="password" name="password">
<button name="choice" value="allow">Allow</button>
<button name="choice" value="deny">Deny</button>
</form></body></html>
"#;

/// The same without a state, and with markup in the texts that may hold it.
const MARKED_ASK: &str =
    "response_type=token&client_id=%3Cb+x%3D%22%27%26%22+y%3E&redirect_uri=HTTP%3A%2F%2FApp.Example%3A80%2Fa%3Fb%26c&scope=+notes:r++*:rw+";

/// The page on it, of 645 bytes.
const MARKED_PAGE: &str = r#"<!DOCTYPE html>
<html><head><meta charset="utf-8"><title>Grant access</title></head><body>
<p>http://app.example asks for notes:r *:rw on the storage of alice.</p>
<form method="post" action="/oauth/alice">
<input type="hidden" name="response_type" value="token">
<input type="hidden" name="client_id" value="&lt;b x=&quot;&#39;&amp;&quot; y&gt;">
<input type="hidden" name="redirect_uri" value="http://app.example/a?b&amp;c">
<input type="hidden" name="scope" value="notes:r *:rw">
<input type="password" name="password">
<button name="choice" value="allow">Allow</button>
<button name="choice" value="deny">Deny</button>
</form></body></html>
"#;

/// What is found of alice, of 312 bytes.
const JRD: &str =
    r#"{"links":[{"href":"http://localhost/storage/alice","properties":{"http://remotestorage.io/spec/version":"draft-dejong-remotestorage-13","http://tools.ietf.org/html/rfc6749#section-4.2":"http://localhost/oauth/alice"},"rel":"http://tools.ietf.org/id/draft-dejong-remotestorage"}],"subject":"acct:alice@localhost"}"#;

/// The same without a link, of 45 bytes.
const BARE_JRD: &str = r#"{"links":[],"subject":"acct:alice@localhost"}"#;

const ORIGINS: &str =
    "Access-Control-Allow-Origin: * ¶ Access-Control-Expose-Headers: ETag, Content-Type, Content-Length";

/// What a mark in a row stands for.
fn meaning(mark: char) -> Option<&'static str> {
    match mark {
        '~' => Some(ASK),
        '^' => Some(MARKED_ASK),
        '§' => Some(PAGE),
        '¤' => Some(MARKED_PAGE),
        '$' => Some(JRD),
        '€' => Some(BARE_JRD),
        _ => None,
    }
}

/// The cell with their texts in place of the marks.
fn filled(alloc: Global, cell: &str) -> Result<String, NoMemory> {
    let mut out = String::new(alloc);
    for c in cell.chars() {
        if let Some(text) = meaning(c) {
            out.push_str(text)?;
        } else {
            out.push(c)?;
        }
    }
    Ok(out)
}

/// Puts the lines of a cell, which are parted by `¶`.
fn put_lines(cell: &str, out: &mut Vec<u8>) -> Result<(), Fail> {
    for line in cell.split('¶') {
        let line = line.trim();
        if !line.is_empty() {
            out.extend_from_slice(line.as_bytes())?;
            out.extend_from_slice(b"\r\n")?;
        }
    }
    Ok(())
}

/// Puts the line that a body has, and the body.
fn put_body(alloc: Global, body: &str, out: &mut Vec<u8>) -> Result<(), Fail> {
    let length = body.len();
    if length > 0 {
        let line = format!(in alloc; "Content-Length: {length}\r\n")?;
        out.extend_from_slice(line.as_bytes())?;
    }
    out.extend_from_slice(b"\r\n")?;
    out.extend_from_slice(body.as_bytes())?;
    Ok(())
}

/// Puts the request of a row `METHOD TARGET | FIELD ¶ FIELD | BODY`.
fn put_request(alloc: Global, row: &str, out: &mut Vec<u8>) -> Result<(), Fail> {
    let mut cells = row.split('|');
    let line = filled(alloc, cells.next().unwrap_or("").trim())?;
    let fields = cells.next().unwrap_or("");
    let body = filled(alloc, cells.next().unwrap_or("").trim())?;
    out.extend_from_slice(line.as_bytes())?;
    out.extend_from_slice(b" HTTP/1.1\r\nHost: localhost\r\n")?;
    put_lines(fields, out)?;
    put_body(alloc, body.as_str(), out)
}

/// Puts the reply of a row `STATUS | LINE ¶ LINE | BODY`; these lines stand before those of the row.
fn put_reply(alloc: Global, first: &str, row: &str, out: &mut Vec<u8>) -> Result<(), Fail> {
    let mut cells = row.split('|');
    out.extend_from_slice(b"HTTP/1.1 ")?;
    out.extend_from_slice(cells.next().unwrap_or("").trim().as_bytes())?;
    out.extend_from_slice(b"\r\n")?;
    put_lines(first, out)?;
    put_lines(cells.next().unwrap_or(""), out)?;
    out.extend_from_slice(b"\r\n")?;
    let body = filled(alloc, cells.next().unwrap_or("").trim())?;
    out.extend_from_slice(body.as_bytes())?;
    Ok(())
}

/// The requests of a table, which are its rows that begin with `>`.
fn requests(alloc: Global, table: &str) -> Result<Vec<u8>, Fail> {
    let mut out = Vec::new(alloc);
    for row in table.trim().split('\n') {
        if let Some(request) = row.strip_prefix('>') {
            put_request(alloc, request.trim(), &mut out)?;
        }
    }
    Ok(out)
}

/// The replies of a table: rows that begin with `<` are replies that pages of any origin may read, rows that begin with `-`
/// are others.
fn replies(alloc: Global, table: &str) -> Result<Vec<u8>, Fail> {
    let mut out = Vec::new(alloc);
    for row in table.trim().split('\n') {
        if let Some(reply) = row.strip_prefix('<') {
            put_reply(alloc, ORIGINS, reply, &mut out)?;
        }
        if let Some(reply) = row.strip_prefix('-') {
            put_reply(alloc, "", reply, &mut out)?;
        }
    }
    Ok(out)
}

// ---- runs

/// Runs the words, which are parted by spaces, over these objects.
pub(crate) fn run(
    alloc: Global,
    line: &str,
    source: &mut MemSource,
    sink: &mut MemSink,
    keeper: &mut MemKeeper,
    entropy: &mut MemEntropy,
) -> Result<Status, NoMemory> {
    let mut words = Vec::new(alloc);
    for text in line.split(' ') {
        words.push(String::from_str(alloc, text)?)?;
    }
    let read = read_command(alloc, words.as_slice());
    Ok(run_here(alloc, read, source, sink, keeper, entropy))
}

fn text_of(bytes: &[u8]) -> Result<&str, Fail> {
    match std::str::from_utf8(bytes) {
        Ok(text) => Ok(text),
        Err(_) => Err("no text")?,
    }
}

/// The words over the input, read in pieces of so many bytes, write the output and end so.
pub(crate) fn writes(
    rt: &impl Abort,
    alloc: Global,
    line: &str,
    input: &[u8],
    piece: usize,
    keeper: &mut MemKeeper,
    entropy: &mut MemEntropy,
    output: &[u8],
    note: &Note,
) -> Result<(), Fail> {
    let mut source = MemSource::in_pieces(input.to_vec(alloc)?, piece, Vec::new(alloc));
    let mut sink = MemSink::new(Vec::new(alloc), Vec::new(alloc));
    let status = run(alloc, line, &mut source, &mut sink, keeper, entropy)?;
    assert_eq!(rt; text_of(sink.written())?, text_of(output)?);
    assert_eq!(rt; status.note, *note);
    Ok(())
}

/// The words give the requests of the table its replies, and the input ends behind them.
pub(crate) fn exchanges(
    rt: &impl Abort,
    alloc: Global,
    line: &str,
    table: &str,
    piece: usize,
    keeper: &mut MemKeeper,
    entropy: &mut MemEntropy,
) -> Result<(), Fail> {
    let input = requests(alloc, table)?;
    let output = replies(alloc, table)?;
    writes(
        rt,
        alloc,
        line,
        input.as_slice(),
        piece,
        keeper,
        entropy,
        output.as_slice(),
        &Note::Empty,
    )
}

/// The keeper has these rows.
pub(crate) fn has_rows(rt: &impl Abort, keeper: &MemKeeper, rows: &[&[u8]]) -> Result<(), Fail> {
    assert_eq!(rt; keeper.rows().len(), rows.len());
    for (kept, row) in keeper.rows().iter().zip(rows) {
        assert_eq!(rt; kept.as_slice(), *row);
    }
    Ok(())
}

/// So many of the words were drawn: the next one comes, where one is left.
pub(crate) fn has_drawn(
    rt: &impl Abort,
    entropy: &mut MemEntropy,
    words: &[u64],
    drawn: usize,
) -> Result<(), Fail> {
    assert_eq!(rt; entropy.word().ok(), words.get(drawn).copied());
    Ok(())
}

/// `PIPE_AT` over no rows, and over an entropy of these words of which so many are drawn, gives the requests of the table its
/// replies and leaves these rows behind its own. Numbers that aren't 0 are those of the calls that fail, of the keeper and of
/// the entropy.
pub(crate) fn grants(
    rt: &impl Abort,
    alloc: Global,
    table: &str,
    failing: (u64, u64),
    words: &[u64],
    drawn: usize,
    rows: &[&[u8]],
) -> Result<(), Fail> {
    let (keeper_fails, entropy_fails) = failing;
    for piece in [65_536, 1] {
        let mut keeper = MemKeeper::new(Vec::new(alloc), [keeper_fails].to_vec(alloc)?);
        let mut entropy = MemEntropy::new(words.to_vec(alloc)?, [entropy_fails].to_vec(alloc)?);
        exchanges(rt, alloc, PIPE_AT, table, piece, &mut keeper, &mut entropy)?;
        has_rows(rt, &keeper, rows)?;
        has_drawn(rt, &mut entropy, words, drawn)?;
    }
    Ok(())
}

/// The words over no rows give the requests of the table its replies, draw nothing and leave their own row alone.
pub(crate) fn gives(rt: &impl Abort, alloc: Global, line: &str, table: &str) -> Result<(), Fail> {
    for piece in [65_536, 1] {
        let mut keeper = MemKeeper::new(Vec::new(alloc), Vec::new(alloc));
        let mut entropy = MemEntropy::new(WORDS.to_vec(alloc)?, Vec::new(alloc));
        exchanges(rt, alloc, line, table, piece, &mut keeper, &mut entropy)?;
        has_rows(rt, &keeper, &[OWNER_ROW])?;
        has_drawn(rt, &mut entropy, WORDS.as_slice(), 0)?;
    }
    Ok(())
}
