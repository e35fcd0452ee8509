//! Rows of text as requests, and replies as the text of a row.
//!
//! A row is `method | path | who | If-Match | If-None-Match | body | reply`; its content type is `text/plain`.

ghost use Rattle.std.specs.Prelude.{◌≡◌, ◌≤◌, true, length, IfOk};
ghost use Rattle.rs_rules.specs.Requests.{is_within_limit};

use rs_path::{Bytes, Entry, Kind, Path, Tag};
use rs_rules::{Call, Cond, Pass, Reply, Request};
use rs_scope::{Method, Token};
use std::alloc::Global;
use std::test::Fail;

// ---- who asks

/// The token of the bytes from 0 to 15.
pub fn owner() -> Token {
    Token::of_words(0x0001_0203_0405_0607, 0x0809_0A0B_0C0D_0E0F)
}

pub fn reader() -> Token {
    Token::of_words(0, 2)
}

pub fn former() -> Token {
    Token::of_words(0, 3)
}

pub fn stranger() -> Token {
    Token::of_words(0, 4)
}

pub fn token_of(who: &str) -> Result<Token, Fail> {
    match who {
        "owner" => Ok(owner()),
        "reader" => Ok(reader()),
        "former" => Ok(former()),
        "stranger" => Ok(stranger()),
        _ => Err("no such token")?,
    }
}

fn pass_of(who: &str) -> Result<Pass, Fail> {
    match who {
        "nobody" => Ok(Pass::Missing),
        "strange" => Ok(Pass::Strange),
        _ => Ok(Pass::Known(token_of(who)?)),
    }
}

// ---- requests

fn method_of(text: &str) -> Result<Method, Fail> {
    match text {
        "GET" => Ok(Method::Get),
        "HEAD" => Ok(Method::Head),
        "PUT" => Ok(Method::Put),
        "DELETE" => Ok(Method::Delete),
        _ => Err("no such method")?,
    }
}

fn cond_of(alloc: Global, text: &str) -> Result<Cond, Fail> {
    if text.is_empty() || 100 < text.len() {
        return Ok(Cond::Missing);
    }
    Ok(Cond::read(alloc, text.as_bytes())?)
}

pub fn body_of(alloc: Global, text: &str) -> Result<Bytes, Fail>
    ensures short { IfOk result (λ body. length body ≤ 100) }
{
    if 100 < text.len() {
        Err("a long body")?;
    }
    Ok(Bytes::of(text.as_bytes().to_vec(alloc)?))
}

pub fn plain_text(alloc: Global) -> Result<Kind, Fail> {
    Ok(Kind::read(alloc, b"text/plain")?.ok_or("no content type")?)
}

/// The request and the reply of a row.
pub fn case_of(alloc: Global, row: &'static str) -> Result<(Request, &'static str), Fail>
    ensures short { IfOk result (λ case. is_within_limit case.0 ≡ true) }
{
    let mut cells = row.split('|');
    let method = method_of(cells.next().ok_or("no method")?.trim())?;
    let path = cells.next().ok_or("no path")?.trim();
    let pass = pass_of(cells.next().ok_or("nobody")?.trim())?;
    let if_match = cond_of(alloc, cells.next().ok_or("no If-Match")?.trim())?;
    let if_none = cond_of(alloc, cells.next().ok_or("no If-None-Match")?.trim())?;
    let body = body_of(alloc, cells.next().ok_or("no body")?.trim())?;
    let reply = cells.next().ok_or("no reply")?.trim();
    let request = Request::Store(Call {
        method,
        path: Path::read_plain(alloc, path.as_bytes())?,
        pass,
        if_match,
        if_none,
        kind: plain_text(alloc)?,
        body,
    });
    Ok((request, reply))
}

// ---- replies

fn push_number(alloc: Global, out: &mut Vec<u8>, n: u64) -> Result<(), Fail> {
    out.push(b' ')?;
    out.extend_from_slice(Tag::of(alloc, n)?.as_slice())?;
    Ok(())
}

fn push_item(alloc: Global, out: &mut Vec<u8>, item: &Entry) -> Result<(), Fail> {
    out.extend_from_slice(b", ")?;
    out.extend_from_slice(item.name.as_slice())?;
    if item.folder {
        out.push(b'/')?;
    }
    out.push(b' ')?;
    out.extend_from_slice(item.tag.as_slice())?;
    if let Some(kind) = &item.kind {
        out.push(b' ')?;
        out.extend_from_slice(kind.as_slice())?;
    }
    if let Some(length) = item.length {
        push_number(alloc, out, length)?;
    }
    Ok(())
}

fn word_of(reply: &Reply) -> &'static [u8] {
    match reply {
        Reply::Found { .. } => b"Found",
        Reply::Folder { .. } => b"Folder",
        Reply::Stored { .. } => b"Stored",
        Reply::Removed { .. } => b"Removed",
        Reply::Same { .. } => b"Same",
        Reply::NoToken => b"NoToken",
        Reply::BadToken => b"BadToken",
        Reply::Forbidden => b"Forbidden",
        Reply::FolderWrite => b"FolderWrite",
        Reply::Clash { .. } => b"Clash",
        Reply::Absent => b"Absent",
        Reply::Unmet => b"Unmet",
        Reply::RecordsFull => b"RecordsFull",
        Reply::OverQuota { .. } => b"OverQuota",
        Reply::FolderFull { .. } => b"FolderFull",
        Reply::StoreFailed => b"StoreFailed",
        Reply::Granted => b"Granted",
        Reply::TokenTaken => b"TokenTaken",
        Reply::Revoked => b"Revoked",
        Reply::NotGranted => b"NotGranted",
    }
}

/// The reply's name and what it has, as a row writes them.
pub fn text_of(alloc: Global, reply: &Reply) -> Result<Vec<u8>, Fail> {
    let mut out = word_of(reply).to_vec(alloc)?;
    match reply {
        Reply::Found {
            version,
            kind,
            body,
        } => {
            push_number(alloc, &mut out, *version)?;
            out.push(b' ')?;
            out.extend_from_slice(kind.as_slice())?;
            out.push(b' ')?;
            out.extend_from_slice(body.as_slice())?;
        }
        Reply::Folder { version, items } => {
            push_number(alloc, &mut out, *version)?;
            for item in items.as_slice() {
                push_item(alloc, &mut out, item)?;
            }
        }
        Reply::Stored { version, created } => {
            push_number(alloc, &mut out, *version)?;
            out.extend_from_slice(if *created { b" created" } else { b" replaced" })?;
        }
        Reply::Removed { version } | Reply::Same { version } => {
            push_number(alloc, &mut out, *version)?;
        }
        Reply::OverQuota { live } => push_number(alloc, &mut out, *live)?,
        Reply::Clash { path } | Reply::FolderFull { path } => {
            out.push(b' ')?;
            path.write_plain(&mut out)?;
        }
        _ => {}
    }
    Ok(out)
}
