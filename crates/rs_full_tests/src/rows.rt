//! Rows of text as requests.

ghost use Rattle.std.specs.Prelude.{◌≡◌, ◌≤◌, true, length, IfOk};
ghost use Rattle.rs_rules.specs.Requests.{is_short_for, is_within_limit};

use rs_path::{Bytes, Kind, Path};
use rs_rules::{Call, Cond, Pass, Request};
use rs_scope::{Method, Scopes, Token};
use std::alloc::Global;
use std::test::Fail;

/// The cells of a row, without the blanks round them.
#[derive(Drop)]
struct Cells {
    method: &'static str,
    path: &'static str,
    who: &'static str,
    if_match: &'static str,
    if_none: &'static str,
    body: &'static str,
    reply: &'static str,
}

fn cells_of(row: &'static str) -> Result<Cells, Fail> {
    let mut cells = row.split('|');
    Ok(Cells {
        method: cells.next().ok_or("no method")?.trim(),
        path: cells.next().ok_or("no path")?.trim(),
        who: cells.next().ok_or("nobody")?.trim(),
        if_match: cells.next().ok_or("no If-Match")?.trim(),
        if_none: cells.next().ok_or("no If-None-Match")?.trim(),
        body: cells.next().ok_or("no body")?.trim(),
        reply: cells.next().ok_or("no reply")?.trim(),
    })
}

/// The token of the bytes from 0 to 15.
pub fn owner() -> Token {
    Token::of_words(0x0001_0203_0405_0607, 0x0809_0A0B_0C0D_0E0F)
}

fn token_of(who: &str) -> Result<Token, Fail> {
    match who {
        "owner" => Ok(owner()),
        "stranger" => Ok(Token::of_words(0, 4)),
        _ => Err("no such token")?,
    }
}

fn method_of(text: &str) -> Result<Method, Fail> {
    match text {
        "GET" => Ok(Method::Get),
        "PUT" => Ok(Method::Put),
        "DELETE" => Ok(Method::Delete),
        _ => Err("no such method")?,
    }
}

fn cond_of(alloc: Global, text: &str) -> Result<Cond, Fail> {
    if text.is_empty() || 100 < text.len() {
        return Ok(Cond::Missing);
    }
    Ok(Cond::read(alloc, text.as_bytes())?)
}

pub fn body_of(alloc: Global, text: &str) -> Result<Bytes, Fail>
    ensures short { IfOk result (λ body. length body ≤ 100) }
{
    if 100 < text.len() {
        Err("a long body")?;
    }
    Ok(Bytes::of(text.as_bytes().to_vec(alloc)?))
}

pub fn plain_text(alloc: Global) -> Result<Kind, Fail> {
    Ok(Kind::read(alloc, b"text/plain")?.ok_or("no content type")?)
}

fn call_of(alloc: Global, cells: &Cells) -> Result<Call, Fail>
    ensures short { IfOk result (λ call. is_short_for call.method call.body ≡ true) }
{
    Ok(Call {
        method: method_of(cells.method)?,
        path: Path::read_plain(alloc, cells.path.as_bytes())?,
        pass: Pass::Known(token_of(cells.who)?),
        if_match: cond_of(alloc, cells.if_match)?,
        if_none: cond_of(alloc, cells.if_none)?,
        kind: plain_text(alloc)?,
        body: body_of(alloc, cells.body)?,
    })
}

fn request_of(alloc: Global, cells: &Cells) -> Result<Request, Fail>
    ensures short { IfOk result (λ request. is_within_limit request ≡ true) }
{
    match cells.method {
        "GRANT" => Ok(Request::Grant {
            token: token_of(cells.who)?,
            scopes: Scopes::read(alloc, cells.path.as_bytes())?,
        }),
        "REVOKE" => Ok(Request::Revoke {
            token: token_of(cells.who)?,
        }),
        _ => Ok(Request::Store(call_of(alloc, cells)?)),
    }
}

/// The request and the reply of a row.
pub fn case_of(alloc: Global, row: &'static str) -> Result<(Request, &'static str), Fail>
    ensures short { IfOk result (λ case. is_within_limit case.0 ≡ true) }
{
    let cells = cells_of(row)?;
    let request = request_of(alloc, &cells)?;
    Ok((request, cells.reply))
}
