//! Paths and requests that dice draw: of few names, so that folders fill and empty, and documents and folders clash.

ghost use Rattle.std.specs.Prelude.{◌≡◌, ◌<◌, ◌≤◌, true, length, IfOk};
ghost use Rattle.rs_rules.specs.Requests.{is_within_limit};

use crate::dice::Dice;
use rs_path::{Bytes, Kind, Path, Tag};
use rs_rules::{Call, Cond, Pass, Request};
use rs_scope::{Method, Scopes, Token};
use std::alloc::Global;
use std::test::Fail;

// ---- paths

// As a folder's key ends in a slash, `a-b` comes before `a/`, and `a0` behind it.
fn name_of(number: u64) -> &'static [u8] {
    match number {
        0 => b"a",
        1 => b"a-b",
        2 => b"a0",
        _ => b"ab",
    }
}

// Adds so many names, of which one in so many is any of the four, and each other the first.
fn add_names(text: &mut Vec<u8>, dice: &mut Dice, count: u64, sides: u64) -> Result<(), Fail>
    requires sides { 0 < sides }
{
    for _ in 0..count {
        let number = if dice.draw(sides) == 0 {
            dice.draw(4)
        } else {
            0
        };
        text.push(b'/')?;
        text.extend_from_slice(name_of(number))?;
    }
    Ok(())
}

// Few documents stand near `/`, since each is in the way of a quarter of all others.
fn draw_depth(dice: &mut Dice) -> u64 {
    match dice.draw(32) {
        0 => 1,
        1 | 2 | 3 => 2,
        4 | 5 | 6 | 7 | 8 | 9 | 10 | 11 | 12 | 13 => 3,
        _ => 4,
    }
}

/// The path of a document, of one to four names or of 28 to 32.
pub fn draw_document(alloc: Global, dice: &mut Dice) -> Result<Path, Fail> {
    let mut text = Vec::new(alloc);
    if dice.draw(12) == 0 {
        text.extend_from_slice(b"/public")?;
        let more = 27 + dice.draw(5);
        add_names(&mut text, dice, more, 30)?;
    } else {
        let count = draw_depth(dice);
        add_names(&mut text, dice, count, 1)?;
    }
    Ok(Path::read_plain(alloc, text.as_slice())?)
}

/// The path of a folder, of up to four names or of one to 32.
pub fn draw_folder(alloc: Global, dice: &mut Dice) -> Result<Path, Fail> {
    let mut text = Vec::new(alloc);
    if dice.draw(12) == 0 {
        text.extend_from_slice(b"/public")?;
        let more = dice.draw(32);
        add_names(&mut text, dice, more, 30)?;
    } else {
        let count = dice.draw(5);
        add_names(&mut text, dice, count, 1)?;
    }
    text.push(b'/')?;
    Ok(Path::read_plain(alloc, text.as_slice())?)
}

// ---- who asks

/// The token of this number; the first one may all.
pub fn token_of(number: u64) -> Token {
    Token::of_words(0, number)
}

fn draw_pass(dice: &mut Dice) -> Pass {
    match dice.draw(24) {
        0 => Pass::Missing,
        1 => Pass::Strange,
        2 | 3 => Pass::Known(token_of(1)),
        4 | 5 => Pass::Known(token_of(2)),
        _ => Pass::Known(token_of(0)),
    }
}

// ---- requests

// `*`, or the version that was seen, or the one before it.
fn draw_condition(alloc: Global, dice: &mut Dice, version: u64) -> Result<Cond, Fail> {
    let number = match dice.draw(24) {
        0 => return Ok(Cond::Any),
        1 | 2 => version,
        3 => version.saturating_sub(1),
        _ => return Ok(Cond::Missing),
    };
    let mut text = b"\"".to_vec(alloc)?;
    text.extend_from_slice(Tag::of(alloc, number)?.as_slice())?;
    text.push(b'"')?;
    Ok(Cond::read(alloc, text.as_slice())?)
}

fn draw_body(alloc: Global, dice: &mut Dice) -> Result<Bytes, Fail>
    ensures short { IfOk result (λ body. length body ≤ 50) }
{
    let mut body = Vec::new(alloc);
    let count = dice.draw(51) as usize;
    body.resize(count, b'a' + dice.draw(26) as u8)?;
    Ok(Bytes::of(body))
}

fn draw_kind(alloc: Global, dice: &mut Dice) -> Result<Kind, Fail> {
    let text: &[u8] = if dice.draw(2) == 0 {
        b"text/plain"
    } else {
        b"application/json"
    };
    Ok(Kind::read(alloc, text)?.ok_or("no content type")?)
}

// What isn't there is put more often, and what is there is removed more often.
fn draw_method(dice: &mut Dice, version: u64) -> Method {
    match dice.draw(16) {
        0 => Method::Get,
        1 => Method::Head,
        2 => Method::Delete,
        3 | 4 | 5 | 6 | 7 | 8 if version > 0 => Method::Delete,
        _ => Method::Put,
    }
}

/// A request on a path of which this version was seen.
pub fn draw_call(alloc: Global, dice: &mut Dice, path: Path, version: u64) -> Result<Request, Fail>
    ensures short { IfOk result (λ request. is_within_limit request ≡ true) }
{
    Ok(Request::Store(Call {
        method: draw_method(dice, version),
        path,
        pass: draw_pass(dice),
        if_match: draw_condition(alloc, dice, version)?,
        if_none: draw_condition(alloc, dice, version)?,
        kind: draw_kind(alloc, dice)?,
        body: draw_body(alloc, dice)?,
    }))
}

/// What shows a path to who may see all.
pub fn reading(alloc: Global, path: Path) -> Result<Request, Fail>
    ensures short { IfOk result (λ request. is_within_limit request ≡ true) }
{
    Ok(Request::Store(Call {
        method: Method::Get,
        path,
        pass: Pass::Known(token_of(0)),
        if_match: Cond::Missing,
        if_none: Cond::Missing,
        kind: Kind::read(alloc, b"text/plain")?.ok_or("no content type")?,
        body: Bytes::of(Vec::new(alloc)),
    }))
}

/// A grant to a token.
pub fn granting(alloc: Global, token: Token, scopes: &[u8]) -> Result<Request, Fail>
    ensures short { IfOk result (λ request. is_within_limit request ≡ true) }
{
    Ok(Request::Grant {
        token,
        scopes: Scopes::read(alloc, scopes)?,
    })
}

/// A grant to the second token or the third, or a revocation of it.
pub fn draw_grant(alloc: Global, dice: &mut Dice) -> Result<Request, Fail>
    ensures short { IfOk result (λ request. is_within_limit request ≡ true) }
{
    let token = token_of(1 + dice.draw(2));
    match dice.draw(4) {
        0 => granting(alloc, token, b"a:rw"),
        1 => granting(alloc, token, b"*:r"),
        _ => Ok(Request::Revoke { token }),
    }
}
