//! From a message to what it asks.

ghost use Rattle.std.specs.Prelude.{◌≡◌, codes, IfOk};
ghost use Rattle.std.specs.Result.{result_ok};
ghost use Rattle.rs_path.specs.Readings.{target_reading};
ghost use Rattle.rs_exchange.specs.declared.answer.Answer.TheVariants.{Refused};
ghost use Rattle.rs_exchange.specs.declared.asked.Asked.TheVariants.{Now};
ghost use Rattle.rs_exchange.specs.Accounts.{IsConfig};
ghost use Rattle.rs_exchange.specs.Fields.{values_of};
ghost use Rattle.rs_exchange.specs.Passes.{pass_of};
ghost use Rattle.rs_exchange.specs.Requests.{asked_line, asked_server, asked_options, asked_path, asked_call, asked_storage};
ghost use Rattle.rs_exchange.specs.Targets.{line_seen};

use crate::account::Config;
use crate::answer::Answer;
use crate::condition::read_cond;
use crate::content_type::{brings_part, read_kind};
use crate::discovery::read_discovery;
use crate::fields::look_up;
use crate::grant::read_grant;
use crate::pass::read_pass;
use crate::refusal::{Methods, Refusal};
use crate::request_line::RequestLine;
use crate::target::Target;
use crate::verb::Verb;
use rs_grant::Ask;
use rs_path::{Bytes, NoMemory, Path, PathFault};
use rs_rules::{Call, Pass, Request};
use rs_scope::Method;
use rs_wire::Field;
use std::alloc::Global;

/// What a message asks.
#[derive(Debug, Drop)]
pub enum Asked {
    /// A request to the desk of the user with this number.
    Desk { user: u32, request: Request },
    /// Nothing of a desk: this is the answer.
    Now(Answer),
    /// A grant that the user with this number consented to, with the user's password: a token of two random words is to have
    /// the scopes that were asked for.
    Consent { user: u32, ask: Ask },
}

/// What a message with this request line, these fields and this body asks. The body is moved on.
///
/// The first that applies: a target that isn't there, a method that isn't the target's, a path that is none, OPTIONS, a
/// condition that is none, a content type that is none, a part in place of the whole; else the request. Of discovery its
/// answer is said (RFC 7033, section 4.2), of a grant the page, the redirect that refuses, or the consent; there too a condition
/// that is none comes first.
pub fn read_request(
    alloc: Global,
    config: &Config,
    line: RequestLine,
    fields: &[Field],
    body: Bytes,
) -> Result<Asked, NoMemory>
    requires config { IsConfig config.now }
    ensures asked { IfOk result (λ asked. asked ≡ asked_line config.now fields.now body (line_seen line.entry)) }
{
    match line.target {
        Target::Server => Ok(read_server(line.verb)),
        Target::Storage { user, path } => {
            read_storage(
                alloc,
                user,
                read_path(alloc, path)?,
                line.verb,
                fields,
                body,
            )
        }
        Target::Discovery { query } => read_discovery(alloc, config, fields, line.verb, query),
        Target::Grant { user, query } => {
            read_grant(
                alloc,
                &config.accounts,
                user,
                fields,
                line.verb,
                query,
                body,
            )
        }
        Target::Nothing => Ok(refused(Refusal::NotFound)),
    }
}

/// The message is refused, and no desk is asked.
pub(crate) fn refused(refusal: Refusal) -> Asked
    ensures { result ≡ Now (Refused refusal) }
{
    Asked::Now(Answer::Refused(refusal))
}

// What is asked of the server as a whole.
fn read_server(verb: Verb) -> Asked
    ensures asked { result ≡ asked_server verb }
{
    match verb {
        Verb::Options => Asked::Now(Answer::Preflight),
        _ => refused(Refusal::NotFound),
    }
}

// What is asked of a storage, by the method first.
fn read_storage(
    alloc: Global,
    user: u32,
    path: Option<Path>,
    verb: Verb,
    fields: &[Field],
    body: Bytes,
) -> Result<Asked, NoMemory>
    ensures asked { IfOk result (λ asked. asked ≡ asked_storage fields.now body user path verb) }
{
    match verb {
        Verb::Data(method) => match path {
            Some(path) => read_call(alloc, user, method, path, fields, body),
            None => Ok(refused(Refusal::BadPath)),
        },
        Verb::Options => match path {
            Some(_) => Ok(Asked::Now(Answer::Preflight)),
            None => Ok(refused(Refusal::BadPath)),
        },
        Verb::Post => Ok(refused(Refusal::NotAllowed {
            methods: Methods::Storage,
        })),
        Verb::Other => Ok(refused(Refusal::NotAllowed {
            methods: Methods::Storage,
        })),
    }
}

// The request with this method and this path.
fn read_call(
    alloc: Global,
    user: u32,
    method: Method,
    path: Path,
    fields: &[Field],
    body: Bytes,
) -> Result<Asked, NoMemory>
    ensures asked { IfOk result (λ asked. asked ≡ asked_call fields.now body user method path) }
{
    let Some(if_match) = read_cond(alloc, fields, b"if-match")? else {
        return Ok(refused(Refusal::BadCondition));
    };
    let Some(if_none) = read_cond(alloc, fields, b"if-none-match")? else {
        return Ok(refused(Refusal::BadCondition));
    };
    let Some(kind) = read_kind(alloc, method, fields)? else {
        return Ok(refused(Refusal::BadKind));
    };
    if brings_part(method, fields) {
        return Ok(refused(Refusal::PartOnly));
    }
    let pass = pass_in(fields);
    Ok(Asked::Desk {
        user,
        request: Request::Store(Call {
            method,
            path,
            pass,
            if_match,
            if_none,
            kind,
            body,
        }),
    })
}

// The path of the text, or None where it is none.
fn read_path(alloc: Global, text: &[u8]) -> Result<Option<Path>, NoMemory>
    ensures path { IfOk result (λ path. path ≡ result_ok (target_reading text.now)) }
{
    match Path::read(alloc, text) {
        Ok(path) => Ok(Some(path)),
        Err(PathFault::Bad { .. }) => Ok(None),
        Err(PathFault::NoMemory) => Err(NoMemory),
    }
}

// What the fields show of a token.
fn pass_in(fields: &[Field]) -> Pass
    ensures pass { result ≡ pass_of (values_of (codes "authorization") fields.now) }
{
    read_pass(look_up(fields, b"authorization"))
}
