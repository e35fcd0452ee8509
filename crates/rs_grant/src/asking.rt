//! Authorisation requests read.

ghost use Rattle.std.specs.Prelude.{◌≡◌, map, codes, IfOk, IfSome, IsTrue, IsUtf8, option_map, string_bytes, if◌then◌else◌};
ghost use Rattle.url.specs.Parts.{serialize};
ghost use Rattle.url.specs.Origin.{origin_of, ascii_serialization};
ghost use Rattle.rs_form.specs.Fields.{form_values, one_value, first_value};
ghost use Rattle.rs_grant.specs.Asks.{is_redirect, redirect_of, asked, token_asked, scopes_asked, ask_from, ask_reading, ReadsAsk, ReadsAsked, CanBeAnswered, HasClient};

use crate::ask::Ask;
use crate::grant_fault::GrantFault;
use crate::grant_word::GrantWord;
use rs_form::{first_value, one_value, read_values};
use rs_path::{Bytes, NoMemory};
use rs_scope::{ScopeFault, Scopes};
use std::alloc::Global;
use url::{ParseError, Url};

/// What the query of an authorisation request asks for.
///
/// `BadRedirect` comes first. Then, each as a word for the redirect address: `invalid_request` where `response_type`,
/// `client_id`, `scope` or `state` is repeated or one of the first two is missing, `unsupported_response_type` where
/// the first isn't `token`, `invalid_scope` where `scope` is missing or isn't read as scopes. An empty value is a
/// value. Other fields are ignored. The redirect address that an answer carries is one that `url` prints, and what
/// `redirect` makes of it is read back.
///
/// RFC 6749, sections 3.1.2, 4.2.1 and 4.2.2.1.
pub fn read_ask(alloc: Global, query: &[u8]) -> Result<Ask, GrantFault>
    ensures read { ReadsAsk result (ask_reading query.now) }
    ensures answered { CanBeAnswered result }
{
    let redirects = read_values(alloc, query, "redirect_uri")?;
    match read_redirect(alloc, redirects.as_slice())? {
        Some(url) => ask_to(alloc, &url, query),
        None => Err(GrantFault::BadRedirect),
    }
}

fn read_redirect(alloc: Global, redirects: &[String]) -> Result<Option<Url>, NoMemory>
    ensures { IfOk result (λ url. url ≡ redirect_of (one_value (map string_bytes redirects.now))) }
{
    let Some(text) = one_value(redirects) else {
        return Ok(None);
    };
    match Url::parse(alloc, text) {
        Ok(url) => Ok(checked(url)),
        Err(ParseError::OutOfMemory | ParseError::Overflow) => Err(NoMemory),
        Err(_) => Ok(None),
    }
}

fn checked(url: Url) -> Option<Url>
    ensures { result ≡ (if is_redirect url then Some url else None) }
{
    if is_redirect(&url) { Some(url) } else { None }
}

fn is_redirect(url: &Url) -> bool
    ensures { result ≡ is_redirect url.now }
{
    (url.scheme() == "http" || url.scheme() == "https") && url.fragment().is_none()
}

// What is asked with this redirect address.
fn ask_to(alloc: Global, url: &Url, query: &[u8]) -> Result<Ask, GrantFault>
    requires { IsTrue (is_redirect url.now) }
    ensures read { ReadsAsk result (ask_from (Some url.now) query.now) }
    ensures answered { CanBeAnswered result }
{
    let states = read_values(alloc, query, "state")?;
    let state = copy_first(alloc, states.as_slice())?;
    let redirect = copy_text(alloc, url.as_str())?;
    match read_fields(alloc, query, states.as_slice()) {
        Ok((client, scopes)) => {
            let origin = origin_text(alloc, url)?;
            Ok(Ask {
                redirect,
                origin,
                client,
                scopes,
                state,
            })
        }
        Err(Refusal::Word(word)) => Err(GrantFault::Word {
            word,
            redirect,
            state,
        }),
        Err(Refusal::NoMemory) => Err(GrantFault::NoMemory),
    }
}

fn origin_text(alloc: Global, url: &Url) -> Result<Bytes, NoMemory>
    ensures { IfOk result (λ origin. origin ≡ ascii_serialization (origin_of url.now)) }
{
    match url.origin() {
        Ok(origin) => copy_text(alloc, origin.ascii_serialization(alloc)?.as_str()),
        Err(_) => Err(NoMemory),
    }
}

// Why there are no fields to show.
#[derive(Debug, Clone, Copy)]
enum Refusal {
    Word(GrantWord),
    NoMemory,
}

impl From<NoMemory> for Refusal {
    ghost use Rattle.rs_grant.specs.declared.asking.Refusal.TheVariants.{NoMemory};

    ghost from_gives = { λ _ refusal. refusal ≡ NoMemory };

    fn from(_e: NoMemory) -> Refusal {
        Refusal::NoMemory
    }
}

// The client and the scopes.
fn read_fields(alloc: Global, query: &[u8], states: &[String]) -> Result<(Bytes, Scopes), Refusal>
    ensures read { ReadsAsked result (asked (form_values (codes "response_type") query.now) (form_values (codes "client_id") query.now)
        (form_values (codes "scope") query.now) (map string_bytes states.now)) }
    ensures client { HasClient result }
{
    let responses = read_values(alloc, query, "response_type")?;
    let clients = read_values(alloc, query, "client_id")?;
    let scopes = read_values(alloc, query, "scope")?;
    if scopes.len() > 1 || states.len() > 1 {
        return Err(Refusal::Word(GrantWord::InvalidRequest));
    }
    read_token_ask(
        alloc,
        one_value(responses.as_slice()),
        one_value(clients.as_slice()),
        first_value(scopes.as_slice()),
    )
}

// The client and the scopes, of fields that aren't repeated.
fn read_token_ask(
    alloc: Global,
    response: Option<&str>,
    client: Option<&str>,
    scope: Option<&str>,
) -> Result<(Bytes, Scopes), Refusal>
    ensures read { ReadsAsked result (token_asked (option_map (λ text. text.now) response.entry)
        (option_map (λ text. text.now) client.entry) (option_map (λ text. text.now) scope.entry)) }
    ensures client { HasClient result }
{
    let Some(response) = response else {
        return Err(Refusal::Word(GrantWord::InvalidRequest));
    };
    let Some(client) = client else {
        return Err(Refusal::Word(GrantWord::InvalidRequest));
    };
    if response != "token" {
        return Err(Refusal::Word(GrantWord::UnsupportedResponseType));
    }
    read_scopes(alloc, client, scope)
}

fn read_scopes(alloc: Global, client: &str, scope: Option<&str>) -> Result<(Bytes, Scopes), Refusal>
    ensures read { ReadsAsked result (scopes_asked client.now (option_map (λ text. text.now) scope.entry)) }
    ensures client { HasClient result }
{
    let Some(scope) = scope else {
        return Err(Refusal::Word(GrantWord::InvalidScope));
    };
    match Scopes::read(alloc, scope.as_bytes()) {
        Ok(scopes) => {
            let client = copy_text(alloc, client)?;
            Ok((client, scopes))
        }
        Err(ScopeFault::Bad { .. }) => Err(Refusal::Word(GrantWord::InvalidScope)),
        Err(ScopeFault::NoMemory) => Err(Refusal::NoMemory),
    }
}

// The first of these values, where one is.
fn copy_first(alloc: Global, values: &[String]) -> Result<Option<Bytes>, NoMemory>
    ensures first { IfOk result (λ first. first ≡ first_value (map string_bytes values.now)) }
    ensures utf8 { IfOk result (λ first. IfSome first IsUtf8) }
{
    match first_value(values) {
        Some(value) => Ok(Some(copy_text(alloc, value)?)),
        None => Ok(None),
    }
}

/// The bytes of a text.
pub(crate) fn copy_text(alloc: Global, text: &str) -> Result<Bytes, NoMemory>
    ensures same { IfOk result (λ copied. copied ≡ text.now) }
    ensures utf8 { IfOk result IsUtf8 }
{
    Ok(Bytes::of(Vec::from_slice(alloc, text.as_bytes())?))
}
