//! The targets of requests.

ghost use Rattle.std.specs.Prelude.{◌≡◌, ◌<◌, ◌==◌, length, position, option_map, IfSome};
ghost use Rattle.rs_exchange.specs.Targets.{after_prefix, after_scheme, after_name, is_authority_end, from_path, without_origin, before_query, behind_query, path_part, query_part, storage_of, grant_of, below_oauth, target_of, target_seen};

use crate::account::Accounts;
use rs_wire::same_name;

/// What a request is about (RFC 9112, section 3.2).
#[derive(Clone, Copy, Debug)]
pub enum Target<'a> {
    /// `*`: the server as a whole (RFC 9110, section 9.3.7).
    Server,
    /// `/storage/USER` and a text that begins with `/`: in the storage of the user with this number, the document or the
    /// folder whose path the text is to be.
    Storage { user: u32, path: &'a [u8] },
    /// Where users are found: `/.well-known/webfinger` (RFC 7033, section 4), with its query.
    Discovery { query: &'a [u8] },
    /// Where the user with this number grants access: `/oauth/USER` (RFC 6749, section 3.1), with its query.
    Grant { user: u32, query: &'a [u8] },
    /// Nothing that is here.
    Nothing,
}

/// The target without `http://` or `https://` and an authority, where it begins so, cut at its first `?`: what stands before
/// that, and the query behind it.
#[tactic(auto, unfolding(crate::specs::Targets::path_part, crate::specs::Targets::query_part))]
pub fn target_parts(target: &[u8]) -> (&[u8], &[u8])
    ensures text { result.0.now ≡ path_part target.now }
    ensures query { result.1.now ≡ query_part target.now }
{
    cut_query(without_origin(target))
}

fn cut_query(text: &[u8]) -> (&[u8], &[u8])
    ensures front { result.0.now ≡ before_query text.now }
    ensures rest { result.1.now ≡ behind_query text.now }
{
    match first(text, b'?') {
        Some(end) => (&text[..end], &text[end + 1..]),
        None => (text, &[]),
    }
}

fn without_origin(target: &[u8]) -> &[u8]
    ensures rest { result.now ≡ without_origin target.now }
{
    match after_scheme(target) {
        Some(rest) => from_path(rest),
        None => target,
    }
}

// What follows `http://` or `https://`.
fn after_scheme(target: &[u8]) -> Option<&[u8]>
    ensures rest { option_map (λ rest. rest.now) result ≡ after_scheme target.now }
{
    match after_name(b"http://", target) {
        Some(rest) => Some(rest),
        None => after_name(b"https://", target),
    }
}

// What follows the name, where the text begins with it in any case.
fn after_name<'a>(name: &[u8], text: &'a [u8]) -> Option<&'a [u8]>
    ensures rest { option_map (λ rest. rest.now) result ≡ after_name name.now text.now }
{
    if text.len() < name.len() {
        return None;
    }
    let (front, rest) = text.split_at(name.len());
    if same_name(front, name) {
        Some(rest)
    } else {
        None
    }
}

// What follows an authority, which ends at the first `/`, `?` or `#` (RFC 3986, section 3.2).
fn from_path(text: &[u8]) -> &[u8]
    ensures rest { result.now ≡ from_path text.now }
{
    match authority_end(text) {
        Some(end) => &text[end..],
        None => &[],
    }
}

fn authority_end(text: &[u8]) -> Option<usize>
    ensures first { result ≡ position is_authority_end text.now }
    ensures within { IfSome result (λ end. end < length text.now) }
{
    text.iter().position(|byte| is_authority_end(*byte))
}

fn is_authority_end(byte: u8) -> bool
    ensures test { result ≡ is_authority_end byte }
{
    byte == b'/' || byte == b'?' || byte == b'#'
}

fn first(text: &[u8], wanted: u8) -> Option<usize>
    ensures first { result ≡ position (λ byte. byte == wanted) text.now }
    ensures within { IfSome result (λ at. at < length text.now) }
{
    text.iter().position(|byte| *byte == wanted)
}

/// What the text of a target is with this query, to a server of these users.
#[tactic(auto, unfolding(crate::specs::Targets::target_of))]
pub fn target_of<'a>(accounts: &Accounts, text: &'a [u8], query: &'a [u8]) -> Target<'a>
    ensures target { target_seen result ≡ target_of accounts.now text.now query.now }
{
    if text == b"*".as_slice() {
        return Target::Server;
    }
    if text == b"/.well-known/webfinger".as_slice() {
        return Target::Discovery { query };
    }
    match after_prefix(b"/storage/", text) {
        Some(rest) => storage_of(accounts, rest),
        None => below_oauth(accounts, text, query),
    }
}

// The storage whose user's name the text begins with, up to a slash, and what follows.
fn storage_of<'a>(accounts: &Accounts, text: &'a [u8]) -> Target<'a>
    ensures target { target_seen result ≡ storage_of accounts.now text.now }
{
    let Some(slash) = first(text, b'/') else {
        return Target::Nothing;
    };
    match accounts.find(&text[..slash]) {
        Some(user) => Target::Storage {
            user,
            path: &text[slash..],
        },
        None => Target::Nothing,
    }
}

fn below_oauth<'a>(accounts: &Accounts, text: &[u8], query: &'a [u8]) -> Target<'a>
    ensures target { target_seen result ≡ below_oauth accounts.now text.now query.now }
{
    match after_prefix(b"/oauth/", text) {
        Some(name) => grant_of(accounts, name, query),
        None => Target::Nothing,
    }
}

fn grant_of<'a>(accounts: &Accounts, name: &[u8], query: &'a [u8]) -> Target<'a>
    ensures target { target_seen result ≡ grant_of accounts.now name.now query.now }
{
    match accounts.find(name) {
        Some(user) => Target::Grant { user, query },
        None => Target::Nothing,
    }
}

fn after_prefix<'a>(prefix: &[u8], text: &'a [u8]) -> Option<&'a [u8]>
    ensures after { option_map (λ rest. rest.now) result ≡ after_prefix prefix.now text.now }
{
    text.strip_prefix(prefix)
}
