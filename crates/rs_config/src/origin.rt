//! Addresses of servers.

ghost use Rattle.std.specs.Prelude.{◌≡◌, IfOk, Ok, codes, option_map};
ghost use Rattle.std.specs.Str.{bytes_eq};
ghost use Rattle.url.specs.Origin.{origin_of, ascii_serialization};
ghost use Rattle.rs_exchange.specs.Targets.{after_prefix, or_else};
ghost use Rattle.rs_config.specs.Origins.{is_origin, host_of, has_origin};

use rs_path::NoMemory;
use std::alloc::Global;
use url::{ParseError, Url};

/// Whether the word is an origin of `http` or `https` as `url` prints it: a scheme, `://`, a host, and a port where that isn't
/// the scheme's own (URL Standard, section 4.5).
pub fn is_origin(alloc: Global, word: &str) -> Result<bool, NoMemory>
    ensures origin { IfOk result (λ is. is ≡ is_origin word.now) }
{
    match Url::parse(alloc, word) {
        Ok(url) => has_origin(alloc, &url, word),
        Err(ParseError::OutOfMemory | ParseError::Overflow) => Err(NoMemory),
        Err(_) => Ok(false),
    }
}

fn has_origin(alloc: Global, url: &Url, word: &str) -> Result<bool, NoMemory>
    ensures origin { IfOk result (λ is. is ≡ has_origin (Ok url.now) word.now) }
{
    if url.scheme() != "http" && url.scheme() != "https" {
        return Ok(false);
    }
    prints_as(alloc, url, word)
}

// Whether the URL's origin is printed as the word.
fn prints_as(alloc: Global, url: &Url, word: &str) -> Result<bool, NoMemory>
    ensures printed { IfOk result (λ is. is ≡ bytes_eq (ascii_serialization (origin_of url.now)) word.now) }
{
    match url.origin() {
        Ok(origin) => Ok(origin.ascii_serialization(alloc)?.as_str() == word),
        Err(_) => Err(NoMemory),
    }
}

/// The host of an origin, with its port where it has one.
pub fn host_of(origin: &[u8]) -> &[u8]
    ensures host { result.now ≡ host_of origin.now }
{
    match behind_scheme(origin) {
        Some(host) => host,
        None => origin,
    }
}

fn behind_scheme(origin: &[u8]) -> Option<&[u8]>
    ensures host { option_map (λ host. host.now) result ≡ or_else (after_prefix (codes "http://") origin.now) (after_prefix (codes "https://") origin.now) }
{
    match behind(b"http://", origin) {
        Some(host) => Some(host),
        None => behind(b"https://", origin),
    }
}

fn behind<'a>(front: &[u8], text: &'a [u8]) -> Option<&'a [u8]>
    ensures rest { option_map (λ rest. rest.now) result ≡ after_prefix front.now text.now }
{
    text.strip_prefix(front)
}
