//! The root of an account.

ghost use Rattle.std.specs.Prelude.{◌≡◌, ◌≤◌, true, length, None, Ok, IfOk};
ghost use Rattle.std.specs.Cmp.{partial_equiv_from_equiv};
ghost use Rattle.url.specs.Input.{is_empty};
ghost use Rattle.url.specs.Parser.{parse_url};
ghost use Rattle.rs_talk.specs.Roots.{root_text, root_reading, root_of, root_at, fault_of_url, root_in, is_root_address, without_slashes, same_root, same_root_equiv, IsRoot, ReadsAsRoot};

use crate::limits::MAX_ROOT;
use crate::root_fault::RootFault;
use rs_path::NoMemory;
use std::alloc::Global;
use std::marker::Model;
use url::{ParseError, Url};

/// The root of an account: the `http` address below which its documents are.
///
/// A contract sees it as its authority and its path without the slashes at its end.
#[derive(Debug, Drop)]
pub struct Root {
    authority: Vec<u8>,
    path: Vec<u8>,
    text: Vec<u8>,
}

impl Model for Root {
    ghost use Rattle.std.specs.Prelude.{◌≡◌};
    ghost use Rattle.rs_talk.specs.Roots.{Root, root_text, IsRoot};

    ghost Value = { Root };

    ghost view = { λ r. record { authority = r.authority.items; path = r.path.items } };

    ghost invariant = { λ r. record {
      root : IsRoot (record { authority = r.authority.items; path = r.path.items });
      text : r.text.items ≡ root_text (record { authority = r.authority.items; path = r.path.items });
    } };
}

impl Root {
    /// The root that a text names, as `url` reads it.
    ///
    /// An `https` address is `Https`. A text that `url` refuses, another scheme, an address with a user name, a
    /// password, a query or a fragment, be it empty, and one of more than 1,024 bytes as it is printed, is `BadUrl`.
    #[tactic(auto, using(crate::proofs::RootLemmas::utf8_read, crate::proofs::RootLemmas::utf8_not))]
    pub fn read(alloc: Global, text: &[u8]) -> Result<Root, RootFault>
        ensures read { ReadsAsRoot result (root_reading text.now) }
    {
        match std::str::from_utf8(text) {
            Ok(text) => root_of(alloc, text),
            Err(_) => Err(RootFault::BadUrl),
        }
    }

    /// The host and the port, as they stand in the address.
    pub fn host(&self) -> &[u8]
        ensures authority { result.now ≡ self.now.authority }
    {
        self.authority.as_slice()
    }

    /// The path, without the slashes at its end.
    pub fn path(&self) -> &[u8]
        ensures path { result.now ≡ self.now.path }
    {
        self.path.as_slice()
    }

    /// The address, without a slash at its end: at most 1,024 bytes. It is read back as this root.
    #[tactic(auto, using(crate::proofs::RootLemmas::short_root, crate::proofs::ReadBackLemmas::reads_back))]
    pub fn as_slice(&self) -> &[u8]
        ensures text { result.now ≡ root_text self.now }
        ensures back { root_reading (root_text self.now) ≡ Ok self.now }
        ensures root { IsRoot self.now }
        ensures short { length (root_text self.now) ≤ 1024 }
    {
        self.text.as_slice()
    }

    /// An equal root, from the same allocators.
    pub fn copy(&self) -> Result<Root, NoMemory>
        ensures same { IfOk result (λ copied. copied ≡ self.now) }
    {
        Ok(Root {
            authority: self.authority.clone()?,
            path: self.path.clone()?,
            text: self.text.clone()?,
        })
    }
}

impl PartialEq for Root {
    ghost eq = { same_root };

    ghost laws = { partial_equiv_from_equiv same_root_equiv };

    fn eq(&self, other: &Root) -> bool {
        self.authority.as_slice() == other.authority.as_slice()
            && self.path.as_slice() == other.path.as_slice()
    }
}

impl Eq for Root {
    ghost laws = { same_root_equiv };
}

// The root that a text names.
#[tactic(auto, using(crate::proofs::RootLemmas::refused_by))]
fn root_of(alloc: Global, text: &str) -> Result<Root, RootFault>
    ensures read { ReadsAsRoot result (root_of (parse_url None text.now)) }
{
    match Url::parse(alloc, text) {
        Ok(url) => root_at(alloc, &url),
        Err(fault) => Err(fault_of_url(fault)),
    }
}

fn fault_of_url(fault: ParseError) -> RootFault
    ensures fault { result ≡ fault_of_url fault }
{
    match fault {
        ParseError::OutOfMemory | ParseError::Overflow => RootFault::NoMemory,
        _ => RootFault::BadUrl,
    }
}

// The root at an address.
fn root_at(alloc: Global, url: &Url) -> Result<Root, RootFault>
    ensures { ReadsAsRoot result (root_at url.now) }
{
    if url.scheme() == "https" {
        return Err(RootFault::Https);
    }
    if !is_root_address(url) {
        return Err(RootFault::BadUrl);
    }
    Ok(root_in(alloc, url)?)
}

fn is_root_address(url: &Url) -> bool
    ensures { result ≡ is_root_address url.now }
{
    url.scheme() == "http"
        && url.has_authority()
        && url.username().is_empty()
        && has_no_password(url)
        && url.query().is_none()
        && url.fragment().is_none()
        && url.as_str().len() <= MAX_ROOT
}

fn has_no_password(url: &Url) -> bool
    ensures { result ≡ is_empty url.now.password }
{
    url.password().is_none()
}

// The root at an address that is one.
fn root_in(alloc: Global, url: &Url) -> Result<Root, NoMemory>
    requires { is_root_address url.now ≡ true }
    ensures { IfOk result (λ root. root ≡ root_in url.now) }
{
    let authority = Vec::from_slice(alloc, url.authority().as_bytes())?;
    let path = Vec::from_slice(alloc, without_slashes(url.path().as_bytes()))?;
    let mut text = Vec::from_slice(alloc, b"http://")?;
    text.extend_from_slice(authority.as_slice())?;
    text.extend_from_slice(path.as_slice())?;
    Ok(Root {
        authority,
        path,
        text,
    })
}

#[tactic(auto, using(crate::proofs::RootLemmas::bare_slash, crate::proofs::RootLemmas::bare_other, crate::proofs::RootLemmas::bare_none))]
fn without_slashes(path: &[u8]) -> &[u8]
    ensures bare { result.now ≡ without_slashes path.now }
{
    let Some((last, front)) = path.split_last() else {
        return path;
    };
    if *last != b'/' {
        return path;
    }
    without_slashes(front)
}
