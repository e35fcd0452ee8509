//! Names of documents and folders.

ghost use Rattle.std.specs.Prelude.{◌≡◌, ◌<◌, ◌≤◌, ◌++◌, length, Some, None, IfOk, OnOk, OnErr, IsTrue, IsUtf8, if◌then◌else◌};
ghost use Rattle.std.specs.Cmp.{partial_equiv_from_equiv};
ghost use Rattle.std.proofs.lemmas.Cmp.{nat_list_eq_equiv};
ghost use Rattle.std.specs.Str.{bytes_eq, is_utf8};
ghost use Rattle.rs_path.specs.Names.{is_name, is_dots, has_no_separator};
ghost use Rattle.rs_path.specs.Targets.{escaped};

use crate::limits::MAX_NAME;
use crate::no_memory::NoMemory;
use crate::target::escaped_name;
use std::alloc::Global;
use std::marker::Model;

/// One name of a path: 1 to 255 bytes of UTF-8 without `/` and NUL, and neither `.` nor `..`.
///
/// Item names of draft-dejong-remotestorage, section 4, with a limit on their length. A contract sees a name as its bytes.
#[derive(Debug, Drop)]
pub struct Name {
    text: Vec<u8>,
}

impl Model for Name {
    ghost use Rattle.std.specs.Prelude.{List, ℕ, IsTrue};
    ghost use Rattle.rs_path.specs.Names.{is_name};

    ghost Value = { List ℕ };

    ghost view = { λ n. n.text.items };

    ghost invariant = { λ n. IsTrue (is_name n.text.items) };
}

impl Name {
    /// The name with these bytes, or None where they are no name.
    pub fn read(alloc: Global, text: &[u8]) -> Result<Option<Name>, NoMemory>
        ensures read { IfOk result (λ name. name ≡ (if is_name text.now then Some text.now else None)) }
    {
        if !is_name(text) {
            return Ok(None);
        }
        Ok(Some(Name {
            text: Vec::from_slice(alloc, text)?,
        }))
    }

    // The name of bytes that are one.
    pub(crate) fn of(text: Vec<u8>) -> Name
        requires { IsTrue (is_name text.items) }
        ensures bytes { result ≡ text.items }
    {
        Name { text }
    }

    /// The name's bytes.
    pub fn as_slice(&self) -> &[u8]
        ensures bytes { result.now ≡ self.now }
        ensures name { IsTrue (is_name self.now) }
        ensures some { 0 < length self.now }
        ensures short { length self.now ≤ 255 }
        ensures text { IsUtf8 self.now }
    {
        self.text.as_slice()
    }

    /// Appends the name as it stands in the target of a request: every byte but letters, digits, `-`, `.`, `_` and `~` is escaped
    /// (RFC 3986, section 2.1). After an error `out` is as before.
    pub fn write_target(&self, out: &mut Vec<u8>) -> Result<(), NoMemory>
        ensures ok { OnOk result (out.new.items ≡ out.old.items ++ escaped self.now) }
        ensures err { OnErr result (out.new.items ≡ out.old.items) }
    {
        let text = escaped_name(*out.allocator(), self)?;
        out.extend_from_slice(text.as_bytes())?;
        Ok(())
    }

    /// An equal name, from the same allocator.
    pub fn copy(&self) -> Result<Name, NoMemory>
        ensures same { IfOk result (λ copied. copied ≡ self.now) }
        ensures name { IsTrue (is_name self.now) }
    {
        Ok(Name {
            text: self.text.clone()?,
        })
    }
}

impl PartialEq for Name {
    ghost eq = { bytes_eq };

    ghost laws = { partial_equiv_from_equiv nat_list_eq_equiv };

    fn eq(&self, other: &Name) -> bool {
        self.as_slice() == other.as_slice()
    }
}

impl Eq for Name {
    ghost laws = { nat_list_eq_equiv };
}

fn is_name(text: &[u8]) -> bool
    ensures { result ≡ is_name text.now }
{
    !text.is_empty()
        && text.len() <= MAX_NAME
        && has_no_separator(text)
        && !is_dots(text)
        && is_utf8(text)
}

pub(crate) fn is_utf8(text: &[u8]) -> bool
    ensures { result ≡ is_utf8 text.now }
{
    std::str::from_utf8(text).is_ok()
}

fn has_no_separator(text: &[u8]) -> bool
    ensures { result ≡ has_no_separator text.now }
{
    text.iter().all(|byte| *byte != b'/' && *byte != 0)
}

pub(crate) fn is_dots(text: &[u8]) -> bool
    ensures { result ≡ is_dots text.now }
{
    matches!(text, b"." | b"..")
}
