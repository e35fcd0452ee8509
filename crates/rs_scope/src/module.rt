//! Names of modules.

ghost use Rattle.std.specs.Prelude.{◌≡◌, ◌<◌, ◌≤◌, length, Some, None, IfOk, IsTrue, if◌then◌else◌};
ghost use Rattle.std.specs.Cmp.{partial_equiv_from_equiv};
ghost use Rattle.std.specs.List.{list_all};
ghost use Rattle.std.specs.Str.{bytes_eq};
ghost use Rattle.std.proofs.lemmas.Cmp.{nat_list_eq_equiv};
ghost use Rattle.rs_path.specs.Names.{is_dots};
ghost use Rattle.rs_scope.specs.Modules.{is_module, is_module_byte, public_name};

use crate::limits::MAX_MODULE;
use rs_path::NoMemory;
use std::alloc::Global;
use std::marker::Model;

/// The name of the folder of public documents, which is no module's.
pub const PUBLIC: &[u8] = b"public";

/// The name of a module: 1 to 64 bytes of `a` to `z`, digits, `-`, `_` and `.`, and neither `public`, `.` nor `..`.
///
/// Module names of draft-dejong-remotestorage, section 9, with a limit. A contract sees it as its bytes.
#[derive(Debug, Drop)]
pub struct Module {
    text: Vec<u8>,
}

impl Model for Module {
    ghost use Rattle.std.specs.Prelude.{List, ℕ, IsTrue};
    ghost use Rattle.rs_scope.specs.Modules.{is_module};

    ghost Value = { List ℕ };

    ghost view = { λ m. m.text.items };

    ghost invariant = { λ m. IsTrue (is_module m.text.items) };
}

impl Module {
    /// The module with this name, or None where the text is no module's name.
    pub fn read(alloc: Global, text: &[u8]) -> Result<Option<Module>, NoMemory>
        ensures read { IfOk result (λ name. name ≡ (if is_module text.now then Some text.now else None)) }
    {
        if !is_module(text) {
            return Ok(None);
        }
        Ok(Some(Module {
            text: Vec::from_slice(alloc, text)?,
        }))
    }

    /// The name's bytes.
    pub fn as_slice(&self) -> &[u8]
        ensures bytes { result.now ≡ self.now }
        ensures module { IsTrue (is_module self.now) }
        ensures some { 0 < length self.now }
        ensures short { length self.now ≤ 64 }
    {
        self.text.as_slice()
    }

    /// An equal name, from the same allocator.
    pub fn copy(&self) -> Result<Module, NoMemory>
        ensures same { IfOk result (λ copied. copied ≡ self.now) }
    {
        Ok(Module {
            text: self.text.clone()?,
        })
    }
}

impl PartialEq for Module {
    ghost eq = { bytes_eq };

    ghost laws = { partial_equiv_from_equiv nat_list_eq_equiv };

    fn eq(&self, other: &Module) -> bool {
        self.as_slice() == other.as_slice()
    }
}

impl Eq for Module {
    ghost laws = { nat_list_eq_equiv };
}

fn is_module(text: &[u8]) -> bool
    ensures { result ≡ is_module text.now }
{
    !text.is_empty()
        && text.len() <= MAX_MODULE
        && has_module_bytes(text)
        && !is_dots(text)
        && text != PUBLIC
}

fn has_module_bytes(text: &[u8]) -> bool
    ensures { result ≡ list_all is_module_byte text.now }
{
    text.iter().all(|byte| matches!(*byte, b'a'..=b'z' | b'0'..=b'9' | b'-' | b'_' | b'.'))
}

fn is_dots(text: &[u8]) -> bool
    ensures { result ≡ is_dots text.now }
{
    matches!(text, b"." | b"..")
}
