//! Scopes: what an application was granted.

ghost use Rattle.std.specs.Prelude.{◌≡◌, ◌++◌, ◌∷◌, ◌≤◌, length, Ok, IfOk, OnOk, OnErr, IsTrue};
ghost use Rattle.std.specs.List.{flat_map};
ghost use Rattle.rs_scope.specs.Limits.{max_scopes};
ghost use Rattle.rs_scope.specs.Scopes.{is_scopes, scope_text, scopes_text};
ghost use Rattle.rs_scope.specs.ScopeReadings.{scopes_reading, ReadsAsScopes};
ghost use Rattle.rs_scope.specs.Roots.{roots_of};

use crate::reading::read_scopes;
use crate::roots::roots_at;
use crate::scope::{Reach, Scope};
use crate::scope_fault::ScopeFault;
use rs_path::{NoMemory, Path};
use std::alloc::Global;
use std::marker::Model;

/// What an application asks for or was granted: one scope or more, with a text of at most 1,024 bytes.
///
/// The scope of a token (RFC 6749, section 3.3; draft-dejong-remotestorage, section 9). A contract sees it as the
/// list of its scopes.
#[derive(Debug, Drop)]
pub struct Scopes {
    list: Vec<Scope>,
}

impl Model for Scopes {
    ghost use Rattle.std.specs.Prelude.{List};
    ghost use Rattle.rs_scope.specs.declared.scope.Scope.{Scope};

    ghost Value = { List Scope };

    ghost use Rattle.std.specs.Prelude.{IsTrue};
    ghost use Rattle.rs_scope.specs.Scopes.{is_scopes};

    ghost view = { λ s. s.list.items };

    ghost invariant = { λ s. IsTrue (is_scopes s.list.items) };
}

impl Scopes {
    /// The scopes of a text: items `MODULE:r`, `MODULE:rw`, `*:r` and `*:rw` parted by spaces.
    ///
    /// Spaces may also stand before the first item and after the last. A text of more than 1,024 bytes is refused at
    /// 1,024, one without an item at 0, any other at the first byte of its first wrong item.
    pub fn read(alloc: Global, text: &[u8]) -> Result<Scopes, ScopeFault>
        ensures read { ReadsAsScopes result (scopes_reading text.now) }
    {
        Ok(Scopes {
            list: read_scopes(alloc, text)?,
        })
    }

    /// The scopes, in their order.
    pub fn as_slice(&self) -> &[Scope]
        ensures scopes { result.now ≡ self.now }
        ensures lawful { IsTrue (is_scopes self.now) }
        ensures short { length (scopes_text self.now) ≤ max_scopes }
    {
        self.list.as_slice()
    }

    /// Appends the text of the scopes: the items in their order, joined by one space.
    pub fn write(&self, out: &mut Vec<u8>) -> Result<(), NoMemory>
        ensures ok { OnOk result (out.new.items ≡ out.old.items ++ scopes_text self.now) }
        ensures err { OnErr result (out.new.items ≡ out.old.items) }
        ensures back { scopes_reading (scopes_text self.now) ≡ Ok self.now }
        ensures short { length (scopes_text self.now) ≤ max_scopes }
    {
        let text = text_of(self.list.as_slice(), *self.list.allocator())?;
        out.extend_from_slice(text.as_slice())?;
        Ok(())
    }

    /// The folders that the scopes reach, without those below them: `/` alone where there is a star, else
    /// `/MODULE/` and `/public/MODULE/` of each module, each once, in byte order.
    pub fn roots(&self) -> Result<Vec<Path>, NoMemory>
        ensures roots { IfOk result (λ roots. roots.items ≡ roots_of self.now) }
    {
        roots_at(*self.list.allocator(), self.list.as_slice())
    }

    /// Equal scopes, from the same allocator.
    pub fn copy(&self) -> Result<Scopes, NoMemory>
        ensures same { IfOk result (λ copied. copied ≡ self.now) }
    {
        Ok(Scopes {
            list: copy_of(self.list.as_slice(), *self.list.allocator())?,
        })
    }
}

impl PartialEq for Scopes {
    ghost use Rattle.std.specs.Cmp.{partial_equiv_from_equiv};
    ghost use Rattle.rs_scope.specs.SameScopes.{same_scopes, same_scopes_equiv};

    ghost eq = { same_scopes };

    ghost laws = { partial_equiv_from_equiv same_scopes_equiv };

    fn eq(&self, other: &Scopes) -> bool {
        self.list.as_slice() == other.list.as_slice()
    }
}

impl Eq for Scopes {
    ghost use Rattle.rs_scope.specs.SameScopes.{same_scopes_equiv};

    ghost laws = { same_scopes_equiv };
}

fn copy_of(scopes: &[Scope], alloc: Global) -> Result<Vec<Scope>, NoMemory>
    ensures { IfOk result (λ copied. copied.items ≡ scopes.now) }
{
    let mut copied = Vec::with_capacity(alloc, scopes.len())?;
    for scope in scopes {
        copied.push(scope.copy()?)?;
    }
    Ok(copied)
}

fn text_of(scopes: &[Scope], alloc: Global) -> Result<Vec<u8>, NoMemory>
    ensures { IfOk result (λ text. text.items ≡ scopes_text scopes.now) }
{
    let mut text = Vec::new(alloc);
    let [first, rest @ ..] = scopes else {
        return Ok(text);
    };
    push_scope(first, &mut text)?;
    push_others(rest, &mut text)?;
    Ok(text)
}

// Appends each scope behind a space.
fn push_others(scopes: &[Scope], out: &mut Vec<u8>) -> Result<(), NoMemory>
    ensures { OnOk result (out.new.items ≡ out.old.items ++ flat_map (λ scope. 32 ∷ scope_text scope) scopes.now) }
{
    for scope in scopes {
        out.push(b' ')?;
        push_scope(scope, out)?;
    }
    Ok(())
}

fn push_scope(scope: &Scope, out: &mut Vec<u8>) -> Result<(), NoMemory>
    ensures { OnOk result (out.new.items ≡ out.old.items ++ scope_text scope.now) }
{
    match &scope.reach {
        Reach::Module(module) => out.extend_from_slice(module.as_slice())?,
        Reach::Star => out.push(b'*')?,
    }
    if scope.write {
        out.extend_from_slice(b":rw")?;
    } else {
        out.extend_from_slice(b":r")?;
    }
    Ok(())
}
