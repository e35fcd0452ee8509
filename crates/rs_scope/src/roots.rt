//! The folders that scopes reach.

ghost use Rattle.std.specs.Prelude.{◌≡◌, ◌≤◌, ◌∷◌, [], length, IfOk, OnOk, IsTrue, MatchOption, insert};
ghost use Rattle.std.specs.List.{list_any};
ghost use Rattle.rs_path.specs.Names.{is_name};
ghost use Rattle.rs_path.specs.Paths.{folder_at};
ghost use Rattle.rs_scope.specs.Reach.{module_folder, public_folder};
ghost use Rattle.rs_scope.specs.Modules.{is_module};
ghost use Rattle.rs_scope.specs.Roots.{is_star, with_root, with_reach, with_modules, roots_of};

use crate::module::{Module, PUBLIC};
use crate::scope::{Reach, Scope};
use rs_path::{Name, NoMemory, Path, PathFault};
use std::alloc::Global;
use std::cmp::Ordering;

/// The roots of these scopes.
pub(crate) fn roots_at(alloc: Global, scopes: &[Scope]) -> Result<Vec<Path>, NoMemory>
    ensures roots { IfOk result (λ roots. roots.items ≡ roots_of scopes.now) }
{
    if has_star(scopes) {
        return all_roots(alloc);
    }
    module_roots(alloc, scopes)
}

fn has_star(scopes: &[Scope]) -> bool
    ensures { result ≡ list_any is_star scopes.now }
{
    scopes
        .iter()
        .any(|scope| matches!(scope.reach, Reach::Star))
}

// The folder `/` alone.
fn all_roots(alloc: Global) -> Result<Vec<Path>, NoMemory>
    ensures { IfOk result (λ roots. roots.items ≡ folder_at [] ∷ []) }
{
    let mut roots = Vec::new(alloc);
    roots.push(root(alloc)?)?;
    Ok(roots)
}

// The folders of each scope's module.
fn module_roots(alloc: Global, scopes: &[Scope]) -> Result<Vec<Path>, NoMemory>
    ensures { IfOk result (λ roots. roots.items ≡ with_modules [] scopes.now) }
{
    let mut roots = Vec::new(alloc);
    for scope in scopes {
        push_reach(alloc, &mut roots, &scope.reach)?;
    }
    Ok(roots)
}

// The folder `/`.
fn root(alloc: Global) -> Result<Path, NoMemory>
    ensures { IfOk result (λ path. path ≡ folder_at []) }
{
    match Path::read_plain(alloc, b"/") {
        Ok(path) => Ok(path),
        Err(_) => Err(NoMemory),
    }
}

// Puts the folders of a module among the roots.
fn push_reach(alloc: Global, roots: &mut Vec<Path>, reach: &Reach) -> Result<(), NoMemory>
    ensures { OnOk result (roots.new.items ≡ with_reach roots.old.items reach.now) }
{
    match reach {
        Reach::Module(module) => {
            push_root(roots, module_folder(alloc, module)?)?;
            push_root(roots, public_folder(alloc, module)?)
        }
        Reach::Star => Ok(()),
    }
}

// The folder `/MODULE/`.
fn module_folder(alloc: Global, name: &Module) -> Result<Path, NoMemory>
    ensures { IfOk result (λ path. path ≡ module_folder name.now) }
{
    root(alloc)?.child(&name_of(alloc, name.as_slice())?, true)
}

// The folder `/public/MODULE/`.
fn public_folder(alloc: Global, name: &Module) -> Result<Path, NoMemory>
    ensures { IfOk result (λ path. path ≡ public_folder name.now) }
{
    let public = root(alloc)?.child(&name_of(alloc, PUBLIC)?, true)?;
    public.child(&name_of(alloc, name.as_slice())?, true)
}

fn name_of(alloc: Global, text: &[u8]) -> Result<Name, NoMemory>
    requires { IsTrue (is_name text.now) }
    ensures { IfOk result (λ name. name ≡ text.now) }
{
    match Name::read(alloc, text)? {
        Some(name) => Ok(name),
        None => Err(NoMemory),
    }
}

// Puts a folder in its place among the ascending roots, unless it is there.
fn push_root(roots: &mut Vec<Path>, root: Path) -> Result<(), NoMemory>
    ensures { OnOk result (roots.new.items ≡ with_root root roots.old.items) }
{
    let Some(place) = place_of(roots.as_slice(), &root) else {
        return Ok(());
    };
    roots.insert(place, root)?;
    Ok(())
}

// Where the folder belongs among the ascending roots, or None where it is there.
fn place_of(roots: &[Path], root: &Path) -> Option<usize>
    ensures { MatchOption result (with_root root.now roots.now ≡ roots.now)
        (λ place. (place ≤ length roots.now) × (with_root root.now roots.now ≡ insert roots.now place root.now)) }
{
    for (i, other) in roots.iter().enumerate() {
        match root.cmp(other) {
            Ordering::Less => return Some(i),
            Ordering::Equal => return None,
            Ordering::Greater => {}
        }
    }
    Some(roots.len())
}
