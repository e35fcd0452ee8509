//! What scopes reach.

ghost use Rattle.std.specs.Prelude.{◌≡◌, [], ◌∷◌};
ghost use Rattle.std.specs.List.{list_any};
ghost use Rattle.rs_scope.specs.Reach.{is_within, module_folder, public_folder, is_public_item, covers, allows, reach_of, is_free_read};

use crate::method::Method;
use crate::module::PUBLIC;
use crate::scope::{Reach, Scope};
use crate::scopes::Scopes;
use rs_path::{Name, Path};

/// Whether the scopes allow the method on the path: some scope covers the path, and allows writing where the
/// method writes.
///
/// A module's scope covers `/MODULE/`, `/public/MODULE/` and all below them, a star's all there is
/// (draft-dejong-remotestorage, section 9). It takes no memory.
pub fn reaches(scopes: &Scopes, method: Method, path: &Path) -> bool
    ensures reach { result ≡ reach_of scopes.now method path.now }
{
    scopes
        .as_slice()
        .iter()
        .any(|scope| allows(scope, method, path))
}

/// Whether the method on the path needs no token: Get or Head of a document whose first name is `public` and which
/// has at least two names (draft-dejong-remotestorage, section 9). It takes no memory.
pub fn free_read(method: Method, path: &Path) -> bool
    ensures free { result ≡ is_free_read method path.now }
{
    method.is_reading() && !path.is_folder() && is_public_item(path.names())
}

fn is_public_item(names: &[Name]) -> bool
    ensures { result ≡ is_public_item names.now }
{
    match names {
        [first, _, ..] => first.as_slice() == PUBLIC,
        _ => false,
    }
}

fn allows(scope: &Scope, method: Method, path: &Path) -> bool
    ensures { result ≡ allows scope.now method path.now }
{
    (scope.write || method.is_reading()) && covers(&scope.reach, path)
}

fn covers(reach: &Reach, path: &Path) -> bool
    ensures { result ≡ covers reach.now path.now }
{
    match reach {
        Reach::Module(module) => {
            is_within_module(module.as_slice(), path.names(), path.is_folder())
                || is_within_public(module.as_slice(), path.names(), path.is_folder())
        }
        Reach::Star => true,
    }
}

// Whether the first name is this one, and either others follow or it is a folder's.
fn is_within_module(name: &[u8], names: &[Name], folder: bool) -> bool
    ensures { result ≡ is_within (module_folder name.now) (record { names = names.now; folder = folder }) }
{
    match names {
        [first, rest @ ..] => first.as_slice() == name && (folder || !rest.is_empty()),
        [] => false,
    }
}

// The same of what follows the name `public`.
fn is_within_public(name: &[u8], names: &[Name], folder: bool) -> bool
    ensures { result ≡ is_within (public_folder name.now) (record { names = names.now; folder = folder }) }
{
    match names {
        [first, rest @ ..] => first.as_slice() == PUBLIC && is_within_module(name, rest, folder),
        [] => false,
    }
}
