//! Steps down from a folder.

ghost use Rattle.std.specs.Prelude.{◌≡◌, [], option_map};
ghost use Rattle.rs_path.specs.Paths.{folder_at};
ghost use Rattle.rs_path.specs.Children.{child_from, child_towards};
ghost use Rattle.rs_plain.specs.Steps.{as_child};

use rs_path::{Name, Path};

/// The step from the folder with these names towards the path: a name, and whether it is a folder's.
pub(crate) fn step_towards<'a>(names: &[Name], path: &'a Path) -> Option<(&'a Name, bool)>
    ensures step { option_map as_child result ≡ child_towards (folder_at names.now) path.now }
{
    step_from(names, path.names(), path.is_folder())
}

fn step_from<'a>(outer: &[Name], inner: &'a [Name], folder: bool) -> Option<(&'a Name, bool)>
    ensures step { option_map as_child result ≡ child_from outer.now inner.now folder }
{
    match outer {
        [] => last_step(inner, folder),
        [first, outer @ ..] => match inner {
            [] => None,
            [second, inner @ ..] => {
                if first == second {
                    step_from(outer, inner, folder)
                } else {
                    None
                }
            }
        },
    }
}

fn last_step<'a>(inner: &'a [Name], folder: bool) -> Option<(&'a Name, bool)>
    ensures step { option_map as_child result ≡ child_from [] inner.now folder }
{
    match inner {
        [] => None,
        [name] => Some((name, folder)),
        [name, _next, _rest @ ..] => Some((name, true)),
    }
}
