//! What stands at the first names of a path.

ghost use Rattle.std.specs.Prelude.{◌≡◌, ◌<◌, ◌≤◌, length, take, IfOk};
ghost use Rattle.rs_path.specs.Paths.{folder_at};
ghost use Rattle.rs_rules.specs.Clashes.{clash_at};

use rs_path::{Name, NoMemory, Path};

/// The folder with the first names of the path, fewer than all.
pub(crate) fn folder_front(path: &Path, count: u32) -> Result<Path, NoMemory>
    requires few { count < length path.now.names }
    ensures folder { IfOk result (λ folder. folder ≡ folder_at (take count path.now.names)) }
{
    let mut ancestors = path.ancestors()?;
    Ok(ancestors.remove(count as usize))
}

/// What a document at the path, which has these names, clashes with: by its number of names.
pub(crate) fn clash_at(path: &Path, names: &[Name], count: u32) -> Result<Path, NoMemory>
    requires names { names.now ≡ path.now.names }
    requires some { 0 < count }
    requires few { count ≤ length path.now.names }
    ensures clash { IfOk result (λ other. other ≡ clash_at path.now count) }
{
    let folder = folder_front(path, count - 1)?;
    folder.child(&names[count as usize - 1], count == path.depth())
}
