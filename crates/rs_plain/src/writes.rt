//! Lists of writes, in the order of their numbers.

ghost use Rattle.std.specs.Prelude.{◌≡◌, ◌∷◌, ◌++◌, [], ◌<◌, ◌≤◌, true, vec_len, vec_capacity, position};
ghost use Rattle.rs_path.specs.Paths.{folder_at, same_path};
ghost use Rattle.rs_plain.specs.declared.write.Write.{Write as WriteValue};
ghost use Rattle.rs_plain.specs.PlainTrees.{last_write, is_written, other_writes};

use crate::names::is_inside;
use crate::write::Write;
use rs_path::{Name, Path};

/// The number of the last write below the folder with these names, or 0.
pub(crate) fn last_write(names: &[Name], writes: &[Write]) -> u64
    ensures last { result ≡ last_write (folder_at names.now) writes.now }
{
    let mut last = 0;
    for write in writes {
        if is_inside(names, write.path.names()) {
            last = write.number;
        }
    }
    last
}

/// Whether the path was written.
pub(crate) fn is_written(writes: &[Write], path: &Path) -> bool
    ensures written { result ≡ is_written writes.now path.now }
{
    writes.iter().any(|write| *path == write.path)
}

/// Drops the write of the path.
pub(crate) fn forget(writes: &mut Vec<Write>, path: &Path)
    ensures items { writes.new.items ≡ other_writes path.now writes.old.items }
    ensures len { vec_len writes.new ≤ vec_len writes.old }
    ensures capacity { vec_capacity writes.new ≡ vec_capacity writes.old }
{
    writes.retain(|write| *path != write.path);
}

/// Gives the path's last write the number, and its place behind the others.
pub(crate) fn renumber(writes: &mut Vec<Write>, number: u64, path: &Path)
    requires written { is_written writes.old.items path.now ≡ true }
    requires whole { vec_len writes.old ≤ vec_capacity writes.old }
    ensures items { writes.new.items ≡ other_writes path.now writes.old.items ++ record { path = path.now; number = number } ∷ [] }
    ensures whole { vec_len writes.new ≤ vec_capacity writes.new }
{
    let index = place_of(writes.as_slice(), path).unwrap();
    let write = writes.remove(index);
    forget(writes, path);
    add(
        writes,
        Write {
            path: write.path,
            number,
        },
    );
}

fn place_of(writes: &[Write], path: &Path) -> Option<usize>
    ensures place { result ≡ position (λ (write : WriteValue). same_path path.now write.path) writes.now }
{
    writes.iter().position(|write| *path == write.path)
}

/// Appends an item where there is room for it.
pub(crate) fn add<T: Drop>(items: &mut Vec<T>, item: T)
    requires room { vec_len items.old < vec_capacity items.old }
    ensures items { items.new.items ≡ items.old.items ++ item ∷ [] }
    ensures whole { vec_len items.new ≤ vec_capacity items.new }
{
    let added = items.push(item);
    prove!(added.is_ok());
}
