//! The way down from the root.

ghost use Rattle.std.specs.Prelude.{◌≡◌, ◌+◌, ◌<◌, ◌≤◌, ◌||◌, not, length, drop, Some, None, IsTrue, IfSome};
ghost use Rattle.slab.specs.Slab.{ContainsKey};
ghost use Rattle.rs_path.specs.Paths.{is_path, is_nil};
ghost use Rattle.rs_chain.specs.Walks.{way, steps_of, child_in, step_at, front_at, key_at, AreListed};

use crate::node::Node;
use crate::place::child_in;
use rs_path::Path;
use slab::Slab;

/// The key of the path's node. It takes no memory.
pub(crate) fn key_at(nodes: &Slab<Node>, root: usize, path: &Path) -> Option<usize>
    requires listed { AreListed nodes.now root }
    ensures key { result ≡ key_at nodes.now root path.now }
    ensures there { IfSome result (λ key. ContainsKey nodes.now key) }
    ensures path { IsTrue (is_path path.now) }
{
    let found = deepest(nodes, root, path);
    if found.depth == path.names().len() {
        Some(found.key)
    } else {
        None
    }
}

/// A node on the way to a path.
#[derive(Clone, Copy)]
pub(crate) struct Found {
    /// Its key.
    pub(crate) key: usize,
    /// How many names of the path lead to it.
    pub(crate) depth: usize,
}

/// The deepest node on the way to the path.
pub(crate) fn deepest(nodes: &Slab<Node>, root: usize, path: &Path) -> Found
    requires listed { AreListed nodes.now root }
    ensures depth { result.depth ≤ length path.now.names }
    ensures front { key_at nodes.now root (front_at path.now result.depth) ≡ Some result.key }
    ensures there { ContainsKey nodes.now result.key }
    ensures rest { key_at nodes.now root path.now ≡ way (child_in nodes.now) result.key (steps_of (drop result.depth path.now.names) path.now.folder) }
    ensures stop { result.depth < length path.now.names → child_in nodes.now result.key (step_at path.now result.depth) ≡ None }
{
    let names = path.names();
    let mut key = root;
    for depth in 0..names.len() {
        match child_in(nodes, key, &names[depth], leads_on(path, depth)) {
            None => return Found { key, depth },
            Some(child) => key = child,
        }
    }
    Found {
        key,
        depth: names.len(),
    }
}

/// Whether the step of this number is to a folder: one with names behind it is, and the last of a folder's path.
pub(crate) fn leads_on(path: &Path, depth: usize) -> bool
    requires within { depth < length path.now.names }
    ensures on { result ≡ (path.now.folder || not (is_nil (drop (depth + 1) path.now.names))) }
{
    let names = path.names();
    path.is_folder() || depth + 1 < names.len()
}
