//! What a document clashes with.

ghost use Rattle.std.specs.Prelude.{◌≡◌, ◌+◌, ◌<◌, ◌&&◌, not, true, false, map, List, [], length, drop, get_or, is_some};
ghost use Rattle.slab.specs.Slab.{ContainsKey};
ghost use Rattle.rs_path.specs.Paths.{is_nil};
ghost use Rattle.rs_rules.specs.Laws.{is_sorted};
ghost use Rattle.rs_rules.specs.Contents.{Contents};
ghost use Rattle.rs_rules.specs.Clashes.{clash_in};
ghost use Rattle.rs_rules.specs.Sound.{are_documents};
ghost use Rattle.rs_chain.specs.Nodes.{node_child, node_kids};
ghost use Rattle.rs_chain.specs.Walks.{child_in, AreListed};
ghost use Rattle.rs_chain.specs.Shown.{NodesShow};

use crate::node::{Node, has_kids};
use crate::place::child_in;
use rs_path::{Name, Path, child_laws};
use rs_rules::listing_laws;
use slab::Slab;

/// The number of names of what a document at the path clashes with. It takes no memory.
pub(crate) fn clash_in(nodes: &Slab<Node>, root: usize, path: &Path) -> Option<u32>
    requires listed { AreListed nodes.now root }
    ensures clash { (w : Contents) → NodesShow nodes.now root w → are_documents w.docs ≡ true → result ≡ clash_in w.docs path.now }
{
    listing_laws();
    child_laws();
    let names = path.names();
    let mut key = root;
    for depth in 0..names.len() {
        if is_document(nodes, key, names, depth) {
            return Some(depth as u32 + 1);
        }
        match child_in(nodes, key, &names[depth], true) {
            None => return None,
            Some(child) => key = child,
        }
    }
    if has_kids(nodes, key) {
        Some(path.depth())
    } else {
        None
    }
}

// Whether a document that the path would be below is the folder's child of this name.
fn is_document(nodes: &Slab<Node>, folder: usize, names: &[Name], depth: usize) -> bool
    requires there { ContainsKey nodes.now folder }
    requires sorted { is_sorted (map (node_child nodes.now) (node_kids nodes.now folder)) ≡ true }
    requires within { depth < length names.now }
    ensures document { result ≡ (not (is_nil (drop (depth + 1) names.now))
        && is_some (child_in nodes.now folder (record { name = get_or names.now depth []; folder = false }))) }
{
    depth + 1 < names.len() && child_in(nodes, folder, &names[depth], false).is_some()
}
