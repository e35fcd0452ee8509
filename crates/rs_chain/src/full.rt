//! Folders at their limit.

ghost use Rattle.std.specs.Prelude.{◌≡◌, true, length};
ghost use Rattle.slab.specs.Slab.{ContainsKey};
ghost use Rattle.rs_rules.specs.Contents.{Contents};
ghost use Rattle.rs_rules.specs.Clashes.{full_in};
ghost use Rattle.rs_rules.specs.Sound.{are_documents};
ghost use Rattle.rs_chain.specs.Walks.{AreListed};
ghost use Rattle.rs_chain.specs.Shown.{NodesShow};
ghost use Rattle.rs_chain.specs.Nodes.{node_kids};

use crate::node::Node;
use crate::place::child_in;
use crate::walk::leads_on;
use rs_path::Path;
use rs_rules::{MAX_ITEMS, listing_laws};
use slab::Slab;

/// The number of names of the first folder, from `/` down, that has no room for a document at the path. It takes no
/// memory.
pub(crate) fn full_in(nodes: &Slab<Node>, root: usize, path: &Path) -> Option<u32>
    requires listed { AreListed nodes.now root }
    ensures full { (w : Contents) → NodesShow nodes.now root w → are_documents w.docs ≡ true → result ≡ full_in w.docs path.now }
{
    listing_laws();
    let names = path.names();
    let mut key = root;
    for depth in 0..names.len() {
        let count = kid_count(nodes, key);
        match child_in(nodes, key, &names[depth], leads_on(path, depth)) {
            None => {
                return if MAX_ITEMS <= count {
                    Some(depth as u32)
                } else {
                    None
                };
            }
            Some(child) => {
                if MAX_ITEMS < count {
                    return Some(depth as u32);
                }
                key = child;
            }
        }
    }
    None
}

// How many children a folder has.
fn kid_count(nodes: &Slab<Node>, key: usize) -> usize
    requires there { ContainsKey nodes.now key }
    ensures count { result ≡ length (node_kids nodes.now key) }
{
    nodes[key].kids.as_slice().len()
}
