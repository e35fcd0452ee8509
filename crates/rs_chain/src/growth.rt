//! Nodes that come and go.

ghost use Rattle.std.specs.Prelude.{◌≡◌, ◌<◌, ◌+◌, ℕ, true, not, List, [], length, Option, Some, None, is_some, vec_capacity};
ghost use Rattle.slab.specs.Slab.{get, ContainsKey, HasRoomFor, slab_len};
ghost use Rattle.rs_chain.specs.declared.node.Node.{Node as NodeValue};
ghost use Rattle.rs_chain.specs.Nodes.{node_child, node_kids, node_parent, node_room};
ghost use Rattle.rs_chain.specs.Rings.{taken_out, put_first};
ghost use Rattle.rs_chain.specs.Climbs.{AreLinked};
ghost use Rattle.rs_chain.specs.Walks.{child_in, AreListed};
ghost use Rattle.rs_chain.specs.Leaves.{HasLeaf};

use crate::kids::{kid_place, put_kid, take_kid, vacancy};
use crate::node::{Node, node_parent};
use crate::ring::{put_first, take_out};
use slab::Slab;

/// Adds a node without children to a folder that has room for it, and tells its key.
pub(crate) fn add(nodes: &mut Slab<Node>, folder: usize, node: Node) -> usize
    requires slots { HasRoomFor nodes.old 1 }
    requires folder { ContainsKey nodes.old folder }
    requires room { length (node_kids nodes.old folder) < node_room nodes.old folder }
    requires sound { (root : ℕ) × (order : ℕ → List ℕ) × AreListed nodes.old root × AreLinked nodes.old order }
    requires holder { (node_child nodes.old folder).folder ≡ true }
    requires free { child_in nodes.old folder node.child ≡ None }
    requires bare { node.kids.items ≡ [] }
    requires alone { node.first ≡ None }
    requires content { is_some node.doc ≡ not node.child.folder }
    ensures leaf { HasLeaf nodes.old nodes.new folder result (record node { parent = Some folder }) }
    ensures listed { (root : ℕ) → AreListed nodes.old root → AreListed nodes.new root }
    ensures linked { (order : ℕ → List ℕ) → AreLinked nodes.old order → AreLinked nodes.new (put_first folder result order) }
    ensures room { node_room nodes.new result ≡ vec_capacity node.kids }
{
    let place = vacancy(nodes, folder, &node.child);
    let mut node = node;
    node.parent = Some(folder);
    let key = nodes.insert_reserved(node);
    put_kid(nodes, folder, place, key);
    put_first(nodes, folder, key);
    key
}

/// Takes away a node without children that is in a folder, and tells the folder.
pub(crate) fn drop_node(nodes: &mut Slab<Node>, key: usize) -> usize
    requires sound { (root : ℕ) × (order : ℕ → List ℕ) × AreListed nodes.old root × AreLinked nodes.old order }
    requires there { ContainsKey nodes.old key }
    requires child { (folder : ℕ) × (node_parent nodes.old key ≡ Some folder) }
    requires bare { node_kids nodes.old key ≡ [] }
    ensures parent { node_parent nodes.old key ≡ Some result }
    ensures leaf { (x : NodeValue) × HasLeaf nodes.new nodes.old result key x }
    ensures listed { (root : ℕ) → AreListed nodes.old root → AreListed nodes.new root }
    ensures linked { (order : ℕ → List ℕ) → AreLinked nodes.old order → AreLinked nodes.new (taken_out result key order) }
    ensures fewer { slab_len nodes.new + 1 ≡ slab_len nodes.old }
{
    let Some(folder) = node_parent(nodes, key) else {
        return key;
    };
    let place = kid_place(nodes, folder, key);
    take_out(nodes, folder, key);
    take_kid(nodes, folder, place);
    nodes.remove(key);
    folder
}
