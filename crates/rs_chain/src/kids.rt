//! The children of a folder, as they stand.

ghost use Rattle.std.specs.Prelude.{◌≡◌, ◌<◌, ◌≤◌, ℕ, true, Some, None, map, length, get_or, insert, remove};
ghost use Rattle.slab.specs.Slab.{ContainsKey};
ghost use Rattle.rs_rules.specs.Laws.{is_sorted};
ghost use Rattle.rs_chain.specs.Nodes.{node_child, node_kids, node_parent, node_room, ChangesKids};
ghost use Rattle.rs_chain.specs.Walks.{child_in, IsPlaceFor, AreListed};

use crate::node::Node;
use crate::place::place_in;
use rs_path::Child;
use slab::Slab;

/// The place among the folder's kids where a child that isn't there would stand.
pub(crate) fn vacancy(nodes: &Slab<Node>, folder: usize, child: &Child) -> usize
    requires there { ContainsKey nodes.now folder }
    requires sorted { is_sorted (map (node_child nodes.now) (node_kids nodes.now folder)) ≡ true }
    requires free { child_in nodes.now folder child.now ≡ None }
    ensures place { IsPlaceFor (node_child nodes.now) (node_kids nodes.now folder) child.now result }
{
    let kids = nodes[folder].kids.as_slice();
    match place_in(nodes, kids, &child.name, child.folder) {
        Ok(place) => place,
        Err(place) => place,
    }
}

/// The place of a child among its folder's kids.
pub(crate) fn kid_place(nodes: &Slab<Node>, folder: usize, key: usize) -> usize
    requires listed { (root : ℕ) × AreListed nodes.now root }
    requires folder { ContainsKey nodes.now folder }
    requires child { node_parent nodes.now key ≡ Some folder }
    ensures within { result < length (node_kids nodes.now folder) }
    ensures place { get_or (node_kids nodes.now folder) result 0 ≡ key }
{
    let kids = nodes[folder].kids.as_slice();
    let child = &nodes[key].child;
    match place_in(nodes, kids, &child.name, child.folder) {
        Ok(place) => place,
        Err(place) => place,
    }
}

/// Puts a key at a place among the folder's kids, which have room for it.
pub(crate) fn put_kid(nodes: &mut Slab<Node>, folder: usize, place: usize, key: usize)
    requires there { ContainsKey nodes.old folder }
    requires place { place ≤ length (node_kids nodes.old folder) }
    requires room { length (node_kids nodes.old folder) < node_room nodes.old folder }
    ensures kids { ChangesKids nodes.old nodes.new folder (insert (node_kids nodes.old folder) place key) }
{
    let added = nodes[folder].kids.insert(place, key);
    prove!(added.is_ok());
}

/// Takes the key at a place out of the folder's kids.
pub(crate) fn take_kid(nodes: &mut Slab<Node>, folder: usize, place: usize)
    requires there { ContainsKey nodes.old folder }
    requires place { place < length (node_kids nodes.old folder) }
    ensures kids { ChangesKids nodes.old nodes.new folder (remove (node_kids nodes.old folder) place) }
{
    nodes[folder].kids.remove(place);
}
