//! Children by name.

ghost use Rattle.std.specs.Prelude.{◌≡◌, length, map, true};
ghost use Rattle.std.specs.List.Sorted.{IsBinarySearchResult, IsSearchInRange};
ghost use Rattle.slab.specs.Slab.{ContainsKey};
ghost use Rattle.rs_path.specs.Children.{child_cmp};
ghost use Rattle.rs_rules.specs.Laws.{is_sorted};
ghost use Rattle.rs_chain.specs.Nodes.{node_child, node_kids};
ghost use Rattle.rs_chain.specs.Walks.{child_in};

use crate::node::Node;
use rs_path::Name;
use slab::Slab;
use std::cmp::Ordering;

/// The place of the child of this name among the kids, or the place where it would stand.
pub(crate) fn place_in(
    nodes: &Slab<Node>,
    kids: &[usize],
    name: &Name,
    folder: bool,
) -> Result<usize, usize>
    ensures bound { IsSearchInRange result (length kids.now) }
    ensures place { IsBinarySearchResult (λ key. child_cmp (node_child nodes.now key) (record { name = name.now; folder = folder })) kids.now result }
{
    kids.binary_search_by(|key| compare(nodes, *key, name, folder))
}

// The order of a node's child before the one of this name. Where there is no node, its empty name comes first.
fn compare(nodes: &Slab<Node>, key: usize, name: &Name, folder: bool) -> Ordering
    ensures order { result ≡ child_cmp (node_child nodes.now key) (record { name = name.now; folder = folder }) }
{
    name.as_slice();
    match nodes.get(key) {
        None => Ordering::Less,
        Some(node) => node.child.cmp_name(name, folder),
    }
}

/// The key of the folder's child of this name.
pub(crate) fn child_in(
    nodes: &Slab<Node>,
    folder: usize,
    name: &Name,
    is_folder: bool,
) -> Option<usize>
    requires there { ContainsKey nodes.now folder }
    requires sorted { is_sorted (map (node_child nodes.now) (node_kids nodes.now folder)) ≡ true }
    ensures child { result ≡ child_in nodes.now folder (record { name = name.now; folder = is_folder }) }
{
    let kids = nodes[folder].kids.as_slice();
    match place_in(nodes, kids, name, is_folder) {
        Ok(place) => Some(kids[place]),
        Err(_) => None,
    }
}
