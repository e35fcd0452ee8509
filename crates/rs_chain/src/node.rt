//! Nodes.

ghost use Rattle.std.specs.Prelude.{◌≡◌, not};
ghost use Rattle.slab.specs.Slab.{ContainsKey};
ghost use Rattle.rs_path.specs.Paths.{is_nil};
ghost use Rattle.rs_chain.specs.Nodes.{number, node_number, node_kids, node_parent, node_first, node_next, node_prev, ChangesAt, Stays, SameButLinks, SameButNumbers};

use rs_path::Child;
use rs_rules::Doc;
use slab::Slab;

/// A document or a folder of the tree, linked by keys to its parent, its children and its siblings.
#[derive(Debug, Drop)]
pub struct Node {
    /// Its last name, and whether it is a folder.
    pub child: Child,
    /// What a document holds.
    pub doc: Option<Doc>,
    /// A folder's version; a document's is in its content.
    pub version: u64,
    /// A folder's children, in the order of their keys.
    pub kids: Vec<usize>,
    /// The folder that it is in.
    pub parent: Option<usize>,
    /// A folder's child that was written last.
    pub first: Option<usize>,
    /// The sibling that was written before it; of the last one the first.
    pub next: usize,
    /// The sibling whose next it is.
    pub prev: usize,
}

/// The version of a document or a folder.
pub(crate) fn number(node: &Node) -> u64
    ensures number { result ≡ number node.now }
{
    match &node.doc {
        None => node.version,
        Some(doc) => doc.version,
    }
}

/// Whether a folder has children.
pub(crate) fn has_kids(nodes: &Slab<Node>, key: usize) -> bool
    requires there { ContainsKey nodes.now key }
    ensures kids { result ≡ not (is_nil (node_kids nodes.now key)) }
{
    match nodes[key].kids.as_slice() {
        [] => false,
        [_first, _rest @ ..] => true,
    }
}

/// The folder that a node is in.
pub(crate) fn node_parent(nodes: &Slab<Node>, key: usize) -> Option<usize>
    requires there { ContainsKey nodes.now key }
    ensures parent { result ≡ node_parent nodes.now key }
{
    nodes[key].parent
}

/// A folder's child that was written last.
pub(crate) fn node_first(nodes: &Slab<Node>, key: usize) -> Option<usize>
    requires there { ContainsKey nodes.now key }
    ensures first { result ≡ node_first nodes.now key }
{
    nodes[key].first
}

/// The sibling that was written before a child.
pub(crate) fn node_next(nodes: &Slab<Node>, key: usize) -> usize
    requires there { ContainsKey nodes.now key }
    ensures next { result ≡ node_next nodes.now key }
{
    nodes[key].next
}

/// The sibling whose next a child is.
pub(crate) fn node_prev(nodes: &Slab<Node>, key: usize) -> usize
    requires there { ContainsKey nodes.now key }
    ensures prev { result ≡ node_prev nodes.now key }
{
    nodes[key].prev
}

/// Sets which sibling comes next.
pub(crate) fn set_next(nodes: &mut Slab<Node>, key: usize, next: usize)
    requires there { ContainsKey nodes.old key }
    ensures next { ChangesAt (node_next nodes.old) (node_next nodes.new) key next }
    ensures prev { Stays (node_prev nodes.old) (node_prev nodes.new) }
    ensures first { Stays (node_first nodes.old) (node_first nodes.new) }
    ensures number { Stays (node_number nodes.old) (node_number nodes.new) }
    ensures rest { SameButLinks nodes.old nodes.new }
{
    nodes[key].next = next;
}

/// Sets which sibling came before.
pub(crate) fn set_prev(nodes: &mut Slab<Node>, key: usize, prev: usize)
    requires there { ContainsKey nodes.old key }
    ensures next { Stays (node_next nodes.old) (node_next nodes.new) }
    ensures prev { ChangesAt (node_prev nodes.old) (node_prev nodes.new) key prev }
    ensures first { Stays (node_first nodes.old) (node_first nodes.new) }
    ensures number { Stays (node_number nodes.old) (node_number nodes.new) }
    ensures rest { SameButLinks nodes.old nodes.new }
{
    nodes[key].prev = prev;
}

/// Sets which child of a folder is the first.
pub(crate) fn set_first(nodes: &mut Slab<Node>, key: usize, first: Option<usize>)
    requires there { ContainsKey nodes.old key }
    ensures next { Stays (node_next nodes.old) (node_next nodes.new) }
    ensures prev { Stays (node_prev nodes.old) (node_prev nodes.new) }
    ensures first { ChangesAt (node_first nodes.old) (node_first nodes.new) key first }
    ensures number { Stays (node_number nodes.old) (node_number nodes.new) }
    ensures rest { SameButLinks nodes.old nodes.new }
{
    nodes[key].first = first;
}

/// Gives a document or a folder its version.
pub(crate) fn set_number(nodes: &mut Slab<Node>, key: usize, number: u64)
    requires there { ContainsKey nodes.old key }
    ensures next { Stays (node_next nodes.old) (node_next nodes.new) }
    ensures prev { Stays (node_prev nodes.old) (node_prev nodes.new) }
    ensures first { Stays (node_first nodes.old) (node_first nodes.new) }
    ensures number { ChangesAt (node_number nodes.old) (node_number nodes.new) key number }
    ensures rest { SameButNumbers nodes.old nodes.new }
{
    let node = &mut nodes[key];
    match &mut node.doc {
        Some(doc) => doc.version = number,
        None => node.version = number,
    }
}
