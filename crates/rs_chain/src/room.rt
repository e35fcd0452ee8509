//! Room for a Put.

ghost use Rattle.std.specs.Prelude.{◌≡◌, ◌+◌, ◌<◌, ◌≤◌, ℕ, false, [], ◌∷◌, List, length, drop, IfOk, OnOk};
ghost use Rattle.slab.specs.Slab.{ContainsKey, HasRoomFor};
ghost use Rattle.rs_path.specs.Paths.{is_nil};
ghost use Rattle.rs_rules.specs.declared.doc.Doc.{Doc as DocValue};
ghost use Rattle.rs_chain.specs.Nodes.{node_kids, node_room, SameButRoom, IsEmptyFolder};
ghost use Rattle.rs_chain.specs.Walks.{AreListed};
ghost use Rattle.rs_chain.specs.Rooms.{IsFreshNode, AreFresh, IsSpareFor};

use crate::node::Node;
use crate::walk::deepest;
use rs_path::{Bytes, Child, Kind, Name, NoMemory, Path};
use rs_rules::Doc;
use slab::Slab;
use std::alloc::Global;

/// What a Put needs: its document, and the nodes that aren't there yet.
#[derive(Debug, Drop)]
pub enum Room {
    /// The document's node is there.
    Over { key: usize, doc: Doc },
    /// The deepest folder on the way to the document that is there, and the nodes behind it, the topmost last.
    Under { folder: usize, fresh: Vec<Node> },
}

impl Room {
    /// Makes room for a document at the path.
    pub(crate) fn of(
        alloc: Global,
        nodes: &mut Slab<Node>,
        root: usize,
        path: &Path,
        kind: &Kind,
        body: &Bytes,
    ) -> Result<Room, NoMemory>
        requires listed { AreListed nodes.old root }
        requires document { path.now.folder ≡ false }
        ensures same { SameButRoom nodes.old nodes.new }
        ensures room { IfOk result (λ room. IsSpareFor nodes.new root room path.now kind.now body.now) }
    {
        let doc = Doc {
            version: 0,
            kind: kind.copy()?,
            body: body.copy()?,
        };
        let found = deepest(nodes, root, path);
        let names = path.names();
        if found.depth == names.len() {
            return Ok(Room::Over {
                key: found.key,
                doc,
            });
        }
        let fresh = fresh_nodes(alloc, names, found.depth, doc)?;
        nodes.reserve(fresh.len())?;
        reserve_kid(nodes, found.key)?;
        Ok(Room::Under {
            folder: found.key,
            fresh,
        })
    }
}

// Room for one child more in a folder.
fn reserve_kid(nodes: &mut Slab<Node>, folder: usize) -> Result<(), NoMemory>
    requires there { ContainsKey nodes.old folder }
    ensures same { SameButRoom nodes.old nodes.new }
    ensures slots { (more : ℕ) → HasRoomFor nodes.old more → HasRoomFor nodes.new more }
    ensures room { OnOk result (length (node_kids nodes.new folder) < node_room nodes.new folder) }
{
    nodes[folder].kids.reserve(1)?;
    Ok(())
}

// The nodes for the names from this one on, the last name's first: folders, and the document in the last.
fn fresh_nodes(alloc: Global, names: &[Name], depth: usize, doc: Doc) -> Result<Vec<Node>, NoMemory>
    requires within { depth < length names.now }
    ensures fresh { IfOk result (λ fresh. AreFresh (drop depth names.now) doc fresh.items) }
{
    let mut fresh = Vec::new(alloc);
    let mut place = names.len() - 1;
    fresh.push(document_node(alloc, names[place].copy()?, doc))?;
    while depth < place {
        place -= 1;
        fresh.push(folder_node(alloc, names[place].copy()?)?)?;
    }
    Ok(fresh)
}

// A document's node, in no folder yet.
fn document_node(alloc: Global, name: Name, doc: Doc) -> Node
    ensures fresh { IsFreshNode result name [] doc }
{
    Node {
        child: Child {
            name,
            folder: false,
        },
        doc: Some(doc),
        version: 0,
        kids: Vec::new(alloc),
        parent: None,
        first: None,
        next: 0,
        prev: 0,
    }
}

/// A folder's node, in no folder yet, with room for one child.
pub(crate) fn folder_node(alloc: Global, name: Name) -> Result<Node, NoMemory>
    ensures fresh { IfOk result (λ node. (behind : List (List ℕ)) (doc : DocValue) → is_nil behind ≡ false → IsFreshNode node name behind doc) }
    ensures empty { IfOk result (λ node. IsEmptyFolder node) }
{
    Ok(Node {
        child: Child { name, folder: true },
        doc: None,
        version: 0,
        kids: Vec::with_capacity(alloc, 1)?,
        parent: None,
        first: None,
        next: 0,
        prev: 0,
    })
}
