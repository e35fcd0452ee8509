//! Linked trees.

ghost use Rattle.std.specs.Prelude.{◌≡◌, ◌||◌, ◌+◌, ℕ, true, IsTrue, length, Some, IfOk, if◌then◌else◌};
ghost use Rattle.rs_path.specs.Paths.{Path as PathValue, is_path, same_path};
ghost use Rattle.rs_path.specs.Below.{is_below};
ghost use Rattle.rs_chain.specs.Nodes.{node_number, SameButNumbers, IsEmptyFolder};
ghost use Rattle.rs_chain.specs.Walks.{key_at, AreListed};
ghost use Rattle.rs_chain.specs.Shown.{NodesStandFor};
ghost use Rattle.rs_rules.specs.Contents.{Contents};

use crate::climb::climb;
use crate::full::full_in;
use crate::listing::items_at;
use crate::looks::{doc_at, version_at};
use crate::node::Node;
use crate::obstacles::clash_in;
use crate::room::{Room, folder_node};
use crate::steps::Steps;
use crate::walk::key_at;
use crate::writes::{length_at, place, prune, rise};
use rs_path::{Bytes, Items, Kind, Name, NoMemory, Path, below_laws};
use rs_rules::{Doc, Tree, live_laws};
use slab::Slab;
use std::alloc::Global;
use std::sync::ledger::Ledger;

/// The documents of a user as linked nodes: each folder has the keys of its children in the order of their names, and
/// the ring of its children, the one that was written last first.
#[derive(Debug, Drop)]
pub struct ChainTree {
    nodes: Slab<Node>,
    root: usize,
    live: u64,
    alloc: Global,
    ghost listed: { AreListed nodes root },
}

impl ChainTree {
    /// The key of the path's node, or None where nothing is there. It takes no memory.
    pub fn node(&self, path: &Path) -> Option<usize>
        ensures node { result ≡ key_at self.now.nodes self.now.root path.now }
    {
        key_at(&self.nodes, self.root, path)
    }

    /// Gives the number to the node of a path and to each folder above it, and to no other: one step for each node. It
    /// takes no memory. What the tree shows is a history's only where the number is greater than every version.
    pub fn bump<L: Ledger>(&mut self, node: usize, n: u64, steps: &mut Steps<L>)
        requires stands { (w : Contents) × NodesStandFor self.old.nodes self.old.root self.old.live w }
        requires node { (path : PathValue) × IsTrue (is_path path) × (key_at self.old.nodes self.old.root path ≡ Some node) }
        ensures steps { (path : PathValue) → IsTrue (is_path path) → key_at self.old.nodes self.old.root path ≡ Some node → steps.new ≡ steps.old + length path.names + 1 }
        ensures numbers { (path q : PathValue) (key : ℕ) → IsTrue (is_path path) → IsTrue (is_path q) → key_at self.old.nodes self.old.root path ≡ Some node
            → key_at self.new.nodes self.new.root q ≡ Some key
            → node_number self.new.nodes key ≡ (if same_path q path || is_below q path then n else node_number self.old.nodes key) }
        ensures paths { (q : PathValue) → key_at self.new.nodes self.new.root q ≡ key_at self.old.nodes self.old.root q }
        ensures rest { SameButNumbers self.old.nodes self.new.nodes }
    {
        climb(&mut self.nodes, node, n, steps);
    }
}

impl Tree for ChainTree {
    ghost use Rattle.rs_chain.specs.Shown.{NodesStandFor, nodes_distinct, nodes_dated};
    ghost use Rattle.rs_chain.specs.Rooms.{IsSpareFor};

    type Ready = Room;

    ghost stands = { λ t w. NodesStandFor t.nodes t.root t.live w };

    ghost ready_for = { λ t room path kind body. IsSpareFor t.nodes t.root room path kind body };

    ghost distinct = { λ t w s. nodes_distinct t.nodes t.root t.live w s };

    ghost dated = { λ t w s path document named. nodes_dated t.nodes t.root t.live w s path document };

    fn new(alloc: Global) -> Result<ChainTree, NoMemory> {
        let mut nodes = Slab::new(alloc);
        let root = nodes.insert(root_node(alloc)?)?;
        Ok(ChainTree {
            nodes,
            root,
            live: 0,
            alloc,
        })
    }

    fn find(&self, path: &Path) -> Option<&Doc> {
        doc_at(&self.nodes, self.root, path)
    }

    fn version(&self, path: &Path) -> u64 {
        version_at(&self.nodes, self.root, path)
    }

    fn items(&self, folder: &Path) -> Result<Items, NoMemory> {
        items_at(self.alloc, &self.nodes, self.root, folder)
    }

    fn clash(&self, path: &Path) -> Option<u32> {
        clash_in(&self.nodes, self.root, path)
    }

    fn full(&self, path: &Path) -> Option<u32> {
        full_in(&self.nodes, self.root, path)
    }

    fn live(&self) -> u64 {
        self.live
    }

    fn prepare(&mut self, path: &Path, kind: &Kind, body: &Bytes) -> Result<Room, NoMemory> {
        Room::of(self.alloc, &mut self.nodes, self.root, path, kind, body)
    }

    fn put(&mut self, n: u64, ready: Room) {
        live_laws();
        let written = place(&mut self.nodes, ready);
        self.live = self.live - written.before + length_at(&self.nodes, written.key);
        rise(&mut self.nodes, written.key, n);
    }

    fn remove(&mut self, n: u64, path: &Path) {
        live_laws();
        below_laws();
        if let Some(key) = key_at(&self.nodes, self.root, path) {
            self.live -= length_at(&self.nodes, key);
            let folder = prune(&mut self.nodes, self.root, key);
            rise(&mut self.nodes, folder, n);
        }
    }
}

// The node of `/`. No path spells its name.
fn root_node(alloc: Global) -> Result<Node, NoMemory>
    ensures empty { IfOk result (λ node. IsEmptyFolder node) }
{
    let name = Name::read(alloc, b"-")?.unwrap();
    folder_node(alloc, name)
}
