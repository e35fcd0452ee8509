//! Documents put into the nodes and taken out of them.

ghost use Rattle.std.specs.Prelude.{◌≡◌, ◌<◌, ◌≤◌, ℕ, false, List, length, Some};
ghost use Rattle.slab.specs.Slab.{ContainsKey};
ghost use Rattle.rs_path.specs.Paths.{Path as PathValue, is_nil};
ghost use Rattle.rs_rules.specs.declared.doc.Doc.{Doc as DocValue};
ghost use Rattle.rs_chain.specs.Nodes.{node_doc, node_parent, body_length, ReplacesDoc};
ghost use Rattle.rs_chain.specs.Climbs.{AreLinked, Climbs, Climbed};
ghost use Rattle.rs_chain.specs.Walks.{onwards, key_at, AreListed};
ghost use Rattle.rs_chain.specs.Rooms.{undated_doc, IsUnder, IsSpareFor};
ghost use Rattle.rs_chain.specs.Writes.{IsPlaced, IsPruned};

use crate::climb::climb;
use crate::growth::{add, drop_node};
use crate::node::{Node, has_kids};
use crate::room::Room;
use crate::steps::Steps;
use rs_rules::Doc;
use slab::Slab;
use std::marker::Brand;
use std::sync::ledger::{Blank, Ledger};

/// Where a document stands, and how many bytes the body had that stood there before.
#[derive(Clone, Copy)]
pub(crate) struct Written {
    pub(crate) key: usize,
    pub(crate) before: u64,
}

/// Puts the document of the room into the nodes.
pub(crate) fn place(nodes: &mut Slab<Node>, room: Room) -> Written
    requires room { (root : ℕ) × (path : PathValue) × (kind : List ℕ) × (body : List ℕ) × AreListed nodes.old root × IsSpareFor nodes.old root room path kind body }
    requires linked { (order : ℕ → List ℕ) × AreLinked nodes.old order }
    ensures placed { (root : ℕ) (path : PathValue) (kind body : List ℕ) → AreListed nodes.old root → IsSpareFor nodes.old root room path kind body
        → IsPlaced nodes.old nodes.new root path result.key (undated_doc kind body) × (result.before ≡ body_length (onwards (key_at nodes.old root path) (node_doc nodes.old))) }
    ensures linked { (order : ℕ → List ℕ) × AreLinked nodes.new order }
{
    match room {
        Room::Over { key, doc } => {
            let before = replace(nodes, key, doc);
            Written { key, before }
        }
        Room::Under { folder, fresh } => Written {
            key: grow(nodes, folder, fresh),
            before: 0,
        },
    }
}

// Gives a document's node its new content, and tells how many bytes the body had before.
fn replace(nodes: &mut Slab<Node>, key: usize, doc: Doc) -> u64
    requires there { ContainsKey nodes.old key }
    ensures doc { ReplacesDoc nodes.old nodes.new key doc }
    ensures before { result ≡ body_length (node_doc nodes.old key) }
{
    let before = length_at(nodes, key);
    nodes[key].doc = Some(doc);
    before
}

/// The bytes of a document's body, 0 of a folder.
pub(crate) fn length_at(nodes: &Slab<Node>, key: usize) -> u64
    requires there { ContainsKey nodes.now key }
    ensures length { result ≡ body_length (node_doc nodes.now key) }
{
    match &nodes[key].doc {
        None => 0,
        Some(doc) => doc.body.as_slice().len() as u64,
    }
}

// Puts the nodes in, each into the one before it, and tells the key of the last.
fn grow(nodes: &mut Slab<Node>, folder: usize, fresh: Vec<Node>) -> usize
    requires under { (root : ℕ) × (path : PathValue) × (doc : DocValue) × AreListed nodes.old root × (path.folder ≡ false) × IsUnder nodes.old root path doc folder fresh.items }
    requires linked { (order : ℕ → List ℕ) × AreLinked nodes.old order }
    ensures placed { (root : ℕ) (path : PathValue) (doc : DocValue) → AreListed nodes.old root → path.folder ≡ false → IsUnder nodes.old root path doc folder fresh.items
        → IsPlaced nodes.old nodes.new root path result doc }
    ensures linked { (order : ℕ → List ℕ) × AreLinked nodes.new order }
{
    let mut fresh = fresh;
    let mut key = folder;
    while let Some(node) = fresh.pop() {
        key = add(nodes, key, node);
    }
    key
}

/// Takes away a document, and each folder that it leaves empty, and tells the folder that stays.
pub(crate) fn prune(nodes: &mut Slab<Node>, root: usize, key: usize) -> usize
    requires listed { AreListed nodes.old root }
    requires linked { (order : ℕ → List ℕ) × AreLinked nodes.old order }
    requires document { (path : PathValue) × (path.folder ≡ false) × (is_nil path.names ≡ false) × (key_at nodes.old root path ≡ Some key) }
    ensures pruned { (path : PathValue) → path.folder ≡ false → is_nil path.names ≡ false → key_at nodes.old root path ≡ Some key
        → (front : PathValue) × IsPruned nodes.old nodes.new root path front result }
    ensures linked { (order : ℕ → List ℕ) × AreLinked nodes.new order }
{
    let mut folder = drop_node(nodes, key);
    while folder != root && !has_kids(nodes, folder) {
        folder = drop_node(nodes, folder);
    }
    folder
}

/// Gives a node and each folder above it the number. Nobody counts the steps.
pub(crate) fn rise(nodes: &mut Slab<Node>, key: usize, n: u64)
    requires way { (order : ℕ → List ℕ) × (above : List ℕ) × AreLinked nodes.old order × Climbs (node_parent nodes.old) key above × (length above ≤ 32) }
    requires there { ContainsKey nodes.old key }
    ensures raised { (order : ℕ → List ℕ) (above : List ℕ) → AreLinked nodes.old order → Climbs (node_parent nodes.old) key above
        → (after : ℕ) × Climbed nodes.old nodes.new order key above n 0 after }
{
    counted::<Brand>(nodes, key, n, Blank::new(1));
}

// The same on a ledger that is new.
fn counted<L: Ledger>(nodes: &mut Slab<Node>, key: usize, n: u64, blank: Blank)
    requires name { blank.name ≡ L.name }
    requires parts { blank.parts ≡ L.parts }
    requires some { 0 < blank.parts }
    requires way { (order : ℕ → List ℕ) × (above : List ℕ) × AreLinked nodes.old order × Climbs (node_parent nodes.old) key above × (length above ≤ 32) }
    requires there { ContainsKey nodes.old key }
    ensures raised { (order : ℕ → List ℕ) (above : List ℕ) → AreLinked nodes.old order → Climbs (node_parent nodes.old) key above
        → (after : ℕ) × Climbed nodes.old nodes.new order key above n 0 after }
{
    let mut steps = Steps::<L>::of(blank);
    climb(nodes, key, n, &mut steps);
}
