//! The items of a folder.

ghost use Rattle.std.specs.Prelude.{◌≡◌, [], true, IfOk, IsTrue, option_map, length};
ghost use Rattle.slab.specs.Slab.{ContainsKey};
ghost use Rattle.rs_path.specs.Names.{is_name};
ghost use Rattle.rs_rules.specs.declared.doc.Doc.{Doc as DocValue};
ghost use Rattle.rs_rules.specs.Contents.{Contents};
ghost use Rattle.rs_rules.specs.Listings.{items_in};
ghost use Rattle.rs_rules.specs.Sound.{are_documents};
ghost use Rattle.rs_chain.specs.Walks.{AreListed};
ghost use Rattle.rs_chain.specs.Shown.{NodesShow};
ghost use Rattle.rs_chain.specs.Nodes.{node_child};
ghost use Rattle.rs_chain.specs.NodeItems.{node_item, kid_items};

use crate::node::{Node, number};
use crate::walk::key_at;
use rs_path::{Entry, Items, Kind, NoMemory, Path, Tag};
use rs_rules::{Doc, listing_laws};
use slab::Slab;
use std::alloc::Global;

/// The items of a folder, in the byte order of their keys.
pub(crate) fn items_at(
    alloc: Global,
    nodes: &Slab<Node>,
    root: usize,
    folder: &Path,
) -> Result<Items, NoMemory>
    requires listed { AreListed nodes.now root }
    requires folder { folder.now.folder ≡ true }
    ensures items { (w : Contents) → NodesShow nodes.now root w → are_documents w.docs ≡ true → IfOk result (λ items. items ≡ items_in w folder.now) }
{
    listing_laws();
    match key_at(nodes, root, folder) {
        None => Ok(Items::new(alloc)),
        Some(key) => items_of(alloc, nodes, root, key),
    }
}

// The items of the folder with this key: its kids as they stand.
fn items_of(
    alloc: Global,
    nodes: &Slab<Node>,
    root: usize,
    folder: usize,
) -> Result<Items, NoMemory>
    requires listed { AreListed nodes.now root }
    requires there { ContainsKey nodes.now folder }
    ensures items { IfOk result (λ items. items ≡ kid_items nodes.now folder) }
{
    let kids = nodes[folder].kids.as_slice();
    let mut items = Items::new(alloc);
    for key in kids {
        items.push(item_of(alloc, nodes, *key)?)?;
    }
    Ok(items)
}

fn item_of(alloc: Global, nodes: &Slab<Node>, key: usize) -> Result<Entry, NoMemory>
    requires there { ContainsKey nodes.now key }
    ensures item { IfOk result (λ item. item ≡ node_item nodes.now key) }
    ensures name { IsTrue (is_name (node_child nodes.now key).name) }
{
    let node = &nodes[key];
    node.child.name.as_slice();
    Ok(Entry {
        name: node.child.name.copy()?,
        folder: node.child.folder,
        tag: Tag::of(alloc, number(node))?,
        kind: kind_of(&node.doc)?,
        length: length_of(&node.doc),
    })
}

fn kind_of(doc: &Option<Doc>) -> Result<Option<Kind>, NoMemory>
    ensures kind { IfOk result (λ kind. kind ≡ option_map (λ (d : DocValue). d.kind) doc.now) }
{
    match doc {
        None => Ok(None),
        Some(doc) => Ok(Some(doc.kind.copy()?)),
    }
}

fn length_of(doc: &Option<Doc>) -> Option<u64>
    ensures length { result ≡ option_map (λ (d : DocValue). length d.body) doc.now }
{
    match doc {
        None => None,
        Some(doc) => Some(doc.body.as_slice().len() as u64),
    }
}
