//! What is at a path.

ghost use Rattle.std.specs.Prelude.{◌≡◌, option_copied};
ghost use Rattle.rs_rules.specs.Contents.{Contents};
ghost use Rattle.rs_rules.specs.Documents.{doc_in};
ghost use Rattle.rs_chain.specs.Walks.{AreListed};
ghost use Rattle.rs_chain.specs.Shown.{NodesShow};

use crate::node::{Node, number};
use crate::walk::key_at;
use rs_path::Path;
use rs_rules::Doc;
use slab::Slab;

/// The document at the path. It takes no memory.
pub(crate) fn doc_at<'a>(nodes: &'a Slab<Node>, root: usize, path: &Path) -> Option<&'a Doc>
    requires listed { AreListed nodes.now root }
    ensures found { (w : Contents) → NodesShow nodes.now root w → option_copied result ≡ doc_in path.now w.docs }
{
    match key_at(nodes, root, path) {
        None => None,
        Some(key) => nodes[key].doc.as_ref(),
    }
}

/// The version of the path, 0 where nothing is there. It takes no memory.
pub(crate) fn version_at(nodes: &Slab<Node>, root: usize, path: &Path) -> u64
    requires listed { AreListed nodes.now root }
    ensures version { (w : Contents) → NodesShow nodes.now root w → result ≡ w.version path.now }
{
    match key_at(nodes, root, path) {
        None => 0,
        Some(key) => number(&nodes[key]),
    }
}
