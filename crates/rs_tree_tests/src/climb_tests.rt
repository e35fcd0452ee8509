//! A number given to a node of the linked tree, and to the folders above it.

ghost use Rattle.std.specs.Prelude.{◌≡◌, ◌<◌, ◌≤◌, false, length, IfOk};
ghost use Rattle.rs_rules.specs.Contents.{Contents};

use rs_chain::{ChainTree, Steps};
use rs_path::{Bytes, Kind, Path};
use rs_rules::Tree;
use std::alloc::Global;
use std::marker::Brand;
use std::sync::ledger::{Blank, Ledger};
use std::test::Fail;

fn document(alloc: Global) -> Result<Path, Fail>
    ensures document { IfOk result (λ path. path.folder ≡ false) }
{
    let path = Path::read_plain(alloc, b"/a/b/c")?;
    if path.is_folder() {
        return Err("no document")?;
    }
    Ok(path)
}

// A tree of one document, the first record.
fn grown<T: Tree>(alloc: Global) -> Result<T, Fail>
    ensures stands { IfOk result (λ tree. (w : Contents) × T.stands tree w) }
{
    let path = document(alloc)?;
    let kind = Kind::read(alloc, b"text/plain")?.ok_or("no content type")?;
    let body = Bytes::of(Vec::new(alloc));
    let mut tree = T::new(alloc)?;
    if tree.clash(&path).is_some() {
        return Err("something in the way")?;
    }
    let ready = tree.prepare(&path, &kind, &body)?;
    tree.put(1, ready);
    Ok(tree)
}

// Gives the number to the path's node, where there is one.
fn raise<L: Ledger>(tree: &mut ChainTree, path: &Path, number: u64, blank: Blank) -> bool
    requires stands { (w : Contents) × ⟦<ChainTree as Tree>⟧.stands tree.old w }
    requires name { blank.name ≡ L.name }
    requires parts { blank.parts ≡ L.parts }
    requires some { 0 < blank.parts }
{
    path.names();
    let Some(node) = tree.node(path) else {
        return false;
    };
    let mut steps = Steps::<L>::of(blank);
    tree.bump(node, number, &mut steps);
    true
}

fn version_at(alloc: Global, tree: &ChainTree, path: &str) -> Result<u64, Fail> {
    let path = Path::read_plain(alloc, path.as_bytes())?;
    Ok(tree.version(&path))
}

#[test]
fn a_number_goes_up_to_the_root(rt: HostRuntime) -> Result<(), Fail> {
    let alloc = rt.alloc();
    let mut tree = grown::<ChainTree>(alloc)?;
    let folder = Path::read_plain(alloc, b"/a/b/")?;
    assert!(rt; raise::<Brand>(&mut tree, &folder, 7, Blank::new(1)));
    assert_eq!(rt; version_at(alloc, &tree, "/a/b/c")?, 1);
    assert_eq!(rt; version_at(alloc, &tree, "/a/b/")?, 7);
    assert_eq!(rt; version_at(alloc, &tree, "/a/")?, 7);
    assert_eq!(rt; version_at(alloc, &tree, "/")?, 7);
    Ok(())
}
