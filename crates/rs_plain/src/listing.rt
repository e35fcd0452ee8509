//! The items of a folder.

ghost use Rattle.std.specs.Prelude.{◌≡◌, ◌∷◌, ◌++◌, [], All, IfOk, IfSome, IsTrue, true};
ghost use Rattle.std.specs.Ordering.{is_lt};
ghost use Rattle.rs_path.specs.declared.child.Child.{Child as ChildValue};
ghost use Rattle.rs_path.specs.Names.{is_name};
ghost use Rattle.rs_path.specs.Paths.{folder_at, document_at};
ghost use Rattle.rs_path.specs.Children.{child_towards};
ghost use Rattle.rs_rules.specs.Contents.{paths_in};
ghost use Rattle.rs_rules.specs.Listings.{children, item_of, items_in};
ghost use Rattle.rs_plain.specs.PlainTrees.{contents_in};

use crate::documents::find_at;
use crate::steps::step_towards;
use crate::versions::{doc_version, folder_version};
use crate::write::Write;
use rs_path::{Child, Entry, Items, Name, NoMemory, Path, Tag};
use rs_rules::{Doc, Placed};
use std::alloc::Global;
use std::collections::BTreeSet;

/// The items of a folder, in byte order of their keys.
pub(crate) fn items_in(
    alloc: Global,
    docs: &[Placed],
    writes: &[Write],
    folder: &Path,
) -> Result<Items, NoMemory>
    requires folder { folder.now.folder ≡ true }
    ensures items { IfOk result (λ items. items ≡ items_in (contents_in docs.now writes.now) folder.now) }
{
    let children = children_of(alloc, folder, docs)?;
    let mut items = Items::new(alloc);
    for child in children.iter() {
        items.push(item_of(alloc, docs, writes, folder, child)?)?;
    }
    Ok(items)
}

fn children_of(alloc: Global, folder: &Path, docs: &[Placed]) -> Result<BTreeSet<Child>, NoMemory>
    requires folder { folder.now.folder ≡ true }
    ensures children { IfOk result (λ found. found.keys ≡ children folder.now (paths_in docs.now)) }
    ensures names { IfOk result (λ found. All (λ (child : ChildValue). IsTrue (is_name child.name)) found.keys) }
{
    let mut found = BTreeSet::new(alloc);
    for placed in docs {
        if let Some(child) = child_towards(folder, &placed.path)? {
            found.insert(child)?;
        }
    }
    Ok(found)
}

fn child_towards(folder: &Path, path: &Path) -> Result<Option<Child>, NoMemory>
    requires folder { folder.now.folder ≡ true }
    ensures child { IfOk result (λ child. child ≡ child_towards folder.now path.now) }
    ensures name { IfOk result (λ child. IfSome child (λ c. IsTrue (is_name c.name))) }
{
    match step_towards(folder.names(), path) {
        None => Ok(None),
        Some((name, folder)) => Ok(Some(Child {
            name: name.copy()?,
            folder,
        })),
    }
}

fn item_of(
    alloc: Global,
    docs: &[Placed],
    writes: &[Write],
    folder: &Path,
    child: &Child,
) -> Result<Entry, NoMemory>
    ensures item { IfOk result (λ item. item ≡ item_of (contents_in docs.now writes.now) folder.now child.now) }
{
    let names = names_of(alloc, folder.names(), &child.name)?;
    if child.folder {
        let version = folder_version(docs, writes, names.as_slice());
        return Ok(Entry {
            name: child.name.copy()?,
            folder: true,
            tag: Tag::of(alloc, version)?,
            kind: None,
            length: None,
        });
    }
    let doc = find_at(names.as_slice(), docs);
    Ok(Entry {
        name: child.name.copy()?,
        folder: false,
        tag: Tag::of(alloc, doc_version(doc))?,
        kind: match doc {
            None => None,
            Some(doc) => Some(doc.kind.copy()?),
        },
        length: doc.map(|doc| doc.body.as_slice().len() as u64),
    })
}

fn names_of(alloc: Global, names: &[Name], last: &Name) -> Result<Vec<Name>, NoMemory>
    ensures names { IfOk result (λ all. all.items ≡ names.now ++ last.now ∷ []) }
{
    let mut all = Vec::new(alloc);
    for name in names {
        all.push(name.copy()?)?;
    }
    all.push(last.copy()?)?;
    Ok(all)
}
