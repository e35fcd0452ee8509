//! Folders at their limit.

ghost use Rattle.std.specs.Prelude.{◌≡◌, length};
ghost use Rattle.rs_path.specs.Paths.{folder_at};
ghost use Rattle.rs_path.specs.Children.{child_towards};
ghost use Rattle.rs_rules.specs.Clashes.{full_in, is_full};
ghost use Rattle.rs_rules.specs.Contents.{paths_in};
ghost use Rattle.rs_rules.specs.Listings.{children};
ghost use Rattle.rs_rules.specs.Sound.{AreDistinct};
ghost use Rattle.rs_plain.specs.Steps.{is_to, is_seen, is_fresh, is_first};

use crate::steps::step_towards;
use rs_path::{Name, Path, child_laws};
use rs_rules::{MAX_ITEMS, Placed, listing_laws};

/// The number of names of the first folder, from `/` down, that has no room for a document at the path.
///
/// It holds of documents of which no two have one path.
pub(crate) fn full_in(docs: &[Placed], path: &Path) -> Option<u32>
    ensures full { AreDistinct docs.now → result ≡ full_in docs.now path.now }
{
    let names = path.names();
    for depth in 0..names.len() {
        if is_full(docs, path, &names[..depth]) {
            return Some(depth as u32);
        }
    }
    None
}

// Fewer documents than items fill no folder, so the children are counted only where there are as many.
fn is_full(docs: &[Placed], path: &Path, names: &[Name]) -> bool
    ensures full { AreDistinct docs.now → result ≡ is_full docs.now path.now names.now }
{
    listing_laws();
    if docs.len() < MAX_ITEMS {
        return false;
    }
    let count = count_children(names, docs);
    if is_fresh(names, docs, path) {
        MAX_ITEMS <= count
    } else {
        MAX_ITEMS < count
    }
}

// The number of children of the folder with these names: each document counts that is the first at or below its child.
fn count_children(names: &[Name], docs: &[Placed]) -> usize
    ensures count { AreDistinct docs.now → result ≡ length (children (folder_at names.now) (paths_in docs.now)) }
{
    child_laws();
    let mut count = 0;
    for i in 0..docs.len() {
        if is_first(names, &docs[..i], &docs[i].path) {
            count += 1;
        }
    }
    count
}

// Whether the path leads to a child that no other document before it does. A document that is the child is the only one.
fn is_first(names: &[Name], before: &[Placed], path: &Path) -> bool
    ensures first { result ≡ is_first (folder_at names.now) before.now (child_towards (folder_at names.now) path.now) }
{
    match step_towards(names, path) {
        None => false,
        Some((name, folder)) => !folder || !is_seen(names, before, name, folder),
    }
}

fn is_fresh(names: &[Name], docs: &[Placed], path: &Path) -> bool
    ensures fresh { result ≡ is_fresh (folder_at names.now) docs.now (child_towards (folder_at names.now) path.now) }
{
    match step_towards(names, path) {
        None => false,
        Some((name, folder)) => !is_seen(names, docs, name, folder),
    }
}

fn is_seen(names: &[Name], docs: &[Placed], name: &Name, folder: bool) -> bool
    ensures seen { result ≡ is_seen (folder_at names.now) docs.now (record { name = name.now; folder = folder }) }
{
    docs.iter()
        .any(|placed| is_to(names, &placed.path, name, folder))
}

fn is_to(names: &[Name], path: &Path, name: &Name, folder: bool) -> bool
    ensures to { result ≡ is_to (record { name = name.now; folder = folder }) (child_towards (folder_at names.now) path.now) }
{
    match step_towards(names, path) {
        None => false,
        Some((found, of_folder)) => name == found && folder == of_folder,
    }
}
