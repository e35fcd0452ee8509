//! What a list of documents shows.

ghost use Rattle.std.specs.Prelude.{◌≡◌, ◌-◌, ◌^◌, min, option_copied};
ghost use Rattle.std.specs.List.{list_any};
ghost use Rattle.rs_path.specs.Paths.{folder_at, document_at, same_path};
ghost use Rattle.rs_rules.specs.declared.placed.Placed.{Placed as PlacedValue};
ghost use Rattle.rs_rules.specs.Documents.{doc_in, has_below, live_in};
ghost use Rattle.rs_rules.specs.Clashes.{clash_in};

use crate::names::is_inside;
use rs_path::{Name, Path};
use rs_rules::{Doc, Placed};

/// The document at the path.
pub(crate) fn doc_in<'a>(path: &Path, docs: &'a [Placed]) -> Option<&'a Doc>
    ensures found { option_copied result ≡ doc_in path.now docs.now }
{
    docs.iter()
        .find(|placed| *path == placed.path)
        .map(|placed| &placed.doc)
}

/// Whether a document lies below the folder with these names.
pub(crate) fn has_below(names: &[Name], docs: &[Placed]) -> bool
    ensures below { result ≡ has_below (folder_at names.now) docs.now }
{
    docs.iter()
        .any(|placed| is_inside(names, placed.path.names()))
}

/// Whether a document stands at these names.
fn has_document(docs: &[Placed], names: &[Name]) -> bool
    ensures document { result ≡ list_any (λ (d : PlacedValue). same_path (document_at names.now) d.path) docs.now }
{
    docs.iter().any(|placed| is_at(names, &placed.path))
}

/// The document that stands at these names.
pub(crate) fn find_at<'a>(names: &[Name], docs: &'a [Placed]) -> Option<&'a Doc>
    ensures found { option_copied result ≡ doc_in (document_at names.now) docs.now }
{
    docs.iter()
        .find(|placed| is_at(names, &placed.path))
        .map(|placed| &placed.doc)
}

fn is_at(names: &[Name], path: &Path) -> bool
    ensures at { result ≡ same_path (document_at names.now) path.now }
{
    names == path.names() && !path.is_folder()
}

/// The sum of the lengths of the bodies, in bytes, up to the greatest number of 64 bits.
pub(crate) fn live_in(docs: &[Placed]) -> u64
    ensures live { result ≡ min (live_in docs.now) (2 ^ 64 - 1) }
{
    let mut live: u64 = 0;
    for placed in docs {
        live = live.saturating_add(placed.doc.body.as_slice().len() as u64);
    }
    live
}

/// The number of names of what a document at the path clashes with.
pub(crate) fn clash_in(docs: &[Placed], path: &Path) -> Option<u32>
    ensures clash { result ≡ clash_in docs.now path.now }
{
    let names = path.names();
    for depth in 1..names.len() {
        if has_document(docs, &names[..depth]) {
            return Some(depth as u32);
        }
    }
    if has_below(names, docs) {
        Some(path.depth())
    } else {
        None
    }
}
