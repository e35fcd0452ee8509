//! Versions.

ghost use Rattle.std.specs.Prelude.{◌≡◌, option_copied, if◌then◌else◌};
ghost use Rattle.rs_path.specs.Paths.{folder_at};
ghost use Rattle.rs_rules.specs.Versions.{is_there, doc_version};
ghost use Rattle.rs_plain.specs.PlainTrees.{last_write, version_in};

use crate::documents::{doc_in, has_below};
use crate::names::is_nil;
use crate::write::Write;
use crate::writes::last_write;
use rs_path::{Name, Path};
use rs_rules::{Doc, Placed};

/// The version of a path.
pub(crate) fn version_in(docs: &[Placed], writes: &[Write], path: &Path) -> u64
    ensures version { result ≡ version_in docs.now writes.now path.now }
{
    if path.is_folder() {
        folder_version(docs, writes, path.names())
    } else {
        doc_version(doc_in(path, docs))
    }
}

/// The version of the folder with these names: the number of the last write below it, where it is there.
pub(crate) fn folder_version(docs: &[Placed], writes: &[Write], names: &[Name]) -> u64
    ensures version { result ≡ (if is_there (folder_at names.now) docs.now then last_write (folder_at names.now) writes.now else 0) }
{
    if is_nil(names) || has_below(names, docs) {
        last_write(names, writes)
    } else {
        0
    }
}

/// The version of a document that may be there.
pub(crate) fn doc_version(doc: Option<&Doc>) -> u64
    ensures version { result ≡ doc_version (option_copied doc.entry) }
{
    match doc {
        None => 0,
        Some(doc) => doc.version,
    }
}
