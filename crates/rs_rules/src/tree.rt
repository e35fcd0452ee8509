//! Trees.

ghost use Rattle.std.specs.Prelude.{◌≡◌, ℕ, ◌+◌, ◌^◌, ◌<◌, true, false, List, length, Option, None, IfOk, OnOk, OnErr, is_some, option_copied};
ghost use Rattle.rs_path.specs.Paths.{Path as PathValue};
ghost use Rattle.rs_record.specs.declared.records.Record.TheVariants.{Put as PutRecord, Remove as RemoveRecord};
ghost use Rattle.rs_rules.specs.Documents.{doc_in, live_in};
ghost use Rattle.rs_rules.specs.Contents.{Contents, no_contents, contents_after};
ghost use Rattle.rs_rules.specs.Listings.{items_in};
ghost use Rattle.rs_rules.specs.Clashes.{clash_in, full_in};

use crate::doc::Doc;
use rs_path::{Bytes, Items, Kind, NoMemory, Path};
use std::alloc::Global;

/// The documents of a user and the versions of all that is there.
///
/// A tree keeps documents and versions and no history: it stands for contents, those of every history that has them.
/// Each clause holds for all contents that the tree stands for.
pub trait Tree: Drop {
    /// Room for a Put.
    type Ready: Drop;

    ghost use Rattle.std.specs.Prelude.{ℕ, List};
    ghost use Rattle.rs_path.specs.Paths.{Path as PathValue};
    ghost use Rattle.rs_rules.specs.Contents.{Contents};

    /// The tree has these documents and versions.
    ghost stands: { Self → Contents → Type 0 };

    /// The tree made room for a Put of this path, content type and body, and nothing was applied since.
    ghost ready_for: { Self → Self.Ready → PathValue → List ℕ → List ℕ → Type 0 };

    /// A tree without documents.
    fn new(alloc: Global) -> Result<Self, NoMemory>
        ensures empty { IfOk result (λ tree. stands tree no_contents) };

    /// The document at the path, or None. It takes no memory.
    fn find(&self, path: &Path) -> Option<&Doc>
        ensures found { (w : Contents) → stands self.now w → option_copied result ≡ doc_in path.now w.docs };

    /// The version of the path, 0 where nothing is there. It takes no memory.
    fn version(&self, path: &Path) -> u64
        ensures version { (w : Contents) → stands self.now w → result ≡ w.version path.now };

    /// The items of a folder: its documents, and its folders with a document below them.
    fn items(&self, folder: &Path) -> Result<Items, NoMemory>
        requires folder { folder.now.folder ≡ true }
        ensures items { (w : Contents) → stands self.now w → IfOk result (λ items. items ≡ items_in w folder.now) };

    /// The number of names of what a document at the path clashes with: of a document that it would be below, or its
    /// own where a folder that isn't empty has them. It takes no memory.
    fn clash(&self, path: &Path) -> Option<u32>
        ensures clash { (w : Contents) → stands self.now w → result ≡ clash_in w.docs path.now };

    /// The number of names of the first folder, from `/` down, that has no room for a document at the path. It takes
    /// no memory.
    fn full(&self, path: &Path) -> Option<u32>
        ensures full { (w : Contents) → stands self.now w → result ≡ full_in w.docs path.now };

    /// The sum of the lengths of the bodies, in bytes. It takes no memory.
    fn live(&self) -> u64
        ensures live { (w : Contents) → stands self.now w → result ≡ live_in w.docs };

    /// Makes room for a Put. The tree has what it had, also where memory ran out.
    fn prepare(&mut self, path: &Path, kind: &Kind, body: &Bytes) -> Result<Self::Ready, NoMemory>
        requires document { path.now.folder ≡ false }
        requires room { (w : Contents) × stands self.old w × (live_in w.docs + length body.now < 2 ^ 64) }
        ensures same { (w : Contents) → stands self.old w → stands self.new w }
        ensures ready { IfOk result (λ ready. ready_for self.new ready path.now kind.now body.now) };

    /// Puts the document that the room was made for, under the number. It takes no memory.
    fn put(&mut self, n: u64, ready: Self::Ready)
        requires fits { (w : Contents) × (path : PathValue) × (kind : List ℕ) × (body : List ℕ) × stands self.old w
            × ready_for self.old ready path kind body × (path.folder ≡ false) × (clash_in w.docs path ≡ None)
            × ((q : PathValue) → w.version q < n) × (live_in w.docs + length body < 2 ^ 64) }
        ensures put { (w : Contents) (path : PathValue) (kind body : List ℕ) (writer : Option (List ℕ)) → stands self.old w
            → ready_for self.old ready path kind body → stands self.new (contents_after n (PutRecord path kind body writer) w) };

    /// Removes the document at the path, under the number. It takes no memory.
    fn remove(&mut self, n: u64, path: &Path)
        requires fits { (w : Contents) × stands self.old w × (is_some (doc_in path.now w.docs) ≡ true)
            × ((q : PathValue) → w.version q < n) }
        ensures removed { (w : Contents) (writer : Option (List ℕ)) → stands self.old w
            → stands self.new (contents_after n (RemoveRecord path.now writer) w) };

    ghost use Rattle.std.specs.Prelude.{◌≡◌, false};
    ghost use Rattle.rs_path.specs.Paths.{is_nil};
    ghost use Rattle.rs_rules.specs.Documents.{doc_in};
    ghost use Rattle.rs_rules.specs.Sound.{AreDistinct};
    ghost use Rattle.rs_rules.specs.Versions.{doc_version};

    /// No path has two documents.
    ghost distinct: { (t : Self) (w : Contents) → stands t w → AreDistinct w.docs };

    /// The version of a document's path is the version of the document there, and 0 where there is none. So whoever has found
    /// the document knows the version without a second look.
    ghost dated: { (t : Self) (w : Contents) → stands t w → (path : PathValue) → path.folder ≡ false → is_nil path.names ≡ false
        → w.version path ≡ doc_version (doc_in path w.docs) };
}
