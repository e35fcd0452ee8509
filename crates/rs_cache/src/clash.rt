//! What stands in the way of a document.

ghost use Rattle.std.specs.Prelude.{◌≡◌, ◌<◌, length, IfOk};
ghost use Rattle.rs_path.specs.Paths.{folder_at};
ghost use Rattle.rs_cache.specs.Views.{is_viewed, viewed_above, viewed_below, clash_of};

use crate::client::Client;
use rs_path::{NoMemory, Path};
use std::ops::Bound;

impl Client {
    /// Whether the view has a document at the path. It takes no memory.
    pub(crate) fn is_viewed(&self, path: &Path) -> bool
        ensures viewed { result ≡ is_viewed self.now path.now }
    {
        match self.pending.get(path) {
            Some(pending) => !pending.change.is_removal(),
            None => match self.base.get(path) {
                Some(_) => true,
                None => false,
            },
        }
    }

    /// The document of the view that a document at the path clashes with.
    pub(crate) fn clash(&self, path: &Path) -> Result<Option<Path>, NoMemory>
        ensures clash { IfOk result (λ clash. clash ≡ clash_of self.now path.now) }
    {
        match self.viewed_above(path)? {
            Some(above) => Ok(Some(above)),
            None => self.viewed_below(path),
        }
    }

    // The document of the view with a proper front of the path's names, the one with the fewest.
    fn viewed_above(&self, path: &Path) -> Result<Option<Path>, NoMemory>
        ensures above { IfOk result (λ above. above ≡ viewed_above self.now path.now) }
    {
        let folders = path.ancestors()?;
        for depth in 1..folders.len() {
            let document = twin(&folders[depth], false)?;
            if self.is_viewed(&document) {
                return Ok(Some(document));
            }
        }
        Ok(None)
    }

    // The least document of the view below the path's names.
    fn viewed_below(&self, path: &Path) -> Result<Option<Path>, NoMemory>
        ensures below { IfOk result (λ below. below ≡ viewed_below self.now path.now) }
    {
        let folder = folder_of(path)?;
        match self.first_shown(&folder, Bound::Excluded(&folder)) {
            Some(path) => Ok(Some(path.copy()?)),
            None => Ok(None),
        }
    }
}

// The folder at the path's names.
fn folder_of(path: &Path) -> Result<Path, NoMemory>
    ensures folder { IfOk result (λ folder. folder ≡ folder_at path.now.names) }
{
    if path.is_folder() {
        path.copy()
    } else {
        twin(path, true)
    }
}

// The path at these names, of a folder or of a document.
fn twin(path: &Path, folder: bool) -> Result<Path, NoMemory>
    requires named { 0 < length path.now.names }
    ensures twin { IfOk result (λ twin. twin ≡ record { names = path.now.names; folder = folder }) }
{
    path.depth();
    let names = path.names();
    match path.parent()? {
        Some(parent) => parent.child(&names[names.len() - 1], folder),
        None => unreachable!(),
    }
}
