//! What a client shows of a folder.

ghost use Rattle.std.specs.Prelude.{◌≡◌, true, Some, IfOk, IfSome, option_copied};
ghost use Rattle.rs_path.specs.Below.{is_below};
ghost use Rattle.rs_path.specs.Children.{child_towards};
ghost use Rattle.rs_cache.specs.Lists.{shown_children, IsNextChild};
ghost use Rattle.rs_cache.specs.PastChildren.{IsPastChild};

use crate::client::Client;
use rs_path::{Child, Name, NoMemory, Path};
use std::alloc::Global;
use std::collections::BTreeSet;
use std::ops::Bound;

impl Client {
    /// The children of the folder in the view, in byte order of their keys.
    ///
    /// It takes a time that grows with what it shows, and with the logarithm of the number of all other documents; only
    /// below a folder whose name has 255 bytes are the documents gone through one by one.
    pub fn list(&self, folder: &Path) -> Result<BTreeSet<Child>, NoMemory>
        requires folder { folder.now.folder ≡ true }
        ensures list { IfOk result (λ children. children.keys ≡ shown_children self.now folder.now) }
    {
        self.base.len();
        let mut children = BTreeSet::new(self.alloc);
        let mut next = self.first_shown(folder, Bound::Excluded(folder));
        while let Some(path) = next {
            path.names();
            children.insert(child_of(folder, path)?)?;
            next = self.next_child(folder, path)?;
        }
        Ok(children)
    }

    // The first path of the view below the folder that comes behind this one and leads to another child; where no path
    // can say where the next child begins, the first behind this one.
    fn next_child(&self, folder: &Path, path: &Path) -> Result<Option<&Path>, NoMemory>
        requires folder { folder.now.folder ≡ true }
        requires below { is_below folder.now path.now ≡ true }
        ensures next { IfOk result (λ next. IsNextChild self.now folder.now path.now (option_copied next)) }
    {
        path.names();
        match past_child(self.alloc, folder, path)? {
            None => Ok(self.first_shown(folder, Bound::Excluded(path))),
            Some(past) => Ok(self.first_shown(folder, Bound::Included(&past))),
        }
    }
}

// The child of the folder that the path is, or is below.
fn child_of(folder: &Path, path: &Path) -> Result<Child, NoMemory>
    requires below { is_below folder.now path.now ≡ true }
    ensures child { IfOk result (λ child. child_towards folder.now path.now ≡ Some child) }
{
    let depth = folder.names().len();
    let names = path.names();
    Ok(Child {
        name: names[depth].copy()?,
        folder: path.is_folder() || names.len() > depth + 1,
    })
}

// A path that comes behind all that is below the child of the folder that the path is below, and before all else that
// does: the texts below the child go on with `/`, and the next byte is `0`. None where the path is the child, and where
// the child's name has no room for one byte more.
fn past_child(alloc: Global, folder: &Path, path: &Path) -> Result<Option<Path>, NoMemory>
    requires folder { folder.now.folder ≡ true }
    requires below { is_below folder.now path.now ≡ true }
    ensures past { IfOk result (λ past. IfSome past (λ p. IsPastChild folder.now path.now p)) }
{
    let depth = folder.names().len();
    let names = path.names();
    if names.len() == depth + 1 {
        return Ok(None);
    }
    let mut text = Vec::from_slice(alloc, names[depth].as_slice())?;
    text.push(b'0')?;
    match Name::read(alloc, text.as_slice())? {
        None => Ok(None),
        Some(name) => {
            let past = folder.child(&name, false)?;
            past.names();
            Ok(Some(past))
        }
    }
}
