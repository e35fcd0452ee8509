//! Children of a folder.

ghost use Rattle.std.specs.Prelude.{◌≡◌, IfOk};
ghost use Rattle.rs_path.specs.Children.{child_cmp};

use crate::key::compare_keys;
use crate::name::Name;
use crate::no_memory::NoMemory;
use std::cmp::Ordering;

/// One step down from a folder: a name in it, and whether it is a folder's.
#[derive(Debug, Drop)]
pub struct Child {
    pub name: Name,
    pub folder: bool,
}

impl Child {
    /// An equal child, from the same allocator.
    pub fn copy(&self) -> Result<Child, NoMemory>
        ensures same { IfOk result (λ copied. copied ≡ self.now) }
    {
        Ok(Child {
            name: self.name.copy()?,
            folder: self.folder,
        })
    }

    /// The order of the child before the one of this name, as `cmp` has it. It takes no memory.
    pub fn cmp_name(&self, name: &Name, folder: bool) -> Ordering
        ensures order { result ≡ child_cmp self.now (record { name = name.now; folder = folder }) }
    {
        compare_keys(self.name.as_slice(), self.folder, name.as_slice(), folder)
    }
}

impl PartialEq for Child {
    ghost use Rattle.rs_path.specs.Children.{same_child};
    ghost use Rattle.rs_path.specs.ChildOrder.{same_child_equiv};
    ghost use Rattle.std.specs.Cmp.{partial_equiv_from_equiv};

    ghost eq = { same_child };

    ghost laws = { partial_equiv_from_equiv same_child_equiv };

    fn eq(&self, other: &Child) -> bool {
        self.name == other.name && self.folder == other.folder
    }
}

impl Eq for Child {
    ghost use Rattle.rs_path.specs.ChildOrder.{same_child_equiv};

    ghost laws = { same_child_equiv };
}

impl PartialOrd for Child {
    ghost use Rattle.std.specs.Ordering.{as_partial_cmp};
    ghost use Rattle.rs_path.specs.ChildOrder.{child_order};

    ghost partial_cmp = { as_partial_cmp child_cmp };

    ghost laws = { child_order };

    fn partial_cmp(&self, other: &Child) -> Option<Ordering> {
        Some(self.cmp(other))
    }
}

/// The order of the keys, byte by byte; a folder's key is its name and `/`.
impl Ord for Child {
    ghost use Rattle.std.specs.Prelude.{refl};
    ghost use Rattle.rs_path.specs.ChildOrder.{child_cmp_total, child_ties};

    ghost cmp = { child_cmp };

    ghost total = { child_cmp_total };

    ghost matches_partial_cmp = { λ c d. refl };

    ghost matches_eq = { child_ties };

    fn cmp(&self, other: &Child) -> Ordering {
        compare_keys(
            self.name.as_slice(),
            self.folder,
            other.name.as_slice(),
            other.folder,
        )
    }
}
