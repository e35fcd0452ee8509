//! One scope: a module or all, and whether it may be written.

ghost use Rattle.std.specs.Prelude.{◌≡◌, IfOk};

use crate::module::Module;
use rs_path::NoMemory;

/// What a scope is about.
#[derive(Debug, Drop)]
pub enum Reach {
    /// The folders `/MODULE/` and `/public/MODULE/` of this module, with all below them.
    Module(Module),
    /// Every path: `*`.
    Star,
}

/// One scope, as an application asks for it (draft-dejong-remotestorage, section 9).
#[derive(Debug, Drop)]
pub struct Scope {
    /// What it is about.
    pub reach: Reach,
    /// Whether it may be written, as well as read: `rw` and not `r`.
    pub write: bool,
}

impl Reach {
    /// An equal value, from the same allocator.
    pub fn copy(&self) -> Result<Reach, NoMemory>
        ensures same { IfOk result (λ copied. copied ≡ self.now) }
    {
        match self {
            Reach::Module(module) => Ok(Reach::Module(module.copy()?)),
            Reach::Star => Ok(Reach::Star),
        }
    }
}

impl Scope {
    /// An equal scope, from the same allocator.
    pub fn copy(&self) -> Result<Scope, NoMemory>
        ensures same { IfOk result (λ copied. copied ≡ self.now) }
    {
        Ok(Scope {
            reach: self.reach.copy()?,
            write: self.write,
        })
    }
}

impl PartialEq for Reach {
    ghost use Rattle.rs_scope.specs.SameScopes.{same_reach, same_reach_equiv};
    ghost use Rattle.std.specs.Cmp.{partial_equiv_from_equiv};

    ghost eq = { same_reach };

    ghost laws = { partial_equiv_from_equiv same_reach_equiv };

    fn eq(&self, other: &Reach) -> bool {
        match self {
            Reach::Module(module) => match other {
                Reach::Module(theirs) => module == theirs,
                Reach::Star => false,
            },
            Reach::Star => match other {
                Reach::Module(_) => false,
                Reach::Star => true,
            },
        }
    }
}

impl Eq for Reach {
    ghost use Rattle.rs_scope.specs.SameScopes.{same_reach_equiv};

    ghost laws = { same_reach_equiv };
}

impl PartialEq for Scope {
    ghost use Rattle.rs_scope.specs.SameScopes.{same_scope, same_scope_equiv};
    ghost use Rattle.std.specs.Cmp.{partial_equiv_from_equiv};

    ghost eq = { same_scope };

    ghost laws = { partial_equiv_from_equiv same_scope_equiv };

    fn eq(&self, other: &Scope) -> bool {
        self.reach == other.reach && self.write == other.write
    }
}

impl Eq for Scope {
    ghost use Rattle.rs_scope.specs.SameScopes.{same_scope_equiv};

    ghost laws = { same_scope_equiv };
}
