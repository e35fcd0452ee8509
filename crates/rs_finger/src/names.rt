//! Names of users, as a list.

ghost use Rattle.std.specs.Prelude.{◌≡◌, [], ◌∷◌, ◌++◌, OnOk, OnErr};

use rs_path::{Bytes, NoMemory};
use std::alloc::Global;
use std::marker::Model;

/// The names of the users of a server. A contract sees them as their list.
#[derive(Debug, Drop)]
pub struct Names {
    list: Vec<Bytes>,
}

impl Model for Names {
    ghost use Rattle.std.specs.Prelude.{List, ℕ};

    ghost Value = { List (List ℕ) };

    ghost view = { λ n. n.list.items };
}

impl Names {
    /// No names.
    pub fn new(alloc: Global) -> Names
        ensures empty { result ≡ [] }
    {
        Names {
            list: Vec::new(alloc),
        }
    }

    /// Appends a name. Where memory runs out, the names are as before and this one is dropped.
    pub fn push(&mut self, name: Bytes) -> Result<(), NoMemory>
        ensures ok { OnOk result (self.new ≡ self.old ++ name ∷ []) }
        ensures err { OnErr result (self.new ≡ self.old) }
    {
        self.list.push(name)?;
        Ok(())
    }

    /// The names, in order.
    pub fn as_slice(&self) -> &[Bytes]
        ensures names { result.now ≡ self.now }
    {
        self.list.as_slice()
    }
}
