//! A list of bytes.

ghost use Rattle.std.specs.Prelude.{◌≡◌, IfOk};
ghost use Rattle.std.specs.Cmp.{partial_equiv_from_equiv};
ghost use Rattle.std.proofs.lemmas.Cmp.{nat_list_eq_equiv};
ghost use Rattle.std.specs.Str.{bytes_eq};
ghost use Rattle.rs_path.specs.BytesHeld.{bytes_held};

use crate::no_memory::NoMemory;
use std::marker::Model;
use std::sync::Arc;

/// Bytes, as the body of a document. A contract sees them as their list.
///
/// They are one value's own, until [`Bytes::shared`] lets copies have one list in common, which goes with the last of them.
#[derive(Debug, Drop)]
pub struct Bytes {
    held: Held,
}

// Where the bytes are. They are dropped by one call, so that to whoever drops some it is one step.
#[derive(Debug)]
enum Held {
    Own(Vec<u8>),
    Shared(Arc<Vec<u8>>),
}

impl Drop for Held {
    fn drop(self) {
        self.release();
    }
}

impl Held {
    fn release(self) {
        match self {
            Held::Own(list) => drop(list),
            Held::Shared(list) => drop(list),
        }
    }

    fn shared(self) -> Held
        ensures same { bytes_held result ≡ bytes_held self }
    {
        match self {
            Held::Own(list) => share(list),
            Held::Shared(list) => Held::Shared(list),
        }
    }
}

impl Model for Bytes {
    ghost use Rattle.std.specs.Prelude.{List, ℕ};
    ghost use Rattle.rs_path.specs.BytesHeld.{bytes_held};

    ghost Value = { List ℕ };

    ghost view = { λ b. bytes_held b.held };
}

impl Bytes {
    /// The bytes of a list, which is moved in.
    pub fn of(list: Vec<u8>) -> Bytes
        ensures bytes { result ≡ list.items }
    {
        Bytes {
            held: Held::Own(list),
        }
    }

    /// The same bytes, shared from now on where there is memory for it, so that copies take none that grows with them.
    pub fn shared(self) -> Bytes
        ensures same { result ≡ self }
    {
        Bytes {
            held: self.held.shared(),
        }
    }

    /// The bytes.
    pub fn as_slice(&self) -> &[u8]
        ensures bytes { result.now ≡ self.now }
    {
        match &self.held {
            Held::Own(list) => list.as_slice(),
            Held::Shared(list) => list.as_slice(),
        }
    }

    /// Equal bytes: of shared ones a further owner, which takes no memory, of others as many from the same allocator.
    pub fn copy(&self) -> Result<Bytes, NoMemory>
        ensures same { IfOk result (λ copied. copied ≡ self.now) }
    {
        Ok(Bytes {
            held: match &self.held {
                Held::Own(list) => Held::Own(list.clone()?),
                Held::Shared(list) => Held::Shared(Arc::try_clone(list)?),
            },
        })
    }
}

// A list that several values may own, where it isn't empty and there is memory for that.
fn share(list: Vec<u8>) -> Held
    ensures same { bytes_held result ≡ list.items }
{
    if list.is_empty() {
        return Held::Own(list);
    }
    let alloc = *list.allocator();
    match Arc::new(alloc, list) {
        Ok(list) => Held::Shared(list),
        Err(failed) => Held::Own(failed.value),
    }
}

impl PartialEq for Bytes {
    ghost eq = { bytes_eq };

    ghost laws = { partial_equiv_from_equiv nat_list_eq_equiv };

    fn eq(&self, other: &Bytes) -> bool {
        self.as_slice() == other.as_slice()
    }
}

impl Eq for Bytes {
    ghost laws = { nat_list_eq_equiv };
}
