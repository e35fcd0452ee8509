//! Why a call on a client isn't done.

ghost use Rattle.std.specs.Prelude.{◌≡◌};

use rs_path::{NoMemory, Path};

/// The answer to a call on a client that wasn't done. State and rows are as before.
#[derive(Debug, Drop)]
pub enum CacheFault {
    /// The client is connected already.
    Connected,
    /// The document has no place in the view: another document's path is a front of its names, or it stands at the
    /// names of a folder; this document is in its way.
    Clash { path: Path },
    /// The view has no such document.
    NotThere { path: Path },
    /// No root of the scopes holds the path.
    OutOfScope { path: Path },
    /// No conflict that isn't resolved has the number.
    NoConflict { n: u64 },
    /// The journal has 4,294,967,295 rows.
    JournalFull,
    /// The row could not be kept.
    KeeperFailed,
    /// Memory ran out.
    NoMemory,
}

impl From<NoMemory> for CacheFault {
    ghost use Rattle.rs_cache.specs.declared.cache_fault.CacheFault.TheVariants.{NoMemory};

    ghost from_gives = { λ _ fault. fault ≡ NoMemory };

    fn from(_e: NoMemory) -> CacheFault {
        CacheFault::NoMemory
    }
}
