//! Why bytes are no folder description.

ghost use Rattle.std.specs.Prelude.{◌≡◌};

use rs_path::{Bytes, NoMemory};
use std::alloc::{AllocError, AllocFailed};

/// The answer to bytes that aren't read as a folder description.
#[derive(Debug, PartialEq, Eq, Drop)]
pub enum FolderFault {
    /// The bytes are no JSON (RFC 8259), or a number in them is out of range, or they nest deeper than 127.
    NotJson,
    /// There is no object, or none with an object `items`.
    NoItems,
    /// Of the keys of `items`, with a folder's slash, the first in byte order that is wrong: its name is no
    /// `Name`, or its value is no object with a text `ETag` that is a `Tag`.
    BadItem { name: Bytes },
    /// Memory ran out.
    NoMemory,
}

impl From<NoMemory> for FolderFault {
    ghost use Rattle.rs_folder.specs.declared.folder_fault.FolderFault.TheVariants.{NoMemory};

    ghost from_gives = { λ _ fault. fault ≡ NoMemory };

    fn from(_e: NoMemory) -> FolderFault {
        FolderFault::NoMemory
    }
}

impl From<AllocError> for FolderFault {
    ghost use Rattle.rs_folder.specs.declared.folder_fault.FolderFault.TheVariants.{NoMemory};

    ghost from_gives = { λ _ fault. fault ≡ NoMemory };

    fn from(_e: AllocError) -> FolderFault {
        FolderFault::NoMemory
    }
}

impl<T: Drop> From<AllocFailed<T>> for FolderFault {
    ghost use Rattle.rs_folder.specs.declared.folder_fault.FolderFault.TheVariants.{NoMemory};

    ghost from_gives = { λ _ fault. fault ≡ NoMemory };

    fn from(_e: AllocFailed<T>) -> FolderFault {
        FolderFault::NoMemory
    }
}
