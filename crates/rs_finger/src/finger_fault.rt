//! Why there is no discovery answer.

ghost use Rattle.std.specs.Prelude.{◌≡◌};

use rs_path::NoMemory;
use std::alloc::{AllocError, AllocFailed};

/// The answer to a query, or to bytes, that give no discovery answer.
#[derive(Debug, Clone, Copy, PartialEq, Eq)]
pub enum FingerFault {
    /// The query has no `resource` (RFC 7033, section 4.2: 400).
    NoResource,
    /// The query has several, or one that is no URI (RFC 7033, section 4.2: 400).
    BadResource,
    /// The resource is no account of this server (RFC 7033, section 4.2: 404).
    Unknown,
    /// The bytes are no JSON, or hold no link to a storage.
    NoLink,
    /// Memory ran out.
    NoMemory,
}

impl From<NoMemory> for FingerFault {
    ghost use Rattle.rs_finger.specs.declared.finger_fault.FingerFault.TheVariants.{NoMemory};

    ghost from_gives = { λ _ fault. fault ≡ NoMemory };

    fn from(_e: NoMemory) -> FingerFault {
        FingerFault::NoMemory
    }
}

impl From<AllocError> for FingerFault {
    ghost use Rattle.rs_finger.specs.declared.finger_fault.FingerFault.TheVariants.{NoMemory};

    ghost from_gives = { λ _ fault. fault ≡ NoMemory };

    fn from(_e: AllocError) -> FingerFault {
        FingerFault::NoMemory
    }
}

impl<T: Drop> From<AllocFailed<T>> for FingerFault {
    ghost use Rattle.rs_finger.specs.declared.finger_fault.FingerFault.TheVariants.{NoMemory};

    ghost from_gives = { λ _ fault. fault ≡ NoMemory };

    fn from(_e: AllocFailed<T>) -> FingerFault {
        FingerFault::NoMemory
    }
}
