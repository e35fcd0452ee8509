//! Why a link brings no reply.

ghost use Rattle.std.specs.Prelude.{◌≡◌};

use rs_path::NoMemory;
use std::alloc::AllocError;

/// The answer of a link that brings no reply.
#[derive(Debug, Clone, Copy, PartialEq, Eq)]
pub enum LinkFault {
    /// The request or its reply was lost, and the link counted a fault. Whether the server took the request isn't known.
    Lost,
    /// The reply is longer than a link takes, and the link counted a long reply.
    TooLong,
    /// Memory ran out. This is no fault, and isn't counted.
    NoMemory,
}

impl From<NoMemory> for LinkFault {
    ghost use Rattle.rs_talk.specs.declared.link_fault.LinkFault.TheVariants.{NoMemory};

    ghost from_gives = { λ _ fault. fault ≡ NoMemory };

    fn from(_e: NoMemory) -> LinkFault {
        LinkFault::NoMemory
    }
}

impl From<AllocError> for LinkFault {
    ghost use Rattle.rs_talk.specs.declared.link_fault.LinkFault.TheVariants.{NoMemory};

    ghost from_gives = { λ _ fault. fault ≡ NoMemory };

    fn from(_e: AllocError) -> LinkFault {
        LinkFault::NoMemory
    }
}
