//! Why bytes are no reply.

use rs_path::NoMemory;

/// Why bytes are no reply.
#[derive(Clone, Copy, Debug, PartialEq, Eq)]
pub enum ReplyFault {
    /// The bytes are no reply from this place on.
    Bad { place: u64 },
    /// The allocator had no memory.
    NoMemory,
}

impl From<NoMemory> for ReplyFault {
    ghost from_gives = { λ _ e. e ≡ ReplyFault.NoMemory };

    ghost use Rattle.rs_reply.specs.declared.fault.ReplyFault.TheVariants as ReplyFault;
    ghost use Rattle.std.specs.Prelude.{◌≡◌};

    fn from(_e: NoMemory) -> ReplyFault {
        ReplyFault::NoMemory
    }
}
