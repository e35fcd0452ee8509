//! Why a command on a journal isn't done.

ghost use Rattle.std.specs.Prelude.{◌≡◌};

use rs_cache::{CacheFault, OpenFault};
use rs_path::{NoMemory, Path};

/// The answer to a command that wasn't done. The rows are as before.
#[derive(Debug, Drop)]
pub enum ClientFault {
    /// The row at the index, counted from 0, spells no event: the place of the fault in it.
    BadRow { index: u64, place: u32 },
    /// The event of the row at the index may not come behind those before it.
    Unlawful { index: u64 },
    /// The journal isn't empty, so the client is connected already.
    Connected,
    /// The journal is empty, so the client isn't connected.
    NotConnected,
    /// The source failed.
    SourceFailed,
    /// The source has more bytes than an edit may have: 67,108,864.
    TooLong,
    /// No root of the scopes holds the path.
    OutOfScope,
    /// The document has no place in the view: this one is in its way.
    Clash { path: Path },
    /// The view has no such document.
    NotThere,
    /// No conflict that isn't resolved has the number.
    NoConflict { n: u64 },
    /// The journal has 4,294,967,295 rows.
    JournalFull,
    /// The keeper failed.
    KeeperFailed,
    /// Memory ran out.
    NoMemory,
}

impl From<NoMemory> for ClientFault {
    ghost use Rattle.rs_client.specs.declared.client_fault.ClientFault.TheVariants.{NoMemory};

    ghost from_gives = { λ _ fault. fault ≡ NoMemory };

    fn from(_fault: NoMemory) -> ClientFault {
        ClientFault::NoMemory
    }
}

impl From<OpenFault> for ClientFault {
    ghost use Rattle.std.specs.Prelude.{◌≡◌};
    ghost use Rattle.rs_client.specs.Causes.{opening_fault};

    ghost from_gives = { λ cause fault. fault ≡ opening_fault cause };

    fn from(fault: OpenFault) -> ClientFault {
        match fault {
            OpenFault::BadRow { index, place } => ClientFault::BadRow { index, place },
            OpenFault::Unlawful { index } => ClientFault::Unlawful { index },
            OpenFault::KeeperFailed => ClientFault::KeeperFailed,
            OpenFault::NoMemory => ClientFault::NoMemory,
        }
    }
}

impl From<CacheFault> for ClientFault {
    ghost use Rattle.std.specs.Prelude.{◌≡◌};
    ghost use Rattle.rs_client.specs.Causes.{client_fault};

    ghost from_gives = { λ cause fault. fault ≡ client_fault cause };

    fn from(fault: CacheFault) -> ClientFault {
        match fault {
            CacheFault::Connected => ClientFault::Connected,
            CacheFault::Clash { path } => ClientFault::Clash { path },
            CacheFault::NotThere { .. } => ClientFault::NotThere,
            CacheFault::OutOfScope { .. } => ClientFault::OutOfScope,
            CacheFault::NoConflict { n } => ClientFault::NoConflict { n },
            CacheFault::JournalFull => ClientFault::JournalFull,
            CacheFault::KeeperFailed => ClientFault::KeeperFailed,
            CacheFault::NoMemory => ClientFault::NoMemory,
        }
    }
}
