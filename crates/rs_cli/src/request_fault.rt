//! Why a request did nothing.

use rs_scope::Token;

/// Why a request to grant or to revoke a token adds no record.
#[derive(Clone, Copy, Debug, PartialEq, Eq)]
pub enum RequestFault {
    /// The token isn't granted.
    NotGranted,
    /// 4,294,967,295 records are there.
    RecordsFull,
    /// The token is granted already.
    TokenTaken { token: Token },
    /// The keeper failed.
    KeeperFailed,
    /// Memory ran out.
    NoMemory,
}
