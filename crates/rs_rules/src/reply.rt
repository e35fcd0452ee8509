//! Replies.

use rs_path::{Bytes, Items, Kind, Path};

/// The reply to a request. Which one comes, says `answer`; the statuses are those of RFC 9110, section 15.
#[derive(Debug, Drop)]
pub enum Reply {
    /// A document, 200.
    Found {
        version: u64,
        kind: Kind,
        body: Bytes,
    },
    /// A folder, 200.
    Folder {
        version: u64,
        items: Items,
    },
    /// The document was written, 201 where none was there, else 200.
    Stored {
        version: u64,
        created: bool,
    },
    /// The document was removed, 200; the version is the one that it had.
    Removed {
        version: u64,
    },
    /// The version that the request names is the present one, 304.
    Same {
        version: u64,
    },
    /// No token, 401.
    NoToken,
    /// A token that isn't granted, 401.
    BadToken,
    /// The token's scopes don't reach, 403.
    Forbidden,
    /// A write on a folder, 400.
    FolderWrite,
    /// A document stands where a folder is wanted, or the other way round, 409.
    Clash {
        path: Path,
    },
    /// No such document, 404.
    Absent,
    /// A condition isn't met, 412.
    Unmet,
    /// The history is at its greatest length, 507.
    RecordsFull,
    /// The bodies would pass the quota, 507; the present sum of their lengths.
    OverQuota {
        live: u64,
    },
    /// The folder would have too many items, 507.
    FolderFull {
        path: Path,
    },
    /// The record could not be kept, 500. No `answer` is this.
    StoreFailed,
    /// The token has the scopes.
    Granted,
    /// The token has scopes already.
    TokenTaken,
    /// The token's scopes are taken away.
    Revoked,
    /// The token has no scopes.
    NotGranted,
}
