//! What an app gets of a discovery answer.

use rs_path::Bytes;

/// The two addresses of a user's storage (draft-dejong-remotestorage, section 10).
#[derive(Debug, PartialEq, Eq, Drop)]
pub struct Links {
    /// Where the documents are.
    pub root: Bytes,
    /// Where the user is asked for a grant (RFC 6749, section 4.2).
    pub dialog: Bytes,
}
