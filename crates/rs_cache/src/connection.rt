//! Where a client is connected to.

use rs_scope::Scopes;
use rs_talk::{Bearer, Root};

/// An account, and what the client may do there.
#[derive(Debug, Drop)]
pub struct Connection {
    /// The root of the account.
    pub root: Root,
    /// The token that the client shows.
    pub token: Bearer,
    /// What the token may do; their roots are what is synchronised.
    pub scopes: Scopes,
}
