//! Requests.

use crate::call::Call;
use rs_scope::{Scopes, Token};

/// What a user's history can be asked.
#[derive(Debug, Drop)]
pub enum Request {
    /// A request on a document or a folder.
    Store(Call),
    /// Grants the scopes to the token.
    Grant { token: Token, scopes: Scopes },
    /// Takes the token's scopes away.
    Revoke { token: Token },
}
