//! What a request shows of a token.

use rs_scope::Token;

/// What the Authorization field of a request brings (RFC 6750, section 2.1).
#[derive(Debug, Drop)]
pub enum Pass {
    /// There is no bearer token.
    Missing,
    /// There is one that no server of this kind gives out.
    Strange,
    /// A token.
    Known(Token),
}
