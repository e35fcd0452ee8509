//! Posts.

/// What a worker has of its own: where its connections come from, and what it draws from.
#[derive(Debug, Drop)]
pub struct Post<N: Drop, E: Drop> {
    /// Where its connections come from.
    pub listener: N,
    /// What all its connections draw from, in order.
    pub entropy: E,
}
