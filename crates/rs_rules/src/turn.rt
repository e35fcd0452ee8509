//! Turns of a desk.

use crate::reply::Reply;

/// A request decided: the reply, and the length of the history that it was decided on.
#[derive(Debug, Drop)]
pub struct Turn {
    pub reply: Reply,
    /// The number of entries before the one that the request added, if it added one.
    pub front: u64,
}
