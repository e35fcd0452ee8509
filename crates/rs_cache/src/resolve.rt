//! How a conflict is resolved.

/// What becomes of the client's own change in a conflict.
#[derive(Debug, Clone, Copy, PartialEq, Eq)]
pub enum Resolve {
    /// It is to be made again.
    Keep,
    /// It is given up.
    Drop,
}
