//! How much a client has.

/// Counts of what a client has.
#[derive(Debug, Clone, Copy, PartialEq, Eq)]
pub struct Summary {
    /// Documents in the base.
    pub documents: u64,
    /// Changes that wait, held ones too.
    pub pending: u64,
    /// Changes that are held.
    pub held: u64,
    /// Conflicts that aren't resolved.
    pub conflicts: u64,
}
