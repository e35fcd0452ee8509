//! The parts of a reply.

/// A part of a reply.
#[derive(Clone, Copy, Debug, PartialEq, Eq)]
pub(crate) enum Part {
    /// Its head: the last one, behind those of interim replies.
    Head,
    /// What stands behind the head.
    Body,
}
