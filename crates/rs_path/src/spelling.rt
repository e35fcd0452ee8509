//! The two spellings of a path.

/// How the names of a path are spelled in a text.
#[derive(Debug, Clone, Copy, PartialEq, Eq)]
pub(crate) enum Spelling {
    /// With escapes, as in the target of a request.
    Escaped,
    /// Byte for byte.
    Plain,
}
