//! What the user chose.

use rs_path::Bytes;

/// The user's answer to the consent page.
#[derive(Debug, PartialEq, Eq, Drop)]
pub enum Choice {
    /// `choice` is `allow`; the password is None where it is missing or repeated.
    Allow { password: Option<Bytes> },
    /// `choice` is `deny`.
    Deny,
    /// `choice` is neither, missing, or repeated.
    Other,
}
