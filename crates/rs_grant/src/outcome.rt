//! What a redirect carries.

use crate::grant_word::GrantWord;
use rs_scope::Token;

/// What a grant ends with (RFC 6749, sections 4.2.2 and 4.2.2.1).
#[derive(Debug, Clone, Copy, PartialEq, Eq)]
pub enum Outcome {
    /// The token that was granted.
    Token(Token),
    /// Why none was.
    Word(GrantWord),
}
