//! Why an app gets no token, in a word.

ghost use Rattle.std.specs.Prelude.{◌≡◌};
ghost use Rattle.rs_grant.specs.Words.{word_text};

/// The words for an error that a redirect carries (RFC 6749, section 4.2.2.1). `unauthorized_client` and
/// `temporarily_unavailable` are never sent.
#[derive(Debug, Clone, Copy, PartialEq, Eq)]
pub enum GrantWord {
    /// A field is missing or repeated.
    InvalidRequest,
    /// `response_type` isn't `token`.
    UnsupportedResponseType,
    /// `scope` is missing or isn't read as scopes.
    InvalidScope,
    /// The user said no.
    AccessDenied,
    /// No token could be drawn, or it couldn't be kept.
    ServerError,
}

impl GrantWord {
    /// The word as it is sent.
    pub fn as_str(&self) -> &'static str
        ensures text { result.now ≡ word_text self.now }
    {
        match self {
            GrantWord::InvalidRequest => "invalid_request",
            GrantWord::UnsupportedResponseType => "unsupported_response_type",
            GrantWord::InvalidScope => "invalid_scope",
            GrantWord::AccessDenied => "access_denied",
            GrantWord::ServerError => "server_error",
        }
    }
}
