//! What is asked of a path.

ghost use Rattle.std.specs.Prelude.{◌≡◌};
ghost use Rattle.rs_scope.specs.Reach.{is_reading};

/// The method of a request on a path (RFC 9110, section 9.3).
#[derive(Debug, Clone, Copy, PartialEq, Eq)]
pub enum Method {
    /// Read a document or a folder.
    Get,
    /// As Get, without the body.
    Head,
    /// Write a document.
    Put,
    /// Remove a document.
    Delete,
}

impl Method {
    /// Whether it is Get or Head.
    pub fn is_reading(self) -> bool
        ensures reading { result ≡ is_reading self }
    {
        match self {
            Method::Get | Method::Head => true,
            Method::Put | Method::Delete => false,
        }
    }
}
