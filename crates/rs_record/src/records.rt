//! What is kept of a user.

ghost use Rattle.std.specs.Prelude.{◌≡◌, IfOk};

use rs_path::{Bytes, Kind, NoMemory, Path};
use rs_scope::{Scopes, Token};

/// One thing that happened in the account of a user, in the order in which it was accepted.
///
/// A record says all of what it did, so that the list of a user's records is the account. Its spelling as a row is
/// that of `encode`.
#[derive(Debug, Drop)]
pub enum Record {
    /// The document at the path was written.
    Put {
        /// A document's path.
        path: Path,
        /// The content type.
        kind: Kind,
        /// The whole body: at most `MAX_PLAIN_BODY` bytes without a writer, and `MAX_BODY` with one, of `rs_path`.
        body: Bytes,
        /// The token that wrote it, where it is known.
        writer: Option<Token>,
    },
    /// The document at the path was removed.
    Remove {
        /// A document's path.
        path: Path,
        /// The token that removed it, where it is known.
        writer: Option<Token>,
    },
    /// The token was given these scopes.
    Grant {
        /// The token.
        token: Token,
        /// What it may do.
        scopes: Scopes,
    },
    /// The token lost its scopes.
    Revoke {
        /// The token.
        token: Token,
    },
}

impl Record {
    /// An equal record, from the same allocators.
    pub fn copy(&self) -> Result<Record, NoMemory>
        ensures same { IfOk result (λ copied. copied ≡ self.now) }
    {
        match self {
            Record::Put {
                path,
                kind,
                body,
                writer,
            } => Ok(Record::Put {
                path: path.copy()?,
                kind: kind.copy()?,
                body: body.copy()?,
                writer: *writer,
            }),
            Record::Remove { path, writer } => Ok(Record::Remove {
                path: path.copy()?,
                writer: *writer,
            }),
            Record::Grant { token, scopes } => Ok(Record::Grant {
                token: *token,
                scopes: scopes.copy()?,
            }),
            Record::Revoke { token } => Ok(Record::Revoke { token: *token }),
        }
    }
}
