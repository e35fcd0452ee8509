//! What an app asks for.

use rs_path::Bytes;
use rs_scope::Scopes;

/// An authorisation request of the implicit grant that can be shown to the user (RFC 6749, section 4.2.1).
#[derive(Debug, Drop)]
pub struct Ask {
    /// The redirect address, as `url` prints it: `http` or `https`, without a fragment.
    pub redirect: Bytes,
    /// The origin of the redirect address, as `url` prints it: who asks.
    pub origin: Bytes,
    /// The `client_id`.
    pub client: Bytes,
    /// What the token is to reach.
    pub scopes: Scopes,
    /// The `state`, which goes back with each answer.
    pub state: Option<Bytes>,
}
