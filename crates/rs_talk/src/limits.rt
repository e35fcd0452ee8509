//! The limits of what a client talks with, in bytes.

ghost use Rattle.std.specs.Prelude.{◌≡◌};
ghost use Rattle.rs_talk.specs.Limits.{max_bearer, max_root, max_reply};

/// The bytes of a bearer token.
pub const MAX_BEARER: usize = 1_024;

/// The bytes of the address of an account's root, as it is printed.
pub const MAX_ROOT: usize = 1_024;

/// The bytes of a reply that a link brings.
pub const MAX_REPLY: usize = 134_217_728;

/// The limits are these numbers. The function does nothing: its contract is the law.
pub fn limit_laws()
    ensures bearer { MAX_BEARER ≡ max_bearer }
    ensures root { MAX_ROOT ≡ max_root }
    ensures reply { MAX_REPLY ≡ max_reply }
{}
