//! The limits of what the words are, in bytes where nothing else is said.

ghost use Rattle.std.specs.Prelude.{◌≡◌};
ghost use Rattle.rs_path.specs.Limits.{max_name, max_names, max_kind, max_tag, max_user, max_body, max_plain_body};

/// The bytes of a name.
pub const MAX_NAME: usize = 255;

/// The names of a path, counted.
pub const MAX_NAMES: usize = 32;

/// The bytes of a content type.
pub const MAX_KIND: usize = 255;

/// The bytes of the text of an entity tag, without its quotes.
pub const MAX_TAG: usize = 255;

/// The bytes of a user's name.
pub const MAX_USER: usize = 32;

/// The bytes of a document's body.
pub const MAX_BODY: usize = 67_108_864;

/// The bytes of a document's body in a record that doesn't say who wrote it.
pub const MAX_PLAIN_BODY: usize = 16_777_216;

/// The limits are these numbers. The function does nothing: its contract is the law.
pub fn limit_laws()
    ensures name { MAX_NAME ≡ max_name }
    ensures names { MAX_NAMES ≡ max_names }
    ensures kind { MAX_KIND ≡ max_kind }
    ensures tag { MAX_TAG ≡ max_tag }
    ensures user { MAX_USER ≡ max_user }
    ensures body { MAX_BODY ≡ max_body }
    ensures plain_body { MAX_PLAIN_BODY ≡ max_plain_body }
{}
