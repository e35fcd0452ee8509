//! The limit of a hall.

ghost use Rattle.std.specs.Prelude.{◌≡◌};
ghost use Rattle.rs_hall.specs.Limits.{max_users};

/// The most users of one hall.
pub const MAX_USERS: usize = 1_000;

/// The limit is this number. The function does nothing: its contract is the law.
pub fn limit_laws()
    ensures users { MAX_USERS ≡ max_users }
{}
