//! The limit of the lock.

ghost use Rattle.std.specs.Prelude.{◌≡◌};
ghost use Rattle.rs_turn.specs.Limits.{max_seats};

/// A lock numbers at most so many seats.
pub const MAX_SEATS: u64 = 4_294_967_295;

/// The limit is this number. The function does nothing: its contract is the law.
pub fn limit_laws()
    ensures seats { MAX_SEATS ≡ max_seats }
{}
