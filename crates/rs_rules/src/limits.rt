//! The limits of a history.

ghost use Rattle.std.specs.Prelude.{◌≡◌};
ghost use Rattle.rs_rules.specs.Limits.{max_len, max_items};

/// The records of a history, counted, those that were given up included.
pub const MAX_LEN: u64 = 4_294_967_295;

/// The items of a folder, counted.
pub const MAX_ITEMS: usize = 50_000;

/// The limits are these numbers. The function does nothing: its contract is the law.
pub fn limit_laws()
    ensures len { MAX_LEN ≡ max_len }
    ensures items { MAX_ITEMS ≡ max_items }
{}
