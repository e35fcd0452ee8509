//! The limits of a database's rows, and of the rows that are read at once.

ghost use Rattle.std.specs.Prelude.{◌≡◌};
ghost use Rattle.rs_sqlite.specs.Limits.{max_rows};

/// The greatest number of rows: the greatest number that a column of integers holds.
pub const MAX_ROWS: u64 = 9_223_372_036_854_775_807;

/// The greatest number of rows that are read at once.
pub const RUN_ROWS: u64 = 64;

/// With so many bytes or more, rows that are read at once are enough: no further one is read with them. So a run has fewer
/// bytes than this and its last row together.
pub const RUN_BYTES: usize = 262_144;

/// The limit is this number. The function does nothing: its contract is the law.
pub fn limit_laws()
    ensures rows { MAX_ROWS ≡ max_rows }
{}
