//! The limits of a client's journal.

ghost use Rattle.std.specs.Prelude.{◌≡◌};
ghost use Rattle.rs_cache.specs.Limits.{max_shown_body, max_journal};

/// The bytes of the body of a document that the server showed.
pub const MAX_SHOWN_BODY: usize = 134_217_728;

/// The rows of a journal.
pub const MAX_JOURNAL: u64 = 4_294_967_295;

/// The limits are these numbers. The function does nothing: its contract is the law.
pub fn limit_laws()
    ensures body { MAX_SHOWN_BODY ≡ max_shown_body }
    ensures journal { MAX_JOURNAL ≡ max_journal }
{}
