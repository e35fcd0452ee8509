//! What all posts did.

ghost use Rattle.std.specs.Prelude.{◌≡◌, ◌+◌, ◌-◌, ◌^◌, ◌||◌, min};

use rs_work::WorkerEnd;

/// What came of serving.
#[derive(Clone, Copy, Debug, PartialEq, Eq)]
pub struct Tally {
    /// How many connections were served by all posts together; at the greatest `u64` it stays.
    pub served: u64,
    /// A listener failed; otherwise each said that no connection will come.
    pub failed: bool,
}

impl Tally {
    // With what one more post did.
    pub(crate) fn with(self, end: WorkerEnd) -> Tally
        ensures served { result.served ≡ min (self.served + end.served) (2 ^ 64 - 1) }
        ensures failed { result.failed ≡ (self.failed || end.failed) }
    {
        Tally {
            served: self.served.saturating_add(end.served),
            failed: self.failed || end.failed,
        }
    }
}
