//! What is known of a request before it is whole, as laws.

ghost use Rattle.std.specs.Prelude.{◌≡◌, ◌≢◌, ◌⊎◌, ◌+◌, ◌<◌, ◌≤◌, ℕ, Bool, List, ◌++◌, length, true, false, Some, Err};
ghost use Rattle.rs_path.specs.Limits.{max_body};
ghost use Rattle.rs_request.specs.Limits.{max_message};
ghost use Rattle.rs_request.specs.declared.message.RequestMessage.{RequestMessage};
ghost use Rattle.rs_request.specs.declared.fault.WireWhy.TheVariants.{Truncated};
ghost use Rattle.rs_request.specs.Bodies.{fault_at};
ghost use Rattle.rs_request.specs.Readings.{Fed, next_of, more, interim, finish_of};
ghost use Rattle.rs_request.specs.Division.{message_at};
ghost use Rattle.rs_request.specs.Laws.{fed_at};

/// A request that isn't whole is short, so a reader of a stream waits for so many bytes at most; one that is whole has a body
/// within its limit. The interim reply is due once, more bytes don't take it back, nothing else depends on whether it was given,
/// and where the stream ends after it a message is cut short.
pub fn unfinished_requests()
    ensures short { (fed : Fed) → next_of fed ≡ more → length fed.bytes < max_message }
    ensures body { (place : ℕ) (bytes : List ℕ) (m : RequestMessage) (next : ℕ)
        → message_at place bytes ≡ Some (m, next)
        → length m.body ≤ max_body }
    ensures interim_stays { (place : ℕ) (bytes after : List ℕ)
        → next_of (fed_at place bytes false) ≡ interim
        → next_of (fed_at place (bytes ++ after) false) ≡ interim }
    ensures told { (place : ℕ) (bytes : List ℕ) → (next_of (fed_at place bytes false) ≡ interim)
        ⊎ (next_of (fed_at place bytes true) ≡ next_of (fed_at place bytes false)) }
    ensures once { (place : ℕ) (bytes : List ℕ) → next_of (fed_at place bytes true) ≢ interim }
    ensures begun { (place : ℕ) (bytes : List ℕ) (told : Bool)
        → next_of (fed_at place bytes false) ≡ interim
        → finish_of (fed_at place bytes told) ≡ Err (fault_at Truncated (place + length bytes)) }
{}
