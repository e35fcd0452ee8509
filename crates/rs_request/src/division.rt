//! The division of a stream into requests, as laws.

ghost use Rattle.std.specs.Prelude.{◌≡◌, ◌≤◌, ◌+◌, ◌-◌, ℕ, List, [], ◌∷◌, ◌++◌, length, drop, Some, None, Ok};
ghost use Rattle.rs_request.specs.declared.message.RequestMessage.{RequestMessage};
ghost use Rattle.rs_request.specs.declared.message.Step.TheVariants.{Message};
ghost use Rattle.rs_request.specs.Division.{message_at, Divides, fed_next};
ghost use Rattle.rs_request.specs.Readings.{Fed, next_of, step_of, fed_after};

/// A stream of bytes has one division into requests, up to a rest that begins with none, and more bytes change no message of
/// it. What `RequestReader::next` gives is the next message of this division.
pub fn one_division()
    ensures one { (ms ns : List RequestMessage) (place : ℕ) (bytes : List ℕ)
        → (q s : ℕ) (r t : List ℕ)
        → Divides place bytes ms q r → Divides place bytes ns s t → message_at q r ≡ None
        → message_at s t ≡ None
        → (ms ≡ ns) × (q ≡ s) × (r ≡ t) }
    ensures within { (ms : List RequestMessage) (place : ℕ) (bytes : List ℕ)
        → (end : ℕ) (rest : List ℕ)
        → Divides place bytes ms end rest
        → (place ≤ end) × (end ≤ place + length bytes) × (rest ≡ drop (end - place) bytes) }
    ensures grows { (ms : List RequestMessage) (place : ℕ) (bytes after : List ℕ)
        → (end : ℕ) (rest : List ℕ)
        → Divides place bytes ms end rest → Divides place (bytes ++ after) ms end (rest ++ after) }
    ensures push { (ms : List RequestMessage) (m : RequestMessage) (place : ℕ) (bytes : List ℕ)
        → (end : ℕ) (rest : List ℕ) (next : ℕ)
        → Divides place bytes ms end rest → message_at end rest ≡ Some (m, next)
        → Divides place bytes (ms ++ m ∷ []) next (drop (next - end) rest) }
    ensures next { (fed : Fed) (m : RequestMessage) → step_of (next_of fed) ≡ Ok (Message m)
        → (next : ℕ) × (message_at fed.place fed.bytes ≡ Some (m, next))
        × (fed_after fed (next_of fed) ≡ fed_next fed next) }
{}
