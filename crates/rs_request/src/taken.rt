//! The requests of a stream are those that its bytes spell, as laws.

ghost use Rattle.std.specs.Prelude.{◌≡◌, ◌↔◌, ℕ, List, Bool, not, ◌&&◌, if◌then◌else◌, Some, None, Ok};
ghost use Rattle.rs_request.specs.declared.message.RequestMessage.{RequestMessage};
ghost use Rattle.rs_request.specs.declared.message.Step.TheVariants.{Message};
ghost use Rattle.rs_request.specs.Readings.{Fed, next_of, interim, message, step_of, fed_after};
ghost use Rattle.rs_request.specs.Division.{message_at, Divides, fed_next};
ghost use Rattle.rs_request.specs.Laws.{awaits};
ghost use Rattle.rs_request.specs.Taken.{BeginsWithRequest, SpellsAll};

/// The first request of bytes is the one that they begin to spell, its dropped line ends counted, and the requests of a stream
/// are those that its bytes spell one after another. What `RequestReader::next` gives is spelled where it was read, and what is
/// spelled there is given: after the interim reply where the request asks for that.
pub fn taken_requests()
    ensures one { (place : ℕ) (bytes : List ℕ) (m : RequestMessage) (next : ℕ)
        → (message_at place bytes ≡ Some (m, next)) ↔ BeginsWithRequest place bytes m next }
    ensures all { (ms : List RequestMessage) (place : ℕ) (bytes : List ℕ) (end : ℕ) (rest : List ℕ)
        → Divides place bytes ms end rest ↔ SpellsAll place bytes ms end rest }
    ensures given { (fed : Fed) (m : RequestMessage) → step_of (next_of fed) ≡ Ok (Message m)
        → (next : ℕ) × BeginsWithRequest fed.place fed.bytes m next
        × (fed_after fed (next_of fed) ≡ fed_next fed next) }
    ensures spelled { (fed : Fed) (m : RequestMessage) (next : ℕ) → fed.fault ≡ None
        → BeginsWithRequest fed.place fed.bytes m next
        → next_of fed ≡ (if awaits m && not fed.told then interim else message m next) }
{}
