//! What is written of requests is read back, as laws.

ghost use Rattle.std.specs.Prelude.{◌≡◌, ◌+◌, ◌++◌, ℕ, List, length, Bool, not, ◌&&◌, if◌then◌else◌, Some, All};
ghost use Rattle.std.specs.List.{flat_map};
ghost use Rattle.rs_request.specs.declared.framing.Framing.TheVariants.{Length};
ghost use Rattle.rs_request.specs.declared.message.RequestMessage.{RequestMessage};
ghost use Rattle.rs_request.specs.Framing.{expects_interim};
ghost use Rattle.rs_request.specs.Readings.{next_of, interim, message};
ghost use Rattle.rs_request.specs.Division.{message_at, Divides};
ghost use Rattle.rs_request.specs.Spelling.{SpellsRequest};
ghost use Rattle.rs_request.specs.Writing.{request_text, IsWritable};
ghost use Rattle.rs_request.specs.Laws.{placed_at, placed_from, fed_at};

/// What `write_request` writes is a spelling of its request, at whatever place of a stream it comes to stand. So it is read
/// back as that request, whatever follows: with the interim reply before it where the request asks for that, and once. Several
/// that are written one after another are read back one after another.
pub fn written_requests()
    ensures spelled { (place : ℕ) (m : RequestMessage) → IsWritable m
        → SpellsRequest place (placed_at place m) (request_text m) }
    ensures read { (place : ℕ) (m : RequestMessage) (after : List ℕ) → IsWritable m
        → message_at place (request_text m ++ after)
        ≡ Some (placed_at place m, place + length (request_text m)) }
    ensures answered { (place : ℕ) (m : RequestMessage) (after : List ℕ) (told : Bool)
        → IsWritable m
        → next_of (fed_at place (request_text m ++ after) told)
        ≡ (if expects_interim m.minor m.fields (Length (length m.body)) && not told then interim
        else message (placed_at place m) (place + length (request_text m))) }
    ensures stream { (ms : List RequestMessage) (place : ℕ) (after : List ℕ) → All IsWritable ms
        → Divides place (flat_map request_text ms ++ after) (placed_from place ms)
        (place + length (flat_map request_text ms)) after }
{}
