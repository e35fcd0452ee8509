//! The spelling of requests, as laws.

ghost use Rattle.std.specs.Prelude.{◌≡◌, ◌+◌, ℕ, List, [], ◌++◌, length, Some};
ghost use Rattle.rs_request.specs.declared.message.RequestMessage.{RequestMessage};
ghost use Rattle.rs_request.specs.Division.{message_at};
ghost use Rattle.rs_request.specs.Spelling.{SpellsRequest};

/// What spells a request is read as that request, whatever follows, and no spelling of a request is a proper prefix of one.
pub fn spelled_requests()
    ensures read { (place : ℕ) (m : RequestMessage) (bytes after : List ℕ)
        → SpellsRequest place m bytes
        → message_at place (bytes ++ after) ≡ Some (m, place + length bytes) }
    ensures no_prefix { (place : ℕ) (m k : RequestMessage) (bytes after : List ℕ)
        → SpellsRequest place m bytes → SpellsRequest place k (bytes ++ after)
        → (m ≡ k) × (after ≡ []) }
{}
