//! The spelling of replies, as laws.

ghost use Rattle.std.specs.Prelude.{◌≡◌, ◌↔◌, ℕ, List, Bool, Ok};
ghost use Rattle.rs_reply.specs.declared.message.ReplyMessage.{ReplyMessage};
ghost use Rattle.rs_reply.specs.Replies.{reply_of};
ghost use Rattle.rs_reply.specs.ReplySpelling.{SpellsReply};

/// What `read_reply` reads as a reply is what spells it: heads of interim replies, which are skipped, a head, the body by its
/// framing, and no byte more.
pub fn spelled_replies()
    ensures { (bodiless : Bool) (m : ReplyMessage) (bytes : List ℕ)
        → (reply_of bodiless bytes ≡ Ok m) ↔ SpellsReply bodiless m bytes }
{}
