//! What is written of replies is read back, as laws.

ghost use Rattle.std.specs.Prelude.{◌≡◌, ◌≢◌, ◌++◌, List, Bool, Ok, All};
ghost use Rattle.std.specs.List.{flat_map};
ghost use Rattle.rs_reply.specs.declared.message.ReplyMessage.{ReplyMessage};
ghost use Rattle.rs_reply.specs.Replies.{reply_of};
ghost use Rattle.rs_reply.specs.ReplySpelling.{SpellsReply};
ghost use Rattle.rs_reply.specs.Writing.{reply_text};
ghost use Rattle.rs_reply.specs.Replied.{IsReadable, IsInterim};

/// What `write_reply` writes is a spelling of its reply, where its head lies within the limit of a head. So `read_reply` reads
/// it back: its status, its fields and its body. The interim reply 100 is skipped, so any other is read back after such ones.
pub fn written_replies()
    ensures spelled { (bodiless : Bool) (m : ReplyMessage) → IsReadable bodiless m → m.status ≢ 100
        → SpellsReply bodiless m (reply_text m) }
    ensures read { (bodiless : Bool) (m : ReplyMessage) → IsReadable bodiless m → m.status ≢ 100
        → reply_of bodiless (reply_text m) ≡ Ok m }
    ensures skipped { (bodiless : Bool) (interims : List ReplyMessage) (m : ReplyMessage)
        → All (IsInterim bodiless) interims
        → IsReadable bodiless m → m.status ≢ 100
        → reply_of bodiless (flat_map reply_text interims ++ reply_text m) ≡ Ok m }
{}
