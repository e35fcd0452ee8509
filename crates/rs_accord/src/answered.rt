//! What a server writes, read by a client, as laws. Each function does nothing: its contract is the law.

ghost use Rattle.std.specs.Prelude.{◌≡◌, ℕ, Bool, true, false, Some, Ok};
ghost use Rattle.rs_request.specs.declared.fault.WireWhy.{WireWhy};
ghost use Rattle.rs_rules.specs.declared.reply.Reply.{Reply};
ghost use Rattle.rs_exchange.specs.declared.answer.Answer.TheVariants.{Decided};
ghost use Rattle.rs_exchange.specs.declared.manner.Manner.{Manner};
ghost use Rattle.rs_exchange.specs.FixedReplies.{starved_bytes, fault_status, fault_bytes};
ghost use Rattle.rs_exchange.specs.ReadBack.{IsSendableReply};
ghost use Rattle.rs_exchange.specs.Replies.{reply_bytes};
ghost use Rattle.rs_talk.specs.declared.answer.Answer.TheVariants.{Status};
ghost use Rattle.rs_talk.specs.declared.ask.Ask.{Ask};
ghost use Rattle.rs_talk.specs.AnswerReadings.{answer_reading};
ghost use Rattle.rs_talk.specs.ReplyAnswers.{may_answer, answer_given};
ghost use Rattle.rs_accord.specs.Listed.{IsListed};

/// A reply that may come to an ask, written by the server in whatever manner but that to HEAD, is read as the answer that it
/// is: a document with its version, content type and body, a folder with its version and items, that nothing has changed, what
/// was stored and removed, that nothing is there, that a condition wasn't met, and else its status. The fixed reply for want
/// of memory is read as 503, and the reply to bytes that are no request as its status.
pub fn answered_laws()
    ensures decided { (manner : Manner) (ask : Ask) (reply : Reply) → manner.bodiless ≡ false → may_answer ask reply ≡ true
        → IsSendableReply reply → IsListed reply
        → answer_reading ask (reply_bytes manner (Decided reply)) ≡ Ok (answer_given ask reply) }
    ensures starved { (closing : Bool) (ask : Ask) → answer_reading ask (starved_bytes closing) ≡ Ok (Status 503) }
    ensures refused { (ask : Ask) (why : WireWhy) (status : ℕ) → fault_status why ≡ Some status
        → answer_reading ask (fault_bytes why) ≡ Ok (Status status) }
{
    rs_exchange::read_back_laws();
    rs_folder::folder_laws();
}
