//! What a message can ask, and that what is answered is read back, as laws.

ghost use Rattle.std.specs.Prelude.{◌≡◌, ◌<◌, ◌≤◌, ℕ, Bool, List, length, true, Some};
ghost use Rattle.rs_path.specs.Limits.{max_body};
ghost use Rattle.rs_request.specs.declared.fault.WireWhy.{WireWhy};
ghost use Rattle.rs_request.specs.declared.message.RequestMessage.{RequestMessage};
ghost use Rattle.rs_rules.specs.declared.request.Request.{Request};
ghost use Rattle.rs_grant.specs.declared.ask.Ask.{Ask};
ghost use Rattle.rs_exchange.specs.declared.account.Config.{Config};
ghost use Rattle.rs_exchange.specs.declared.asked.Asked.TheVariants.{Desk, Consent};
ghost use Rattle.rs_exchange.specs.Targets.{target_of, path_part, query_part, verb_of};
ghost use Rattle.rs_exchange.specs.declared.answer.Answer.{Answer};
ghost use Rattle.rs_exchange.specs.declared.manner.Manner.{Manner};
ghost use Rattle.rs_exchange.specs.Asking.{AsksOf, AsksShort, IsStore, IsAllowed};
ghost use Rattle.rs_exchange.specs.FixedReplies.{starved_message, starved_bytes, closing_message, fault_status, fault_bytes};
ghost use Rattle.rs_exchange.specs.ReadBack.{IsSendable, IsReadBack};
ghost use Rattle.rs_exchange.specs.Replies.{reply_message, reply_bytes};
ghost use Rattle.rs_exchange.specs.Requests.{asked_of};

use rs_wire::written_replies;

/// The user whose desk a message asks has an account, and the body that the request brings is within its limit where the
/// message's is. A desk is asked of documents and folders alone; a grant is asked for only by a POST to where the user grants
/// access, whose form allows it with the user's password, and it is the one that the form asks for.
pub fn asked_laws()
    ensures user { (config : Config) (m : RequestMessage) → AsksOf (λ user. user < length config.accounts) (asked_of config m) }
    ensures short { (config : Config) (m : RequestMessage) → length m.body ≤ max_body → AsksShort (asked_of config m) }
    ensures store { (config : Config) (m : RequestMessage) (user : ℕ) (r : Request) → asked_of config m ≡ Desk user r → IsStore r }
    ensures allowed { (config : Config) (m : RequestMessage) (user : ℕ) (ask : Ask) → asked_of config m ≡ Consent user ask
        → IsAllowed config (verb_of m.method) (target_of config.accounts (path_part m.target) (query_part m.target)) m.body user ask }
{}

/// What the server writes is read back by `read_reply` as the reply that it is: what an answer is, whose versions, content
/// type and body can be sent; the fixed reply for want of memory; and the reply to bytes that are no request. So it is behind
/// the interim reply, which the reader skips (RFC 9110, section 15.2). The last two may follow a request of any method.
pub fn read_back_laws()
    ensures answers { (manner : Manner) (answer : Answer) → IsSendable answer
        → IsReadBack manner.bodiless (reply_bytes manner answer) (reply_message manner answer) }
    ensures starved { (bodiless closing : Bool) → IsReadBack bodiless (starved_bytes closing) (starved_message closing) }
    ensures faults { (bodiless : Bool) (why : WireWhy) (status : ℕ) → fault_status why ≡ Some status
        → IsReadBack bodiless (fault_bytes why) (closing_message status) }
{
    written_replies();
}
