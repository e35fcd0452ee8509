//! What stands between a client and a server.

ghost use Rattle.std.specs.Prelude.{◌≡◌, ◌≤◌, ℕ, List, [], Option, None, IfSome, OnOk, OnErr, length};
ghost use Rattle.rs_face.specs.Causes.{one_more, HasCause};
ghost use Rattle.rs_talk.specs.Carried.{IsCarried, long_count};
ghost use Rattle.rs_talk.specs.Limits.{max_reply};
ghost use Rattle.rs_talk.specs.Tales.{Tale, IsTale, Tells};

use crate::link_fault::LinkFault;
use rs_path::Bytes;

/// A link to a server: it carries one request at a time, and brings the reply.
///
/// Over a socket nothing is known of the other side. A link that tells says which account the server has, what happened to it
/// so far, and which of that the carried requests did.
pub trait Link {
    /// What the link tells of the server, where it does.
    ghost tale: { Self → Option Tale };

    /// The request that was handed in last, or nothing before the first.
    ghost asked: { Self → List ℕ };

    /// The reply to it, or nothing where there was a fault.
    ghost replied: { Self → List ℕ };

    /// How many faults there were so far: requests and replies that were lost, and records that the server couldn't keep.
    ghost faults: { Self → ℕ };

    /// How many requests were handed in so far, up to the greatest number of 64 bits.
    ghost calls: { Self → ℕ };

    /// How many replies were too long so far, up to the greatest number of 64 bits.
    ghost long_replies: { Self → ℕ };

    /// Carries a request to this host, and keeps it and its reply, of at most 134,217,728 bytes.
    ///
    /// The request is what `encode_request` writes of an ask, or the GET of a look-up. `Lost` comes only where the count of
    /// faults rose, `TooLong` exactly where that of long replies did, which a link that tells never does.
    fn carry(&mut self, host: &[u8], request: Bytes) -> Result<(), LinkFault>
        requires carried { IsCarried request }
        ensures request { asked self.new ≡ request }
        ensures none { OnErr result (replied self.new ≡ []) }
        ensures short { OnOk result (length (replied self.new) ≤ max_reply) }
        ensures calls { calls self.new ≡ one_more (calls self.old) }
        ensures cause { HasCause (faults self.old) (faults self.new) LinkFault.Lost result }
        ensures long { long_replies self.new ≡ long_count result (long_replies self.old) }
        ensures few { IfSome (tale self.old) (λ tale. long_replies self.new ≡ long_replies self.old) }
        ensures tells { Tells (tale self.old) (tale self.new) request result (replied self.new) (faults self.old) (faults self.new) };

    /// The request that was handed in last, or nothing before the first.
    fn request(&self) -> &[u8]
        ensures request { result.now ≡ asked self.now };

    /// The reply to it, or nothing where there was a fault.
    fn reply(&self) -> &[u8]
        ensures reply { result.now ≡ replied self.now };

    /// What is told is the tale of a server.
    ghost sound: { (link : Self) → IfSome (tale link) IsTale };
}
