//! Desks.

ghost use Rattle.std.specs.Prelude.{◌≡◌, ◌≢◌, ℕ, Bool, true};
ghost use Rattle.rs_rules.specs.Histories.{History};
ghost use Rattle.rs_rules.specs.Desks.{ForHistory, StaysServed};
ghost use Rattle.rs_rules.specs.Requests.{is_within_limit};

use crate::request::Request;
use crate::turn::Turn;
use rs_path::NoMemory;
use std::alloc::{AllocError, AllocFailed};

/// Why a desk gives no reply.
#[derive(Debug, Clone, Copy, PartialEq, Eq)]
pub enum DeskFault {
    /// Memory ran out.
    NoMemory,
}

impl From<NoMemory> for DeskFault {
    ghost use Rattle.rs_rules.specs.declared.desk.DeskFault.TheVariants.{NoMemory};

    ghost from_gives = { λ _ fault. fault ≡ NoMemory };

    fn from(_e: NoMemory) -> DeskFault {
        DeskFault::NoMemory
    }
}

impl From<AllocError> for DeskFault {
    ghost use Rattle.rs_rules.specs.declared.desk.DeskFault.TheVariants.{NoMemory};

    ghost from_gives = { λ _ fault. fault ≡ NoMemory };

    fn from(_e: AllocError) -> DeskFault {
        DeskFault::NoMemory
    }
}

impl<T: Drop> From<AllocFailed<T>> for DeskFault {
    ghost use Rattle.rs_rules.specs.declared.desk.DeskFault.TheVariants.{NoMemory};

    ghost from_gives = { λ _ fault. fault ≡ NoMemory };

    fn from(_e: AllocFailed<T>) -> DeskFault {
        DeskFault::NoMemory
    }
}

/// Who answers requests on the histories of its users, one at a time.
///
/// Others may make entries too, each under a number of its own. A clause on a desk holds for every history that it
/// stands for.
pub trait Desk {
    /// The users, by number.
    ghost serves: { Self → ℕ → Type 0 };

    ghost use Rattle.rs_rules.specs.Histories.{History};

    /// The desk stands for the history, of a user.
    ghost stands: { Self → ℕ → History → Type 0 };

    /// The quota of a user, in bytes.
    ghost quota: { Self → ℕ → ℕ };

    /// Under which number the desk makes entries in the history of a user.
    ghost me: { Self → ℕ → ℕ };

    /// Nobody else makes entries.
    ghost alone: { Self → Bool };

    /// How often a keeper has failed, up to the greatest number of 64 bits.
    ghost faults: { Self → ℕ };

    /// The second is the first some turns later: it stands on the same state and the same keeper.
    ghost is_later: { Self → Self → Type 0 };

    ghost use Rattle.rs_rules.specs.Growth.{Turned};

    /// Answers a request of a user: the reply is the `answer` of the user's history as it was at some point of the
    /// turn, which is then followed by the record that the request adds, if it adds one, and by nothing else.
    ///
    /// `StoreFailed` comes only where the count of faults rose. Then, and where memory ran out, the request has added
    /// nothing. The histories of other users stay as they are.
    fn turn(&mut self, user: u32, request: &Request) -> Result<Turn, DeskFault>
        requires served { serves self.old user }
        requires body { is_within_limit request.now ≡ true }
        ensures turned { ForHistory (stands self.old user) (stands self.new user) (λ old now.
            Turned old now (quota self.old user) (me self.old user) (alone self.old) request.now result (faults self.old) (faults self.new)) }
        ensures others { (other : ℕ) (h : History) → other ≢ user → stands self.old other h → stands self.new other h }
        ensures is_later { is_later self.old self.new };

    /// No turn at all.
    ghost stays: { (desk : Self) → is_later desk desk };

    /// Some turns, and then some more.
    ghost goes_on: { (a b c : Self) → is_later a b → is_later b c → is_later a c };

    ghost use Rattle.rs_rules.specs.Desks.{StaysServed};

    /// A later desk serves the same users under the same quotas and numbers, is as alone, and has no fewer faults.
    ghost keeps: { (old new : Self) → is_later old new → StaysServed serves quota me alone faults old new };
}
