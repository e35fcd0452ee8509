//! Why a request isn't shown to the user.

ghost use Rattle.std.specs.Prelude.{◌≡◌};

use crate::grant_word::GrantWord;
use rs_path::{Bytes, NoMemory};
use std::alloc::{AllocError, AllocFailed};

/// The answer to a query or a form that asks for no grant.
#[derive(Debug, PartialEq, Eq, Drop)]
pub enum GrantFault {
    /// `redirect_uri` is missing, repeated, no URL, of a scheme other than `http` and `https`, or has a fragment. The
    /// user is told, and nobody is redirected (RFC 6749, section 4.2.2.1: 400).
    BadRedirect,
    /// The app is told the word, by a redirect to this address with the first `state` that it sent.
    Word {
        word: GrantWord,
        redirect: Bytes,
        state: Option<Bytes>,
    },
    /// Memory ran out.
    NoMemory,
}

impl From<NoMemory> for GrantFault {
    ghost use Rattle.rs_grant.specs.declared.grant_fault.GrantFault.TheVariants.{NoMemory};

    ghost from_gives = { λ _ fault. fault ≡ NoMemory };

    fn from(_e: NoMemory) -> GrantFault {
        GrantFault::NoMemory
    }
}

impl From<AllocError> for GrantFault {
    ghost use Rattle.rs_grant.specs.declared.grant_fault.GrantFault.TheVariants.{NoMemory};

    ghost from_gives = { λ _ fault. fault ≡ NoMemory };

    fn from(_e: AllocError) -> GrantFault {
        GrantFault::NoMemory
    }
}

impl<T: Drop> From<AllocFailed<T>> for GrantFault {
    ghost use Rattle.rs_grant.specs.declared.grant_fault.GrantFault.TheVariants.{NoMemory};

    ghost from_gives = { λ _ fault. fault ≡ NoMemory };

    fn from(_e: AllocFailed<T>) -> GrantFault {
        GrantFault::NoMemory
    }
}
