//! What a message is answered.

ghost use Rattle.std.specs.Prelude.{◌≡◌};

use crate::refusal::Refusal;
use rs_path::Bytes;
use rs_rules::Reply;

/// What a message that was read whole is answered.
#[derive(Debug, Drop)]
pub enum Answer {
    /// The reply of the desk.
    Decided(Reply),
    /// Which methods and fields another origin's page may send.
    Preflight,
    /// The message was refused, and no desk was asked.
    Refused(Refusal),
    /// A text that was made for the message.
    Made { sheet: Sheet, text: Bytes },
    /// The app goes on at this address (RFC 6749, sections 4.2.2 and 4.2.2.1).
    Redirect { address: Bytes },
}

/// What a text that was made for a message is.
#[derive(Clone, Copy, Debug, PartialEq, Eq)]
pub enum Sheet {
    /// 200: what is found of an account (RFC 7033, section 4.4).
    Description,
    /// 200: the page that asks the user for a grant.
    ConsentPage,
    /// 403: the same page, where the password wasn't the user's.
    DeniedPage,
}

impl Sheet {
    ghost use Rattle.rs_exchange.specs.Replies.{sheet_status, sheet_kind};

    /// The status that it is sent with.
    pub(crate) fn status(self) -> u16
        ensures status { result ≡ sheet_status self }
    {
        match self {
            Sheet::Description => 200,
            Sheet::ConsentPage => 200,
            Sheet::DeniedPage => 403,
        }
    }

    /// Its content type.
    pub(crate) fn kind(self) -> &'static [u8]
        ensures kind { result.now ≡ sheet_kind self }
    {
        match self {
            Sheet::Description => b"application/jrd+json",
            Sheet::ConsentPage => b"text/html; charset=utf-8",
            Sheet::DeniedPage => b"text/html; charset=utf-8",
        }
    }
}
