//! What an error of `accept` says of the listener.
ghost use Rattle.std.specs.Prelude.{◌≡◌};
ghost use Rattle.std.specs.IoError.{raw_os_error};
ghost use Rattle.rs_net.specs.AcceptErrors.{meaning_of, meaning_in, is_among, passing_errors, exhaustion_errors};

use std::io;

/// What an error of `accept` says of the listener.
#[derive(Clone, Copy, Debug, PartialEq, Eq)]
pub enum AcceptError {
    /// The error was about one connection, which is gone, or a signal came. The next can be taken at once.
    Passing,
    /// The system has no descriptor or no memory to spare, or nothing to give yet. The next may be taken later.
    Exhausted,
    /// The listener can't be used.
    Fatal,
}

impl AcceptError {
    /// What this error of `accept` says, by the numbers that accept(2) of Linux names.
    ///
    /// An error that has no number of the system is one of std, which took the connection and couldn't read its address: it is
    /// `Passing`.
    pub fn of(error: &io::Error) -> AcceptError
        ensures meaning { result ≡ meaning_of (raw_os_error error.now) }
    {
        match error.raw_os_error() {
            None => AcceptError::Passing,
            Some(number) if number < 0 => AcceptError::Fatal,
            Some(number) => meaning(number.unsigned_abs()),
        }
    }
}

// The numbers of the errors, as errno.h of Linux has them on x86-64 and aarch64.
const EPERM: u32 = 1;

const EINTR: u32 = 4;

const EAGAIN: u32 = 11;

const ENOMEM: u32 = 12;

const ENFILE: u32 = 23;

const EMFILE: u32 = 24;

const ENONET: u32 = 64;

const EPROTO: u32 = 71;

const ENOPROTOOPT: u32 = 92;

const EOPNOTSUPP: u32 = 95;

const ENETDOWN: u32 = 100;

const ENETUNREACH: u32 = 101;

const ECONNABORTED: u32 = 103;

const ECONNRESET: u32 = 104;

const ENOBUFS: u32 = 105;

const ETIMEDOUT: u32 = 110;

const EHOSTDOWN: u32 = 112;

const EHOSTUNREACH: u32 = 113;

// What the error with this number of the system says.
fn meaning(number: u32) -> AcceptError
    ensures { result ≡ meaning_in number }
{
    if is_passing(number) {
        AcceptError::Passing
    } else if is_exhausted(number) {
        AcceptError::Exhausted
    } else {
        AcceptError::Fatal
    }
}

// Whether it is about one connection, or a signal. A firewall's answer is EPERM.
fn is_passing(number: u32) -> bool
    ensures { result ≡ is_among passing_errors number }
{
    let numbers = [
        EPERM,
        EINTR,
        ENONET,
        EPROTO,
        ENOPROTOOPT,
        EOPNOTSUPP,
        ENETDOWN,
        ENETUNREACH,
        ECONNABORTED,
        ECONNRESET,
        ETIMEDOUT,
        EHOSTDOWN,
        EHOSTUNREACH,
    ];
    numbers.contains(&number)
}

// Whether it is for the present.
fn is_exhausted(number: u32) -> bool
    ensures { result ≡ is_among exhaustion_errors number }
{
    let numbers = [EAGAIN, ENOMEM, ENFILE, EMFILE, ENOBUFS];
    numbers.contains(&number)
}
