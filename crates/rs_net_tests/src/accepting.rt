//! What a listener does where `accept` fails, over a socket of a script.

use rs_net::{MOST_TRIES, PAUSE_MILLISECONDS, next_stream};
use std::cell::Cell;
use std::io;
use std::io::Error;
use std::net::{Ipv4Addr, OpenListener, SocketAddr};
use std::test::Fail;
use std::time::{Clock, Duration};

/// A socket that fails so often with the one error of the system, then once with the other, so often with the first again, and then
/// gives a connection.
#[derive(Drop)]
struct Failing {
    first: i32,
    times: u32,
    between: i32,
    calls: Cell<u32>,
}

impl OpenListener for Failing {
    type Stream = ();

    fn accept(&self) -> io::Result<((), SocketAddr)> {
        let call = self.calls.get();
        self.calls.set(call.saturating_add(1));
        if call == self.times {
            return Err(Error::from_raw_os_error(self.between));
        }
        if call <= self.times.saturating_mul(2) {
            return Err(Error::from_raw_os_error(self.first));
        }
        Ok(((), SocketAddr::from((Ipv4Addr::LOCALHOST, 1))))
    }
}

/// A clock that counts how often it was asked to wait, and doesn't.
#[derive(Drop)]
struct Waits {
    pauses: Cell<u32>,
    wrong: Cell<bool>,
}

impl Clock for Waits {
    fn monotonic(&self) -> io::Result<Duration> {
        Ok(Duration::from_secs(0))
    }

    fn since_1970(&self) -> io::Result<Duration> {
        Ok(Duration::from_secs(0))
    }

    fn sleep(&self, duration: Duration) {
        self.pauses.set(self.pauses.get().saturating_add(1));
        if duration != Duration::from_millis(PAUSE_MILLISECONDS) {
            self.wrong.set(true);
        }
    }
}

/// Whether a connection came at last, and after how many calls and pauses.
fn try_listener(first: i32, times: u32, between: i32) -> (bool, u32, u32) {
    let clock = Waits {
        pauses: Cell::new(0),
        wrong: Cell::new(false),
    };
    let listener = Failing {
        first,
        times,
        between,
        calls: Cell::new(0),
    };
    let came = next_stream(&clock, &listener).is_some();
    (
        came && !clock.wrong.get(),
        listener.calls.get(),
        clock.pauses.get(),
    )
}

#[test]
fn what_passes_is_passed_over(rt: HostRuntime) -> Result<(), Fail> {
    // EPERM, EINTR, EPROTO, ENETDOWN, ECONNABORTED, EHOSTUNREACH.
    for error in [1, 4, 71, 100, 103, 113] {
        assert_eq!(rt;
            try_listener(error, 5_000, error),
            (true, 10_002, 0),
            "at {error}"
        );
    }
    Ok(())
}

#[test]
fn an_exhausted_system_is_waited_for(rt: HostRuntime) -> Result<(), Fail> {
    // EAGAIN, ENOMEM, ENFILE, EMFILE, ENOBUFS.
    for error in [11, 12, 23, 24, 105] {
        assert_eq!(rt;
            try_listener(error, 10, error),
            (true, 22, 21),
            "at {error}"
        );
        // Tries are counted in a row: one that passes begins them anew.
        assert_eq!(rt;
            try_listener(error, MOST_TRIES, 103),
            (true, 1_202, 1_200),
            "at {error}"
        );
        assert_eq!(rt;
            try_listener(error, MOST_TRIES, error),
            (false, 601, 600),
            "at {error}"
        );
    }
    Ok(())
}

#[test]
fn a_socket_that_does_not_listen_fails(rt: HostRuntime) -> Result<(), Fail> {
    // EBADF, EFAULT, EINVAL, ENOTSOCK.
    for error in [9, 14, 22, 88] {
        assert_eq!(rt; try_listener(error, 1, 4), (false, 1, 0), "at {error}");
    }
    Ok(())
}
