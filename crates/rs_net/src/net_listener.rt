//! Connections that come from a socket that listens.
ghost use Rattle.std.specs.Prelude.{◌≡◌, ◌<◌, ◌≤◌, ◌^◌, [], None, Some, IfOk, IfSome, OnOk};
ghost use Rattle.std.specs.Duration.{as_nanos};
ghost use Rattle.rs_face.specs.Causes.{HasCause};
ghost use Rattle.rs_face.specs.Listening.{GivesNext, after_given, after_end};
ghost use Rattle.rs_net.specs.NetListeners.{gave_all, is_end};

use crate::{AcceptError, TcpSink, TcpSource, close, two_ends};
use rs_face::{ListenFault, Listener};
use std::alloc::Global;
use std::marker::Model;
use std::net::{OpenListener, TcpListener};
use std::thread;
use std::time::{Clock, Duration};

/// How long a read or a write of a connection may wait, where nobody says otherwise.
pub const DEFAULT_WAIT_SECONDS: u64 = 10;

/// How often in a row a listener tries again where the system has no descriptor or no memory to spare.
pub const MOST_TRIES: u32 = 600;

/// How long it waits before each of these tries.
pub const PAUSE_MILLISECONDS: u64 = 100;

/// Connections of a socket that listens, which threads may share: each has a listener of its own over the one socket. Contracts see
/// it as a `NetState`: its counts, and how many connections it may give.
///
/// It tells none of its connections, since no clause can say who connects.
#[derive(Drop)]
pub struct NetListener<'a, C: Clock> {
    alloc: Global,
    clock: &'a C,
    listener: &'a TcpListener,
    limit: Duration,
    most: Option<u64>,
    given: u64,
    ends: u64,
    faults: u64,
}

impl<'a, C: Clock> Model for NetListener<'a, C> {
    ghost use Rattle.rs_net.specs.NetListeners.{NetState};

    ghost Value = { NetState };

    ghost view = { λ s. record { given = s.given; most = s.most; ends = s.ends; faults = s.faults } };
}

impl<'a, C: Clock> NetListener<'a, C> {
    /// The connections of this socket, without an end. A read or a write of a connection that waits longer than the limit fails.
    ///
    /// The socket is one that blocks. The clock is asked to wait where the system has no descriptor to spare.
    pub fn new(
        alloc: Global,
        clock: &'a C,
        listener: &'a TcpListener,
        limit: Duration,
    ) -> NetListener<'a, C>
        requires limit { 0 < as_nanos limit }
        ensures { result ≡ record { given = 0; most = None; ends = 0; faults = 0 } }
    {
        NetListener {
            alloc,
            clock,
            listener,
            limit,
            most: None,
            given: 0,
            ends: 0,
            faults: 0,
        }
    }

    /// The same, but none will come after so many connections.
    pub fn giving(
        alloc: Global,
        clock: &'a C,
        listener: &'a TcpListener,
        limit: Duration,
        most: u64,
    ) -> NetListener<'a, C>
        requires limit { 0 < as_nanos limit }
        ensures { result ≡ record { given = 0; most = Some most; ends = 0; faults = 0 } }
    {
        let mut made = NetListener::new(alloc, clock, listener, limit);
        made.most = Some(most);
        made
    }

    // Whether it gave as many as it may.
    fn gave_all(&self) -> bool
        ensures { result ≡ gave_all self.now }
    {
        match self.most {
            None => false,
            Some(most) => most <= self.given,
        }
    }

    // The two ends of the next connection that has them. None where the socket fails for good.
    fn take(&self) -> Option<(TcpSource, TcpSink)>
        ensures source { IfSome result (λ ends. ends.0.faults ≡ 0) }
        ensures sink { IfSome result (λ ends. ends.1.inner.faults ≡ 0) }
        ensures held { IfSome result (λ ends. ends.1.held ≡ []) }
    {
        for _ in 0..u64::MAX {
            let stream = next_stream(self.clock, self.listener)?;
            let ends = two_ends(self.alloc, stream, self.limit);
            if ends.is_some() {
                return ends;
            }
        }
        None
    }
}

/// Waits for the next connection of a socket. None where the socket can't be used, or where the system had no descriptor or no
/// memory to spare so often in a row (`MOST_TRIES`).
pub fn next_stream<C: Clock, L: OpenListener>(clock: &C, listener: &L) -> Option<L::Stream> {
    let mut tries = 0;
    for _ in 0..u64::MAX {
        match listener.accept() {
            Ok((stream, _)) => return Some(stream),
            Err(error) => match AcceptError::of(&error) {
                AcceptError::Passing => tries = 0,
                AcceptError::Exhausted if tries < MOST_TRIES => {
                    tries += 1;
                    thread::sleep(clock, Duration::from_millis(PAUSE_MILLISECONDS));
                }
                AcceptError::Exhausted | AcceptError::Fatal => break,
            },
        }
    }
    None
}

impl<'a, C: Clock> Listener for NetListener<'a, C> {
    type In = TcpSource;

    type Out = TcpSink;

    ghost use Rattle.std.specs.Prelude.{None};

    ghost coming = { λ _. None };

    ghost back = { λ _. None };

    ghost given = { λ s. s.given };

    ghost ends = { λ s. s.ends };

    ghost faults = { λ s. s.faults };

    fn accept(&mut self) -> Result<Option<(TcpSource, TcpSink)>, ListenFault>
        ensures next { GivesNext None None result }
        ensures given { self.new.given ≡ after_given result self.old.given }
        ensures ends { self.new.ends ≡ after_end result self.old.ends }
        ensures cause { HasCause self.old.faults self.new.faults ListenFault.Failed result }
        ensures quiet { OnOk result (self.new.faults ≡ self.old.faults) }
        ensures few { self.new.given < 2 ^ 64 }
        // That none will come is said exactly where it gave as many as it may.
        ensures last { is_end result ≡ gave_all self.old }
        ensures most { self.new.most ≡ self.old.most }
        // Of the two ends none has failed, and nothing is held.
        ensures source { IfOk result (λ next. IfSome next (λ ends. ends.0.faults ≡ 0)) }
        ensures sink { IfOk result (λ next. IfSome next (λ ends. ends.1.inner.faults ≡ 0)) }
        ensures held { IfOk result (λ next. IfSome next (λ ends. ends.1.held ≡ [])) }
    {
        if self.gave_all() {
            self.ends = self.ends.saturating_add(1);
            return Ok(None);
        }
        if self.given < u64::MAX {
            if let Some(ends) = self.take() {
                self.given += 1;
                return Ok(Some(ends));
            }
        }
        self.faults = self.faults.saturating_add(1);
        Err(ListenFault::Failed)
    }

    /// Closes the connection, as `close` says.
    fn end(&mut self, source: TcpSource, sink: TcpSink, _starved: bool)
        ensures same { self.new ≡ self.old }
    {
        close(self.clock, source, sink);
    }
}
