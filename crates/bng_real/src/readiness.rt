//! Which sockets may have something.
ghost use Rattle.std.specs.Prelude.{◌≡◌, ◌<◌, true, false, IfOk, OnOk, replicate, slice_index_or, slice_set, if◌then◌else◌};
ghost use Rattle.std.specs.List.{All};
ghost use Rattle.mio.specs.Events.{items};
ghost use Rattle.bng_real.specs.Readiness.{StaysReady, IsReady};

use crate::places::CONTROL;
use mio::net::UdpSocket;
use mio::{Events, Interest, Poll, Token};
use std::alloc::{AllocError, Global};
use std::io;
use std::io::ErrorKind;
use std::net::Net;
use std::time::Duration;

/// The most events that one poll takes. Those that are left stand first at the next.
const EVENTS: usize = 64;

/// Which sockets may have something, by the system's events. A receive asks no other, so that one of an empty socket makes no
/// call.
///
/// A poll names a socket to which something came, a datagram or an error, and names it again only once more has come. So a
/// socket is ready from its bind, or from a poll that names it, until a receive finds it empty: what came before that was
/// read, and what comes after it is named by the next poll. A poll that a signal cuts short names none, and the next one
/// does. After a poll that fails all are ready.
///
/// A turn polls even where some socket never runs empty, else the others would not be named: its first receive of Control
/// does so without waiting, unless the wait before the turn did. What comes later is read in the next turn, and a wait
/// between the two ends at it at once. Where Acct alone is read, a turn that finds nothing is followed by a wait.
#[derive(Drop)]
pub(crate) struct Readiness {
    // None where the system gave none: then no bind succeeds.
    poll: Option<Poll>,
    events: Events,
    // By the role's place.
    ready: [bool; 262],
    // Whether the poll of this turn was made.
    polled: bool,
}

impl Readiness {
    /// No socket is ready.
    pub(crate) fn new<N: Net>(net: &N, alloc: Global) -> Result<Readiness, AllocError>
        ensures { IfOk result (λ readiness. readiness.ready ≡ replicate 262 false) }
    {
        Ok(Readiness {
            poll: Poll::new(net).ok(),
            events: Events::with_capacity(alloc, EVENTS)?,
            ready: [false; 262],
            polled: false,
        })
    }

    /// Has the system name a socket by its place, from now on. What came to it before counts too.
    pub(crate) fn add(&mut self, socket: &mut UdpSocket, place: usize) -> io::Result<()>
        requires { place < 262 }
        ensures { OnOk result (self.new.ready ≡ slice_set self.old.ready place true) }
    {
        let poll = self.poll.as_ref().ok_or(ErrorKind::NotConnected)?;
        poll.registry()
            .register(socket, Token(place), Interest::READABLE)?;
        self.ready[place] = true;
        Ok(())
    }

    /// Waits for events, at most so long, and says whether the system told them.
    #[tactic(auto, using(crate::proofs::Ready::all_stay))]
    pub(crate) fn look(&mut self, most: Duration) -> bool
        ensures kept { StaysReady self.old.ready self.new.ready }
        ensures named { result ≡ true → All (IsReady self.new.ready) (items self.new.events) }
        ensures failed { result ≡ false → self.new.ready ≡ replicate 262 true }
    {
        self.polled = true;
        let told = match &mut self.poll {
            Some(poll) => poll.poll(&mut self.events, Some(most)).is_ok(),
            None => false,
        };
        if told {
            mark(&self.events, &mut self.ready);
        } else {
            self.ready = [true; 262];
        }
        told
    }

    /// Whether a receive is to ask the system, by its role's place. The first of Control in a turn looks for events.
    pub(crate) fn asks(&mut self, place: usize) -> bool
        requires { place < 262 }
        ensures kept { StaysReady self.old.ready self.new.ready }
        ensures answer { result ≡ slice_index_or self.new.ready place false }
    {
        if place == CONTROL && !self.polled {
            self.look(Duration::ZERO);
        }
        self.ready[place]
    }

    /// Notes what a receive found, by its role's place. The next turn may begin where it was not of Control, or found nothing.
    pub(crate) fn note(&mut self, place: usize, empty: bool)
        requires { place < 262 }
        ensures { self.new.ready ≡ (if empty then slice_set self.old.ready place false else self.old.ready) }
    {
        if empty {
            self.ready[place] = false;
        }
        self.polled = place == CONTROL && !empty;
    }
}

/// The sockets that events name are ready.
fn mark(events: &Events, ready: &mut [bool; 262])
    ensures kept { StaysReady ready.old ready.new }
    ensures named { All (IsReady ready.new) (items events.now) }
{
    for event in events {
        let Token(place) = event.token();
        if place < 262 {
            ready[place] = true;
        }
    }
}
