//! One UDP socket a role. None of them is connected, so that a datagram of a stranger is taken, and can be counted.
ghost use Rattle.std.specs.Prelude.{◌≡◌, ◌<◌, None, IfOk};
ghost use Rattle.bng_base.specs.Causes.{HasCause};
ghost use Rattle.bng_plant.specs.Calls.{IsFilled};

use crate::ends::address_of;
use crate::handing::hand_over;
use crate::places::place_of;
use crate::readiness::Readiness;
use crate::taking::take_into;
use bng_base::{Frame, Peer, Received, Role};
use bng_plant::{Bound, Plant, Sending};
use mio::net::UdpSocket;
use std::alloc::{AllocError, Global};
use std::net::Net;
use std::time::Duration;
use std::{array, io};

/// The roles' sockets, and which of them have something. `N` gives sockets.
#[derive(Drop)]
pub struct RealPlant<'a, N: Net> {
    net: &'a N,
    readiness: Readiness,
    // By the roles' places.
    sockets: [Option<UdpSocket>; 262],
    faults: u64,
}

impl<'a, N: Net> RealPlant<'a, N> {
    /// A plant with no sockets yet. The memory for waiting is taken here, and no later call takes any.
    pub fn new(net: &'a N, alloc: Global) -> Result<RealPlant<'a, N>, AllocError>
        ensures { IfOk result (λ plant. plant.faults ≡ 0) }
    {
        Ok(RealPlant {
            net,
            readiness: Readiness::new(net, alloc)?,
            sockets: array::from_fn(|_| None),
            faults: 0,
        })
    }

    /// How many calls failed, and how many errors of earlier sends a receive was told.
    pub fn faults(&self) -> u64
        ensures { self.now.faults ≡ result }
    {
        self.faults
    }

    fn open(&mut self, role: Role, local: Peer) -> io::Result<()>
        ensures kept { self.new.faults ≡ self.old.faults }
    {
        let place = place_of(role);
        let mut socket = UdpSocket::bind(self.net, address_of(local))?;
        self.readiness.add(&mut socket, place)?;
        self.sockets[place] = Some(socket);
        Ok(())
    }

    /// Takes the next datagram of the socket at a place, where it may have one.
    fn take_at(&mut self, place: usize, into: &mut Frame) -> Received
        requires { place < 262 }
        ensures filled { IsFilled result into.new }
        ensures cause { HasCause self.old.faults self.new.faults (result ≡ Received.Failed) }
    {
        let asks = self.readiness.asks(place);
        match &mut self.sockets[place] {
            Some(_) if !asks => Received::Empty,
            Some(socket) => take_into(socket, into, &mut self.faults),
            None => {
                self.faults = self.faults.saturating_add(1);
                Received::Failed
            }
        }
    }
}

impl<N: Net> Plant for RealPlant<'_, N> {
    ghost told = { λ plant. record { bound = None; heard = None; taken = None; sent = None; faults = plant.faults } };

    fn bind(&mut self, role: Role, local: Peer, _remote: Option<Peer>) -> Bound {
        if self.open(role, local).is_ok() {
            return Bound::Ok;
        }
        self.faults = self.faults.saturating_add(1);
        Bound::Failed
    }

    fn recv(&mut self, role: Role, into: &mut Frame) -> Received {
        let place = place_of(role);
        let answer = self.take_at(place, into);
        self.readiness
            .note(place, matches!(answer, Received::Empty));
        answer
    }

    fn send(&mut self, role: Role, to: Peer, bytes: &[u8]) -> Sending {
        let sent = match &mut self.sockets[place_of(role)] {
            Some(socket) => hand_over(socket, address_of(to), bytes),
            None => false,
        };
        if sent {
            return Sending::Sent;
        }
        self.faults = self.faults.saturating_add(1);
        Sending::Failed
    }

    fn wait(&mut self, ms: u32) {
        let most = Duration::from_millis(u64::from(ms));
        if !self.readiness.look(most) {
            self.faults = self.faults.saturating_add(1);
        }
    }
}
