//! The plant of the peers.
ghost use Rattle.std.specs.Prelude.{◌≡◌, ◌≤◌, IfOk, None};
ghost use Rattle.bng_peer.specs.Telling.{clock_told};

use crate::clock::PeerClock;
use crate::error::PeerError;
use crate::packet::fill;
use crate::peers::Peers;
use crate::script::{ACCESS, ACCT, AUTH, CORE, LACS, OPERATOR};
use bng_base::{Frame, Peer, Received, Role};
use bng_l2tp_wire::{Control, Data, is_control};
use bng_plant::{Bound, Plant, Sending};
use std::alloc::{AllocError, Global};
use std::cell::Cell;
use std::rc::Rc;

/// The peers behind the roles of the gateway. It tells nothing, no call of it fails, and none takes memory.
#[derive(Drop)]
pub struct PeerPlant {
    peers: Peers,
    moment: Rc<Cell<u64>>,
}

// The peers with their clock.
fn made(alloc: Global, n: u32) -> Result<(PeerPlant, PeerClock), AllocError>
    requires { n ≤ 4000 }
    ensures clock { IfOk result (λ pair. clock_told pair.1 ≡ record { answers = None; last = 0 }) }
{
    let moment = Rc::new(alloc, Cell::new(0))?;
    let clock = PeerClock::new(moment.clone()?);
    let plant = PeerPlant {
        peers: Peers::new(alloc, n)?,
        moment,
    };
    Ok((plant, clock))
}

// The access concentrator with an address.
fn lac_at(peer: Peer) -> Option<usize> {
    for place in 0..LACS.len() {
        if LACS[place].ip == peer.ip {
            return Some(place);
        }
    }
    None
}

impl PeerPlant {
    /// So many subscribers, 1 to 4,000, with the other peers of the script, before anything was said, and their clock at
    /// the moment 0. The clock moves where this plant waits. OutOfMemory comes for want of memory alone.
    pub fn open(alloc: Global, n: u32) -> Result<(PeerPlant, PeerClock), PeerError>
        requires some { 1 ≤ n }
        requires few { n ≤ 4000 }
        ensures clock { IfOk result (λ pair. clock_told pair.1 ≡ record { answers = None; last = 0 }) }
    {
        match made(alloc, n) {
            Ok(opened) => Ok(opened),
            Err(_) => Err(PeerError::OutOfMemory),
        }
    }

    fn now(&self) -> u64 {
        self.moment.get()
    }

    // The next datagram that comes to a role, and who sends it.
    fn say(&mut self, role: Role) -> Option<(Peer, Frame)> {
        let now = self.now();
        match role {
            Role::Access(_) => Some((ACCESS, self.peers.say_access(now)?)),
            Role::Core => Some((CORE, self.peers.say_core(now)?)),
            Role::Tunnel => self.peers.say_tunnel(now),
            Role::Auth => Some((AUTH, self.peers.say_auth()?)),
            Role::Acct => Some((ACCT, self.peers.say_acct()?)),
            Role::Control => self.say_stop(),
            Role::Coa => None,
        }
    }

    fn say_stop(&mut self) -> Option<(Peer, Frame)> {
        if !self.peers.says_stop() {
            return None;
        }
        let mut frame = Frame::new();
        frame.set(b"stop");
        Some((OPERATOR, frame))
    }

    // A datagram came to an access concentrator.
    fn hear_tunnel(&mut self, to: Peer, bytes: &[u8]) {
        let Some(place) = lac_at(to) else {
            return;
        };
        if is_control(bytes) {
            let now = self.now();
            if let Ok(message) = Control::read(bytes) {
                self.peers.hear_control(place, &message, now);
            }
            return;
        }
        if let Ok(message) = Data::read(bytes) {
            self.peers.hear_data(&message);
        }
    }
}

impl Plant for PeerPlant {
    ghost use Rattle.bng_peer.specs.Telling.{tells_nothing};

    ghost told = { tells_nothing };

    fn bind(&mut self, _role: Role, _local: Peer, _remote: Option<Peer>) -> Bound {
        Bound::Ok
    }

    fn recv(&mut self, role: Role, into: &mut Frame) -> Received {
        let Some((from, frame)) = self.say(role) else {
            return Received::Empty;
        };
        fill(into, frame.payload());
        Received::Got { from, cut: false }
    }

    fn send(&mut self, role: Role, to: Peer, bytes: &[u8]) -> Sending {
        match role {
            Role::Access(_) => self.peers.hear_access(bytes),
            Role::Core => self.peers.hear_core(bytes),
            Role::Tunnel => self.hear_tunnel(to, bytes),
            Role::Auth => self.peers.hear_auth(bytes),
            Role::Acct => self.peers.hear_acct(bytes),
            Role::Coa | Role::Control => {}
        }
        Sending::Sent
    }

    fn wait(&mut self, ms: u32) {
        let now = self.now().saturating_add(u64::from(ms));
        self.moment.set(now);
        self.peers.pass(now);
    }
}
