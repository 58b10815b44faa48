//! The way on which the frames of a session come and go.
ghost use Rattle.std.specs.Prelude.{◌≡◌};
ghost use Rattle.bng_steps.specs.State.{circuit_in, is_on_way, is_over_way, is_way_of, is_port};
ghost use Rattle.bng_lns.specs.Places.{same_peer as is_same_peer};

use bng_base::{Circuit, Mac, Peer, SessionNo, TunnelNo};
use bng_l2tp_call::Call;

/// A call of a tunnel (RFC 2661): the tunnel's peer and number, the peer's own number for the tunnel, and how far the call has come.
#[derive(Drop)]
pub struct TunnelCall {
    pub peer: Peer,
    pub tunnel: TunnelNo,
    pub far: u16,
    pub call: Call,
}

/// Where the frames of a session come and go: at an access port and the MAC of its subscriber (RFC 2516), or over a call of a tunnel.
#[derive(Drop)]
pub enum Way {
    Port { port: u8, mac: Mac },
    Call(TunnelCall),
}

impl TunnelCall {
    ghost use Rattle.bng_l2tp_call.specs.Steps.{to_peer};

    /// The peer's own number for the call, 0 where it is not known.
    pub fn far_session(&self) -> u16
        ensures { result ≡ to_peer self.now.call }
    {
        self.call.peer_number().unwrap_or(0)
    }
}

fn same_peer(a: Peer, b: Peer) -> bool
    ensures { result ≡ is_same_peer a b }
{
    a.ip.0 == b.ip.0 && a.port == b.port
}

impl Way {
    /// The circuit of the session with this number.
    pub fn circuit(&self, session: SessionNo) -> Circuit
        ensures { result ≡ circuit_in self.now session }
    {
        match self {
            Way::Port { port, mac } => Circuit::Pppoe {
                port: *port,
                mac: *mac,
                session,
            },
            Way::Call(called) => Circuit::L2tp {
                peer: called.peer,
                tunnel: called.tunnel,
                session,
            },
        }
    }

    /// Whether it is at this port, of this MAC.
    pub fn is_on(&self, at: u8, of: Mac) -> bool
        ensures { result ≡ is_on_way at of self.now }
    {
        match self {
            Way::Port { port, mac } => *port == at && mac.0.as_slice() == of.0.as_slice(),
            Way::Call(_) => false,
        }
    }

    /// Whether it is a call of the tunnel with this number, of this peer.
    pub fn is_over(&self, from: Peer, number: u16) -> bool
        ensures { result ≡ is_over_way from number self.now }
    {
        match self {
            Way::Port { .. } => false,
            Way::Call(called) => same_peer(called.peer, from) && called.tunnel.0 == number,
        }
    }

    /// Whether it is a call of the tunnel with this number, whoever the peer is.
    pub fn is_of(&self, number: u16) -> bool
        ensures { result ≡ is_way_of number self.now }
    {
        match self {
            Way::Port { .. } => false,
            Way::Call(called) => called.tunnel.0 == number,
        }
    }

    /// Whether it is at an access port.
    pub fn is_port(&self) -> bool
        ensures { result ≡ is_port self.now }
    {
        match self {
            Way::Port { .. } => true,
            Way::Call(_) => false,
        }
    }
}
