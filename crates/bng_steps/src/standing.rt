//! What a session is: on which way, and whether it lives.
ghost use Rattle.std.specs.Prelude.{◌≡◌, ◌&&◌};
ghost use Rattle.bng_steps.specs.Cutting.{is_cut};
ghost use Rattle.bng_steps.specs.Serving.{is_young};
ghost use Rattle.bng_steps.specs.State.{is_connected, is_call_of, is_on, leaves, lives_in};

use crate::session::{Service, Session};
use crate::way::Way;
use bng_base::{Mac, Peer};

impl Session {
    /// Whether it is on this port, of this MAC.
    pub fn is_on(&self, port: u8, mac: Mac) -> bool
        ensures { result ≡ is_on port mac self.now }
    {
        self.way.is_on(port, mac)
    }

    /// Whether it is a call of the tunnel with this number, of this peer.
    pub fn is_over(&self, from: Peer, tunnel: u16) -> bool
        ensures { result ≡ is_call_of from tunnel self.now }
    {
        self.way.is_over(from, tunnel)
    }

    /// Whether its call is established (RFC 2661 section 7.4.2).
    pub fn is_connected(&self) -> bool
        ensures { result ≡ is_connected self.now.way }
    {
        match &self.way {
            Way::Port { .. } => false,
            Way::Call(called) => called.call.is_connected(),
        }
    }

    /// Whether its link hears a PPP frame that comes over its call: it has a link and has not ended, and its call is established.
    pub fn hears(&self) -> bool
        ensures { result ≡ (lives_in self.now.service && is_connected self.now.way) }
    {
        self.lives() && self.is_connected()
    }

    /// Whether it is a call of the tunnel with this number, and has not ended.
    pub fn is_cut(&self, tunnel: u16) -> bool
        ensures { result ≡ is_cut tunnel self.now }
    {
        self.way.is_of(tunnel) && self.lives()
    }

    /// Whether it is at an access port, discovery made it, it has not ended, and its LCP was never Opened.
    pub fn is_young(&self) -> bool
        ensures { result ≡ is_young self.now }
    {
        self.way.is_port()
            && match &self.service {
                Service::Provisioned { .. } => false,
                Service::Linked(made) => !made.ended && !made.link.was_opened(),
            }
    }

    /// Whether it has a link, and has not ended.
    pub fn lives(&self) -> bool
        ensures { result ≡ lives_in self.now.service }
    {
        match &self.service {
            Service::Provisioned { .. } => false,
            Service::Linked(made) => !made.ended,
        }
    }

    /// Whether it has ended, and leaves at the settlement.
    pub fn has_ended(&self) -> bool
        ensures { result ≡ leaves self.now }
    {
        match &self.service {
            Service::Provisioned { ended } => *ended,
            Service::Linked(made) => made.ended,
        }
    }
}
