//! The peer's authentication: by PAP (RFC 1334) or CHAP (RFC 1994), as LCP agreed.
ghost use Rattle.std.specs.Prelude.{◌≡◌, ◌≤◌, length, option_map, ◌+◌, ◌<◌};
ghost use Rattle.bng_ppp.specs.LinkState.{is_open as open_in, is_accepted as accepted_in, takes_protocol as protocol_in};
ghost use Rattle.bng_ppp.specs.Phases.{is_begun as begun_in};
ghost use Rattle.bng_ppp_wire.specs.View.{packet_of};
ghost use Rattle.bng_ppp.specs.Authentication.{AuthTakes, AuthSettles, challenge_sent, reply_sent};
ghost use Rattle.bng_auth.specs.Replying.{reply_of};
ghost use Rattle.bng_ppp.specs.Said.{said};

use crate::encapsulation::put_protocol;
use crate::lcp_outcome::LcpOutcome;
use crate::protocol_reject::protocol_of;
use bng_auth::{AuthStep, Chap, Pap, Reply};
use bng_base::Frame;
use bng_ppp_wire::{Packet, protocol};

/// How far a peer's authentication has come.
#[derive(Drop)]
pub enum Authentication {
    /// LCP is not Opened.
    Idle,
    /// By PAP.
    Pap(Pap),
    /// By CHAP, with so many Challenges sent.
    Chap(Chap, u8),
}

impl Authentication {
    /// Whether a question was asked whose verdict is not there yet.
    pub(crate) fn is_open(&self) -> bool
        ensures { result ≡ open_in self.now }
    {
        match self {
            Authentication::Idle => false,
            Authentication::Pap(peer) => peer.is_open(),
            Authentication::Chap(peer, _) => peer.is_open(),
        }
    }

    /// Whether it has begun.
    pub(crate) fn is_begun(&self) -> bool
        ensures { result ≡ begun_in self.now }
    {
        match self {
            Authentication::Idle => false,
            Authentication::Pap(_) => true,
            Authentication::Chap(_, _) => true,
        }
    }

    /// Whether the peer was accepted.
    pub(crate) fn is_accepted(&self) -> bool
        ensures { result ≡ accepted_in self.now }
    {
        match self {
            Authentication::Idle => false,
            Authentication::Pap(peer) => peer.is_accepted(),
            Authentication::Chap(peer, _) => peer.is_accepted(),
        }
    }

    /// Whether frames of this protocol are for it.
    pub(crate) fn takes_protocol(&self, number: u16) -> bool
        ensures { result ≡ protocol_in self.now number }
    {
        match self {
            Authentication::Idle => false,
            Authentication::Pap(_) => number == protocol::PAP,
            Authentication::Chap(_, _) => number == protocol::CHAP,
        }
    }

    /// Takes a packet of the protocol that was agreed.
    pub(crate) fn take(&mut self, packet: &Packet<'_>) -> AuthStep
        ensures { AuthTakes self.old (packet_of packet.now) result self.new }
    {
        match self {
            Authentication::Idle => AuthStep::Ignore,
            Authentication::Pap(peer) => peer.on_frame(packet),
            Authentication::Chap(peer, _) => peer.on_frame(packet),
        }
    }

    /// Takes a verdict, and answers the reply that gives it.
    pub(crate) fn settle(&mut self, yes: bool, text: &[u8]) -> Option<Reply>
        requires { length text.now ≤ 253 }
        ensures { AuthSettles self.old yes text.now (option_map reply_of result) self.new }
    {
        match self {
            Authentication::Idle => None,
            Authentication::Pap(peer) => Some(peer.on_verdict(yes, text)),
            Authentication::Chap(peer, _) => Some(peer.on_verdict(yes, text)),
        }
    }
}

/// Sends a Challenge with the gateway's name.
pub(crate) fn send_challenge(peer: &Chap, name: &[u8], steps: &mut LcpOutcome)
    requires name { length name.now ≤ 64 }
    requires room { length steps.old.outs.items < 4 }
    ensures said { said steps.new ≡ record (said steps.old) { outs = challenge_sent name.now peer.now (said steps.old).outs } }
    ensures few { length steps.new.outs.items ≤ length steps.old.outs.items + 1 }
{
    let mut text = Frame::new();
    peer.challenge(name, &mut text);
    put_protocol(protocol::CHAP, &mut text);
    steps.outs.push(text);
}

// Sends the reply to a peer that authenticates itself, where there is one.
pub(crate) fn send_reply(reply: &Option<Reply>, steps: &mut LcpOutcome)
    requires room { length steps.old.outs.items < 4 }
    ensures said { said steps.new ≡ record (said steps.old) { outs = reply_sent (option_map reply_of reply.now) (said steps.old).outs } }
    ensures few { length steps.new.outs.items ≤ length steps.old.outs.items + 1 }
{
    if let Some(reply) = reply {
        let mut text = Frame::new();
        reply.write(&mut text);
        put_protocol(protocol_of(reply.kind), &mut text);
        steps.outs.push(text);
    }
}
