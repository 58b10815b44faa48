//! A frame of the peer: which layer it is for.
ghost use Rattle.std.specs.Prelude.{◌↔◌, IsTrue, ◌≡◌, ◌<◌, ◌^◌, ◌||◌, ◌≤◌, length};
ghost use Rattle.bng_ppp.specs.LinkFrame.{RejectsIpcp, HearsOctets, IsWay, IsWayShort, HearsAuth, HearsIpcp, HearsIpcpWithin, HearsLcp};
ghost use Rattle.bng_ppp.specs.LinkRelation.{ended_by};
ghost use Rattle.bng_ppp.specs.Layers.{LcpSteps, lcp_hears};
ghost use Rattle.bng_ppp.specs.LinkStep.{turn_of, IsFresh};
ghost use Rattle.bng_ppp.specs.LinkState.{is_for_auth as for_auth, is_for_ipcp as for_ipcp};
ghost use Rattle.bng_ppp_wire.specs.View.{packet_of};

use crate::authentication::send_reply;
use crate::frame::{FrameKind, frame_at};
use crate::link::Link;
use crate::rules::LinkRules;
use crate::steps::{Steps, cause_of};
use bng_auth::AuthStep;
use bng_automaton::Event;
use bng_base::LONGEST;
use bng_ppp_wire::code::PROTOCOL_REJECT;
use bng_ppp_wire::{Packet, Ppp, protocol};

/// Whose the octets of a frame are, and what they are there.
#[derive(Clone, Copy)]
pub(crate) enum FrameOwner<'a> {
    /// A packet of the authentication that was agreed.
    Auth(Packet<'a>),
    /// A packet of IPCP.
    Ipcp(Packet<'a>),
    /// A frame of one of these that holds no packet.
    NoPacket,
    /// Any other octets: they are LCP's, which passes over or rejects what is not its own.
    Lcp,
}

/// The text of the reply to a peer without a name, or with a name or a password of more than 128 octets.
const NO_NAME: &[u8; 7] = b"no name";

// Whether octets are a Protocol-Reject of IPCP.
fn rejects_ipcp(octets: &[u8]) -> bool
    ensures { IsTrue result ↔ RejectsIpcp octets.now }
{
    let FrameKind::Lcp(packet) = frame_at(octets) else {
        return false;
    };
    match (packet.code, packet.body) {
        (PROTOCOL_REJECT, [high, low, ..]) => {
            u16::from_be_bytes([*high, *low]) == protocol::IPCP
        }
        _ => false,
    }
}

impl Link {
    /// Takes the octets of a frame, and answers the cause with which that ended a live term.
    pub(crate) fn hear_counted(
        &mut self,
        rules: &LinkRules,
        octets: &[u8],
        now: u64,
        random: &[u8; 16],
        steps: &mut Steps,
    ) -> Option<u8>
        requires moment { now < 2 ^ 60 }
        requires fresh { IsFresh self.old steps.old }
        ensures hears { HearsOctets rules.now octets.now now random.now self.old (turn_of self.new steps.new) }
        ensures cause { result ≡ ended_by self.new.live steps.new.left steps.new.ended 1 }
    {
        self.hear(rules, octets, now, random, steps);
        cause_of(self.live, steps.left, steps.ended, 1)
    }

    // Takes the octets of a frame.
    fn hear(
        &mut self,
        rules: &LinkRules,
        octets: &[u8],
        now: u64,
        random: &[u8; 16],
        steps: &mut Steps,
    )
        requires moment { now < 2 ^ 60 }
        requires fresh { IsFresh self.old steps.old }
        ensures { HearsOctets rules.now octets.now now random.now self.old (turn_of self.new steps.new) }
    {
        match self.way(octets) {
            FrameOwner::Auth(packet) => self.hear_auth(rules, &packet, now, random, steps),
            FrameOwner::Ipcp(packet) => self.hear_ipcp(rules, &packet, now, steps),
            FrameOwner::NoPacket => {}
            FrameOwner::Lcp => self.hear_lcp(rules, octets, now, random, steps),
        }
    }

    // Whether a protocol's frames are for authentication.
    fn is_for_auth(&self, number: u16) -> bool
        ensures { result ≡ for_auth self.now number }
    {
        self.lcp.is_opened() && self.auth.takes_protocol(number)
    }

    // Whether a protocol's frames are for IPCP.
    fn is_for_ipcp(&self, number: u16) -> bool
        ensures { result ≡ for_ipcp self.now number }
    {
        self.lcp.is_opened() && self.auth.is_accepted() && number == protocol::IPCP
    }

    // Whether a protocol's frames are for a layer above LCP.
    fn is_for_upper(&self, number: u16) -> bool
        ensures { result ≡ (for_auth self.now number || for_ipcp self.now number) }
    {
        self.is_for_auth(number) || self.is_for_ipcp(number)
    }

    // Whose octets are, and what they are there.
    fn way<'a>(&self, octets: &'a [u8]) -> FrameOwner<'a>
        ensures way { IsWay self.now octets.now result }
        ensures short { IsWayShort result }
    {
        if octets.len() > LONGEST {
            return FrameOwner::Lcp;
        }
        let Ok(frame) = Ppp::read(octets) else {
            return FrameOwner::Lcp;
        };
        if !self.is_for_upper(frame.protocol) {
            return FrameOwner::Lcp;
        }
        let Ok(packet) = Packet::read(frame.info) else {
            return FrameOwner::NoPacket;
        };
        if self.is_for_auth(frame.protocol) {
            FrameOwner::Auth(packet)
        } else {
            FrameOwner::Ipcp(packet)
        }
    }

    // A packet of authentication.
    fn hear_auth(
        &mut self,
        rules: &LinkRules,
        packet: &Packet<'_>,
        now: u64,
        random: &[u8; 16],
        steps: &mut Steps,
    )
        requires moment { now < 2 ^ 60 }
        requires room { length steps.old.layer.outs.items ≤ 0 }
        ensures { HearsAuth rules.now (packet_of packet.now) now random.now (turn_of self.old steps.old) (turn_of self.new steps.new) }
    {
        match self.auth.take(packet) {
            AuthStep::Ask(credentials) => {
                steps.asked = Some(credentials);
                self.auth_due = None;
            }
            AuthStep::Again(reply) => send_reply(&Some(reply), &mut steps.layer),
            AuthStep::Refuse => self.refuse(rules, NO_NAME, now, random, steps),
            AuthStep::Ignore => {}
        }
    }

    // A packet of IPCP.
    fn hear_ipcp(&mut self, rules: &LinkRules, packet: &Packet<'_>, now: u64, steps: &mut Steps)
        requires moment { now < 2 ^ 60 }
        requires body { length packet.now.body.now ≤ 4090 }
        requires room { length steps.old.layer.outs.items ≤ 0 }
        ensures { HearsIpcp rules.now (packet_of packet.now) now (turn_of self.old steps.old) (turn_of self.new steps.new) }
    {
        let mru = self.lcp.mru();
        self.hear_ipcp_within(mru, rules, packet, now, steps);
    }

    // A packet of IPCP, to a peer with this Maximum-Receive-Unit.
    fn hear_ipcp_within(
        &mut self,
        mru: u16,
        rules: &LinkRules,
        packet: &Packet<'_>,
        now: u64,
        steps: &mut Steps,
    )
        requires moment { now < 2 ^ 60 }
        requires body { length packet.now.body.now ≤ 4090 }
        requires mru { mru ≤ 1500 }
        requires room { length steps.old.layer.outs.items ≤ 0 }
        ensures { HearsIpcpWithin mru rules.now (packet_of packet.now) now (turn_of self.old steps.old) (turn_of self.new steps.new) }
    {
        steps.layer.opened = false;
        steps.layer.finished = false;
        self.ipcp
            .hear(packet, &rules.dns, mru, now, &mut steps.layer);
        steps.opened = steps.opened || steps.layer.opened;
        steps.ended = steps.ended || steps.layer.finished;
    }

    // A frame that is LCP's. A Protocol-Reject of IPCP is IPCP's event as well.
    fn hear_lcp(
        &mut self,
        rules: &LinkRules,
        octets: &[u8],
        now: u64,
        random: &[u8; 16],
        steps: &mut Steps,
    )
        requires moment { now < 2 ^ 60 }
        requires fresh { IsFresh self.old steps.old }
        ensures { HearsLcp rules.now octets.now now random.now self.old (turn_of self.new steps.new) }
    {
        let rejected = rejects_ipcp(octets);
        self.hear_lcp_alone(rules, octets, now, random, steps);
        if rejected {
            self.tell_ipcp(Event::RxjMinus, now, steps);
        }
    }

    // A frame that is LCP's, and what it is to the layers above.
    fn hear_lcp_alone(
        &mut self,
        rules: &LinkRules,
        octets: &[u8],
        now: u64,
        random: &[u8; 16],
        steps: &mut Steps,
    )
        requires moment { now < 2 ^ 60 }
        requires fresh { IsFresh self.old steps.old }
        ensures steps { LcpSteps rules.now (lcp_hears rules.now octets.now now random.now) now random.now self.old (turn_of self.new steps.new) }
        ensures few { length steps.new.layer.outs.items ≤ 3 }
    {
        let was = self.lcp.is_opened();
        self.lcp
            .hear(octets, rules.echo, now, random, &mut steps.layer);
        self.after_lcp(was, rules, now, random, steps);
    }
}
