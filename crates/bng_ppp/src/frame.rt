//! A frame of the peer (RFC 1661 section 2).
ghost use Rattle.bng_ppp.specs.Frame.{IsHeard, IsShort};
ghost use Rattle.bng_ppp.specs.Codes.{kind_of};
ghost use Rattle.std.specs.Prelude.{◌≡◌, ◌≤◌, ◌<◌, ◌^◌, length};
ghost use Rattle.bng_ppp.specs.Said.{said, quiet as says_nothing};
ghost use Rattle.bng_ppp.specs.LcpRelation.{HearsFrame, HearsKind};
ghost use Rattle.bng_ppp_wire.specs.View.{packet_of};

use crate::codes::{Kind, kind_at};
use crate::lcp_link::LcpLink;
use crate::lcp_outcome::LcpOutcome;
use bng_automaton::Event;
use bng_base::LONGEST;
use bng_ppp_wire::{Packet, Ppp, protocol};

/// What the octets of a frame are to the link.
#[derive(Clone, Copy, Debug)]
pub(crate) enum FrameKind<'a> {
    /// They are more than the 4,096 of the longest datagram.
    Long,
    /// They are no frame.
    NoFrame,
    /// They are a frame of LCP that holds no packet.
    NoPacket,
    /// A packet of LCP.
    Lcp(Packet<'a>),
    /// A frame of another protocol.
    Other(u16),
}

/// What the octets of a frame are to the link.
pub(crate) fn frame_at(octets: &[u8]) -> FrameKind<'_>
    ensures heard { IsHeard octets.now result }
    ensures short { IsShort result }
{
    if octets.len() > LONGEST {
        return FrameKind::Long;
    }
    let Ok(frame) = Ppp::read(octets) else {
        return FrameKind::NoFrame;
    };
    if frame.protocol != protocol::LCP {
        return FrameKind::Other(frame.protocol);
    }
    let Ok(packet) = Packet::read(frame.info) else {
        return FrameKind::NoPacket;
    };
    FrameKind::Lcp(packet)
}

impl LcpLink {
    /// Takes the octets of a frame.
    pub(crate) fn hear(
        &mut self,
        octets: &[u8],
        echo: u16,
        now: u64,
        random: &[u8; 16],
        steps: &mut LcpOutcome,
    )
        requires moment { now < 2 ^ 60 }
        requires quiet { said steps.old ≡ says_nothing }
        ensures hears { HearsFrame octets.now echo now random.now self.old (said steps.new) self.new }
        ensures few { length steps.new.outs.items ≤ 2 }
    {
        match frame_at(octets) {
            FrameKind::Long | FrameKind::NoFrame | FrameKind::NoPacket => {}
            FrameKind::Lcp(packet) => self.take(&packet, echo, now, random, steps),
            FrameKind::Other(number) => self.pass(number, octets, steps),
        }
    }

    // Takes a packet of LCP.
    fn take(
        &mut self,
        packet: &Packet<'_>,
        echo: u16,
        now: u64,
        random: &[u8; 16],
        steps: &mut LcpOutcome,
    )
        requires moment { now < 2 ^ 60 }
        requires body { length packet.now.body.now ≤ 4090 }
        requires quiet { said steps.old ≡ says_nothing }
        ensures hears { HearsKind (kind_of (packet_of packet.now)) (packet_of packet.now) echo now random.now self.old (said steps.new) self.new }
        ensures few { length steps.new.outs.items ≤ 2 }
    {
        match kind_at(packet) {
            Kind::Request => self.judge(packet, echo, now, random, steps),
            Kind::Reply => self.reply(packet, echo, now, random, steps),
            Kind::Plain(event) => self.plainly(event, packet.id, echo, now, steps),
            Kind::Echo => self.echo(packet, echo, now, steps),
            Kind::Mute => {}
            Kind::EchoReply => {
                self.kept.unanswered = 0;
                self.plainly(Event::Rxr, packet.id, echo, now, steps)
            }
            Kind::Unknown => self.reject_code(packet, echo, now, steps),
        }
    }
}
