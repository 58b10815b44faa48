//! The packets that go out, each in a frame of its protocol (RFC 1661 section 2).
ghost use Rattle.std.specs.Prelude.{◌≡◌, ◌≤◌, ◌+◌, ◌<◌, [], length, option_map};
ghost use Rattle.bng_base.specs.PppGrammar.{ppp_text};
ghost use Rattle.bng_ppp_wire.specs.View.{packet_of};
ghost use Rattle.bng_ppp.specs.Automaton.{AnswerFits};
ghost use Rattle.bng_ppp.specs.Encapsulation.{sent, sent_some};
ghost use Rattle.bng_ppp.specs.Said.{said};

use crate::lcp_outcome::LcpOutcome;
use bng_base::{Frame, HEADROOM, ROOM};
use bng_ppp_wire::Packet;

/// Puts a protocol's number before the packet that a frame holds.
pub(crate) fn put_protocol(number: u16, frame: &mut Frame)
    requires headroom { frame.old.headroom ≡ HEADROOM }
    ensures text { frame.new.payload ≡ ppp_text (record { protocol = number; info = frame.old.payload }) }
    ensures short { length frame.new.payload ≤ 4160 }
{
    frame.put_front(&number.to_be_bytes());
    let fits = frame.payload().len() <= ROOM;
    prove!(fits);
}

/// Sends a packet of a protocol.
pub(crate) fn send(number: u16, packet: &Packet<'_>, steps: &mut LcpOutcome)
    requires fits { length packet.now.body.now ≤ 4090 }
    requires room { length steps.old.outs.items < 4 }
    ensures said { said steps.new ≡ record (said steps.old) { outs = sent number (packet_of packet.now) (said steps.old).outs } }
    ensures few { length steps.new.outs.items ≤ length steps.old.outs.items + 1 }
{
    let mut text = Frame::new();
    let _done = packet.write(&mut text);
    put_protocol(number, &mut text);
    steps.outs.push(text);
}

/// Sends a packet of a protocol, where there is one.
pub(crate) fn send_some(number: u16, packet: &Option<Packet<'_>>, steps: &mut LcpOutcome)
    requires fits { AnswerFits packet.now }
    requires room { length steps.old.outs.items < 4 }
    ensures said { said steps.new ≡ record (said steps.old) { outs = sent_some number (option_map packet_of packet.now) (said steps.old).outs } }
    ensures few { length steps.new.outs.items ≤ length steps.old.outs.items + 1 }
{
    if let Some(packet) = packet {
        send(number, packet, steps);
    }
}

/// Sends a packet of a protocol without a body.
pub(crate) fn send_bare(number: u16, code: u8, id: u8, steps: &mut LcpOutcome)
    requires room { length steps.old.outs.items < 4 }
    ensures said { said steps.new ≡ record (said steps.old) { outs = sent number (record { code = code; id = id; body = [] }) (said steps.old).outs } }
    ensures few { length steps.new.outs.items ≤ length steps.old.outs.items + 1 }
{
    let packet = Packet {
        code,
        id,
        body: &[],
    };
    send(number, &packet, steps);
}
