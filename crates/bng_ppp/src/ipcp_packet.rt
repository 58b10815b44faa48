//! A packet of IPCP.
ghost use Rattle.bng_automaton.specs.declared.event.Event.TheVariants as event;
ghost use Rattle.std.specs.Prelude.{◌+◌, ◌<◌, ◌≤◌, ◌^◌, length};
ghost use Rattle.bng_ppp_wire.specs.View.{packet_of};
ghost use Rattle.bng_ppp.specs.IpcpPacket.{IpcpHearsKind, IpcpReplies, ipcp_taken, ipcp_code_reject};
ghost use Rattle.bng_ppp.specs.IpcpCodes.{ipcp_kind_of};
ghost use Rattle.bng_ppp.specs.Said.{said};
ghost use Rattle.bng_ppp.specs.IpcpAutomaton.{IpcpFollows, ipcp_plain, ipcp_answering};
ghost use Rattle.bng_ppp.specs.Room.{most_of};

use crate::ipcp::Ipcp;
use crate::ipcp_automaton::IpcpCause;
use crate::ipcp_codes::{IpcpKind, ipcp_kind_at};
use crate::lcp_outcome::LcpOutcome;
use crate::maximum_receive_unit::{body_most, cut};
use bng_automaton::Event;
use bng_base::{Frame, Ip4};
use bng_ipcp::Taken;
use bng_ppp_wire::Packet;
use bng_ppp_wire::code::CODE_REJECT;

impl Ipcp {
    /// Takes a packet of IPCP. `dns` are the servers that the peer is told, and `mru` is its Maximum-Receive-Unit.
    pub(crate) fn hear(
        &mut self,
        packet: &Packet<'_>,
        dns: &[Option<Ip4>; 2],
        mru: u16,
        now: u64,
        steps: &mut LcpOutcome,
    )
        requires moment { now < 2 ^ 60 }
        requires body { length packet.now.body.now ≤ 4090 }
        requires mru { mru ≤ 1500 }
        requires room { length steps.old.outs.items ≤ 2 }
        ensures few { length steps.new.outs.items ≤ length steps.old.outs.items + 2 }
        ensures hears { IpcpHearsKind (ipcp_kind_of (packet_of packet.now)) (packet_of packet.now) dns.now mru now (record { ipcp = self.old; said = said steps.old }) (record { ipcp = self.new; said = said steps.new }) }
    {
        match ipcp_kind_at(packet) {
            IpcpKind::Request => self.judge(packet, dns, now, steps),
            IpcpKind::Reply => self.reply(packet, now, steps),
            IpcpKind::Plain(event) => self.plainly(event, packet.id, now, steps),
            IpcpKind::Unknown => self.reject_code(packet, mru, now, steps),
        }
    }

    // A Configure-Ack, -Nak or -Reject.
    fn reply(&mut self, packet: &Packet<'_>, now: u64, steps: &mut LcpOutcome)
        requires moment { now < 2 ^ 60 }
        requires room { length steps.old.outs.items ≤ 2 }
        ensures few { length steps.new.outs.items ≤ length steps.old.outs.items + 2 }
        ensures replies { IpcpReplies (packet_of packet.now) now (record { ipcp = self.old; said = said steps.old }) (record { ipcp = self.new; said = said steps.new }) }
    {
        match self.ask.on_reply(packet, &[0; 16]) {
            Taken::Accepted => self.took(Event::Rca, packet.id, now, steps),
            Taken::Changed => self.took(Event::Rcn, packet.id, now, steps),
            Taken::Ignored => {}
        }
    }

    // The event of a reply that is not ignored.
    fn took(&mut self, event: Event, id: u8, now: u64, steps: &mut LcpOutcome)
        requires moment { now < 2 ^ 60 }
        requires room { length steps.old.outs.items + most_of event ≤ 4 }
        ensures few { length steps.new.outs.items ≤ length steps.old.outs.items + most_of event }
        ensures follows { IpcpFollows event (ipcp_plain self.old.kept id) now (ipcp_taken (record { ipcp = self.old; said = said steps.old }) self.old.ask) (record { ipcp = self.new; said = said steps.new }) }
    {
        self.kept.ids.answered = true;
        self.plainly(event, id, now, steps);
    }

    // Rejects a packet of an unknown code.
    fn reject_code(&mut self, packet: &Packet<'_>, mru: u16, now: u64, steps: &mut LcpOutcome)
        requires moment { now < 2 ^ 60 }
        requires body { length packet.now.body.now ≤ 4090 }
        requires mru { mru ≤ 1500 }
        requires room { length steps.old.outs.items ≤ 3 }
        ensures few { length steps.new.outs.items ≤ length steps.old.outs.items + 1 }
        ensures follows { IpcpFollows event.Ruc (ipcp_answering self.old.kept packet.now.id (ipcp_code_reject self.old.kept mru (packet_of packet.now))) now (record { ipcp = self.old; said = said steps.old }) (record { ipcp = self.new; said = said steps.new }) }
    {
        let mut body = Frame::new();
        let _done = packet.write(&mut body);
        let cause = IpcpCause {
            timed: false,
            id: packet.id,
            answer: Some(Packet {
                code: CODE_REJECT,
                id: self.kept.ids.next,
                body: cut(body.payload(), body_most(mru)),
            }),
            naks: self.kept.naks,
        };
        self.follow(Event::Ruc, &cause, now, steps);
    }
}
