//! The Code-Reject of a packet of an unknown code (RFC 1661 section 5.6).
ghost use Rattle.std.specs.Prelude.{◌≡◌, ◌≤◌, ◌<◌, ◌^◌, length};
ghost use Rattle.bng_ppp_wire.specs.View.{packet_of};
ghost use Rattle.bng_ppp.specs.Said.{said, quiet as says_nothing};
ghost use Rattle.bng_ppp.specs.Automaton.{answering, Moves};
ghost use Rattle.bng_ppp.specs.CodeReject.{code_reject};

use crate::lcp_link::LcpLink;
use crate::lcp_outcome::LcpOutcome;
use crate::maximum_receive_unit::{body_most, cut};
use bng_automaton::Event;
use bng_base::Frame;
use bng_ppp_wire::Packet;
use bng_ppp_wire::code::CODE_REJECT;

impl LcpLink {
    // Rejects a packet of an unknown code.
    pub(crate) fn reject_code(
        &mut self,
        packet: &Packet<'_>,
        echo: u16,
        now: u64,
        steps: &mut LcpOutcome,
    )
        requires moment { now < 2 ^ 60 }
        requires body { length packet.now.body.now ≤ 4090 }
        requires quiet { said steps.old ≡ says_nothing }
        ensures moves { Moves Event.Ruc (answering self.old.kept packet.now.id (code_reject self.old (packet_of packet.now))) echo now self.old (said steps.new) self.new }
        ensures few { length steps.new.outs.items ≤ 1 }
    {
        let mut body = Frame::new();
        let _done = packet.write(&mut body);
        let answer = Packet {
            code: CODE_REJECT,
            id: self.kept.ids.next,
            body: cut(body.payload(), body_most(self.kept.mru)),
        };
        self.reply_by(Event::Ruc, packet.id, &answer, echo, now, steps)
    }
}
