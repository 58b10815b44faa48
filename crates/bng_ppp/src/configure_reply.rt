//! A Configure-Ack, Configure-Nak or Configure-Reject of the peer (RFC 1661 sections 5.2 to 5.4).
ghost use Rattle.std.specs.Prelude.{◌≡◌, ◌≤◌, ◌<◌, ◌^◌, length};
ghost use Rattle.bng_ppp_wire.specs.View.{packet_of};
ghost use Rattle.bng_ppp.specs.Said.{said, quiet as says_nothing};
ghost use Rattle.bng_ppp.specs.ConfigureReply.{Replies, taken};
ghost use Rattle.bng_ppp.specs.Room.{most_of};
ghost use Rattle.bng_ppp.specs.Automaton.{plain, Moves};

use crate::lcp_link::LcpLink;
use crate::lcp_outcome::LcpOutcome;
use bng_automaton::Event;
use bng_lcp::Taken;
use bng_ppp_wire::Packet;

impl LcpLink {
    // A Configure-Ack, -Nak or -Reject.
    pub(crate) fn reply(
        &mut self,
        packet: &Packet<'_>,
        echo: u16,
        now: u64,
        random: &[u8; 16],
        steps: &mut LcpOutcome,
    )
        requires moment { now < 2 ^ 60 }
        requires quiet { said steps.old ≡ says_nothing }
        ensures replies { Replies (packet_of packet.now) echo now random.now self.old (said steps.new) self.new }
        ensures few { length steps.new.outs.items ≤ 2 }
    {
        match self.ask.on_reply(packet, random) {
            Taken::Accepted => self.took(Event::Rca, packet.id, echo, now, steps),
            Taken::Changed => self.took(Event::Rcn, packet.id, echo, now, steps),
            Taken::Unwilling => self.took(Event::Close, packet.id, echo, now, steps),
            Taken::Ignored => {}
        }
    }

    // The event of a reply that is not ignored.
    fn took(&mut self, event: Event, id: u8, echo: u16, now: u64, steps: &mut LcpOutcome)
        requires moment { now < 2 ^ 60 }
        requires quiet { said steps.old ≡ says_nothing }
        ensures moves { Moves event (plain self.old.kept id) echo now (taken self.old self.old.ask) (said steps.new) self.new }
        ensures few { length steps.new.outs.items ≤ most_of event }
    {
        self.kept.ids.answered = true;
        self.plainly(event, id, echo, now, steps)
    }
}
