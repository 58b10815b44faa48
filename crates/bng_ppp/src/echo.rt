//! Echo-Requests and Echo-Replies (RFC 1661 section 5.8).
ghost use Rattle.std.specs.Prelude.{◌≡◌, ◌^◌, ◌<◌, ◌≤◌, length, ◌↔◌, IsTrue};
ghost use Rattle.bng_ppp.specs.Counters.{echo_after};
ghost use Rattle.bng_ppp.specs.Echo.{own_magic as own_magic_of, echo_reply, EchoIsDue, echoes};
ghost use Rattle.bng_ppp_wire.specs.View.{packet_of};
ghost use Rattle.bng_ppp.specs.Said.{said, quiet as says_nothing};
ghost use Rattle.bng_ppp.specs.Automaton.{answering, Moves};

use crate::encapsulation::send;
use crate::identifiers::next_id;
use crate::lcp_link::LcpLink;
use crate::lcp_outcome::LcpOutcome;
use crate::maximum_receive_unit::{body_most, cut};
use bng_automaton::Event;
use bng_base::Frame;
use bng_ppp_wire::code::{ECHO_REPLY, ECHO_REQUEST};
use bng_ppp_wire::{Packet, protocol};

/// When the next Echo-Request is due after this moment, where they go out every `echo` seconds.
pub(crate) fn echo_at(echo: u16, now: u64) -> Option<u64>
    requires { now < 2 ^ 60 }
    ensures { result ≡ echo_after echo now }
{
    if echo == 0 {
        None
    } else {
        Some(now + 1000 * u64::from(echo))
    }
}

impl LcpLink {
    // The gateway's magic number, 0 where the peer rejected it.
    pub(crate) fn own_magic(&self) -> u32
        ensures { result ≡ own_magic_of self.now }
    {
        self.ask.wanted().magic.unwrap_or(0)
    }

    // Answers an Echo-Request.
    pub(crate) fn echo(&mut self, packet: &Packet<'_>, echo: u16, now: u64, steps: &mut LcpOutcome)
        requires moment { now < 2 ^ 60 }
        requires magic { 4 ≤ length packet.now.body.now }
        requires body { length packet.now.body.now ≤ 4090 }
        requires quiet { said steps.old ≡ says_nothing }
        ensures moves { Moves Event.Rxr (answering self.old.kept packet.now.id (echo_reply self.old (packet_of packet.now))) echo now self.old (said steps.new) self.new }
        ensures few { length steps.new.outs.items ≤ 1 }
    {
        let mut body = Frame::new();
        body.put_back(&self.own_magic().to_be_bytes());
        body.put_back(&packet.body[4..]);
        let answer = Packet {
            code: ECHO_REPLY,
            id: packet.id,
            body: cut(body.payload(), body_most(self.kept.mru)),
        };
        self.reply_by(Event::Rxr, packet.id, &answer, echo, now, steps)
    }

    // Whether an Echo-Request is due.
    pub(crate) fn echo_is_due(&self, now: u64) -> bool
        ensures { IsTrue result ↔ EchoIsDue self.now now }
    {
        match self.kept.next_echo {
            Some(moment) => moment <= now,
            None => false,
        }
    }

    // Sends an Echo-Request.
    pub(crate) fn ask_for_echo(&mut self, echo: u16, now: u64, steps: &mut LcpOutcome)
        requires moment { now < 2 ^ 60 }
        requires unanswered { self.old.kept.unanswered < 3 }
        requires quiet { said steps.old ≡ says_nothing }
        ensures said { said steps.new ≡ (echoes echo now self.old).said }
        ensures after { self.new ≡ (echoes echo now self.old).link }
        ensures few { length steps.new.outs.items ≤ 1 }
    {
        let magic = self.own_magic().to_be_bytes();
        let packet = Packet {
            code: ECHO_REQUEST,
            id: self.kept.ids.next,
            body: &magic,
        };
        send(protocol::LCP, &packet, steps);
        self.kept.ids.next = next_id(self.kept.ids.next);
        self.kept.unanswered += 1;
        self.kept.next_echo = echo_at(echo, now);
    }
}
