//! Configure-Requests: the peer's is judged and answered, and the gateway's goes out (RFC 1661 section 5.1).
ghost use Rattle.std.specs.Prelude.{◌≡◌, ◌≤◌, length, ◌<◌, ◌^◌, ◌+◌};
ghost use Rattle.bng_ppp_wire.specs.View.{options_of, packet_of};
ghost use Rattle.bng_ppp.specs.Automaton.{why, Moves, configured};
ghost use Rattle.bng_ppp.specs.ConfigureRequest.{rules_of, mru_after as mru_in, answer_of, Judges};
ghost use Rattle.bng_ppp.specs.Judgement.{event_of as event_in, IsSpellable};
ghost use Rattle.bng_ppp.specs.MaximumReceiveUnit.{mru_of as mru_listed};
ghost use Rattle.bng_ppp.specs.Said.{said, quiet as says_nothing};

use crate::automaton::Cause;
use crate::counters::NAKS_MOST;
use crate::encapsulation::put_protocol;
use crate::identifiers::requested;
use crate::judgement::{code_of, event_of, naks_after, put_body};
use crate::lcp_link::LcpLink;
use crate::lcp_outcome::LcpOutcome;
use crate::maximum_receive_unit::mru_of;
use bng_base::Frame;
use bng_lcp::{Judged, LcpRules, judge};
use bng_ppp_wire::{Opt, Packet, options, protocol};

impl LcpLink {
    // By what a Configure-Request is judged.
    fn rules(&self, random: &[u8; 16]) -> LcpRules
        ensures rules { result ≡ rules_of self.now random.now }
        ensures limit { result.limit ≤ 1500 }
    {
        LcpRules {
            limit: self.kept.limit,
            own_magic: self.own_magic(),
            fresh_magic: u32::from_be_bytes([random[0], random[1], random[2], random[3]]),
            no_more_naks: NAKS_MOST <= self.kept.naks,
        }
    }

    // Judges a Configure-Request, and answers it.
    pub(crate) fn judge(
        &mut self,
        packet: &Packet<'_>,
        echo: u16,
        now: u64,
        random: &[u8; 16],
        steps: &mut LcpOutcome,
    )
        requires moment { now < 2 ^ 60 }
        requires body { length packet.now.body.now ≤ 4090 }
        requires quiet { said steps.old ≡ says_nothing }
        ensures judges { Judges (packet_of packet.now) echo now random.now self.old (said steps.new) self.new }
        ensures few { length steps.new.outs.items ≤ 2 }
    {
        let Ok(found) = options(packet) else {
            return;
        };
        let rules = self.rules(random);
        let judged = judge(found.as_slice(), &rules);
        self.answer(packet, found.as_slice(), &judged, echo, now, steps)
    }

    // Answers a Configure-Request that was judged.
    fn answer(
        &mut self,
        packet: &Packet<'_>,
        options: &[Opt<'_>],
        judged: &Judged<'_>,
        echo: u16,
        now: u64,
        steps: &mut LcpOutcome,
    )
        requires moment { now < 2 ^ 60 }
        requires body { length packet.now.body.now ≤ 4090 }
        requires fits { IsSpellable judged.now }
        requires mru { judged.now ≡ Judged.Ack → mru_listed self.old.kept.limit (options_of options.now) ≤ 1500 }
        requires quiet { said steps.old ≡ says_nothing }
        ensures moves { Moves (event_in judged.now) (answer_of self.old.kept (packet_of packet.now) (options_of options.now) judged.now) echo now self.old (said steps.new) self.new }
        ensures few { length steps.new.outs.items ≤ 2 }
    {
        let mut body = Frame::new();
        put_body(packet.body, judged, &mut body);
        let answer = Packet {
            code: code_of(judged),
            id: packet.id,
            body: body.payload(),
        };
        let cause = Cause {
            timed: false,
            id: packet.id,
            answer: Some(answer),
            mru: self.mru_after(options, judged),
            naks: naks_after(self.kept.naks, judged),
        };
        self.react(event_of(judged), &cause, echo, now, steps)
    }

    // The peer's Maximum-Receive-Unit once its request is answered.
    fn mru_after(&self, options: &[Opt<'_>], judged: &Judged<'_>) -> u16
        requires listed { judged.now ≡ Judged.Ack → mru_listed self.now.kept.limit (options_of options.now) ≤ 1500 }
        ensures mru { result ≡ mru_in self.now.kept (options_of options.now) judged.now }
        ensures most { result ≤ 1500 }
    {
        match judged {
            Judged::Ack => mru_of(self.kept.limit, options),
            Judged::Nak(_) | Judged::Reject(_) => self.kept.mru,
        }
    }

    // Sends a Configure-Request.
    pub(crate) fn configure(&mut self, cause: &Cause<'_>, steps: &mut LcpOutcome)
        requires room { length steps.old.outs.items < 4 }
        ensures few { length steps.new.outs.items ≤ length steps.old.outs.items + 1 }
        ensures after { self.new ≡ (configured (why cause.now) (record { link = self.old; said = said steps.old })).link }
        ensures said { said steps.new ≡ (configured (why cause.now) (record { link = self.old; said = said steps.old })).said }
    {
        self.kept.ids = requested(self.kept.ids, cause.timed);
        let mut text = Frame::new();
        self.ask.request(self.kept.ids.request, &mut text);
        put_protocol(protocol::LCP, &mut text);
        steps.outs.push(text);
    }
}
