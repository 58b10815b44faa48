//! Configure-Requests of IPCP: the peer's is judged and answered, and the gateway's goes out.
ghost use Rattle.std.specs.Prelude.{◌≡◌, ◌≤◌, length, ◌+◌, ◌<◌, ◌^◌};
ghost use Rattle.bng_ppp_wire.specs.View.{packet_of};
ghost use Rattle.bng_ppp.specs.IpcpAutomaton.{ipcp_why, IpcpFollows, ipcp_configured};
ghost use Rattle.bng_ppp.specs.IpcpConfigureRequest.{ipcp_rules_of, IpcpJudges, ipcp_answer_of};
ghost use Rattle.bng_ppp.specs.Judgement.{event_of as event_in, IsSpellable};
ghost use Rattle.bng_ppp.specs.Said.{said};

use crate::counters::NAKS_MOST;
use crate::encapsulation::put_protocol;
use crate::identifiers::requested;
use crate::ipcp::Ipcp;
use crate::ipcp_automaton::IpcpCause;
use crate::judgement::{code_of, event_of, naks_after, put_body};
use crate::lcp_outcome::LcpOutcome;
use bng_base::{Frame, Ip4};
use bng_ipcp::{IpcpRules, Judged, judge};
use bng_ppp_wire::{Packet, options, protocol};

impl Ipcp {
    // By what a Configure-Request is judged.
    fn rules(&self, dns: &[Option<Ip4>; 2]) -> IpcpRules
        ensures { result ≡ ipcp_rules_of dns.now self.now.kept }
    {
        IpcpRules {
            lease: self.kept.lease,
            dns: *dns,
            no_more_naks: NAKS_MOST <= self.kept.naks,
        }
    }

    // Judges a Configure-Request, and answers it.
    pub(crate) fn judge(
        &mut self,
        packet: &Packet<'_>,
        dns: &[Option<Ip4>; 2],
        now: u64,
        steps: &mut LcpOutcome,
    )
        requires moment { now < 2 ^ 60 }
        requires body { length packet.now.body.now ≤ 4090 }
        requires room { length steps.old.outs.items ≤ 2 }
        ensures few { length steps.new.outs.items ≤ length steps.old.outs.items + 2 }
        ensures judges { IpcpJudges (packet_of packet.now) dns.now now (record { ipcp = self.old; said = said steps.old }) (record { ipcp = self.new; said = said steps.new }) }
    {
        let Ok(found) = options(packet) else {
            return;
        };
        let rules = self.rules(dns);
        let judged = judge(found.as_slice(), &rules);
        self.answer(packet, &judged, now, steps);
    }

    // Answers a Configure-Request that was judged.
    fn answer(&mut self, packet: &Packet<'_>, judged: &Judged<'_>, now: u64, steps: &mut LcpOutcome)
        requires moment { now < 2 ^ 60 }
        requires body { length packet.now.body.now ≤ 4090 }
        requires fits { IsSpellable judged.now }
        requires room { length steps.old.outs.items ≤ 2 }
        ensures few { length steps.new.outs.items ≤ length steps.old.outs.items + 2 }
        ensures follows { IpcpFollows (event_in judged.now) (ipcp_answer_of self.old.kept (packet_of packet.now) judged.now) now (record { ipcp = self.old; said = said steps.old }) (record { ipcp = self.new; said = said steps.new }) }
    {
        let mut body = Frame::new();
        put_body(packet.body, judged, &mut body);
        let answer = Packet {
            code: code_of(judged),
            id: packet.id,
            body: body.payload(),
        };
        let cause = IpcpCause {
            timed: false,
            id: packet.id,
            answer: Some(answer),
            naks: naks_after(self.kept.naks, judged),
        };
        self.follow(event_of(judged), &cause, now, steps);
    }

    // Sends a Configure-Request.
    pub(crate) fn configure(&mut self, cause: &IpcpCause<'_>, steps: &mut LcpOutcome)
        requires room { length steps.old.outs.items < 4 }
        ensures few { length steps.new.outs.items ≤ length steps.old.outs.items + 1 }
        ensures after { self.new ≡ (ipcp_configured (ipcp_why cause.now) (record { ipcp = self.old; said = said steps.old })).ipcp }
        ensures said { said steps.new ≡ (ipcp_configured (ipcp_why cause.now) (record { ipcp = self.old; said = said steps.old })).said }
    {
        self.kept.ids = requested(self.kept.ids, cause.timed);
        let mut text = Frame::new();
        self.ask.request(self.kept.ids.request, &mut text);
        put_protocol(protocol::IPCP, &mut text);
        steps.outs.push(text);
    }
}
