//! The layers of a link, and what one going up or down is to those above it.
ghost use Rattle.std.specs.Prelude.{◌<◌, ◌≤◌, ◌^◌, length, ◌≡◌, None, ◌+◌, ◌||◌, ◌&&◌, not};
ghost use Rattle.bng_ppp.specs.Layers.{LcpSteps, lcp_told, LcpCloses, Above, authenticates, IpcpMoves};
ghost use Rattle.bng_ppp.specs.LinkStep.{turn_of, IsFresh};
ghost use Rattle.bng_ppp.specs.LcpState.{is_opened as opened_in};
ghost use Rattle.bng_ppp.specs.IpcpAutomaton.{ipcp_plain};
ghost use Rattle.bng_ppp.specs.Room.{most_of};

use crate::authentication::{Authentication, send_challenge};
use crate::identifiers::next_id;
use crate::link::Link;
use crate::link_timers::CHALLENGE_AFTER;
use crate::rules::{LcpInput, LinkRules};
use crate::steps::Steps;
use bng_auth::{Chap, Pap};
use bng_automaton::Event;
use bng_base::AuthKind;

/// So many milliseconds a peer's PAP is waited for.
const PAP_WITHIN: u64 = 30_000;

impl Link {
    /// A step of LCP alone, with which the step of the link begins, and what it is to the layers above.
    pub(crate) fn tell_lcp_alone(
        &mut self,
        rules: &LinkRules,
        input: LcpInput<'_>,
        now: u64,
        random: &[u8; 16],
        steps: &mut Steps,
    )
        requires moment { now < 2 ^ 60 }
        requires auth { 0 < length rules.now.auth.items }
        requires fresh { IsFresh self.old steps.old }
        ensures steps { LcpSteps rules.now (lcp_told rules.now input.entry now random.now) now random.now self.old (turn_of self.new steps.new) }
        ensures few { length steps.new.layer.outs.items ≤ 3 }
    {
        let was = self.lcp.is_opened();
        self.lcp
            .take_input(rules, input, now, random, &mut steps.layer);
        self.after_lcp(was, rules, now, random, steps);
    }

    /// The same, by a caller who knows the cause with which a live term ends.
    pub(crate) fn tell_lcp(
        &mut self,
        rules: &LinkRules,
        input: LcpInput<'_>,
        now: u64,
        random: &[u8; 16],
        steps: &mut Steps,
    ) -> Option<u8>
        requires moment { now < 2 ^ 60 }
        requires auth { 0 < length rules.now.auth.items }
        requires fresh { IsFresh self.old steps.old }
        ensures steps { LcpSteps rules.now (lcp_told rules.now input.entry now random.now) now random.now self.old (turn_of self.new steps.new) }
        ensures none { result ≡ None }
    {
        self.tell_lcp_alone(rules, input, now, random, steps);
        None
    }

    /// LCP does Close after what the step did so far.
    pub(crate) fn close(
        &mut self,
        rules: &LinkRules,
        now: u64,
        random: &[u8; 16],
        steps: &mut Steps,
    )
        requires moment { now < 2 ^ 60 }
        requires room { length steps.old.layer.outs.items ≤ 2 }
        ensures closes { LcpCloses rules.now now random.now (turn_of self.old steps.old) (turn_of self.new steps.new) }
        ensures few { length steps.new.layer.outs.items ≤ length steps.old.layer.outs.items + 2 }
    {
        steps.layer.opened = false;
        steps.layer.finished = false;
        let was = self.lcp.is_opened();
        let cause = self.lcp.plain_cause(0);
        self.lcp
            .follow(Event::Close, &cause, rules.echo, now, &mut steps.layer);
        self.after_lcp(was, rules, now, random, steps);
    }

    /// What LCP said is counted, and taken to the layers above. `was` says whether LCP was Opened before.
    pub(crate) fn after_lcp(
        &mut self,
        was: bool,
        rules: &LinkRules,
        now: u64,
        random: &[u8; 16],
        steps: &mut Steps,
    )
        requires moment { now < 2 ^ 60 }
        requires room { length steps.old.layer.outs.items ≤ 3 }
        ensures above { let leaves = was && not (opened_in self.old.lcp.lcp.state) in
            Above steps.old.layer.opened leaves rules.now now random.now
            (record (turn_of self.old steps.old) { left = steps.old.left || leaves; finished = steps.old.finished || steps.old.layer.finished })
            (turn_of self.new steps.new) }
        ensures few { length steps.new.layer.outs.items ≤ length steps.old.layer.outs.items + 1 }
    {
        let came = steps.layer.opened;
        let left = was && !self.lcp.is_opened();
        steps.left = steps.left || left;
        steps.finished = steps.finished || steps.layer.finished;
        self.above(came, left, rules, now, random, steps);
    }

    // What becomes of the layers above LCP, once it has come to Opened, has left it, or neither.
    fn above(
        &mut self,
        came: bool,
        left: bool,
        rules: &LinkRules,
        now: u64,
        random: &[u8; 16],
        steps: &mut Steps,
    )
        requires moment { now < 2 ^ 60 }
        requires room { length steps.old.layer.outs.items ≤ 3 }
        ensures above { Above came left rules.now now random.now (turn_of self.old steps.old) (turn_of self.new steps.new) }
        ensures few { length steps.new.layer.outs.items ≤ length steps.old.layer.outs.items + 1 }
    {
        if came {
            self.authenticate(rules.name.as_slice(), now, random, steps);
        } else if left {
            self.auth = Authentication::Idle;
            self.auth_due = None;
            self.tell_ipcp(Event::Down, now, steps);
        }
    }

    // The peer is to authenticate itself, as LCP agreed.
    fn authenticate(&mut self, name: &[u8], now: u64, random: &[u8; 16], steps: &mut Steps)
        requires moment { now < 2 ^ 60 }
        requires name { length name.now ≤ 64 }
        requires room { length steps.old.layer.outs.items ≤ 3 }
        ensures begins { turn_of self.new steps.new ≡ authenticates self.old.lcp.ask.wanted.auth name.now now random.now (turn_of self.old steps.old) }
        ensures few { length steps.new.layer.outs.items ≤ length steps.old.layer.outs.items + 1 }
    {
        match self.lcp.auth() {
            AuthKind::Pap => {
                self.auth = Authentication::Pap(Pap::new());
                self.auth_due = Some(now + PAP_WITHIN);
            }
            AuthKind::Chap => {
                let peer = Chap::ask(random, self.next_challenge);
                send_challenge(&peer, name, &mut steps.layer);
                self.auth = Authentication::Chap(peer, 1);
                self.auth_due = Some(now + CHALLENGE_AFTER);
                self.next_challenge = next_id(self.next_challenge);
            }
        }
    }

    /// One event of IPCP, whose actions answer no packet.
    pub(crate) fn tell_ipcp(&mut self, event: Event, now: u64, steps: &mut Steps)
        requires moment { now < 2 ^ 60 }
        requires room { length steps.old.layer.outs.items + most_of event ≤ 4 }
        ensures moves { IpcpMoves event (ipcp_plain self.old.ipcp.kept 0) now (turn_of self.old steps.old) (turn_of self.new steps.new) }
        ensures few { length steps.new.layer.outs.items ≤ length steps.old.layer.outs.items + most_of event }
    {
        steps.layer.opened = false;
        steps.layer.finished = false;
        self.ipcp.plainly(event, 0, now, &mut steps.layer);
        steps.opened = steps.opened || steps.layer.opened;
        steps.ended = steps.ended || steps.layer.finished;
    }
}
