//! The timers of a whole link.
ghost use Rattle.bng_ppp.specs.declared.rules.LcpInput.TheVariants as input;
ghost use Rattle.std.specs.Prelude.{◌≡◌, ◌<◌, ◌^◌, ℕ, length, ◌≤◌, ◌↔◌, IsTrue, ◌+◌};
ghost use Rattle.bng_ppp.specs.LinkTimers.{LinkReminds, IsLossCause, AboveReminds, AuthIsDue, AuthReminds};
ghost use Rattle.bng_ppp.specs.LinkRelation.{ended_by};
ghost use Rattle.bng_ppp.specs.Layers.{LcpSteps, lcp_told, IpcpMoves};
ghost use Rattle.bng_ppp.specs.LinkStep.{turn_of, IsFresh};
ghost use Rattle.bng_ppp.specs.IpcpAutomaton.{ipcp_by_timer};
ghost use Rattle.bng_ppp.specs.Room.{most_of};

use crate::authentication::{Authentication, send_challenge};
use crate::ipcp_automaton::IpcpCause;
use crate::link::Link;
use crate::rules::LinkRules;
use crate::steps::{Steps, cause_of};
use bng_automaton::Event;

/// After so many milliseconds a Challenge that was not answered goes out again.
pub(crate) const CHALLENGE_AFTER: u64 = 3000;

/// A Challenge goes out so many times in all.
const CHALLENGES_MOST: u8 = 10;

impl Link {
    /// Does what the timers ask for, and answers the cause with which that ended a live term.
    pub(crate) fn remind_counted(
        &mut self,
        rules: &LinkRules,
        now: u64,
        random: &[u8; 16],
        steps: &mut Steps,
    ) -> Option<u8>
        requires moment { now < 2 ^ 60 }
        requires auth { 0 < length rules.now.auth.items }
        requires fresh { IsFresh self.old steps.old }
        ensures reminds { LinkReminds rules.now now random.now self.old (turn_of self.new steps.new) }
        ensures cause { (n : ℕ) × IsLossCause self.old now n × (result ≡ ended_by self.new.live steps.new.left steps.new.ended n) }
    {
        let cause = self.loss_cause(now);
        self.remind(rules, now, random, steps);
        cause_of(self.live, steps.left, steps.ended, cause)
    }

    // The cause with which a live term ends where the Echo-Requests stay unanswered.
    fn loss_cause(&self, now: u64) -> u8
        ensures { IsLossCause self.now now result }
    {
        match self.ipcp.machine.due(now) {
            Some(Event::ToMinus) => 1,
            _ => 2,
        }
    }

    // LCP's timers count first, and then those above it.
    fn remind(&mut self, rules: &LinkRules, now: u64, random: &[u8; 16], steps: &mut Steps)
        requires moment { now < 2 ^ 60 }
        requires auth { 0 < length rules.now.auth.items }
        requires fresh { IsFresh self.old steps.old }
        ensures { LinkReminds rules.now now random.now self.old (turn_of self.new steps.new) }
    {
        self.tell_lcp_timer(rules, now, random, steps);
        self.remind_above(rules, now, random, steps);
    }

    // The timers above LCP: authentication's, else IPCP's restart timer.
    fn remind_above(&mut self, rules: &LinkRules, now: u64, random: &[u8; 16], steps: &mut Steps)
        requires moment { now < 2 ^ 60 }
        requires room { length steps.old.layer.outs.items ≤ 2 }
        ensures { AboveReminds rules.now now random.now (turn_of self.old steps.old) (turn_of self.new steps.new) }
    {
        if self.auth_is_due(now) {
            self.remind_auth(rules, now, random, steps);
        } else if let Some(event) = self.ipcp.machine.due(now) {
            self.remind_ipcp(event, now, steps);
        }
    }

    // Whether authentication's timer has run out.
    fn auth_is_due(&self, now: u64) -> bool
        ensures { IsTrue result ↔ AuthIsDue self.now now }
    {
        match self.auth_due {
            Some(moment) => moment <= now,
            None => false,
        }
    }

    // The Challenge goes out again, or LCP does Close.
    fn remind_auth(&mut self, rules: &LinkRules, now: u64, random: &[u8; 16], steps: &mut Steps)
        requires moment { now < 2 ^ 60 }
        requires due { AuthIsDue self.old now }
        requires room { length steps.old.layer.outs.items ≤ 2 }
        ensures { AuthReminds self.old.auth rules.now now random.now (turn_of self.old steps.old) (turn_of self.new steps.new) }
    {
        self.auth_due = None;
        if let Authentication::Chap(peer, sent) = &mut self.auth {
            if *sent < CHALLENGES_MOST {
                send_challenge(peer, rules.name.as_slice(), &mut steps.layer);
                *sent += 1;
                self.auth_due = Some(now + CHALLENGE_AFTER);
                return;
            }
        }
        self.close(rules, now, random, steps);
    }

    // LCP's timers, and what they are to the layers above.
    fn tell_lcp_timer(&mut self, rules: &LinkRules, now: u64, random: &[u8; 16], steps: &mut Steps)
        requires moment { now < 2 ^ 60 }
        requires fresh { IsFresh self.old steps.old }
        ensures steps { LcpSteps rules.now (lcp_told rules.now input.Timer now random.now) now random.now self.old (turn_of self.new steps.new) }
        ensures few { length steps.new.layer.outs.items ≤ 2 }
    {
        let was = self.lcp.is_opened();
        self.lcp.remind(rules.echo, now, &mut steps.layer);
        self.after_lcp(was, rules, now, random, steps);
    }

    // IPCP's restart timer.
    fn remind_ipcp(&mut self, event: Event, now: u64, steps: &mut Steps)
        requires moment { now < 2 ^ 60 }
        requires room { length steps.old.layer.outs.items + most_of event ≤ 4 }
        ensures { IpcpMoves event (ipcp_by_timer self.old.ipcp.kept) now (turn_of self.old steps.old) (turn_of self.new steps.new) }
    {
        steps.layer.opened = false;
        steps.layer.finished = false;
        let cause = IpcpCause {
            timed: true,
            id: 0,
            answer: None,
            naks: self.ipcp.kept.naks,
        };
        self.ipcp.follow(event, &cause, now, &mut steps.layer);
        steps.opened = steps.opened || steps.layer.opened;
        steps.ended = steps.ended || steps.layer.finished;
    }
}
