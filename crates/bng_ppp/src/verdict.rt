//! The verdict on a peer.
ghost use Rattle.std.specs.Prelude.{◌≡◌, ◌<◌, ◌≤◌, ◌^◌, None, length, ◌+◌};
ghost use Rattle.bng_ppp.specs.Verdict.{Settles, Accepts, Refuses, Begins, BeginsFor};
ghost use Rattle.bng_ppp.specs.LinkState.{is_open as open_in};
ghost use Rattle.bng_ppp.specs.LinkStep.{turn_of, IsFresh};

use crate::authentication::send_reply;
use crate::link::Link;
use crate::rules::LinkRules;
use crate::steps::Steps;
use bng_automaton::Event;
use bng_base::Ip4;

impl Link {
    /// The peer is accepted: the reply goes out, and a term begins where there is a lease.
    pub(crate) fn accept(
        &mut self,
        rules: &LinkRules,
        lease: Option<Ip4>,
        text: &[u8],
        now: u64,
        steps: &mut Steps,
    )
        requires moment { now < 2 ^ 60 }
        requires text { length text.now ≤ 253 }
        requires fresh { IsFresh self.old steps.old }
        ensures { Accepts rules.now lease text.now now self.old (turn_of self.new steps.new) }
    {
        let reply = self.auth.settle(true, text);
        self.auth_due = None;
        send_reply(&reply, &mut steps.layer);
        self.begin_for(rules, lease, now, steps);
    }

    // The term of an accepted peer begins where it has an address.
    fn begin_for(&mut self, rules: &LinkRules, lease: Option<Ip4>, now: u64, steps: &mut Steps)
        requires moment { now < 2 ^ 60 }
        requires room { length steps.old.layer.outs.items ≤ 1 }
        ensures { BeginsFor lease rules.now now (turn_of self.old steps.old) (turn_of self.new steps.new) }
    {
        if let Some(lease) = lease {
            self.begin_term(rules, lease, now, steps);
        }
    }

    // A term begins: IPCP does Open and Up for this lease.
    fn begin_term(&mut self, rules: &LinkRules, lease: Ip4, now: u64, steps: &mut Steps)
        requires moment { now < 2 ^ 60 }
        requires room { length steps.old.layer.outs.items ≤ 1 }
        ensures { Begins rules.now lease now (turn_of self.old steps.old) (turn_of self.new steps.new) }
    {
        self.live = true;
        self.ipcp.begin(rules.address, lease);
        self.tell_ipcp(Event::Open, now, steps);
        self.tell_ipcp(Event::Up, now, steps);
    }

    /// A refusal: the reply goes out, and LCP does Close.
    pub(crate) fn refuse(
        &mut self,
        rules: &LinkRules,
        text: &[u8],
        now: u64,
        random: &[u8; 16],
        steps: &mut Steps,
    )
        requires moment { now < 2 ^ 60 }
        requires text { length text.now ≤ 253 }
        requires room { length steps.old.layer.outs.items ≤ 1 }
        ensures refuses { Refuses rules.now now random.now text.now (turn_of self.old steps.old) (turn_of self.new steps.new) }
        ensures few { length steps.new.layer.outs.items ≤ length steps.old.layer.outs.items + 3 }
    {
        let reply = self.auth.settle(false, text);
        self.auth_due = None;
        send_reply(&reply, &mut steps.layer);
        self.close(rules, now, random, steps);
    }
}
