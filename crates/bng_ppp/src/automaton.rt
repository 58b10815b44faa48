//! The events and actions of LCP's automaton (RFC 1661 sections 4.3 and 4.4).
ghost use Rattle.std.specs.Prelude.{◌≡◌, ◌<◌, ◌^◌, ◌≤◌, length, ◌+◌};
ghost use Rattle.bng_ppp.specs.Automaton.{kept_up, all_acted, acted, why, plain, AnswerFits, answering, Moves, Follows};
ghost use Rattle.bng_ppp.specs.Said.{said, quiet as says_nothing};
ghost use Rattle.bng_ppp.specs.Room.{most_of, sends};
ghost use Rattle.bng_ppp_wire.specs.View.{packet_of};
ghost use Rattle.std.specs.List.{sum_by};

use crate::counters::Kept;
use crate::echo::echo_at;
use crate::encapsulation::{send_bare, send_some};
use crate::identifiers::next_id;
use crate::lcp_link::LcpLink;
use crate::lcp_outcome::LcpOutcome;
use bng_automaton::{Action, Event};
use bng_ppp_wire::code::TERMINATE_ACK;
use bng_ppp_wire::{Packet, protocol};

/// What the actions of an event send and keep.
#[derive(Clone, Copy)]
pub(crate) struct Cause<'a> {
    /// The restart timer is the cause.
    pub timed: bool,
    /// The Identifier of a Terminate-Ack.
    pub id: u8,
    /// A Configure-Ack, -Nak or -Reject, a Code-Reject or an Echo-Reply.
    pub answer: Option<Packet<'a>>,
    /// The peer's Maximum-Receive-Unit once its Configure-Request is answered, in octets.
    pub mru: u16,
    /// How many Configure-Naks have gone out without a Configure-Ack between, once its Configure-Request is answered.
    pub naks: u8,
}

// What is kept once LCP is Opened.
fn up(kept: Kept, echo: u16, now: u64) -> Kept
    requires { now < 2 ^ 60 }
    ensures { result ≡ kept_up echo now kept }
{
    Kept {
        was_opened: true,
        unanswered: 0,
        next_echo: echo_at(echo, now),
        ..kept
    }
}

impl LcpLink {
    // What an event without an answer causes.
    pub(crate) fn plain_cause(&self, id: u8) -> Cause<'static>
        ensures why { why result ≡ plain self.now.kept id }
        ensures answer { AnswerFits result.answer }
        ensures mru { result.mru ≤ 1500 }
    {
        Cause {
            timed: false,
            id,
            answer: None,
            mru: self.kept.mru,
            naks: self.kept.naks,
        }
    }

    // An event whose actions answer a packet at most by a Terminate-Ack.
    pub(crate) fn plainly(
        &mut self,
        event: Event,
        id: u8,
        echo: u16,
        now: u64,
        steps: &mut LcpOutcome,
    )
        requires moment { now < 2 ^ 60 }
        requires quiet { said steps.old ≡ says_nothing }
        ensures moves { Moves event (plain self.old.kept id) echo now self.old (said steps.new) self.new }
        ensures few { length steps.new.outs.items ≤ most_of event }
    {
        let cause = self.plain_cause(id);
        self.react(event, &cause, echo, now, steps)
    }

    // An event whose actions answer a packet by another one.
    pub(crate) fn reply_by(
        &mut self,
        event: Event,
        id: u8,
        answer: &Packet<'_>,
        echo: u16,
        now: u64,
        steps: &mut LcpOutcome,
    )
        requires moment { now < 2 ^ 60 }
        requires fits { length answer.now.body.now ≤ 4090 }
        requires quiet { said steps.old ≡ says_nothing }
        ensures moves { Moves event (answering self.old.kept id (packet_of answer.now)) echo now self.old (said steps.new) self.new }
        ensures few { length steps.new.outs.items ≤ most_of event }
    {
        let cause = Cause {
            timed: false,
            id,
            answer: Some(*answer),
            mru: self.kept.mru,
            naks: self.kept.naks,
        };
        self.react(event, &cause, echo, now, steps)
    }

    // An event alone.
    pub(crate) fn react(
        &mut self,
        event: Event,
        cause: &Cause<'_>,
        echo: u16,
        now: u64,
        steps: &mut LcpOutcome,
    )
        requires moment { now < 2 ^ 60 }
        requires answer { AnswerFits cause.now.answer }
        requires mru { cause.now.mru ≤ 1500 }
        requires quiet { said steps.old ≡ says_nothing }
        ensures moves { Moves event (why cause.now) echo now self.old (said steps.new) self.new }
        ensures few { length steps.new.outs.items ≤ most_of event }
    {
        self.follow(event, cause, echo, now, steps);
    }

    // One event and its actions, after what the step did before.
    pub(crate) fn follow(
        &mut self,
        event: Event,
        cause: &Cause<'_>,
        echo: u16,
        now: u64,
        steps: &mut LcpOutcome,
    )
        requires moment { now < 2 ^ 60 }
        requires answer { AnswerFits cause.now.answer }
        requires mru { cause.now.mru ≤ 1500 }
        requires room { length steps.old.outs.items + most_of event ≤ 4 }
        ensures few { length steps.new.outs.items ≤ length steps.old.outs.items + most_of event }
        ensures follows { Follows event (why cause.now) echo now (record { link = self.old; said = said steps.old }) (record { link = self.new; said = said steps.new }) }
    {
        let actions = self.lcp.step(event, now);
        self.perform(actions.as_slice(), cause, echo, now, steps);
    }

    // Does the actions of a cell in their order.
    fn perform(
        &mut self,
        actions: &[Action],
        cause: &Cause<'_>,
        echo: u16,
        now: u64,
        steps: &mut LcpOutcome,
    )
        requires moment { now < 2 ^ 60 }
        requires answer { AnswerFits cause.now.answer }
        requires mru { cause.now.mru ≤ 1500 }
        requires room { length steps.old.outs.items + sum_by sends actions.now ≤ 4 }
        ensures few { length steps.new.outs.items ≤ length steps.old.outs.items + sum_by sends actions.now }
        ensures after { self.new ≡ (all_acted (why cause.now) echo now (record { link = self.old; said = said steps.old }) actions.now).link }
        ensures said { said steps.new ≡ (all_acted (why cause.now) echo now (record { link = self.old; said = said steps.old }) actions.now).said }
    {
        for action in actions {
            self.act(*action, cause, echo, now, steps);
        }
    }

    // Does one action.
    fn act(
        &mut self,
        action: Action,
        cause: &Cause<'_>,
        echo: u16,
        now: u64,
        steps: &mut LcpOutcome,
    )
        requires moment { now < 2 ^ 60 }
        requires answer { AnswerFits cause.now.answer }
        requires mru { cause.now.mru ≤ 1500 }
        requires room { length steps.old.outs.items + sends action ≤ 4 }
        ensures few { length steps.new.outs.items ≤ length steps.old.outs.items + sends action }
        ensures after { self.new ≡ (acted (why cause.now) echo now (record { link = self.old; said = said steps.old }) action).link }
        ensures said { said steps.new ≡ (acted (why cause.now) echo now (record { link = self.old; said = said steps.old }) action).said }
    {
        match action {
            Action::Tlu => {
                self.kept = up(self.kept, echo, now);
                steps.opened = true;
            }
            Action::Tld => {
                self.kept.next_echo = None;
            }
            Action::Tlf => {
                steps.finished = true;
            }
            Action::Tls | Action::Irc | Action::Zrc => {}
            Action::Scr => self.configure(cause, steps),
            Action::Sca | Action::Scn => {
                self.kept.mru = cause.mru;
                self.kept.naks = cause.naks;
                send_some(protocol::LCP, &cause.answer, steps);
            }
            Action::Str => self.terminate(cause, steps),
            Action::Sta => send_bare(protocol::LCP, TERMINATE_ACK, cause.id, steps),
            Action::Scj => {
                self.kept.ids.next = next_id(self.kept.ids.next);
                send_some(protocol::LCP, &cause.answer, steps);
            }
            Action::Ser => send_some(protocol::LCP, &cause.answer, steps),
        }
    }
}
