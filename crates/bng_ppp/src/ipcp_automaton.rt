//! The events and actions of IPCP's automaton (RFC 1332 section 2).
ghost use Rattle.std.specs.Prelude.{◌≡◌, ◌+◌, ◌<◌, ◌≤◌, length, ◌^◌};
ghost use Rattle.bng_ppp.specs.IpcpAutomaton.{ipcp_why, ipcp_plain, IpcpFollows, all_ipcp_acted, ipcp_acted, ipcp_terminated};
ghost use Rattle.bng_ppp.specs.Said.{said};
ghost use Rattle.bng_ppp.specs.Automaton.{AnswerFits};
ghost use Rattle.bng_ppp.specs.Room.{most_of, sends};
ghost use Rattle.std.specs.List.{sum_by};

use crate::encapsulation::{send_bare, send_some};
use crate::identifiers::{ending, next_id};
use crate::ipcp::Ipcp;
use crate::lcp_outcome::LcpOutcome;
use bng_automaton::{Action, Event};
use bng_ppp_wire::code::{TERMINATE_ACK, TERMINATE_REQUEST};
use bng_ppp_wire::{Packet, protocol};

/// What the actions of an event of IPCP send and keep.
#[derive(Clone, Copy)]
pub(crate) struct IpcpCause<'a> {
    /// The restart timer is the cause.
    pub timed: bool,
    /// The Identifier of a Terminate-Ack.
    pub id: u8,
    /// A Configure-Ack, -Nak or -Reject, or a Code-Reject.
    pub answer: Option<Packet<'a>>,
    /// How many Configure-Naks have gone out without a Configure-Ack between, once the peer's Configure-Request is answered.
    pub naks: u8,
}

impl Ipcp {
    // What an event without an answer causes.
    fn plain_cause(&self, id: u8) -> IpcpCause<'static>
        ensures why { ipcp_why result ≡ ipcp_plain self.now.kept id }
        ensures answer { AnswerFits result.answer }
    {
        IpcpCause {
            timed: false,
            id,
            answer: None,
            naks: self.kept.naks,
        }
    }

    /// An event whose actions answer a packet at most by a Terminate-Ack.
    pub(crate) fn plainly(&mut self, event: Event, id: u8, now: u64, steps: &mut LcpOutcome)
        requires moment { now < 2 ^ 60 }
        requires room { length steps.old.outs.items + most_of event ≤ 4 }
        ensures few { length steps.new.outs.items ≤ length steps.old.outs.items + most_of event }
        ensures follows { IpcpFollows event (ipcp_plain self.old.kept id) now (record { ipcp = self.old; said = said steps.old }) (record { ipcp = self.new; said = said steps.new }) }
    {
        let cause = self.plain_cause(id);
        self.follow(event, &cause, now, steps);
    }

    /// One event and its actions, after what the step did before.
    pub(crate) fn follow(
        &mut self,
        event: Event,
        cause: &IpcpCause<'_>,
        now: u64,
        steps: &mut LcpOutcome,
    )
        requires moment { now < 2 ^ 60 }
        requires answer { AnswerFits cause.now.answer }
        requires room { length steps.old.outs.items + most_of event ≤ 4 }
        ensures few { length steps.new.outs.items ≤ length steps.old.outs.items + most_of event }
        ensures follows { IpcpFollows event (ipcp_why cause.now) now (record { ipcp = self.old; said = said steps.old }) (record { ipcp = self.new; said = said steps.new }) }
    {
        let actions = self.machine.step(event, now);
        self.perform(actions.as_slice(), cause, steps);
    }

    // Does the actions of a cell in their order.
    fn perform(&mut self, actions: &[Action], cause: &IpcpCause<'_>, steps: &mut LcpOutcome)
        requires answer { AnswerFits cause.now.answer }
        requires room { length steps.old.outs.items + sum_by sends actions.now ≤ 4 }
        ensures few { length steps.new.outs.items ≤ length steps.old.outs.items + sum_by sends actions.now }
        ensures after { self.new ≡ (all_ipcp_acted (ipcp_why cause.now) (record { ipcp = self.old; said = said steps.old }) actions.now).ipcp }
        ensures said { said steps.new ≡ (all_ipcp_acted (ipcp_why cause.now) (record { ipcp = self.old; said = said steps.old }) actions.now).said }
    {
        for action in actions {
            self.act(*action, cause, steps);
        }
    }

    // Does one action.
    fn act(&mut self, action: Action, cause: &IpcpCause<'_>, steps: &mut LcpOutcome)
        requires answer { AnswerFits cause.now.answer }
        requires room { length steps.old.outs.items + sends action ≤ 4 }
        ensures few { length steps.new.outs.items ≤ length steps.old.outs.items + sends action }
        ensures after { self.new ≡ (ipcp_acted (ipcp_why cause.now) (record { ipcp = self.old; said = said steps.old }) action).ipcp }
        ensures said { said steps.new ≡ (ipcp_acted (ipcp_why cause.now) (record { ipcp = self.old; said = said steps.old }) action).said }
    {
        match action {
            Action::Tlu => {
                steps.opened = true;
            }
            Action::Tlf => {
                steps.finished = true;
            }
            Action::Tld | Action::Tls | Action::Irc | Action::Zrc => {}
            Action::Scr => self.configure(cause, steps),
            Action::Sca | Action::Scn => {
                self.kept.naks = cause.naks;
                send_some(protocol::IPCP, &cause.answer, steps);
            }
            Action::Str => self.terminate(cause, steps),
            Action::Sta => send_bare(protocol::IPCP, TERMINATE_ACK, cause.id, steps),
            Action::Scj => {
                self.kept.ids.next = next_id(self.kept.ids.next);
                send_some(protocol::IPCP, &cause.answer, steps);
            }
            Action::Ser => send_some(protocol::IPCP, &cause.answer, steps),
        }
    }

    // Sends a Terminate-Request.
    fn terminate(&mut self, cause: &IpcpCause<'_>, steps: &mut LcpOutcome)
        requires room { length steps.old.outs.items < 4 }
        ensures few { length steps.new.outs.items ≤ length steps.old.outs.items + 1 }
        ensures after { self.new ≡ (ipcp_terminated (ipcp_why cause.now) (record { ipcp = self.old; said = said steps.old })).ipcp }
        ensures said { said steps.new ≡ (ipcp_terminated (ipcp_why cause.now) (record { ipcp = self.old; said = said steps.old })).said }
    {
        self.kept.ids = ending(self.kept.ids, cause.timed);
        send_bare(
            protocol::IPCP,
            TERMINATE_REQUEST,
            self.kept.ids.terminate,
            steps,
        );
    }
}
