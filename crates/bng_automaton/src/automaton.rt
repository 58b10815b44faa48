//! The automaton: its state, its restart counter and its restart timer.
ghost use Rattle.std.specs.Prelude.{◌≡◌, ◌+◌, ◌^◌, ◌<◌, ◌≤◌, ◌↔◌, ℕ, List, IsTrue, IsSome, IsNone, IfSome, Some, None, option_map};
ghost use Rattle.bng_automaton.specs.declared.action.Action.{Action as Act};

use crate::action::{Action, Actions};
use crate::event::Event;
use crate::restart::{counted, sends_terminate, starts_timer, timer_runs};
use crate::state::State;
use crate::table::cell;
use std::marker::Model;

/// How long the restart timer runs, in milliseconds (RFC 1661 section 4.6).
pub const RESTART_TIMER: u64 = 3000;

/// The option negotiation automaton of one control protocol of one link (RFC 1661 section 4).
///
/// A contract sees its state, its restart counter, the moment at which its restart timer was started last where the
/// timer runs, and the three bounds that it was made with.
#[derive(Clone, Copy)]
pub struct Automaton {
    state: State,
    counter: u8,
    started: Option<u64>,
    max_configure: u8,
    max_terminate: u8,
    max_failure: u8,
}

impl Model for Automaton {
    ghost use Rattle.std.specs.Prelude.{◌≡◌, ◌^◌, ◌<◌, is_some};
    ghost use Rattle.std.specs.Option.{ForSome};
    ghost use Rattle.bng_automaton.specs.Machine.{Machine};
    ghost use Rattle.bng_automaton.specs.Timer.{timer_runs};

    ghost Value = { Machine };

    ghost view = { λ a. record {
      state = a.state;
      counter = a.counter;
      started = a.started;
      max_configure = a.max_configure;
      max_terminate = a.max_terminate;
      max_failure = a.max_failure;
    } };

    ghost invariant = { λ a. (is_some a.started ≡ timer_runs a.state) × ForSome a.started (λ t. t < 2 ^ 60) };

    ghost inverse = { λ m. record {
      state = m.state;
      counter = m.counter;
      started = m.started;
      max_configure = m.max_configure;
      max_terminate = m.max_terminate;
      max_failure = m.max_failure;
    } };
}

impl Automaton {
    ghost use Rattle.bng_automaton.specs.Machine.{Machine};
    ghost use Rattle.bng_automaton.specs.Counter.{counter_after};
    ghost use Rattle.bng_automaton.specs.Timer.{timer_runs, started_after, TimerIsOut};
    ghost use Rattle.bng_automaton.specs.Steps.{Steps};

    /// An automaton in Initial with its restart counter at 0.
    ///
    /// `max_configure` and `max_terminate` are Max-Configure and Max-Terminate: how often a Configure-Request and a
    /// Terminate-Request goes out without an answer (RFC 1661 section 4.6). `max_failure` is Max-Failure: how many
    /// Configure-Naks may go out without a Configure-Ack between. The automaton cannot tell a Configure-Nak from a
    /// Configure-Reject, so it counts none; it keeps the bound for the protocol that judges requests.
    pub fn new(max_configure: u8, max_terminate: u8, max_failure: u8) -> Automaton
        ensures { result ≡ record {
          state = State.Initial;
          counter = 0;
          started = None;
          max_configure = max_configure;
          max_terminate = max_terminate;
          max_failure = max_failure;
        } }
    {
        Automaton {
            state: State::Initial,
            counter: 0,
            started: None,
            max_configure,
            max_terminate,
            max_failure,
        }
    }

    /// Takes an event at a moment in milliseconds, below 2^60, and answers what is to be done, in order.
    ///
    /// Every event is taken in every state. One that should not come in a state does nothing there (a dash of the
    /// table of RFC 1661 section 4.1).
    pub fn step(&mut self, event: Event, now: u64) -> Actions
        requires { now < 2 ^ 60 }
        ensures steps { Steps self.old event now result.items self.new }
        ensures only { (actions : List Act) (other : Machine) → Steps self.old event now actions other
            → (actions ≡ result.items) × (other ≡ self.new) }
        ensures runs { IsSome self.new.started ↔ IsTrue (timer_runs self.new.state) }
    {
        let (actions, next) = cell(self.state, event);
        self.counter = self.counter_after(actions);
        self.started = self.started_after(actions, next, now);
        self.state = next;
        let Ok(actions) = Actions::try_from(actions) else {
            unreachable!();
        };
        actions
    }

    /// The event of the restart timer at a moment in milliseconds: TO+ or TO- by the restart counter where the timer
    /// runs and has run [`RESTART_TIMER`], and none else.
    pub fn due(&self, now: u64) -> Option<Event>
        ensures plus { (result ≡ Some Event.ToPlus) ↔ (TimerIsOut self.now now × (0 < self.now.counter)) }
        ensures minus { (result ≡ Some Event.ToMinus) ↔ (TimerIsOut self.now now × (self.now.counter ≡ 0)) }
        ensures none { IsNone result ↔ ¬ (TimerIsOut self.now now) }
    {
        let started = self.started?;
        if now < started + RESTART_TIMER {
            None
        } else if self.counter > 0 {
            Some(Event::ToPlus)
        } else {
            Some(Event::ToMinus)
        }
    }

    /// The first moment, in milliseconds, at which [`Automaton::due`] answers an event; none where the timer does not
    /// run.
    pub fn deadline(&self) -> Option<u64>
        ensures runs { IsSome result ↔ IsTrue (timer_runs self.now.state) }
        ensures moment { result ≡ option_map (λ t. t + RESTART_TIMER) self.now.started }
        ensures first { IfSome result (λ end. (moment : ℕ) → (end ≤ moment) ↔ TimerIsOut self.now moment) }
    {
        let started = self.started?;
        Some(started + RESTART_TIMER)
    }

    /// The state that the automaton is in.
    pub fn state(&self) -> State
        ensures { result ≡ self.now.state }
    {
        self.state
    }

    /// Max-Failure, for the protocol that judges requests: after so many Configure-Naks without a Configure-Ack
    /// between it rejects what it would have naked.
    pub fn max_failure(&self) -> u8
        ensures { result ≡ self.now.max_failure }
    {
        self.max_failure
    }

    // The restart counter after the actions of a cell.
    fn counter_after(&self, actions: &[Action]) -> u8
        ensures { result ≡ counter_after self.now actions.now }
    {
        let restart = if sends_terminate(actions) {
            self.max_terminate
        } else {
            self.max_configure
        };
        counted(self.counter, restart, actions)
    }

    // When the restart timer was started last, after the actions of a cell that lead to a state.
    fn started_after(&self, actions: &[Action], next: State, now: u64) -> Option<u64>
        ensures { result ≡ started_after self.now actions.now next now }
    {
        if !timer_runs(next) {
            None
        } else if starts_timer(actions) {
            Some(now)
        } else {
            self.started
        }
    }
}
