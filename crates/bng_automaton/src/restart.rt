//! What the actions of a cell do to the restart counter and the restart timer.
ghost use Rattle.std.specs.Prelude.{◌≡◌, fold};
ghost use Rattle.std.specs.List.{list_any};
ghost use Rattle.bng_automaton.specs.Counter.{is_str, counted as counted_by};
ghost use Rattle.bng_automaton.specs.Timer.{timer_runs as runs_in, starts_timer as is_start};

use crate::action::Action;
use crate::state::State;

/// Whether a Terminate-Request is sent.
pub fn sends_terminate(actions: &[Action]) -> bool
    ensures { result ≡ list_any is_str actions.now }
{
    actions.iter().any(|action| matches!(action, Action::Str))
}

/// Whether the restart timer is started.
pub fn starts_timer(actions: &[Action]) -> bool
    ensures { result ≡ list_any is_start actions.now }
{
    actions.iter().any(|action| matches!(action, Action::Zrc | Action::Scr | Action::Str))
}

/// Whether the restart timer runs in a state.
pub fn timer_runs(state: State) -> bool
    ensures { result ≡ runs_in state }
{
    match state {
        State::Initial | State::Starting | State::Closed | State::Stopped | State::Opened => false,
        State::Closing | State::Stopping | State::ReqSent | State::AckRcvd | State::AckSent => true,
    }
}

/// The restart counter after the actions, where Initialize-Restart-Count sets it to `restart`.
pub fn counted(counter: u8, restart: u8, actions: &[Action]) -> u8
    ensures { result ≡ fold (counted_by restart) counter actions.now }
{
    actions
        .iter()
        .fold(counter, |counter, action| match action {
            Action::Irc => restart,
            Action::Zrc => 0,
            Action::Scr | Action::Str => counter.saturating_sub(1),
            Action::Tlu | Action::Tld | Action::Tls | Action::Tlf => counter,
            Action::Sca | Action::Scn | Action::Sta | Action::Scj | Action::Ser => counter,
        })
}
