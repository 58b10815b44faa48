//! The option negotiation automaton of a PPP control protocol, by RFC 1661 section 4.
//!
//! One automaton serves LCP and one serves IPCP. It sends nothing and looks at no clock: it is told an event and the
//! moment, in milliseconds, and answers what is to be done. [`Automaton::step`] is the transition table of section 4.1
//! with the restart counter and the restart timer of sections 4.4 and 4.6; [`Automaton::due`] and
//! [`Automaton::deadline`] are the timer. Its notes r (restart), p (passive) and x (crossed connection) have no effect
//! here.
#![tactic(auto)]

mod action;
mod automaton;
mod event;
mod restart;
mod state;
mod table;

pub use crate::action::{Action, Actions};
pub use crate::automaton::{Automaton, RESTART_TIMER};
pub use crate::event::Event;
pub use crate::state::State;
