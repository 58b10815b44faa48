//! The gateway's top call, over the traits of the outside: `run` reads the words, serves, checks a configuration or
//! serves scripted subscribers, and answers the status that the program ends with. The headline is a clause of it.
#![tactic(auto)]

mod checking;
mod commands;
mod exercise;
mod laws;
mod saying;
mod serving;
mod texts;
mod top;

pub use crate::commands::run;
pub use crate::laws::{logins_are_granted, replies_are_of_questions};
pub use crate::texts::{Line, Unopened, Refusal, line_of, status};
