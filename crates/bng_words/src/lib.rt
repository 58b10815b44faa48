//! The words of the command line: the grammar of the program's commands, and what each says.
//!
//! [`read`] answers the command that the words are, or that they are none. The first word is the command. After it stand
//! one other word and the command's options, in any order, each option at most once, as `--x V` or as `--x=V`.
//!
//! Words that are no command are refused before `clap` is asked, so that this needs no memory, and so that nothing which
//! `clap` would take beyond the grammar reaches it. Which command the others are, and its values, numbers and defaults, are
//! read from the matches of `clap`.
#![tactic(auto)]

mod command;
mod command_name;
mod grammar;
pub mod law;
mod line;
mod matches;
mod number;
mod option;
mod piece;
mod place;
mod program;
mod word;

pub use crate::command::{Command, WordsError};
pub use crate::grammar::read;
