//! A shard's sessions: a finite map from session number to value, with its indexes.
//!
//! `put` and `insert` give a number a value, `get` lends it, and `remove`
//! takes it out; a value is changed by `remove` and `put`. Each other call is a function of the map: which session has a circuit,
//! an address or a term, which deadline is the earliest, which number is the lowest that is not used, and how many are.
//!
//! Contracts see the shard's number and the map by session number (`bng_sessions`).
//!
//! `open` takes the memory for 1,022 slots and their index entries, and no other call wants any. No call walks over the slots.
#![tactic(auto)]

mod full;
mod index;
mod key;
mod shelf;
mod slots;
mod vacancy;

pub use crate::full::{Full, SlotError};
pub use crate::slots::Slots;
