//! One shard of the gateway: its sessions, the provisioned circuits among them, and the L2TP tunnels of its numbers with their calls, in a
//! store with indexes, stepped one item at a time. `Shard::wish` says what an item asks of the pools of addresses; `step_with` takes the
//! answer, has `bng_steps` do the step, and appends one entry to the journal of the round. `step` is both, with the table of addresses
//! between them. A shard keeps the tally of what passed, the books of the profiles and the allowance of new terms; `take_ended` hands out
//! the terms that ended, and `reap` gives their addresses back too. `whose_is` says which shard an item is for, by who holds an address.
//! A shard is one word, and its fields stand in memory of their own. `open` and `prepare` alone take memory.
#![tactic(auto)]

mod body;
mod claim;
mod holder;
mod indexed;
mod reporting;
mod rooms;
mod shard;
mod showing;

pub use crate::holder::whose_is;
pub use crate::shard::Shard;
