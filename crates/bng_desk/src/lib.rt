//! The desk: the one thread that takes what came to the gateway, lets it be handled in the shards, sends what that calls for, and keeps the
//! sums. A turn reads Control, then the server of accounting, then requests for changes, then the RADIUS server, then the end for tunnels,
//! then the access ports in their order, then the core. What it took are the items of a round; the shards handle them; the settlement sends
//! what the shards have to send, charges what was sent, forms the records of the terms that ended, sends the requests to the servers and
//! tells the trace. The contract of `Desk::turn` says the whole of it over what the outside tells.
#![tactic(auto)]

mod accounts;
mod acknowledgements;
mod allowing;
mod answers;
mod calls;
mod coa;
mod control;
mod copying;
mod desk;
mod drops;
mod due;
mod ends;
mod flags;
mod gathering;
mod holding;
mod intake;
mod interims;
mod laws;
mod line;
mod lists;
mod opening;
mod random;
mod reading;
mod records;
mod replies;
mod report;
mod requests;
mod round;
mod settlement;
mod starts;
mod stats;
mod stops;
mod sums;
mod turns;
mod unanswered;

pub use crate::desk::{Desk, DeskError, DeskState, Turned};
pub use crate::drops::{CAUSES, Drops};
pub use crate::laws::rounds_are_traced;
pub use crate::line::CircuitLine;
pub use crate::reading::ReadEnd;
pub use crate::sums::Sums;
