//! L2TP messages and their AVPs, by RFC 2661 sections 3.1 and 4.1 to 4.4. Each view borrows from the octets that it was read
//! from. `Control::read`, `Data::read` and `Avp::read` answer exactly what the grammars `IsControl`, `IsData` and `IsAvp` relate
//! to the octets; each `write` writes the one spelling. `is_control` tells which of the two messages octets are.
//!
//! What tunnels and calls have alike stands here too, at either end: `values` and `placed` say what the AVPs of a message say,
//! hidden ones among them, `judge` how it is judged by them, `spelling` and `result_code` how one is spelled, and `step` what
//! is answered. Which messages are taken, and which AVPs they must have, is told where they are heard. No call takes memory.
#![tactic(auto)]

mod avp;
mod control;
mod data;
pub mod judge;
pub mod kind;
mod listing;
pub mod message;
mod octets;
pub mod placed;
pub mod result_code;
pub mod secret;
pub mod spelling;
pub mod step;
pub mod values;
mod view;

pub use crate::octets::is_control;
pub use crate::view::{Avp, Control, Data};
pub use bng_base::{ReadError, Written};
