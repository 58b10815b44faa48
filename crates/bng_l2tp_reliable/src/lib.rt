//! The reliable control channel of an L2TP tunnel, by RFC 2661 section 5.8: messages are numbered, at most a window of
//! them is in flight, each goes out again until it is acknowledged or given up, and each is delivered once and in order.
//! A HELLO is asked for where no message comes (section 5.5). A [`Channel`] sends nothing and looks at no clock: what goes
//! out is answered as a value, and moments, in milliseconds, come in as values. No call takes memory.
//!
//! Each call of [`Channel`] is one step of the definitions in `specs/`. [`delivers_in_order`] is the law over them: over
//! two ends and whatever the network loses, repeats or reorders, what was delivered is the beginning of what was sent.
#![tactic(auto)]

mod answers;
mod channel;
mod law;
mod message;
mod number;
mod outgoing;
mod ring;
mod sent;

pub use crate::answers::{Due, Heard, Queued};
pub use crate::channel::{Channel, HELLO_AFTER};
pub use crate::law::{delivers_in_order, goes_on, numbers_tell_the_order};
pub use crate::message::{MESSAGE_MOST, Message};
pub use crate::outgoing::Outgoing;
pub use crate::ring::{IN_FLIGHT_MOST, WAITING_MOST};
pub use crate::sent::{Sent, WAITS};
