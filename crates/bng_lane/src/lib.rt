//! The lane of Access-Requests: the questions that are out at the RADIUS server (RFC 2865 sections 2 and 2.5). The client of
//! bng_rad_client gives identifiers, signs, matches replies and says what is due; a [`Questions`] knows beside that whose question
//! a request is, and which requests were sent at all: a datagram that comes before its request was sent is no reply. The crate
//! opens no socket and looks at no clock: the moments, in milliseconds, and the datagrams come in as values. `open` takes all
//! memory that it needs.
#![tactic(auto)]

mod questions;
mod laws;
mod rules;

pub use crate::questions::Questions;
pub use crate::laws::{pending_stays, replies_answer_requests, requests_say_their_questions};
pub use crate::rules::{LaneError, LaneRules};
