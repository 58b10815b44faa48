//! The Link Control Protocol's options, by RFC 1661 sections 5 and 6.
//!
//! [`judge`] says how a peer's Configure-Request is answered. [`LcpAsk`] is the gateway's own side: it writes its
//! Configure-Request and takes the replies to it. When a packet is sent, and what state the link is in, is the
//! automaton's matter. No call takes memory.
#![tactic(auto)]

mod ask;
mod authentication_protocol;
mod configure_reply;
mod configure_request;
mod judgement;
mod magic_number;
mod maximum_receive_unit;
pub mod option;

pub use crate::ask::LcpAsk;
pub use crate::configure_reply::Taken;
pub use crate::configure_request::{LcpOptions, SentLcpRequest};
pub use crate::judgement::{LcpRules, judge};
pub use bng_ppp_wire::{Class, Judged, MadeOpt};
