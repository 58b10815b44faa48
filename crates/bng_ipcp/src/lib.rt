//! The Internet Protocol Control Protocol's options, by RFC 1332 section 3 and RFC 1877 section 1.
//!
//! [`judge`] says how a peer's Configure-Request is answered. [`IpcpAsk`] is the gateway's own side: it writes its
//! Configure-Request and takes the replies to it. Packets and replies are those of RFC 1661 section 5. No call takes
//! memory.
#![tactic(auto)]

mod ask;
mod configure_reply;
mod configure_request;
mod judgement;
pub mod option;

pub use crate::ask::IpcpAsk;
pub use crate::configure_reply::Taken;
pub use crate::configure_request::{IpcpOptions, SentIpcpRequest};
pub use crate::judgement::{IpcpRules, judge};
pub use bng_ppp_wire::{Class, Judged, MadeOpt};
