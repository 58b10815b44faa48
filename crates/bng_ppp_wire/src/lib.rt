//! PPP frames, the packets of its control protocols and their options as octets, by RFC 1661 sections 2, 5 and 6. Each
//! view borrows from the octets that it was read from. `Ppp::read`, `Packet::read` and `options` answer exactly what the
//! grammar relates to the octets; `write` and `write_options` write the one spelling.
//!
//! Option negotiation, which the control protocols have alike: `judge` says how a peer's Configure-Request is answered by
//! a table of the options that a protocol negotiates, and `read_reply` what a packet is to a Configure-Request that was
//! sent. No call takes memory.
#![tactic(auto)]

pub mod code;
mod configure_reply;
mod frame;
mod judgement;
mod listing;
mod made_option;
mod option_table;
mod packet;
pub mod protocol;
mod view;

pub use crate::configure_reply::{ConfigureReply, read_reply};
pub use crate::judgement::{Class, Judged, judge};
pub use crate::listing::{names, options, write_options};
pub use crate::made_option::{MadeOpt, made, put_made};
pub use crate::option_table::{Good, OptionRow, Width};
pub use crate::view::{Opt, Packet, Ppp};
pub use bng_base::{ReadError, Written};
