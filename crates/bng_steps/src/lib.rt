//! What one entry does to the sessions, the terms and the tunnels of a shard, over any store of sessions.
//!
//! `hear` is a step of the protocol of `specs/Step.antt` (PPPoE discovery by RFC 2516, PPP by RFC 1661, the peer's authentication by
//! RFC 1334 and RFC 1994, forwarding by RFC 791, tunnels and calls by RFC 2661). An Access-Accept begins a term of a session, and the
//! term ends with the link, by a PADT, with its call, by its timeouts, by a Disconnect-Request (RFC 5176) or by an End; a CoA-Request
//! changes its profile and its timeouts.
//!
//! Contracts see a state (`specs/State.antt`), whatever store the sessions are in. Whether no two of them may have one address is
//! for the store to say (`Store`): the step itself is defined where two have.
#![tactic(auto)]

mod answering;
mod calls;
mod changes;
mod course;
mod cutting;
mod data;
mod destination;
mod discovery;
mod drive;
mod error;
mod frames;
mod host_uniq;
mod in_turn;
mod incoming;
mod interims;
mod item;
mod l2tp;
mod lapsing;
mod laws;
mod leaving;
mod limits;
mod live;
mod meters;
mod parting;
mod questions;
mod replies;
mod rules;
mod seat;
mod seeking;
mod sending;
mod served;
mod session;
mod standing;
mod store;
mod sums;
mod term;
mod term_rows;
mod terms;
mod timers;
mod tunnels;
mod verdicts;
mod way;
mod whose;
mod wish;
mod young;

pub use crate::changes::ChangeAnswer;
pub use crate::course::{
    interims_keep_their_interval, limits_are_told, meters_colour_what_is_offered,
    moments_are_of_packets, shards_stand, terms_know_of_no_later_packet, ticks_end_what_is_over,
    ticks_take_what_is_due,
};
pub use crate::data::hear_core;
pub use crate::destination::{Destination, destination_of};
pub use crate::error::ShardError;
pub use crate::incoming::Incoming;
pub use crate::interims::Reports;
pub use crate::item::hear;
pub use crate::laws::{
    interims_are_awaited, questions_are_heard, steps_meet_laws, terms_of_circuits_are_apart,
    yeses_are_granted,
};
pub use crate::questions::Handed;
pub use crate::rules::Rules;
pub use crate::seat::seat_of;
pub use crate::served::{Served, Survey};
pub use crate::session::Session;
pub use crate::store::Store;
pub use crate::sums::{Charged, Traffic, book, charged_as, tally};
pub use crate::term::{EndedTerm, LiveTerm, ReportedTerm};
pub use crate::term_rows::stop_from;
pub use crate::terms::Terms;
pub use crate::whose::Whose;
pub use crate::wish::{Wish, wish_for};
