//! Changes of sessions by a RADIUS server: CoA-Requests and Disconnect-Requests, and their replies (RFC 5176). A [`CoaDesk`]
//! admits requests and writes replies: a request that is repeated within 30 s gets the reply that it got, and one that is
//! in hand is not taken twice. [`first_refusal`] names the first fault of a request's packet, [`lead_of`] says where the term is that it
//! names, [`names`] whether a term is one that it names, and [`wanted_by`] what it changes. The crate opens no socket and looks
//! at no clock: datagrams and moments come in as values. `open` takes all memory that it needs.
#![tactic(auto)]

mod admission;
mod attributes;
mod desk;
mod freshness;
mod law;
mod lead;
mod naming;
mod reading;
mod refusal;
mod reply;
mod request;
mod requests;
mod rules;
mod wanted;

pub use crate::desk::CoaDesk;
pub use crate::law::{requests_are_apart, requests_stand_in_order, requests_stay_in_hand};
pub use crate::lead::{Lead, lead_of};
pub use crate::naming::{Identity, names};
pub use crate::reading::request_in;
pub use crate::refusal::first_refusal;
pub use crate::request::{KEPT, RequestKey, ChangeRequest, RequestStage};
pub use crate::requests::{MOST, ChangeRequests};
pub use crate::rules::{Admitted, ChangeVerdict, CoaError, CoaRules, IgnoredRequest};
pub use crate::wanted::{Wanted, wanted_by};
