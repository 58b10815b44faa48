//! The accounting records at the RADIUS server (RFC 2866 sections 2 and 3). The spool of bng_acct forms records and keeps them,
//! and the client of bng_rad_client gives identifiers, signs, matches replies and says what is due; [`Billing`] ties the two: a
//! record is handed out as a request, its request is sent again until a reply acknowledges it, and then the record is open no
//! longer. A datagram that comes before the request was sent is no reply. The crate opens no socket and looks at no clock: the
//! moments, in milliseconds, and the datagrams come in as values. `open` takes all memory that it needs.
#![tactic(auto)]

mod billing;
mod laws;
mod rules;
mod withdrawing;

pub use crate::billing::Billing;
pub use crate::laws::{
    acknowledgements_answer_requests, acknowledgements_follow_requests,
    records_stay_out_until_acknowledged, records_wait_or_are_out, requests_say_their_records,
    stops_are_acknowledged,
};
pub use crate::rules::{BillingError, BillingRules};
