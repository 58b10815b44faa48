//! Scripted peers of the gateway in memory, behind the traits of the outside: subscribers over PPPoE (RFC 2516), two L2TP
//! access concentrators with their calls (RFC 2661), a RADIUS server (RFC 2865, RFC 2866), the other side of the core, and
//! an operator. [`PeerPlant`] gives what they say and takes what they hear, and [`PeerClock`] is their clock; both are made by
//! [`PeerPlant::open`], and stand on the wire crates for each octet that they read or write.
//!
//! The script: each subscriber logs in, exchanges packets with the core, and rests. Once all have, and each term had its
//! first interim record acknowledged, those with odd numbers end their links; once their Stops are acknowledged, the
//! operator says `stop`. What was not answered within 3,000 ms is sent again.
//!
//! No call takes memory but `open`, no call fails, and no call walks over the subscribers: those that have something to say
//! stand in queues, those that wait in one by their deadlines.
#![tactic(auto)]

mod asking;
mod auth;
mod call;
mod clock;
mod discovery;
mod error;
mod exchange;
mod ipcp;
mod lac;
mod law;
mod lcp;
mod operator;
mod packet;
mod peers;
mod plant;
mod queue;
mod script;
mod server;
mod subscriber;
mod timers;
mod tunnel_message;

pub use crate::clock::PeerClock;
pub use crate::error::PeerError;
pub use crate::law::never_fail;
pub use crate::plant::PeerPlant;
