//! Authentication of a peer by PAP (RFC 1334 section 2) or CHAP with MD5 (RFC 1994).
//!
//! [`Pap`] and [`Chap`] take the peer's packets and say when a question is to be asked of who knows the passwords: one
//! question, and after the verdict one reply, which is repeated as often as the peer asks again. They check no
//! password and look at no clock. No call takes memory.
#![tactic(auto)]

mod chap;
mod credentials;
mod pap;
mod reply;
mod step;

pub use crate::chap::Chap;
pub use crate::credentials::{Credentials, NAME_MOST, PASSWORD_MOST, Proof};
pub use crate::pap::Pap;
pub use crate::reply::{Reply, TEXT_MOST};
pub use crate::step::AuthStep;
