//! What an Access-Accept gives its peer: its profile, its address or the pool of it, its timeouts, how often it is
//! accounted for, and what is told accounting again (RFC 2865 sections 5.8, 5.11, 5.25, 5.27 and 5.28, RFC 2869 sections
//! 5.16 and 5.18). [`grant_of`] answers exactly what the relation `IsGrant` says of the octets of a packet, and octets have
//! one grant. Whether a packet is an Access-Accept, and whose, is for the caller to know: the crate opens no socket, checks
//! no digest and looks at no code. No call takes memory.
#![tactic(auto)]

mod class;
mod grant;
mod law;
mod numbers;
mod texts;

pub use crate::grant::{Grant, grant_of};
pub use crate::law::grants_are_one;
