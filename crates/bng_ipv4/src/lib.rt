//! IPv4 packets as octets, by RFC 791 section 3.1: what a header says, the one spelling of a header, and what
//! forwarding does to a packet. `read` answers exactly the values that the grammar `IsIpv4` relates to the octets;
//! `write` writes the one spelling; `lower_ttl` lowers the TTL and computes the header checksum again. No call takes
//! memory.
#![tactic(auto)]

mod checksum;
mod grammar;
mod lowering;
mod spelling;

pub use crate::grammar::read;
pub use crate::lowering::lower_ttl;
pub use crate::spelling::write;
pub use bng_base::{Ipv4, ReadError, Written};
