//! PPPoE frames and the tags of discovery frames as octets, by RFC 2516. Each view borrows from the octets that it was
//! read from. `Pppoe::read` answers exactly what the grammar `IsPppoe` relates to the octets, and `tags` the tags of a
//! discovery frame that it read; `write` and `write_tags` write the one spelling. No call takes memory.
#![tactic(auto)]

pub mod code;
mod frame;
mod front;
pub mod kind;
mod layout;
mod listing;
mod scan;
mod view;

pub use crate::listing::{tags, write_tags};
pub use crate::view::{Pppoe, Tag};
pub use bng_base::{ReadError, Written};
