//! The sessions of a shard as a finite map from session number to value, and what a store of them may be found by.
//!
//! A session number is the PPPoE SESSION_ID (RFC 2516), the local L2TP session ID (RFC 2661) and the NAS-Port (RFC 2865): 1,024
//! times the shard's number, and an index of 1 to 1,022. Whoever keeps a shard's sessions, with indexes or as a plain list, says of
//! each call what it did to this map. The laws say how the list of values changes with the map, so that a caller keeps sums and
//! counts over its sessions by what each call adds or takes away.
#![tactic(auto)]

mod laws;
mod slotted;

pub use crate::laws::{lists_change_by_one, numbers_keep_their_values};
pub use crate::slotted::Slotted;
