//! VLAN trunks (IEEE 802.1Q): a plant over another one, on which access ports are VLANs of trunks. A frame that a trunk took goes,
//! without its tags, to the port whose tags it carries, in the order in which it came; what is sent for a port goes out on its
//! trunk with exactly its tags. No call but `open` takes memory.
#![tactic(auto)]

mod backlog;
mod ending;
mod laws;
mod map;
mod queue;
mod tag;
mod tagging;
mod telling;
mod trunk_plant;
mod vlan_plant;

pub use crate::laws::{each_frame_is_given_once, what_is_written_is_read};
pub use crate::map::{VlanEntry, VlanError, VlanMap};
pub use crate::tag::Tags;
pub use crate::telling::Telling;
pub use crate::trunk_plant::TrunkPlant;
pub use crate::vlan_plant::VlanPlant;
