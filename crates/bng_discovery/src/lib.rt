//! The discovery stage of PPPoE (RFC 2516 section 5): what a frame of a host is answered, and the frames that the gateway
//! sends. `answer` gives the answer of the first case of the table `table` that holds; `offer`, `confirm`, `refuse` and
//! `terminate` write the one spelling of PADO, PADS and PADT. No state is kept and no call takes memory: the AC-Cookie
//! says that a host was offered a session.
#![tactic(auto)]

mod answers;
mod cookie;
mod listing;
mod port;
mod reply;
mod request;
mod table;

pub use crate::answers::{Answer, ErrorTag};
pub use crate::port::PortRules;
pub use crate::reply::{confirm, offer, refuse, terminate};
pub use crate::table::answer;
