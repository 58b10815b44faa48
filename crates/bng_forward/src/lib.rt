//! Forwarding of IPv4 packets between a circuit and the core, by RFC 791 section 3.1 and RFC 1812 section 5.3.1.
//! `frame_at` and `packet_from` read a datagram of an access port or of the core, and `carried` and `take_from_frame`
//! find the packet in a frame. Whoever keeps the sessions looks up the packet's circuit or destination; `up` and
//! `down` give the packet its fate by what was found, and where that is Forwarded make the packet that is to be sent and
//! take its tokens of the term's meter (RFC 2697). The tables of `specs/Fates.antt` have the fates, and the contracts say that exactly one holds. `put_in_frame`
//! makes a packet the frame of a circuit. No call takes memory.
#![tactic(auto)]

mod arrived;
mod forward;
mod framing;
mod packet;
mod view;

pub use crate::arrived::{Arrived, carried, frame_at, names_session, packet_from};
pub use crate::forward::{down, up};
pub use crate::framing::{put_in_frame, take_from_frame};
pub use crate::view::TermView;
