//! One PPP link, by RFC 1661: it has no clock, no socket and takes no memory.
//!
//! [`Link::step`] takes an input and a moment in milliseconds and writes the frames that are to be sent, and what came
//! of the input: a question who the peer is, that data may pass, the end of a term, the end of the link. It joins LCP to the
//! peer's authentication by PAP (RFC 1334) or CHAP (RFC 1994), and that to IPCP (RFC 1332). Its contract is a relation
//! between the link before, the input, what is told and the link after, with one outcome.
//!
//! [`LcpLink`] is LCP alone, of which the whole link is made: the automaton of RFC 1661 section 4 joined to the options of LCP
//! (section 6), and what no packet has: identifiers, the peer's Maximum-Receive-Unit, the Configure-Naks in a row and the
//! unanswered Echo-Requests. While LCP is Opened it passes frames of authentication, IPCP and IPv4 over.
#![tactic(auto)]

mod authentication;
mod automaton;
mod code_reject;
mod codes;
mod configure_reply;
mod configure_request;
mod counters;
mod echo;
mod encapsulation;
mod frame;
mod identifiers;
mod input;
mod ipcp;
mod ipcp_automaton;
mod ipcp_codes;
mod ipcp_configure_request;
mod ipcp_counters;
mod ipcp_packet;
mod judgement;
mod laws;
mod layers;
mod lcp_link;
mod lcp_outcome;
mod link;
mod link_frame;
mod link_timers;
mod lower_layer;
mod maximum_receive_unit;
mod protocol_reject;
mod rules;
mod steps;
mod terminate;
mod timers;
mod verdict;

pub use crate::authentication::Authentication;
pub use crate::counters::{ECHOES_UNANSWERED_MOST, Kept, NAKS_MOST};
pub use crate::identifiers::Identifiers;
pub use crate::input::Input;
pub use crate::ipcp_counters::IpcpKept;
pub use crate::laws::{
    finished_links_are_down, frames_read_back, lcp_frames_read_back, lcp_has_one_outcome,
    link_frames_read_back, link_has_one_outcome, phases_tell, questions_open_by_asking,
    questions_stand_in_frames, steps_keep_phases, terms_last, yes_needs_a_verdict,
};
pub use crate::lcp_link::LcpLink;
pub use crate::lcp_outcome::LcpOutcome;
pub use crate::link::Link;
pub use crate::rules::{LcpInput, LinkKind, LinkRules};
pub use crate::steps::Steps;
