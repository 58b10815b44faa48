//! The tunnels of an L2TP network server, by RFC 2661 sections 4.1 to 4.4, 5 and 6, and the table of section 7.2.1. A [`Tunnel`]
//! takes the control messages of one peer and answers the datagrams that are to be sent; moments, in milliseconds, and random
//! octets come in as values. No call takes memory.
//!
//! What AVPs say is `bng_l2tp_wire`'s. `specs/Messages.antt` is the table of the messages that a tunnel takes,
//! `specs/Refusals.antt` the list of the cases in which it is refused, and `specs/Spelling.antt` what the gateway sends.
//! `specs/Steps.antt` puts these together: each call of [`Tunnel`] is a step of that file. The laws in `specs/Sound.antt` hold
//! of every step: each datagram is a control message to the peer's tunnel and acknowledges all that was delivered, what is heard
//! is acknowledged, and nothing that the window lets out is held back. A call's message is handed over to whoever keeps the
//! calls, and is to be acknowledged by what its call answers, or by a ZLB.
#![tactic(auto)]

mod acknowledging;
mod hearing;
mod judge;
mod outs;
mod phase;
mod refusal;
mod rules;
mod spelling;
mod tunnel;

pub use crate::acknowledging::Acknowledging;
pub use crate::hearing::is_zlb;
pub use crate::judge::{
    VERSION, challenge_response, has_answer, has_other_version, is_asked_in_vain, is_of_call,
};
pub use crate::outs::{datagram, let_out, outs_of, resent, zlb};
pub use crate::phase::TunnelPhase;
pub use crate::refusal::{TunnelRefusal, code_of, shut_down};
pub use crate::rules::TunnelRules;
pub use crate::spelling::{
    BOTH_FRAMINGS, OWN_WINDOW, hello, push_challenge, push_response, response_to, stop_ccn,
};
pub use crate::tunnel::Tunnel;
