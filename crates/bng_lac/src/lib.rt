//! A tunnel of an L2TP access concentrator, by RFC 2661 sections 4.1 to 4.4, 5, 6, 7.2 and 7.4.1. A [`LacTunnel`] asks a
//! network server for a tunnel and, in it, for a call of each session that is carried there. It takes the server's control
//! messages and answers the datagrams that are to be sent; moments, in milliseconds, and random octets come in as values.
//! [`LacTunnel::new`] takes the memory for 1,022 calls, and no other call wants any.
//!
//! `specs/Messages.antt` is the table of the messages that a tunnel and a call take, `specs/Refusals.antt` the list of the
//! cases in which they are refused, and `specs/Spelling.antt` what the gateway sends. `specs/Steps.antt` puts these together: a
//! message is either a tunnel's or a call's, and a call's message does what `call_step` of `specs/CallSteps.antt` does to one
//! call. What AVPs say and how datagrams go out is `bng_l2tp_tunnel`'s. The laws in `specs/Sound.antt` hold of every step, as
//! `src/law.rt` says.
#![tactic(auto)]

mod call;
mod called;
mod calls;
mod error;
mod hearing;
mod judge;
mod law;
mod phase;
mod rules;
mod sending;
mod spelling;
mod outcome;
mod tunnel;

pub use crate::call::LacCall;
pub use crate::called::Called;
pub use crate::calls::CALLS_MOST;
pub use crate::error::LacError;
pub use crate::law::{
    a_call_is_up, a_message_is_answered, a_tunnel_is_sound, each_call_is_asked_for,
    one_call_a_message,
};
pub use crate::rules::LacRules;
pub use crate::tunnel::LacTunnel;
