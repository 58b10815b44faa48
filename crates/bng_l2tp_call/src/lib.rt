//! The calls of an L2TP network server, by RFC 2661 sections 4.1 to 4.4 and 6.6 to 6.14, and the table of section 7.4.2. A
//! [`Call`] takes the control messages of one session of a tunnel and answers the control messages that the tunnel is to send.
//! No call takes memory.
//!
//! What AVPs say is `bng_l2tp_wire`'s. `specs/Messages.antt` is the table of the messages that a call takes,
//! `specs/Refusals.antt` the list of the cases in which it is refused, and `specs/Spelling.antt` what the gateway sends.
//! `specs/Steps.antt` puts these together: a message does what `Hears` relates it to, and nothing else. The laws in
//! `specs/Sound.antt` hold of every step: a call that stands has a number and knows the peer's, each message goes to the peer's
//! session, and a call opens once and ends once.
#![tactic(auto)]

mod call;
mod judge;
mod phase;
mod refusal;
mod spelling;

pub use crate::call::Call;
pub use crate::phase::CallPhase;
pub use crate::refusal::{CallRefusal, administrative, code_of};
pub use crate::spelling::{cdn, icrp};
