//! Whether a peer is who it says: the questions that a session asks of a RADIUS server, and what the server's reply to one says
//! (RFC 2865 sections 4.2 to 4.4, 5.6 and 5.18). [`verdict_of`] answers exactly what the relation `IsVerdict` says of the
//! octets of a reply: a yes comes of an Access-Accept alone, and each list of octets has one verdict. The crate opens no
//! socket and checks no digest: the reply comes in as octets. No call takes memory.
#![tactic(auto)]

mod attributes;
mod law;
mod question;
mod verdict;

pub use crate::law::{verdicts_are_one, yes_is_an_accept};
pub use crate::question::{AuthAsk, QuestionNo};
pub use crate::verdict::{AccessVerdict, verdict_of};
