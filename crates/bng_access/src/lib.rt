//! Access-Requests (RFC 2865 section 4.1): the question whether a peer is who it says it is, as the RADIUS server is
//! asked it.
//!
//! [`write`] writes the request of a question, which is still to be numbered and signed. A password is hidden (RFC 2865
//! section 5.2); a Response of CHAP goes with its Challenge (sections 5.3 and 5.40). No call takes memory.
#![tactic(auto)]

mod password;
mod request;
mod rules;

pub use crate::request::write;
pub use crate::rules::NasRules;
