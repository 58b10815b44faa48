//! The RADIUS client: which requests are out, what a datagram of a server answers, and when a request is sent again or
//! given up (RFC 2865 section 2.5, RFC 2866 section 2). It opens no socket and looks at no clock: the moments, in
//! milliseconds, and the datagrams come in as values. `open` takes all memory that it needs.
#![tactic(auto)]

mod asking;
mod client;
mod due;
mod pending;
mod replies;
mod requests;
mod rules;
mod sends;

pub use crate::client::Client;
pub use crate::due::{LastSend, DueRequest, INTERVAL, Longest, Sought};
pub use crate::pending::Pending;
pub use crate::replies::{IgnoredReply, Replied};
pub use crate::requests::Requests;
pub use crate::rules::{Asked, ClientError, Lane, Owner, RadiusRules, RecordNo};
