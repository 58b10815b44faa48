//! RADIUS servers in order: a request goes to the first server of its lane, and where that does not answer, to the next
//! (RFC 2865 section 2.5, RFC 2866 section 2). A [`Failover`] knows which requests are in hand, at which server and under which
//! identifier of it, what a datagram answers, and what is sent again, handed on or given up. Each request is in hand at one
//! server until it is answered, times out or is withdrawn, and so it is answered at most once. The crate opens no socket and
//! looks at no clock: the moments, in milliseconds, and the datagrams come in as values. `open` takes all memory that it needs.
#![tactic(auto)]

mod asking;
mod due;
mod failover;
mod laws;
mod peers;
mod place;
mod replies;
mod rules;
mod server;
mod servers;

pub use crate::failover::Failover;
pub use crate::laws::{
    all_sends_say_what_was_asked, each_is_answered_once, each_send_says_the_same,
    each_server_is_sent_its_tries, replies_have_their_codes,
};
pub use crate::peers::ServerPeers;
pub use crate::rules::{DueSend, FailAsked, FailoverRules};
