use crate::peers::ServerPeers;
use arrayvec::ArrayVec;
use bng_base::Peer;
use bng_rad_client::{Lane, Owner};

/// The servers of both lanes in their order, the secret that is shared with each of them, and how often a request is sent to a
/// server before it goes to the next.
#[derive(Drop)]
pub struct FailoverRules {
    pub auth: ServerPeers,
    pub acct: ServerPeers,
    pub secret: ArrayVec<u8, 64>,
    pub tries: u8,
}

/// What became of a request.
#[derive(Clone, Copy, PartialEq, Eq)]
pub enum FailAsked {
    /// It is in hand, and is to be sent to this server.
    Send(Peer),
    /// 256 requests of the lane are in hand.
    Waiting,
}

/// What is due for a request in hand: its octets are to be sent to this server, or it has timed out and is in hand no longer.
#[derive(Clone, Copy, PartialEq, Eq)]
pub enum DueSend {
    Send(Lane, Peer),
    TimedOut(Owner),
}
