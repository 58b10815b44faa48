use arrayvec::ArrayVec;
use bng_base::{Frame, Peer, SessionNo};

/// The two kinds of requests, each with identifiers of its own: Access-Requests and Accounting-Requests.
#[derive(Clone, Copy, PartialEq, Eq)]
pub enum Lane {
    Auth,
    Acct,
}

/// The number of an accounting record.
#[derive(Clone, Copy, PartialEq, Eq)]
pub struct RecordNo(pub u32);

/// What a request is for: the question of a session, or an accounting record.
#[derive(Clone, Copy, PartialEq, Eq)]
pub enum Owner {
    Ask { session: SessionNo, ask: u64 },
    Record(RecordNo),
}

/// The servers of both lanes, their shared secret, and how often an Access-Request is sent in all.
#[derive(Drop)]
pub struct RadiusRules {
    pub auth: Peer,
    pub acct: Peer,
    pub secret: ArrayVec<u8, 64>,
    pub tries: u8,
}

/// Why a client was not opened.
#[derive(Clone, Copy, Debug)]
pub enum ClientError {
    OutOfMemory,
}

/// What became of a request.
#[derive(Drop)]
pub enum Asked {
    /// It has this identifier, and this frame is to be sent.
    Sent { id: u8, frame: Frame },
    /// All identifiers of the lane are taken.
    Waiting,
}
