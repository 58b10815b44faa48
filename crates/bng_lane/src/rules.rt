use arrayvec::ArrayVec;
use bng_access::NasRules;
use bng_base::Peer;

/// What a lane is opened with: what its requests say of the gateway, the server and the secret that it shares, and how
/// often a request is sent in all.
#[derive(Drop)]
pub struct LaneRules {
    pub nas: NasRules,
    pub server: Peer,
    pub secret: ArrayVec<u8, 64>,
    pub tries: u8,
}

/// Why a lane was not opened.
#[derive(Clone, Copy, Debug)]
pub enum LaneError {
    OutOfMemory,
}
