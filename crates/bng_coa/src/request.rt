ghost use Rattle.std.specs.Prelude.{◌≡◌};
ghost use Rattle.bng_coa.specs.Requests.{is_same, is_in_hand, is_answered, is_numbered, is_held, is_standing};

use bng_base::{Octets, Peer};

/// A reply is kept for so many milliseconds from the moment at which its request was admitted.
pub const KEPT: u64 = 30_000;

/// What makes two requests equal: the sender, and the header of the packet (RFC 5176 section 2.3).
#[derive(Clone, Copy)]
pub struct RequestKey {
    pub from: Peer,
    pub code: u8,
    pub id: u8,
    pub authenticator: [u8; 16],
}

/// How far a request is: it is in hand under a number, or it is answered.
#[derive(Drop)]
pub enum RequestStage {
    /// `packet` has its octets, without what pads it.
    InHand { number: u32, packet: Octets },
    Answered { reply: Octets },
}

/// A request that was admitted at a moment, in milliseconds.
#[derive(Drop)]
pub struct ChangeRequest {
    pub key: RequestKey,
    pub admitted_at: u64,
    pub stage: RequestStage,
}

impl RequestKey {
    pub fn is_same(&self, other: &RequestKey) -> bool
        ensures { result ≡ is_same self.now other.now }
    {
        self.from.ip.0 == other.from.ip.0
            && self.from.port == other.from.port
            && self.code == other.code
            && self.id == other.id
            && self.authenticator.as_slice() == other.authenticator.as_slice()
    }
}

impl ChangeRequest {
    pub fn is_in_hand(&self) -> bool
        ensures { result ≡ is_in_hand self.now }
    {
        match &self.stage {
            RequestStage::InHand { .. } => true,
            RequestStage::Answered { .. } => false,
        }
    }

    pub fn is_answered(&self) -> bool
        ensures { result ≡ is_answered self.now }
    {
        match &self.stage {
            RequestStage::InHand { .. } => false,
            RequestStage::Answered { .. } => true,
        }
    }

    /// Whether it is in hand under this number.
    pub fn is_numbered(&self, number: u32) -> bool
        ensures { result ≡ is_numbered number self.now }
    {
        match &self.stage {
            RequestStage::InHand { number: own, .. } => *own == number,
            RequestStage::Answered { .. } => false,
        }
    }

    /// Whether it is in hand or its reply is kept at this moment.
    pub fn is_held(&self, now: u64) -> bool
        ensures { result ≡ is_held now self.now }
    {
        match &self.stage {
            RequestStage::InHand { .. } => true,
            RequestStage::Answered { .. } => now.saturating_sub(self.admitted_at) < KEPT,
        }
    }

    /// Whether it is held and equal.
    pub fn is_standing(&self, now: u64, key: &RequestKey) -> bool
        ensures { result ≡ is_standing now key.now self.now }
    {
        self.is_held(now) && self.key.is_same(key)
    }
}
