use arrayvec::ArrayVec;
use bng_base::{Frame, Ip4};

/// Who may ask for changes, and the secret that is shared with them, of 1 to 64 octets.
#[derive(Drop)]
pub struct CoaRules {
    pub peers: ArrayVec<Ip4, 16>,
    pub secret: ArrayVec<u8, 64>,
}

/// Why a desk was not opened.
#[derive(Clone, Copy, Debug)]
pub enum CoaError {
    OutOfMemory,
}

/// What became of a request: it was applied, or it was refused with this Error-Cause (RFC 5176 section 3.5).
#[derive(Clone, Copy, PartialEq, Eq, Debug)]
pub enum ChangeVerdict {
    Applied,
    Refused(u16),
}

/// Why a datagram is passed over: its sender is no peer; it is no CoA-Request or Disconnect-Request, or has more than 64
/// attributes; a digest is wrong; or its Event-Timestamp is more than 300 s away.
#[derive(Clone, Copy, PartialEq, Eq)]
pub enum IgnoredRequest {
    Stranger,
    Malformed,
    WrongDigest,
    Stale,
}

/// What a datagram is.
#[derive(Drop)]
pub enum Admitted {
    /// A request, in hand under this number from now on.
    New(u32),
    /// A request that was answered: its reply, which is to be sent again.
    Repeat(Frame),
    /// A request that is in hand.
    InHand,
    Ignored(IgnoredRequest),
}
