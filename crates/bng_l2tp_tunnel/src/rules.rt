use arrayvec::ArrayVec;

/// What a tunnel is to know of the gateway and of its peer.
#[derive(Drop)]
pub struct TunnelRules {
    /// The gateway's Host Name (RFC 2661 section 4.4.3).
    pub name: ArrayVec<u8, 64>,
    /// The secret that is shared with the peer, if any: for Challenges and hidden AVPs.
    pub secret: Option<ArrayVec<u8, 64>>,
    /// The peer's address is that of a configured access concentrator.
    pub known: bool,
}
