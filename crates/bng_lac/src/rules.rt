use arrayvec::ArrayVec;

/// What a tunnel of an access concentrator is to know of the gateway and of the network server.
#[derive(Drop)]
pub struct LacRules {
    /// The gateway's Host Name (RFC 2661 section 4.4.3).
    pub name: ArrayVec<u8, 64>,
    /// The secret that is shared with the server, if any: for Challenges and hidden AVPs.
    pub secret: Option<ArrayVec<u8, 64>>,
}
