/// How far a tunnel has come (RFC 2661 section 7.2).
#[derive(Clone, Copy)]
pub enum TunnelPhase {
    /// It has taken no message.
    Idle,
    /// An SCCRQ was taken and an SCCRP sent.
    Replied,
    /// An SCCCN was taken.
    Established,
    /// It was cleared, or none was made.
    Cleared,
}
