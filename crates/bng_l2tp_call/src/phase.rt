/// How far a call has come (RFC 2661 section 7.4.2).
#[derive(Clone, Copy)]
pub enum CallPhase {
    /// It has taken no message.
    Idle,
    /// An ICRQ was taken and an ICRP sent.
    WaitConnect,
    /// An ICCN was taken.
    Established,
    /// It has ended, or none was made.
    Ended,
}
