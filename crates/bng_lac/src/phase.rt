/// How far a tunnel of an access concentrator has come (RFC 2661 section 7.2).
#[derive(Clone, Copy)]
pub enum LacPhase {
    /// It was never opened, or it was cleared.
    Idle,
    /// Its SCCRQ is sent, and no SCCRP was taken.
    WaitReply,
    /// An SCCRP was taken and an SCCCN sent.
    Established,
}
