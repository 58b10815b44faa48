use bng_base::SessionNo;

/// A call of an access concentrator's tunnel (RFC 2661 section 7.4.1).
#[derive(Clone, Copy, PartialEq, Eq, Debug)]
pub struct LacCall {
    /// The session that is carried, whose number is the call's Assigned Session ID.
    pub session: SessionNo,
    /// The server's Assigned Session ID, where the call is up.
    pub peer: Option<u16>,
}
