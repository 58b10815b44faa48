/// Why a PADR gets no session: a tag of RFC 2516 appendix A.
#[derive(Clone, Copy, PartialEq, Eq, Debug)]
pub enum ErrorTag {
    /// The service is not offered.
    ServiceNameError,
    /// There is no room for one session more.
    AcSystemError,
}

/// What a discovery frame of a host is answered (RFC 2516 section 5).
#[derive(Clone, Copy, PartialEq, Eq, Debug)]
pub enum Answer {
    /// A PADO.
    Offer,
    /// A session is made, and its PADS sent.
    Make,
    /// The PADS of the session that was made for the same request before.
    Again,
    /// A PADS with SESSION_ID 0 and this error.
    Refuse(ErrorTag),
    /// The session has ended.
    Ended,
    /// There is no such session.
    NoSession,
    /// Nothing.
    Ignore,
}
