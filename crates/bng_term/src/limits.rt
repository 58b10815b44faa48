//! What a term is granted.

/// The limits of a term, in seconds. A timeout of 0 is none.
#[derive(Clone, Copy)]
pub struct Limits {
    /// Session-Timeout (RFC 2865 section 5.27): how long the term lasts at most.
    pub session_timeout: u32,
    /// Idle-Timeout (RFC 2865 section 5.28): how long the term lasts at most with no packet.
    pub idle_timeout: u32,
    /// Acct-Interim-Interval (RFC 2869 section 5.16): how far apart Interims are, at least 60; with None there
    /// are none.
    pub interim: Option<u32>,
}
