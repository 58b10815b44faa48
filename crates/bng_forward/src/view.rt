use bng_base::Ip4;
use bng_meter::Meter;

/// What forwarding looks at of a live term.
#[derive(Clone, Copy)]
pub struct TermView {
    /// The address of the subscriber.
    pub lease: Ip4,
    /// Packets may pass: LCP and IPCP are Opened. A circuit that was provisioned has no LCP, and counts as Opened.
    pub opened: bool,
    /// So many octets the longest packet towards the subscriber has: the MRU that it asked for (RFC 1661 section 6.1).
    pub mru: u16,
    /// The meter of the packets from the subscriber. None is unmetered.
    pub input: Option<Meter>,
    /// The meter of the packets towards the subscriber. None is unmetered.
    pub output: Option<Meter>,
}
