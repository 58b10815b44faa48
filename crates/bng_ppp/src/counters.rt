//! What a link counts and keeps (RFC 1661 section 4.6).
ghost use Rattle.std.specs.Prelude.{◌≡◌};
ghost use Rattle.bng_ppp.specs.Counters.{more_naks as one_more};

use crate::identifiers::Identifiers;

/// So many Configure-Naks go out without a Configure-Ack between (Max-Failure, RFC 1661 section 4.6).
pub const NAKS_MOST: u8 = 5;

/// So many Echo-Requests in a row stay unanswered before the link is lost.
pub const ECHOES_UNANSWERED_MOST: u8 = 3;

/// What a link keeps beside its automaton and its own side of LCP.
#[derive(Clone, Copy)]
pub struct Kept {
    /// The largest Maximum-Receive-Unit that is taken, in octets.
    pub limit: u16,
    /// The Identifiers of the packets that the gateway originates.
    pub ids: Identifiers,
    /// The peer's Maximum-Receive-Unit, in octets.
    pub mru: u16,
    /// How many Configure-Naks were sent since the last Configure-Ack.
    pub naks: u8,
    /// LCP was Opened once.
    pub was_opened: bool,
    /// How many Echo-Requests in a row are unanswered.
    pub unanswered: u8,
    /// When the next Echo-Request is due, in milliseconds, where one is.
    pub next_echo: Option<u64>,
}

/// One more Configure-Nak.
pub(crate) fn more_naks(naks: u8) -> u8
    ensures { result ≡ one_more naks }
{
    if naks < NAKS_MOST { naks + 1 } else { naks }
}
