use bng_base::{Peer, TunnelNo, TunnelStep};

/// Who sent a control message, when it came, in milliseconds, and random octets for what it makes.
#[derive(Clone, Copy)]
pub struct Came {
    pub from: Peer,
    pub random: [u8; 16],
    pub moment: u64,
}

/// What became of a control message.
#[derive(Drop)]
pub enum MessageOutcome {
    /// No tunnel of its sender has the Tunnel ID.
    Unknown,
    /// Its Tunnel ID is 0, and it is no SCCRQ: it gets no answer.
    Ignored,
    /// A tunnel took it, or it asked for a tunnel. `number` is 0 where none was made.
    Step { number: TunnelNo, step: TunnelStep },
}

/// What a tunnel does by itself: its number, and its peer, to which the datagrams of the step go.
#[derive(Drop)]
pub struct TunnelOutcome {
    pub number: TunnelNo,
    pub peer: Peer,
    pub step: TunnelStep,
}
