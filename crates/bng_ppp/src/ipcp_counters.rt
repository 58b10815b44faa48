//! What IPCP counts and keeps beside its automaton.
use crate::identifiers::Identifiers;
use bng_base::Ip4;

/// What IPCP keeps beside its automaton and the gateway's own side.
#[derive(Clone, Copy)]
pub struct IpcpKept {
    /// The Identifiers of the packets that the gateway originates.
    pub ids: Identifiers,
    /// How many Configure-Naks were sent since the last Configure-Ack.
    pub naks: u8,
    /// The address that the peer is to have.
    pub lease: Ip4,
}
