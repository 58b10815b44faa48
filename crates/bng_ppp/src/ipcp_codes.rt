//! The codes of IPCP's packets (RFC 1332 section 2).
ghost use Rattle.std.specs.Prelude.{◌≡◌};
ghost use Rattle.bng_ppp_wire.specs.View.{packet_of};
ghost use Rattle.bng_ppp.specs.IpcpCodes.{ipcp_kind_of};

use crate::codes::{rejected, rejects_code};
use bng_automaton::Event;
use bng_ppp_wire::Packet;
use bng_ppp_wire::code::{
    CODE_REJECT, CONFIGURE_ACK, CONFIGURE_NAK, CONFIGURE_REJECT, CONFIGURE_REQUEST, TERMINATE_ACK,
    TERMINATE_REQUEST,
};

/// What a packet of IPCP is to the link.
#[derive(Clone, Copy)]
pub(crate) enum IpcpKind {
    /// A Configure-Request.
    Request,
    /// A Configure-Ack, Configure-Nak or Configure-Reject.
    Reply,
    /// A packet that is this event and nothing else.
    Plain(Event),
    /// A packet of an unknown code.
    Unknown,
}

/// What a packet of IPCP is to the link.
pub(crate) fn ipcp_kind_at(packet: &Packet<'_>) -> IpcpKind
    ensures { result ≡ ipcp_kind_of (packet_of packet.now) }
{
    match packet.code {
        CONFIGURE_REQUEST => IpcpKind::Request,
        CONFIGURE_ACK | CONFIGURE_NAK | CONFIGURE_REJECT => IpcpKind::Reply,
        TERMINATE_REQUEST => IpcpKind::Plain(Event::Rtr),
        TERMINATE_ACK => IpcpKind::Plain(Event::Rta),
        CODE_REJECT => IpcpKind::Plain(rejected(rejects_code(packet.body))),
        _ => IpcpKind::Unknown,
    }
}
