//! The codes of LCP's packets (RFC 1661 section 5).
ghost use Rattle.std.specs.Prelude.{◌≡◌, nat_lt, length, if◌then◌else◌};
ghost use Rattle.bng_ppp_wire.specs.View.{packet_of};
ghost use Rattle.bng_ppp.specs.Codes.{kind_of, rejects_code as does_reject_code, rejects_lcp as does_reject_lcp};

use bng_automaton::Event;
use bng_ppp_wire::code::{
    CODE_REJECT, CONFIGURE_ACK, CONFIGURE_NAK, CONFIGURE_REJECT, CONFIGURE_REQUEST,
    DISCARD_REQUEST, ECHO_REPLY, ECHO_REQUEST, PROTOCOL_REJECT, TERMINATE_ACK, TERMINATE_REQUEST,
};
use bng_ppp_wire::{Packet, protocol};

/// What a packet of LCP is to the link.
#[derive(Clone, Copy)]
pub(crate) enum Kind {
    /// A Configure-Request.
    Request,
    /// A Configure-Ack, Configure-Nak or Configure-Reject.
    Reply,
    /// A packet that is this event and nothing else.
    Plain(Event),
    /// An Echo-Request with a magic number.
    Echo,
    /// An Echo-Request without one.
    Mute,
    /// An Echo-Reply.
    EchoReply,
    /// A packet of an unknown code.
    Unknown,
}

/// What a packet is to the link.
pub(crate) fn kind_at(packet: &Packet<'_>) -> Kind
    ensures { result ≡ kind_of (packet_of packet.now) }
{
    match packet.code {
        CONFIGURE_REQUEST => Kind::Request,
        CONFIGURE_ACK | CONFIGURE_NAK | CONFIGURE_REJECT => Kind::Reply,
        TERMINATE_REQUEST => Kind::Plain(Event::Rtr),
        TERMINATE_ACK => Kind::Plain(Event::Rta),
        CODE_REJECT => Kind::Plain(rejected(rejects_code(packet.body))),
        PROTOCOL_REJECT => Kind::Plain(rejected(rejects_lcp(packet.body))),
        ECHO_REQUEST => echo(packet.body),
        ECHO_REPLY => Kind::EchoReply,
        DISCARD_REQUEST => Kind::Plain(Event::Rxr),
        _ => Kind::Unknown,
    }
}

// An Echo-Request with this body.
fn echo(body: &[u8]) -> Kind
    ensures { result ≡ (if nat_lt (length body.now) 4 then Kind.Mute else Kind.Echo) }
{
    if body.len() < 4 {
        Kind::Mute
    } else {
        Kind::Echo
    }
}

// The event of a reject that the link cannot do without, or can.
pub(crate) fn rejected(catastrophic: bool) -> Event
    ensures { result ≡ (if catastrophic then Event.RxjMinus else Event.RxjPlus) }
{
    if catastrophic {
        Event::RxjMinus
    } else {
        Event::RxjPlus
    }
}

// Whether a Code-Reject has a packet of a code that the link needs.
pub(crate) fn rejects_code(body: &[u8]) -> bool
    ensures { result ≡ does_reject_code body.now }
{
    match body {
        [code, ..] => CONFIGURE_REQUEST <= *code && *code <= CODE_REJECT,
        [] => false,
    }
}

// Whether a Protocol-Reject has LCP itself.
fn rejects_lcp(body: &[u8]) -> bool
    ensures { result ≡ does_reject_lcp body.now }
{
    match body {
        [high, low, ..] => u16::from_be_bytes([*high, *low]) == protocol::LCP,
        _ => false,
    }
}
