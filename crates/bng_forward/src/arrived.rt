ghost use Rattle.std.specs.Prelude.{◌≡◌, ℕ, List, true, false, IfSome, IfNone};
ghost use Rattle.bng_base.specs.declared.ipv4.Ipv4.{Ipv4 as Header};
ghost use Rattle.bng_base.specs.declared.settings.AccessPort.{AccessPort as Port};
ghost use Rattle.bng_base.specs.PppoeGrammar.{PppoeFrame};
ghost use Rattle.bng_pppoe_wire.specs.View.{frame_of};
ghost use Rattle.bng_forward.specs.Fates.{IsPort, IsCallToAll, IsFor, CameTo, IsFrame, NamesSession, Carries, IsCorePacket};
ghost use Rattle.bng_forward.specs.Arrived.{as_arrival};

use bng_base::{AccessPort, Ipv4, Peer};
use bng_ipv4::read;
use bng_ppp_wire::{Ppp, protocol};
use bng_pppoe_wire::{Pppoe, code};

/// A datagram as it was taken.
#[derive(Clone, Copy)]
pub struct Arrived<'a> {
    /// Who sent it.
    pub from: Peer,
    /// It was longer than the buffer, and its front alone is here.
    pub cut: bool,
    pub octets: &'a [u8],
}

// The destination of a frame to all (RFC 2516 section 5.1).
const BROADCAST: [u8; 6] = [0xff; 6];

fn is_call_to_all(frame: &Pppoe<'_>) -> bool
    ensures yes { result ≡ true → IsCallToAll (frame_of frame.now) }
    ensures no { result ≡ false → ¬ (IsCallToAll (frame_of frame.now)) }
{
    frame.discovery && frame.code == code::PADI && frame.dst.0.as_slice() == BROADCAST.as_slice()
}

fn is_for(port: &AccessPort, frame: &Pppoe<'_>) -> bool
    ensures yes { result ≡ true → IsFor port.now (frame_of frame.now) }
    ensures no { result ≡ false → ¬ (IsFor port.now (frame_of frame.now)) }
{
    frame.dst == port.mac || is_call_to_all(frame)
}

// The frame that came to the port.
fn frame_to<'a>(port: &AccessPort, arrived: &Arrived<'a>) -> Option<Pppoe<'a>>
    ensures found { IfSome result (λ p. CameTo port.now (as_arrival arrived.now) (frame_of p)) }
    ensures none { IfNone result ((p : PppoeFrame) → ¬ (CameTo port.now (as_arrival arrived.now) p)) }
{
    if arrived.cut || arrived.from != port.peer {
        return None;
    }
    let Ok(frame) = Pppoe::read(arrived.octets) else {
        return None;
    };
    if is_for(port, &frame) {
        Some(frame)
    } else {
        None
    }
}

fn port_at(ports: &[AccessPort], number: u8) -> Option<&AccessPort>
    ensures found { IfSome result (λ p. IsPort ports.now number p.now) }
    ensures none { IfNone result ((p : Port) → ¬ (IsPort ports.now number p)) }
{
    if number == 0 {
        return None;
    }
    ports.get(usize::from(number) - 1)
}

/// The frame that a datagram of the access port with this number, from 1 on, is (RFC 2516 section 4): it came whole
/// from the port's other end, and is for the port, or a PADI to all. None exactly where there is no such frame.
pub fn frame_at<'a>(ports: &[AccessPort], number: u8, arrived: &Arrived<'a>) -> Option<Pppoe<'a>>
    ensures found { IfSome result (λ p. IsFrame ports.now number (as_arrival arrived.now) (frame_of p)) }
    ensures none { IfNone result ((p : PppoeFrame) → ¬ (IsFrame ports.now number (as_arrival arrived.now) p)) }
{
    match port_at(ports, number) {
        Some(port) => frame_to(port, arrived),
        None => None,
    }
}

/// Whether a frame is of the session stage or a PADT, and so names a session by its SESSION_ID (RFC 2516 section 4).
pub fn names_session(frame: &Pppoe<'_>) -> bool
    ensures yes { result ≡ true → NamesSession (frame_of frame.now) }
    ensures no { result ≡ false → ¬ (NamesSession (frame_of frame.now)) }
{
    !frame.discovery || frame.code == code::PADT
}

/// The octets that stand where a frame has its IPv4 packet, the information of a PPP frame of protocol 0021 (RFC
/// 1332). None exactly where it is of the discovery stage or carries another protocol.
pub fn carried<'a>(frame: &Pppoe<'a>) -> Option<&'a [u8]>
    ensures found { IfSome result (λ info. Carries (frame_of frame.now) info.now) }
    ensures none { IfNone result ((info : List ℕ) → ¬ (Carries (frame_of frame.now) info)) }
{
    if frame.discovery {
        return None;
    }
    match Ppp::read(frame.payload) {
        Ok(ppp) => {
            if ppp.protocol == protocol::IPV4 {
                return Some(ppp.info);
            }
            None
        }
        Err(_) => None,
    }
}

/// What the IPv4 packet of a datagram of the core says, whose end is `core`. None exactly where it was cut, is of
/// another sender or is no packet (RFC 791 section 3.1).
pub fn packet_from(core: Peer, arrived: &Arrived<'_>) -> Option<Ipv4>
    ensures found { IfSome result (λ v. IsCorePacket core (as_arrival arrived.now) v) }
    ensures none { IfNone result ((v : Header) → ¬ (IsCorePacket core (as_arrival arrived.now) v)) }
{
    if arrived.cut || arrived.from != core {
        return None;
    }
    match read(arrived.octets) {
        Ok(header) => Some(header),
        Err(_) => None,
    }
}
