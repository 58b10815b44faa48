ghost use Rattle.std.specs.Prelude.{◌≡◌, ℕ, List, IfSome, IfNone};
ghost use Rattle.bng_l2tp_wire.specs.Messages.{ControlMessage, DataMessage};
ghost use Rattle.bng_l2tp_wire.specs.View.{control_of, data_of};
ghost use Rattle.bng_lns.specs.Datagrams.{IsControlIn, IsDataIn, IsReadAs, IsNeither, CarriesOver};

use bng_l2tp_wire::{Control, Data, is_control};
use bng_ppp_wire::{Ppp, protocol};

/// What a datagram of the gateway's end for tunnels is.
#[derive(Drop)]
pub enum TunnelDatagram<'a> {
    /// A message of a tunnel or of a call of it.
    Control(Control<'a>),
    /// A PPP frame of a call.
    Data(Data<'a>),
}

// The control message that a datagram is.
fn control_in<'a>(cut: bool, octets: &'a [u8]) -> Option<Control<'a>>
    ensures found { IfSome result (λ m. IsControlIn cut octets.now (control_of m)) }
    ensures none { IfNone result ((m : ControlMessage) → ¬ (IsControlIn cut octets.now m)) }
{
    if cut {
        return None;
    }
    match Control::read(octets) {
        Ok(message) => Some(message),
        Err(_) => None,
    }
}

// The data message that a datagram is.
fn data_in<'a>(cut: bool, octets: &'a [u8]) -> Option<Data<'a>>
    ensures found { IfSome result (λ d. IsDataIn cut octets.now (data_of d)) }
    ensures none { IfNone result ((d : DataMessage) → ¬ (IsDataIn cut octets.now d)) }
{
    if cut {
        return None;
    }
    match Data::read(octets) {
        Ok(message) => Some(message),
        Err(_) => None,
    }
}

/// Reads a datagram, which the T bit of its first octet tells to be a control message or a data message (RFC 2661 section 3.1).
/// `cut` says that it was longer than the buffer, and its front alone is here. None exactly where it is neither, also where a control
/// message has more than 64 AVPs.
pub fn datagram_of<'a>(cut: bool, octets: &'a [u8]) -> Option<TunnelDatagram<'a>>
    ensures found { IfSome result (λ d. IsReadAs cut octets.now d) }
    ensures none { IfNone result (IsNeither cut octets.now) }
{
    if is_control(octets) {
        match control_in(cut, octets) {
            Some(message) => Some(TunnelDatagram::Control(message)),
            None => None,
        }
    } else {
        match data_in(cut, octets) {
            Some(message) => Some(TunnelDatagram::Data(message)),
            None => None,
        }
    }
}

/// The octets that stand where a data message has its IPv4 packet, the information of a PPP frame of protocol 0021 (RFC 1332). None
/// exactly where it carries another protocol.
pub fn carried<'a>(message: &Data<'a>) -> Option<&'a [u8]>
    ensures found { IfSome result (λ info. CarriesOver (data_of message.now) info.now) }
    ensures none { IfNone result ((info : List ℕ) → ¬ (CarriesOver (data_of message.now) info)) }
{
    match Ppp::read(message.ppp) {
        Ok(ppp) => {
            if ppp.protocol == protocol::IPV4 {
                return Some(ppp.info);
            }
            None
        }
        Err(_) => None,
    }
}
