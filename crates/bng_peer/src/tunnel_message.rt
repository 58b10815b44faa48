//! The control messages that an access concentrator sends (RFC 2661 section 6), and what it reads of the gateway's.
use arrayvec::ArrayVec;
use bng_base::Frame;
use bng_l2tp_wire::Control;
use bng_l2tp_wire::kind::{
    ASSIGNED_SESSION_ID, ASSIGNED_TUNNEL_ID, CALL_SERIAL_NUMBER, CHALLENGE_RESPONSE,
    FRAMING_CAPABILITIES, FRAMING_TYPE, HOST_NAME, MESSAGE_TYPE, PROTOCOL_VERSION,
    RECEIVE_WINDOW_SIZE, TX_CONNECT_SPEED,
};
use bng_l2tp_wire::message::{ICCN, ICRQ, SCCCN, SCCRQ};
use bng_l2tp_wire::spelling::{avp, spelled};

/// The messages that it takes at once.
const WINDOW: u16 = 8;

/// Synchronous framing (RFC 2661 section 4.4.3), which PPP over Ethernet or a leased line has.
const SYNCHRONOUS: u32 = 1;

/// The bits a second that a call is said to have (RFC 2661 section 4.4.4).
const SPEED: u32 = 100_000_000;

/// The message that asks for a tunnel, which is given this number (RFC 2661 section 6.1).
pub(crate) fn sccrq(number: u16) -> Frame {
    let message = SCCRQ.to_be_bytes();
    let capabilities = SYNCHRONOUS.to_be_bytes();
    let tunnel = number.to_be_bytes();
    let window = WINDOW.to_be_bytes();
    let mut avps = ArrayVec::new();
    avps.push(avp(MESSAGE_TYPE, &message));
    avps.push(avp(PROTOCOL_VERSION, &[1, 0]));
    avps.push(avp(FRAMING_CAPABILITIES, &capabilities));
    avps.push(avp(HOST_NAME, b"lac"));
    avps.push(avp(ASSIGNED_TUNNEL_ID, &tunnel));
    avps.push(avp(RECEIVE_WINDOW_SIZE, &window));
    spelled(0, 0, 0, 0, avps)
}

/// The message that completes a tunnel, with the answer to the gateway's Challenge (RFC 2661 section 6.3).
pub(crate) fn scccn(response: &[u8; 16]) -> Frame {
    let message = SCCCN.to_be_bytes();
    let mut avps = ArrayVec::new();
    avps.push(avp(MESSAGE_TYPE, &message));
    avps.push(avp(CHALLENGE_RESPONSE, response));
    spelled(0, 0, 0, 0, avps)
}

/// The message that completes a tunnel without one.
pub(crate) fn scccn_unchallenged() -> Frame {
    let message = SCCCN.to_be_bytes();
    let mut avps = ArrayVec::new();
    avps.push(avp(MESSAGE_TYPE, &message));
    spelled(0, 0, 0, 0, avps)
}

/// The message that asks for a call, which is given this number (RFC 2661 section 6.6).
pub(crate) fn icrq(number: u16) -> Frame {
    let message = ICRQ.to_be_bytes();
    let session = number.to_be_bytes();
    let serial = u32::from(number).to_be_bytes();
    let mut avps = ArrayVec::new();
    avps.push(avp(MESSAGE_TYPE, &message));
    avps.push(avp(ASSIGNED_SESSION_ID, &session));
    avps.push(avp(CALL_SERIAL_NUMBER, &serial));
    spelled(0, 0, 0, 0, avps)
}

/// The message that completes a call, for a session of the gateway (RFC 2661 section 6.8).
pub(crate) fn iccn(session: u16) -> Frame {
    let message = ICCN.to_be_bytes();
    let speed = SPEED.to_be_bytes();
    let framing = SYNCHRONOUS.to_be_bytes();
    let mut avps = ArrayVec::new();
    avps.push(avp(MESSAGE_TYPE, &message));
    avps.push(avp(TX_CONNECT_SPEED, &speed));
    avps.push(avp(FRAMING_TYPE, &framing));
    spelled(0, session, 0, 0, avps)
}

/// A message without AVPs, which only acknowledges (RFC 2661 section 5.8).
pub(crate) fn zlb(tunnel: u16, ns: u16, nr: u16) -> Frame {
    spelled(tunnel, 0, ns, nr, ArrayVec::new())
}

/// The value of the first AVP of this type.
pub(crate) fn value_of<'a>(message: &Control<'a>, kind: u16) -> Option<&'a [u8]> {
    for avp in message.avps.as_slice() {
        if avp.vendor == 0 && avp.kind == kind && !avp.hidden {
            return Some(avp.value);
        }
    }
    None
}

/// The number that the first AVP of this type says.
pub(crate) fn number_of(message: &Control<'_>, kind: u16) -> Option<u16> {
    match value_of(message, kind)? {
        [high, low] => Some(u16::from_be_bytes([*high, *low])),
        _ => None,
    }
}
