//! The control messages that an access concentrator sends.
ghost use Rattle.std.specs.Prelude.{◌≡◌, ◌≤◌, length};
ghost use Rattle.bng_l2tp_wire.specs.Messages.{control_text};
ghost use Rattle.bng_l2tp_wire.specs.View.{octets_of};
ghost use Rattle.bng_lac.specs.Spelling.{sccrq as sccrq_of, scccn as scccn_of, icrq as icrq_of, iccn as iccn_of};

use arrayvec::ArrayVec;
use bng_base::Frame;
use bng_l2tp_tunnel::{
    BOTH_FRAMINGS, OWN_WINDOW, VERSION, push_challenge, push_response, response_to,
};
use bng_l2tp_wire::kind::{
    ASSIGNED_SESSION_ID, ASSIGNED_TUNNEL_ID, CALL_SERIAL_NUMBER, FRAMING_CAPABILITIES,
    FRAMING_TYPE, HOST_NAME, MESSAGE_TYPE, PROTOCOL_VERSION, RECEIVE_WINDOW_SIZE, TX_CONNECT_SPEED,
};
use bng_l2tp_wire::message::{ICCN, ICRQ, SCCCN, SCCRQ};
use bng_l2tp_wire::spelling::{avp, spelled};
use bng_l2tp_wire::values::Value;

// Ten million bits a second (RFC 2661 section 4.4.6).
const CONNECT_SPEED: u32 = 10_000_000;
// Synchronous framing (RFC 2661 section 4.4.6).
const SYNCHRONOUS: u32 = 1;

/// The SCCRQ of a tunnel with this number (RFC 2661 section 6.1).
pub(crate) fn sccrq(
    name: &[u8],
    number: u16,
    secret: &Option<ArrayVec<u8, 64>>,
    challenge: &[u8; 16],
) -> Frame
    requires { length name.now ≤ 64 }
    ensures text { result.payload ≡ control_text (sccrq_of name.now number (octets_of secret.now) challenge.now) }
    ensures size { length result.payload ≤ 512 }
{
    let message = SCCRQ.to_be_bytes();
    let number = number.to_be_bytes();
    let window = OWN_WINDOW.to_be_bytes();
    let mut avps = ArrayVec::new();
    avps.push(avp(MESSAGE_TYPE, &message));
    avps.push(avp(PROTOCOL_VERSION, &VERSION));
    avps.push(avp(FRAMING_CAPABILITIES, &BOTH_FRAMINGS));
    avps.push(avp(HOST_NAME, name));
    avps.push(avp(ASSIGNED_TUNNEL_ID, &number));
    avps.push(avp(RECEIVE_WINDOW_SIZE, &window));
    push_challenge(&mut avps, secret, challenge);
    spelled(0, 0, 0, 0, avps)
}

/// The SCCCN to a server that sent this Challenge, if one (RFC 2661 section 6.3).
pub(crate) fn scccn(secret: &Option<ArrayVec<u8, 64>>, asked: &Option<Value>) -> Frame
    ensures text { result.payload ≡ control_text (scccn_of (octets_of secret.now) (octets_of asked.now)) }
    ensures size { length result.payload ≤ 512 }
{
    let message = SCCCN.to_be_bytes();
    let response = response_to(SCCCN, secret, asked);
    let mut avps = ArrayVec::new();
    avps.push(avp(MESSAGE_TYPE, &message));
    push_response(&mut avps, &response);
    spelled(0, 0, 0, 0, avps)
}

/// The ICRQ of a session, with this Call Serial Number (RFC 2661 section 6.6).
pub(crate) fn icrq(session: u16, serial: u32) -> Frame
    ensures text { result.payload ≡ control_text (icrq_of session serial) }
    ensures size { length result.payload ≤ 512 }
{
    let message = ICRQ.to_be_bytes();
    let session = session.to_be_bytes();
    let serial = serial.to_be_bytes();
    let mut avps = ArrayVec::new();
    avps.push(avp(MESSAGE_TYPE, &message));
    avps.push(avp(ASSIGNED_SESSION_ID, &session));
    avps.push(avp(CALL_SERIAL_NUMBER, &serial));
    spelled(0, 0, 0, 0, avps)
}

/// The ICCN for a session of the server (RFC 2661 section 6.8).
pub(crate) fn iccn(session: u16) -> Frame
    ensures text { result.payload ≡ control_text (iccn_of session) }
    ensures size { length result.payload ≤ 512 }
{
    let message = ICCN.to_be_bytes();
    let speed = CONNECT_SPEED.to_be_bytes();
    let framing = SYNCHRONOUS.to_be_bytes();
    let mut avps = ArrayVec::new();
    avps.push(avp(MESSAGE_TYPE, &message));
    avps.push(avp(TX_CONNECT_SPEED, &speed));
    avps.push(avp(FRAMING_TYPE, &framing));
    spelled(0, session, 0, 0, avps)
}
