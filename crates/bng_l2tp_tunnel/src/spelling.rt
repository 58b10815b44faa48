ghost use Rattle.std.specs.Prelude.{◌≡◌, ◌+◌, ◌≤◌, ◌<◌, ◌++◌, length};
ghost use Rattle.arrayvec.specs.ArrayVec.{array_vec_len};
ghost use Rattle.bng_l2tp_wire.specs.Messages.{control_text};
ghost use Rattle.bng_l2tp_wire.specs.View.{avps_of, octets_of};
ghost use Rattle.bng_l2tp_tunnel.specs.Spelling.{sccrp as sccrp_of, stop_ccn as stop_ccn_of, hello as hello_of, challenge_avps, response_avps, answer_avps};

use crate::judge::{VERSION, challenge_response};
use arrayvec::ArrayVec;
use bng_base::Frame;
use bng_l2tp_wire::kind::{
    ASSIGNED_TUNNEL_ID, CHALLENGE, CHALLENGE_RESPONSE, FRAMING_CAPABILITIES, HOST_NAME,
    MESSAGE_TYPE, PROTOCOL_VERSION, RECEIVE_WINDOW_SIZE, RESULT_CODE,
};
use bng_l2tp_wire::message::{HELLO, SCCRP, STOP_CCN};
use bng_l2tp_wire::result_code::{ResultCode, code_octets};
use bng_l2tp_wire::spelling::{AvpList, avp, spelled};
use bng_l2tp_wire::values::Value;

/// How many messages the gateway takes before it acknowledges one (RFC 2661 section 4.4.3).
pub const OWN_WINDOW: u16 = 8;

/// Both synchronous and asynchronous framing (RFC 2661 section 4.4.3).
pub const BOTH_FRAMINGS: [u8; 4] = [0, 0, 0, 3];

/// The answer to the peer's Challenge in a message of this type, where it sent one (RFC 2661 section 4.4.3).
pub fn response_to(
    message: u16,
    secret: &Option<ArrayVec<u8, 64>>,
    asked: &Option<Value>,
) -> Option<[u8; 16]>
    requires { message < 256 }
    ensures { response_avps message (octets_of secret.now) (octets_of asked.now) ≡ answer_avps result }
{
    match (secret, asked) {
        (Some(secret), Some(asked)) => Some(challenge_response(
            message,
            secret.as_slice(),
            asked.as_slice(),
        )),
        _ => None,
    }
}

/// Adds the gateway's Challenge, where there is a secret (RFC 2661 section 4.4.3).
pub fn push_challenge<'a>(
    avps: &mut AvpList<'a>,
    secret: &Option<ArrayVec<u8, 64>>,
    challenge: &'a [u8; 16],
)
    requires { array_vec_len avps.old < 64 }
    ensures items { avps_of avps.new.items ≡ avps_of avps.old.items ++ challenge_avps (octets_of secret.now) challenge.now }
    ensures len { array_vec_len avps.new ≤ array_vec_len avps.old + 1 }
{
    if secret.is_some() {
        avps.push(avp(CHALLENGE, challenge));
    }
}

/// Adds the answer to the peer's Challenge, where there is one (RFC 2661 section 4.4.3).
pub fn push_response<'a>(avps: &mut AvpList<'a>, response: &'a Option<[u8; 16]>)
    requires { array_vec_len avps.old < 64 }
    ensures items { avps_of avps.new.items ≡ avps_of avps.old.items ++ answer_avps response.now }
{
    if let Some(response) = response {
        avps.push(avp(CHALLENGE_RESPONSE, response));
    }
}

/// The SCCRP of a tunnel with this number, to a peer that sent this Challenge, if one (RFC 2661 section 6.2).
pub fn sccrp(
    name: &[u8],
    number: u16,
    secret: &Option<ArrayVec<u8, 64>>,
    challenge: &[u8; 16],
    asked: &Option<Value>,
) -> Frame
    requires { length name.now ≤ 64 }
    ensures text { result.payload ≡ control_text (sccrp_of name.now number (octets_of secret.now) challenge.now (octets_of asked.now)) }
    ensures size { length result.payload ≤ 512 }
{
    let message = SCCRP.to_be_bytes();
    let number = number.to_be_bytes();
    let window = OWN_WINDOW.to_be_bytes();
    let response = response_to(SCCRP, secret, asked);
    let mut avps = ArrayVec::new();
    avps.push(avp(MESSAGE_TYPE, &message));
    avps.push(avp(PROTOCOL_VERSION, &VERSION));
    avps.push(avp(FRAMING_CAPABILITIES, &BOTH_FRAMINGS));
    avps.push(avp(HOST_NAME, name));
    avps.push(avp(ASSIGNED_TUNNEL_ID, &number));
    avps.push(avp(RECEIVE_WINDOW_SIZE, &window));
    push_challenge(&mut avps, secret, challenge);
    push_response(&mut avps, &response);
    spelled(0, 0, 0, 0, avps)
}

/// The StopCCN of the tunnel with this number (RFC 2661 section 6.4), to a tunnel of the peer and with these numbers.
pub fn stop_ccn(tunnel: u16, nr: u16, number: u16, code: ResultCode) -> Frame
    ensures text { result.payload ≡ control_text (record (stop_ccn_of number code) { tunnel = tunnel; nr = nr }) }
    ensures size { length result.payload ≤ 512 }
{
    let message = STOP_CCN.to_be_bytes();
    let number = number.to_be_bytes();
    let code = code_octets(code);
    let mut avps = ArrayVec::new();
    avps.push(avp(MESSAGE_TYPE, &message));
    avps.push(avp(ASSIGNED_TUNNEL_ID, &number));
    avps.push(avp(RESULT_CODE, code.as_slice()));
    spelled(tunnel, 0, 0, nr, avps)
}

/// The HELLO (RFC 2661 section 6.5).
pub fn hello() -> Frame
    ensures text { result.payload ≡ control_text hello_of }
    ensures size { length result.payload ≤ 512 }
{
    let message = HELLO.to_be_bytes();
    let mut avps = ArrayVec::new();
    avps.push(avp(MESSAGE_TYPE, &message));
    spelled(0, 0, 0, 0, avps)
}
