ghost use Rattle.std.specs.Prelude.{◌≡◌, ◌<◌};
ghost use Rattle.bng_l2tp_wire.specs.View.{avps_of, octets_of};
ghost use Rattle.bng_l2tp_tunnel.specs.Messages.{is_of_call as belongs_to_call, is_taken as is_taken_in, lacks_needed as lacks};
ghost use Rattle.bng_l2tp_tunnel.specs.Refusals.{has_other_version as is_of_other_version, challenge_response, has_answer as answers, is_asked_in_vain as asks_in_vain, fails_challenge as fails, is_of_wrong_version as has_wrong_version, has_unknown_avp as has_unknown_one, has_wrong_avp as has_wrong_one, lacks_number as lacks_a_number};

use crate::phase::TunnelPhase;
use arrayvec::ArrayVec;
use bng_digest::chap_value;
use bng_l2tp_wire::Avp;
use bng_l2tp_wire::judge::{has_unknown, is_type, is_wrong};
use bng_l2tp_wire::kind::{
    ASSIGNED_TUNNEL_ID, CHALLENGE, CHALLENGE_RESPONSE, FRAMING_CAPABILITIES, HOST_NAME,
    PROTOCOL_VERSION, RESULT_CODE,
};
use bng_l2tp_wire::message::{CDN, HELLO, ICCN, ICRQ, SCCCN, SCCRQ, SLI, STOP_CCN, WEN};
use bng_l2tp_wire::placed::has_unreadable;
use bng_l2tp_wire::values::value_of;

/// Version 1 and Revision 0 (RFC 2661 section 4.4.3).
pub const VERSION: [u8; 2] = [1, 0];

/// Whether a message of this type is one of a call (RFC 2661 section 3.2).
pub fn is_of_call(found: Option<u16>) -> bool
    ensures { result ≡ belongs_to_call found }
{
    matches!(found, Some(ICRQ | ICCN | CDN | WEN | SLI))
}

/// Whether a tunnel takes a message of this type in this phase (RFC 2661 section 7.2).
pub fn is_taken(phase: TunnelPhase, found: Option<u16>) -> bool
    ensures { result ≡ is_taken_in phase found }
{
    match phase {
        TunnelPhase::Idle => is_type(found, SCCRQ),
        TunnelPhase::Replied => is_type(found, SCCCN) || is_type(found, STOP_CCN),
        TunnelPhase::Established => is_type(found, STOP_CCN) || is_type(found, HELLO),
        TunnelPhase::Cleared => false,
    }
}

/// Whether a Protocol Version is there that is not 1.0 (RFC 2661 section 4.4.3).
pub fn has_other_version(avps: &[Avp<'_>], secret: &Option<ArrayVec<u8, 64>>) -> bool
    ensures { result ≡ is_of_other_version (octets_of secret.now) (avps_of avps.now) }
{
    match value_of(avps, secret, PROTOCOL_VERSION) {
        Some(value) => value.as_slice() != VERSION.as_slice(),
        None => false,
    }
}

// An AVP that a message of this type must have is not there or has a wrong length (RFC 2661 section 6).
fn lacks_needed(avps: &[Avp<'_>], secret: &Option<ArrayVec<u8, 64>>, found: Option<u16>) -> bool
    ensures { result ≡ lacks (octets_of secret.now) found (avps_of avps.now) }
{
    match found {
        Some(SCCRQ) => {
            is_wrong(avps, secret, PROTOCOL_VERSION)
                || is_wrong(avps, secret, FRAMING_CAPABILITIES)
                || is_wrong(avps, secret, HOST_NAME)
                || is_wrong(avps, secret, ASSIGNED_TUNNEL_ID)
        }
        Some(STOP_CCN) => {
            is_wrong(avps, secret, RESULT_CODE) || is_wrong(avps, secret, ASSIGNED_TUNNEL_ID)
        }
        _ => false,
    }
}

/// The answer to a Challenge in a message of this type (RFC 2661 section 4.4.3): CHAP's value (RFC 1994 section 4.1) with the
/// type for its Identifier.
pub fn challenge_response(message: u16, secret: &[u8], challenge: &[u8]) -> [u8; 16]
    requires { message < 256 }
    ensures { result ≡ challenge_response message secret.now challenge.now }
{
    chap_value(message as u8, secret, challenge)
}

/// Whether the answer to the gateway's Challenge in a message of this type is there, if there was one (RFC 2661 section 5.1.1).
pub fn has_answer(
    avps: &[Avp<'_>],
    secret: &Option<ArrayVec<u8, 64>>,
    challenge: &[u8],
    message: u16,
) -> bool
    requires { message < 256 }
    ensures { result ≡ answers message (octets_of secret.now) challenge.now (avps_of avps.now) }
{
    let Some(shared) = secret else {
        return true;
    };
    let wanted = challenge_response(message, shared.as_slice(), challenge);
    match value_of(avps, secret, CHALLENGE_RESPONSE) {
        Some(value) => value.as_slice() == wanted.as_slice(),
        None => false,
    }
}

/// Whether a Challenge is there, and no secret to answer it with (RFC 2661 section 5.1.1).
pub fn is_asked_in_vain(avps: &[Avp<'_>], secret: &Option<ArrayVec<u8, 64>>) -> bool
    ensures { result ≡ asks_in_vain (octets_of secret.now) (avps_of avps.now) }
{
    value_of(avps, secret, CHALLENGE).is_some() && secret.is_none()
}

/// Whether an SCCRQ asks for an answer that cannot be made, or an SCCCN has not the right one.
pub fn fails_challenge(
    avps: &[Avp<'_>],
    secret: &Option<ArrayVec<u8, 64>>,
    challenge: &[u8],
    found: Option<u16>,
) -> bool
    ensures { result ≡ fails (octets_of secret.now) challenge.now found (avps_of avps.now) }
{
    match found {
        Some(SCCRQ) => is_asked_in_vain(avps, secret),
        Some(SCCCN) => !has_answer(avps, secret, challenge, SCCCN),
        _ => false,
    }
}

/// Whether a tunnel's message has a Protocol Version that is not 1.0.
pub fn is_of_wrong_version(
    avps: &[Avp<'_>],
    secret: &Option<ArrayVec<u8, 64>>,
    found: Option<u16>,
) -> bool
    ensures { result ≡ has_wrong_version (octets_of secret.now) found (avps_of avps.now) }
{
    !is_of_call(found) && has_other_version(avps, secret)
}

/// Whether a tunnel's message has an AVP that is not known and must be (RFC 2661 section 4.1).
pub fn has_unknown_avp(avps: &[Avp<'_>], found: Option<u16>) -> bool
    ensures { result ≡ has_unknown_one found (avps_of avps.now) }
{
    !is_of_call(found) && has_unknown(avps)
}

/// Whether a tunnel's message has not each AVP that it must have, or has a hidden one that cannot be read.
pub fn has_wrong_avp(
    avps: &[Avp<'_>],
    secret: &Option<ArrayVec<u8, 64>>,
    found: Option<u16>,
) -> bool
    ensures { result ≡ has_wrong_one (octets_of secret.now) found (avps_of avps.now) }
{
    !is_of_call(found) && (lacks_needed(avps, secret, found) || has_unreadable(avps, secret))
}

/// Whether a message is an SCCRQ for which no tunnel number may be taken.
pub fn lacks_number(number: u16, found: Option<u16>) -> bool
    ensures { result ≡ lacks_a_number number found }
{
    is_type(found, SCCRQ) && number == 0
}
