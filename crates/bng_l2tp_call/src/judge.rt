ghost use Rattle.std.specs.Prelude.{◌≡◌};
ghost use Rattle.bng_l2tp_wire.specs.View.{avps_of, octets_of};
ghost use Rattle.bng_l2tp_call.specs.Messages.{is_taken as is_taken_in, lacks_needed as lacks};
ghost use Rattle.bng_l2tp_call.specs.Refusals.{has_wrong_avp as has_wrong_one, asks_for_sequencing as wants_sequencing, lacks_slot as lacks_a_slot};

use crate::phase::CallPhase;
use arrayvec::ArrayVec;
use bng_l2tp_wire::Avp;
use bng_l2tp_wire::judge::{is_type, is_wrong};
use bng_l2tp_wire::kind::{
    ASSIGNED_SESSION_ID, CALL_SERIAL_NUMBER, FRAMING_TYPE, RESULT_CODE, SEQUENCING_REQUIRED,
    TX_CONNECT_SPEED,
};
use bng_l2tp_wire::message::{CDN, ICCN, ICRQ, SLI, WEN};
use bng_l2tp_wire::placed::{has, has_unreadable};

/// Whether a call takes a message of this type in this phase (RFC 2661 section 7.4.2).
pub fn is_taken(phase: CallPhase, found: Option<u16>) -> bool
    ensures { result ≡ is_taken_in phase found }
{
    match phase {
        CallPhase::Idle => is_type(found, ICRQ),
        CallPhase::WaitConnect => matches!(found, Some(ICCN | CDN | WEN | SLI)),
        CallPhase::Established => matches!(found, Some(CDN | WEN | SLI)),
        CallPhase::Ended => false,
    }
}

// An AVP that a message of this type must have is not there or has a wrong length (RFC 2661 section 6).
fn lacks_needed(avps: &[Avp<'_>], secret: &Option<ArrayVec<u8, 64>>, found: Option<u16>) -> bool
    ensures { result ≡ lacks (octets_of secret.now) found (avps_of avps.now) }
{
    match found {
        Some(ICRQ) => {
            is_wrong(avps, secret, ASSIGNED_SESSION_ID)
                || is_wrong(avps, secret, CALL_SERIAL_NUMBER)
        }
        Some(ICCN) => {
            is_wrong(avps, secret, FRAMING_TYPE) || is_wrong(avps, secret, TX_CONNECT_SPEED)
        }
        Some(CDN) => {
            is_wrong(avps, secret, RESULT_CODE) || is_wrong(avps, secret, ASSIGNED_SESSION_ID)
        }
        _ => false,
    }
}

/// Whether a message has not each AVP that it must have, or has a hidden one that cannot be read.
pub fn has_wrong_avp(
    avps: &[Avp<'_>],
    secret: &Option<ArrayVec<u8, 64>>,
    found: Option<u16>,
) -> bool
    ensures { result ≡ has_wrong_one (octets_of secret.now) found (avps_of avps.now) }
{
    lacks_needed(avps, secret, found) || has_unreadable(avps, secret)
}

/// Whether a message is an ICCN that wants sequence numbers in the data of its call (RFC 2661 section 4.4.6).
pub fn asks_for_sequencing(avps: &[Avp<'_>], found: Option<u16>) -> bool
    ensures { result ≡ wants_sequencing found (avps_of avps.now) }
{
    is_type(found, ICCN) && has(avps, SEQUENCING_REQUIRED)
}

/// Whether a message is an ICRQ for which no session may be taken.
pub fn lacks_slot(session: u16, found: Option<u16>) -> bool
    ensures { result ≡ lacks_a_slot session found }
{
    is_type(found, ICRQ) && session == 0
}
