//! How a control message is judged by its AVPs (RFC 2661 sections 4.1 and 4.4).
ghost use Rattle.std.specs.Prelude.{◌≡◌};
ghost use Rattle.bng_l2tp_wire.specs.Judge.{is_type as is_of_type, must_be_known as must_be, has_unknown as has_one_unknown, has_right_length as is_right_length, is_wrong as is_wrong_value};
ghost use Rattle.bng_l2tp_wire.specs.Values.{is_known as is_known_avp, value_of as value_in_message};
ghost use Rattle.bng_l2tp_wire.specs.View.{avp_of, avps_of, octets_of};

use crate::kind::{
    CALL_SERIAL_NUMBER, FRAMING_CAPABILITIES, FRAMING_TYPE, HOST_NAME, RESULT_CODE,
    TX_CONNECT_SPEED,
};
use crate::values::value_of;
use crate::view::Avp;
use arrayvec::ArrayVec;

/// Whether a message of this type is of the wanted one.
pub fn is_type(found: Option<u16>, wanted: u16) -> bool
    ensures { result ≡ is_of_type found wanted }
{
    match found {
        Some(found) => found == wanted,
        None => false,
    }
}

fn is_known(avp: &Avp<'_>) -> bool
    ensures { result ≡ is_known_avp (avp_of avp.now) }
{
    avp.vendor == 0 && avp.reserved == 0 && matches!(avp.kind, 0..=19 | 21..=39)
}

fn must_be_known(avp: &Avp<'_>) -> bool
    ensures { result ≡ must_be (avp_of avp.now) }
{
    avp.mandatory && !is_known(avp)
}

/// Whether an AVP is not known and must be (RFC 2661 section 4.1).
pub fn has_unknown(avps: &[Avp<'_>]) -> bool
    ensures { result ≡ has_one_unknown (avps_of avps.now) }
{
    let mut left = avps;
    while let [avp, after @ ..] = left {
        if must_be_known(avp) {
            return true;
        }
        left = after;
    }
    false
}

/// Whether a value has the right length for its Attribute Type, one of those that a message must have (RFC 2661 section 4.4).
pub fn has_right_length(kind: u16, value: &[u8]) -> bool
    ensures { result ≡ is_right_length kind value.now }
{
    match kind {
        HOST_NAME => !value.is_empty(),
        RESULT_CODE => value.len() == 2 || value.len() >= 4,
        FRAMING_CAPABILITIES | CALL_SERIAL_NUMBER | FRAMING_TYPE | TX_CONNECT_SPEED => {
            value.len() == 4
        }
        _ => value.len() == 2,
    }
}

/// Whether an AVP of this Attribute Type is not there, or its value has a wrong length.
pub fn is_wrong(avps: &[Avp<'_>], secret: &Option<ArrayVec<u8, 64>>, kind: u16) -> bool
    ensures { result ≡ is_wrong_value kind (value_in_message (octets_of secret.now) kind (avps_of avps.now)) }
{
    match value_of(avps, secret, kind) {
        Some(value) => !has_right_length(kind, value.as_slice()),
        None => true,
    }
}
