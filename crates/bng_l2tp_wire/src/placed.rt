//! Where the AVPs of a control message stand: after which Random Vector (RFC 2661 section 4.3).
ghost use Rattle.std.specs.Prelude.{◌≡◌, find, IfSome};
ghost use Rattle.std.specs.List.{list_any};
ghost use Rattle.std.specs.Option.{option_map};
ghost use Rattle.bng_l2tp_wire.specs.Values.{IsPlaced, is_of as is_avp_of, is_vector as is_random_vector, placed, is_unreadable as cannot_be_read, has_unreadable as has_one_unreadable};
ghost use Rattle.bng_l2tp_wire.specs.View.{avp_of, avps_of, placed_of, octets_of};

use crate::kind::RANDOM_VECTOR;
use crate::view::Avp;
use arrayvec::ArrayVec;

/// An AVP of a message, and the last Random Vector before it (RFC 2661 section 4.3).
#[derive(Clone, Copy)]
pub struct Placed<'a> {
    /// The AVP.
    pub avp: Avp<'a>,
    /// The last Random Vector before it, if any.
    pub vector: Option<Avp<'a>>,
}

/// Whether an AVP is of this Attribute Type, of Vendor ID 0.
pub fn is_of(avp: &Avp<'_>, kind: u16) -> bool
    ensures { result ≡ is_avp_of kind (avp_of avp.now) }
{
    avp.vendor == 0 && avp.reserved == 0 && avp.kind == kind
}

fn is_vector(avp: &Avp<'_>) -> bool
    ensures { result ≡ is_random_vector (avp_of avp.now) }
{
    is_of(avp, RANDOM_VECTOR) && !avp.hidden
}

/// The first AVP of this Attribute Type.
pub fn place_of<'a>(avps: &[Avp<'a>], kind: u16) -> Option<Placed<'a>>
    ensures first { option_map placed_of result ≡ find (λ p. is_avp_of kind p.avp) (placed (avps_of avps.now)) }
    ensures vector { IfSome result (λ p. IsPlaced (avps_of avps.now) (placed_of p)) }
{
    let mut vector = None;
    let mut left = avps;
    while let [avp, after @ ..] = left {
        if is_of(avp, kind) {
            return Some(Placed { avp: *avp, vector });
        }
        if is_vector(avp) {
            vector = Some(*avp);
        }
        left = after;
    }
    None
}

/// Whether an AVP of this Attribute Type is there.
pub fn has(avps: &[Avp<'_>], kind: u16) -> bool
    ensures { result ≡ list_any (is_avp_of kind) (avps_of avps.now) }
{
    let mut left = avps;
    while let [avp, after @ ..] = left {
        if is_of(avp, kind) {
            return true;
        }
        left = after;
    }
    false
}

fn is_unreadable(avp: &Avp<'_>, vector: &Option<Avp<'_>>, secret: &Option<ArrayVec<u8, 64>>) -> bool
    ensures { result ≡ cannot_be_read (octets_of secret.now) (record { avp = avp_of avp.now; vector = option_map avp_of vector.now }) }
{
    avp.hidden && (vector.is_none() || secret.is_none())
}

/// Whether a hidden AVP cannot be read: one has no Random Vector before it, or there is no secret.
pub fn has_unreadable(avps: &[Avp<'_>], secret: &Option<ArrayVec<u8, 64>>) -> bool
    ensures { result ≡ has_one_unreadable (octets_of secret.now) (avps_of avps.now) }
{
    let mut vector = None;
    let mut left = avps;
    while let [avp, after @ ..] = left {
        if is_unreadable(avp, &vector, secret) {
            return true;
        }
        if is_vector(avp) {
            vector = Some(*avp);
        }
        left = after;
    }
    false
}
