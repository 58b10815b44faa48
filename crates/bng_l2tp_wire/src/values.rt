//! What the AVPs of a control message say, hidden ones among them (RFC 2661 sections 4.1 to 4.4).
ghost use Rattle.std.specs.Prelude.{◌≡◌, ◌≤◌, length};
ghost use Rattle.std.specs.Option.{option_map};
ghost use Rattle.bng_digest.specs.Hiding.{revealed_avp};
ghost use Rattle.bng_l2tp_wire.specs.Values.{original_value, value_in as value_in_avp, value_of as value_of_kind, number_in, message_type as type_of, assigned_tunnel as tunnel_of, window_in, window_of as size_of_window};
ghost use Rattle.bng_l2tp_wire.specs.View.{avps_of, placed_of, octets_of};

use crate::kind::{ASSIGNED_TUNNEL_ID, MESSAGE_TYPE, RECEIVE_WINDOW_SIZE};
use crate::placed::{Placed, is_of, place_of};
use crate::view::{Avp, Control};
use arrayvec::ArrayVec;
use bng_digest::unhide_avp;

/// The window of a peer that says none (RFC 2661 section 4.4.3).
pub const DEFAULT_WINDOW: u16 = 4;

/// The most octets of the value of an AVP, whose Length has ten bits (RFC 2661 section 4.1).
pub const VALUE_MOST: usize = 1017;

/// What an AVP says.
pub type Value = ArrayVec<u8, 1017>;

// A list of these octets.
fn listed(octets: &[u8]) -> Value
    requires { length octets.now ≤ VALUE_MOST }
    ensures { result.items ≡ octets.now }
{
    let Ok(list) = ArrayVec::try_from(octets) else {
        unreachable!();
    };
    list
}

// The value that stands in the text of a hidden one.
fn original(text: &[u8]) -> Option<Value>
    requires { length text.now ≤ VALUE_MOST }
    ensures { octets_of result ≡ original_value text.now }
{
    let [high, low, rest @ ..] = text else {
        return None;
    };
    let size = usize::from(u16::from_be_bytes([*high, *low]));
    if size > rest.len() {
        return None;
    }
    Some(listed(&rest[..size]))
}

// The value that is hidden in an AVP.
fn revealed(kind: u16, secret: &[u8], vector: &[u8], hidden: &[u8]) -> Option<Value>
    requires { length hidden.now ≤ VALUE_MOST }
    ensures { octets_of result ≡ original_value (revealed_avp kind secret.now vector.now hidden.now) }
{
    let mut text = listed(hidden);
    unhide_avp(kind, secret, vector, text.as_mut_slice());
    original(text.as_slice())
}

fn value_in(placed: &Placed<'_>, secret: &Option<ArrayVec<u8, 64>>) -> Option<Value>
    ensures { octets_of result ≡ value_in_avp (octets_of secret.now) (placed_of placed.now) }
{
    let avp = placed.avp;
    if avp.value.len() > VALUE_MOST {
        return None;
    }
    if !avp.hidden {
        return Some(listed(avp.value));
    }
    match (secret, placed.vector) {
        (Some(secret), Some(vector)) => revealed(
            avp.kind,
            secret.as_slice(),
            vector.value,
            avp.value,
        ),
        _ => None,
    }
}

/// What a message says by an AVP of this Attribute Type, of which the first counts.
pub fn value_of(avps: &[Avp<'_>], secret: &Option<ArrayVec<u8, 64>>, kind: u16) -> Option<Value>
    ensures { octets_of result ≡ value_of_kind (octets_of secret.now) kind (avps_of avps.now) }
{
    match place_of(avps, kind) {
        Some(placed) => value_in(&placed, secret),
        None => None,
    }
}

// The number that two octets are.
fn number_of(octets: &[u8]) -> Option<u16>
    ensures { result ≡ number_in (Some octets.now) }
{
    let [high, low] = octets else {
        return None;
    };
    Some(u16::from_be_bytes([*high, *low]))
}

/// The number that a message says by an AVP of this Attribute Type.
pub fn number_at(avps: &[Avp<'_>], secret: &Option<ArrayVec<u8, 64>>, kind: u16) -> Option<u16>
    ensures { result ≡ number_in (value_of_kind (octets_of secret.now) kind (avps_of avps.now)) }
{
    match value_of(avps, secret, kind) {
        Some(value) => number_of(value.as_slice()),
        None => None,
    }
}

/// What the Message Type of a message says.
pub fn type_in(avps: &[Avp<'_>]) -> Option<u16>
    ensures { result ≡ type_of (avps_of avps.now) }
{
    let [first, ..] = avps else {
        return None;
    };
    if is_of(first, MESSAGE_TYPE) && !first.hidden {
        number_of(first.value)
    } else {
        None
    }
}

/// The window of a peer that sent this message.
pub fn window_of(avps: &[Avp<'_>], secret: &Option<ArrayVec<u8, 64>>) -> u16
    ensures { result ≡ size_of_window (octets_of secret.now) (avps_of avps.now) }
{
    match number_at(avps, secret, RECEIVE_WINDOW_SIZE) {
        Some(0) | None => DEFAULT_WINDOW,
        Some(size) => size,
    }
}

/// The Message Type of a control message (RFC 2661 section 4.4.1), by the constants of `bng_l2tp_wire::message`. None comes
/// exactly where its first AVP is no Message Type of two octets that is not hidden, as in a ZLB.
pub fn message_type(message: &Control<'_>) -> Option<u16>
    ensures { result ≡ type_of (avps_of message.now.avps.items) }
{
    type_in(message.avps.as_slice())
}

/// The sender's Assigned Tunnel ID (RFC 2661 section 4.4.3), read with the secret that is shared with it, if any. None comes
/// exactly where there is none of two octets, or where it is hidden and has no Random Vector before it or there is no secret.
pub fn assigned_tunnel(message: &Control<'_>, secret: &Option<ArrayVec<u8, 64>>) -> Option<u16>
    ensures { result ≡ tunnel_of (octets_of secret.now) (avps_of message.now.avps.items) }
{
    number_at(message.avps.as_slice(), secret, ASSIGNED_TUNNEL_ID)
}
