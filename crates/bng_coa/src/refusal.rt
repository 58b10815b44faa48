ghost use Rattle.std.specs.Prelude.{◌≡◌, find};
ghost use Rattle.std.specs.List.{list_any};
ghost use Rattle.std.specs.Str.{bytes_eq};
ghost use Rattle.byteorder.specs.Endian.{big_bytes};
ghost use Rattle.bng_radius_wire.specs.Attributes.{field, fields};
ghost use Rattle.bng_radius_wire.specs.Grammar.{whole};
ghost use Rattle.bng_coa.specs.Kinds.{is_among, has_kind};
ghost use Rattle.bng_coa.specs.Refusals.{is_of_another, is_unsupported, has_wrong_length, names_of, is_unknown, changes, lacks, table, first_cause};

use crate::attributes::{first, has};
use bng_base::{Ip4, Profile};
use bng_radius_wire::{Attribute, Radius, codes, kinds};

// Error-Causes (RFC 5176 section 3.5).
const UNSUPPORTED_ATTRIBUTE: u16 = 401;

const MISSING_ATTRIBUTE: u16 = 402;

const NAS_IDENTIFICATION_MISMATCH: u16 = 403;

const INVALID_REQUEST: u16 = 404;

const INVALID_ATTRIBUTE_VALUE: u16 = 407;

// What a CoA-Request may have.
const COA_KINDS: [u8; 17] = [
    kinds::USER_NAME,
    kinds::NAS_IP_ADDRESS,
    kinds::NAS_PORT,
    kinds::FRAMED_IP_ADDRESS,
    kinds::FILTER_ID,
    kinds::REPLY_MESSAGE,
    kinds::CLASS,
    kinds::SESSION_TIMEOUT,
    kinds::IDLE_TIMEOUT,
    kinds::CALLING_STATION_ID,
    kinds::NAS_IDENTIFIER,
    kinds::PROXY_STATE,
    kinds::ACCT_SESSION_ID,
    kinds::EVENT_TIMESTAMP,
    kinds::MESSAGE_AUTHENTICATOR,
    kinds::ACCT_INTERIM_INTERVAL,
    kinds::NAS_PORT_ID,
];

// What a Disconnect-Request may have.
const DISCONNECT_KINDS: [u8; 13] = [
    kinds::USER_NAME,
    kinds::NAS_IP_ADDRESS,
    kinds::NAS_PORT,
    kinds::FRAMED_IP_ADDRESS,
    kinds::REPLY_MESSAGE,
    kinds::CLASS,
    kinds::CALLING_STATION_ID,
    kinds::NAS_IDENTIFIER,
    kinds::PROXY_STATE,
    kinds::ACCT_SESSION_ID,
    kinds::EVENT_TIMESTAMP,
    kinds::MESSAGE_AUTHENTICATOR,
    kinds::NAS_PORT_ID,
];

// Attributes of four octets.
const NUMBER_KINDS: [u8; 7] = [
    kinds::NAS_IP_ADDRESS,
    kinds::NAS_PORT,
    kinds::FRAMED_IP_ADDRESS,
    kinds::SESSION_TIMEOUT,
    kinds::IDLE_TIMEOUT,
    kinds::EVENT_TIMESTAMP,
    kinds::ACCT_INTERIM_INTERVAL,
];

// Attributes that are not empty.
const TEXT_KINDS: [u8; 7] = [
    kinds::USER_NAME,
    kinds::FILTER_ID,
    kinds::CALLING_STATION_ID,
    kinds::NAS_IDENTIFIER,
    kinds::PROXY_STATE,
    kinds::ACCT_SESSION_ID,
    kinds::NAS_PORT_ID,
];

fn is_among(list: &[u8], kind: u8) -> bool
    ensures { result ≡ is_among list.now kind }
{
    list.iter().any(|k| *k == kind)
}

// Whether an attribute names another NAS.
fn is_of_another(attribute: &Attribute<'_>, address: &[u8], name: &[u8]) -> bool
    ensures { result ≡ is_of_another address.now name.now (field attribute.now) }
{
    (attribute.kind == kinds::NAS_IP_ADDRESS && attribute.value != address)
        || (attribute.kind == kinds::NAS_IDENTIFIER && attribute.value != name)
}

// Whether a request of this code may not have an attribute.
fn is_unsupported(attribute: &Attribute<'_>, code: u8) -> bool
    ensures { result ≡ is_unsupported code (field attribute.now) }
{
    if code == codes::COA_REQUEST {
        !is_among(&COA_KINDS, attribute.kind)
    } else {
        !is_among(&DISCONNECT_KINDS, attribute.kind)
    }
}

fn has_wrong_length(attribute: &Attribute<'_>) -> bool
    ensures { result ≡ has_wrong_length (field attribute.now) }
{
    let length = attribute.value.len();
    (is_among(&NUMBER_KINDS, attribute.kind) && length != 4)
        || (attribute.kind == kinds::MESSAGE_AUTHENTICATOR && length != 16)
        || (is_among(&TEXT_KINDS, attribute.kind) && length == 0)
}

fn is_profile(value: &[u8], profiles: &[Profile]) -> bool
    ensures { result ≡ list_any (bytes_eq value.now) (names_of profiles.now) }
{
    profiles.iter().any(|p| value == p.name.as_slice())
}

// Whether the first Filter-Id names no profile.
fn names_no_profile(attributes: &[Attribute<'_>], profiles: &[Profile]) -> bool
    ensures { result ≡ is_unknown (names_of profiles.now) (find (has_kind 11) (fields attributes.now)) }
{
    match first(attributes, kinds::FILTER_ID) {
        Some(filter) => !is_profile(filter.value, profiles),
        None => false,
    }
}

fn name_another(attributes: &[Attribute<'_>], address: &[u8], name: &[u8]) -> bool
    ensures { result ≡ list_any (is_of_another address.now name.now) (fields attributes.now) }
{
    attributes.iter().any(|a| is_of_another(a, address, name))
}

fn are_unsupported(attributes: &[Attribute<'_>], code: u8) -> bool
    ensures { result ≡ list_any (is_unsupported code) (fields attributes.now) }
{
    attributes.iter().any(|a| is_unsupported(a, code))
}

fn have_wrong_length(attributes: &[Attribute<'_>]) -> bool
    ensures { result ≡ list_any has_wrong_length (fields attributes.now) }
{
    attributes.iter().any(|a| has_wrong_length(a))
}

// Whether a CoA-Request has something to change.
fn changes(attributes: &[Attribute<'_>]) -> bool
    ensures { result ≡ changes (fields attributes.now) }
{
    has(attributes, kinds::FILTER_ID)
        || has(attributes, kinds::SESSION_TIMEOUT)
        || has(attributes, kinds::IDLE_TIMEOUT)
        || has(attributes, kinds::ACCT_INTERIM_INTERVAL)
}

// Whether a packet names no session, or a CoA-Request no change.
fn lacks(packet: &Radius<'_>) -> bool
    ensures { result ≡ lacks (whole packet.now) }
{
    let attributes = packet.attributes.as_slice();
    let named = has(attributes, kinds::ACCT_SESSION_ID)
        || has(attributes, kinds::FRAMED_IP_ADDRESS);
    !named || (packet.code == codes::COA_REQUEST && !changes(attributes))
}

/// The Error-Cause of the first fault that the packet of a CoA-Request or a Disconnect-Request has by itself, None exactly
/// where it has none: 403 where a NAS-IP-Address or a NAS-Identifier is not the gateway's, 401 for an attribute that such a
/// request may not have, 404 for a value of a wrong length, 407 where the first Filter-Id names no profile, and 402 where
/// neither Acct-Session-Id nor Framed-IP-Address is there or a CoA-Request changes nothing (RFC 5176 sections 3.5 and 3.6).
/// Reply-Message and Class are passed over. Of a code other than CoA-Request the packet is taken as a Disconnect-Request.
pub fn first_refusal(
    packet: &Radius<'_>,
    nas_ip: Ip4,
    name: &[u8],
    profiles: &[Profile],
) -> Option<u16>
    ensures { result ≡ first_cause (table (whole packet.now) (big_bytes 4 nas_ip.0) name.now (names_of profiles.now)) }
{
    let address = nas_ip.0.to_be_bytes();
    let attributes = packet.attributes.as_slice();
    if name_another(attributes, &address, name) {
        return Some(NAS_IDENTIFICATION_MISMATCH);
    }
    if are_unsupported(attributes, packet.code) {
        return Some(UNSUPPORTED_ATTRIBUTE);
    }
    if have_wrong_length(attributes) {
        return Some(INVALID_REQUEST);
    }
    if names_no_profile(attributes, profiles) {
        return Some(INVALID_ATTRIBUTE_VALUE);
    }
    if lacks(packet) {
        return Some(MISSING_ATTRIBUTE);
    }
    None
}
