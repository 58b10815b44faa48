//! The attributes whose value is a number of four octets.
ghost use Rattle.std.specs.Prelude.{◌≡◌, length, find, max, IfSome};
ghost use Rattle.std.specs.Option.{option_map, option_and_then};
ghost use Rattle.byteorder.specs.Endian.{big_number};
ghost use Rattle.bng_radius_wire.specs.Attributes.{field, fields};
ghost use Rattle.bng_grant.specs.Grants.{is_number, number_of, chosen, address_of, timeout_of, interim_of};

use bng_base::Ip4;
use bng_radius_wire::{Attribute, kinds};
use byteorder::{BigEndian, ByteOrder};

// By this address the gateway chooses the peer's (RFC 2865 section 5.8).
const GATEWAY_CHOOSES: u32 = 0xffff_fffe;

// By this address the peer chooses its own.
const PEER_CHOOSES: u32 = 0xffff_ffff;

// In seconds (RFC 2869 section 5.16).
const LEAST_INTERIM: u32 = 60;

// The first attribute of this type whose value has four octets.
fn first_number<'a>(attributes: &[Attribute<'a>], kind: u8) -> Option<Attribute<'a>>
    ensures first { option_map field result ≡ find (is_number kind) (fields attributes.now) }
    ensures size { IfSome result (λ a. length a.value.now ≡ 4) }
{
    attributes
        .iter()
        .copied()
        .find(|a| a.kind == kind && a.value.len() == 4)
}

fn number_of(attributes: &[Attribute<'_>], kind: u8) -> Option<u32>
    ensures { result ≡ number_of kind (fields attributes.now) }
{
    first_number(attributes, kind).map(|found| BigEndian::read_u32(found.value))
}

fn chosen(address: u32) -> Option<Ip4>
    ensures { option_map (λ a. a.0) result ≡ chosen address }
{
    match address {
        GATEWAY_CHOOSES | PEER_CHOOSES => None,
        _ => Some(Ip4(address)),
    }
}

// The address that the first Framed-IP-Address names, if it names one.
pub(crate) fn address_of(attributes: &[Attribute<'_>]) -> Option<Ip4>
    ensures { option_map (λ a. a.0) result ≡ address_of (fields attributes.now) }
{
    number_of(attributes, kinds::FRAMED_IP_ADDRESS).and_then(chosen)
}

// The first timeout of this type in seconds, else 0.
pub(crate) fn timeout_of(attributes: &[Attribute<'_>], kind: u8) -> u32
    ensures { result ≡ timeout_of kind (fields attributes.now) }
{
    number_of(attributes, kind).unwrap_or(0)
}

// The first Acct-Interim-Interval in seconds, at least 60.
pub(crate) fn interim_of(attributes: &[Attribute<'_>]) -> Option<u32>
    ensures { result ≡ interim_of (fields attributes.now) }
{
    number_of(attributes, kinds::ACCT_INTERIM_INTERVAL).map(|seconds| seconds.max(LEAST_INTERIM))
}
