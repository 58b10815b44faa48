ghost use Rattle.std.specs.Prelude.{◌≡◌};
ghost use Rattle.bng_radius_wire.specs.Grammar.{whole};
ghost use Rattle.bng_coa.specs.Leads.{lead_at, lead_of, number_of as number_in_value, session_in, target_of};

use crate::attributes::first;
use bng_base::Ip4;
use bng_radius_wire::{Radius, kinds};
use byteorder::{BigEndian, ByteOrder};
use hex::decode_to_slice;

/// Where the term is that a request names: with the session of this number, or with whoever holds this address.
#[derive(Clone, Copy, PartialEq, Eq, Debug)]
pub enum Lead {
    Session(u16),
    Address(Ip4),
    Nowhere,
}

/// A value of four octets as a number.
pub(crate) fn number_of(value: &[u8]) -> Option<u32>
    ensures { result ≡ number_in_value value.now }
{
    if value.len() == 4 {
        Some(BigEndian::read_u32(value))
    } else {
        None
    }
}

// The session number that an Acct-Session-Id names by its 24 hexadecimal digits, 0 where it has others.
fn session_in(text: &[u8]) -> u16
    ensures { result ≡ session_in text.now }
{
    let mut octets = [0; 12];
    match decode_to_slice(text, &mut octets) {
        Ok(()) => u16::from_be_bytes([octets[4], octets[5]]),
        Err(_) => 0,
    }
}

// To whoever holds an address, where there is one.
fn lead_at(address: Option<u32>) -> Lead
    ensures { result ≡ lead_at address }
{
    match address {
        Some(address) => Lead::Address(Ip4(address)),
        None => Lead::Nowhere,
    }
}

/// Where a request leads. Of its Acct-Session-Ids the first counts, and where there is none the first of its Framed-IP-Addresses, if that
/// has four octets. An Acct-Session-Id that is not 24 hexadecimal digits names the session number 0, which is no session's.
pub fn lead_of(packet: &Radius<'_>) -> Lead
    ensures { result ≡ lead_of (whole packet.now) }
{
    let attributes = packet.attributes.as_slice();
    if let Some(id) = first(attributes, kinds::ACCT_SESSION_ID) {
        return Lead::Session(session_in(id.value));
    }
    match first(attributes, kinds::FRAMED_IP_ADDRESS) {
        Some(address) => lead_at(number_of(address.value)),
        None => Lead::Nowhere,
    }
}

impl Lead {
    /// The session number that an Acct-Session-Id names, 0 where there is none.
    pub fn target(self) -> u16
        ensures { result ≡ target_of self }
    {
        match self {
            Lead::Session(number) => number,
            Lead::Address(_) | Lead::Nowhere => 0,
        }
    }
}
