ghost use Rattle.std.specs.Prelude.{◌≡◌, List, IfSome};
ghost use Rattle.std.specs.Option.{option_map};
ghost use Rattle.std.specs.List.{AllByRecursion};
ghost use Rattle.bng_radius_wire.specs.Attributes.{Field, Fits, fields};
ghost use Rattle.bng_grant.specs.Classes.{AreClasses};
ghost use Rattle.bng_grant.specs.Grants.{gift, Gives, IsGrant};

use crate::class::kept_classes;
use crate::numbers::{address_of, interim_of, timeout_of};
use crate::texts::text_of;
use arrayvec::ArrayVec;
use bng_base::Ip4;
use bng_radius_wire::{Attribute, kinds, read};

/// What an Access-Accept gives its peer.
#[derive(Drop)]
pub struct Grant<'a> {
    /// The name of the peer's profile, at least one octet: Filter-Id (RFC 2865 section 5.11).
    pub profile: Option<&'a [u8]>,
    /// The name of the pool that the peer's address is of where none is named, at least one octet: Framed-Pool (RFC 2869
    /// section 5.18). None leaves the pool to the gateway.
    pub pool: Option<&'a [u8]>,
    /// The peer's address: Framed-IP-Address (RFC 2865 section 5.8). None leaves it to the gateway, which takes one of a
    /// pool; so do 255.255.255.254 and 255.255.255.255.
    pub address: Option<Ip4>,
    /// After so many seconds the session ends; 0: never. Session-Timeout (RFC 2865 section 5.27).
    pub session_timeout: u32,
    /// After so many seconds with no packet the session ends; 0: never. Idle-Timeout (RFC 2865 section 5.28).
    pub idle_timeout: u32,
    /// So many seconds lie between two interim records, at least 60; None leaves it to the gateway. Acct-Interim-Interval
    /// (RFC 2869 section 5.16).
    pub interim: Option<u32>,
    /// Class attributes that each record of the session repeats: at most 32, each whole, with type, length and value (RFC
    /// 2865 section 5.25).
    pub class: ArrayVec<u8, 512>,
}

// What a packet with these attributes gives.
fn grant_in<'a>(attributes: &[Attribute<'a>]) -> Grant<'a>
    requires { AllByRecursion Fits (fields attributes.now) }
    ensures { Gives (fields attributes.now) (gift result) }
{
    Grant {
        profile: text_of(attributes, kinds::FILTER_ID),
        pool: text_of(attributes, kinds::FRAMED_POOL),
        address: address_of(attributes),
        session_timeout: timeout_of(attributes, kinds::SESSION_TIMEOUT),
        idle_timeout: timeout_of(attributes, kinds::IDLE_TIMEOUT),
        interim: interim_of(attributes),
        class: kept_classes(attributes),
    }
}

/// What the packet gives with which these octets begin, taken as an Access-Accept. Of each attribute but Class the first
/// counts whose value has a right length: four octets of a number, at least one of a text. Of the Class attributes those
/// are kept, in their order, that fit: the longest front that has at most 32 and at most 512 octets. None where the octets
/// begin with no packet of at most 64 attributes.
pub fn grant_of(octets: &[u8]) -> Option<Grant<'_>>
    ensures grant { IsGrant octets.now (option_map gift result) }
    ensures classes { IfSome result (λ g. (classes : List Field) × AreClasses classes g.class.items) }
{
    match read(octets) {
        Ok(packet) => Some(grant_in(packet.attributes.as_slice())),
        Err(_) => None,
    }
}
