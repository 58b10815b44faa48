ghost use Rattle.std.specs.Prelude.{◌≡◌, ◌≤◌, find, length, max};
ghost use Rattle.std.specs.List.{position};
ghost use Rattle.std.specs.Option.{ForSome, option_map};
ghost use Rattle.bng_radius_wire.specs.Attributes.{fields};
ghost use Rattle.bng_radius_wire.specs.Grammar.{whole};
ghost use Rattle.bng_coa.specs.Kinds.{has_kind};
ghost use Rattle.bng_coa.specs.Wants.{is_called, number_in, place_in, wanted};

use crate::attributes::first;
use crate::lead::number_of;
use bng_base::Profile;
use bng_radius_wire::{Attribute, Radius, kinds};

// The least Acct-Interim-Interval, in seconds (RFC 2869 section 5.16).
const LEAST_INTERIM: u32 = 60;

/// What a CoA-Request changes of a term: the place of its profile, from 0, and how long it may last, in seconds. What is not there stays
/// as it is.
#[derive(Clone, Copy, PartialEq, Eq, Debug)]
pub struct Wanted {
    pub profile: Option<u8>,
    pub session_timeout: Option<u32>,
    pub idle_timeout: Option<u32>,
    pub interim: Option<u32>,
}

fn is_called(profile: &Profile, value: &[u8]) -> bool
    ensures { result ≡ is_called value.now profile.now }
{
    value == profile.name.as_slice()
}

fn place_of(value: &[u8], profiles: &[Profile]) -> Option<u8>
    requires few { length profiles.now ≤ 16 }
    ensures { result ≡ position (is_called value.now) profiles.now }
{
    let place = profiles.iter().position(|p| is_called(p, value))?;
    Some(place as u8)
}

// The place of the profile that the first Filter-Id names.
fn place_in(attributes: &[Attribute<'_>], profiles: &[Profile]) -> Option<u8>
    requires few { length profiles.now ≤ 16 }
    ensures { result ≡ place_in profiles.now (find (has_kind 11) (fields attributes.now)) }
{
    match first(attributes, kinds::FILTER_ID) {
        Some(filter) => place_of(filter.value, profiles),
        None => None,
    }
}

// The number of the first attribute of this type.
fn number_in(attributes: &[Attribute<'_>], kind: u8) -> Option<u32>
    ensures { result ≡ number_in kind (fields attributes.now) }
{
    match first(attributes, kind) {
        Some(found) => number_of(found.value),
        None => None,
    }
}

fn at_least(interim: Option<u32>) -> Option<u32>
    ensures seconds { result ≡ option_map (λ n. max n 60) interim }
    ensures allowed { ForSome result (λ seconds. 60 ≤ seconds) }
{
    match interim {
        Some(seconds) => Some(seconds.max(LEAST_INTERIM)),
        None => None,
    }
}

/// What a CoA-Request changes: by its Filter-Id the profile, where there is one of that name, and by Session-Timeout, Idle-Timeout and
/// Acct-Interim-Interval how long a term may last. An Acct-Interim-Interval below 60 is taken as 60. Of each attribute the first counts.
pub fn wanted_by(packet: &Radius<'_>, profiles: &[Profile]) -> Wanted
    requires few { length profiles.now ≤ 16 }
    ensures wanted { result ≡ wanted profiles.now (whole packet.now) }
    ensures allowed { ForSome result.interim (λ seconds. 60 ≤ seconds) }
{
    let attributes = packet.attributes.as_slice();
    Wanted {
        profile: place_in(attributes, profiles),
        session_timeout: number_in(attributes, kinds::SESSION_TIMEOUT),
        idle_timeout: number_in(attributes, kinds::IDLE_TIMEOUT),
        interim: at_least(number_in(attributes, kinds::ACCT_INTERIM_INTERVAL)),
    }
}
