ghost use Rattle.std.specs.Prelude.{◌≡◌, ◌<◌, ◌^◌};
ghost use Rattle.std.specs.List.{list_any};
ghost use Rattle.bng_radius_wire.specs.Attributes.{field, fields};
ghost use Rattle.bng_coa.specs.Admission.{seconds_between, is_stale};

use bng_radius_wire::{Attribute, kinds};

/// A request is stale where its Event-Timestamp is more than so many seconds away (RFC 5176 section 6.3).
pub const WINDOW: u64 = 300;

// An Event-Timestamp has 32 bits of the second (RFC 2869 section 5.3).
const SECONDS: u64 = 0x1_0000_0000;

// How many seconds lie between two counts of seconds modulo 2^32.
fn seconds_between(a: u64, b: u64) -> u64
    requires a { a < 2 ^ 32 }
    requires b { b < 2 ^ 32 }
    ensures { result ≡ seconds_between a b }
{
    let ahead = (a + SECONDS - b) % SECONDS;
    let behind = (b + SECONDS - a) % SECONDS;
    ahead.min(behind)
}

// Whether an attribute is an Event-Timestamp that is too far from this second.
fn is_stale(attribute: &Attribute<'_>, wall: u64) -> bool
    ensures { result ≡ is_stale wall (field attribute.now) }
{
    if attribute.kind != kinds::EVENT_TIMESTAMP {
        return false;
    }
    let [a, b, c, d] = attribute.value else {
        return false;
    };
    let stamp = u32::from_be_bytes([*a, *b, *c, *d]);
    seconds_between(u64::from(stamp), wall % SECONDS) > WINDOW
}

/// Whether one of the attributes is an Event-Timestamp that is more than 300 s from this second.
pub(crate) fn are_stale(attributes: &[Attribute<'_>], wall: u64) -> bool
    ensures { result ≡ list_any (is_stale wall) (fields attributes.now) }
{
    attributes.iter().any(|attribute| is_stale(attribute, wall))
}
