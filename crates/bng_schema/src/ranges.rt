//! The ranges of addresses of the pools.
ghost use Rattle.std.specs.Prelude.{◌≡◌, ◌≤◌, ◌<◌, ◌+◌, ◌↔◌, ◌^◌, ℕ, List, IsTrue, IfSome, IfNone};
ghost use Rattle.toml.specs.View.{view};
ghost use Rattle.bng_base.specs.declared.book.Range.{Range as Addresses};
ghost use Rattle.bng_schema.specs.Forms.{StandsAt, IsAddress};
ghost use Rattle.bng_base.specs.Ranges.{InRange, size_of as size};
ghost use Rattle.bng_schema.specs.Ranges.{Meets, IsRangeAt, AreRangesOf, HasOwn, MeetsEarlier, AreTooMany, IsUnfit, HasBadRange};

use crate::keys::{Field, Key};
use crate::values::address_at;
use bng_base::{Ip4, Range};
use toml::Value;

/// The most addresses of all pools.
const MOST_ADDRESSES: u64 = 262_144;

/// The range of a pool that ends at the key ends before it begins, has the gateway's own address or one of an earlier
/// pool, or is too long.
pub(crate) fn breaks_range(document: &Value, key: Key) -> bool
    ensures { IsTrue result ↔ HasBadRange (view document.now) key }
{
    match key {
        Key::Whole(_) => false,
        Key::Of(field, place) => breaks_range_at(document, field, place),
    }
}

fn breaks_range_at(document: &Value, field: Field, place: usize) -> bool
    ensures { IsTrue result ↔ HasBadRange (view document.now) (Key.Of field place) }
{
    match field {
        Field::PoolLast => has_bad_range_at(document, place),
        _ => false,
    }
}

fn has_bad_range_at(document: &Value, place: usize) -> bool
    ensures { IsTrue result ↔ HasBadRange (view document.now) (Key.Of Field.PoolLast place) }
{
    match range_at(document, place) {
        Some(range) => is_unfit(document, place, range),
        None => false,
    }
}

/// The range of the pool at this place.
pub(crate) fn range_at(document: &Value, place: usize) -> Option<Range>
    ensures found { IfSome result (λ r. IsRangeAt (view document.now) place r) }
    ensures none { IfNone result ((r : Addresses) → ¬ IsRangeAt (view document.now) place r) }
{
    match address_at(document, Key::Of(Field::PoolFirst, place)) {
        Some(first) => match address_at(document, Key::Of(Field::PoolLast, place)) {
            Some(last) => Some(Range { first, last }),
            None => None,
        },
        None => None,
    }
}

fn is_unfit(document: &Value, place: usize, range: Range) -> bool
    requires { IsRangeAt (view document.now) place range }
    ensures { IsTrue result ↔ IsUnfit (view document.now) place range }
{
    range.last.0 < range.first.0
        || has_own(document, range)
        || meets_earlier(document, place, range)
        || are_too_many(document, place, range)
}

// The range has the gateway's own address.
fn has_own(document: &Value, range: Range) -> bool
    ensures { IsTrue result ↔ HasOwn (view document.now) range }
{
    match address_at(document, Key::Of(Field::GatewayAddress, 0)) {
        Some(own) => contains(range, own),
        None => false,
    }
}

/// The range has the address.
pub(crate) fn contains(range: Range, address: Ip4) -> bool
    ensures { IsTrue result ↔ InRange range address.0 }
{
    range.first.0 <= address.0 && address.0 <= range.last.0
}

// The range has an address of a pool before this place.
fn meets_earlier(document: &Value, place: usize, range: Range) -> bool
    ensures { IsTrue result ↔ MeetsEarlier (view document.now) place range }
{
    for earlier in 0..place {
        if meets_at(document, earlier, range) {
            return true;
        }
    }
    false
}

// The range has an address of the pool at this place.
fn meets_at(document: &Value, place: usize, range: Range) -> bool
    ensures { IsTrue result ↔ (r : Addresses) × IsRangeAt (view document.now) place r × Meets r range }
{
    match range_at(document, place) {
        Some(other) => meet(other, range),
        None => false,
    }
}

// Some address is in both.
fn meet(one: Range, other: Range) -> bool
    ensures { IsTrue result ↔ Meets one other }
{
    one.first.0.max(other.first.0) <= one.last.0.min(other.last.0)
}

// With those of the pools before this place the addresses of the range are more than there is room for.
fn are_too_many(document: &Value, place: usize, range: Range) -> bool
    ensures { IsTrue result ↔ AreTooMany (view document.now) place range }
{
    let mut count = size_of(range).min(MOST_ADDRESSES + 1);
    for earlier in 0..place {
        match range_at(document, earlier) {
            Some(other) => count = (count + size_of(other)).min(MOST_ADDRESSES + 1),
            None => return false,
        }
    }
    count > MOST_ADDRESSES
}

fn size_of(range: Range) -> u64
    ensures size { result ≡ size range }
    ensures short { result ≤ 2 ^ 32 }
{
    (u64::from(range.last.0) + 1).saturating_sub(u64::from(range.first.0))
}
