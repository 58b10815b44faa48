//! The numbers of a profile's meters (RFC 2697).
ghost use Rattle.std.specs.Prelude.{◌≡◌, ◌↔◌, ◌⊎◌, IsTrue};
ghost use Rattle.toml.specs.View.{view};
ghost use Rattle.bng_schema.specs.Rates.{IsAbsent, IsThere, IsZero, IsMissed, HasNoBurst, IsPartial};

use crate::find::{integer_at, value_of};
use crate::keys::{Field, Key};
use toml::Value;

/// Of a direction's three numbers some are there, and not the one at the key; or both bursts are 0, which is told at the
/// committed one.
pub(crate) fn breaks_rate(document: &Value, key: Key) -> bool
    ensures { IsTrue result ↔ IsPartial (view document.now) key }
{
    match key {
        Key::Whole(_) => false,
        Key::Of(field, place) => is_partial_at(document, field, place),
    }
}

fn is_partial_at(document: &Value, field: Field, place: usize) -> bool
    ensures { IsTrue result ↔ IsPartial (view document.now) (Key.Of field place) }
{
    use Field::{
        ProfileDownCbs, ProfileDownCir, ProfileDownEbs, ProfileUpCbs, ProfileUpCir, ProfileUpEbs,
    };
    match field {
        ProfileUpCir => is_missed(document, place, field, ProfileUpCbs, ProfileUpEbs),
        ProfileUpCbs => is_bad_burst(document, place, field, ProfileUpCir, ProfileUpEbs),
        ProfileUpEbs => is_missed(document, place, field, ProfileUpCir, ProfileUpCbs),
        ProfileDownCir => is_missed(document, place, field, ProfileDownCbs, ProfileDownEbs),
        ProfileDownCbs => is_bad_burst(document, place, field, ProfileDownCir, ProfileDownEbs),
        ProfileDownEbs => is_missed(document, place, field, ProfileDownCir, ProfileDownCbs),
        _ => false,
    }
}

// The committed burst is missing where the rate or the excess burst is there, or both bursts are 0.
fn is_bad_burst(
    document: &Value,
    place: usize,
    committed: Field,
    rate: Field,
    excess: Field,
) -> bool
    ensures { IsTrue result ↔ IsMissed (view document.now) place committed rate excess ⊎ HasNoBurst (view document.now) place committed excess }
{
    is_missed(document, place, committed, rate, excess)
        || (is_zero(document, committed, place) && is_zero(document, excess, place))
}

// Nothing stands at the field, and something stands at one of the others.
fn is_missed(document: &Value, place: usize, field: Field, one: Field, other: Field) -> bool
    ensures { IsTrue result ↔ IsMissed (view document.now) place field one other }
{
    is_absent(document, field, place) && one_is_there(document, place, one, other)
}

fn one_is_there(document: &Value, place: usize, one: Field, other: Field) -> bool
    ensures { IsTrue result ↔ IsThere (view document.now) one place ⊎ IsThere (view document.now) other place }
{
    is_there(document, one, place) || is_there(document, other, place)
}

fn is_absent(document: &Value, field: Field, place: usize) -> bool
    ensures { IsTrue result ↔ IsAbsent (view document.now) field place }
{
    value_of(document, Key::Of(field, place)).is_none()
}

fn is_there(document: &Value, field: Field, place: usize) -> bool
    ensures { IsTrue result ↔ IsThere (view document.now) field place }
{
    value_of(document, Key::Of(field, place)).is_some()
}

fn is_zero(document: &Value, field: Field, place: usize) -> bool
    ensures { IsTrue result ↔ IsZero (view document.now) field place }
{
    match integer_at(document, Key::Of(field, place)) {
        Some(number) => number == 0,
        None => false,
    }
}
