//! What the provisioned circuits must not share, and what they must name.
ghost use Rattle.std.specs.Prelude.{◌≡◌, ◌↔◌, ◌⊎◌, ℤ, IsTrue, IfSome, IfNone};
ghost use Rattle.toml.specs.View.{view};
ghost use Rattle.bng_schema.specs.Circuits.{HasNumber, HasSessionBelow, SharesSession, SharesAddress, IsPooledBelow, IsOutside, IsProfileName, NamesNoProfile, IsBadCircuit};
ghost use Rattle.bng_base.specs.Ranges.{InRange};
ghost use Rattle.bng_schema.specs.Ranges.{IsRangeAt};
ghost use Rattle.bng_base.specs.declared.book.Range.{Range as Addresses};

use crate::find::{entries_of, integer_at, natural_at};
use crate::keys::{Field, Key, Table};
use crate::ranges::{contains, range_at};
use crate::repeats::{known_text, stands_below};
use crate::values::address_at;
use bng_base::Ip4;
use toml::Value;

/// The name of the profile that there is without a list of profiles, and with an empty one.
const DEFAULT: &str = "default";

/// For how many terms there is room where the document does not say.
const TERMS: u64 = 8192;

/// There are more circuits than terms; or the circuit has the session or the address of an earlier one, an address of no
/// pool, or a profile that there is not.
pub(crate) fn breaks_circuit(document: &Value, key: Key) -> bool
    ensures { IsTrue result ↔ IsBadCircuit (view document.now) key }
{
    match key {
        Key::Whole(table) => are_too_many(document, table),
        Key::Of(field, place) => is_bad_circuit_at(document, field, place),
    }
}

fn are_too_many(document: &Value, table: Table) -> bool
    ensures { IsTrue result ↔ IsBadCircuit (view document.now) (Key.Whole table) }
{
    match table {
        Table::Static => are_more_than_terms(document),
        _ => false,
    }
}

fn is_bad_circuit_at(document: &Value, field: Field, place: usize) -> bool
    ensures { IsTrue result ↔ IsBadCircuit (view document.now) (Key.Of field place) }
{
    match field {
        Field::StaticSession => shares_session(document, place),
        Field::StaticAddress => has_bad_address(document, place),
        Field::StaticProfile => names_no_profile(document, place),
        _ => false,
    }
}

fn has_bad_address(document: &Value, place: usize) -> bool
    ensures { IsTrue result ↔ SharesAddress (view document.now) place ⊎ IsOutside (view document.now) place }
{
    shares_address(document, place) || is_outside(document, place)
}

fn are_more_than_terms(document: &Value) -> bool
    ensures { IsTrue result ↔ IsBadCircuit (view document.now) (Key.Whole Table.Static) }
{
    let terms = natural_at(document, Key::Of(Field::GatewayTerms, 0), TERMS);
    terms < entries_of(document, Table::Static) as u64
}

// An earlier circuit has the session of the one at this place.
fn shares_session(document: &Value, place: usize) -> bool
    ensures { IsTrue result ↔ SharesSession (view document.now) place }
{
    match known_number(document, Field::StaticSession, place) {
        Some(number) => has_session_below(document, place, number),
        None => false,
    }
}

// The number at the field.
fn known_number(document: &Value, field: Field, place: usize) -> Option<i64>
    ensures found { IfSome result (λ n. HasNumber (view document.now) field place n) }
    ensures none { IfNone result ((n : ℤ) → ¬ HasNumber (view document.now) field place n) }
{
    integer_at(document, Key::Of(field, place))
}

fn is_number(document: &Value, field: Field, place: usize, number: i64) -> bool
    ensures { IsTrue result ↔ HasNumber (view document.now) field place number }
{
    match known_number(document, field, place) {
        Some(other) => other == number,
        None => false,
    }
}

// One of the first circuits, this many, has the session.
fn has_session_below(document: &Value, many: usize, number: i64) -> bool
    ensures { IsTrue result ↔ HasSessionBelow (view document.now) many number }
{
    for place in 0..many {
        if is_number(document, Field::StaticSession, place, number) {
            return true;
        }
    }
    false
}

// An earlier circuit has the address of the one at this place.
fn shares_address(document: &Value, place: usize) -> bool
    ensures { IsTrue result ↔ SharesAddress (view document.now) place }
{
    match known_text(document, Key::Of(Field::StaticAddress, place)) {
        Some(text) => stands_below(document, Field::StaticAddress, place, text),
        None => false,
    }
}

// No pool has the address of the circuit at this place.
fn is_outside(document: &Value, place: usize) -> bool
    ensures { IsTrue result ↔ IsOutside (view document.now) place }
{
    match address_at(document, Key::Of(Field::StaticAddress, place)) {
        Some(address) => {
            let pools = entries_of(document, Table::Pool);
            !is_pooled_below(document, pools, address)
        }
        None => false,
    }
}

// One of the first pools, this many, has the address.
fn is_pooled_below(document: &Value, many: usize, address: Ip4) -> bool
    ensures { IsTrue result ↔ IsPooledBelow (view document.now) many address }
{
    for place in 0..many {
        if has_pool_at(document, place, address) {
            return true;
        }
    }
    false
}

// The pool at this place has the address.
fn has_pool_at(document: &Value, place: usize, address: Ip4) -> bool
    ensures { IsTrue result ↔ (r : Addresses) × IsRangeAt (view document.now) place r × InRange r address.0 }
{
    match range_at(document, place) {
        Some(range) => contains(range, address),
        None => false,
    }
}

// No profile has the name that the circuit at this place says.
fn names_no_profile(document: &Value, place: usize) -> bool
    ensures { IsTrue result ↔ NamesNoProfile (view document.now) place }
{
    match known_text(document, Key::Of(Field::StaticProfile, place)) {
        Some(name) => !is_profile_name(document, name),
        None => false,
    }
}

// A profile has this name.
fn is_profile_name(document: &Value, name: &str) -> bool
    ensures { IsTrue result ↔ IsProfileName (view document.now) name.now }
{
    let profiles = entries_of(document, Table::Profile);
    stands_below(document, Field::ProfileName, profiles, name) || (profiles == 0 && name == DEFAULT)
}
