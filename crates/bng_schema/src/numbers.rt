//! Numbers and their ranges.
ghost use Rattle.std.specs.Prelude.{◌≡◌, ◌≢◌, ◌↔◌, ◌≤◌, ℕ, pos, IsTrue, IfSome, IfNone};
ghost use Rattle.toml.specs.View.{view};
ghost use Rattle.bng_schema.specs.Names.{IsSessionOf};
ghost use Rattle.bng_schema.specs.Forms.{IsWithin, IsOfShards, IsInRange, HasNumberOutside, shards_of as shards_in, terms_of as terms_in};

use crate::find::{entries_of, natural_at};
use crate::keys::{Field, Form, Key, Table};
use toml::Value;

/// The value is a number outside the range of the form.
pub(crate) fn has_number_outside(document: &Value, form: Form, value: &Value) -> bool
    ensures { IsTrue result ↔ HasNumberOutside (view document.now) form (view value.now) }
{
    match value.as_integer() {
        Some(number) => !is_in_range(document, form, number),
        None => false,
    }
}

fn is_in_range(document: &Value, form: Form, number: i64) -> bool
    ensures { IsTrue result ↔ IsInRange (view document.now) form number }
{
    match form {
        Form::Number(least, most) => is_within(number, least, most),
        Form::PortNumber => is_port(document, number),
        Form::SessionNumber => is_of_shards(number, shards_of(document)),
        _ => true,
    }
}

// The number of an access port, from 1 on.
fn is_port(document: &Value, number: i64) -> bool
    ensures { IsTrue result ↔ IsInRange (view document.now) Form.PortNumber number }
{
    is_within(number, 1, entries_of(document, Table::Access) as u64)
}

fn is_within(number: i64, least: u64, most: u64) -> bool
    ensures { IsTrue result ↔ IsWithin least most number }
{
    within(number, least, most).is_some()
}

/// The number, where it is in this range.
pub(crate) fn within(number: i64, least: u64, most: u64) -> Option<u64>
    ensures found { IfSome result (λ n. (number ≡ pos n) × (least ≤ n) × (n ≤ most)) }
    ensures none { IfNone result ((n : ℕ) → least ≤ n → n ≤ most → number ≢ pos n) }
{
    if number < 0 {
        return None;
    }
    let number = number as u64;
    if least <= number && number <= most {
        Some(number)
    } else {
        None
    }
}

fn is_of_shards(number: i64, shards: u64) -> bool
    ensures { IsTrue result ↔ IsOfShards shards number }
{
    of_shards(number, shards).is_some()
}

// The number, where it is that of a session of one of this many shards.
fn of_shards(number: i64, shards: u64) -> Option<u64>
    ensures found { IfSome result (λ n. (number ≡ pos n) × IsSessionOf shards n) }
    ensures none { IfNone result ((n : ℕ) → IsSessionOf shards n → number ≢ pos n) }
{
    if number < 0 {
        return None;
    }
    let number = number as u64;
    let index = number % 1024;
    if number / 1024 < shards && 1 <= index && index <= 1022 {
        Some(number)
    } else {
        None
    }
}

/// How many shards there are: 4 where the document does not say.
pub fn shards_of(document: &Value) -> u64
    ensures { result ≡ shards_in (view document.now) }
{
    natural_at(document, Key::Of(Field::GatewayShards, 0), 4)
}

/// For how many terms there is room: 8,192 where the document does not say.
pub fn terms_of(document: &Value) -> u64
    ensures { result ≡ terms_in (view document.now) }
{
    natural_at(document, Key::Of(Field::GatewayTerms, 0), 8192)
}
