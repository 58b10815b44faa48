//! What stands at a key.
ghost use Rattle.std.specs.Prelude.{◌≡◌, ℕ, Some, option_map, option_and_then};
ghost use Rattle.toml.specs.Data.{as_str, as_integer, as_array};
ghost use Rattle.toml.specs.View.{view};
ghost use Rattle.bng_schema.specs.Keys.{path_of, entry_path, value_at, entries, count_of};
ghost use Rattle.bng_schema.specs.Forms.{natural_or};

use crate::keys::{Field, Key, Table};
use crate::table::{is_listed, row_of};
use toml::Value;

/// What stands at the key.
pub fn value_of(document: &Value, key: Key) -> Option<&Value>
    ensures { option_map (λ v. view v.now) result ≡ value_at (path_of key) (view document.now) }
{
    match key {
        Key::Whole(table) => value_of_table(document, table),
        Key::Of(field, place) => value_of_field(document, field, place),
    }
}

fn value_of_table(document: &Value, table: Table) -> Option<&Value>
    ensures { option_map (λ v. view v.now) result ≡ value_at (path_of (Key.Whole table)) (view document.now) }
{
    let row = row_of(Key::Whole(table));
    document.get(row.name)
}

fn value_of_field(document: &Value, field: Field, place: usize) -> Option<&Value>
    ensures { option_map (λ v. view v.now) result ≡ value_at (path_of (Key.Of field place)) (view document.now) }
{
    let row = row_of(Key::Of(field, place));
    match entry_of(document, row.table, place) {
        Some(entry) => entry.get(row.name),
        None => None,
    }
}

/// The entry of the table at the place, from 0. A table that is no list is its own entry.
pub(crate) fn entry_of(document: &Value, table: Table, place: usize) -> Option<&Value>
    ensures { option_map (λ v. view v.now) result ≡ value_at (entry_path table place) (view document.now) }
{
    let listed = is_listed(table);
    match value_of_table(document, table) {
        Some(value) => {
            if listed {
                value.get(place)
            } else {
                Some(value)
            }
        }
        None => None,
    }
}

/// How many entries the table has: as many as items where it is to be a list, none where no list stands there; and else one
/// where something stands there.
pub fn entries_of(document: &Value, table: Table) -> usize
    ensures { result ≡ entries (view document.now) table }
{
    let listed = is_listed(table);
    match value_of_table(document, table) {
        Some(value) => { if listed { item_count(value) } else { 1 } }
        None => 0,
    }
}

// How many items the value has, if it is a list.
fn item_count(value: &Value) -> usize
    ensures { result ≡ count_of (as_array (view value.now)) }
{
    match value.as_array() {
        Some(list) => list.len(),
        None => 0,
    }
}

/// The text at the key.
pub fn text_at(document: &Value, key: Key) -> Option<&str>
    ensures { option_map (λ s. s.now) result ≡ option_and_then as_str (value_at (path_of key) (view document.now)) }
{
    match value_of(document, key) {
        Some(value) => value.as_str(),
        None => None,
    }
}

/// The integer at the key.
pub fn integer_at(document: &Value, key: Key) -> Option<i64>
    ensures { result ≡ option_and_then as_integer (value_at (path_of key) (view document.now)) }
{
    match value_of(document, key) {
        Some(value) => value.as_integer(),
        None => None,
    }
}

/// The number at the key, or the other one where there is none.
pub(crate) fn natural_at(document: &Value, key: Key, other: u64) -> u64
    ensures { result ≡ natural_or other (option_and_then as_integer (value_at (path_of key) (view document.now))) }
{
    match integer_at(document, key) {
        Some(number) => natural(number, other),
        None => other,
    }
}

fn natural(number: i64, other: u64) -> u64
    ensures { result ≡ natural_or other (Some number) }
{
    if number < 0 { other } else { number as u64 }
}
