//! The first name of a document that there is not.
ghost use Rattle.std.specs.Prelude.{◌↔◌, IsTrue, IfSome, IfNone, Some, Any};
ghost use Rattle.std.specs.List.{flat_map};
ghost use Rattle.toml.specs.View.{view, table_view};
ghost use Rattle.bng_schema.specs.First.{NoneOf, IsFirstOf};
ghost use Rattle.bng_schema.specs.Checks.{member_names, names_in, entry_mentions, table_mentions, HasField, HasTable, IsNamed, IsUnknown, IsUnknownIn, IsFirstUnknown, IsKnown, mention_of};

use crate::find::{entries_of, entry_of};
use crate::keys::{Field, Key, Table};
use crate::table::{TABLES, fields_of, row_of};
use toml::Value;

/// A name that there is not: a key of the entry of a table at a place, from 0, or a table of the document.
#[derive(Clone, Copy)]
pub struct Unknown<'a> {
    pub entry: Option<(Table, usize)>,
    pub name: &'a str,
}

/// The first name that no key of its table has, table by table and entry by entry, or else the first that no table has. Where
/// an entry or the document has several, the first is that whose octets come first. `None` comes exactly where all are known.
pub fn first_unknown(document: &Value) -> Option<Unknown<'_>>
    ensures found { IfSome result (λ u. IsFirstUnknown (view document.now) (mention_of u)) }
    ensures none { IfNone result (IsKnown (view document.now)) }
{
    match unknown_in_tables(document, TABLES) {
        Some(unknown) => Some(unknown),
        None => match unknown_in(None, document) {
            Some(name) => Some(Unknown { entry: None, name }),
            None => None,
        },
    }
}

fn unknown_in_tables<'a>(document: &'a Value, tables: &[Table]) -> Option<Unknown<'a>>
    ensures found { IfSome result (λ u. IsFirstOf IsUnknown (flat_map (table_mentions (view document.now)) tables.now) (mention_of u)) }
    ensures none { IfNone result (NoneOf IsUnknown (flat_map (table_mentions (view document.now)) tables.now)) }
{
    for table in tables {
        if let Some(unknown) = unknown_in_table(document, *table) {
            return Some(unknown);
        }
    }
    None
}

fn unknown_in_table(document: &Value, table: Table) -> Option<Unknown<'_>>
    ensures found { IfSome result (λ u. IsFirstOf IsUnknown (table_mentions (view document.now) table) (mention_of u)) }
    ensures none { IfNone result (NoneOf IsUnknown (table_mentions (view document.now) table)) }
{
    for place in 0..entries_of(document, table) {
        if let Some(unknown) = unknown_in_entry(document, table, place) {
            return Some(unknown);
        }
    }
    None
}

fn unknown_in_entry(document: &Value, table: Table, place: usize) -> Option<Unknown<'_>>
    ensures found { IfSome result (λ u. IsFirstOf IsUnknown (entry_mentions (view document.now) table place) (mention_of u)) }
    ensures none { IfNone result (NoneOf IsUnknown (entry_mentions (view document.now) table place)) }
{
    match entry_of(document, table, place) {
        Some(entry) => match unknown_in(Some(table), entry) {
            Some(name) => Some(Unknown {
                entry: Some((table, place)),
                name,
            }),
            None => None,
        },
        None => None,
    }
}

// The first name in the value that no key of the table has, or no table where none is given. Only a table has names.
fn unknown_in(of: Option<Table>, value: &Value) -> Option<&str>
    ensures found { IfSome result (λ n. IsFirstOf (IsUnknownIn of) (names_in (Some (view value.now))) n.now) }
    ensures none { IfNone result (NoneOf (IsUnknownIn of) (names_in (Some (view value.now)))) }
{
    match value.as_table() {
        Some(members) => unknown_member(of, members),
        None => None,
    }
}

fn unknown_member(of: Option<Table>, members: &toml::Table) -> Option<&str>
    ensures found { IfSome result (λ n. IsFirstOf (IsUnknownIn of) (member_names (table_view members.now)) n.now) }
    ensures none { IfNone result (NoneOf (IsUnknownIn of) (member_names (table_view members.now))) }
{
    for (key, _value) in members.iter() {
        let name = key.as_str();
        if is_unknown(of, name) {
            return Some(name);
        }
    }
    None
}

fn is_unknown(of: Option<Table>, name: &str) -> bool
    ensures { IsTrue result ↔ IsUnknownIn of name.now }
{
    match of {
        Some(table) => !has_field(table, name),
        None => !has_table(name),
    }
}

// A key of the table has the name.
fn has_field(table: Table, name: &str) -> bool
    ensures { IsTrue result ↔ HasField table name.now }
{
    one_field_is_named(fields_of(table), name)
}

// The place of the entry is of no account.
fn one_field_is_named(fields: &[Field], name: &str) -> bool
    ensures { IsTrue result ↔ Any (λ f. IsNamed (Key.Of f 0) name.now) fields.now }
{
    fields
        .iter()
        .any(|field| is_named(Key::Of(*field, 0), name))
}

fn has_table(name: &str) -> bool
    ensures { IsTrue result ↔ HasTable name.now }
{
    one_table_is_named(TABLES, name)
}

fn one_table_is_named(tables: &[Table], name: &str) -> bool
    ensures { IsTrue result ↔ Any (λ t. IsNamed (Key.Whole t) name.now) tables.now }
{
    tables
        .iter()
        .any(|table| is_named(Key::Whole(*table), name))
}

fn is_named(key: Key, name: &str) -> bool
    ensures { IsTrue result ↔ IsNamed key name.now }
{
    row_of(key).name == name
}
