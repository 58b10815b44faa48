//! The first rule that a document breaks.
ghost use Rattle.std.specs.Prelude.{map, IfSome, IfNone};
ghost use Rattle.std.specs.List.{flat_map};
ghost use Rattle.toml.specs.View.{view};
ghost use Rattle.bng_schema.specs.First.{NoneOf, IsFirstOf};
ghost use Rattle.bng_schema.specs.Keys.{entry_keys, table_keys, of_entries, entries, keys};
ghost use Rattle.bng_schema.specs.Rules.{Breaks};
ghost use Rattle.bng_schema.specs.Checks.{rule_checks, IsBroken, IsFirstBroken, IsSound};

use crate::find::entries_of;
use crate::keys::{Field, Key, Table};
use crate::rule::{Rule, breaks};
use crate::table::{TABLES, fields_of};
use toml::Value;

/// The rules, in the order in which they are looked at.
const RULES: &[Rule] = &[
    Rule::C4,
    Rule::C5,
    Rule::C6,
    Rule::C7,
    Rule::C8,
    Rule::C9,
    Rule::C10,
    Rule::C11,
    Rule::C12,
    Rule::C13,
    Rule::C14,
];

/// The lowest rule that the document breaks, at the first key at which it does. `None` comes exactly where it breaks none.
#[tactic(auto, unfolding(crate::specs::Checks::checks))]
pub fn first_broken(document: &Value) -> Option<(Rule, Key)>
    ensures found { IfSome result (λ c. IsFirstBroken (view document.now) c.0 c.1) }
    ensures none { IfNone result (IsSound (view document.now)) }
{
    first_of_rules(document, RULES)
}

fn first_of_rules(document: &Value, rules: &[Rule]) -> Option<(Rule, Key)>
    ensures found { IfSome result (λ c. IsFirstOf (IsBroken (view document.now)) (flat_map (rule_checks (view document.now)) rules.now) c) }
    ensures none { IfNone result (NoneOf (IsBroken (view document.now)) (flat_map (rule_checks (view document.now)) rules.now)) }
{
    for rule in rules {
        if let Some(key) = first_of_rule(document, *rule) {
            return Some((*rule, key));
        }
    }
    None
}

#[tactic(auto, unfolding(crate::specs::Keys::keys))]
fn first_of_rule(document: &Value, rule: Rule) -> Option<Key>
    ensures found { IfSome result (λ k. IsFirstOf (Breaks (view document.now) rule) (keys (view document.now)) k) }
    ensures none { IfNone result (NoneOf (Breaks (view document.now) rule) (keys (view document.now))) }
{
    first_of_tables(document, rule, TABLES)
}

fn first_of_tables(document: &Value, rule: Rule, tables: &[Table]) -> Option<Key>
    ensures found { IfSome result (λ k. IsFirstOf (Breaks (view document.now) rule) (flat_map (table_keys (view document.now)) tables.now) k) }
    ensures none { IfNone result (NoneOf (Breaks (view document.now) rule) (flat_map (table_keys (view document.now)) tables.now)) }
{
    for table in tables {
        if let Some(key) = first_of_table(document, rule, *table) {
            return Some(key);
        }
    }
    None
}

// The table itself comes before its entries.
fn first_of_table(document: &Value, rule: Rule, table: Table) -> Option<Key>
    ensures found { IfSome result (λ k. IsFirstOf (Breaks (view document.now) rule) (table_keys (view document.now) table) k) }
    ensures none { IfNone result (NoneOf (Breaks (view document.now) rule) (table_keys (view document.now) table)) }
{
    if breaks(document, rule, Key::Whole(table)) {
        Some(Key::Whole(table))
    } else {
        first_of_entries(document, rule, table)
    }
}

fn first_of_entries(document: &Value, rule: Rule, table: Table) -> Option<Key>
    ensures found { IfSome result (λ k. IsFirstOf (Breaks (view document.now) rule) (of_entries (entry_keys table) (entries (view document.now) table)) k) }
    ensures none { IfNone result (NoneOf (Breaks (view document.now) rule) (of_entries (entry_keys table) (entries (view document.now) table))) }
{
    let fields = fields_of(table);
    for place in 0..entries_of(document, table) {
        if let Some(key) = first_of_fields(document, rule, place, fields) {
            return Some(key);
        }
    }
    None
}

fn first_of_fields(document: &Value, rule: Rule, place: usize, fields: &[Field]) -> Option<Key>
    ensures found { IfSome result (λ k. IsFirstOf (Breaks (view document.now) rule) (map (λ f. Key.Of f place) fields.now) k) }
    ensures none { IfNone result (NoneOf (Breaks (view document.now) rule) (map (λ f. Key.Of f place) fields.now)) }
{
    for field in fields {
        if breaks(document, rule, Key::Of(*field, place)) {
            return Some(Key::Of(*field, place));
        }
    }
    None
}
