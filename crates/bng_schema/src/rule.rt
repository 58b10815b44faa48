//! The rules that a document may break at a key.
ghost use Rattle.std.specs.Prelude.{◌≡◌, ◌↔◌, IsTrue, IsNone, None};
ghost use Rattle.toml.specs.View.{view};
ghost use Rattle.bng_schema.specs.Keys.{row, path_of, value_at};
ghost use Rattle.bng_schema.specs.Rules.{Breaks, IsMissing, HasOtherType, IsOutOfRange, HasWrongLength, IsWrongCount, IsNoWay};

use crate::circuits::breaks_circuit;
use crate::counts::has_wrong_count;
use crate::find::value_of;
use crate::keys::Key;
use crate::kinds::has_wrong_kinds;
use crate::lacs::breaks_lac;
use crate::numbers::has_number_outside;
use crate::ranges::breaks_range;
use crate::rates::breaks_rate;
use crate::repeats::breaks_repeated;
use crate::table::row_of;
use crate::texts::has_bad_text;
use crate::types::has_type;
use toml::Value;

/// A rule of the document, in the order in which the rules are looked at. They are told by these names.
#[derive(Clone, Copy)]
pub enum Rule {
    /// A table or a key that must be there is missing.
    C4,
    /// A value of another type, or a text outside its form.
    C5,
    /// A number outside its range.
    C6,
    /// A text of a wrong length, or with an octet outside its set.
    C7,
    /// A list that is too long, or an empty one that must have an item.
    C8,
    /// A way to authenticate that there is not, or one twice.
    C9,
    /// A value that an earlier key has, where each must have its own.
    C10,
    /// A pool that ends before it begins, overlaps an earlier one, has the gateway's own address, or leads to more than
    /// 262,144 addresses in all.
    C11,
    /// Only some of the three numbers of a direction, or both bursts 0.
    C12,
    /// An L2TP access concentrator where there is no tunnel.
    C13,
    /// A circuit whose address is in no pool, whose session or address another has, or whose profile there is not, or more
    /// circuits than there is room for terms.
    C14,
}

/// The document breaks the rule at the key.
pub fn breaks(document: &Value, rule: Rule, key: Key) -> bool
    ensures { IsTrue result ↔ Breaks (view document.now) rule key }
{
    match rule {
        Rule::C4 => is_missing(document, key),
        Rule::C5 => has_other_type(document, key),
        Rule::C6 => is_out_of_range(document, key),
        Rule::C7 => has_wrong_length(document, key),
        Rule::C8 => is_wrong_count(document, key),
        Rule::C9 => is_no_way(document, key),
        Rule::C10 => breaks_repeated(document, key),
        Rule::C11 => breaks_range(document, key),
        Rule::C12 => breaks_rate(document, key),
        Rule::C13 => breaks_lac(document, key),
        Rule::C14 => breaks_circuit(document, key),
    }
}

fn is_missing(document: &Value, key: Key) -> bool
    ensures { IsTrue result ↔ IsMissing (view document.now) key }
{
    match value_of(document, key) {
        Some(_) => false,
        None => row_of(key).needed,
    }
}

fn has_other_type(document: &Value, key: Key) -> bool
    ensures { IsTrue result ↔ HasOtherType (view document.now) key }
{
    match value_of(document, key) {
        Some(value) => !has_type(row_of(key).form, value),
        None => false,
    }
}

fn is_out_of_range(document: &Value, key: Key) -> bool
    ensures { IsTrue result ↔ IsOutOfRange (view document.now) key }
{
    match value_of(document, key) {
        Some(value) => has_number_outside(document, row_of(key).form, value),
        None => false,
    }
}

fn has_wrong_length(document: &Value, key: Key) -> bool
    ensures { IsTrue result ↔ HasWrongLength (view document.now) key }
{
    match value_of(document, key) {
        Some(value) => has_bad_text(row_of(key).form, value),
        None => false,
    }
}

fn is_wrong_count(document: &Value, key: Key) -> bool
    ensures { IsTrue result ↔ IsWrongCount (view document.now) key }
{
    match value_of(document, key) {
        Some(value) => has_wrong_count(row_of(key).form, value),
        None => false,
    }
}

fn is_no_way(document: &Value, key: Key) -> bool
    ensures { IsTrue result ↔ IsNoWay (view document.now) key }
{
    match value_of(document, key) {
        Some(value) => has_wrong_kinds(row_of(key).form, value),
        None => false,
    }
}
