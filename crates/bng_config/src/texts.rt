//! What is written of a fault, and of an unknown name.
ghost use Rattle.std.specs.Prelude.{◌≡◌, ◌≤◌, ◌++◌, ◌∷◌, [], ◌^◌, ◌<◌, length, codes, IfOk};
ghost use Rattle.std.specs.Fmt.{decimal};
ghost use Rattle.arrayvec.specs.ArrayString.{array_string_len};
ghost use Rattle.bng_schema.specs.declared.keys.Table.{Table as Kind};
ghost use Rattle.bng_schema.specs.Keys.{row, table_row, entry_path};
ghost use Rattle.bng_schema.specs.Texts.{key_text, path_text, unknown_text};
ghost use Rattle.bng_schema.specs.Checks.{mention_of};
ghost use Rattle.bng_config.specs.Texts.{fault_text as text_of, rule_text as name_of};

use crate::fault::Fault;
use arrayvec::ArrayString;
use bng_base::Listed;
use bng_schema::{Key, Rule, Table, Unknown, is_listed, row_of};
use itoa::Buffer;
use std::alloc::{AllocError, Global};

/// What is written of a fault: the rule and the key, or the rule and then the name that is unknown.
#[derive(Drop)]
pub struct FaultText<'a> {
    /// `C1 text`, `C3 ` before a name, or `C14 static.1.session`.
    pub front: ArrayString<64>,
    /// The name that is unknown, else nothing.
    pub name: &'a [u8],
}

/// The rule that is broken and the key or the name that breaks it, as `C6 static.1.session` or `C3 pool.2.speed`, with the
/// places of entries written from 1 on.
pub fn fault_text(fault: &Fault) -> FaultText<'_>
    ensures { result.front.bytes ++ result.name.now ≡ text_of fault.now }
{
    match fault {
        Fault::TooLong => plain("C1 text"),
        Fault::NotToml => plain("C2 text"),
        Fault::Unknown(name) => FaultText {
            front: front_of("C3 "),
            name: name.as_slice(),
        },
        Fault::Broken(rule, key) => FaultText {
            front: broken_text(*rule, *key),
            name: &[],
        },
    }
}

fn plain(text: &'static str) -> FaultText<'static>
    requires { length text.now ≤ 64 }
    ensures { result.front.bytes ++ result.name.now ≡ text.now }
{
    FaultText {
        front: front_of(text),
        name: &[],
    }
}

fn front_of(text: &str) -> ArrayString<64>
    requires { length text.now ≤ 64 }
    ensures text { result.bytes ≡ text.now }
    ensures long { array_string_len result ≡ length text.now }
{
    let mut front = ArrayString::new();
    front.push_str(text);
    front
}

fn broken_text(rule: Rule, key: Key) -> ArrayString<64>
    ensures { result.bytes ≡ name_of rule ++ key_text key }
{
    let mut text = front_of(rule_text(rule));
    push_key(&mut text, key);
    text
}

fn rule_text(rule: Rule) -> &'static str
    ensures text { result.now ≡ name_of rule }
    ensures short { length result.now ≤ 4 }
{
    match rule {
        Rule::C4 => "C4 ",
        Rule::C5 => "C5 ",
        Rule::C6 => "C6 ",
        Rule::C7 => "C7 ",
        Rule::C8 => "C8 ",
        Rule::C9 => "C9 ",
        Rule::C10 => "C10 ",
        Rule::C11 => "C11 ",
        Rule::C12 => "C12 ",
        Rule::C13 => "C13 ",
        Rule::C14 => "C14 ",
    }
}

fn push_key(text: &mut ArrayString<64>, key: Key)
    requires { array_string_len text.old ≤ 4 }
    ensures { text.new.bytes ≡ text.old.bytes ++ key_text key }
{
    let table = row_of(key).table;
    match key {
        Key::Whole(_) => push_name(text, key),
        Key::Of(_, place) => {
            push_entry(text, table, place);
            push_name(text, key);
        }
    }
}

// The name of the key in its table.
fn push_name(text: &mut ArrayString<64>, key: Key)
    requires { array_string_len text.old ≤ 53 }
    ensures { text.new.bytes ≡ text.old.bytes ++ (row key).name }
{
    text.push_str(name_in_table(key));
}

fn name_in_table(key: Key) -> &'static str
    ensures name { result.now ≡ (row key).name }
    ensures short { length result.now ≤ 11 }
{
    row_of(key).name
}

// The table, with the place of the entry where it is a list, and a dot.
fn push_entry(text: &mut ArrayString<64>, table: Table, place: usize)
    requires { array_string_len text.old ≤ 4 }
    ensures text { text.new.bytes ≡ text.old.bytes ++ path_text (entry_path table place) ++ codes "." }
    ensures long { array_string_len text.new ≤ 53 }
{
    text.push_str(table_name(table));
    if is_listed(table) {
        let mut buffer = Buffer::new();
        let number = buffer.format(place as u128 + 1);
        text.push_str(".");
        text.push_str(number);
    }
    text.push_str(".");
}

fn table_name(table: Table) -> &'static str
    ensures name { result.now ≡ (table_row table).name }
    ensures short { length result.now ≤ 7 }
{
    row_of(Key::Whole(table)).name
}

/// What is written of an unknown name.
pub(crate) fn written(alloc: Global, unknown: Unknown) -> Result<Listed<u8>, AllocError>
    ensures { IfOk result (λ t. t ≡ unknown_text (mention_of unknown.entry)) }
{
    let mut text = Vec::new(alloc);
    if let Some((table, place)) = unknown.entry {
        let mut entry = ArrayString::new();
        push_entry(&mut entry, table, place);
        text.extend_from_slice(entry.as_bytes())?;
    }
    text.extend_from_slice(unknown.name.as_bytes())?;
    Ok(Listed::of(text))
}
