//! Values that no two keys may both have.
ghost use Rattle.std.specs.Prelude.{◌≡◌, ◌↔◌, ℕ, List, IsTrue, IfSome, IfNone};
ghost use Rattle.toml.specs.View.{view};
ghost use Rattle.bng_schema.specs.Repeats.{HasText, StandsBelow, StandsEarlier, IsRepeated, IsEndBeforeAccess, IsEndBeforeAuth, IsEndBeforeAcct, IsEndBeforeTunnel, IsEndBeforeCoa};

use crate::find::{entries_of, text_at};
use crate::keys::{Field, Key, Table};
use toml::Value;

/// What stands at the key stands at an earlier one from which it must differ.
pub(crate) fn breaks_repeated(document: &Value, key: Key) -> bool
    ensures { IsTrue result ↔ IsRepeated (view document.now) key }
{
    match key {
        Key::Whole(_) => false,
        Key::Of(field, place) => is_repeated_at(document, field, place),
    }
}

fn is_repeated_at(document: &Value, field: Field, place: usize) -> bool
    ensures { IsTrue result ↔ IsRepeated (view document.now) (Key.Of field place) }
{
    match known_text(document, Key::Of(field, place)) {
        Some(text) => stands_earlier(document, field, place, text),
        None => false,
    }
}

/// The text at the key.
pub fn known_text(document: &Value, key: Key) -> Option<&str>
    ensures found { IfSome result (λ s. HasText (view document.now) key s.now) }
    ensures none { IfNone result ((text : List ℕ) → ¬ HasText (view document.now) key text) }
{
    text_at(document, key)
}

/// The text stands at the key.
pub(crate) fn is_text(document: &Value, key: Key, text: &str) -> bool
    ensures { IsTrue result ↔ HasText (view document.now) key text.now }
{
    match known_text(document, key) {
        Some(other) => other == text,
        None => false,
    }
}

/// One of the first entries, this many, has the text at the field.
pub(crate) fn stands_below(document: &Value, field: Field, many: usize, text: &str) -> bool
    ensures { IsTrue result ↔ StandsBelow (view document.now) field many text.now }
{
    for place in 0..many {
        if is_text(document, Key::Of(field, place), text) {
            return true;
        }
    }
    false
}

// An earlier key of those that may not have one value has the text.
fn stands_earlier(document: &Value, field: Field, place: usize, text: &str) -> bool
    ensures { IsTrue result ↔ StandsEarlier (view document.now) field place text.now }
{
    match field {
        Field::ControlLocal => is_text(document, Key::Of(Field::CoreLocal, 0), text),
        Field::AccessLocal => is_end_before_port(document, place, text),
        Field::RadiusAuthLocal => is_end_before_auth(document, text),
        Field::RadiusAcctLocal => is_end_before_acct(document, text),
        Field::TunnelLocal => is_end_before_tunnel(document, text),
        Field::LacIp => stands_below(document, Field::LacIp, place, text),
        Field::CoaLocal => is_end_before_coa(document, text),
        Field::PoolName => stands_below(document, Field::PoolName, place, text),
        Field::ProfileName => stands_below(document, Field::ProfileName, place, text),
        _ => false,
    }
}

// The text is that of an end that comes before the access ports.
fn is_end_before_access(document: &Value, text: &str) -> bool
    ensures { IsTrue result ↔ IsEndBeforeAccess (view document.now) text.now }
{
    is_text(document, Key::Of(Field::CoreLocal, 0), text)
        || is_text(document, Key::Of(Field::ControlLocal, 0), text)
}

// The text is that of an end that comes before that of the access port at this place.
fn is_end_before_port(document: &Value, place: usize, text: &str) -> bool
    ensures { IsTrue result ↔ StandsEarlier (view document.now) Field.AccessLocal place text.now }
{
    is_end_before_access(document, text) || stands_below(document, Field::AccessLocal, place, text)
}

// The text is that of an end that comes before those of RADIUS.
fn is_end_before_auth(document: &Value, text: &str) -> bool
    ensures { IsTrue result ↔ IsEndBeforeAuth (view document.now) text.now }
{
    let ports = entries_of(document, Table::Access);
    is_end_before_access(document, text) || stands_below(document, Field::AccessLocal, ports, text)
}

fn is_end_before_acct(document: &Value, text: &str) -> bool
    ensures { IsTrue result ↔ IsEndBeforeAcct (view document.now) text.now }
{
    is_end_before_auth(document, text)
        || is_text(document, Key::Of(Field::RadiusAuthLocal, 0), text)
}

// The text is that of an end that comes before that of L2TP.
fn is_end_before_tunnel(document: &Value, text: &str) -> bool
    ensures { IsTrue result ↔ IsEndBeforeTunnel (view document.now) text.now }
{
    is_end_before_acct(document, text)
        || is_text(document, Key::Of(Field::RadiusAcctLocal, 0), text)
}

// The text is that of an end that comes before that of RFC 5176.
fn is_end_before_coa(document: &Value, text: &str) -> bool
    ensures { IsTrue result ↔ IsEndBeforeCoa (view document.now) text.now }
{
    is_end_before_tunnel(document, text) || is_text(document, Key::Of(Field::TunnelLocal, 0), text)
}
