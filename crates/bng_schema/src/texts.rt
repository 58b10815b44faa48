//! Texts of a wrong length, or with an octet outside their set.
ghost use Rattle.std.specs.Prelude.{◌↔◌, IsTrue, Any};
ghost use Rattle.toml.specs.View.{view};
ghost use Rattle.bng_schema.specs.Names.{IsGatewayName, IsLabelName, IsShortText};
ghost use Rattle.bng_schema.specs.Forms.{HasWrongText, HasWrongItem, HasBadText};

use crate::keys::Form;
use crate::names::{is_label, is_name, is_short};
use toml::Value;

/// The most octets of the name of a service.
const MOST: u64 = 64;

/// The value is a text, or a list with a text, that is too long, too short, or has an octet that the form does not allow.
pub(crate) fn has_bad_text(form: Form, value: &Value) -> bool
    ensures { IsTrue result ↔ HasBadText form (view value.now) }
{
    match form {
        Form::PrintableText => is_wrong_name(value),
        Form::LabelText => is_wrong_label(value),
        Form::OctetText(most) => is_wrong_text(value, most),
        Form::ServiceList => has_wrong_service(value),
        _ => false,
    }
}

fn is_wrong_name(value: &Value) -> bool
    ensures { IsTrue result ↔ HasWrongText IsGatewayName (view value.now) }
{
    match value.as_str() {
        Some(text) => !is_name(text.as_bytes()),
        None => false,
    }
}

fn is_wrong_label(value: &Value) -> bool
    ensures { IsTrue result ↔ HasWrongText IsLabelName (view value.now) }
{
    match value.as_str() {
        Some(text) => !is_label(text.as_bytes()),
        None => false,
    }
}

fn is_wrong_text(value: &Value, most: u64) -> bool
    ensures { IsTrue result ↔ HasWrongText (IsShortText most) (view value.now) }
{
    match value.as_str() {
        Some(text) => !is_short(text.as_bytes(), most),
        None => false,
    }
}

fn has_wrong_service(value: &Value) -> bool
    ensures { IsTrue result ↔ HasWrongItem (IsShortText 64) (view value.now) }
{
    match value.as_array() {
        Some(list) => one_is_wrong(list.as_slice()),
        None => false,
    }
}

fn one_is_wrong(list: &[Value]) -> bool
    ensures { IsTrue result ↔ Any (λ v. HasWrongText (IsShortText 64) (view v)) list.now }
{
    list.iter().any(|service| is_wrong_text(service, MOST))
}
