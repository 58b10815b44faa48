//! Lists of a wrong number of items.
ghost use Rattle.std.specs.Prelude.{◌↔◌, IsTrue};
ghost use Rattle.toml.specs.View.{view};
ghost use Rattle.bng_schema.specs.Rules.{IsCount, HasWrongCount};

use crate::keys::Form;
use toml::Value;

/// The value is a list of more items than the form allows, or of fewer.
pub(crate) fn has_wrong_count(form: Form, value: &Value) -> bool
    ensures { IsTrue result ↔ HasWrongCount form (view value.now) }
{
    match value.as_array() {
        Some(list) => !is_count(form, list.len() as u64),
        None => false,
    }
}

fn is_count(form: Form, count: u64) -> bool
    ensures { IsTrue result ↔ IsCount form count }
{
    match form {
        Form::TableList(least, most) => least <= count && count <= most,
        Form::ServiceList => count <= 8,
        Form::KindList => 1 <= count && count <= 2,
        Form::AddressList(least, most) => least <= count && count <= most,
        _ => true,
    }
}
