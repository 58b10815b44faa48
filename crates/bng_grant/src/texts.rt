//! The attributes whose value is a text.
ghost use Rattle.std.specs.Prelude.{◌≡◌, find};
ghost use Rattle.std.specs.Option.{option_map};
ghost use Rattle.bng_radius_wire.specs.Attributes.{field, fields};
ghost use Rattle.bng_grant.specs.Grants.{is_text, text_of};

use bng_radius_wire::Attribute;

// The first attribute of this type whose value has an octet at least.
fn first_text<'a>(attributes: &[Attribute<'a>], kind: u8) -> Option<Attribute<'a>>
    ensures { option_map field result ≡ find (is_text kind) (fields attributes.now) }
{
    attributes
        .iter()
        .copied()
        .find(|a| a.kind == kind && !a.value.is_empty())
}

// Its value.
pub(crate) fn text_of<'a>(attributes: &[Attribute<'a>], kind: u8) -> Option<&'a [u8]>
    ensures { option_map (λ v. v.now) result ≡ text_of kind (fields attributes.now) }
{
    first_text(attributes, kind).map(|found| found.value)
}
