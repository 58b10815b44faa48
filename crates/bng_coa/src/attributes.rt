ghost use Rattle.std.specs.Prelude.{◌≡◌, find};
ghost use Rattle.std.specs.Option.{option_map};
ghost use Rattle.bng_radius_wire.specs.Attributes.{field, fields};
ghost use Rattle.bng_coa.specs.Kinds.{has_kind, has_some};

use bng_radius_wire::Attribute;

// Whether one of the attributes is of this type.
pub(crate) fn has(attributes: &[Attribute<'_>], kind: u8) -> bool
    ensures { result ≡ has_some kind (fields attributes.now) }
{
    attributes.iter().any(|a| a.kind == kind)
}

// The first attribute of this type.
pub(crate) fn first<'a>(attributes: &[Attribute<'a>], kind: u8) -> Option<Attribute<'a>>
    ensures { option_map field result ≡ find (has_kind kind) (fields attributes.now) }
{
    attributes.iter().copied().find(|a| a.kind == kind)
}
