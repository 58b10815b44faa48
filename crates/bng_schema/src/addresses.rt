//! Addresses, alone and in lists.
ghost use Rattle.std.specs.Prelude.{◌≡◌, IfSome, IfNone};
ghost use Rattle.arrayvec.specs.ArrayVec.{ArrayVec as Few};
ghost use Rattle.toml.specs.Data.{array};
ghost use Rattle.toml.specs.View.{view, items_view};
ghost use Rattle.bng_base.specs.declared.address.Ip4.{Ip4 as Address};
ghost use Rattle.bng_schema.specs.Forms.{AreAddresses, IsAddress};

use crate::peer::address_of;
use arrayvec::ArrayVec;
use bng_base::Ip4;
use toml::Value;

/// The address whose text the value is.
pub(crate) fn address_in(value: &Value) -> Option<Ip4>
    ensures found { IfSome result (λ a. IsAddress (view value.now) a) }
    ensures none { IfNone result ((a : Address) → ¬ IsAddress (view value.now) a) }
{
    match value.as_str() {
        Some(text) => address_of(text),
        None => None,
    }
}

/// The addresses of a list of so many texts, at least and at most.
pub(crate) fn addresses_of<const MOST: usize>(
    value: &Value,
    least: usize,
) -> Option<ArrayVec<Ip4, MOST>>
    ensures found { IfSome result (λ s. AreAddresses least MOST (view value.now) s) }
    ensures none { IfNone result ((s : Few Address) → ¬ AreAddresses least MOST (view value.now) s) }
{
    match value.as_array() {
        Some(list) => addresses_in(list.as_slice(), least),
        None => None,
    }
}

fn addresses_in<const MOST: usize>(list: &[Value], least: usize) -> Option<ArrayVec<Ip4, MOST>>
    ensures found { IfSome result (λ s. AreAddresses least MOST (array (items_view list.now)) s) }
    ensures none { IfNone result ((s : Few Address) → ¬ AreAddresses least MOST (array (items_view list.now)) s) }
{
    if list.len() < least || list.len() > MOST {
        return None;
    }
    let mut addresses = ArrayVec::new();
    for value in list {
        let address = address_in(value)?;
        addresses.push(address);
    }
    Some(addresses)
}
