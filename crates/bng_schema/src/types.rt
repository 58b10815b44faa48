//! The types of values.
ghost use Rattle.std.specs.Prelude.{◌↔◌, All, IsTrue};
ghost use Rattle.toml.specs.View.{view};
ghost use Rattle.bng_base.specs.declared.address.Mac.{Mac as Hardware};
ghost use Rattle.bng_base.specs.declared.address.Peer.{Peer as End};
ghost use Rattle.bng_schema.specs.Forms.{HasType, IsText, IsInteger, IsArray, IsListOf, IsAddressText, IsPeer, IsMac};

use crate::addresses::address_in;
use crate::keys::Form;
use crate::mac::mac_in;
use crate::peer::peer_in;
use toml::Value;

/// The value is of the type of the form, and a text or an item that is to be an address, a peer or a MAC is one.
pub(crate) fn has_type(form: Form, value: &Value) -> bool
    ensures { IsTrue result ↔ HasType form (view value.now) }
{
    match form {
        Form::OneTable => true,
        Form::TableList(_, _) => is_array(value),
        Form::PrintableText => is_text(value),
        Form::LabelText => is_text(value),
        Form::OctetText(_) => is_text(value),
        Form::AnyText => is_text(value),
        Form::AddressText => is_address(value),
        Form::PeerText => is_peer(value),
        Form::MacText => is_mac(value),
        Form::Number(_, _) => is_integer(value),
        Form::PortNumber => is_integer(value),
        Form::SessionNumber => is_integer(value),
        Form::ServiceList => is_text_list(value),
        Form::KindList => is_text_list(value),
        Form::AddressList(_, _) => is_address_list(value),
    }
}

fn is_text(value: &Value) -> bool
    ensures { IsTrue result ↔ IsText (view value.now) }
{
    value.is_str()
}

fn is_integer(value: &Value) -> bool
    ensures { IsTrue result ↔ IsInteger (view value.now) }
{
    value.is_integer()
}

fn is_array(value: &Value) -> bool
    ensures { IsTrue result ↔ IsArray (view value.now) }
{
    value.is_array()
}

fn is_address(value: &Value) -> bool
    ensures { IsTrue result ↔ IsAddressText (view value.now) }
{
    address_in(value).is_some()
}

fn is_peer(value: &Value) -> bool
    ensures { IsTrue result ↔ (p : End) × IsPeer (view value.now) p }
{
    peer_in(value).is_some()
}

fn is_mac(value: &Value) -> bool
    ensures { IsTrue result ↔ (m : Hardware) × IsMac (view value.now) m }
{
    mac_in(value).is_some()
}

fn is_text_list(value: &Value) -> bool
    ensures { IsTrue result ↔ IsListOf IsText (view value.now) }
{
    match value.as_array() {
        Some(list) => are_texts(list.as_slice()),
        None => false,
    }
}

fn are_texts(list: &[Value]) -> bool
    ensures { IsTrue result ↔ All (λ v. IsText (view v)) list.now }
{
    list.iter().all(|value| is_text(value))
}

fn is_address_list(value: &Value) -> bool
    ensures { IsTrue result ↔ IsListOf IsAddressText (view value.now) }
{
    match value.as_array() {
        Some(list) => are_addresses(list.as_slice()),
        None => false,
    }
}

fn are_addresses(list: &[Value]) -> bool
    ensures { IsTrue result ↔ All (λ v. IsAddressText (view v)) list.now }
{
    list.iter().all(|value| is_address(value))
}
