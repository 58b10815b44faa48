//! The names of the gateway, of its services, of pools and of profiles, and other texts of a few octets.
ghost use Rattle.std.specs.Prelude.{◌≡◌, ◌≤◌, ◌↔◌, ℕ, All, IsTrue, IfSome, IfNone, length};
ghost use Rattle.arrayvec.specs.ArrayVec.{ArrayVec as Few};
ghost use Rattle.toml.specs.Data.{array};
ghost use Rattle.toml.specs.View.{view, items_view};
ghost use Rattle.bng_schema.specs.Names.{IsPrintable, IsGatewayName, IsLabelOctet, IsLabelName, IsShortText};
ghost use Rattle.bng_schema.specs.Forms.{AreServices, IsOctets};

use arrayvec::ArrayVec;
use toml::Value;

/// The most services.
const MOST: usize = 8;

/// The text names a gateway: 1 to 64 printable octets of ASCII without space.
pub(crate) fn is_name(text: &[u8]) -> bool
    ensures { IsTrue result ↔ IsGatewayName text.now }
{
    is_short(text, 64) && is_printable(text)
}

/// The text as a name of the gateway.
pub(crate) fn name_of(text: &[u8]) -> Option<ArrayVec<u8, 64>>
    ensures found { IfSome result (λ n. (n.items ≡ text.now) × IsGatewayName text.now) }
    ensures none { IfNone result (¬ IsGatewayName text.now) }
{
    if is_printable(text) {
        octets_of(text)
    } else {
        None
    }
}

// All octets are printable, and none is a space.
fn is_printable(text: &[u8]) -> bool
    ensures { IsTrue result ↔ All IsPrintable text.now }
{
    text.iter().all(|octet| b'!' <= *octet && *octet <= b'~')
}

/// The text names a pool or a profile: 1 to 32 of `a` to `z`, `0` to `9`, `-` and `_`.
pub(crate) fn is_label(text: &[u8]) -> bool
    ensures { IsTrue result ↔ IsLabelName text.now }
{
    is_short(text, 32) && has_label_octets(text)
}

/// The text as a name of a pool or of a profile.
pub(crate) fn label_of(text: &[u8]) -> Option<ArrayVec<u8, 32>>
    ensures found { IfSome result (λ n. (n.items ≡ text.now) × IsLabelName text.now) }
    ensures none { IfNone result (¬ IsLabelName text.now) }
{
    if has_label_octets(text) {
        octets_of(text)
    } else {
        None
    }
}

// All octets are ones that such a name may have.
fn has_label_octets(text: &[u8]) -> bool
    ensures { IsTrue result ↔ All IsLabelOctet text.now }
{
    text.iter().all(|octet| is_label_octet(*octet))
}

fn is_label_octet(octet: u8) -> bool
    ensures { IsTrue result ↔ IsLabelOctet octet }
{
    match octet {
        b'a'..=b'z' | b'0'..=b'9' | b'-' | b'_' => true,
        _ => false,
    }
}

/// The text has 1 to so many octets.
pub(crate) fn is_short(text: &[u8], most: u64) -> bool
    ensures { IsTrue result ↔ IsShortText most text.now }
{
    1 <= text.len() && text.len() as u64 <= most
}

/// The services of a list of at most 8 texts of 1 to 64 octets.
pub(crate) fn services_of(value: &Value) -> Option<ArrayVec<ArrayVec<u8, 64>, 12>>
    ensures found { IfSome result (λ s. AreServices (view value.now) s) }
    ensures none { IfNone result ((s : Few (Few ℕ)) → ¬ AreServices (view value.now) s) }
{
    match value.as_array() {
        Some(list) => services_in(list.as_slice()),
        None => None,
    }
}

fn services_in(list: &[Value]) -> Option<ArrayVec<ArrayVec<u8, 64>, 12>>
    ensures found { IfSome result (λ s. AreServices (array (items_view list.now)) s) }
    ensures none { IfNone result ((s : Few (Few ℕ)) → ¬ AreServices (array (items_view list.now)) s) }
{
    if list.len() > MOST {
        return None;
    }
    let mut services = ArrayVec::new();
    for value in list {
        let service = service_of(value)?;
        services.push(service);
    }
    Some(services)
}

// A text of 1 to 64 octets.
fn service_of(value: &Value) -> Option<ArrayVec<u8, 64>>
    ensures found { IfSome result (λ s. IsOctets 64 (view value.now) s) }
    ensures none { IfNone result ((s : Few ℕ) → ¬ IsOctets 64 (view value.now) s) }
{
    match value.as_str() {
        Some(text) => octets_of(text.as_bytes()),
        None => None,
    }
}

/// The octets of a text of 1 to this many.
pub(crate) fn octets_of<const MANY: usize>(text: &[u8]) -> Option<ArrayVec<u8, MANY>>
    ensures found { IfSome result (λ o. (o.items ≡ text.now) × (1 ≤ length text.now) × (length text.now ≤ MANY)) }
    ensures none { IfNone result (1 ≤ length text.now → ¬ (length text.now ≤ MANY)) }
{
    if text.is_empty() {
        return None;
    }
    let mut octets = ArrayVec::new();
    match octets.try_extend_from_slice(text) {
        Ok(()) => Some(octets),
        Err(_) => None,
    }
}
