ghost use Rattle.std.specs.Prelude.{◌≡◌, find};
ghost use Rattle.std.specs.Option.{option_map};
ghost use Rattle.bng_radius_wire.specs.Attributes.{field, fields};
ghost use Rattle.bng_verdict.specs.Verdicts.{reply_text, is_served, is_framed, is_service_type, is_reply_message};

use bng_radius_wire::{Attribute, kinds};

// Framed, the Service-Type 2, in the four octets of its value (RFC 2865 section 5.6).
const FRAMED: [u8; 4] = [0, 0, 0, 2];

// The first Service-Type whose value has four octets.
fn service_type<'a>(attributes: &[Attribute<'a>]) -> Option<Attribute<'a>>
    ensures { option_map field result ≡ find is_service_type (fields attributes.now) }
{
    attributes
        .iter()
        .copied()
        .find(|a| a.kind == kinds::SERVICE_TYPE && a.value.len() == 4)
}

// The first Reply-Message.
fn reply_message<'a>(attributes: &[Attribute<'a>]) -> Option<Attribute<'a>>
    ensures { option_map field result ≡ find is_reply_message (fields attributes.now) }
{
    attributes
        .iter()
        .copied()
        .find(|a| a.kind == kinds::REPLY_MESSAGE)
}

fn is_framed(service: &Attribute<'_>) -> bool
    ensures { result ≡ is_framed (field service.now) }
{
    service.value == FRAMED.as_slice()
}

// Whether the service is Framed, or none is named.
pub(crate) fn is_served(attributes: &[Attribute<'_>]) -> bool
    ensures { result ≡ is_served (fields attributes.now) }
{
    match service_type(attributes) {
        Some(service) => is_framed(&service),
        None => true,
    }
}

// The value of the first Reply-Message, else no octets.
pub(crate) fn reply_text<'a>(attributes: &[Attribute<'a>]) -> &'a [u8]
    ensures { result.now ≡ reply_text (fields attributes.now) }
{
    match reply_message(attributes) {
        Some(message) => message.value,
        None => &[],
    }
}
