ghost use Rattle.std.specs.Prelude.{IfNone, IfSome};
ghost use Rattle.bng_radius_wire.specs.Grammar.{Packet, whole};
ghost use Rattle.bng_coa.specs.Admission.{IsRequestIn};

use crate::admission::is_request;
use bng_radius_wire::{Radius, read};

/// The CoA-Request or Disconnect-Request at the front of the octets; none exactly where they begin with none, or with one of more than 64
/// attributes.
pub fn request_in(bytes: &[u8]) -> Option<Radius<'_>>
    ensures found { IfSome result (λ v. IsRequestIn (whole v) bytes.now) }
    ensures none { IfNone result ((p : Packet) → ¬ (IsRequestIn p bytes.now)) }
{
    match read(bytes) {
        Ok(packet) if is_request(packet.code) => Some(packet),
        _ => None,
    }
}
