ghost use Rattle.std.specs.Prelude.{◌≡◌, ◌<◌, ◌≤◌, ◌↔◌, length, IfOk, IsOkAnd, MatchResult};
ghost use Rattle.bng_radius_wire.specs.Grammar.{Packet, whole, IsRadius, WhyNot};

use crate::lists::list_of;
use crate::places::sixteen_at;
use crate::views::Radius;
use bng_base::ReadError;

// The packet at the front of the octets, or why there is none.
fn packet_at(bytes: &[u8]) -> Result<Radius<'_>, ReadError>
    ensures answer { MatchResult result (λ v. IsRadius (whole v) bytes.now) (λ e. WhyNot e bytes.now) }
    ensures few { IfOk result (λ v. length v.attributes.items ≤ 64) }
{
    let [code, id, high, low, ..] = bytes else {
        return Err(ReadError::Outside);
    };
    let length = usize::from(u16::from_be_bytes([*high, *low]));
    if length < 20 || 4096 < length || bytes.len() < length {
        return Err(ReadError::Outside);
    }
    let attributes = list_of(&bytes[20..length])?;
    Ok(Radius {
        code: *code,
        id: *id,
        authenticator: sixteen_at(bytes, 4),
        attributes,
    })
}

/// The packet at the front of the octets (RFC 2865 section 3). The octets past its Length are padding. Outside comes
/// exactly where the octets begin with no packet, TooMany exactly where its attributes are more than 64.
pub fn read(bytes: &[u8]) -> Result<Radius<'_>, ReadError>
    ensures found { IfOk result (λ v. IsRadius (whole v) bytes.now) }
    ensures only { (p : Packet) → IsRadius p bytes.now → length p.attributes ≤ 64 → IsOkAnd result (λ v. whole v ≡ p) }
    ensures outside { (result ≡ Err ReadError.Outside) ↔ ((p : Packet) → ¬ (IsRadius p bytes.now)) }
    ensures too_many { (result ≡ Err ReadError.TooMany) ↔ ((p : Packet) × IsRadius p bytes.now × (64 < length p.attributes)) }
{
    packet_at(bytes)
}
