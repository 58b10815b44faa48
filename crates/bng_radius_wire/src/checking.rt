ghost use Rattle.std.specs.Prelude.{◌≡◌, ◌≤◌, ◌↔◌, ℕ, IsTrue, length};
ghost use Rattle.bng_radius_wire.specs.Grammar.{Packet, IsRadius, IsSpelled};
ghost use Rattle.bng_radius_wire.specs.Digests.{IsRightAt, IsSigned};

use crate::places::{
    message_authenticator_from, message_digest, packet_in, response_digest, sixteen_at,
};

// The length of a Message-Authenticator: its type, its length and a digest (RFC 2869 section 5.14).
const LENGTH: u8 = 18;

/// Whether the digests of a reply are right.
#[derive(Clone, Copy, PartialEq, Eq)]
pub enum Checked {
    Right,
    WrongDigest,
}

// Whether each Message-Authenticator of a packet is right.
fn has_right_messages(packet: &[u8], request: &[u8; 16], secret: &[u8]) -> bool
    requires grammar { (p : Packet) × IsSpelled p packet.now }
    requires key { length secret.now ≤ 64 }
    ensures { (p : Packet) → IsSpelled p packet.now → IsTrue result ↔ ((i : ℕ) → IsRightAt p i request.now secret.now) }
{
    let mut start = 20;
    while let Some(at) = message_authenticator_from(packet, start) {
        if packet[at + 1] != LENGTH {
            return false;
        }
        if message_digest(packet, at, request, secret) != sixteen_at(packet, at + 2) {
            return false;
        }
        start = at + 18;
    }
    true
}

/// Checks the digests of a reply to the request that has this Authenticator: the Response Authenticator (RFC 2865
/// section 3), and each Message-Authenticator that is there (RFC 2869 section 5.14). WrongDigest comes exactly where one of
/// them is wrong; a Message-Authenticator whose value has not 16 octets is wrong. The secret has 64 octets at most.
pub fn check_reply(bytes: &[u8], request: &[u8; 16], secret: &[u8]) -> Checked
    requires grammar { (p : Packet) × IsRadius p bytes.now }
    requires key { length secret.now ≤ 64 }
    ensures right { (p : Packet) → IsRadius p bytes.now → (result ≡ Checked.Right) ↔ IsSigned p request.now secret.now }
    ensures wrong { (p : Packet) → IsRadius p bytes.now → (result ≡ Checked.WrongDigest) ↔ (¬ (IsSigned p request.now secret.now)) }
{
    let packet = packet_in(bytes);
    if response_digest(packet, request, secret) != sixteen_at(packet, 4) {
        return Checked::WrongDigest;
    }
    if has_right_messages(packet, request, secret) {
        Checked::Right
    } else {
        Checked::WrongDigest
    }
}
