ghost use Rattle.std.specs.Prelude.{◌≡◌, ◌≤◌, ◌+◌, List, ◌∷◌, [], length, take, drop, slice_range, IfSome, IfNone};
ghost use Rattle.std.specs.List.{concat, AllByRecursion};
ghost use Rattle.md5.specs.Md5.{md5};
ghost use Rattle.bng_digest.specs.Authentication.{hmac_md5};
ghost use Rattle.bng_radius_wire.specs.Attributes.{Field, AreAttributes};
ghost use Rattle.bng_radius_wire.specs.Grammar.{AreOctets, Packet, IsRadius, IsSpelled, length_in};
ghost use Rattle.bng_radius_wire.specs.Digests.{zeros};
ghost use Rattle.bng_radius_wire.specs.Places.{FirstStandsAt, IsOther};

use crate::kinds::MESSAGE_AUTHENTICATOR;
use bng_digest::{hmac_md5_of, md5_of};

// The packet at the front of the octets, without its padding.
pub(crate) fn packet_in(bytes: &[u8]) -> &[u8]
    requires { (p : Packet) × IsRadius p bytes.now }
    ensures packet { result.now ≡ take (length_in bytes.now) bytes.now }
    ensures size { length result.now ≡ length_in bytes.now }
    ensures octets { AreOctets bytes.now }
    ensures spelled { (p : Packet) → IsRadius p bytes.now → IsSpelled p result.now }
{
    let length = usize::from(u16::from_be_bytes([bytes[2], bytes[3]]));
    &bytes[..length]
}

// Sixteen octets, as an authenticator has.
pub(crate) fn sixteen_at(octets: &[u8], at: usize) -> [u8; 16]
    requires { at + 16 ≤ length octets.now }
    ensures { result ≡ slice_range octets.now at (at + 16) }
{
    let mut sixteen = [0; 16];
    sixteen.copy_from_slice(&octets[at..at + 16]);
    sixteen
}

// The place of the first Message-Authenticator of a packet at or after this place, where an attribute begins or the packet
// ends.
pub(crate) fn message_authenticator_from(packet: &[u8], start: usize) -> Option<usize>
    requires within { start ≤ length packet.now }
    requires grammar { (fs : List Field) × AreAttributes fs (drop start packet.now) }
    ensures found { (fs : List Field) → AreAttributes fs (drop start packet.now) → IfSome result (λ at. FirstStandsAt fs start at) }
    ensures none { (fs : List Field) → AreAttributes fs (drop start packet.now) → IfNone result (AllByRecursion IsOther fs) }
{
    let mut at = start;
    while at < packet.len() {
        if packet[at] == MESSAGE_AUTHENTICATOR {
            return Some(at);
        }
        at += usize::from(packet[at + 1]);
    }
    None
}

// The digest that a Message-Authenticator at this place of a packet is to be, over an authenticator.
pub(crate) fn message_digest(
    packet: &[u8],
    at: usize,
    authenticator: &[u8; 16],
    secret: &[u8],
) -> [u8; 16]
    requires begins { 20 ≤ at }
    requires within { at + 18 ≤ length packet.now }
    requires key { length secret.now ≤ 64 }
    ensures { result ≡ hmac_md5 secret.now (concat (take 4 packet.now ∷ authenticator.now ∷ slice_range packet.now 20 (at + 2) ∷ zeros ∷ drop (at + 18) packet.now ∷ [])) }
{
    hmac_md5_of(
        secret,
        &[
            &packet[..4],
            authenticator,
            &packet[20..at + 2],
            &[0; 16],
            &packet[at + 18..],
        ],
    )
}

// The digest that the Response Authenticator of a packet is to be.
pub(crate) fn response_digest(packet: &[u8], request: &[u8; 16], secret: &[u8]) -> [u8; 16]
    requires { 20 ≤ length packet.now }
    ensures { result ≡ md5 (concat (take 4 packet.now ∷ request.now ∷ drop 20 packet.now ∷ secret.now ∷ [])) }
{
    md5_of(&[&packet[..4], request, &packet[20..], secret])
}
