//! The texts of addresses and peers.
ghost use Rattle.std.specs.Prelude.{◌≡◌, ◌≢◌, ◌↔◌, ◌/◌, ◌%◌, IsTrue, ◌<◌, ◌≤◌, ◌^◌, ℕ, List, IfSome, IfNone};
ghost use Rattle.std.specs.Fmt.{decimal};
ghost use Rattle.bng_base.specs.declared.address.Ip4.{Ip4 as Address};
ghost use Rattle.bng_base.specs.declared.address.Peer.{Peer as End};
ghost use Rattle.bng_schema.specs.Address.{address_text, peer_text, dot};
ghost use Rattle.toml.specs.View.{view};
ghost use Rattle.bng_schema.specs.Forms.{IsPeer};
ghost use Rattle.bng_schema.specs.Parts.{BeginsWithNumber, IsPlain};

use bng_base::{Ip4, Peer};
use toml::Value;

/// The peer that the text writes: an address, a colon and a port from 1 on.
pub(crate) fn peer_of(text: &str) -> Option<Peer>
    ensures found { IfSome result (λ p. (text.now ≡ peer_text p) × (1 ≤ p.port)) }
    ensures none { IfNone result ((p : End) → p.ip.0 < 2 ^ 32 → 1 ≤ p.port → p.port < 2 ^ 16 → text.now ≢ peer_text p) }
{
    let (address, port) = text.split_once(':')?;
    let ip = address_of(address)?;
    let port = port_of(port)?;
    Some(Peer { ip, port })
}

/// The address that the text writes: four decimal numbers up to 255, parted by dots.
pub(crate) fn address_of(text: &str) -> Option<Ip4>
    ensures found { IfSome result (λ a. text.now ≡ address_text a) }
    ensures none { IfNone result ((a : Address) → a.0 < 2 ^ 32 → text.now ≢ address_text a) }
{
    let (first, rest) = front_of(text)?;
    let (second, rest) = front_of(rest)?;
    let (third, rest) = front_of(rest)?;
    let fourth = octet_of(rest)?;
    Some(Ip4(joined(first, second, third, fourth)))
}

// The number of these octets, the first the most significant.
fn joined(first: u8, second: u8, third: u8, fourth: u8) -> u32
    ensures first { result / 2 ^ 24 ≡ first }
    ensures second { result / 2 ^ 16 % 256 ≡ second }
    ensures third { result / 2 ^ 8 % 256 ≡ third }
    ensures fourth { result % 256 ≡ fourth }
{
    let high = u32::from(first) * 0x100_0000 + u32::from(second) * 0x1_0000;
    high + u32::from(third) * 0x100 + u32::from(fourth)
}

// A number up to 255 and a dot, and what follows them.
fn front_of(text: &str) -> Option<(u8, &str)>
    ensures found { IfSome result (λ r. BeginsWithNumber dot text.now r.0 r.1.now) }
    ensures none { IfNone result ((n : ℕ) (rest : List ℕ) → ¬ BeginsWithNumber dot text.now n rest) }
{
    let (number, rest) = text.split_once('.')?;
    let octet = octet_of(number)?;
    Some((octet, rest))
}

// A number up to 255, with no leading zero.
fn octet_of(text: &str) -> Option<u8>
    ensures found { IfSome result (λ n. text.now ≡ decimal n) }
    ensures none { IfNone result ((n : ℕ) → n < 256 → text.now ≢ decimal n) }
{
    if is_plain(text) {
        text.parse::<u8>().ok()
    } else {
        None
    }
}

// A number of 1 to 65,535, with no leading zero.
fn port_of(text: &str) -> Option<u16>
    ensures found { IfSome result (λ n. (text.now ≡ decimal n) × (1 ≤ n)) }
    ensures none { IfNone result ((n : ℕ) → 1 ≤ n → n < 2 ^ 16 → text.now ≢ decimal n) }
{
    if !is_plain(text) {
        return None;
    }
    match text.parse::<u16>() {
        Ok(0) => None,
        Ok(port) => Some(port),
        Err(_) => None,
    }
}

// The text has no sign and no leading zero.
fn is_plain(text: &str) -> bool
    ensures { IsTrue result ↔ IsPlain text.now }
{
    let bytes = text.as_bytes();
    if bytes.is_empty() {
        return true;
    }
    bytes[0] != b'+' && (bytes[0] != b'0' || bytes.len() == 1)
}

/// The peer whose text the value is.
pub(crate) fn peer_in(value: &Value) -> Option<Peer>
    ensures found { IfSome result (λ p. IsPeer (view value.now) p) }
    ensures none { IfNone result ((p : End) → ¬ IsPeer (view value.now) p) }
{
    match value.as_str() {
        Some(text) => peer_of(text),
        None => None,
    }
}
