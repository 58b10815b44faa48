//! The values of keys: each reader answers what stands at a key where it has the form, and nothing exactly where it has not.
ghost use Rattle.std.specs.Prelude.{◌≤◌, ℕ, IfSome, IfNone};
ghost use Rattle.arrayvec.specs.ArrayVec.{ArrayVec as Few};
ghost use Rattle.toml.specs.View.{view};
ghost use Rattle.bng_base.specs.declared.address.Ip4.{Ip4 as Address};
ghost use Rattle.bng_base.specs.declared.address.Mac.{Mac as Hardware};
ghost use Rattle.bng_base.specs.declared.address.Peer.{Peer as End};
ghost use Rattle.bng_base.specs.declared.address.SessionNo.{SessionNo as SessionNumber};
ghost use Rattle.bng_base.specs.declared.settings.AuthKind.{AuthKind as Kind};
ghost use Rattle.bng_schema.specs.Forms.{StandsAt, IsName, IsLabel, IsOctets, IsNumber, AreServices, AreAddresses, AreKinds, IsPeer, IsAddress, IsMac, IsSession};

use crate::addresses::{address_in, addresses_of};
use crate::find::{integer_at, text_at, value_of};
use crate::keys::Key;
use crate::kinds::kinds_of;
use crate::mac::mac_in;
use crate::names::{label_of, name_of, octets_of, services_of};
use crate::numbers::within;
use crate::peer::peer_in;
use crate::session::session_of;
use arrayvec::ArrayVec;
use bng_base::{AuthKind, Ip4, Mac, Peer, SessionNo};
use toml::Value;

/// The name of the gateway at the key.
pub fn name_at(document: &Value, key: Key) -> Option<ArrayVec<u8, 64>>
    ensures found { IfSome result (λ n. StandsAt (view document.now) key (λ d. IsName d n)) }
    ensures none { IfNone result ((n : Few ℕ) → ¬ StandsAt (view document.now) key (λ d. IsName d n)) }
{
    match text_at(document, key) {
        Some(text) => name_of(text.as_bytes()),
        None => None,
    }
}

/// The name of a pool or of a profile at the key.
pub fn label_at(document: &Value, key: Key) -> Option<ArrayVec<u8, 32>>
    ensures found { IfSome result (λ n. StandsAt (view document.now) key (λ d. IsLabel d n)) }
    ensures none { IfNone result ((n : Few ℕ) → ¬ StandsAt (view document.now) key (λ d. IsLabel d n)) }
{
    match text_at(document, key) {
        Some(text) => label_of(text.as_bytes()),
        None => None,
    }
}

/// The octets of the text at the key, of which there are 1 to so many.
pub fn octets_at<const MOST: usize>(document: &Value, key: Key) -> Option<ArrayVec<u8, MOST>>
    ensures found { IfSome result (λ o. StandsAt (view document.now) key (λ d. IsOctets MOST d o)) }
    ensures none { IfNone result ((o : Few ℕ) → ¬ StandsAt (view document.now) key (λ d. IsOctets MOST d o)) }
{
    match text_at(document, key) {
        Some(text) => octets_of(text.as_bytes()),
        None => None,
    }
}

/// The number of this range at the key.
pub fn number_at(document: &Value, key: Key, least: u64, most: u64) -> Option<u64>
    ensures found { IfSome result (λ n. StandsAt (view document.now) key (λ d. IsNumber least most d n)) }
    ensures none { IfNone result ((n : ℕ) → ¬ StandsAt (view document.now) key (λ d. IsNumber least most d n)) }
{
    match integer_at(document, key) {
        Some(number) => within(number, least, most),
        None => None,
    }
}

/// The services at the key.
pub fn services_at(document: &Value, key: Key) -> Option<ArrayVec<ArrayVec<u8, 64>, 12>>
    ensures found { IfSome result (λ s. StandsAt (view document.now) key (λ d. AreServices d s)) }
    ensures none { IfNone result ((s : Few (Few ℕ)) → ¬ StandsAt (view document.now) key (λ d. AreServices d s)) }
{
    match value_of(document, key) {
        Some(value) => services_of(value),
        None => None,
    }
}

/// The addresses of the list at the key, so many at least and at most.
pub fn addresses_at<const MOST: usize>(
    document: &Value,
    key: Key,
    least: usize,
) -> Option<ArrayVec<Ip4, MOST>>
    ensures found { IfSome result (λ a. StandsAt (view document.now) key (λ d. AreAddresses least MOST d a)) }
    ensures none { IfNone result ((a : Few Address) → ¬ StandsAt (view document.now) key (λ d. AreAddresses least MOST d a)) }
{
    match value_of(document, key) {
        Some(value) => addresses_of(value, least),
        None => None,
    }
}

/// The ways to authenticate at the key.
pub fn kinds_at(document: &Value, key: Key) -> Option<ArrayVec<AuthKind, 2>>
    ensures found { IfSome result (λ k. StandsAt (view document.now) key (λ d. AreKinds d k)) }
    ensures none { IfNone result ((k : Few Kind) → ¬ StandsAt (view document.now) key (λ d. AreKinds d k)) }
{
    match value_of(document, key) {
        Some(value) => kinds_of(value),
        None => None,
    }
}

/// The peer at the key.
pub fn peer_at(document: &Value, key: Key) -> Option<Peer>
    ensures found { IfSome result (λ p. StandsAt (view document.now) key (λ d. IsPeer d p)) }
    ensures none { IfNone result ((p : End) → ¬ StandsAt (view document.now) key (λ d. IsPeer d p)) }
{
    match value_of(document, key) {
        Some(value) => peer_in(value),
        None => None,
    }
}

/// The address at the key.
pub fn address_at(document: &Value, key: Key) -> Option<Ip4>
    ensures found { IfSome result (λ a. StandsAt (view document.now) key (λ d. IsAddress d a)) }
    ensures none { IfNone result ((a : Address) → ¬ StandsAt (view document.now) key (λ d. IsAddress d a)) }
{
    match value_of(document, key) {
        Some(value) => address_in(value),
        None => None,
    }
}

/// The Ethernet address at the key.
pub fn mac_at(document: &Value, key: Key) -> Option<Mac>
    ensures found { IfSome result (λ m. StandsAt (view document.now) key (λ d. IsMac d m)) }
    ensures none { IfNone result ((m : Hardware) → ¬ StandsAt (view document.now) key (λ d. IsMac d m)) }
{
    match value_of(document, key) {
        Some(value) => mac_in(value),
        None => None,
    }
}

/// The session at the key, of one of this many shards.
pub fn session_at(document: &Value, key: Key, shards: u16) -> Option<SessionNo>
    requires { shards ≤ 64 }
    ensures found { IfSome result (λ s. StandsAt (view document.now) key (λ d. IsSession shards d s)) }
    ensures none { IfNone result ((s : SessionNumber) → ¬ StandsAt (view document.now) key (λ d. IsSession shards d s)) }
{
    match integer_at(document, key) {
        Some(number) => session_of(number, shards),
        None => None,
    }
}
