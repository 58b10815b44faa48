//! The values of keys of a document that breaks no rule. What is not there, and need not be, has its default.
ghost use Rattle.std.specs.Prelude.{◌≡◌, ◌≤◌, [], ◌∷◌, IfSome, IfNone, None};
ghost use Rattle.toml.specs.View.{view};
ghost use Rattle.bng_base.specs.declared.settings.AuthKind.{AuthKind as Kind};
ghost use Rattle.bng_schema.specs.declared.keys.Form.TheVariants.{PrintableText, LabelText, OctetText, AddressText, PeerText, MacText, SessionNumber, PortNumber, Number, ServiceList, AddressList, KindList};
ghost use Rattle.bng_schema.specs.Keys.{path_of, value_at, entries};
ghost use Rattle.bng_schema.specs.Forms.{StandsAt, StandsOr, IsName, IsLabel, IsOctets, IsNumber, AreServices, AreAddresses, AreKinds, IsPeer, IsAddress, IsMac, IsSession, shards_of};
ghost use Rattle.bng_config.specs.Sound.{IsSoundAs, IsThereAs};

use arrayvec::ArrayVec;
use bng_base::{AuthKind, Ip4, Mac, Peer, SessionNo};
use bng_schema::{
    Key, Table, address_at, addresses_at, entries_of, kinds_at, label_at, mac_at, name_at,
    number_at, octets_at, peer_at, services_at, session_at, two_kinds,
};
use toml::Value;

/// The name of the gateway.
pub(crate) fn name_of(document: &Value, key: Key) -> ArrayVec<u8, 64>
    requires { IsThereAs (view document.now) key PrintableText }
    ensures { StandsAt (view document.now) key (λ d. IsName d result) }
{
    match name_at(document, key) {
        Some(name) => name,
        None => unreachable!(),
    }
}

/// The name of a pool or of a profile.
pub(crate) fn label_of(document: &Value, key: Key) -> ArrayVec<u8, 32>
    requires { IsThereAs (view document.now) key LabelText }
    ensures { StandsAt (view document.now) key (λ d. IsLabel d result) }
{
    match label_at(document, key) {
        Some(name) => name,
        None => unreachable!(),
    }
}

/// The secret that the gateway shares with the RADIUS server.
pub(crate) fn secret_of(document: &Value, key: Key) -> ArrayVec<u8, 64>
    requires { IsThereAs (view document.now) key (OctetText 64) }
    ensures { StandsAt (view document.now) key (λ d. IsOctets 64 d result) }
{
    match octets_at(document, key) {
        Some(secret) => secret,
        None => unreachable!(),
    }
}

/// A secret, where one stands at the key.
pub(crate) fn secret_or_none(document: &Value, key: Key) -> Option<ArrayVec<u8, 64>>
    requires { IsSoundAs (view document.now) key (OctetText 64) }
    ensures there { IfSome result (λ s. StandsAt (view document.now) key (λ d. IsOctets 64 d s)) }
    ensures absent { IfNone result (value_at (path_of key) (view document.now) ≡ None) }
{
    match octets_at(document, key) {
        Some(secret) => Some(secret),
        None => None,
    }
}

/// The User-Name of a circuit.
pub(crate) fn user_of(document: &Value, key: Key) -> ArrayVec<u8, 128>
    requires { IsThereAs (view document.now) key (OctetText 128) }
    ensures { StandsAt (view document.now) key (λ d. IsOctets 128 d result) }
{
    match octets_at(document, key) {
        Some(user) => user,
        None => unreachable!(),
    }
}

/// An address.
pub(crate) fn address_of(document: &Value, key: Key) -> Ip4
    requires { IsThereAs (view document.now) key AddressText }
    ensures { StandsAt (view document.now) key (λ d. IsAddress d result) }
{
    match address_at(document, key) {
        Some(address) => address,
        None => unreachable!(),
    }
}

/// A peer.
pub(crate) fn peer_of(document: &Value, key: Key) -> Peer
    requires { IsThereAs (view document.now) key PeerText }
    ensures { StandsAt (view document.now) key (λ d. IsPeer d result) }
{
    match peer_at(document, key) {
        Some(peer) => peer,
        None => unreachable!(),
    }
}

/// An Ethernet address.
pub(crate) fn mac_of(document: &Value, key: Key) -> Mac
    requires { IsThereAs (view document.now) key MacText }
    ensures { StandsAt (view document.now) key (λ d. IsMac d result) }
{
    match mac_at(document, key) {
        Some(mac) => mac,
        None => unreachable!(),
    }
}

/// The session of a circuit, of one of the shards that there are, this many.
pub(crate) fn session_of(document: &Value, key: Key, shards: u16) -> SessionNo
    requires there { IsThereAs (view document.now) key SessionNumber }
    requires shards { shards ≡ shards_of (view document.now) }
    requires few { shards ≤ 64 }
    ensures { StandsAt (view document.now) key (λ d. IsSession (shards_of (view document.now)) d result) }
{
    match session_at(document, key, shards) {
        Some(session) => session,
        None => unreachable!(),
    }
}

/// The number of an access port, of which there are at most 16.
pub(crate) fn port_of(document: &Value, key: Key) -> u8
    requires there { IsThereAs (view document.now) key PortNumber }
    requires few { entries (view document.now) Table.Access ≤ 16 }
    ensures { StandsAt (view document.now) key (λ d. IsNumber 1 (entries (view document.now) Table.Access) d result) }
{
    let ports = entries_of(document, Table::Access);
    match number_at(document, key, 1, ports as u64) {
        Some(port) => port as u8,
        None => unreachable!(),
    }
}

/// A number of this range, where one stands at the key.
pub(crate) fn number_or_none(document: &Value, key: Key, least: u64, most: u64) -> Option<u64>
    requires { IsSoundAs (view document.now) key (Number least most) }
    ensures there { IfSome result (λ n. StandsAt (view document.now) key (λ d. IsNumber least most d n)) }
    ensures absent { IfNone result (value_at (path_of key) (view document.now) ≡ None) }
{
    match number_at(document, key, least, most) {
        Some(number) => Some(number),
        None => None,
    }
}

/// A number of this range, or the default.
pub(crate) fn number_or(document: &Value, key: Key, least: u64, most: u64, default: u64) -> u64
    requires { IsSoundAs (view document.now) key (Number least most) }
    ensures { StandsOr (view document.now) key (λ d. IsNumber least most d result) (result ≡ default) }
{
    match number_at(document, key, least, most) {
        Some(number) => number,
        None => default,
    }
}

/// The services, or none.
pub(crate) fn services_or_none(document: &Value, key: Key) -> ArrayVec<ArrayVec<u8, 64>, 12>
    requires { IsSoundAs (view document.now) key ServiceList }
    ensures { StandsOr (view document.now) key (λ d. AreServices d result) (result.items ≡ []) }
{
    match services_at(document, key) {
        Some(services) => services,
        None => ArrayVec::new(),
    }
}

/// At most two servers of names, or none.
pub(crate) fn servers_or_none(document: &Value, key: Key) -> ArrayVec<Ip4, 2>
    requires { IsSoundAs (view document.now) key (AddressList 0 2) }
    ensures { StandsOr (view document.now) key (λ d. AreAddresses 0 2 d result) (result.items ≡ []) }
{
    match addresses_at(document, key, 0) {
        Some(servers) => servers,
        None => ArrayVec::new(),
    }
}

/// The 1 to 16 addresses of those who may ask for changes.
pub(crate) fn peers_of(document: &Value, key: Key) -> ArrayVec<Ip4, 16>
    requires { IsThereAs (view document.now) key (AddressList 1 16) }
    ensures { StandsAt (view document.now) key (λ d. AreAddresses 1 16 d result) }
{
    match addresses_at(document, key, 1) {
        Some(peers) => peers,
        None => unreachable!(),
    }
}

/// The ways to authenticate, or CHAP and then PAP.
pub(crate) fn kinds_or_both(document: &Value, key: Key) -> ArrayVec<AuthKind, 2>
    requires { IsSoundAs (view document.now) key KindList }
    ensures { StandsOr (view document.now) key (λ d. AreKinds d result) (result.items ≡ Kind.Chap ∷ Kind.Pap ∷ []) }
{
    match kinds_at(document, key) {
        Some(kinds) => kinds,
        None => two_kinds(AuthKind::Chap, AuthKind::Pap),
    }
}
