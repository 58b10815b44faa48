//! What is asserted of the parts of a configuration.
use crate::asserts::{assert_count, assert_octets, assert_same};
use arrayvec::ArrayVec;
use bng_base::{
    AccessPort, AuthKind, CoaPart, Ip4, Lac, Mac, NamedRange, Peer, Profile, Rate, Static,
};
use bng_config::Config;
use std::process::Abort;

const fn loopback(port: u16) -> Peer {
    Peer {
        ip: Ip4(0x7f00_0001),
        port,
    }
}

pub(super) fn assert_number(rt: &impl Abort, number: u64, wanted: u64) {
    assert_eq!(rt; number, wanted);
}

pub(super) fn assert_address(rt: &impl Abort, address: Ip4, wanted: u32) {
    assert_eq!(rt; address.0, wanted);
}

pub(super) fn assert_peer(rt: &impl Abort, peer: Peer, wanted: u16) {
    assert_eq!(rt; peer, loopback(wanted));
}

fn assert_mac(rt: &impl Abort, mac: Mac, wanted: u8) {
    assert_eq!(rt; mac, Mac([2, 0, 0, 0, 0, wanted]));
}

pub(super) fn assert_kinds(rt: &impl Abort, kinds: &[AuthKind], wanted: &[AuthKind]) {
    assert_eq!(rt; kinds, wanted);
}

pub(super) fn assert_addresses(rt: &impl Abort, addresses: &[Ip4], wanted: &[u32]) {
    assert_count(rt, addresses.len(), wanted.len());
    for (address, number) in addresses.iter().zip(wanted) {
        assert_address(rt, *address, *number);
    }
}

/// The names of the services are these, in this order.
pub(super) fn assert_services(rt: &impl Abort, services: &[ArrayVec<u8, 64>], wanted: &[&[u8]]) {
    assert_count(rt, services.len(), wanted.len());
    for (service, octets) in services.iter().zip(wanted) {
        assert_octets(rt, service.as_slice(), *octets);
    }
}

/// The shards, the workers, the terms, and the seconds between two Echo-Requests are these.
pub(super) fn assert_numbers(rt: &impl Abort, config: &Config, wanted: [u64; 4]) {
    let [shards, workers, terms, echo] = wanted;
    assert_number(rt, u64::from(config.shards), shards);
    assert_number(rt, u64::from(config.workers), workers);
    assert_number(rt, u64::from(config.terms), terms);
    assert_number(rt, u64::from(config.echo), echo);
}

/// A port's two ends, and its MAC.
pub(super) type PortRow = (u16, u16, u8);

fn assert_port(rt: &impl Abort, port: &AccessPort, row: &PortRow) {
    let (local, peer, mac) = *row;
    assert_peer(rt, port.local, local);
    assert_peer(rt, port.peer, peer);
    assert_mac(rt, port.mac, mac);
}

pub(super) fn assert_ports(rt: &impl Abort, access: &[AccessPort], rows: &[PortRow]) {
    assert_count(rt, access.len(), rows.len());
    for (port, row) in access.iter().zip(rows) {
        assert_port(rt, port, row);
    }
}

/// An L2TP access concentrator has this address, and this secret, where that is not empty.
fn assert_lac(rt: &impl Abort, lac: &Lac, address: u32, secret: &[u8]) {
    assert_address(rt, lac.ip, address);
    match &lac.secret {
        Some(octets) => assert_octets(rt, octets.as_slice(), secret),
        None => assert_count(rt, secret.len(), 0),
    }
}

pub(super) fn assert_lacs(rt: &impl Abort, lacs: &[Lac], rows: &[(u32, &[u8])]) {
    assert_count(rt, lacs.len(), rows.len());
    for (lac, (address, secret)) in lacs.iter().zip(rows) {
        assert_lac(rt, lac, *address, *secret);
    }
}

fn assert_coa_part(rt: &impl Abort, part: &CoaPart, local: u16, peers: &[u32], secret: &[u8]) {
    assert_peer(rt, part.local, local);
    assert_addresses(rt, part.peers.as_slice(), peers);
    assert_octets(rt, part.secret.as_slice(), secret);
}

/// Those who may ask for changes are these.
pub(super) fn assert_coa(
    rt: &impl Abort,
    coa: &Option<CoaPart>,
    local: u16,
    peers: &[u32],
    secret: &[u8],
) {
    match coa {
        Some(part) => assert_coa_part(rt, part, local, peers, secret),
        None => panic!(rt; "nobody"),
    }
}

/// A pool's name, its first and its last address.
pub(super) type PoolRow<'a> = (&'a [u8], u32, u32);

fn assert_pool(rt: &impl Abort, pool: &NamedRange, row: &PoolRow) {
    let (name, first, last) = *row;
    assert_octets(rt, pool.name.as_slice(), name);
    assert_address(rt, pool.range.first, first);
    assert_address(rt, pool.range.last, last);
}

pub(super) fn assert_pools(rt: &impl Abort, pools: &[NamedRange], rows: &[PoolRow]) {
    assert_count(rt, pools.len(), rows.len());
    for (pool, row) in pools.iter().zip(rows) {
        assert_pool(rt, pool, row);
    }
}

fn assert_rate(rt: &impl Abort, rate: Option<Rate>, wanted: Option<Rate>) {
    assert_eq!(rt; rate, wanted);
}

/// A profile's name, and its rates from and to the subscriber.
pub(super) type ProfileRow<'a> = (&'a [u8], Option<Rate>, Option<Rate>);

fn assert_profile(rt: &impl Abort, profile: &Profile, row: &ProfileRow) {
    let (name, up, down) = *row;
    assert_octets(rt, profile.name.as_slice(), name);
    assert_rate(rt, profile.up, up);
    assert_rate(rt, profile.down, down);
}

pub(super) fn assert_profiles(rt: &impl Abort, profiles: &[Profile], rows: &[ProfileRow]) {
    assert_count(rt, profiles.len(), rows.len());
    for (profile, row) in profiles.iter().zip(rows) {
        assert_profile(rt, profile, row);
    }
}

/// A circuit's port, MAC, session, address, User-Name, and the place of its profile.
pub(super) type CircuitRow<'a> = (u8, u8, u16, u32, &'a [u8], u8);

fn assert_circuit(rt: &impl Abort, circuit: &Static, row: &CircuitRow) {
    let (port, mac, session, address, user, profile) = *row;
    assert_number(rt, u64::from(circuit.port), u64::from(port));
    assert_mac(rt, circuit.mac, mac);
    assert_number(rt, u64::from(circuit.session.0), u64::from(session));
    assert_address(rt, circuit.address, address);
    assert_octets(rt, circuit.user.as_slice(), user);
    assert_number(rt, u64::from(circuit.profile), u64::from(profile));
}

pub(super) fn assert_circuits(rt: &impl Abort, statics: &[Static], rows: &[CircuitRow]) {
    assert_count(rt, statics.len(), rows.len());
    for (circuit, row) in statics.iter().zip(rows) {
        assert_circuit(rt, circuit, row);
    }
}

/// The sockets towards the core and for the word `stop`.
fn assert_core(rt: &impl Abort, config: &Config) {
    assert_peer(rt, config.core_local, 9000);
    assert_peer(rt, config.core_peer, 9001);
    assert_peer(rt, config.control_local, 9002);
}

/// The sockets towards the RADIUS server, and what is known of it.
fn assert_radius(rt: &impl Abort, config: &Config, tries: u64) {
    assert_peer(rt, config.auth_local, 9003);
    assert_peer(rt, config.auth_server, 1812);
    assert_peer(rt, config.acct_local, 9004);
    assert_peer(rt, config.acct_server, 1813);
    assert_octets(rt, config.secret.as_slice(), b"xyzzy5461");
    assert_number(rt, u64::from(config.tries), tries);
}

/// The sockets of a configuration, and what it knows of its server.
pub(super) fn assert_sockets(rt: &impl Abort, config: &Config, tries: u64) {
    assert_core(rt, config);
    assert_radius(rt, config, tries);
    assert_same(rt, &config.tunnel_local, &Some(loopback(1701)));
}
