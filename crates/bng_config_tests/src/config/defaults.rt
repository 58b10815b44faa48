use super::parts::{
    CircuitRow, PoolRow, PortRow, ProfileRow, assert_circuits, assert_coa, assert_kinds,
    assert_number, assert_numbers, assert_peer, assert_pools, assert_ports, assert_profiles,
    assert_services,
};
use super::{LEAST, LONGEST, changed, config_of, filled};
use crate::asserts::{assert_count, assert_holds, assert_octets};
use bng_base::AuthKind;
use bng_config::Config;
use std::alloc::{AllocError, Global};
use std::process::Abort;
use std::test::Fail;

/// There are no services and no servers of names, and the ways to authenticate are these.
fn assert_lists(rt: &impl Abort, config: &Config, kinds: &[AuthKind]) {
    assert_count(rt, config.services.len(), 0);
    assert_count(rt, config.dns.len(), 0);
    assert_kinds(rt, config.auth.as_slice(), kinds);
}

#[test]
fn what_is_left_out_has_its_default(rt: HostRuntime) {
    let config = config_of(&rt, rt.alloc(), LEAST);
    assert_octets(&rt, config.name.as_slice(), b"~!");
    assert_numbers(&rt, &config, [4, 2, 8192, 30]);
    assert_lists(&rt, &config, &[AuthKind::Chap, AuthKind::Pap]);
    assert_number(&rt, u64::from(config.tries), 4);
}

const METERS: &[ProfileRow] = &[(b"default", None, None)];

const ENDS: &[PortRow] = &[(9010, 9011, 0xfe)];

const RANGES: &[PoolRow] = &[(b"main", 0x0a00_0002, 0x0a00_0065)];

/// There is no L2TP, nobody may ask for changes, and no circuit is provisioned.
fn assert_none(rt: &impl Abort, config: &Config) {
    assert_holds(rt, config.tunnel_local.is_none());
    assert_count(rt, config.lacs.as_slice().len(), 0);
    assert_holds(rt, config.coa.is_none());
    assert_count(rt, config.statics.as_slice().len(), 0);
}

#[test]
fn tables_that_are_left_out_are_empty(rt: HostRuntime) {
    let config = config_of(&rt, rt.alloc(), LEAST);
    assert_none(&rt, &config);
    assert_profiles(&rt, config.profiles.as_slice(), METERS);
    assert_ports(&rt, config.access.as_slice(), ENDS);
    assert_pools(&rt, config.pools.as_slice(), RANGES);
}

/// The servers may have the end of one of the gateway's sockets, and of each other.
#[test]
fn the_server_may_have_the_end_of_a_socket(rt: HostRuntime) {
    let config = config_of(&rt, rt.alloc(), LEAST);
    assert_peer(&rt, config.auth_server, 9000);
    assert_peer(&rt, config.acct_server, 9000);
}

/// The least configuration with these lines before its pools.
fn with_lines(alloc: Global, lines: &str) -> Result<String, AllocError> {
    let text = changed(alloc, LEAST, "pool = [", "LINES\npool = [")?;
    changed(alloc, text.as_str(), "LINES", lines)
}

/// There are no L2TP access concentrators and no circuits, and one profile, that by default.
fn assert_empty(rt: &impl Abort, config: &Config) {
    assert_count(rt, config.lacs.as_slice().len(), 0);
    assert_count(rt, config.statics.as_slice().len(), 0);
    assert_profiles(rt, config.profiles.as_slice(), METERS);
}

#[test]
fn empty_lists_are_as_none(rt: HostRuntime) -> Result<(), Fail> {
    let text = with_lines(rt.alloc(), "lac = []\nprofile = []\nstatic = []")?;
    let config = config_of(&rt, rt.alloc(), text.as_str());
    assert_empty(&rt, &config);
    Ok(())
}

const CIRCUIT: &str =
    "static = [{ port = 1, mac = \"02:00:00:00:00:01\", session = 1, address = \"10.0.0.2\", user = \"u\", profile = \"default\" }]";

const CIRCUITS: &[CircuitRow] = &[(1, 1, 1, 0x0a00_0002, b"u", 0)];

/// A circuit may name the profile that there is without a list of profiles.
#[test]
fn the_profile_by_default_has_a_name(rt: HostRuntime) -> Result<(), Fail> {
    let text = with_lines(rt.alloc(), CIRCUIT)?;
    let config = config_of(&rt, rt.alloc(), text.as_str());
    assert_circuits(&rt, config.statics.as_slice(), CIRCUITS);
    Ok(())
}

#[test]
fn the_secret_for_changes_is_that_of_radius(rt: HostRuntime) -> Result<(), Fail> {
    let lines = "coa = { local = \"127.0.0.1:3799\", peers = [\"192.0.2.21\"] }";
    let text = with_lines(rt.alloc(), lines)?;
    let config = config_of(&rt, rt.alloc(), text.as_str());
    assert_coa(&rt, &config.coa, 3799, &[0xc000_0215], b"xyzzy5461");
    Ok(())
}

/// The least configuration with these keys in the gateway's table.
fn with_keys(alloc: Global, keys: &str) -> Result<String, AllocError> {
    let text = changed(alloc, LEAST, "nas_ip", "KEYS, nas_ip")?;
    changed(alloc, text.as_str(), "KEYS", keys)
}

/// Keys of the gateway's, and what is read there.
fn numbers_of(
    rt: &impl Abort,
    alloc: Global,
    keys: &str,
    wanted: [u64; 4],
) -> Result<(), AllocError> {
    let text = with_keys(alloc, keys)?;
    let config = config_of(rt, alloc, text.as_str());
    assert_numbers(rt, &config, wanted);
    Ok(())
}

#[test]
fn the_ends_of_each_range_are_in_it(rt: HostRuntime) -> Result<(), Fail> {
    let lowest = "shards = 1, workers = 1, terms = 64, echo = 0";
    numbers_of(&rt, rt.alloc(), lowest, [1, 1, 64, 0])?;
    let highest = "shards = 64, workers = 16, terms = 262144, echo = 3600";
    numbers_of(&rt, rt.alloc(), highest, [64, 16, 262_144, 3600])?;
    Ok(())
}

const LONGEST_OCTETS: &[u8] = b"0123456789abcdef0123456789abcdef0123456789abcdef0123456789abcdef";

/// What stands at a secret, and its octets.
const SECRETS: &[(&str, &[u8])] = &[
    ("x", b"x"),
    (" ", b" "),
    ("\u{e9} \\u0000\\n", b"\xc3\xa9 \x00\n"),
    ("LONGEST", LONGEST_OCTETS),
];

/// The least configuration with this at the secret.
fn with_secret(alloc: Global, secret: &str) -> Result<String, AllocError> {
    let text = changed(alloc, LEAST, "xyzzy5461", secret)?;
    filled(alloc, text.as_str())
}

/// Where this stands at the secret, it has these octets.
fn assert_secret(
    rt: &impl Abort,
    alloc: Global,
    secret: &str,
    octets: &[u8],
) -> Result<(), AllocError> {
    let text = with_secret(alloc, secret)?;
    let config = config_of(rt, alloc, text.as_str());
    assert_octets(rt, config.secret.as_slice(), octets);
    Ok(())
}

#[test]
fn a_secret_has_any_octets_of_a_text(rt: HostRuntime) -> Result<(), Fail> {
    assert_octets(&rt, LONGEST.as_bytes(), LONGEST_OCTETS);
    for (secret, octets) in SECRETS {
        assert_secret(&rt, rt.alloc(), secret, *octets)?;
    }
    Ok(())
}

const SERVICES: &str =
    "services = [\"a b\", \"LONGEST\", \"c\", \"\u{e9}\", \"a b\", \"6\", \"7\", \"8\"], nas_ip";

const NAMES: &[&[u8]] = &[
    b"a b",
    LONGEST_OCTETS,
    b"c",
    b"\xc3\xa9",
    b"a b",
    b"6",
    b"7",
    b"8",
];

/// The least configuration with eight services.
fn with_services(alloc: Global) -> Result<String, AllocError> {
    let text = changed(alloc, LEAST, "nas_ip", SERVICES)?;
    filled(alloc, text.as_str())
}

#[test]
fn services_are_read_in_order(rt: HostRuntime) -> Result<(), Fail> {
    let text = with_services(rt.alloc())?;
    let config = config_of(&rt, rt.alloc(), text.as_str());
    assert_services(&rt, config.services.as_slice(), NAMES);
    Ok(())
}

/// The key of the ways to authenticate, and what is read there.
const WAYS: &[(&str, &[AuthKind])] = &[
    ("auth = [\"chap\"]", &[AuthKind::Chap]),
    ("auth = [\"pap\"]", &[AuthKind::Pap]),
    (
        "auth = [\"chap\", \"pap\"]",
        &[AuthKind::Chap, AuthKind::Pap],
    ),
    (
        "auth = [\"pap\", \"chap\"]",
        &[AuthKind::Pap, AuthKind::Chap],
    ),
];

/// Where this key stands in the gateway's table, the ways to authenticate are these.
fn assert_ways(
    rt: &impl Abort,
    alloc: Global,
    key: &str,
    kinds: &[AuthKind],
) -> Result<(), AllocError> {
    let text = with_keys(alloc, key)?;
    let config = config_of(rt, alloc, text.as_str());
    assert_kinds(rt, config.auth.as_slice(), kinds);
    Ok(())
}

#[test]
fn the_first_way_to_authenticate_comes_first(rt: HostRuntime) -> Result<(), Fail> {
    for (key, kinds) in WAYS {
        assert_ways(&rt, rt.alloc(), key, *kinds)?;
    }
    Ok(())
}
