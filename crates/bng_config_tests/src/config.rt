use crate::asserts::{assert_count, assert_octets};
use bng_base::{AuthKind, Listed, Rate};
use bng_config::{Config, ConfigError, Fault, fault_text, read};
use bng_schema::{Field, Key, Rule, Table};
use std::alloc::{AllocError, Global};
use std::process::Abort;
use std::test::Fail;

mod defaults;
mod example;
mod forms;
mod lists;
mod order;
mod parts;
mod together;
mod unknown;

use parts::{
    CircuitRow, PoolRow, PortRow, ProfileRow, assert_address, assert_addresses, assert_circuits,
    assert_coa, assert_kinds, assert_lacs, assert_numbers, assert_pools, assert_ports,
    assert_profiles, assert_services, assert_sockets,
};

/// A configuration with all tables and keys. The two pools have all addresses that there is room for.
const FULL: &str = r#"[gateway]
name = "bng1"
address = "10.0.0.1"
nas_ip = "192.168.1.16"
shards = 64
workers = 16
terms = 8192
services = ["inet"]
dns = ["192.0.2.53", "192.0.2.54"]
auth = ["pap", "chap"]
echo = 0
[core]
local = "127.0.0.1:9000"
peer = "127.0.0.1:9001"
[control]
local = "127.0.0.1:9002"
[[access]]
local = "127.0.0.1:9010"
peer = "127.0.0.1:9011"
mac = "02:00:00:00:00:fe"
[[access]]
local = "127.0.0.1:9020"
peer = "127.0.0.1:9021"
mac = "02:00:00:00:00:ff"
[radius]
auth_local = "127.0.0.1:9003"
auth_server = "127.0.0.1:1812"
acct_local = "127.0.0.1:9004"
acct_server = "127.0.0.1:1813"
secret = "xyzzy5461"
tries = 3
[tunnel]
local = "127.0.0.1:1701"
[[lac]]
ip = "192.0.2.11"
secret = "tunnel"
[[lac]]
ip = "192.0.2.12"
[coa]
local = "127.0.0.1:3799"
peers = ["192.0.2.21", "192.0.2.22"]
secret = "change"
[[pool]]
name = "a"
first = "10.4.0.0"
last = "10.4.0.255"
[[pool]]
name = "b"
first = "10.0.0.2"
last = "10.3.255.1"
[[profile]]
name = "gold"
up_cir = 60
up_cbs = 20
up_ebs = 0
down_cir = 1000000000000
down_cbs = 0
down_ebs = 4294967295
[[profile]]
name = "bronze"
[[static]]
port = 1
mac = "02:00:00:00:00:01"
session = 1025
address = "10.0.0.2"
user = "fixed1"
profile = "bronze"
[[static]]
port = 2
mac = "02:00:00:00:00:02"
session = 65534
address = "10.0.0.3"
user = "fixed2"
"#;

/// No more than there must be.
const LEAST: &str = r#"gateway = { name = "~!", address = "10.0.0.1", nas_ip = "0.0.0.0" }
core = { local = "127.0.0.1:9000", peer = "127.0.0.1:9001" }
control = { local = "127.0.0.1:9002" }
access = [{ local = "127.0.0.1:9010", peer = "127.0.0.1:9011", mac = "02:00:00:00:00:fe" }]
radius = { auth_local = "127.0.0.1:9003", auth_server = "127.0.0.1:9000", acct_local = "127.0.0.1:9004", acct_server = "127.0.0.1:9000", secret = "xyzzy5461" }
pool = [{ name = "main", first = "10.0.0.2", last = "10.0.0.101" }]
"#;

/// 64 octets.
const LONGEST: &str = "0123456789abcdef0123456789abcdef0123456789abcdef0123456789abcdef";

fn config_of(rt: &impl Abort, alloc: Global, text: &str) -> Config {
    match read(alloc, text.as_bytes()) {
        Ok(config) => config,
        Err(_) => panic!(rt; "no configuration"),
    }
}

/// What is written of the fault.
fn written(alloc: Global, fault: &Fault) -> Result<Vec<u8>, AllocError> {
    let text = fault_text(fault);
    let mut line = Vec::from_slice(alloc, text.front.as_bytes())?;
    line.extend_from_slice(text.name)?;
    Ok(line)
}

fn fault_of(rt: &impl Abort, alloc: Global, text: &[u8]) -> Fault {
    match read(alloc, text) {
        Err(ConfigError::Refused(fault)) => fault,
        Err(ConfigError::OutOfMemory) => panic!(rt; "memory"),
        Ok(_) => panic!(rt; "a configuration"),
    }
}

/// This is told of a text.
fn assert_told(
    rt: &impl Abort,
    alloc: Global,
    text: &[u8],
    wanted: &str,
) -> Result<(), AllocError> {
    let fault = fault_of(rt, alloc, text);
    let line = written(alloc, &fault)?;
    assert_octets(rt, line.as_slice(), wanted.as_bytes());
    Ok(())
}

/// These three texts as one.
fn joined(alloc: Global, front: &str, middle: &str, back: &str) -> Result<String, AllocError> {
    let mut text = String::from_str(alloc, front)?;
    text.push_str(middle)?;
    text.push_str(back)?;
    Ok(text)
}

/// The text with another line in the place of this one, where it stands last.
/// It is empty where that line does not stand.
fn changed(alloc: Global, whole: &str, line: &str, other: &str) -> Result<String, AllocError> {
    match whole.rsplit_once(line) {
        Some((front, back)) => joined(alloc, front, other, back),
        None => Ok(String::new(alloc)),
    }
}

/// The text with 64 octets in the place of the word `LONGEST`, where it has that word.
fn filled(alloc: Global, whole: &str) -> Result<String, AllocError> {
    match whole.rsplit_once("LONGEST") {
        Some(_) => changed(alloc, whole, "LONGEST", LONGEST),
        None => String::from_str(alloc, whole),
    }
}

/// The text with 64 octets in the place of each of the last two words `LONGEST`, as far as it has them.
fn filled_twice(alloc: Global, whole: &str) -> Result<String, AllocError> {
    let text = filled(alloc, whole)?;
    filled(alloc, text.as_str())
}

/// A line of a configuration, another in its place, and what is told then.
type Row<'a> = (&'a str, &'a str, &'a str);

/// This is told of a configuration with the other line of a row.
fn assert_row(rt: &impl Abort, alloc: Global, whole: &str, row: &Row) -> Result<(), AllocError> {
    let (line, other, wanted) = *row;
    let text = changed(alloc, whole, line, other)?;
    let text = filled_twice(alloc, text.as_str())?;
    assert_told(rt, alloc, text.as_bytes(), wanted)
}

/// Each row is a line of the configuration, what is put in its place, and what is told then.
fn assert_rows(
    rt: &impl Abort,
    alloc: Global,
    whole: &str,
    rows: &[Row],
) -> Result<(), AllocError> {
    for row in rows {
        assert_row(rt, alloc, whole, row)?;
    }
    Ok(())
}

/// The lists of the full configuration's gateway.
fn assert_lists(rt: &impl Abort, config: &Config) {
    assert_services(rt, config.services.as_slice(), &[b"inet"]);
    assert_addresses(rt, config.dns.as_slice(), &[0xc000_0235, 0xc000_0236]);
    assert_kinds(rt, config.auth.as_slice(), &[AuthKind::Pap, AuthKind::Chap]);
}

/// What the gateway is, of the full configuration.
fn assert_gateway(rt: &impl Abort, config: &Config) {
    assert_octets(rt, config.name.as_slice(), b"bng1");
    assert_address(rt, config.address, 0x0a00_0001);
    assert_address(rt, config.nas_ip, 0xc0a8_0110);
    assert_numbers(rt, config, [64, 16, 8192, 0]);
    assert_lists(rt, config);
}

const ENDS: &[PortRow] = &[(9010, 9011, 0xfe), (9020, 9021, 0xff)];

const CONCENTRATORS: &[(u32, &[u8])] = &[(0xc000_020b, b"tunnel"), (0xc000_020c, b"")];

const PEERS: &[u32] = &[0xc000_0215, 0xc000_0216];

#[test]
fn each_key_is_read(rt: HostRuntime) {
    let config = config_of(&rt, rt.alloc(), FULL);
    assert_gateway(&rt, &config);
    assert_sockets(&rt, &config, 3);
    assert_ports(&rt, config.access.as_slice(), ENDS);
    assert_lacs(&rt, config.lacs.as_slice(), CONCENTRATORS);
    assert_coa(&rt, &config.coa, 3799, PEERS, b"change");
}

const RANGES: &[PoolRow] = &[
    (b"a", 0x0a04_0000, 0x0a04_00ff),
    (b"b", 0x0a00_0002, 0x0a03_ff01),
];

const UP: Rate = Rate {
    cir: 60,
    cbs: 20,
    ebs: 0,
};

const DOWN: Rate = Rate {
    cir: 1_000_000_000_000,
    cbs: 0,
    ebs: 4_294_967_295,
};

const METERS: &[ProfileRow] = &[(b"gold", Some(UP), Some(DOWN)), (b"bronze", None, None)];

const CIRCUITS: &[CircuitRow] = &[
    (1, 1, 1025, 0x0a00_0002, b"fixed1", 1),
    (2, 2, 65_534, 0x0a00_0003, b"fixed2", 0),
];

#[test]
fn each_entry_is_read_in_order(rt: HostRuntime) {
    let config = config_of(&rt, rt.alloc(), FULL);
    assert_pools(&rt, config.pools.as_slice(), RANGES);
    assert_profiles(&rt, config.profiles.as_slice(), METERS);
    assert_circuits(&rt, config.statics.as_slice(), CIRCUITS);
}

/// A text, and what is told of it.
const TEXTS: &[(&[u8], &str)] = &[
    (b"shards = ", "C2 text"),
    (b"# \xff\n", "C2 text"),
    (b"", "C4 gateway"),
];

/// This is told of so many empty lines.
fn assert_told_of_lines(
    rt: &impl Abort,
    alloc: Global,
    count: usize,
    wanted: &str,
) -> Result<(), AllocError> {
    let text = vec![in alloc; b'\n'; count]?;
    assert_told(rt, alloc, text.as_slice(), wanted)
}

#[test]
fn each_rule_of_the_text_is_told(rt: HostRuntime) -> Result<(), Fail> {
    for (text, wanted) in TEXTS {
        assert_told(&rt, rt.alloc(), text, wanted)?;
    }
    assert_told_of_lines(&rt, rt.alloc(), 1_048_576, "C4 gateway")?;
    assert_told_of_lines(&rt, rt.alloc(), 1_048_577, "C1 text")?;
    Ok(())
}

/// A rule and a key, and what is written of them.
const WRITTEN: &[(Rule, Key, &str)] = &[
    (Rule::C4, Key::Whole(Table::Gateway), "C4 gateway"),
    (Rule::C8, Key::Whole(Table::Static), "C8 static"),
    (
        Rule::C6,
        Key::Of(Field::GatewayTerms, 0),
        "C6 gateway.terms",
    ),
    (
        Rule::C10,
        Key::Of(Field::RadiusAcctLocal, 0),
        "C10 radius.acct_local",
    ),
    (Rule::C5, Key::Of(Field::LacIp, 9), "C5 lac.10.ip"),
    (
        Rule::C12,
        Key::Of(Field::ProfileDownCbs, 15),
        "C12 profile.16.down_cbs",
    ),
    (
        Rule::C14,
        Key::Of(Field::StaticProfile, 1023),
        "C14 static.1024.profile",
    ),
    (
        Rule::C7,
        Key::Of(Field::StaticUser, usize::MAX),
        "C7 static.18446744073709551616.user",
    ),
];

/// This is written of a fault.
fn assert_written(
    rt: &impl Abort,
    alloc: Global,
    fault: &Fault,
    wanted: &str,
) -> Result<(), AllocError> {
    let line = written(alloc, fault)?;
    assert_octets(rt, line.as_slice(), wanted.as_bytes());
    Ok(())
}

/// The fault of an unknown name.
fn unknown_name(alloc: Global, name: &[u8]) -> Result<Fault, AllocError> {
    let name = Vec::from_slice(alloc, name)?;
    Ok(Fault::Unknown(Listed::of(name)))
}

#[test]
fn a_fault_is_written_by_its_rule_and_its_key(rt: HostRuntime) -> Result<(), Fail> {
    for (rule, key, wanted) in WRITTEN {
        assert_written(&rt, rt.alloc(), &Fault::Broken(*rule, *key), wanted)?;
    }
    let fault = unknown_name(rt.alloc(), b"pool.2.speed")?;
    assert_written(&rt, rt.alloc(), &fault, "C3 pool.2.speed")?;
    Ok(())
}

/// Each list of the full configuration has two entries.
fn assert_two_of_each(rt: &impl Abort, config: &Config) {
    assert_count(rt, config.access.as_slice().len(), 2);
    assert_count(rt, config.lacs.as_slice().len(), 2);
    assert_count(rt, config.pools.as_slice().len(), 2);
    assert_count(rt, config.profiles.as_slice().len(), 2);
    assert_count(rt, config.statics.as_slice().len(), 2);
}

#[test]
fn want_of_memory_is_no_fault(rt: HostRuntime) {
    match read(rt.alloc(), FULL.as_bytes()) {
        Ok(config) => assert_two_of_each(&rt, &config),
        Err(ConfigError::OutOfMemory) => {}
        Err(ConfigError::Refused(_)) => panic!(rt; "a fault"),
    }
}

#[test]
fn want_of_memory_for_a_name_is_no_fault(rt: HostRuntime) {
    match read(rt.alloc(), b"speed = 1\n") {
        Ok(_) => panic!(rt; "a configuration"),
        Err(ConfigError::OutOfMemory) => {}
        Err(ConfigError::Refused(Fault::Unknown(name))) => {
            assert_octets(&rt, name.as_slice(), b"speed");
        }
        Err(ConfigError::Refused(_)) => panic!(rt; "another fault"),
    }
}
