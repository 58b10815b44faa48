use super::{assert_told, changed, config_of};
use crate::asserts::assert_octets;
use std::alloc::{AllocError, Global};
use std::process::Abort;
use std::test::Fail;

/// Each rule is broken, the higher ones in earlier tables.
const EACH_RULE: &str = r#"[gateway]
name = ""
address = "10.0.0.1"
nas_ip = "192.168.1"
shards = 0
services = ["1", "2", "3", "4", "5", "6", "7", "8", "ninth"]
auth = ["eap"]
speed = 1
[core]
local = "127.0.0.1:9000"
[control]
local = "127.0.0.1:9000"
[[access]]
local = "127.0.0.1:9010"
peer = "127.0.0.1:9011"
mac = "02:00:00:00:00:fe"
[radius]
auth_local = "127.0.0.1:9003"
auth_server = "127.0.0.1:1812"
acct_local = "127.0.0.1:9004"
acct_server = "127.0.0.1:1813"
secret = "xyzzy5461"
[[lac]]
ip = "192.0.2.11"
[[pool]]
name = "main"
first = "10.0.0.9"
last = "10.0.0.2"
[[profile]]
name = "gold"
up_cir = 60
up_cbs = 20
[[static]]
port = 1
mac = "02:00:00:00:00:01"
session = 1025
address = "10.0.0.10"
user = "fixed1"
profile = "silver"
"#;

/// What is told, what stands there, and what mends it.
const RULES: &[(&str, &str, &str)] = &[
    ("C3 gateway.speed", "speed = 1\n", ""),
    (
        "C4 core.peer",
        "[core]\n",
        "[core]\npeer = \"127.0.0.1:9001\"\n",
    ),
    ("C5 gateway.nas_ip", "192.168.1", "192.168.1.16"),
    ("C6 gateway.shards", "shards = 0", "shards = 4"),
    ("C7 gateway.name", "name = \"\"", "name = \"bng1\""),
    ("C8 gateway.services", ", \"ninth\"", ""),
    ("C9 gateway.auth", "eap", "pap"),
    (
        "C10 control.local",
        "[control]\nlocal = \"127.0.0.1:9000\"",
        "[control]\nlocal = \"127.0.0.1:9002\"",
    ),
    ("C11 pool.1.last", "10.0.0.2", "10.0.0.99"),
    (
        "C12 profile.1.up_ebs",
        "up_cbs = 20",
        "up_cbs = 20\nup_ebs = 0",
    ),
    (
        "C13 lac",
        "[[lac]]",
        "[tunnel]\nlocal = \"127.0.0.1:1701\"\n[[lac]]",
    ),
    ("C14 static.1.profile", "silver", "gold"),
];

/// Tells what is wrong with the text, and mends it: what is left.
fn mended_once(
    rt: &impl Abort,
    alloc: Global,
    text: &str,
    row: &(&str, &str, &str),
) -> Result<String, AllocError> {
    let (wanted, line, other) = *row;
    assert_told(rt, alloc, text.as_bytes(), wanted)?;
    changed(alloc, text, line, other)
}

/// Tells what is wrong with the text, mends it, and goes on until nothing is: what is left.
fn mended(
    rt: &impl Abort,
    alloc: Global,
    whole: &str,
    rows: &[(&str, &str, &str)],
) -> Result<String, AllocError> {
    let mut text = String::from_str(alloc, whole)?;
    for row in rows {
        text = mended_once(rt, alloc, text.as_str(), row)?;
    }
    Ok(text)
}

#[test]
fn a_lower_rule_is_told_first(rt: HostRuntime) -> Result<(), Fail> {
    let text = mended(&rt, rt.alloc(), EACH_RULE, RULES)?;
    let config = config_of(&rt, rt.alloc(), text.as_str());
    assert_octets(&rt, config.name.as_slice(), b"bng1");
    Ok(())
}

/// A number with a point stands at each key, which no key may have.
const EACH_KEY: &str = r#"[[static]]
profile = 77.47
user = 77.46
address = 77.45
session = 77.44
mac = 77.43
port = 77.42
[[profile]]
down_ebs = 77.41
down_cbs = 77.40
down_cir = 77.39
up_ebs = 77.38
up_cbs = 77.37
up_cir = 77.36
name = 77.35
[[pool]]
last = 77.34
first = 77.33
name = 77.32
[coa]
secret = 77.31
peers = 77.30
local = 77.29
[[lac]]
secret = 77.28
ip = 77.27
[tunnel]
local = 77.26
[radius]
tries = 77.25
secret = 77.24
acct_server = 77.23
acct_local = 77.22
auth_server = 77.21
auth_local = 77.20
[[access]]
mac = 77.16
peer = 77.15
local = 77.14
[[access]]
mac = 77.19
peer = 77.18
local = 77.17
[control]
local = 77.13
[core]
peer = 77.12
local = 77.11
[gateway]
echo = 77.10
auth = 77.09
dns = 77.08
services = 77.07
terms = 77.06
workers = 77.05
shards = 77.04
nas_ip = 77.03
address = 77.02
name = 77.01
"#;

/// By table, by entry, and by the key's place in its table, wherever it stands in the text.
const KEYS: &[(&str, &str, &str)] = &[
    ("C5 gateway.name", "77.01", "\"bng1\""),
    ("C5 gateway.address", "77.02", "\"10.0.0.1\""),
    ("C5 gateway.nas_ip", "77.03", "\"192.168.1.16\""),
    ("C5 gateway.shards", "77.04", "4"),
    ("C5 gateway.workers", "77.05", "2"),
    ("C5 gateway.terms", "77.06", "64"),
    ("C5 gateway.services", "77.07", "[]"),
    ("C5 gateway.dns", "77.08", "[]"),
    ("C5 gateway.auth", "77.09", "[\"chap\"]"),
    ("C5 gateway.echo", "77.10", "0"),
    ("C5 core.local", "77.11", "\"127.0.0.1:9000\""),
    ("C5 core.peer", "77.12", "\"127.0.0.1:9001\""),
    ("C5 control.local", "77.13", "\"127.0.0.1:9002\""),
    ("C5 access.1.local", "77.14", "\"127.0.0.1:9010\""),
    ("C5 access.1.peer", "77.15", "\"127.0.0.1:9011\""),
    ("C5 access.1.mac", "77.16", "\"02:00:00:00:00:fe\""),
    ("C5 access.2.local", "77.17", "\"127.0.0.1:9020\""),
    ("C5 access.2.peer", "77.18", "\"127.0.0.1:9021\""),
    ("C5 access.2.mac", "77.19", "\"02:00:00:00:00:ff\""),
    ("C5 radius.auth_local", "77.20", "\"127.0.0.1:9003\""),
    ("C5 radius.auth_server", "77.21", "\"127.0.0.1:1812\""),
    ("C5 radius.acct_local", "77.22", "\"127.0.0.1:9004\""),
    ("C5 radius.acct_server", "77.23", "\"127.0.0.1:1813\""),
    ("C5 radius.secret", "77.24", "\"xyzzy5461\""),
    ("C5 radius.tries", "77.25", "4"),
    ("C5 tunnel.local", "77.26", "\"127.0.0.1:1701\""),
    ("C5 lac.1.ip", "77.27", "\"192.0.2.11\""),
    ("C5 lac.1.secret", "77.28", "\"tunnel\""),
    ("C5 coa.local", "77.29", "\"127.0.0.1:3799\""),
    ("C5 coa.peers", "77.30", "[\"192.0.2.21\"]"),
    ("C5 coa.secret", "77.31", "\"change\""),
    ("C5 pool.1.name", "77.32", "\"main\""),
    ("C5 pool.1.first", "77.33", "\"10.0.0.2\""),
    ("C5 pool.1.last", "77.34", "\"10.0.0.99\""),
    ("C5 profile.1.name", "77.35", "\"gold\""),
    ("C5 profile.1.up_cir", "77.36", "60"),
    ("C5 profile.1.up_cbs", "77.37", "20"),
    ("C5 profile.1.up_ebs", "77.38", "0"),
    ("C5 profile.1.down_cir", "77.39", "60"),
    ("C5 profile.1.down_cbs", "77.40", "20"),
    ("C5 profile.1.down_ebs", "77.41", "0"),
    ("C5 static.1.port", "77.42", "2"),
    ("C5 static.1.mac", "77.43", "\"02:00:00:00:00:01\""),
    ("C5 static.1.session", "77.44", "1025"),
    ("C5 static.1.address", "77.45", "\"10.0.0.2\""),
    ("C5 static.1.user", "77.46", "\"fixed1\""),
    ("C5 static.1.profile", "77.47", "\"gold\""),
];

#[test]
fn an_earlier_key_is_told_first(rt: HostRuntime) -> Result<(), Fail> {
    let text = mended(&rt, rt.alloc(), EACH_KEY, KEYS)?;
    let config = config_of(&rt, rt.alloc(), text.as_str());
    assert_octets(&rt, config.name.as_slice(), b"bng1");
    Ok(())
}
