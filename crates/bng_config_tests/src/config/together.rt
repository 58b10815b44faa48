use super::{FULL, assert_rows, changed, config_of};
use crate::asserts::assert_count;
use std::alloc::{AllocError, Global};
use std::test::Fail;

/// Values that an earlier key has.
const REPEATED: &[(&str, &str, &str)] = &[
    ("127.0.0.1:9002", "127.0.0.1:9000", "C10 control.local"),
    ("127.0.0.1:9010", "127.0.0.1:9000", "C10 access.1.local"),
    ("127.0.0.1:9010", "127.0.0.1:9002", "C10 access.1.local"),
    ("127.0.0.1:9020", "127.0.0.1:9000", "C10 access.2.local"),
    ("127.0.0.1:9020", "127.0.0.1:9002", "C10 access.2.local"),
    ("127.0.0.1:9020", "127.0.0.1:9010", "C10 access.2.local"),
    ("127.0.0.1:9003", "127.0.0.1:9000", "C10 radius.auth_local"),
    ("127.0.0.1:9003", "127.0.0.1:9002", "C10 radius.auth_local"),
    ("127.0.0.1:9003", "127.0.0.1:9010", "C10 radius.auth_local"),
    ("127.0.0.1:9003", "127.0.0.1:9020", "C10 radius.auth_local"),
    ("127.0.0.1:9004", "127.0.0.1:9000", "C10 radius.acct_local"),
    ("127.0.0.1:9004", "127.0.0.1:9020", "C10 radius.acct_local"),
    ("127.0.0.1:9004", "127.0.0.1:9003", "C10 radius.acct_local"),
    ("127.0.0.1:1701", "127.0.0.1:9000", "C10 tunnel.local"),
    ("127.0.0.1:1701", "127.0.0.1:9010", "C10 tunnel.local"),
    ("127.0.0.1:1701", "127.0.0.1:9003", "C10 tunnel.local"),
    ("127.0.0.1:1701", "127.0.0.1:9004", "C10 tunnel.local"),
    ("127.0.0.1:3799", "127.0.0.1:9002", "C10 coa.local"),
    ("127.0.0.1:3799", "127.0.0.1:9020", "C10 coa.local"),
    ("127.0.0.1:3799", "127.0.0.1:9003", "C10 coa.local"),
    ("127.0.0.1:3799", "127.0.0.1:9004", "C10 coa.local"),
    ("127.0.0.1:3799", "127.0.0.1:1701", "C10 coa.local"),
    ("192.0.2.12", "192.0.2.11", "C10 lac.2.ip"),
    ("name = \"b\"", "name = \"a\"", "C10 pool.2.name"),
    ("name = \"bronze\"", "name = \"gold\"", "C10 profile.2.name"),
];

#[test]
fn values_that_an_earlier_key_has_are_told(rt: HostRuntime) -> Result<(), Fail> {
    assert_rows(&rt, rt.alloc(), FULL, REPEATED)?;
    Ok(())
}

/// The full configuration where two keys share what they may: a pool and a profile their name, and a socket its other end.
fn with_shared(alloc: Global) -> Result<String, AllocError> {
    let text = changed(alloc, FULL, "name = \"gold\"", "name = \"a\"")?;
    let text = changed(alloc, text.as_str(), "127.0.0.1:9021", "127.0.0.1:9011")?;
    changed(alloc, text.as_str(), "127.0.0.1:1813", "127.0.0.1:9000")
}

#[test]
fn other_keys_may_have_one_value(rt: HostRuntime) -> Result<(), Fail> {
    let text = with_shared(rt.alloc())?;
    let config = config_of(&rt, rt.alloc(), text.as_str());
    assert_count(&rt, config.profiles.as_slice().len(), 2);
    Ok(())
}

/// Pools that end before they begin, overlap, have the gateway's own address, or too many.
const POOLS: &[(&str, &str, &str)] = &[
    ("10.4.0.0", "10.4.1.0", "C11 pool.1.last"),
    ("10.3.255.1", "10.0.0.1", "C11 pool.2.last"),
    ("10.3.255.1", "10.4.0.0", "C11 pool.2.last"),
    (
        "first = \"10.0.0.2\"",
        "first = \"10.0.0.1\"",
        "C11 pool.2.last",
    ),
    ("10.4.0.0", "10.3.255.1", "C11 pool.2.last"),
    ("10.3.255.1", "10.3.255.2", "C11 pool.2.last"),
    ("10.4.0.255", "10.4.1.0", "C11 pool.2.last"),
    ("10.4.0.255", "10.8.0.0", "C11 pool.1.last"),
    ("\"10.0.0.1\"", "\"10.4.0.0\"", "C11 pool.1.last"),
    ("\"10.0.0.1\"", "\"10.4.0.255\"", "C11 pool.1.last"),
    ("\"10.0.0.1\"", "\"10.0.0.2\"", "C11 pool.2.last"),
    ("\"10.0.0.1\"", "\"10.3.255.1\"", "C11 pool.2.last"),
];

#[test]
fn pools_that_may_not_stand_are_told(rt: HostRuntime) -> Result<(), Fail> {
    assert_rows(&rt, rt.alloc(), FULL, POOLS)?;
    Ok(())
}

/// Directions of which only some numbers are there, or both bursts are 0.
const RATES: &[(&str, &str, &str)] = &[
    ("up_cir = 60\n", "", "C12 profile.1.up_cir"),
    ("up_cbs = 20\n", "", "C12 profile.1.up_cbs"),
    ("up_ebs = 0\n", "", "C12 profile.1.up_ebs"),
    ("up_cir = 60\nup_cbs = 20\n", "", "C12 profile.1.up_cir"),
    ("up_cbs = 20\nup_ebs = 0\n", "", "C12 profile.1.up_cbs"),
    ("up_cbs = 20", "up_cbs = 0", "C12 profile.1.up_cbs"),
    ("down_cir = 1000000000000\n", "", "C12 profile.1.down_cir"),
    ("down_cbs = 0\n", "", "C12 profile.1.down_cbs"),
    ("down_ebs = 4294967295\n", "", "C12 profile.1.down_ebs"),
    (
        "down_ebs = 4294967295",
        "down_ebs = 0",
        "C12 profile.1.down_cbs",
    ),
    (
        "name = \"bronze\"\n",
        "name = \"bronze\"\nup_ebs = 1\n",
        "C12 profile.2.up_cir",
    ),
    (
        "name = \"bronze\"\n",
        "name = \"bronze\"\ndown_cir = 1\n",
        "C12 profile.2.down_cbs",
    ),
];

#[test]
fn numbers_of_a_direction_are_all_there_or_none(rt: HostRuntime) -> Result<(), Fail> {
    assert_rows(&rt, rt.alloc(), FULL, RATES)?;
    Ok(())
}

/// LACs without a tunnel, and circuits that share what is their own, or name what there is not.
const CIRCUITS: &[(&str, &str, &str)] = &[
    ("[tunnel]\nlocal = \"127.0.0.1:1701\"\n", "", "C13 lac"),
    ("session = 65534", "session = 1025", "C14 static.2.session"),
    ("\"10.0.0.3\"", "\"10.0.0.2\"", "C14 static.2.address"),
    ("\"10.0.0.3\"", "\"10.0.0.1\"", "C14 static.2.address"),
    ("\"10.0.0.3\"", "\"10.3.255.2\"", "C14 static.2.address"),
    ("\"10.0.0.3\"", "\"10.4.1.0\"", "C14 static.2.address"),
    (
        "\"10.0.0.3\"",
        "\"255.255.255.255\"",
        "C14 static.2.address",
    ),
    (
        "address = \"10.0.0.2\"",
        "address = \"10.3.255.255\"",
        "C14 static.1.address",
    ),
    (
        "profile = \"bronze\"",
        "profile = \"silver\"",
        "C14 static.1.profile",
    ),
    (
        "profile = \"bronze\"",
        "profile = \"bron\"",
        "C14 static.1.profile",
    ),
    (
        "profile = \"bronze\"",
        "profile = \"bronze2\"",
        "C14 static.1.profile",
    ),
    (
        "profile = \"bronze\"",
        "profile = \"Bronze\"",
        "C14 static.1.profile",
    ),
    (
        "profile = \"bronze\"",
        "profile = \"\"",
        "C14 static.1.profile",
    ),
    (
        "profile = \"bronze\"",
        "profile = \"default\"",
        "C14 static.1.profile",
    ),
    (
        "user = \"fixed2\"\n",
        "user = \"fixed2\"\nprofile = \"a\"\n",
        "C14 static.2.profile",
    ),
];

#[test]
fn circuits_that_may_not_stand_are_told(rt: HostRuntime) -> Result<(), Fail> {
    assert_rows(&rt, rt.alloc(), FULL, CIRCUITS)?;
    Ok(())
}
