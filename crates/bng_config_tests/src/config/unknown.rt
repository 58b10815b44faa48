use super::{FULL, LEAST, assert_rows};
use std::test::Fail;

/// A name that is not known, in each table, and as a table.
const UNKNOWN: &[(&str, &str, &str)] = &[
    ("echo = 0\n", "echo = 0\nspeed = 1\n", "C3 gateway.speed"),
    ("[core]\n", "[core]\nspeed = 1\n", "C3 core.speed"),
    ("[control]\n", "[control]\npeer = 1\n", "C3 control.peer"),
    (
        "mac = \"02:00:00:00:00:fe\"",
        "macs = 1",
        "C3 access.1.macs",
    ),
    (
        "mac = \"02:00:00:00:00:ff\"\n",
        "mac = \"02:00:00:00:00:ff\"\nspeed = 1\n",
        "C3 access.2.speed",
    ),
    ("tries = 3", "retries = 3", "C3 radius.retries"),
    ("[tunnel]\n", "[tunnel]\nip = 1\n", "C3 tunnel.ip"),
    ("ip = \"192.0.2.12\"", "address = 1", "C3 lac.2.address"),
    ("[coa]\n", "[coa]\npeer = 1\n", "C3 coa.peer"),
    ("name = \"b\"", "names = 2", "C3 pool.2.names"),
    ("down_cbs = 0", "down = 0", "C3 profile.1.down"),
    (
        "name = \"bronze\"\n",
        "name = \"bronze\"\nup = 0\n",
        "C3 profile.2.up",
    ),
    ("user = \"fixed2\"", "users = 2", "C3 static.2.users"),
    ("[radius]", "[radios]", "C3 radios"),
    ("[core]\n", "[cores]\nspeed = 1\n[core]\n", "C3 cores"),
    ("[gateway]\n", "speed = 1\n[gateway]\n", "C3 speed"),
    ("[gateway]\n", "Gateway = 1\n[gateway]\n", "C3 Gateway"),
    ("echo = 0", "ECHO = 0", "C3 gateway.ECHO"),
    ("echo = 0", "\"\" = 0", "C3 gateway."),
    ("echo = 0", "\"\u{e9} x\" = 0", "C3 gateway.\u{e9} x"),
    ("echo = 0", "ech = 0", "C3 gateway.ech"),
];

#[test]
fn each_unknown_name_is_told(rt: HostRuntime) -> Result<(), Fail> {
    assert_rows(&rt, rt.alloc(), FULL, UNKNOWN)?;
    Ok(())
}

/// Of several names the first is told: by table, by entry, and then in the order of the octets. Those of tables come last.
const SEVERAL: &[(&str, &str, &str)] = &[
    (
        "echo = 0\n",
        "echo = 0\nzeta = 1\nalpha = 1\n",
        "C3 gateway.alpha",
    ),
    ("echo = 0\n", "echo = 0\na = 1\nB = 1\n", "C3 gateway.B"),
    ("echo = 0\n", "echo = 0\nab = 1\na = 1\n", "C3 gateway.a"),
    ("[core]\n", "[alpha]\n[core]\nzeta = 1\n", "C3 core.zeta"),
    (
        "[control]\n",
        "[control]\na = 1\n[zeta]\n[alpha]\n",
        "C3 control.a",
    ),
    ("[core]\n", "[zeta]\n[alpha]\n[core]\n", "C3 alpha"),
    (
        "[[access]]\nlocal = \"127.0.0.1:9020\"",
        "alpha = 1\n[[access]]\nzeta = 1\nlocal = \"127.0.0.1:9020\"",
        "C3 access.1.alpha",
    ),
    (
        "[tunnel]\n",
        "zeta = 1\n[tunnel]\nalpha = 1\n",
        "C3 radius.zeta",
    ),
];

#[test]
fn of_several_unknown_names_the_first_is_told(rt: HostRuntime) -> Result<(), Fail> {
    assert_rows(&rt, rt.alloc(), FULL, SEVERAL)?;
    Ok(())
}

/// Only a table has names that may be unknown: what is no table, or no list of tables, breaks a later rule.
const NO_TABLES: &[(&str, &str, &str)] = &[
    ("access = [{", "access = { speed = 1 } # [{", "C5 access"),
    (
        "access = [{",
        "access = [[{ speed = 1 }]] # [{",
        "C4 access.1.local",
    ),
    (
        "control = {",
        "control = [{ speed = 1 }] # {",
        "C4 control.local",
    ),
    ("name = \"main\"", "name = { speed = 1 }", "C5 pool.1.name"),
];

#[test]
fn what_is_no_table_has_no_unknown_names(rt: HostRuntime) -> Result<(), Fail> {
    assert_rows(&rt, rt.alloc(), LEAST, NO_TABLES)?;
    Ok(())
}
