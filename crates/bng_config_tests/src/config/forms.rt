use super::{FULL, LEAST, LONGEST, assert_rows, changed, config_of};
use crate::asserts::{assert_count, assert_octets};
use bng_base::NamedRange;
use std::alloc::{AllocError, Global};
use std::process::Abort;
use std::test::Fail;

/// What must be there, and is not.
const MISSING: &[(&str, &str, &str)] = &[
    (
        "[core]\nlocal = \"127.0.0.1:9000\"\npeer = \"127.0.0.1:9001\"\n",
        "",
        "C4 core",
    ),
    ("[control]\nlocal = \"127.0.0.1:9002\"\n", "", "C4 control"),
    ("name = \"bng1\"\n", "", "C4 gateway.name"),
    ("address = \"10.0.0.1\"\n", "", "C4 gateway.address"),
    ("nas_ip = \"192.168.1.16\"\n", "", "C4 gateway.nas_ip"),
    ("local = \"127.0.0.1:9000\"\n", "", "C4 core.local"),
    ("peer = \"127.0.0.1:9001\"\n", "", "C4 core.peer"),
    ("local = \"127.0.0.1:9002\"\n", "", "C4 control.local"),
    ("local = \"127.0.0.1:9010\"\n", "", "C4 access.1.local"),
    ("peer = \"127.0.0.1:9011\"\n", "", "C4 access.1.peer"),
    ("mac = \"02:00:00:00:00:fe\"\n", "", "C4 access.1.mac"),
    ("local = \"127.0.0.1:9020\"\n", "", "C4 access.2.local"),
    ("peer = \"127.0.0.1:9021\"\n", "", "C4 access.2.peer"),
    ("mac = \"02:00:00:00:00:ff\"\n", "", "C4 access.2.mac"),
    (
        "auth_local = \"127.0.0.1:9003\"\n",
        "",
        "C4 radius.auth_local",
    ),
    (
        "auth_server = \"127.0.0.1:1812\"\n",
        "",
        "C4 radius.auth_server",
    ),
    (
        "acct_local = \"127.0.0.1:9004\"\n",
        "",
        "C4 radius.acct_local",
    ),
    (
        "acct_server = \"127.0.0.1:1813\"\n",
        "",
        "C4 radius.acct_server",
    ),
    ("secret = \"xyzzy5461\"\n", "", "C4 radius.secret"),
    ("local = \"127.0.0.1:1701\"\n", "", "C4 tunnel.local"),
    ("ip = \"192.0.2.11\"\n", "", "C4 lac.1.ip"),
    ("ip = \"192.0.2.12\"\n", "", "C4 lac.2.ip"),
    ("local = \"127.0.0.1:3799\"\n", "", "C4 coa.local"),
    (
        "peers = [\"192.0.2.21\", \"192.0.2.22\"]\n",
        "",
        "C4 coa.peers",
    ),
    ("name = \"a\"\n", "", "C4 pool.1.name"),
    ("name = \"b\"\n", "", "C4 pool.2.name"),
    ("first = \"10.4.0.0\"\n", "", "C4 pool.1.first"),
    ("last = \"10.3.255.1\"\n", "", "C4 pool.2.last"),
    ("name = \"gold\"\n", "", "C4 profile.1.name"),
    ("name = \"bronze\"\n", "", "C4 profile.2.name"),
    ("port = 1\n", "", "C4 static.1.port"),
    ("mac = \"02:00:00:00:00:01\"\n", "", "C4 static.1.mac"),
    ("session = 1025\n", "", "C4 static.1.session"),
    ("address = \"10.0.0.2\"\n", "", "C4 static.1.address"),
    ("user = \"fixed1\"\n", "", "C4 static.1.user"),
    ("user = \"fixed2\"\n", "", "C4 static.2.user"),
];

#[test]
fn what_is_missing_is_told(rt: HostRuntime) -> Result<(), Fail> {
    assert_rows(&rt, rt.alloc(), FULL, MISSING)?;
    Ok(())
}

/// Tables that are missing, are empty, or are none.
const TABLES: &[(&str, &str, &str)] = &[
    ("gateway = {", "# {", "C4 gateway"),
    ("gateway = {", "gateway = 1 # {", "C4 gateway.name"),
    ("core = {", "core = [] # {", "C4 core.local"),
    ("control = {", "control = {} # {", "C4 control.local"),
    ("access = [{", "# [{", "C4 access"),
    ("access = [{", "access = [1] # [{", "C4 access.1.local"),
    ("access = [{", "access = [{}] # [{", "C4 access.1.local"),
    ("radius = {", "# {", "C4 radius"),
    ("radius = {", "radius = \"\" # {", "C4 radius.auth_local"),
    ("pool = [{", "# [{", "C4 pool"),
    ("pool = [{", "pool = [true] # [{", "C4 pool.1.name"),
    ("pool = [{", "tunnel = {}\npool = [{", "C4 tunnel.local"),
    ("pool = [{", "tunnel = 1\npool = [{", "C4 tunnel.local"),
    ("pool = [{", "coa = {}\npool = [{", "C4 coa.local"),
    ("pool = [{", "lac = [1]\npool = [{", "C4 lac.1.ip"),
    (
        "pool = [{",
        "profile = [{}]\npool = [{",
        "C4 profile.1.name",
    ),
    ("pool = [{", "static = [1]\npool = [{", "C4 static.1.port"),
    ("access = [{", "access = 1 # [{", "C5 access"),
    ("access = [{", "access = {} # [{", "C5 access"),
    ("pool = [{", "pool = {} # [{", "C5 pool"),
    ("pool = [{", "lac = {}\npool = [{", "C5 lac"),
    ("pool = [{", "profile = 1\npool = [{", "C5 profile"),
    ("pool = [{", "static = \"\"\npool = [{", "C5 static"),
    ("access = [{", "access = [] # [{", "C8 access"),
    ("pool = [{", "pool = [] # [{", "C8 pool"),
];

#[test]
fn tables_have_their_forms(rt: HostRuntime) -> Result<(), Fail> {
    assert_rows(&rt, rt.alloc(), LEAST, TABLES)?;
    Ok(())
}

/// Values of another type, and texts outside their form.
const FORMS: &[(&str, &str, &str)] = &[
    ("name = \"bng1\"", "name = 1", "C5 gateway.name"),
    (
        "address = \"10.0.0.1\"",
        "address = 1",
        "C5 gateway.address",
    ),
    ("\"10.0.0.1\"", "\"10.0.0\"", "C5 gateway.address"),
    ("\"10.0.0.1\"", "\"\"", "C5 gateway.address"),
    ("\"192.168.1.16\"", "3232235792", "C5 gateway.nas_ip"),
    ("192.168.1.16", "192.168.1.016", "C5 gateway.nas_ip"),
    ("192.168.1.16", "192.168.1.256", "C5 gateway.nas_ip"),
    ("192.168.1.16", "192.168.1.16:1", "C5 gateway.nas_ip"),
    ("192.168.1.16", "192.168.1.+16", "C5 gateway.nas_ip"),
    ("192.168.1.16", " 192.168.1.16", "C5 gateway.nas_ip"),
    ("shards = 64", "shards = \"4\"", "C5 gateway.shards"),
    ("shards = 64", "shards = 4.0", "C5 gateway.shards"),
    ("workers = 16", "workers = true", "C5 gateway.workers"),
    ("terms = 8192", "terms = [64]", "C5 gateway.terms"),
    ("[\"inet\"]", "\"inet\"", "C5 gateway.services"),
    ("[\"inet\"]", "[\"a\", 1]", "C5 gateway.services"),
    ("[\"inet\"]", "{}", "C5 gateway.services"),
    ("dns = [", "dns = 1 # [", "C5 gateway.dns"),
    ("\"192.0.2.54\"", "1", "C5 gateway.dns"),
    ("\"192.0.2.54\"", "\"192.0.2\"", "C5 gateway.dns"),
    ("[\"pap\", \"chap\"]", "\"chap\"", "C5 gateway.auth"),
    ("[\"pap\", \"chap\"]", "[\"pap\", 1]", "C5 gateway.auth"),
    ("echo = 0", "echo = 1979-05-27", "C5 gateway.echo"),
    ("\"127.0.0.1:9000\"", "9000", "C5 core.local"),
    ("127.0.0.1:9000", "127.0.0.1", "C5 core.local"),
    ("127.0.0.1:9000", "127.0.0.1:0", "C5 core.local"),
    ("127.0.0.1:9000", "127.0.0.1:65536", "C5 core.local"),
    ("127.0.0.1:9000", "127.0.0.1:09000", "C5 core.local"),
    ("127.0.0.1:9000", "127.0.0.01:9000", "C5 core.local"),
    ("127.0.0.1:9000", "localhost:9000", "C5 core.local"),
    ("127.0.0.1:9001", "127.0.0.256:9001", "C5 core.peer"),
    ("127.0.0.1:9002", "127.0.0.1:", "C5 control.local"),
    ("127.0.0.1:9010", "127.0.0.1:-1", "C5 access.1.local"),
    ("127.0.0.1:9021", "127.0.0.1.9021", "C5 access.2.peer"),
    ("02:00:00:00:00:ff", "02:00:00:00:00:FF", "C5 access.2.mac"),
    ("02:00:00:00:00:ff", "02:00:00:00:00:f", "C5 access.2.mac"),
    ("02:00:00:00:00:ff", "02-00-00-00-00-ff", "C5 access.2.mac"),
    ("127.0.0.1:9003", "127.0.0.1:9003 ", "C5 radius.auth_local"),
    ("127.0.0.1:1812", "127.0.0.1:0", "C5 radius.auth_server"),
    ("127.0.0.1:9004", "", "C5 radius.acct_local"),
    ("\"127.0.0.1:1813\"", "1813", "C5 radius.acct_server"),
    ("\"xyzzy5461\"", "5461", "C5 radius.secret"),
    ("tries = 3", "tries = \"3\"", "C5 radius.tries"),
    ("127.0.0.1:1701", "127.0.0.1:65537", "C5 tunnel.local"),
    ("\"192.0.2.12\"", "12", "C5 lac.2.ip"),
    ("192.0.2.12", "192.0.2.12:1701", "C5 lac.2.ip"),
    ("\"tunnel\"", "1", "C5 lac.1.secret"),
    ("127.0.0.1:3799", "::1", "C5 coa.local"),
    ("peers = [", "peers = \"\" # [", "C5 coa.peers"),
    ("\"192.0.2.22\"", "22", "C5 coa.peers"),
    ("192.0.2.22", "192.0.2.22:3799", "C5 coa.peers"),
    ("\"change\"", "false", "C5 coa.secret"),
    ("name = \"b\"", "name = 2", "C5 pool.2.name"),
    ("first = \"10.4.0.0\"", "first = 1", "C5 pool.1.first"),
    ("10.4.0.255", "10.4.0.256", "C5 pool.1.last"),
    ("name = \"gold\"", "name = [\"gold\"]", "C5 profile.1.name"),
    ("up_cir = 60", "up_cir = \"60\"", "C5 profile.1.up_cir"),
    ("up_cbs = 20", "up_cbs = 20.0", "C5 profile.1.up_cbs"),
    ("up_ebs = 0", "up_ebs = false", "C5 profile.1.up_ebs"),
    (
        "down_cir = 1000000000000",
        "down_cir = 1e12",
        "C5 profile.1.down_cir",
    ),
    ("down_cbs = 0", "down_cbs = []", "C5 profile.1.down_cbs"),
    (
        "down_ebs = 4294967295",
        "down_ebs = {}",
        "C5 profile.1.down_ebs",
    ),
    ("port = 2", "port = \"2\"", "C5 static.2.port"),
    ("02:00:00:00:00:02", "02:00:00:00:00:2", "C5 static.2.mac"),
    ("session = 1025", "session = 1025.0", "C5 static.1.session"),
    ("\"10.0.0.3\"", "\"10.0.0.3/32\"", "C5 static.2.address"),
    ("\"fixed2\"", "2", "C5 static.2.user"),
    ("\"bronze\"", "2", "C5 static.1.profile"),
];

#[test]
fn what_is_outside_its_form_is_told(rt: HostRuntime) -> Result<(), Fail> {
    assert_rows(&rt, rt.alloc(), FULL, FORMS)?;
    Ok(())
}

/// Numbers outside their ranges. Without `shards` there are four.
const RANGES: &[(&str, &str, &str)] = &[
    ("shards = 64", "shards = 0", "C6 gateway.shards"),
    ("shards = 64", "shards = 65", "C6 gateway.shards"),
    ("shards = 64", "shards = -1", "C6 gateway.shards"),
    ("shards = 64", "shards = 65537", "C6 gateway.shards"),
    ("workers = 16", "workers = 0", "C6 gateway.workers"),
    ("workers = 16", "workers = 17", "C6 gateway.workers"),
    ("terms = 8192", "terms = 63", "C6 gateway.terms"),
    ("terms = 8192", "terms = 262145", "C6 gateway.terms"),
    ("terms = 8192", "terms = 4294967360", "C6 gateway.terms"),
    ("echo = 0", "echo = -1", "C6 gateway.echo"),
    ("echo = 0", "echo = 3601", "C6 gateway.echo"),
    ("tries = 3", "tries = 0", "C6 radius.tries"),
    ("tries = 3", "tries = 11", "C6 radius.tries"),
    ("tries = 3", "tries = 257", "C6 radius.tries"),
    ("up_cir = 60", "up_cir = 0", "C6 profile.1.up_cir"),
    (
        "up_cir = 60",
        "up_cir = 1000000000001",
        "C6 profile.1.up_cir",
    ),
    ("up_cbs = 20", "up_cbs = -1", "C6 profile.1.up_cbs"),
    ("up_cbs = 20", "up_cbs = 4294967296", "C6 profile.1.up_cbs"),
    ("up_ebs = 0", "up_ebs = 4294967296", "C6 profile.1.up_ebs"),
    (
        "down_cir = 1000000000000",
        "down_cir = 1000000000001",
        "C6 profile.1.down_cir",
    ),
    ("down_cbs = 0", "down_cbs = -1", "C6 profile.1.down_cbs"),
    (
        "down_ebs = 4294967295",
        "down_ebs = 4294967296",
        "C6 profile.1.down_ebs",
    ),
    ("port = 1", "port = 0", "C6 static.1.port"),
    ("port = 1", "port = 3", "C6 static.1.port"),
    ("port = 2", "port = 258", "C6 static.2.port"),
    ("session = 1025", "session = 1023", "C6 static.1.session"),
    ("session = 1025", "session = 1024", "C6 static.1.session"),
    ("session = 1025", "session = 0", "C6 static.1.session"),
    ("session = 65534", "session = 65535", "C6 static.2.session"),
    ("session = 65534", "session = 65537", "C6 static.2.session"),
    ("session = 65534", "session = -1", "C6 static.2.session"),
    ("shards = 64", "shards = 63", "C6 static.2.session"),
    ("shards = 64", "shards = 1", "C6 static.1.session"),
    ("shards = 64\n", "", "C6 static.2.session"),
];

#[test]
fn numbers_outside_their_ranges_are_told(rt: HostRuntime) -> Result<(), Fail> {
    assert_rows(&rt, rt.alloc(), FULL, RANGES)?;
    Ok(())
}

/// Texts of a wrong length, and with an octet outside their set.
const LENGTHS: &[(&str, &str, &str)] = &[
    ("\"bng1\"", "\"\"", "C7 gateway.name"),
    ("\"bng1\"", "\"bng 1\"", "C7 gateway.name"),
    ("\"bng1\"", "\"bng1\\u007f\"", "C7 gateway.name"),
    ("\"bng1\"", "\"bng\u{e9}\"", "C7 gateway.name"),
    ("\"bng1\"", "\"bng1\\n\"", "C7 gateway.name"),
    ("\"bng1\"", "\"_LONGEST\"", "C7 gateway.name"),
    ("\"inet\"", "\"\"", "C7 gateway.services"),
    ("\"inet\"", "\"a\", \"_LONGEST\"", "C7 gateway.services"),
    ("xyzzy5461", "", "C7 radius.secret"),
    ("xyzzy5461", "_LONGEST", "C7 radius.secret"),
    ("\"tunnel\"", "\"\"", "C7 lac.1.secret"),
    ("\"tunnel\"", "\"_LONGEST\"", "C7 lac.1.secret"),
    ("\"change\"", "\"\"", "C7 coa.secret"),
    ("\"change\"", "\"_LONGEST\"", "C7 coa.secret"),
    ("name = \"b\"", "name = \"\"", "C7 pool.2.name"),
    ("name = \"b\"", "name = \"B\"", "C7 pool.2.name"),
    ("name = \"b\"", "name = \"b.1\"", "C7 pool.2.name"),
    (
        "name = \"b\"",
        "name = \"0123456789abcdefghijklmnopqrst-_z\"",
        "C7 pool.2.name",
    ),
    ("name = \"bronze\"", "name = \"\"", "C7 profile.2.name"),
    (
        "name = \"bronze\"",
        "name = \"Bronze\"",
        "C7 profile.2.name",
    ),
    (
        "name = \"bronze\"",
        "name = \"0123456789abcdefghijklmnopqrst-_z\"",
        "C7 profile.2.name",
    ),
    ("\"fixed2\"", "\"\"", "C7 static.2.user"),
    ("\"fixed2\"", "\"_LONGESTLONGEST\"", "C7 static.2.user"),
];

#[test]
fn texts_of_a_wrong_length_are_told(rt: HostRuntime) -> Result<(), Fail> {
    assert_rows(&rt, rt.alloc(), FULL, LENGTHS)?;
    Ok(())
}

/// The full configuration with a pool's name of the most octets, a user's name of 64, and a gateway's name of the least.
fn with_longest(alloc: Global) -> Result<String, AllocError> {
    let text = changed(alloc, FULL, "\"b\"", "\"0123456789abcdefghijklmnopqrst-_\"")?;
    let text = changed(alloc, text.as_str(), "fixed2", LONGEST)?;
    changed(alloc, text.as_str(), "\"bng1\"", "\"_\"")
}

/// There are two pools, and the second has this name.
fn assert_second_pool(rt: &impl Abort, pools: &[NamedRange], name: &[u8]) {
    assert_count(rt, pools.len(), 2);
    assert_octets(rt, pools[1].name.as_slice(), name);
}

#[test]
fn texts_may_be_as_long_as_that(rt: HostRuntime) -> Result<(), Fail> {
    let text = with_longest(rt.alloc())?;
    let config = config_of(&rt, rt.alloc(), text.as_str());
    let name = b"0123456789abcdefghijklmnopqrst-_";
    assert_second_pool(&rt, config.pools.as_slice(), name);
    assert_octets(&rt, config.name.as_slice(), b"_");
    Ok(())
}
