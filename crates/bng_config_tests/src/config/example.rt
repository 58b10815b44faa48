use super::config_of;
use super::parts::{
    CircuitRow, PoolRow, PortRow, ProfileRow, assert_addresses, assert_circuits, assert_coa,
    assert_kinds, assert_lacs, assert_numbers, assert_pools, assert_ports, assert_profiles,
    assert_services, assert_sockets,
};
use crate::asserts::assert_octets;
use bng_base::{AuthKind, Rate};
use bng_config::Config;
use std::process::Abort;

/// The text of lab/example.toml: lab/smoke compares the two.
const EXAMPLE: &str =
    r#"# The gateway of a small provider, with every table and every key that there is. Copy it, change what is yours, and leave out what you do
# not need: behind each key with a default the comment says it, and a table or a list that may be left out says so. A key or a table of
# another name is refused. Everything here is read and checked; docs/OPERATING.md says what of it is served.
#
# An address is four decimal numbers up to 255 with dots between. An end is an address, a colon and a UDP port of 1 to 65,535. No two keys
# `local` have one end. A MAC is six pairs of lower-case hexadecimal digits with colons between.

[gateway]
name = "bng1"                           # what it is called towards subscribers and RADIUS: 1 to 64 printable ASCII characters, no space
address = "10.0.0.1"                    # its own address on subscribers' links; no pool has it
nas_ip = "192.0.2.1"                    # the address that it gives itself towards RADIUS (NAS-IP-Address)
shards = 4                              # parts of 1,022 sessions each: 1 to 64; default 4
workers = 2                             # workers that handle what comes: 1 to 16; default 2
terms = 8192                            # subscribers and circuits that may be live or unbilled at one time: 64 to 262,144; default 8,192
services = ["internet"]                 # PPPoE services beside the one without a name: at most 8, of 1 to 64 octets; default []
dns = ["192.0.2.53", "198.51.100.53"]   # servers of names that subscribers are told of: at most 2 addresses; default []
auth = ["chap", "pap"]                  # ways to authenticate, the first asked for first: "chap", "pap" or both; default ["chap", "pap"]
echo = 30                               # seconds between two Echo-Requests: 0 (none) to 3,600; default 30

# Towards the core of the network: IPv4 packets, each in a UDP datagram.
[core]
local = "127.0.0.1:9000"                # the gateway's end
peer = "127.0.0.1:9001"                 # the core's end

# Where the word `stop` is heard.
[control]
local = "127.0.0.1:9002"                # the gateway's end

# The access ports, 1 to 16: Ethernet frames with PPPoE, each in a UDP datagram. The first is port 1.
[[access]]
local = "127.0.0.1:9010"                # the gateway's end
peer = "127.0.0.1:9011"                 # the other end
mac = "02:00:00:00:00:fe"               # the gateway's MAC on the port

[[access]]
local = "127.0.0.1:9020"
peer = "127.0.0.1:9021"
mac = "02:00:00:00:00:fd"

# The RADIUS server.
[radius]
auth_local = "127.0.0.1:9003"           # the gateway's end for authentication
auth_server = "127.0.0.1:1812"          # the server's end for authentication
acct_local = "127.0.0.1:9004"           # the gateway's end for accounting
acct_server = "127.0.0.1:1813"          # the server's end for accounting
secret = "xyzzy5461"                    # what the two share: 1 to 64 octets
tries = 4                               # sends of one Access-Request in all: 1 to 10; default 4

# L2TP. It may be left out where there is no [[lac]].
[tunnel]
local = "127.0.0.1:1701"                # the gateway's end

# The L2TP access concentrators, at most 16, with different addresses. The list may be left out.
[[lac]]
ip = "192.0.2.11"                       # its address
secret = "tunnel-secret"                # what the gateway shares with it: 1 to 64 octets; default none

[[lac]]
ip = "192.0.2.12"

# Who may change and disconnect sessions (RFC 5176). It may be left out: then nobody may.
[coa]
local = "127.0.0.1:3799"                # the gateway's end
peers = ["192.0.2.21", "192.0.2.22"]    # who may ask: 1 to 16 addresses
secret = "change-secret"                # what the gateway shares with them: 1 to 64 octets; default radius.secret

# The pools of addresses for subscribers, 1 to 16, apart, with at most 262,144 addresses together. The first is that of an Access-Accept
# that names none.
[[pool]]
name = "main"                           # 1 to 32 of a to z, 0 to 9, - and _; no two pools have one name
first = "10.0.0.2"                      # its first address
last = "10.0.3.255"                     # its last address, not below the first

[[pool]]
name = "business"
first = "10.0.8.0"
last = "10.0.8.255"

# The profiles that subscribers are metered by, at most 16. The first is that of an Access-Accept without Filter-Id. The list may be left
# out: then there is one, `default`, that meters nothing. Of each direction all three numbers are there, or none, and then it is unmetered.
[[profile]]
name = "basic"                          # 1 to 32 of a to z, 0 to 9, - and _; no two profiles have one name
up_cir = 1250000                        # octets a second from the subscriber (RFC 2697): 1 to 1,000,000,000,000
up_cbs = 250000                         # the committed burst in octets: 0 to 4,294,967,295
up_ebs = 0                              # the excess burst in octets: 0 to 4,294,967,295; not both bursts are 0
down_cir = 6250000                      # the same three numbers towards the subscriber
down_cbs = 1250000
down_ebs = 1250000

[[profile]]
name = "unmetered"

# Circuits that need no login, at most 1,024 and no more than gateway.terms. The list may be left out.
[[static]]
port = 1                                # the access port: 1 to the number of [[access]]
mac = "02:00:00:00:00:01"               # the subscriber's MAC
session = 1025                          # its PPPoE SESSION_ID: shard * 1024 + 1 to 1022, a shard below gateway.shards; no two have one
address = "10.0.8.1"                    # its address, of a pool; no two have one
user = "fixed1"                         # the User-Name of its records: 1 to 128 octets
profile = "unmetered"                   # the name of its profile; default the first one

[[static]]
port = 2
mac = "02:00:00:00:00:02"
session = 1026
address = "10.0.8.2"
user = "fixed2"
"#;

/// The lists of the example's gateway.
fn assert_lists(rt: &impl Abort, config: &Config) {
    assert_services(rt, config.services.as_slice(), &[b"internet"]);
    assert_addresses(rt, config.dns.as_slice(), &[0xc000_0235, 0xc633_6435]);
    assert_kinds(rt, config.auth.as_slice(), &[AuthKind::Chap, AuthKind::Pap]);
}

/// What the gateway is, of the example.
fn assert_gateway(rt: &impl Abort, config: &Config) {
    assert_octets(rt, config.name.as_slice(), b"bng1");
    assert_addresses(
        rt,
        &[config.address, config.nas_ip],
        &[0x0a00_0001, 0xc000_0201],
    );
    assert_numbers(rt, config, [4, 2, 8192, 30]);
    assert_lists(rt, config);
}

const ENDS: &[PortRow] = &[(9010, 9011, 0xfe), (9020, 9021, 0xfd)];

const CONCENTRATORS: &[(u32, &[u8])] = &[(0xc000_020b, b"tunnel-secret"), (0xc000_020c, b"")];

const PEERS: &[u32] = &[0xc000_0215, 0xc000_0216];

#[test]
fn the_example_is_read(rt: HostRuntime) {
    let config = config_of(&rt, rt.alloc(), EXAMPLE);
    assert_gateway(&rt, &config);
    assert_sockets(&rt, &config, 4);
    assert_ports(&rt, config.access.as_slice(), ENDS);
    assert_lacs(&rt, config.lacs.as_slice(), CONCENTRATORS);
    assert_coa(&rt, &config.coa, 3799, PEERS, b"change-secret");
}

const RANGES: &[PoolRow] = &[
    (b"main", 0x0a00_0002, 0x0a00_03ff),
    (b"business", 0x0a00_0800, 0x0a00_08ff),
];

const UP: Rate = Rate {
    cir: 1_250_000,
    cbs: 250_000,
    ebs: 0,
};

const DOWN: Rate = Rate {
    cir: 6_250_000,
    cbs: 1_250_000,
    ebs: 1_250_000,
};

const METERS: &[ProfileRow] = &[(b"basic", Some(UP), Some(DOWN)), (b"unmetered", None, None)];

const CIRCUITS: &[CircuitRow] = &[
    (1, 1, 1025, 0x0a00_0801, b"fixed1", 1),
    (2, 2, 1026, 0x0a00_0802, b"fixed2", 0),
];

#[test]
fn the_pools_and_circuits_of_the_example_are_read(rt: HostRuntime) {
    let config = config_of(&rt, rt.alloc(), EXAMPLE);
    assert_pools(&rt, config.pools.as_slice(), RANGES);
    assert_profiles(&rt, config.profiles.as_slice(), METERS);
    assert_circuits(&rt, config.statics.as_slice(), CIRCUITS);
}
