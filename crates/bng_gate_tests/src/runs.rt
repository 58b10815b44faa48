//! Whole runs over the outside in memory.
use crate::asserts::{assert_holds, assert_octets, assert_same};
use bng_base::{Datagram, Ip4, Peer, Role};
use bng_plant::{Arrival, MemoryPlant, MemorySink};
use std::alloc::{AllocError, Global};
use std::process::Abort;
use std::test::Fail;

mod accounting;
mod authentication;
mod calls;
mod changes;
mod concentrator;
mod counting;
mod disconnects;
mod discovery;
mod established;
mod exercises;
mod failing;
mod forwarding;
mod host;
mod hostile;
mod limits;
mod link;
mod logins;
mod metering;
mod mru;
mod refusals;
mod reports;
mod running;
mod sent;
mod sequence;
mod statistics;
mod statuses;
mod teardown;
mod three_calls;
mod tunnels;

const CONFIGURATION: &str = r#"[gateway]
name = "bng1"
address = "10.0.0.1"
nas_ip = "192.168.1.16"
[core]
local = "127.0.0.1:9000"
peer = "127.0.0.1:9001"
[control]
local = "127.0.0.1:9002"
[radius]
auth_local = "127.0.0.1:9003"
auth_server = "127.0.0.1:1812"
acct_local = "127.0.0.1:9004"
acct_server = "127.0.0.1:1813"
secret = "xyzzy5461"
[[access]]
local = "127.0.0.1:9010"
peer = "127.0.0.1:9011"
mac = "02:00:00:00:00:fe"
[[pool]]
name = "main"
first = "10.0.0.2"
last = "10.0.0.101"
[[static]]
port = 1
mac = "02:00:00:00:00:01"
session = 1025
address = "10.0.0.2"
user = "fixed1"
"#;

/// Two access ports with a circuit each.
const TWO_PORTS: &str = r#"[gateway]
name = "bng1"
address = "10.0.0.1"
nas_ip = "192.168.1.16"
[core]
local = "127.0.0.1:9000"
peer = "127.0.0.1:9001"
[control]
local = "127.0.0.1:9002"
[radius]
auth_local = "127.0.0.1:9003"
auth_server = "127.0.0.1:1812"
acct_local = "127.0.0.1:9004"
acct_server = "127.0.0.1:1813"
secret = "xyzzy5461"
[[access]]
local = "127.0.0.1:9010"
peer = "127.0.0.1:9011"
mac = "02:00:00:00:00:fe"
[[access]]
local = "127.0.0.1:9020"
peer = "127.0.0.1:9021"
mac = "02:00:00:00:00:fd"
[[pool]]
name = "main"
first = "10.0.0.2"
last = "10.0.0.101"
[[static]]
port = 1
mac = "02:00:00:00:00:01"
session = 1025
address = "10.0.0.2"
user = "fixed1"
[[static]]
port = 2
mac = "02:00:00:00:00:02"
session = 1026
address = "10.0.0.3"
user = "fixed2"
"#;

/// Two circuits of one shard, the one with the higher session number first.
const FALLING_NUMBERS: &str = r#"[gateway]
name = "bng1"
address = "10.0.0.1"
nas_ip = "192.168.1.16"
[core]
local = "127.0.0.1:9000"
peer = "127.0.0.1:9001"
[control]
local = "127.0.0.1:9002"
[radius]
auth_local = "127.0.0.1:9003"
auth_server = "127.0.0.1:1812"
acct_local = "127.0.0.1:9004"
acct_server = "127.0.0.1:1813"
secret = "xyzzy5461"
[[access]]
local = "127.0.0.1:9010"
peer = "127.0.0.1:9011"
mac = "02:00:00:00:00:fe"
[[access]]
local = "127.0.0.1:9020"
peer = "127.0.0.1:9021"
mac = "02:00:00:00:00:fd"
[[pool]]
name = "main"
first = "10.0.0.2"
last = "10.0.0.101"
[[static]]
port = 1
mac = "02:00:00:00:00:01"
session = 1026
address = "10.0.0.2"
user = "fixed1"
[[static]]
port = 2
mac = "02:00:00:00:00:02"
session = 1025
address = "10.0.0.3"
user = "fixed2"
"#;

/// Ethernet, PPPoE and PPP before an 84-octet packet of the circuit.
const HEADER: [u8; 22] = [
    0x02, 0, 0, 0, 0, 0xfe, 0x02, 0, 0, 0, 0, 0x01, 0x88, 0x64, 0x11, 0x00, 0x04, 0x01, 0x00, 0x56,
    0x00, 0x21,
];

/// An IPv4 header of 84 octets from 10.0.0.2 with TTL 64.
const PACKET: [u8; 20] = [
    0x45, 0, 0, 0x54, 0, 1, 0, 0, 0x40, 1, 0xae, 0xa5, 10, 0, 0, 2, 0xc0, 0, 2, 1,
];

fn loopback(port: u16) -> Peer {
    Peer {
        ip: Ip4(0x7f00_0001),
        port,
    }
}

/// What a run left.
struct Ended {
    status: u8,
    plant: MemoryPlant,
    out: MemorySink,
    err: MemorySink,
}

impl Drop for Ended {
    fn drop(self) {
        let Ended {
            status: _,
            plant: _,
            out: _,
            err: _,
        } = self;
    }
}

// Each check of a value is a function of its own: in a test, among all that is live there, its proof would take long.

/// A run ended with this status.
fn assert_status(rt: &impl Abort, ended: &Ended, status: u8) {
    assert_eq!(rt; ended.status, status);
}

/// It wrote this to the output.
fn assert_out(rt: &impl Abort, ended: &Ended, text: &[u8]) {
    assert_eq!(rt; ended.out.text(), text);
}

/// It wrote this to the output of errors.
fn assert_err(rt: &impl Abort, ended: &Ended, text: &[u8]) {
    assert_eq!(rt; ended.err.text(), text);
}

/// It sent so many datagrams.
fn assert_sent(rt: &impl Abort, ended: &Ended, count: usize) {
    assert_eq!(rt; ended.plant.sent().len(), count);
}

/// The frame with an 84-octet packet that begins with these octets.
fn frame_of(alloc: Global, packet: &[u8; 20]) -> Result<Vec<u8>, AllocError> {
    let mut frame = Vec::from_slice(alloc, &HEADER)?;
    frame.extend_from_slice(packet)?;
    frame.extend_from_slice(&[7; 64])?;
    Ok(frame)
}

/// That frame, and then `stop`.
fn frame_and_stop(alloc: Global, packet: &[u8; 20]) -> Result<Vec<Arrival>, AllocError> {
    let frame = frame_of(alloc, packet)?;
    let mut script = Vec::new(alloc);
    script.push(Arrival::new(Role::Access(1), loopback(9011), frame.as_slice()))?;
    script.push(Arrival::new(Role::Control, loopback(5), b"stop\n"))?;
    Ok(script)
}

/// Datagrams of these roles and ports of 127.0.0.1, in this order, and then `stop`.
fn script_of(alloc: Global, list: &[(Role, u16, &[u8])]) -> Result<Vec<Arrival>, AllocError> {
    let mut script = Vec::new(alloc);
    for (role, port, octets) in list {
        script.push(Arrival::new(*role, loopback(*port), octets))?;
    }
    script.push(Arrival::new(Role::Control, loopback(5), b"stop"))?;
    Ok(script)
}

/// A datagram of nobody to Acct, which is not answered. What comes after it comes a turn later.
fn a_turn_later() -> Arrival {
    Arrival::new(Role::Acct, loopback(9), &[])
}

/// The datagrams that a run sent, but for those of Acct, are these, of these roles and to these ports of 127.0.0.1.
fn sends(rt: &impl Abort, ended: &Ended, wanted: &[(Role, u16, &[u8])]) {
    assert_same(rt, &others(ended), &wanted.len());
    let sent = ended.plant.sent().iter();
    let others = sent.filter(|datagram| datagram.role != Role::Acct);
    for (datagram, (role, port, octets)) in others.zip(wanted) {
        assert_datagram(rt, datagram, *role, *port, octets);
    }
}

/// How many datagrams a run sent, but for those of Acct.
fn others(ended: &Ended) -> usize {
    let sent = ended.plant.sent().iter();
    sent.filter(|datagram| datagram.role != Role::Acct).count()
}

/// A datagram has this role, and goes with these octets to this port of 127.0.0.1.
fn assert_datagram(rt: &impl Abort, datagram: &Datagram, role: Role, port: u16, octets: &[u8]) {
    assert_same(rt, &datagram.role, &role);
    assert_same(rt, &datagram.peer, &loopback(port));
    assert_octets(rt, datagram.octets.as_slice(), octets);
}

/// A datagram goes to this peer with these octets, which are given in digits.
fn goes_to(
    rt: &impl Abort,
    alloc: Global,
    datagram: &Datagram,
    peer: Peer,
    octets: &str,
) -> Result<(), Fail> {
    let octets = hex::decode(alloc, octets)?;
    assert_same(rt, &datagram.peer, &peer);
    assert_octets(rt, datagram.octets.as_slice(), octets.as_slice());
    Ok(())
}

/// Whether the octets have these in them.
fn has(octets: &[u8], part: &[u8]) -> bool {
    for place in 0..octets.len() {
        if octets[place..].starts_with(part) {
            return true;
        }
    }
    false
}

/// Whether the octets have all of these in them.
fn has_all(octets: &[u8], parts: &[&[u8]]) -> bool {
    for part in parts {
        if !has(octets, part) {
            return false;
        }
    }
    true
}

/// The datagram that a run sent at this place is an Accounting-Request to the server (RFC 2866 section 4.1) with these attributes.
fn accounts(rt: &impl Abort, ended: &Ended, place: usize, attributes: &[&[u8]]) {
    let sent = ended.plant.sent();
    let datagram = sent.get(place).expect(rt, "a record");
    assert_request(rt, datagram);
    assert_holds(rt, has_all(datagram.octets.as_slice(), attributes));
}

/// A datagram is an Accounting-Request to the server.
fn assert_request(rt: &impl Abort, datagram: &Datagram) {
    assert_same(rt, &datagram.role, &Role::Acct);
    assert_same(rt, &datagram.peer, &loopback(1813));
    assert_same(rt, &datagram.octets.as_slice().first(), &Some(&4));
}
