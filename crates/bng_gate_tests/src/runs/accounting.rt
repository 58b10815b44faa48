//! Records of a circuit and of a subscriber at the RADIUS server. The octets were made from the tables of RFC 2865, RFC 2866 and RFC 2869
//! by a script over Python's hashlib.
use super::authentication::{LEAVES, PAP, begun, reply};
use super::forwarding::FROM_CORE;
use super::host::from_host;
use super::logins::{ANY, ASKS, TAKES, records, response, run_in};
use super::running::run_by;
use super::{CONFIGURATION, Ended, PACKET, assert_err, assert_status, frame_of, loopback};
use crate::asserts::{assert_holds, assert_same};
use bng_base::Role;
use bng_plant::{Arrival, MemoryPlant};
use std::alloc::{AllocError, Global};
use std::process::Abort;
use std::sync::Wait;
use std::test::Fail;
use std::thread::Threads;

/// The Start of the circuit's term, formed at the second 1,700,000,001, and the Accounting-Response to it.
const START: &str =
    "040000954c2085454daf6e20768c12b9f2b4e84101086669786564310406c0a8011005060000040106060000000207060000000108060a0000021f1330323a30303a30303a30303a30303a30312006626e67312806000000012c1a36353533663130313034303130303030303030303030303137066553f1013d0600000005571670312f3032303030303030303030312f31303235";

const STARTED: &str = "050000144d56a0dbea86317cb3381ffbc3860e3f";

/// The Stop of the term, formed 6 s later, with a packet of 84 octets in and one of 20 out, and the Accounting-Response to it.
const STOP: &str =
    "040100c5f478785412c149874f4db77419e7a85801086669786564310406c0a8011005060000040106060000000207060000000108060a0000021f1330323a30303a30303a30303a30303a30312006626e67312806000000022a06000000542b06000000142c1a3635353366313031303430313030303030303030303030312e06000000062f060000000130060000000131060000000a34060000000035060000000037066553f1073d0600000005571670312f3032303030303030303030312f31303235";

const STOPPED: &str = "05010014a3211148ca7bf9c9f1f5646222f9e04b";

/// An Access-Accept with the Service-Type Framed, the Framed-IP-Address 10.0.0.50 and the Acct-Interim-Interval of 60 s (RFC 2869 section
/// 5.16), and the Start of its term, formed at the second 1,700,000,090, with the Accounting-Response to it.
const ACCEPT_60: &str =
    "02000026bc25421a9f15267a77a3da6a8e04165906060000000208060a00003255060000003c";

const LOGIN_START: &str =
    "04000093af574319fa7fd0277029eff9286c62e901066e656d6f0406c0a80110050600000c0106060000000207060000000108060a0000321f1330323a30303a30303a30303a30303a30312006626e67312806000000012c1a36353533663131653063303130303030303030303030303137066553f15a3d0600000005571670312f3032303030303030303030312f33303733";

const LOGIN_STARTED: &str = "0500001478230c6ccfe0ec1f8ed33203304ab1ca";

/// The Interims formed 60 s and 180 s after the Start, with a packet of 84 octets in and none out (RFC 2869 section 2.1), and the
/// Accounting-Responses to them.
const INTERIM: &str =
    "040100bdb2ba766d3cc0919ae80bd3664a64e57101066e656d6f0406c0a80110050600000c0106060000000207060000000108060a0000321f1330323a30303a30303a30303a30303a30312006626e67312806000000032a06000000542b06000000002c1a3635353366313165306330313030303030303030303030312e060000003c2f060000000130060000000034060000000035060000000037066553f1963d0600000005571670312f3032303030303030303030312f33303733";

const REPORTED: &str = "050100144a61075d46e10e3440f773a338d9d5a6";

const INTERIM_180: &str =
    "040200bd1319dd3b8f6ae96fa8992c3bcc3b4d3701066e656d6f0406c0a80110050600000c0106060000000207060000000108060a0000321f1330323a30303a30303a30303a30303a30312006626e67312806000000032a06000000542b06000000002c1a3635353366313165306330313030303030303030303030312e06000000b42f060000000130060000000034060000000035060000000037066553f20e3d0600000005571670312f3032303030303030303030312f33303733";

const REPORTED_180: &str = "05020014059471a1da5e607b52232143871b5929";

/// The Stop where the subscriber leaves, formed 210 s after the Start with the Acct-Terminate-Cause 1, User Request, and the
/// Accounting-Response to it.
const LOGIN_STOP: &str =
    "040300c3557315a8b445eeaf0950acb6b06194e801066e656d6f0406c0a80110050600000c0106060000000207060000000108060a0000321f1330323a30303a30303a30303a30303a30312006626e67312806000000022a06000000542b06000000002c1a3635353366313165306330313030303030303030303030312e06000000d22f060000000130060000000031060000000134060000000035060000000037066553f22c3d0600000005571670312f3032303030303030303030312f33303733";

const LOGIN_STOPPED: &str = "05030014833a728d57e49459df218243282ba64c";

/// The header of an IPv4 packet of 84 octets from 10.0.0.50 with TTL 64.
const LOGIN_PACKET: [u8; 20] = [
    0x45, 0, 0, 0x54, 0, 1, 0, 0, 0x40, 1, 0xae, 0x75, 10, 0, 0, 0x32, 0xc0, 0, 2, 1,
];

/// `stop`, two waits later.
fn stop() -> Arrival {
    Arrival::new(Role::Control, loopback(5), b"stop").after(2)
}

/// A run over this script, at moments that are 1,000 ms apart.
fn run_slow<R: Threads + Wait + Sync>(
    rt: &R,
    alloc: Global,
    script: Vec<Arrival>,
) -> Result<Ended, AllocError> {
    let plant = MemoryPlant::new(alloc, script, Vec::new(alloc), 64)?;
    run_by(rt, alloc, CONFIGURATION, plant, 1000)
}

/// The reply to the Start comes 1,000 ms after it, from this port, and then `stop`.
fn replied(alloc: Global, port: u16) -> Result<Vec<Arrival>, Fail> {
    let started = hex::decode(alloc, STARTED)?;
    let mut script = Vec::new(alloc);
    let reply = Arrival::new(Role::Acct, loopback(port), started.as_slice());
    script.push(reply.after(1))?;
    script.push(stop())?;
    Ok(script)
}

/// How many times a run sent the Start.
fn starts(alloc: Global, ended: &Ended) -> Result<usize, Fail> {
    let start = hex::decode(alloc, START)?;
    let sent = ended.plant.sent().iter();
    let starts = sent.filter(|datagram| datagram.octets.as_slice() == start.as_slice());
    Ok(starts.count())
}

/// Whether all that a run sent from this place on has the Identifier 1.
fn have_identifier_1(ended: &Ended, place: usize) -> bool {
    let mut rest = ended.plant.sent().iter().skip(place);
    rest.all(|datagram| datagram.octets.as_slice().get(1) == Some(&1))
}

/// Where the reply comes from this port, the Start is sent so many times.
fn starts_where_replied<R: Threads + Wait + Sync + Abort>(
    rt: &R,
    alloc: Global,
    port: u16,
    sends: usize,
) -> Result<(), Fail> {
    let ended = run_slow(rt, alloc, replied(alloc, port)?)?;
    assert_status(rt, &ended, 6);
    assert_same(rt, &starts(alloc, &ended)?, &sends);
    // `stopping` and the Stop come after them, and the Stop alone once no session is left.
    assert_holds(rt, have_identifier_1(&ended, sends.saturating_add(2)));
    Ok(())
}

#[test]
fn a_start_is_sent_again_until_it_is_acknowledged(rt: HostRuntime) -> Result<(), Fail> {
    let alloc = rt.alloc();
    // From 1814 it is no reply.
    starts_where_replied(&rt, alloc, 1814, 2)?;
    starts_where_replied(&rt, alloc, 1813, 1)
}

/// Each reply comes 1,000 ms after its request. With the first one come a packet of the circuit and one to it.
fn stopped(alloc: Global) -> Result<Vec<Arrival>, Fail> {
    let mut script = Vec::new(alloc);
    script.push(response(alloc, STARTED)?.after(1))?;
    let frame = frame_of(alloc, &PACKET)?;
    script.push(Arrival::new(Role::Access(1), loopback(9011), frame.as_slice()))?;
    script.push(Arrival::new(Role::Core, loopback(9001), &FROM_CORE))?;
    script.push(stop())?;
    script.push(response(alloc, STOPPED)?.after(1))?;
    Ok(script)
}

#[test]
fn a_stop_is_waited_for_until_it_is_acknowledged(rt: HostRuntime) -> Result<(), Fail> {
    let alloc = rt.alloc();
    let ended = run_slow(&rt, alloc, stopped(alloc)?)?;
    assert_status(&rt, &ended, 0);
    assert_err(&rt, &ended, b"");
    assert_holds(
        &rt,
        ended.out.text().starts_with(
            b"stopped in=84 out=20\nlive in=0 out=0\ntotal in=84 out=20\nworker 0 in=84 out=20\nprofile default in=84 out=20\n",
        ),
    );
    records(&rt, alloc, &ended, &[START, STOP])
}

/// A subscriber logs in, at moments that are 30 s apart, with an Interim due each 60 s, and sends a packet 30 s after its Start. Its first
/// Interim is acknowledged 90 s after it was formed, and the second 30 s after it was; then it leaves.
fn reported(alloc: Global) -> Result<Vec<Arrival>, Fail> {
    let mut packet = Vec::from_slice(alloc, b"\x00\x21")?;
    packet.extend_from_slice(&LOGIN_PACKET)?;
    packet.extend_from_slice(&[7; 64])?;
    let mut script = begun(alloc)?;
    script.push(reply(alloc, 1812, ACCEPT_60)?)?;
    script.push(response(alloc, LOGIN_STARTED)?)?;
    for heard in [ANY, ASKS, TAKES, packet.as_slice()] {
        script.push(from_host(alloc, heard)?)?;
    }
    script.push(response(alloc, REPORTED)?.after(3))?;
    script.push(response(alloc, REPORTED_180)?.after(1))?;
    script.push(from_host(alloc, LEAVES)?)?;
    script.push(response(alloc, LOGIN_STOPPED)?)?;
    script.push(stop())?;
    Ok(script)
}

#[test]
fn an_interim_is_formed_each_interval_unless_one_is_open(rt: HostRuntime) -> Result<(), Fail> {
    let alloc = rt.alloc();
    let configuration = PAP.replace(alloc, "auth = ", "echo = 0\nauth = ")?;
    let script = reported(alloc)?;
    let ended = run_in(&rt, alloc, configuration.as_str(), script, 30_000)?;
    assert_status(&rt, &ended, 0);
    // The first Interim is sent again 30 and 60 s later; at 60 s the next one is due, and is not formed.
    let wanted = [
        LOGIN_START,
        INTERIM,
        INTERIM,
        INTERIM,
        INTERIM_180,
        LOGIN_STOP,
    ];
    records(&rt, alloc, &ended, &wanted)
}
