//! Subscribers that log in. The replies of the server, the records of accounting and the packets were made from the tables of RFC 2865,
//! RFC 2866 and RFC 791 by a script over Python's hashlib and hmac, and what is random in them by an independent ChaCha20.
use super::authentication::{
    ACCEPT, LEAVES, LEFT, OWN_ADDRESS, PAP, PASSED, PASSWORD, TERMINATE, begun, reply, sends_after,
    stop,
};
use super::host::{ACKED, REQUEST, framed, from_host, request, then_hears};
use super::reports::{Counted, assert_report};
use super::running::run_by;
use super::sent::{OVER, STOPPING, Sent, sends_list_from};
use super::{Ended, assert_err, assert_status, goes_to, has, loopback};
use crate::asserts::{assert_holds, assert_same};
use bng_base::Role;
use bng_plant::{Arrival, MemoryPlant};
use std::alloc::{AllocError, Global};
use std::process::Abort;
use std::sync::Wait;
use std::test::Fail;
use std::thread::Threads;

/// As `PAP`, with a pool of one address.
const ONE_ADDRESS: &str = r#"[gateway]
name = "bng1"
address = "10.0.0.1"
nas_ip = "192.168.1.16"
auth = ["pap"]
[core]
local = "127.0.0.1:9000"
peer = "127.0.0.1:9001"
[control]
local = "127.0.0.1:9002"
[radius]
auth_local = "127.0.0.1:9003"
auth_server = "127.0.0.1:1812"
acct_local = "127.0.0.1:9004"
acct_server = "127.0.0.1:1813"
secret = "xyzzy5461"
tries = 2
[[access]]
local = "127.0.0.1:9010"
peer = "127.0.0.1:9011"
mac = "02:00:00:00:00:fe"
[[pool]]
name = "main"
first = "10.0.0.2"
last = "10.0.0.2"
"#;

/// The Access-Accept to the first request, with the Service-Type Framed, the Framed-IP-Address 10.0.0.50 and the Class gold.
pub(super) const ACCEPT_50: &str =
    "0200002664e9e839d2f2f37dc86e2b4aff99928e06060000000208060a0000321906676f6c64";

/// The Start of the term, formed at the second 1,700,000,003, and the Accounting-Response to it.
const START: &str =
    "0400009987320b466e247d5c67e8f4f894b7ef7d01066e656d6f0406c0a80110050600000c0106060000000207060000000108060a0000321906676f6c641f1330323a30303a30303a30303a30303a30312006626e67312806000000012c1a36353533663130313063303130303030303030303030303137066553f1033d0600000005571670312f3032303030303030303030312f33303733";

const STARTED: &str = "05000014f611ac0e069e7b6d3b3ef7b1620dc966";

/// Its Stop, formed 2 s later, with a packet of 40 octets in and one of 28 out and the Acct-Terminate-Cause 1, User Request (RFC 2866
/// section 5.10), and the Accounting-Response to it.
const STOP: &str =
    "040100c99c4fdc3e719e26f0eb7435d039677f3201066e656d6f0406c0a80110050600000c0106060000000207060000000108060a0000321906676f6c641f1330323a30303a30303a30303a30303a30312006626e67312806000000022a06000000282b060000001c2c1a3635353366313031306330313030303030303030303030312e06000000022f060000000130060000000131060000000134060000000035060000000037066553f1053d0600000005571670312f3032303030303030303030312f33303733";

const STOPPED: &str = "0501001479555a32cd1a181d7537ce19cd9af25a";

/// An Access-Accept with the Session-Timeout of an hour and the Idle-Timeout of 2 seconds beside these (RFC 2865 sections 5.27 and 5.28).
/// The Stop of a term that such an Accept began, formed 3 s later with the Acct-Terminate-Cause 4, Idle Timeout, and the
/// Accounting-Response to it.
const ACCEPT_IDLE: &str =
    "0200003245bf7879bb3376226a4dc34cf05b6f1e06060000000208060a0000321906676f6c641b0600000e101c0600000002";

const IDLE_STOP: &str =
    "040100c92ea4c49acb8e046be501c411a8d4cd4001066e656d6f0406c0a80110050600000c0106060000000207060000000108060a0000321906676f6c641f1330323a30303a30303a30303a30303a30312006626e67312806000000022a06000000282b060000001c2c1a3635353366313031306330313030303030303030303030312e06000000032f060000000130060000000131060000000434060000000035060000000037066553f1063d0600000005571670312f3032303030303030303030312f33303733";

const IDLE_STOPPED: &str = "05010014f25e633ff24e3df526cf7f078b422307";

/// The host asks by IPCP for any address, and hears which it is to be; asks for that, and hears that it has it; and takes the gateway's
/// (RFC 1332 section 3.3).
pub(super) const ANY: &[u8] = b"\x80\x21\x01\x01\x00\x0a\x03\x06\x00\x00\x00\x00";

pub(super) const TO_BE: &[u8] = b"\x80\x21\x03\x01\x00\x0a\x03\x06\x0a\x00\x00\x32";

pub(super) const ASKS: &[u8] = b"\x80\x21\x01\x02\x00\x0a\x03\x06\x0a\x00\x00\x32";

pub(super) const GETS: &[u8] = b"\x80\x21\x02\x02\x00\x0a\x03\x06\x0a\x00\x00\x32";

pub(super) const TAKES: &[u8] = b"\x80\x21\x02\x01\x00\x0a\x03\x06\x0a\x00\x00\x01";

/// A packet of 40 octets from 10.0.0.50 with TTL 64 in a PPP frame, and the packet that goes to the core for it.
pub(super) const FROM_HOST: &[u8] =
    b"\x00\x21\x45\x00\x00\x28\x00\x01\x00\x00\x40\x11\xae\x91\x0a\x00\x00\x32\xc0\x00\x02\x01\x00\x01\x02\x03\x04\x05\x06\x07\x08\x09\x0a\x0b\x0c\x0d\x0e\x0f\x10\x11\x12\x13";

pub(super) const UP: &[u8] =
    b"\x45\x00\x00\x28\x00\x01\x00\x00\x3f\x11\xaf\x91\x0a\x00\x00\x32\xc0\x00\x02\x01\x00\x01\x02\x03\x04\x05\x06\x07\x08\x09\x0a\x0b\x0c\x0d\x0e\x0f\x10\x11\x12\x13";

/// A packet of the core of 28 octets to 10.0.0.50 with TTL 64, and the PPP frame that goes to the host for it.
pub(super) const FROM_CORE: &[u8] =
    b"\x45\x00\x00\x1c\x00\x02\x00\x00\x40\x11\xae\x9c\xc0\x00\x02\x01\x0a\x00\x00\x32\x00\x01\x02\x03\x04\x05\x06\x07";

const DOWN: &[u8] =
    b"\x00\x21\x45\x00\x00\x1c\x00\x02\x00\x00\x3f\x11\xaf\x9c\xc0\x00\x02\x01\x0a\x00\x00\x32\x00\x01\x02\x03\x04\x05\x06\x07";

/// The MAC of another host of the same shard; what stands before the low octet of LENGTH in a frame of its session to the gateway; its
/// PADS, and its PADT.
const OTHER: [u8; 6] = [0x02, 0x00, 0x00, 0x00, 0x00, 0x05];

const FROM_OTHER: [u8; 19] = [
    0x02, 0x00, 0x00, 0x00, 0x00, 0xfe, 0x02, 0x00, 0x00, 0x00, 0x00, 0x05, 0x88, 0x64, 0x11, 0x00,
    0x0c, 0x02, 0x00,
];

const OTHER_PADS: [u8; 32] = [
    0x02, 0x00, 0x00, 0x00, 0x00, 0x05, 0x02, 0x00, 0x00, 0x00, 0x00, 0xfe, 0x88, 0x63, 0x11, 0x65,
    0x0c, 0x02, 0x00, 0x0c, 0x01, 0x01, 0x00, 0x00, 0x01, 0x03, 0x00, 0x04, 0xa1, 0xb2, 0xc3, 0xd4,
];

const OTHER_PADT: [u8; 20] = [
    0x02, 0x00, 0x00, 0x00, 0x00, 0x05, 0x02, 0x00, 0x00, 0x00, 0x00, 0xfe, 0x88, 0x63, 0x11, 0xa7,
    0x0c, 0x02, 0x00, 0x00,
];

/// What it is asked for by LCP, with the magic number that is drawn for the seventh item, and its Configure-Ack.
const OTHER_ASKED: &[u8] =
    b"\xc0\x21\x01\x01\x00\x12\x01\x04\x05\xd4\x03\x04\xc0\x23\x05\x06\xa4\xc5\xc7\xc1";

const OTHER_ACK: &[u8] =
    b"\xc0\x21\x02\x01\x00\x12\x01\x04\x05\xd4\x03\x04\xc0\x23\x05\x06\xa4\xc5\xc7\xc1";

/// The Access-Request for its password, an Access-Accept to it, and the Authenticate-Nak.
const OTHER_REQUEST: &str =
    "0101008b9eceb1312d0a8ab8941dbcd42271411f01066e656d6f02128f0d8c2ee346d01059aab0cb0683a5d60406c0a80110050600000c020606000000020706000000011f1330323a30303a30303a30303a30303a30352006626e67313d060000000550124ad88a170c8a132f5c242a96e1027c64571670312f3032303030303030303030352f33303734";

const OTHER_ACCEPT: &str = "0201001481aa3cdac8efeaf82f7ab62e2fa328f8";

const NO_ADDRESS: &[u8] = b"\xc0\x23\x03\x07\x00\x0f\x0ano address";

/// Where both hosts ask in one turn: the other one's Configure-Ack, with the magic number that is drawn for the fifth item; both
/// Access-Requests, and an Access-Accept to each that names 10.0.0.2.
const BOTH_ACK: &[u8] =
    b"\xc0\x21\x02\x01\x00\x12\x01\x04\x05\xd4\x03\x04\xc0\x23\x05\x06\x0c\x10\x93\xed";

const FIRST_REQUEST: &str =
    "0100008bf8f3ff4f61b9b2321cdac35dd668dfe401066e656d6f0212e3e8e04d19d6e2916677a2f015ff323e0406c0a80110050600000c010606000000020706000000011f1330323a30303a30303a30303a30303a30312006626e67313d0600000005501241383299587ce3d629e5d00fd44ac417571670312f3032303030303030303030312f33303733";

const SECOND_REQUEST: &str =
    "0101008bb577567057ec574de3d2c9eec0372c4c01066e656d6f021232d225c86a33312d21f826a32a1297b00406c0a80110050600000c020606000000020706000000011f1330323a30303a30303a30303a30303a30352006626e67313d060000000550123a856c06934e8c2c604b51eaac1b74e4571670312f3032303030303030303030352f33303734";

const BOTH_ACCEPTS: &[&str] = &[
    "0200001abf6ff22eb21166b2718624e211e5700f08060a000002",
    "0201001a8f7a15995d07b6b9ebd7a54d71103b4008060a000002",
];

/// A run over this configuration, at moments that are so many milliseconds apart.
pub(super) fn run_in<R: Threads + Wait + Sync>(
    rt: &R,
    alloc: Global,
    configuration: &str,
    script: Vec<Arrival>,
    step: u64,
) -> Result<Ended, AllocError> {
    let plant = MemoryPlant::new(alloc, script, Vec::new(alloc), 128)?;
    run_by(rt, alloc, configuration, plant, step)
}

/// A datagram to Acct from the server.
pub(super) fn response(alloc: Global, octets: &str) -> Result<Arrival, Fail> {
    let octets = hex::decode(alloc, octets)?;
    Ok(Arrival::new(Role::Acct, loopback(1813), octets.as_slice()))
}

/// By these frames the host comes to its address and sends a packet.
const COMES: &[&[u8]] = &[ANY, ASKS, TAKES, FROM_HOST];

/// A host logs in, at moments that are 1,000 ms apart: this Access-Accept comes in the second turn; in the third the server has the Start,
/// the host comes to its address, and a packet goes each way.
fn arrival(alloc: Global, accept: &str) -> Result<Vec<Arrival>, Fail> {
    let mut script = begun(alloc)?;
    script.push(reply(alloc, 1812, accept)?)?;
    script.push(response(alloc, STARTED)?)?;
    then_hears(alloc, &mut script, COMES)?;
    script.push(Arrival::new(Role::Core, loopback(9001), FROM_CORE))?;
    Ok(script)
}

/// It leaves in the fourth turn, and the server has the Stop in the fifth.
fn visit(alloc: Global) -> Result<Vec<Arrival>, Fail> {
    let mut script = arrival(alloc, ACCEPT_50)?;
    script.push(from_host(alloc, LEAVES)?)?;
    script.push(response(alloc, STOPPED)?)?;
    script.push(stop(0))?;
    Ok(script)
}

/// The first records that a run sent to the server are these.
pub(super) fn records_begin(
    rt: &impl Abort,
    alloc: Global,
    ended: &Ended,
    wanted: &[&str],
) -> Result<(), Fail> {
    let sent = ended.plant.sent().iter();
    let mut records = sent.filter(|datagram| datagram.role == Role::Acct);
    for octets in wanted {
        let record = records.next().expect(rt, "a record");
        goes_to(rt, alloc, record, loopback(1813), *octets)?;
    }
    Ok(())
}

/// They are these, and no more.
pub(super) fn records(
    rt: &impl Abort,
    alloc: Global,
    ended: &Ended,
    wanted: &[&str],
) -> Result<(), Fail> {
    let sent = ended.plant.sent().iter();
    let all = sent.filter(|datagram| datagram.role == Role::Acct);
    assert_same(rt, &all.count(), &wanted.len());
    records_begin(rt, alloc, ended, wanted)
}

/// What is sent after its Access-Request where it leaves, and where it is logged out.
const SENT_TO_LEAVING: &[Sent] = &[
    Sent::ToHost(PASSED),
    Sent::ToHost(OWN_ADDRESS),
    Sent::ToHost(TO_BE),
    Sent::ToHost(GETS),
    Sent::Octets(Role::Core, 9001, UP),
    Sent::ToHost(DOWN),
    Sent::ToHost(LEFT),
    STOPPING,
    OVER,
];

const SENT_TO_SILENT: &[Sent] = &[
    Sent::ToHost(PASSED),
    Sent::ToHost(OWN_ADDRESS),
    Sent::ToHost(TO_BE),
    Sent::ToHost(GETS),
    Sent::Octets(Role::Core, 9001, UP),
    Sent::ToHost(DOWN),
    Sent::ToHost(TERMINATE),
    STOPPING,
    OVER,
];

#[test]
fn a_subscriber_logs_in_and_is_accounted_for(rt: HostRuntime) -> Result<(), Fail> {
    let alloc = rt.alloc();
    let ended = run_in(&rt, alloc, PAP, visit(alloc)?, 1000)?;
    assert_err(&rt, &ended, b"");
    assert_report(
        &rt,
        alloc,
        &ended,
        &Counted {
            octets: "in=40 out=28",
            lines: &["profile default in=40 out=28"],
            drops: &[],
        },
    )?;
    sends_after(&rt, alloc, &ended, 0, SENT_TO_LEAVING)?;
    records(&rt, alloc, &ended, &[START, STOP])
}

/// It says nothing more, which the turn tells that is 2 s after the packets; the server has the Stop in the turn after that.
fn silence(alloc: Global) -> Result<Vec<Arrival>, Fail> {
    let mut script = arrival(alloc, ACCEPT_IDLE)?;
    script.push(response(alloc, IDLE_STOPPED)?.after(2))?;
    script.push(stop(0))?;
    Ok(script)
}

#[test]
fn a_subscriber_who_is_silent_is_logged_out(rt: HostRuntime) -> Result<(), Fail> {
    let alloc = rt.alloc();
    let ended = run_in(&rt, alloc, PAP, silence(alloc)?, 1000)?;
    sends_after(&rt, alloc, &ended, 0, SENT_TO_SILENT)?;
    records(&rt, alloc, &ended, &[START, IDLE_STOP])
}

/// The other host asks for a session, brings LCP to Opened by this Configure-Ack and sends the same password.
fn other_begins(alloc: Global, script: &mut Vec<Arrival>, ack: &[u8]) -> Result<(), AllocError> {
    let port = Role::Access(1);
    script.push(Arrival::new(port, loopback(9011), &request(&OTHER)))?;
    for heard in [REQUEST.as_slice(), ack, PASSWORD] {
        let frame = framed(alloc, &FROM_OTHER, heard)?;
        script.push(Arrival::new(port, loopback(9011), frame.as_slice()))?;
    }
    Ok(())
}

/// The first host gets its Access-Accept in the second turn, in which the other one begins. That one's comes in the third.
fn two_hosts(alloc: Global) -> Result<Vec<Arrival>, Fail> {
    let mut script = begun(alloc)?;
    script.push(reply(alloc, 1812, ACCEPT)?)?;
    other_begins(alloc, &mut script, OTHER_ACK)?;
    script.push(reply(alloc, 1812, OTHER_ACCEPT)?)?;
    script.push(stop(0))?;
    Ok(script)
}

/// The PADT of the other host's session.
const OTHER_OVER: Sent = Sent::Octets(Role::Access(1), 9011, &OTHER_PADT);

/// What is sent after the first host's Access-Request.
const ONE_LOGIN: &[Sent] = &[
    Sent::ToHost(PASSED),
    Sent::ToHost(OWN_ADDRESS),
    Sent::Octets(Role::Access(1), 9011, &OTHER_PADS),
    Sent::ToOther(OTHER_ASKED),
    Sent::ToOther(&ACKED),
    Sent::Digits(Role::Auth, 1812, OTHER_REQUEST),
    Sent::ToOther(NO_ADDRESS),
    Sent::ToOther(TERMINATE),
    STOPPING,
    OVER,
    OTHER_OVER,
];

#[test]
fn where_the_pool_is_used_up_an_accept_is_no_login(rt: HostRuntime) -> Result<(), Fail> {
    let alloc = rt.alloc();
    let ended = run_in(&rt, alloc, ONE_ADDRESS, two_hosts(alloc)?, 10)?;
    // The server says nothing to the records.
    sends_after(&rt, alloc, &ended, 6, ONE_LOGIN)?;
    records_are_of_the_first_host(&rt, &ended);
    Ok(())
}

/// Each record of a run is of the first host: its NAS-Port is the session 3073, and its Framed-IP-Address 10.0.0.2.
fn records_are_of_the_first_host(rt: &impl Abort, ended: &Ended) {
    let sent = ended.plant.sent().iter();
    for record in sent.filter(|datagram| datagram.role == Role::Acct) {
        assert_holds(
            rt,
            has(record.octets.as_slice(), b"\x05\x06\x00\x00\x0c\x01"),
        );
        assert_holds(
            rt,
            has(record.octets.as_slice(), b"\x08\x06\x0a\x00\x00\x02"),
        );
    }
}

/// Both hosts ask in the first turn, and get their Access-Accepts in the second.
fn both_hosts(alloc: Global) -> Result<Vec<Arrival>, Fail> {
    let mut script = begun(alloc)?;
    other_begins(alloc, &mut script, BOTH_ACK)?;
    for accept in BOTH_ACCEPTS {
        script.push(reply(alloc, 1812, *accept)?)?;
    }
    script.push(stop(0))?;
    Ok(script)
}

/// What is sent after the PADS and two packets of LCP to each host.
const FIRST_COUNTS: &[Sent] = &[
    Sent::Digits(Role::Auth, 1812, FIRST_REQUEST),
    Sent::Digits(Role::Auth, 1812, SECOND_REQUEST),
    Sent::ToHost(PASSED),
    Sent::ToHost(OWN_ADDRESS),
    Sent::ToOther(NO_ADDRESS),
    Sent::ToOther(TERMINATE),
    STOPPING,
    OVER,
    OTHER_OVER,
];

#[test]
fn of_two_accepts_for_one_address_in_one_round_the_first_counts(
    rt: HostRuntime,
) -> Result<(), Fail> {
    let alloc = rt.alloc();
    let ended = run_in(&rt, alloc, ONE_ADDRESS, both_hosts(alloc)?, 10)?;
    assert_status(&rt, &ended, 6);
    sends_list_from(&rt, alloc, &ended, 6, FIRST_COUNTS)?;
    records_are_of_the_first_host(&rt, &ended);
    Ok(())
}
