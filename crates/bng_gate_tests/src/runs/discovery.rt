//! Sessions that hosts ask for.
use super::authentication::stop;
use super::host::{HOST, PADS, PADT, SESSIONS, request};
use super::reports::{Counted, assert_report};
use super::running::{SERVE, run_by, run_over};
use super::{Ended, assert_status, loopback, sends};
use crate::asserts::{assert_holds, assert_same};
use bng_base::Role;
use bng_plant::{Arrival, MemoryPlant};
use std::alloc::{AllocError, Global};
use std::process::Abort;
use std::test::Fail;

/// A PADI for any service, with a Host-Uniq.
const PADI: [u8; 32] = [
    0xff, 0xff, 0xff, 0xff, 0xff, 0xff, 0x02, 0x00, 0x00, 0x00, 0x00, 0x01, 0x88, 0x63, 0x11, 0x09,
    0x00, 0x00, 0x00, 0x0c, 0x01, 0x01, 0x00, 0x00, 0x01, 0x03, 0x00, 0x04, 0xa1, 0xb2, 0xc3, 0xd4,
];

/// The same with a PPP-Max-Payload (RFC 4638) in front.
const PADI_LARGE: [u8; 38] = [
    0xff, 0xff, 0xff, 0xff, 0xff, 0xff, 0x02, 0x00, 0x00, 0x00, 0x00, 0x01, 0x88, 0x63, 0x11, 0x09,
    0x00, 0x00, 0x00, 0x12, 0x01, 0x20, 0x00, 0x02, 0x05, 0xdc, 0x01, 0x03, 0x00, 0x04, 0xa1, 0xb2,
    0xc3, 0xd4, 0x01, 0x01, 0x00, 0x00,
];

/// A PADI for the service video.
const PADI_VIDEO: [u8; 37] = [
    0xff, 0xff, 0xff, 0xff, 0xff, 0xff, 0x02, 0x00, 0x00, 0x00, 0x00, 0x01, 0x88, 0x63, 0x11, 0x09,
    0x00, 0x00, 0x00, 0x11, 0x01, 0x01, 0x00, 0x05, 0x76, 0x69, 0x64, 0x65, 0x6f, 0x01, 0x03, 0x00,
    0x04, 0xa1, 0xb2, 0xc3, 0xd4,
];

/// The PADO for the first two. Its cookie is the HMAC-MD5 of 01 020000000001 that Python computes.
const PADO: [u8; 68] = [
    0x02, 0x00, 0x00, 0x00, 0x00, 0x01, 0x02, 0x00, 0x00, 0x00, 0x00, 0xfe, 0x88, 0x63, 0x11, 0x07,
    0x00, 0x00, 0x00, 0x30, 0x01, 0x02, 0x00, 0x04, 0x62, 0x6e, 0x67, 0x31, 0x01, 0x01, 0x00, 0x00,
    0x01, 0x01, 0x00, 0x04, 0x69, 0x6e, 0x65, 0x74, 0x01, 0x03, 0x00, 0x04, 0xa1, 0xb2, 0xc3, 0xd4,
    0x01, 0x04, 0x00, 0x10, 0xc4, 0x9f, 0x5e, 0x63, 0x4a, 0xc0, 0x33, 0x37, 0xcf, 0x27, 0x3b, 0x01,
    0x3d, 0x02, 0x7c, 0xa5,
];

/// A PADR for the service video with that cookie.
const PADR_VIDEO: [u8; 57] = [
    0x02, 0x00, 0x00, 0x00, 0x00, 0xfe, 0x02, 0x00, 0x00, 0x00, 0x00, 0x01, 0x88, 0x63, 0x11, 0x19,
    0x00, 0x00, 0x00, 0x25, 0x01, 0x01, 0x00, 0x05, 0x76, 0x69, 0x64, 0x65, 0x6f, 0x01, 0x03, 0x00,
    0x04, 0xa1, 0xb2, 0xc3, 0xd4, 0x01, 0x04, 0x00, 0x10, 0xc4, 0x9f, 0x5e, 0x63, 0x4a, 0xc0, 0x33,
    0x37, 0xcf, 0x27, 0x3b, 0x01, 0x3d, 0x02, 0x7c, 0xa5,
];

/// The PADS for it, with a Service-Name-Error.
const REFUSED: [u8; 41] = [
    0x02, 0x00, 0x00, 0x00, 0x00, 0x01, 0x02, 0x00, 0x00, 0x00, 0x00, 0xfe, 0x88, 0x63, 0x11, 0x65,
    0x00, 0x00, 0x00, 0x15, 0x01, 0x01, 0x00, 0x05, 0x76, 0x69, 0x64, 0x65, 0x6f, 0x02, 0x01, 0x00,
    0x00, 0x01, 0x03, 0x00, 0x04, 0xa1, 0xb2, 0xc3, 0xd4,
];

/// The first Configure-Request of the session, whose magic number is drawn for the sixth item.
const ASKED: [u8; 41] = [
    0x02, 0x00, 0x00, 0x00, 0x00, 0x01, 0x02, 0x00, 0x00, 0x00, 0x00, 0xfe, 0x88, 0x64, 0x11, 0x00,
    0x0c, 0x01, 0x00, 0x15, 0xc0, 0x21, 0x01, 0x01, 0x00, 0x13, 0x01, 0x04, 0x05, 0xd4, 0x03, 0x05,
    0xc2, 0x23, 0x05, 0x05, 0x06, 0x05, 0xba, 0xa6, 0x09,
];

/// The PADS for the host 0200000103ff, with an AC-System-Error.
const FULL: [u8; 36] = [
    0x02, 0x00, 0x00, 0x01, 0x03, 0xff, 0x02, 0x00, 0x00, 0x00, 0x00, 0xfe, 0x88, 0x63, 0x11, 0x65,
    0x00, 0x00, 0x00, 0x10, 0x01, 0x01, 0x00, 0x00, 0x02, 0x02, 0x00, 0x00, 0x01, 0x03, 0x00, 0x04,
    0xa1, 0xb2, 0xc3, 0xd4,
];

/// One shard and no circuit.
const ONE_SHARD: &str = r#"[gateway]
name = "bng1"
address = "10.0.0.1"
nas_ip = "192.168.1.16"
shards = 1
[core]
local = "127.0.0.1:9000"
peer = "127.0.0.1:9001"
[control]
local = "127.0.0.1:9002"
[radius]
auth_local = "127.0.0.1:9003"
auth_server = "127.0.0.1:1812"
acct_local = "127.0.0.1:9004"
acct_server = "127.0.0.1:1813"
secret = "xyzzy5461"
[[access]]
local = "127.0.0.1:9010"
peer = "127.0.0.1:9011"
mac = "02:00:00:00:00:fe"
[[pool]]
name = "main"
first = "10.0.0.2"
last = "10.0.0.101"
"#;

/// A report of no circuit, with nothing dropped.
pub(super) const NOTHING: Counted<'static> = Counted {
    octets: "in=0 out=0",
    lines: &["profile default in=0 out=0"],
    drops: &[],
};

/// The three PADIs and the PADR for the service video come from the host; then a PADR for any service with one bit of its cookie changed,
/// twice one with the right cookie, and `stop`.
fn asked(alloc: Global) -> Result<Vec<Arrival>, AllocError> {
    let padr = request(&HOST);
    let mut changed = padr;
    changed[51] ^= 1;
    let mut script = Vec::new(alloc);
    script.push(frame(&PADI))?;
    script.push(frame(&PADI_LARGE))?;
    script.push(frame(&PADI_VIDEO))?;
    script.push(frame(&PADR_VIDEO))?;
    script.push(frame(&changed))?;
    script.push(frame(&padr))?;
    script.push(frame(&padr))?;
    script.push(stop(0))?;
    Ok(script)
}

/// A frame comes to access port 1.
fn frame(octets: &[u8]) -> Arrival {
    Arrival::new(Role::Access(1), loopback(9011), octets)
}

/// What is sent for them.
const ANSWERED: &[(Role, u16, &[u8])] = &[
    (Role::Access(1), 9011, &PADO),
    (Role::Access(1), 9011, &PADO),
    (Role::Access(1), 9011, &REFUSED),
    (Role::Access(1), 9011, &PADS),
    (Role::Access(1), 9011, &ASKED),
    (Role::Access(1), 9011, &PADS),
    (Role::Control, 5, b"stopping\n"),
    (Role::Access(1), 9011, &PADT),
];

#[test]
fn a_host_is_offered_a_session_and_gets_it_once(rt: HostRuntime) -> Result<(), Fail> {
    let alloc = rt.alloc();
    let ended = run_over(&rt, alloc, &SERVE, SESSIONS, asked(alloc)?, &[], &[])?;
    assert_status(&rt, &ended, 0);
    assert_report(&rt, alloc, &ended, &NOTHING)?;
    sends(&rt, &ended, ANSWERED);
    Ok(())
}

/// As many hosts as a shard has sessions, and one more.
const HOSTS: u16 = 1023;

/// The frame is a PADS.
fn is_pads(octets: &[u8]) -> bool {
    octets.get(13) == Some(&0x63) && octets.get(15) == Some(&0x65)
}

/// The PADR of the host whose MAC ends in this number.
fn asks(number: u16) -> Arrival {
    let [high, low] = number.to_be_bytes();
    frame(&request(&[2, 0, 0, 1, high, low]))
}

/// Those hosts ask, in the order of their numbers, and then comes `stop`.
fn all_ask(alloc: Global) -> Result<Vec<Arrival>, AllocError> {
    let mut script = Vec::new(alloc);
    for number in 1..=HOSTS {
        script.push(asks(number))?;
    }
    script.push(stop(0))?;
    Ok(script)
}

/// This is the PADS of the host whose MAC ends in this number, for the session of the same number.
fn assert_pads(rt: &impl Abort, found: Option<&[u8]>, number: u16) {
    let [high, low] = number.to_be_bytes();
    let pads = found.expect(rt, "a PADS");
    assert_same(rt, &pads.get(4..6), &Some([high, low].as_slice()));
    assert_same(rt, &pads.get(16..18), &Some([high, low].as_slice()));
}

/// The PADSs that a run sent are one for each host, in the order of their numbers, and the last refuses its host.
fn all_but_last_have_sessions(rt: &impl Abort, ended: &Ended) {
    let sent = ended.plant.sent().iter();
    let mut replies = sent
        .map(|datagram| datagram.octets.as_slice())
        .filter(|octets| is_pads(octets));
    for number in 1..HOSTS {
        assert_pads(rt, replies.next(), number);
    }
    let last = replies.next().expect(rt, "a PADS");
    assert_same(rt, &last, &FULL.as_slice());
    assert_holds(rt, replies.next().is_none());
}

#[test]
fn a_shard_has_1022_sessions(rt: HostRuntime) -> Result<(), Fail> {
    let alloc = rt.alloc();
    let plant = MemoryPlant::new(alloc, all_ask(alloc)?, Vec::new(alloc), 4096)?;
    let ended = run_by(&rt, alloc, ONE_SHARD, plant, 10)?;
    assert_status(&rt, &ended, 0);
    assert_report(&rt, alloc, &ended, &NOTHING)?;
    all_but_last_have_sessions(&rt, &ended);
    Ok(())
}
