ghost use Rattle.std.specs.Prelude.{◌≤◌, length};

use crate::asserts::{assert_holds, assert_octets, assert_same};
use bng_base::{Frame, Ip4};
use bng_ipv4::{Ipv4, ReadError, Written, lower_ttl, read, write};
use std::process::Abort;

// a header with TTL 2 and UDP, from 10.0.0.2 to 192.0.2.1
const PACKET: [u8; 20] = [
    0x45, 0, 0, 0x14, 0, 2, 0, 0, 2, 0x11, 0xec, 0xd4, 10, 0, 0, 2, 192, 0, 2, 1,
];

// the same with four octets of options
const WITH_OPTIONS: [u8; 24] = [
    0x46, 0, 0, 0x18, 0, 2, 0, 0, 2, 0x11, 0xe9, 0xce, 10, 0, 0, 2, 192, 0, 2, 1, 1, 1, 1, 1,
];

const SAID: Ipv4 = Ipv4 {
    src: Ip4(0x0a00_0002),
    dst: Ip4(0xc000_0201),
    ttl: 2,
    header: 20,
    total: 20,
};

// what is read of WITH_OPTIONS
fn said_with_options() -> Ipv4 {
    Ipv4 {
        header: 24,
        total: 24,
        ..SAID
    }
}

// PACKET, padded to 46 octets
fn padded() -> [u8; 46] {
    let mut octets = [0; 46];
    octets[..20].copy_from_slice(&PACKET);
    octets
}

// asserts that this is read of the octets
fn assert_read(rt: &impl Abort, octets: &[u8], wanted: Ipv4) {
    assert_same(rt, &read(octets), &Ok(wanted));
}

#[test]
fn reads_what_the_header_says(rt: HostRuntime) {
    assert_read(&rt, &PACKET, SAID);
    assert_read(&rt, &padded(), SAID);
    assert_read(&rt, &WITH_OPTIONS, said_with_options());
}

// asserts that the octets are outside the grammar
fn assert_outside(rt: &impl Abort, octets: &[u8]) {
    assert_same(rt, &read(octets), &Err(ReadError::Outside));
}

// the octet at a place changed: version 6, IHL 4, total length 19 and 21, TTL or checksum changed alone
const WRONG: &[(usize, u8)] = &[
    (0, 0x65),
    (0, 0x44),
    (3, 0x13),
    (3, 0x15),
    (8, 3),
    (11, 0xd5),
];

// PACKET with this octet at a place
fn changed(place: usize, octet: u8) -> [u8; 20] {
    let mut octets = PACKET;
    if place < 20 {
        octets[place] = octet;
    }
    octets
}

#[test]
fn refuses_each_field_that_is_wrong(rt: HostRuntime) {
    for (place, octet) in WRONG {
        assert_outside(&rt, &changed(*place, *octet));
    }
    assert_outside(&rt, &PACKET[..19]);
}

// Lowers the TTL of a packet. Whether there is one, with a TTL of 2 at least.
fn has_lowered(frame: &mut Frame) -> bool {
    match read(frame.payload()) {
        Ok(v) if v.ttl >= 2 => {
            lower_ttl(frame);
            true
        }
        _ => false,
    }
}

fn lowered(rt: &impl Abort, before: &[u8; 20], after: &[u8; 20], more: &[u8])
    requires { length more.now ≤ 64 }
{
    let mut frame = Frame::new();
    frame.set(before);
    frame.put_back(more);
    assert_holds(rt, has_lowered(&mut frame));
    assert_holds(rt, frame.payload().len() == 20 + more.len());
    assert_holds(rt, frame.payload().starts_with(after));
    assert_holds(rt, frame.payload().ends_with(more));
}

// PACKET with its TTL lowered
fn packet_lowered() -> [u8; 20] {
    let mut after = PACKET;
    after[8] = 1;
    after[10] = 0xed;
    after
}

// the header of an ICMP packet with TTL 64
const ECHO: [u8; 20] = [
    0x45, 0, 0, 0x54, 0, 1, 0, 0, 0x40, 1, 0xae, 0xa5, 10, 0, 0, 2, 192, 0, 2, 1,
];

// the same with its TTL lowered
const ECHO_LOWERED: [u8; 20] = [
    0x45, 0, 0, 0x54, 0, 1, 0, 0, 0x3f, 1, 0xaf, 0xa5, 10, 0, 0, 2, 192, 0, 2, 1,
];

#[test]
fn lowers_the_ttl_and_sums_the_header_again(rt: HostRuntime) {
    lowered(&rt, &PACKET, &packet_lowered(), &[]);
    lowered(&rt, &ECHO, &ECHO_LOWERED, &[0x5a; 64]);
}

// Writes what is read of the octets. None where they are outside the grammar.
fn rewritten(octets: &[u8], frame: &mut Frame) -> Option<Written> {
    match read(octets) {
        Ok(v) => Some(write(&v, frame)),
        Err(_) => None,
    }
}

// what is written of WITH_OPTIONS
const SPELLING: [u8; 24] = [
    0x46, 0, 0, 0x18, 0, 0, 0, 0, 2, 0, 0xeb, 0xe3, 10, 0, 0, 2, 192, 0, 2, 1, 0, 0, 0, 0,
];

#[test]
fn writes_one_spelling_and_reads_it_back(rt: HostRuntime) {
    let mut frame = Frame::new();
    let written = rewritten(&WITH_OPTIONS, &mut frame);
    assert_same(&rt, &written, &Some(Written::Done));
    assert_octets(&rt, frame.payload(), &SPELLING);
    assert_same(&rt, &read(frame.payload()), &read(&WITH_OPTIONS));
}

// a packet of 4,097 octets
fn long_packet() -> [u8; 4097] {
    let mut octets = [0; 4097];
    octets[..20].copy_from_slice(&[
        0x45, 0, 0x10, 1, 0, 0, 0, 0, 0x40, 0x11, 0x9e, 0xe9, 10, 0, 0, 2, 192, 0, 2, 1,
    ]);
    octets
}

#[test]
fn a_packet_of_4097_octets_is_full(rt: HostRuntime) {
    let mut frame = Frame::new();
    frame.set(&[7]);
    let written = rewritten(&long_packet(), &mut frame);
    assert_same(&rt, &written, &Some(Written::Full));
    assert_octets(&rt, frame.payload(), &[7]);
}
