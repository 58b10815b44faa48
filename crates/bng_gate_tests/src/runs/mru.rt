//! Packets to subscribers, at their Maximum-Receive-Units and longer (RFC 1661 section 6.1).
use super::authentication::{PAP, PAP_ACK, PASSWORD as PPP_PASSWORD, reply, stop};
use super::concentrator::{
    ACCEPT, ACK, ANY, ASKS, ICCN, ICRQ, PASSWORD, PLAIN, SCCCN, SCCRQ, TAKES, run_calls, then_come,
};
use super::host::{session, then_hears};
use super::logins::{ACCEPT_50, ANY as PPP_ANY, ASKS as PPP_ASKS, TAKES as PPP_TAKES, run_in};
use super::{CONFIGURATION, Ended, assert_status, has, loopback};
use crate::asserts::{assert_holds, assert_same};
use bng_base::{Peer, Role};
use bng_plant::Arrival;
use std::alloc::{AllocError, Global};
use std::process::Abort;
use std::test::Fail;

/// A Configure-Request with an MRU of 1,400, over a call and of a host, and the Configure-Ack over the call.
const REQUEST_1400: &str = "000204010401ff03c0210102000e01040578050611223344";

const ACKED_1400: &str = "000200050009ff03c0210202000e01040578050611223344";

const PPP_REQUEST_1400: &[u8] = b"\xc0\x21\x01\x02\x00\x0e\x01\x04\x05\x78\x05\x06\x11\x22\x33\x44";

/// The headers of packets of the core to 10.0.0.50 with TTL 64 and 1,400 and 1,401 octets, and that of the first as it goes on; and of
/// packets to 10.0.0.2 with 1,492 and 1,493.
const CORE_1400: [u8; 20] = [
    0x45, 0x00, 0x05, 0x78, 0x00, 0x02, 0x00, 0x00, 0x40, 0x11, 0xa9, 0x40, 0xc0, 0x00, 0x02, 0x01,
    0x0a, 0x00, 0x00, 0x32,
];

const CORE_1401: [u8; 20] = [
    0x45, 0x00, 0x05, 0x79, 0x00, 0x02, 0x00, 0x00, 0x40, 0x11, 0xa9, 0x3f, 0xc0, 0x00, 0x02, 0x01,
    0x0a, 0x00, 0x00, 0x32,
];

const CORE_1400_DOWN: [u8; 20] = [
    0x45, 0x00, 0x05, 0x78, 0x00, 0x02, 0x00, 0x00, 0x3f, 0x11, 0xaa, 0x40, 0xc0, 0x00, 0x02, 0x01,
    0x0a, 0x00, 0x00, 0x32,
];

const CORE_1492: [u8; 20] = [
    0x45, 0x00, 0x05, 0xd4, 0x00, 0x02, 0x00, 0x00, 0x40, 0x11, 0xa9, 0x14, 0xc0, 0x00, 0x02, 0x01,
    0x0a, 0x00, 0x00, 0x02,
];

const CORE_1493: [u8; 20] = [
    0x45, 0x00, 0x05, 0xd5, 0x00, 0x02, 0x00, 0x00, 0x40, 0x11, 0xa9, 0x13, 0xc0, 0x00, 0x02, 0x01,
    0x0a, 0x00, 0x00, 0x02,
];

const CORE_1492_DOWN: [u8; 20] = [
    0x45, 0x00, 0x05, 0xd4, 0x00, 0x02, 0x00, 0x00, 0x3f, 0x11, 0xaa, 0x14, 0xc0, 0x00, 0x02, 0x01,
    0x0a, 0x00, 0x00, 0x02,
];

/// A packet of the core with this header, and so many octets after it.
fn core_packet(alloc: Global, header: &[u8; 20], rest: &[u8]) -> Result<Arrival, AllocError> {
    let mut packet = Vec::from_slice(alloc, header)?;
    packet.extend_from_slice(rest)?;
    Ok(Arrival::new(Role::Core, loopback(9001), packet.as_slice()))
}

/// A run dropped one packet as too big. Of those of this role that are longer than 1,000 octets it sent one, of so many octets, with this
/// header behind so many.
fn one_fits(
    rt: &impl Abort,
    ended: &Ended,
    role: Role,
    length: usize,
    behind: usize,
    header: &[u8; 20],
) {
    assert_holds(rt, has(ended.out.text(), b"drop TooBig 1\n"));
    let sent = ended.plant.sent().iter();
    let mut long = sent.filter(|datagram| datagram.role == role
        && datagram.octets.as_slice().len() > 1000);
    let one = long.next().expect(rt, "a packet");
    assert_packet(rt, one.octets.as_slice(), length, behind, header);
    assert_holds(rt, long.next().is_none());
}

/// These octets are so many, with this header behind so many.
fn assert_packet(rt: &impl Abort, octets: &[u8], length: usize, behind: usize, header: &[u8; 20]) {
    assert_same(rt, &octets.len(), &length);
    let packet = octets.get(behind..length).expect(rt, "octets");
    assert_holds(rt, packet.starts_with(header));
}

/// The packets of 1,400 and 1,401 octets come next, and then `stop`.
fn then_packets(alloc: Global, script: &mut Vec<Arrival>) -> Result<(), AllocError> {
    script.push(core_packet(alloc, &CORE_1400, &[7; 1380])?)?;
    script.push(core_packet(alloc, &CORE_1401, &[7; 1381])?)?;
    script.push(stop(0))?;
    Ok(())
}

/// By these a call comes to its question, and by those to its address.
const CALL_BEGINS: &[(Peer, &str)] = &[
    (PLAIN, SCCRQ),
    (PLAIN, SCCCN),
    (PLAIN, ICRQ),
    (PLAIN, ICCN),
    (PLAIN, REQUEST_1400),
    (PLAIN, ACK),
    (PLAIN, PASSWORD),
];

const CALL_COMES: &[(Peer, &str)] = &[(PLAIN, ANY), (PLAIN, ASKS), (PLAIN, TAKES)];

/// A call with that MRU comes to its address, and then come the packets.
fn over_call(alloc: Global) -> Result<Vec<Arrival>, Fail> {
    let mut script = Vec::new(alloc);
    then_come(alloc, &mut script, CALL_BEGINS)?;
    script.push(reply(alloc, 1812, ACCEPT)?)?;
    then_come(alloc, &mut script, CALL_COMES)?;
    then_packets(alloc, &mut script)?;
    Ok(script)
}

/// A run sent a datagram with these octets, which are given in digits.
fn is_among(rt: &impl Abort, alloc: Global, ended: &Ended, octets: &str) -> Result<(), Fail> {
    let octets = hex::decode(alloc, octets)?;
    let mut sent = ended.plant.sent().iter();
    assert_holds(
        rt,
        sent.any(|datagram| datagram.octets.as_slice() == octets.as_slice()),
    );
    Ok(())
}

#[test]
fn a_packet_longer_than_the_mru_does_not_go_over_a_call(rt: HostRuntime) -> Result<(), Fail> {
    let alloc = rt.alloc();
    let ended = run_calls(&rt, alloc, over_call(alloc)?, 10)?;
    assert_status(&rt, &ended, 6);
    is_among(&rt, alloc, &ended, ACKED_1400)?;
    one_fits(&rt, &ended, Role::Tunnel, 1410, 10, &CORE_1400_DOWN);
    Ok(())
}

/// By these a host comes to its question, and by those to its address.
const HOST_BEGINS: &[&[u8]] = &[PPP_REQUEST_1400, PAP_ACK, PPP_PASSWORD];

const HOST_COMES: &[&[u8]] = &[PPP_ANY, PPP_ASKS, PPP_TAKES];

/// A host with that MRU comes to its address, and then come the packets.
fn to_host(alloc: Global) -> Result<Vec<Arrival>, Fail> {
    let mut script = session(alloc, HOST_BEGINS)?;
    script.push(reply(alloc, 1812, ACCEPT_50)?)?;
    then_hears(alloc, &mut script, HOST_COMES)?;
    then_packets(alloc, &mut script)?;
    Ok(script)
}

#[test]
fn a_packet_longer_than_the_mru_does_not_go_to_a_host(rt: HostRuntime) -> Result<(), Fail> {
    let alloc = rt.alloc();
    let ended = run_in(&rt, alloc, PAP, to_host(alloc)?, 10)?;
    assert_status(&rt, &ended, 6);
    one_fits(&rt, &ended, Role::Access(1), 1422, 22, &CORE_1400_DOWN);
    Ok(())
}

/// The packets of 1,492 and 1,493 octets come to the circuit, and then `stop`.
fn to_circuit(alloc: Global) -> Result<Vec<Arrival>, AllocError> {
    let mut script = Vec::new(alloc);
    script.push(core_packet(alloc, &CORE_1492, &[7; 1472])?)?;
    script.push(core_packet(alloc, &CORE_1493, &[7; 1473])?)?;
    script.push(stop(0))?;
    Ok(script)
}

#[test]
fn a_packet_longer_than_1492_octets_does_not_go_to_a_circuit(rt: HostRuntime) -> Result<(), Fail> {
    let alloc = rt.alloc();
    let ended = run_in(&rt, alloc, CONFIGURATION, to_circuit(alloc)?, 10)?;
    assert_status(&rt, &ended, 6);
    one_fits(&rt, &ended, Role::Access(1), 1514, 22, &CORE_1492_DOWN);
    Ok(())
}
