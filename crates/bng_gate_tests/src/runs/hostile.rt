//! Octets outside each grammar, and floods. Replies and requests of RADIUS that are passed over stand with the logins and with the refusals,
//! and a flood of SCCRQs with the tunnels.
use super::authentication::stop;
use super::concentrator::{PLAIN, SCCRP, SCCRQ, STOPS_EARLY, TUNNELS, tells};
use super::discovery::NOTHING;
use super::established::{SCCRP_6, SCCRQ_6};
use super::host::{ACK, ACKED, ASKED, HOST, PADS, REQUEST, SESSIONS, request, session};
use super::link::{CHALLENGE, ECHO, ECHO_REPLY};
use super::logins::run_in;
use super::reports::{Counted, assert_report};
use super::running::{SERVE, run_by, run_over};
use super::sent::{OVER, STOPPING, Sent, sends_list};
use super::{Ended, assert_status, loopback};
use crate::asserts::{assert_count, assert_same};
use bng_base::{Datagram, Peer, Role};
use bng_plant::{Arrival, MemoryPlant};
use std::alloc::Global;
use std::process::Abort;
use std::sync::Wait;
use std::test::Fail;
use std::thread::Threads;

/// Datagrams outside their grammars: the role, the port of 127.0.0.1 that they come from, and the octets in digits.
const MALFORMED: &[(Role, u16, &str)] = &[
    // an Ethernet frame of 13 octets
    (Role::Access(1), 9011, "0200000000fe02000000000188"),
    // a session frame of two octets whose LENGTH is 3 (RFC 2516 section 4)
    (
        Role::Access(1),
        9011,
        "0200000000fe020000000001886411000c010003c021",
    ),
    // a PADI with two Service-Names (RFC 2516 section 5.1)
    (
        Role::Access(1),
        9011,
        "ffffffffffff02000000000188631109000000080101000001010000",
    ),
    // a control message with an AVP of length 5 (RFC 2661 section 4.1)
    (Role::Tunnel, 1705, "c802001100000000000000008005000000"),
    // a packet whose header checksum (RFC 791 section 3.1) is changed by one bit
    (Role::Core, 9001, "45000014000200000211ecd5c00002010a000002"),
];

/// Datagrams inside their grammars, of which each is the front of one that is too long.
const FRONTS: &[(Role, u16, &str)] = &[
    // a PADI
    (
        Role::Access(1),
        9011,
        "ffffffffffff020000000001886311090000000401010000",
    ),
    // an SCCRQ
    (Role::Tunnel, 1705, SCCRQ),
    // a packet to nobody's address
    (Role::Core, 9001, "45000014000200000211ecd4c00002010a000002"),
];

/// One datagram was Malformed, and nothing else was counted.
const ONE_MALFORMED: Counted<'static> = Counted {
    octets: "in=0 out=0",
    lines: &["profile default in=0 out=0"],
    drops: &[("Malformed", 1)],
};

/// A run in which these octets come, and then `stop`, counts one as Malformed and sends nothing but the answer to `stop`.
fn is_malformed<R: Threads + Wait + Sync + Abort>(
    rt: &R,
    alloc: Global,
    role: Role,
    port: u16,
    octets: &[u8],
) -> Result<(), Fail> {
    let mut script = Vec::new(alloc);
    script.push(Arrival::new(role, loopback(port), octets))?;
    script.push(stop(0))?;
    let ended = run_in(rt, alloc, TUNNELS, script, 10)?;
    assert_status(rt, &ended, 0);
    assert_report(rt, alloc, &ended, &ONE_MALFORMED)?;
    sends_list(rt, alloc, &ended, &[STOPPING])
}

#[test]
fn what_is_outside_its_grammar_is_malformed(rt: HostRuntime) -> Result<(), Fail> {
    let alloc = rt.alloc();
    for (role, port, octets) in MALFORMED {
        let octets = hex::decode(alloc, *octets)?;
        is_malformed(&rt, alloc, *role, *port, octets.as_slice())?;
    }
    Ok(())
}

/// A PADI with an empty Service-Name and 64 empty Vendor-Specific tags: 65 tags (RFC 2516 section 4 and appendix A).
fn many_tags(alloc: Global) -> Result<Vec<u8>, Fail> {
    let mut frame = hex::decode(alloc, "ffffffffffff020000000001886311090000010401010000")?;
    for _tag in 0..64 {
        frame.extend_from_slice(&[1, 5, 0, 0])?;
    }
    Ok(frame)
}

#[test]
fn a_frame_of_65_tags_is_malformed(rt: HostRuntime) -> Result<(), Fail> {
    let alloc = rt.alloc();
    let frame = many_tags(alloc)?;
    is_malformed(&rt, alloc, Role::Access(1), 9011, frame.as_slice())
}

/// These octets, and zeros behind them up to 4,097.
fn too_long(alloc: Global, front: &str) -> Result<Vec<u8>, Fail> {
    let mut octets = hex::decode(alloc, front)?;
    for _octet in octets.len()..4097 {
        octets.push(0)?;
    }
    Ok(octets)
}

#[test]
fn a_datagram_of_4097_octets_is_malformed(rt: HostRuntime) -> Result<(), Fail> {
    let alloc = rt.alloc();
    for (role, port, front) in FRONTS {
        let octets = too_long(alloc, *front)?;
        is_malformed(&rt, alloc, *role, *port, octets.as_slice())?;
    }
    Ok(())
}

/// An LCP packet whose length is 3, and a Configure-Request that has an option of length 1 (RFC 1661 sections 5 and 6).
const LENGTH_3: [u8; 6] = [0xc0, 0x21, 0x01, 0x01, 0x00, 0x03];

const OPTION_OF_1: [u8; 8] = [0xc0, 0x21, 0x01, 0x05, 0x00, 0x06, 0x01, 0x01];

/// They come before the host's link is Opened and after that, and then the host asks for an echo.
const HEARD: &[&[u8]] = &[&LENGTH_3, &REQUEST, &ACK, &LENGTH_3, &OPTION_OF_1, &ECHO];

/// The answers are those to the other frames: the link does not leave Opened.
const ANSWERED: &[Sent] = &[
    Sent::Octets(Role::Access(1), 9011, &PADS),
    Sent::ToHost(&ASKED),
    Sent::ToHost(&ACKED),
    Sent::ToHost(&CHALLENGE),
    Sent::ToHost(&ECHO_REPLY),
    STOPPING,
    OVER,
];

#[test]
fn a_link_passes_over_what_is_outside_its_grammar(rt: HostRuntime) -> Result<(), Fail> {
    let alloc = rt.alloc();
    let mut script = session(alloc, HEARD)?;
    script.push(stop(0))?;
    let ended = run_over(&rt, alloc, &SERVE, SESSIONS, script, &[], &[])?;
    assert_status(&rt, &ended, 0);
    assert_report(&rt, alloc, &ended, &NOTHING)?;
    sends_list(&rt, alloc, &ended, ANSWERED)
}

/// A PADI of the host.
const PADI: [u8; 24] = [
    0xff, 0xff, 0xff, 0xff, 0xff, 0xff, 0x02, 0x00, 0x00, 0x00, 0x00, 0x01, 0x88, 0x63, 0x11, 0x09,
    0x00, 0x00, 0x00, 0x04, 0x01, 0x01, 0x00, 0x00,
];

/// Another host of the same shard.
const OTHER_HOST: [u8; 6] = [0x02, 0x00, 0x00, 0x00, 0x00, 0x05];

/// A frame comes to access port 1.
fn frame(octets: &[u8]) -> Arrival {
    Arrival::new(Role::Access(1), loopback(9011), octets)
}

/// A message of an access concentrator comes.
fn message(alloc: Global, octets: &str) -> Result<Arrival, Fail> {
    let octets = hex::decode(alloc, octets)?;
    Ok(Arrival::new(Role::Tunnel, PLAIN, octets.as_slice()))
}

/// A host asks for a session, and an access concentrator for a tunnel; then come 10,000 PADIs; then the concentrator asks for another tunnel
/// and another host of that shard for a session, and `stop` comes.
fn flood(alloc: Global) -> Result<Vec<Arrival>, Fail> {
    let mut script = Vec::new(alloc);
    script.push(message(alloc, SCCRQ)?)?;
    script.push(frame(&request(&HOST)))?;
    for _padi in 0..10_000 {
        script.push(frame(&PADI))?;
    }
    script.push(message(alloc, SCCRQ_6)?)?;
    script.push(frame(&request(&OTHER_HOST)))?;
    script.push(stop(0))?;
    Ok(script)
}

/// The StopCCN with the Result Code 6 of tunnel 0402 to the peer's 6, before its SCCCN.
const STOPS_6_EARLY: &str =
    "c80200240006000000010001800800000000000480080000000904028008000000010006";

/// What the concentrator is told: the tunnels 0401 and 0402 were the lowest of its shard before the PADIs and after them, and both end at the
/// stop.
const TOLD: &[(Peer, &str)] = &[
    (PLAIN, SCCRP),
    (PLAIN, SCCRP_6),
    (PLAIN, STOPS_EARLY),
    (PLAIN, STOPS_6_EARLY),
];

/// The datagram is a discovery frame of this code (RFC 2516 section 4).
fn has_code(datagram: &Datagram, code: u8) -> bool {
    let octets = datagram.octets.as_slice();
    octets.get(13) == Some(&0x63) && octets.get(15) == Some(&code)
}

/// How many frames of this code a run sent.
fn frames_of(ended: &Ended, code: u8) -> usize {
    let sent = ended.plant.sent().iter();
    sent.filter(|datagram| has_code(datagram, code)).count()
}

/// The frames of this code that a run sent have these sessions, in this order.
fn are_of(rt: &impl Abort, ended: &Ended, code: u8, sessions: &[[u8; 2]]) {
    assert_count(rt, frames_of(ended, code), sessions.len());
    let sent = ended.plant.sent().iter();
    let frames = sent.filter(|datagram| has_code(datagram, code));
    for (datagram, session) in frames.zip(sessions) {
        assert_same(
            rt,
            &datagram.octets.as_slice().get(16..18),
            &Some(session.as_slice()),
        );
    }
}

/// The sessions 0c01 and 0c02 were the lowest of their shard before the PADIs and after them.
const TWO_SESSIONS: &[[u8; 2]] = &[[0x0c, 0x01], [0x0c, 0x02]];

#[test]
fn ten_thousand_padis_take_no_session_and_no_tunnel(rt: HostRuntime) -> Result<(), Fail> {
    let alloc = rt.alloc();
    let plant = MemoryPlant::new(alloc, flood(alloc)?, Vec::new(alloc), 16_384)?;
    let ended = run_by(&rt, alloc, TUNNELS, plant, 10)?;
    assert_status(&rt, &ended, 0);
    assert_report(&rt, alloc, &ended, &NOTHING)?;
    // each is answered by a PADO; the PADSs, and the PADTs at the stop, are those of the two sessions
    assert_count(&rt, frames_of(&ended, 0x07), 10_000);
    are_of(&rt, &ended, 0x65, TWO_SESSIONS);
    are_of(&rt, &ended, 0xa7, TWO_SESSIONS);
    tells(&rt, alloc, &ended, TOLD)
}
