//! Datagrams of the access ports and of the core.
use super::{
    DOWN, DOWN_SENT, EXPIRED, MALFORMED, NO_SESSION, OPEN, SUBSCRIBER, UP, UP_SENT, frame_of,
    passed_down,
};
use crate::asserts::{assert_octets, assert_same};
use bng_base::{AccessPort, Fate, Frame, Ip4, Mac, Peer, SessionNo};
use bng_forward::{
    Arrived, TermView, carried, down, frame_at, names_session, packet_from, put_in_frame,
    take_from_frame, up,
};
use bng_pppoe_wire::Pppoe;
use std::process::Abort;

// UP in a frame of session 1025 that is padded to 60 octets
const FRAME: [u8; 60] = [
    2, 0, 0, 0, 0, 0xfe, 2, 0, 0, 0, 0, 1, 0x88, 0x64, 0x11, 0, 4, 1, 0, 0x16, 0, 0x21, 0x45, 0, 0,
    0x14, 0, 2, 0, 0, 2, 0x11, 0xec, 0xd4, 10, 0, 0, 2, 192, 0, 2, 1, 0, 0, 0, 0, 0, 0, 0, 0, 0, 0,
    0, 0, 0, 0, 0, 0, 0, 0,
];

// DOWN_SENT in a frame of session 1025
const FRAME_SENT: [u8; 42] = [
    2, 0, 0, 0, 0, 1, 2, 0, 0, 0, 0, 0xfe, 0x88, 0x64, 0x11, 0, 4, 1, 0, 0x16, 0, 0x21, 0x45, 0, 0,
    0x14, 0, 2, 0, 0, 1, 0x11, 0xed, 0xd4, 192, 0, 2, 1, 10, 0, 0, 2,
];

// a PADT of session 1025
const PADT: [u8; 20] = [
    2, 0, 0, 0, 0, 0xfe, 2, 0, 0, 0, 0, 1, 0x88, 0x63, 0x11, 0xa7, 4, 1, 0, 0,
];

// a PADI to all with an empty Service-Name
const PADI: [u8; 24] = [
    0xff, 0xff, 0xff, 0xff, 0xff, 0xff, 2, 0, 0, 0, 0, 1, 0x88, 0x63, 0x11, 9, 0, 0, 0, 4, 1, 1, 0,
    0,
];

fn port_end(port: u16) -> Peer {
    Peer {
        ip: Ip4(0x7f00_0001),
        port,
    }
}

const MAC: Mac = Mac([2, 0, 0, 0, 0, 1]);

fn access_port() -> AccessPort {
    AccessPort {
        local: port_end(9010),
        peer: port_end(9011),
        mac: Mac([2, 0, 0, 0, 0, 0xfe]),
    }
}

// What is known of the session of a frame, where one circuit has a session: MAC's, of number 1025.
fn found_of(came: &Pppoe<'_>) -> Option<Option<TermView>> {
    if came.src == MAC && came.session == 1025 {
        Some(Some(OPEN))
    } else {
        None
    }
}

// The fate of a frame that has no packet.
fn fate_without_packet(came: &Pppoe<'_>) -> Fate {
    if found_of(came).is_none() && names_session(came) {
        NO_SESSION
    } else {
        Fate::Consumed
    }
}

// The fate of a datagram of the access port, where one circuit has a session: MAC's, of number 1025.
fn goes_to_core(cut: bool, frame: &mut Frame) -> Fate {
    let octets = frame.payload();
    let from = port_end(9011);
    let ports = [access_port()];
    let Some(came) = frame_at(&ports, 1, &Arrived { from, cut, octets }) else {
        return MALFORMED;
    };
    let Some(info) = carried(&came) else {
        return fate_without_packet(&came);
    };
    let mut found = found_of(&came);
    let size = info.len();
    take_from_frame(frame, size);
    up(&mut found, 0, frame)
}

// An octet of the frame changed: nothing, MAC of the port, MAC of the subscriber, EtherType, SESSION_ID, LENGTH,
// protocol, TTL.
const CHANGED: &[(usize, u8, Fate)] = &[
    (0, 2, Fate::Forwarded),
    (5, 0xff, MALFORMED),
    (11, 2, NO_SESSION),
    (13, 0x65, MALFORMED),
    (17, 2, NO_SESSION),
    (19, 0x29, MALFORMED),
    (19, 0x15, MALFORMED),
    (21, 0x57, Fate::Consumed),
    (30, 3, MALFORMED),
];

// The fate of the frame with one octet changed.
fn fate_with(place: usize, octet: u8) -> Fate {
    let mut bytes = FRAME;
    if place < 60 {
        bytes[place] = octet;
    }
    goes_to_core(false, &mut frame_of(&bytes))
}

// A datagram of the access port has this fate.
fn has_fate(rt: &impl Abort, cut: bool, frame: &mut Frame, fate: Fate) {
    assert_same(rt, &goes_to_core(cut, frame), &fate);
}

// a PADT of session 1026
const UNKNOWN: [u8; 20] = [
    2, 0, 0, 0, 0, 0xfe, 2, 0, 0, 0, 0, 1, 0x88, 0x63, 0x11, 0xa7, 4, 2, 0, 0,
];

fn come_to_discovery(rt: &impl Abort, frame: &mut Frame) {
    frame.set(&PADI);
    has_fate(rt, false, frame, Fate::Consumed);
    has_fate(rt, true, frame, MALFORMED);
    frame.set(&PADT);
    has_fate(rt, false, frame, Fate::Consumed);
    frame.set(&UNKNOWN);
    has_fate(rt, false, frame, NO_SESSION);
}

fn come_with_one_octet_changed(rt: &impl Abort) {
    for (place, octet, fate) in CHANGED {
        assert_same(rt, &fate_with(*place, *octet), fate);
    }
}

#[test]
fn each_datagram_of_an_access_port_has_its_fate(rt: HostRuntime) {
    come_with_one_octet_changed(&rt);
    let mut frame = frame_of(&FRAME);
    has_fate(&rt, true, &mut frame, MALFORMED);
    come_to_discovery(&rt, &mut frame);
}

#[test]
fn a_padded_frame_is_opened_to_its_packet(rt: HostRuntime) {
    let mut frame = frame_of(&FRAME);
    has_fate(&rt, false, &mut frame, Fate::Forwarded);
    assert_octets(&rt, frame.payload(), &UP_SENT);
}

// The fate of a datagram of the core, where one address has a holder.
fn goes_to_circuit(from: Peer, cut: bool, frame: &mut Frame) -> Fate {
    let octets = frame.payload();
    let Some(header) = packet_from(port_end(9001), &Arrived { from, cut, octets }) else {
        return MALFORMED;
    };
    let mut holder = if header.dst == SUBSCRIBER {
        Some(OPEN)
    } else {
        None
    };
    down(&mut holder, 0, header, frame)
}

// DOWN with another destination, so that its checksum is wrong
const DAMAGED: [u8; 20] = [
    0x45, 0, 0, 0x14, 0, 2, 0, 0, 2, 0x11, 0xec, 0xd4, 192, 0, 2, 1, 10, 0, 0, 3,
];

// The port from which a datagram of the core came, whether it was cut, the datagram, and its fate.
const OF_CORE: &[(u16, bool, [u8; 20], Fate)] = &[
    (9001, false, DOWN, Fate::Forwarded),
    (9001, false, DOWN_SENT, EXPIRED),
    (9001, false, UP, NO_SESSION),
    (9001, false, DAMAGED, MALFORMED),
    (9001, true, DOWN, MALFORMED),
    (9002, false, DOWN, MALFORMED),
];

// A datagram of the core has this fate.
fn comes_from_core(rt: &impl Abort, port: u16, cut: bool, packet: &[u8; 20], fate: Fate) {
    let mut frame = frame_of(packet);
    assert_same(rt, &goes_to_circuit(port_end(port), cut, &mut frame), &fate);
}

#[test]
fn each_datagram_of_the_core_has_its_fate(rt: HostRuntime) {
    for (port, cut, packet, fate) in OF_CORE {
        comes_from_core(&rt, *port, *cut, packet, *fate);
    }
}

// An expired packet in the same frame is left as it is.
fn expire_in(rt: &impl Abort, frame: &mut Frame) {
    let core = port_end(9001);
    frame.set(&DOWN_SENT);
    assert_same(rt, &goes_to_circuit(core, false, frame), &EXPIRED);
    assert_octets(rt, frame.payload(), &DOWN_SENT);
}

#[test]
fn a_packet_of_the_core_becomes_a_frame_of_its_circuit(rt: HostRuntime) {
    let mut frame = frame_of(&DOWN);
    let fate = passed_down(&mut Some(OPEN), 0, &DOWN, &mut frame);
    assert_same(&rt, &fate, &Some(Fate::Forwarded));
    assert_octets(&rt, frame.payload(), &DOWN_SENT);
    put_in_frame(&access_port(), MAC, SessionNo(1025), &mut frame);
    assert_octets(&rt, frame.payload(), &FRAME_SENT);
    expire_in(&rt, &mut frame);
}
