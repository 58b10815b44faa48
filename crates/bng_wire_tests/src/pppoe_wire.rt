use crate::asserts::{assert_count, assert_holds, assert_octets, assert_same};
use arrayvec::ArrayVec;
use bng_base::{Frame, Mac};
use bng_pppoe_wire::code::{PADI, PADO, PADR, PADS, PADT, SESSION_DATA};
use bng_pppoe_wire::kind::{HOST_UNIQ, SERVICE_NAME};
use bng_pppoe_wire::{Pppoe, ReadError, Tag, Written, tags, write_tags};
use std::process::Abort;

const HOST: Mac = Mac([2, 0, 0, 0, 0, 1]);

const PORT: Mac = Mac([2, 0, 0, 0, 0, 0xfe]);

const BROADCAST: Mac = Mac([0xff; 6]);

// a PADI for any service, with a Host-Uniq
const INITIATION: [u8; 32] = [
    0xff, 0xff, 0xff, 0xff, 0xff, 0xff, 2, 0, 0, 0, 0, 1, 0x88, 0x63, 0x11, 9, 0, 0, 0, 12, 1, 1,
    0, 0, 1, 3, 0, 4, 0xa1, 0xb2, 0xc3, 0xd4,
];

// an IPv4 packet of 20 octets in session 0401, in an Ethernet frame padded to 60 octets
const DATA: [u8; 60] = [
    2, 0, 0, 0, 0, 0xfe, 2, 0, 0, 0, 0, 1, 0x88, 0x64, 0x11, 0, 4, 1, 0, 0x16, 0, 0x21, 0x45, 0, 0,
    0x14, 0, 2, 0, 0, 2, 0x11, 0xec, 0xd4, 10, 0, 0, 2, 192, 0, 2, 1, 0, 0, 0, 0, 0, 0, 0, 0, 0, 0,
    0, 0, 0, 0, 0, 0, 0, 0,
];

// the types and values of the tags of INITIATION
const INITIATION_TAGS: &[(u16, &[u8])] = &[
    (SERVICE_NAME, &[]),
    (HOST_UNIQ, &[0xa1, 0xb2, 0xc3, 0xd4]),
];

// The tags of a discovery frame. None where it is none.
fn tags_in(octets: &[u8]) -> Option<ArrayVec<Tag<'_>, 64>> {
    match Pppoe::read(octets) {
        Ok(frame) if frame.discovery => Some(tags(&frame)),
        _ => None,
    }
}

// asserts the type and the value of a tag
fn assert_tag(rt: &impl Abort, tag: &Tag<'_>, kind: u16, value: &[u8]) {
    assert_same(rt, &tag.kind, &kind);
    assert_octets(rt, tag.value, value);
}

// asserts which tags a discovery frame has
fn assert_tags(rt: &impl Abort, octets: &[u8], wanted: &[(u16, &[u8])]) {
    let found = tags_in(octets).expect(rt, "a discovery frame");
    assert_count(rt, found.len(), wanted.len());
    for (tag, (kind, value)) in found.as_slice().iter().zip(wanted) {
        assert_tag(rt, tag, *kind, value);
    }
}

// asserts what is read of INITIATION beside its tags
fn assert_initiation(rt: &impl Abort) {
    let frame = Pppoe::read(&INITIATION).expect(rt, "a frame");
    assert_holds(rt, frame.discovery);
    assert_same(rt, &(frame.dst, frame.src), &(BROADCAST, HOST));
    assert_same(
        rt,
        &(frame.code, frame.session, frame.payload.len()),
        &(PADI, 0, 12),
    );
}

#[test]
fn reads_a_padi_and_its_tags(rt: HostRuntime) {
    assert_initiation(&rt);
    assert_tags(&rt, &INITIATION, INITIATION_TAGS);
}

#[test]
fn octets_past_the_length_are_padding(rt: HostRuntime) {
    let frame = Pppoe::read(&DATA).expect(&rt, "a frame");
    assert_holds(&rt, !frame.discovery);
    assert_same(&rt, &(frame.dst, frame.src), &(PORT, HOST));
    assert_same(&rt, &(frame.code, frame.session), &(SESSION_DATA, 0x0401));
    assert_octets(&rt, frame.payload, &DATA[20..42]);
}

// the octet at a place changed: EtherType 8865, version 2, a code in the session stage, LENGTH 1 and 41
const WRONG: &[(usize, u8)] = &[(13, 0x65), (14, 0x21), (15, PADT), (19, 1), (19, 41)];

// DATA with this octet at a place
fn changed(place: usize, octet: u8) -> [u8; 60] {
    let mut octets = DATA;
    if place < 60 {
        octets[place] = octet;
    }
    octets
}

fn is_no_frame(octets: &[u8]) -> bool {
    matches!(Pppoe::read(octets), Err(ReadError::Outside))
}

#[test]
fn refuses_each_field_that_is_wrong(rt: HostRuntime) {
    for (place, octet) in WRONG {
        assert_holds(&rt, is_no_frame(&changed(*place, *octet)));
    }
    assert_holds(&rt, is_no_frame(&DATA[..13]));
    assert_holds(&rt, is_no_frame(&DATA[..41]));
}

// writes a discovery frame with this CODE, SESSION_ID and payload
fn write_discovery(code: u8, session: u16, payload: &[u8], octets: &mut Frame) -> Written {
    let frame = Pppoe {
        dst: PORT,
        src: HOST,
        discovery: true,
        code,
        session,
        payload,
    };
    frame.write(octets)
}

// whether the octets are read, None where they have too many tags
fn is_read(octets: &[u8]) -> Option<bool> {
    match Pppoe::read(octets) {
        Ok(_) => Some(true),
        Err(ReadError::Outside) => Some(false),
        Err(ReadError::TooMany) => None,
    }
}

// what is read of a discovery frame, None where it has too many tags
fn taken(rt: &impl Abort, code: u8, session: u16, payload: &[u8]) -> Option<bool> {
    let mut octets = Frame::new();
    let written = write_discovery(code, session, payload, &mut octets);
    assert_same(rt, &written, &Written::Done);
    is_read(octets.payload())
}

// asserts what is read of a discovery frame
fn assert_taken(rt: &impl Abort, code: u8, session: u16, payload: &[u8], wanted: Option<bool>) {
    assert_same(rt, &taken(rt, code, session, payload), &wanted);
}

// the CODE, the SESSION_ID and the payload of discovery frames, each with whether it is read
const DISCOVERY: &[(u8, u16, &[u8], bool)] = &[
    (PADI, 0, &[], false),
    (PADR, 0, &[1, 1, 0, 0, 1, 1, 0, 0], false),
    (PADR, 0, &[1, 1, 0, 0, 0, 0, 0, 0, 1, 1, 0, 0], true),
    (PADI, 0, &[1, 1, 0, 0, 0, 0, 0, 0, 9], true),
    (PADI, 0, &[0, 0, 0, 0, 1, 1, 0, 0], false),
    (PADI, 0, &[1, 1, 0, 0, 0, 0, 0, 1, 9], false),
    (PADI, 0, &[1, 1, 0, 2, 9], false),
    (PADI, 0, &[1, 1, 0, 0, 1, 1, 0], false),
    (PADI, 1, &[1, 1, 0, 0], false),
    (PADO, 1, &[1, 1, 0, 0], false),
    (PADS, 1, &[1, 1, 0, 0, 1, 1, 0, 0], true),
    (PADT, 1, &[], true),
    (PADT, 1, &[1], false),
];

#[test]
fn a_request_asks_for_one_service(rt: HostRuntime) {
    for (code, session, payload, wanted) in DISCOVERY {
        assert_taken(&rt, *code, *session, payload, Some(*wanted));
    }
}

// Service-Name, a Host-Uniq of 64 octets, and one of 65
fn two_host_uniqs() -> [u8; 141] {
    let mut payload = [0; 141];
    payload[..8].copy_from_slice(&[1, 1, 0, 0, 1, 3, 0, 64]);
    payload[72..76].copy_from_slice(&[1, 3, 0, 65]);
    payload
}

// Service-Name, and a Host-Uniq of 65 octets
fn long_host_uniq() -> [u8; 73] {
    let mut longer = [0; 73];
    longer[..8].copy_from_slice(&[1, 1, 0, 0, 1, 3, 0, 65]);
    longer
}

#[test]
fn the_first_host_uniq_has_at_most_64_octets(rt: HostRuntime) {
    let payload = two_host_uniqs();
    let first = payload.get(..72).expect(&rt, "the first Host-Uniq");
    assert_taken(&rt, PADI, 0, first, Some(true));
    assert_taken(&rt, PADI, 0, &payload, Some(true));
    let second = payload.get(72..).expect(&rt, "the second one");
    assert_taken(&rt, PADT, 0, second, Some(true));
    assert_taken(&rt, PADI, 0, &long_host_uniq(), Some(false));
}

// a Service-Name and then empty tags of another type
fn fill_with_tags(payload: &mut [u8]) {
    for place in 0..payload.len() {
        payload[place] = match place % 4 {
            0 if place == 0 => 1,
            0 => 2,
            1 => 1,
            _ => 0,
        };
    }
}

// a Service-Name and 64 tags of another type
fn many_tags() -> [u8; 260] {
    let mut payload = [0; 260];
    fill_with_tags(&mut payload);
    payload
}

#[test]
fn keeps_64_tags_and_no_more(rt: HostRuntime) {
    let mut payload = many_tags();
    let first = payload.get(..256).expect(&rt, "64 tags");
    assert_taken(&rt, PADI, 0, first, Some(true));
    assert_taken(&rt, PADI, 0, &payload, None);
    // two Service-Names of which the second is past the 64th tag
    payload[256] = 1;
    assert_taken(&rt, PADI, 0, &payload, Some(false));
}

// writes the tags of INITIATION
fn write_asked(list: &mut Frame) -> Written {
    let asked = [
        Tag {
            kind: SERVICE_NAME,
            value: &[],
        },
        Tag {
            kind: HOST_UNIQ,
            value: &[0xa1, 0xb2, 0xc3, 0xd4],
        },
    ];
    write_tags(&asked, list)
}

// writes a PADI with these tags
fn write_padi(payload: &[u8], octets: &mut Frame) -> Written {
    let frame = Pppoe {
        dst: BROADCAST,
        src: HOST,
        discovery: true,
        code: PADI,
        session: 0,
        payload,
    };
    frame.write(octets)
}

// DATA is written without its padding.
fn write_data(rt: &impl Abort, octets: &mut Frame) {
    let data = Pppoe::read(&DATA).expect(rt, "a frame");
    assert_same(rt, &data.write(octets), &Written::Done);
    assert_octets(rt, octets.payload(), &DATA[..42]);
}

#[test]
fn writes_a_frame_as_the_wire_has_it(rt: HostRuntime) {
    let mut list = Frame::new();
    assert_same(&rt, &write_asked(&mut list), &Written::Done);
    let mut octets = Frame::new();
    let written = write_padi(list.payload(), &mut octets);
    assert_same(&rt, &written, &Written::Done);
    assert_octets(&rt, octets.payload(), &INITIATION);
    write_data(&rt, &mut octets);
}

// writes a frame of session 0401 with this payload
fn write_session(payload: &[u8], octets: &mut Frame) -> Written {
    let frame = Pppoe {
        dst: PORT,
        src: HOST,
        discovery: false,
        code: SESSION_DATA,
        session: 0x0401,
        payload,
    };
    frame.write(octets)
}

#[test]
fn full_is_one_octet_more_than_fits(rt: HostRuntime) {
    let octets = [0; 4077];
    let mut frame = Frame::new();
    let written = write_session(&octets[..4076], &mut frame);
    assert_same(&rt, &written, &Written::Done);
    assert_same(&rt, &write_session(&octets, &mut frame), &Written::Full);
    assert_count(&rt, frame.payload().len(), 4096);
}
