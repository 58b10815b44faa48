ghost use Rattle.std.specs.Prelude.{◌≤◌};

use crate::asserts::{assert_count, assert_holds, assert_octets, assert_same, assert_same_of};
use arrayvec::ArrayVec;
use bng_base::{Frame, Mac, SessionNo, Written};
use bng_discovery::{Answer, ErrorTag, PortRules, answer, confirm, offer, refuse, terminate};
use bng_pppoe_wire::Pppoe;
use bng_pppoe_wire::code::{PADI, PADO, PADR, PADT};
use std::process::Abort;

const HOST: Mac = Mac([2, 0, 0, 0, 0, 1]);

const PORT: Mac = Mac([2, 0, 0, 0, 0, 0xfe]);

// for any service, with a Host-Uniq
const ANY: &[u8] = &[1, 1, 0, 0, 1, 3, 0, 4, 0xa1, 0xb2, 0xc3, 0xd4];

// the same with a PPP-Max-Payload (RFC 4638) in front
const LARGE: &[u8] = &[
    1, 0x20, 0, 2, 5, 0xdc, 1, 3, 0, 4, 0xa1, 0xb2, 0xc3, 0xd4, 1, 1, 0, 0,
];

const INET: &[u8] = &[1, 1, 0, 4, 0x69, 0x6e, 0x65, 0x74];

const VIDEO: &[u8] = &[1, 1, 0, 5, 0x76, 0x69, 0x64, 0x65, 0x6f];

// Any service, and the cookie of host 020000000001 on port 1: HMAC-MD5 of 01 020000000001 under the key 00 to 0f, as
// Python's hmac computes it. A Host-Uniq stands after it.
const ANY_AGAIN: [u8; 32] = [
    1, 1, 0, 0, 1, 4, 0, 16, 0x15, 0x38, 0xfd, 0x1a, 0x2b, 9, 0x5a, 0x46, 0x52, 0x80, 0xfe, 0xa6,
    0x52, 0x44, 0xa0, 0x75, 1, 3, 0, 4, 0xa1, 0xb2, 0xc3, 0xd4,
];

// the service video, the same Host-Uniq, a Relay-Session-Id, and the same cookie
const VIDEO_AGAIN: &[u8] = &[
    1, 1, 0, 5, 0x76, 0x69, 0x64, 0x65, 0x6f, 1, 0x10, 0, 2, 7, 8, 1, 3, 0, 4, 0xa1, 0xb2, 0xc3,
    0xd4, 1, 4, 0, 16, 0x15, 0x38, 0xfd, 0x1a, 0x2b, 9, 0x5a, 0x46, 0x52, 0x80, 0xfe, 0xa6, 0x52,
    0x44, 0xa0, 0x75,
];

// the PADO for ANY and for LARGE, up to its cookie
const OFFER: &[u8] = &[
    2, 0, 0, 0, 0, 1, 2, 0, 0, 0, 0, 0xfe, 0x88, 0x63, 0x11, 7, 0, 0, 0, 0x30, 1, 2, 0, 4, 0x62,
    0x6e, 0x67, 0x31, 1, 1, 0, 0, 1, 1, 0, 4, 0x69, 0x6e, 0x65, 0x74, 1, 3, 0, 4, 0xa1, 0xb2, 0xc3,
    0xd4, 1, 4, 0, 16,
];

fn text(octets: &[u8]) -> ArrayVec<u8, 64> {
    let mut text = ArrayVec::new();
    for octet in octets {
        if !text.is_full() {
            text.push(*octet);
        }
    }
    text
}

const KEY: [u8; 16] = [0, 1, 2, 3, 4, 5, 6, 7, 8, 9, 10, 11, 12, 13, 14, 15];

// a port of the gateway bng1, which offers inet
fn port(number: u8) -> PortRules {
    let mut services = ArrayVec::new();
    services.push(text(b"inet"));
    PortRules {
        port: number,
        mac: PORT,
        key: KEY,
        name: text(b"bng1"),
        services,
    }
}

// a discovery frame of the host with these tags
fn sent(rt: &impl Abort, code: u8, tags: &[u8]) -> Frame {
    let frame = Pppoe {
        dst: PORT,
        src: HOST,
        discovery: true,
        code,
        session: 0,
        payload: tags,
    };
    let mut octets = Frame::new();
    assert_same(rt, &frame.write(&mut octets), &Written::Done);
    octets
}

fn answered(
    rt: &impl Abort,
    port: &PortRules,
    code: u8,
    tags: &[u8],
    known: bool,
    room: bool,
) -> Answer {
    let octets = sent(rt, code, tags);
    let frame = Pppoe::read(octets.payload()).expect(rt, "a frame");
    assert_holds(rt, frame.discovery);
    answer(&frame, port, known, room)
}

const UNSERVED: Answer = Answer::Refuse(ErrorTag::ServiceNameError);

const FULL: Answer = Answer::Refuse(ErrorTag::AcSystemError);

// A code and tags, whether the session is known, whether there is room, and the answer.
type Case = (u8, &'static [u8], bool, bool, Answer);

const CASES: &[Case] = &[
    (PADI, ANY, false, true, Answer::Offer),
    (PADI, LARGE, false, false, Answer::Offer),
    (PADI, INET, true, true, Answer::Offer),
    (PADI, VIDEO, false, true, Answer::Ignore),
    (PADR, ANY, false, true, Answer::Ignore),
    (PADR, VIDEO, false, false, Answer::Ignore),
    (PADR, &ANY_AGAIN, false, true, Answer::Make),
    (PADR, &ANY_AGAIN, true, true, Answer::Again),
    (PADR, &ANY_AGAIN, true, false, Answer::Again),
    (PADR, &ANY_AGAIN, false, false, FULL),
    (PADR, VIDEO_AGAIN, false, true, UNSERVED),
    (PADR, VIDEO_AGAIN, false, false, UNSERVED),
    (PADR, VIDEO_AGAIN, true, true, Answer::Again),
    (PADT, &[], true, true, Answer::Ended),
    (PADT, &[], false, true, Answer::NoSession),
    (PADO, ANY, true, true, Answer::Ignore),
    (0xd3, &ANY_AGAIN, true, true, Answer::Ignore),
];

// Asserts the answer of a case at this port.
fn assert_case(rt: &impl Abort, port: &PortRules, case: &Case) {
    let (code, tags, known, room, wanted) = case;
    let found = answered(rt, port, *code, tags, *known, *room);
    assert_same_of(rt, *code, tags, &found, wanted);
}

#[test]
fn answers_are_those_of_the_first_row_that_holds(rt: HostRuntime) {
    let port = port(1);
    for case in CASES {
        assert_case(&rt, &port, case);
    }
}

// Asserts that a PADR with ANY_AGAIN's tags is ignored, after the lowest bit of the octet at this place has changed.
fn ignore_changed(rt: &impl Abort, port: &PortRules, place: usize) {
    let mut changed = ANY_AGAIN;
    if place < 32 {
        changed[place] ^= 1;
    }
    let found = answered(rt, port, PADR, &changed, true, true);
    assert_same(rt, &found, &Answer::Ignore);
}

// The first octet of the cookie in ANY_AGAIN, one in its middle, and its last.
const PLACES: &[usize] = &[8, 15, 23];

#[test]
fn a_cookie_is_of_one_port_and_each_bit_of_it_counts(rt: HostRuntime) {
    let other = port(2);
    assert_same(
        &rt,
        &answered(&rt, &other, PADR, &ANY_AGAIN, false, true),
        &Answer::Ignore,
    );
    let port = port(1);
    for place in PLACES {
        ignore_changed(&rt, &port, *place);
    }
}

// the PADO for a PADI with these tags
fn offered(rt: &impl Abort, port: &PortRules, tags: &[u8]) -> Frame {
    let octets = sent(rt, PADI, tags);
    let frame = Pppoe::read(octets.payload()).expect(rt, "a frame");
    assert_holds(rt, frame.discovery);
    let mut pado = Frame::new();
    assert_same(rt, &offer(&frame, port, &mut pado), &Written::Done);
    pado
}

// Asserts that the PADO for a PADI with these tags is OFFER and the cookie.
fn assert_offered(rt: &impl Abort, port: &PortRules, tags: &[u8]) {
    let pado = offered(rt, port, tags);
    assert_count(rt, pado.payload().len(), 68);
    assert_holds(rt, pado.payload().starts_with(OFFER));
    assert_holds(rt, pado.payload().ends_with(&ANY_AGAIN[8..24]));
}

#[test]
fn a_pado_names_the_gateway_the_services_and_the_cookie(rt: HostRuntime) {
    let port = port(1);
    assert_offered(&rt, &port, ANY);
    assert_offered(&rt, &port, LARGE);
}

// The answer to a PADI with these tags, cut to so many octets: any service, and a Relay-Session-Id of zeros, of whose length this is
// the lower octet and 0x0f the upper one; what it does not fill is 0 too.
fn answered_relayed(rt: &impl Abort, port: &PortRules, low: u8, length: usize) -> Answer
    requires { length ≤ 4041 }
{
    let mut tags = [0; 4041];
    tags[..8].copy_from_slice(&[1, 1, 0, 0, 1, 0x10, 0x0f, low]);
    answered(rt, port, PADI, &tags[..length], false, true)
}

#[test]
fn a_pado_has_at_most_4096_octets(rt: HostRuntime) {
    // a Relay-Session-Id with which the PADO has 4,096 octets, and one octet more
    let port = port(1);
    let largest = answered_relayed(&rt, &port, 0xc0, 4040);
    assert_same(&rt, &largest, &Answer::Offer);
    let larger = answered_relayed(&rt, &port, 0xc1, 4041);
    assert_same(&rt, &larger, &Answer::Ignore);
}

// Writes the PADS that gives this number for a PADR with these tags.
fn confirm_as(
    rt: &impl Abort,
    port: &PortRules,
    tags: &[u8],
    session: SessionNo,
    pads: &mut Frame,
) {
    let octets = sent(rt, PADR, tags);
    let frame = Pppoe::read(octets.payload()).expect(rt, "a frame");
    assert_holds(rt, frame.discovery);
    assert_same(rt, &confirm(&frame, port, session, pads), &Written::Done);
}

// Writes the PADS that refuses a PADR with these tags for this error.
fn refuse_for(rt: &impl Abort, port: &PortRules, tags: &[u8], error: ErrorTag, pads: &mut Frame) {
    let octets = sent(rt, PADR, tags);
    let frame = Pppoe::read(octets.payload()).expect(rt, "a frame");
    assert_holds(rt, frame.discovery);
    assert_same(rt, &refuse(&frame, port, error, pads), &Written::Done);
}

// the PADS with a number for ANY_AGAIN
const CONFIRMED: &[u8] = &[
    2, 0, 0, 0, 0, 1, 2, 0, 0, 0, 0, 0xfe, 0x88, 0x63, 0x11, 0x65, 4, 1, 0, 12, 1, 1, 0, 0, 1, 3,
    0, 4, 0xa1, 0xb2, 0xc3, 0xd4,
];

// the one that refuses it, as there is no room
const REFUSED_FULL: &[u8] = &[
    2, 0, 0, 0, 0, 1, 2, 0, 0, 0, 0, 0xfe, 0x88, 0x63, 0x11, 0x65, 0, 0, 0, 16, 1, 1, 0, 0, 2, 2,
    0, 0, 1, 3, 0, 4, 0xa1, 0xb2, 0xc3, 0xd4,
];

#[test]
fn a_pads_repeats_what_the_padr_asked_for(rt: HostRuntime) {
    let port = port(1);
    let mut pads = Frame::new();
    confirm_as(&rt, &port, &ANY_AGAIN, SessionNo(0x0401), &mut pads);
    assert_octets(&rt, pads.payload(), CONFIRMED);
    refuse_for(&rt, &port, &ANY_AGAIN, ErrorTag::AcSystemError, &mut pads);
    assert_octets(&rt, pads.payload(), REFUSED_FULL);
}

// the PADS that refuses VIDEO_AGAIN, as the service is not offered
const REFUSED_UNSERVED: &[u8] = &[
    2, 0, 0, 0, 0, 1, 2, 0, 0, 0, 0, 0xfe, 0x88, 0x63, 0x11, 0x65, 0, 0, 0, 27, 1, 1, 0, 5, 0x76,
    0x69, 0x64, 0x65, 0x6f, 2, 1, 0, 0, 1, 3, 0, 4, 0xa1, 0xb2, 0xc3, 0xd4, 1, 0x10, 0, 2, 7, 8,
];

#[test]
fn a_refusal_has_its_error_and_no_number(rt: HostRuntime) {
    let port = port(1);
    let mut pads = Frame::new();
    refuse_for(
        &rt,
        &port,
        VIDEO_AGAIN,
        ErrorTag::ServiceNameError,
        &mut pads,
    );
    assert_octets(&rt, pads.payload(), REFUSED_UNSERVED);
}

// the PADT of session 0x0401
const ENDED: &[u8] = &[
    2, 0, 0, 0, 0, 1, 2, 0, 0, 0, 0, 0xfe, 0x88, 0x63, 0x11, 0xa7, 4, 1, 0, 0,
];

#[test]
fn a_padt_has_no_tags(rt: HostRuntime) {
    let mut padt = Frame::new();
    terminate(HOST, &port(1), SessionNo(0x0401), &mut padt);
    assert_octets(&rt, padt.payload(), ENDED);
}
