use crate::asserts::{assert_count, assert_holds, assert_octets, assert_same, assert_same_for};
use arrayvec::ArrayVec;
use bng_base::Frame;
use bng_ppp_wire::code::{CODE_REJECT, CONFIGURE_REJECT, CONFIGURE_REQUEST};
use bng_ppp_wire::protocol::{IPCP, LCP};
use bng_ppp_wire::{
    Good, Judged, MadeOpt, Opt, Packet, Ppp, ReadError, ConfigureReply, OptionRow, Width, Written, judge, made,
    options, read_reply, write_options,
};
use std::alloc::{AllocError, Global};
use std::process::Abort;
use std::test::Fail;

// a Configure-Request with MRU 1492, Magic-Number 11223344, Protocol- and Address-and-Control-Field-Compression
const REQUEST: [u8; 20] = [
    0xc0, 0x21, 1, 1, 0, 0x12, 1, 4, 5, 0xd4, 5, 6, 0x11, 0x22, 0x33, 0x44, 7, 2, 8, 2,
];

// asserts the type and the data of an option
fn assert_option(rt: &impl Abort, option: &Opt<'_>, kind: u8, value: &[u8]) {
    assert_same(rt, &option.kind, &kind);
    assert_octets(rt, option.value, value);
}

// asserts which options a packet has, as types and data
fn assert_options(rt: &impl Abort, packet: &Packet<'_>, wanted: &[(u8, &[u8])]) {
    let found = options(packet).expect(rt, "options");
    assert_count(rt, found.len(), wanted.len());
    for (option, (kind, value)) in found.as_slice().iter().zip(wanted) {
        assert_option(rt, option, *kind, value);
    }
}

// the options of a packet in a frame, as types and data
fn lists(rt: &impl Abort, frame: &[u8], wanted: &[(u8, &[u8])]) {
    let ppp = Ppp::read(frame).expect(rt, "a frame");
    let packet = Packet::read(ppp.info).expect(rt, "a packet");
    assert_options(rt, &packet, wanted);
}

// asserts of which protocol a frame is
fn assert_protocol(rt: &impl Abort, frame: &[u8], protocol: u16) {
    let ppp = Ppp::read(frame).expect(rt, "a frame");
    assert_same(rt, &ppp.protocol, &protocol);
}

// asserts the Code and the Identifier of REQUEST, and how many octets its body has
fn assert_request(rt: &impl Abort) {
    let ppp = Ppp::read(&REQUEST).expect(rt, "a frame");
    let packet = Packet::read(ppp.info).expect(rt, "a packet");
    assert_same(
        rt,
        &(packet.code, packet.id, packet.body.len()),
        &(CONFIGURE_REQUEST, 1, 14),
    );
}

// the options of REQUEST
const ASKED: &[(u8, &[u8])] = &[
    (1, &[5, 0xd4]),
    (5, &[0x11, 0x22, 0x33, 0x44]),
    (7, &[]),
    (8, &[]),
];

#[test]
fn reads_a_configure_request(rt: HostRuntime) {
    assert_protocol(&rt, &REQUEST, LCP);
    assert_request(&rt);
    lists(&rt, &REQUEST, ASKED);
}

// an IPCP request for 0.0.0.0 and a DNS server, in a frame padded by two octets
const PADDED: [u8; 14] = [0x80, 0x21, 1, 1, 0, 0x0a, 3, 6, 0, 0, 0, 0, 0x81, 6];

#[test]
fn octets_past_the_length_are_padding(rt: HostRuntime) {
    assert_protocol(&rt, &PADDED, IPCP);
    lists(&rt, &PADDED, &[(3, &[0, 0, 0, 0])]);
}

fn is_no_frame(octets: &[u8]) -> bool {
    matches!(Ppp::read(octets), Err(ReadError::Outside))
}

// octets that are no packet
const NO_PACKETS: &[&[u8]] = &[&[1, 1, 0], &[1, 1, 0, 3], &[1, 1, 0, 5], &[]];

fn is_no_packet(octets: &[u8]) -> bool {
    matches!(Packet::read(octets), Err(ReadError::Outside))
}

// octets that are no list: an option of length 1, one past the end, a lone octet
const NO_LISTS: &[&[u8]] = &[&[1, 4, 5, 0xd4, 7, 1], &[1, 5, 5, 0xd4], &[7, 2, 8]];

// how many options a Configure-Request of this body has, or why they are not read
fn count_of_options(body: &[u8]) -> Result<usize, ReadError> {
    let packet = Packet {
        code: CONFIGURE_REQUEST,
        id: 1,
        body,
    };
    match options(&packet) {
        Ok(found) => Ok(found.len()),
        Err(error) => Err(error),
    }
}

// asserts how many options a Configure-Request of this body has, or why they are not read
fn assert_count_of_options(rt: &impl Abort, body: &[u8], wanted: Result<usize, ReadError>) {
    assert_same(rt, &count_of_options(body), &wanted);
}

#[test]
fn refuses_what_is_no_frame_packet_or_list(rt: HostRuntime) {
    assert_holds(&rt, is_no_frame(&[0xc0]));
    for octets in NO_PACKETS {
        assert_holds(&rt, is_no_packet(octets));
    }
    for body in NO_LISTS {
        assert_count_of_options(&rt, body, Err(ReadError::Outside));
    }
}

#[test]
fn keeps_64_options_and_no_more(rt: HostRuntime) {
    let body = [2; 130];
    assert_count_of_options(&rt, &body[..128], Ok(64));
    assert_count_of_options(&rt, &body, Err(ReadError::TooMany));
    assert_count_of_options(&rt, &body[..129], Err(ReadError::Outside));
}

// writes a list of two options without data, of the types 7 and 8
fn write_rejected(list: &mut Frame) -> Written {
    let rejected = [
        Opt {
            kind: 7,
            value: &[],
        },
        Opt {
            kind: 8,
            value: &[],
        },
    ];
    write_options(&rejected, list)
}

// writes a packet of this Code and body, with the Identifier 1
fn write_packet(code: u8, body: &[u8], info: &mut Frame) -> Written {
    let packet = Packet { code, id: 1, body };
    packet.write(info)
}

// writes a frame of LCP
fn write_frame(info: &[u8], frame: &mut Frame) -> Written {
    let ppp = Ppp {
        protocol: LCP,
        info,
    };
    ppp.write(frame)
}

// writes a Configure-Reject with that list
fn write_reject(rt: &impl Abort, info: &mut Frame) {
    let mut list = Frame::new();
    assert_same(rt, &write_rejected(&mut list), &Written::Done);
    let written = write_packet(CONFIGURE_REJECT, list.payload(), info);
    assert_same(rt, &written, &Written::Done);
}

#[test]
fn writes_a_reject_as_the_wire_has_it(rt: HostRuntime) {
    let mut info = Frame::new();
    write_reject(&rt, &mut info);
    let mut frame = Frame::new();
    let written = write_frame(info.payload(), &mut frame);
    assert_same(&rt, &written, &Written::Done);
    let wanted = [0xc0, 0x21, 4, 1, 0, 8, 7, 2, 8, 2];
    assert_octets(&rt, frame.payload(), &wanted);
}

// A packet whose body has 4,093 octets does not fit, and one with 4,092 does.
fn fill_with_packet(rt: &impl Abort, octets: &[u8; 4096], frame: &mut Frame) {
    let written = write_packet(CODE_REJECT, &octets[..4092], frame);
    assert_same(rt, &written, &Written::Done);
    let written = write_packet(CODE_REJECT, &octets[..4093], frame);
    assert_same(rt, &written, &Written::Full);
    assert_count(rt, frame.payload().len(), 4096);
}

// A frame with 4,095 octets of a packet does not fit, and one with 4,094 does.
fn fill_with_frame(rt: &impl Abort, octets: &[u8; 4096], frame: &mut Frame) {
    assert_same(rt, &write_frame(&octets[..4094], frame), &Written::Done);
    assert_same(rt, &write_frame(&octets[..4095], frame), &Written::Full);
}

#[test]
fn full_is_one_octet_more_than_fits(rt: HostRuntime) {
    let octets = [0; 4096];
    let mut frame = Frame::new();
    fill_with_packet(&rt, &octets, &mut frame);
    fill_with_frame(&rt, &octets, &mut frame);
}

// A number of two octets from 100 to 200, for which 150 is suggested, and one of four octets that is neither 0 nor 7, for
// which 9 is suggested. The third is 5 alone, and must be named.
const TABLE: [OptionRow; 3] = [
    OptionRow {
        kind: 1,
        width: Width::Two,
        good: Good::Within(100, 200),
        suggestion: 150,
        must_be_named: false,
    },
    OptionRow {
        kind: 2,
        width: Width::Four,
        good: Good::Neither(0, 7),
        suggestion: 9,
        must_be_named: false,
    },
    OptionRow {
        kind: 3,
        width: Width::Two,
        good: Good::Only(5),
        suggestion: 5,
        must_be_named: true,
    },
];

// A list of options as text, each with its type and data.
fn append(alloc: Global, text: &mut String, kind: u8, value: &[u8]) -> Result<(), AllocError> {
    text.push_str(format!(in alloc; " {kind}{value:?}")?.as_str())
}

// This word, and these options after it.
fn listed(alloc: Global, word: &str, options: &[Opt<'_>]) -> Result<String, AllocError> {
    let mut text = String::from_str(alloc, word)?;
    for option in options {
        append(alloc, &mut text, option.kind, option.value)?;
    }
    Ok(text)
}

// `Nak`, and the options that were made for it.
fn listed_made(alloc: Global, options: &[MadeOpt]) -> Result<String, AllocError> {
    let mut text = String::from_str(alloc, "Nak")?;
    for option in options {
        append(alloc, &mut text, option.kind, option.value.as_slice())?;
    }
    Ok(text)
}

// What a request for these options is judged to be.
fn told(
    alloc: Global,
    asked: &ArrayVec<Opt<'_>, 64>,
    no_more_naks: bool,
) -> Result<String, AllocError> {
    match judge(&TABLE, no_more_naks, asked.as_slice()) {
        Judged::Ack => String::from_str(alloc, "Ack"),
        Judged::Nak(made) => listed_made(alloc, made.as_slice()),
        Judged::Reject(options) => listed(alloc, "Reject", options.as_slice()),
    }
}

fn answer(alloc: Global, body: &[u8], no_more_naks: bool) -> Result<String, AllocError> {
    let request = Packet {
        code: CONFIGURE_REQUEST,
        id: 1,
        body,
    };
    match options(&request) {
        Ok(asked) => told(alloc, &asked, no_more_naks),
        Err(_) => String::from_str(alloc, "malformed"),
    }
}

// The body of a Configure-Request, and the answer while Naks may go out and after the last one.
const JUDGED: &[(&[u8], &str, &str)] = &[
    (&[1, 4, 0, 100, 3, 4, 0, 5, 2, 6, 0, 0, 0, 1], "Ack", "Ack"),
    (&[3, 4, 0, 5, 1, 4, 0, 200], "Ack", "Ack"),
    (&[], "Nak 3[0, 5]", "Ack"),
    (&[1, 4, 0, 99], "Nak 1[0, 150] 3[0, 5]", "Reject 1[0, 99]"),
    (
        &[3, 4, 0, 6, 1, 4, 0, 201],
        "Nak 3[0, 5] 1[0, 150]",
        "Reject 3[0, 6] 1[0, 201]",
    ),
    (
        &[2, 6, 0, 0, 0, 7, 2, 6, 0, 0, 0, 0],
        "Nak 2[0, 0, 0, 9] 2[0, 0, 0, 9] 3[0, 5]",
        "Reject 2[0, 0, 0, 7] 2[0, 0, 0, 0]",
    ),
    (&[1, 3, 1, 1, 4, 0, 1], "Reject 1[1]", "Reject 1[1] 1[0, 1]"),
    (
        &[2, 4, 0, 1, 4, 2],
        "Reject 2[0, 1] 4[]",
        "Reject 2[0, 1] 4[]",
    ),
    (&[1, 4, 0], "malformed", "malformed"),
];

// Asserts the answer to a Configure-Request of this body.
fn assert_answer(
    rt: &impl Abort,
    alloc: Global,
    body: &[u8],
    no_more_naks: bool,
    wanted: &str,
) -> Result<(), Fail> {
    let text = answer(alloc, body, no_more_naks)?;
    assert_same_for(rt, &text.as_str(), &wanted, &body);
    Ok(())
}

#[test]
fn requests_are_judged_by_the_table(rt: HostRuntime) -> Result<(), Fail> {
    for (body, first, later) in JUDGED {
        assert_answer(&rt, rt.alloc(), body, false, first)?;
        assert_answer(&rt, rt.alloc(), body, true, later)?;
    }
    Ok(())
}

// The code, identifier and body of a packet, and what it is to a request of identifier 7 for the options 1, 2 and 3.
const REPLIES: &[(u8, u8, &[u8], &str)] = &[
    (2, 7, &[1, 4, 0, 150, 2, 2, 3, 3, 5], "Ack"),
    (2, 8, &[1, 4, 0, 150, 2, 2, 3, 3, 5], "Other"),
    (2, 7, &[1, 4, 0, 150, 2, 2], "Other"),
    (2, 7, &[2, 2, 1, 4, 0, 150, 3, 3, 5], "Other"),
    (3, 7, &[9, 3, 1, 1, 4, 0, 1], "Nak 9[1] 1[0, 1]"),
    (3, 7, &[1, 4, 0], "Other"),
    (4, 7, &[1, 4, 0, 150, 3, 3, 5], "Reject 1[0, 150] 3[5]"),
    (4, 7, &[3, 3, 5, 1, 4, 0, 150], "Other"),
    (4, 7, &[3, 3, 6], "Other"),
    (4, 7, &[9, 2], "Other"),
    (5, 7, &[], "Other"),
];

// The options of the request.
fn asked() -> [MadeOpt; 3] {
    [made(1, &[0, 150]), made(2, &[]), made(3, &[5])]
}

// What a packet is to the request.
fn read_as_reply(alloc: Global, packet: &Packet<'_>) -> Result<String, AllocError> {
    match read_reply(7, &asked(), packet) {
        ConfigureReply::Ack => String::from_str(alloc, "Ack"),
        ConfigureReply::Nak(options) => listed(alloc, "Nak", options.as_slice()),
        ConfigureReply::Reject(options) => listed(alloc, "Reject", options.as_slice()),
        ConfigureReply::Other => String::from_str(alloc, "Other"),
    }
}

// Asserts what a packet is to the request.
fn assert_reply(
    rt: &impl Abort,
    alloc: Global,
    packet: &Packet<'_>,
    want: &str,
) -> Result<(), Fail> {
    let text = read_as_reply(alloc, packet)?;
    assert_same_for(rt, &text.as_str(), &want, packet);
    Ok(())
}

#[test]
fn replies_are_those_to_the_request(rt: HostRuntime) -> Result<(), Fail> {
    for (code, id, body, want) in REPLIES {
        let packet = Packet {
            code: *code,
            id: *id,
            body,
        };
        assert_reply(&rt, rt.alloc(), &packet, want)?;
    }
    Ok(())
}
