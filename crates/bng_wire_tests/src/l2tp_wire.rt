ghost use Rattle.std.specs.Prelude.{◌≤◌, length};

use crate::asserts::{assert_count, assert_holds, assert_octets, assert_same};
use bng_base::Frame;
use bng_l2tp_wire::kind::{ASSIGNED_TUNNEL_ID, MESSAGE_TYPE, RESULT_CODE};
use bng_l2tp_wire::{Avp, Control, Data, ReadError, Written, is_control};
use std::process::Abort;

// a StopCCN to tunnel 5: Message Type, Assigned Tunnel ID 0, and Result Code 2 with error code 3
const STOP: [u8; 38] = [
    0xc8, 0x02, 0x00, 0x26, 0x00, 0x05, 0x00, 0x00, 0x00, 0x00, 0x00, 0x01, 0x80, 0x08, 0x00, 0x00,
    0x00, 0x00, 0x00, 0x04, 0x80, 0x08, 0x00, 0x00, 0x00, 0x09, 0x00, 0x00, 0x80, 0x0a, 0x00, 0x00,
    0x00, 0x01, 0x00, 0x02, 0x00, 0x03,
];

// the types and values of its AVPs
const STOP_AVPS: &[(u16, &[u8])] = &[
    (MESSAGE_TYPE, &[0, 4]),
    (ASSIGNED_TUNNEL_ID, &[0, 0]),
    (RESULT_CODE, &[0, 2, 0, 3]),
];

// Writes the control message that is read of the octets. None where there is none.
fn rewritten(octets: &[u8], frame: &mut Frame) -> Option<Written> {
    match Control::read(octets) {
        Ok(message) => Some(message.write(frame)),
        Err(_) => None,
    }
}

// asserts that what is read of the octets of a control message is written as these octets
fn assert_rewritten(rt: &impl Abort, octets: &[u8]) {
    let mut frame = Frame::new();
    assert_same(rt, &rewritten(octets, &mut frame), &Some(Written::Done));
    assert_octets(rt, frame.payload(), octets);
}

// asserts that an AVP is mandatory and plain, and has this type and value
fn assert_plain_avp(rt: &impl Abort, avp: &Avp<'_>, kind: u16, value: &[u8]) {
    assert_holds(
        rt,
        avp.mandatory && !avp.hidden && avp.reserved == 0 && avp.vendor == 0,
    );
    assert_same(rt, &avp.kind, &kind);
    assert_octets(rt, avp.value, value);
}

// asserts which AVPs a control message has
fn assert_avps(rt: &impl Abort, message: &Control<'_>, wanted: &[(u16, &[u8])]) {
    assert_count(rt, message.avps.len(), wanted.len());
    for (avp, (kind, value)) in message.avps.as_slice().iter().zip(wanted) {
        assert_plain_avp(rt, avp, *kind, value);
    }
}

#[test]
fn reads_and_writes_a_stop_ccn(rt: HostRuntime) {
    assert_holds(&rt, is_control(&STOP));
    let stop = Control::read(&STOP).expect(&rt, "a control message");
    assert_same(
        &rt,
        &(stop.tunnel, stop.session, stop.ns, stop.nr),
        &(5, 0, 0, 1),
    );
    assert_avps(&rt, &stop, STOP_AVPS);
    assert_rewritten(&rt, &STOP);
}

// a message to tunnel 5 without AVPs
const ZLB: [u8; 12] = [0xc8, 2, 0, 12, 0, 5, 0, 0, 0xff, 0xff, 0, 7];

#[test]
fn a_message_without_avps_only_acknowledges(rt: HostRuntime) {
    let read = Control::read(&ZLB).expect(&rt, "a control message");
    assert_same(&rt, &(read.tunnel, read.ns, read.nr), &(5, 65_535, 7));
    assert_holds(&rt, read.avps.is_empty());
    assert_rewritten(&rt, &ZLB);
}

// hidden, the lowest reserved bit, vendor 9, type 7; an octet stands after it
const HIDDEN: [u8; 9] = [0x44, 8, 0, 9, 0, 7, 0xab, 0xcd, 0xee];

// asserts what is read of HIDDEN
fn assert_hidden(rt: &impl Abort) {
    let avp = Avp::read(&HIDDEN).expect(rt, "an AVP");
    assert_holds(rt, !avp.mandatory && avp.hidden && avp.reserved == 1);
    assert_same(rt, &(avp.vendor, avp.kind), &(9, 7));
    assert_octets(rt, avp.value, &[0xab, 0xcd]);
}

// Writes the AVP that is read of the octets. None where there is none.
fn avp_rewritten(octets: &[u8], frame: &mut Frame) -> Option<Written> {
    match Avp::read(octets) {
        Ok(avp) => Some(avp.write(frame)),
        Err(_) => None,
    }
}

fn is_no_avp(octets: &[u8]) -> bool {
    matches!(Avp::read(octets), Err(ReadError::Outside))
}

#[test]
fn reads_and_writes_one_avp(rt: HostRuntime) {
    assert_hidden(&rt);
    let mut frame = Frame::new();
    let written = avp_rewritten(&HIDDEN, &mut frame);
    assert_same(&rt, &written, &Some(Written::Done));
    assert_octets(&rt, frame.payload(), &HIDDEN[..8]);
    assert_holds(&rt, is_no_avp(&[0x80, 5, 0, 0, 0, 0]));
    assert_holds(&rt, is_no_avp(&[0x80, 7, 0, 0, 0, 0]));
}

// octets that are no control message
const NO_CONTROL: &[&[u8]] = &[
    // T, L or S not set, O or P set, version 3
    &[0x48, 2, 0, 12, 0, 5, 0, 0, 0, 0, 0, 0],
    &[0x88, 2, 0, 12, 0, 5, 0, 0, 0, 0, 0, 0],
    &[0xc0, 2, 0, 12, 0, 5, 0, 0, 0, 0, 0, 0],
    &[0xca, 2, 0, 12, 0, 5, 0, 0, 0, 0, 0, 0],
    &[0xc9, 2, 0, 12, 0, 5, 0, 0, 0, 0, 0, 0],
    &[0xc8, 3, 0, 12, 0, 5, 0, 0, 0, 0, 0, 0],
    // Length of 11, and past the octets
    &[0xc8, 2, 0, 11, 0, 5, 0, 0, 0, 0, 0, 0],
    &[0xc8, 2, 0, 13, 0, 5, 0, 0, 0, 0, 0, 0],
    // an AVP past Length, and an octet that is no AVP
    &[
        0xc8, 2, 0, 18, 0, 5, 0, 0, 0, 0, 0, 0, 0x80, 8, 0, 0, 0, 0, 0, 1,
    ],
    &[0xc8, 2, 0, 13, 0, 5, 0, 0, 0, 0, 0, 0, 0x80],
];

// how many AVPs the control message has, or why it is not read
fn count_of_avps(octets: &[u8]) -> Result<usize, ReadError> {
    match Control::read(octets) {
        Ok(message) => Ok(message.avps.len()),
        Err(error) => Err(error),
    }
}

// asserts how many AVPs the control message has, or why it is not read
fn assert_count_of_avps(rt: &impl Abort, octets: &[u8], wanted: Result<usize, ReadError>) {
    assert_same(rt, &count_of_avps(octets), &wanted);
}

// a message without AVPs that has reserved bits set, and an octet past its Length
const PADDED: [u8; 13] = [0xf8, 0x12, 0, 12, 0, 5, 0, 0, 0, 0, 0, 0, 0x80];

#[test]
fn refuses_what_is_no_control_message(rt: HostRuntime) {
    for octets in NO_CONTROL {
        assert_count_of_avps(&rt, octets, Err(ReadError::Outside));
    }
    // octets past Length are padding, and the reserved bits are ignored
    assert_count_of_avps(&rt, &PADDED, Ok(0));
}

// asserts how many AVPs a control message of this header and these octets has, or why it is not read
fn assert_count_after(
    rt: &impl Abort,
    header: &[u8; 12],
    avps: &[u8],
    wanted: Result<usize, ReadError>,
)
    requires { length avps.now ≤ 520 }
{
    let mut frame = Frame::new();
    frame.set(avps);
    frame.put_front(header);
    assert_count_of_avps(rt, frame.payload(), wanted);
}

// headers of messages whose AVPs have 512, 520 and 519 octets
const HEADER_512: [u8; 12] = [0xc8, 2, 0x02, 0x0c, 0, 5, 0, 0, 0, 0, 0, 0];

const HEADER_520: [u8; 12] = [0xc8, 2, 0x02, 0x14, 0, 5, 0, 0, 0, 0, 0, 0];

const HEADER_519: [u8; 12] = [0xc8, 2, 0x02, 0x13, 0, 5, 0, 0, 0, 0, 0, 0];

#[test]
fn keeps_64_avps_and_no_more(rt: HostRuntime) {
    // AVPs of eight octets, each of them 8
    let avps = [8; 520];
    assert_count_after(&rt, &HEADER_512, &avps[..512], Ok(64));
    assert_count_after(&rt, &HEADER_520, &avps, Err(ReadError::TooMany));
    assert_count_after(&rt, &HEADER_519, &avps[..519], Err(ReadError::Outside));
}

// each is data for tunnel 5 and session 7 with the PPP octets c021 01
fn is_the_same_data(rt: &impl Abort, bytes: &[u8]) {
    assert_holds(rt, !is_control(bytes));
    let data = Data::read(bytes).expect(rt, "a data message");
    assert_same(rt, &(data.tunnel, data.session), &(5, 7));
    assert_octets(rt, data.ppp, &[0xc0, 0x21, 1]);
}

// data messages with any of L, S, O and P
const SAME_DATA: &[&[u8]] = &[
    &[0x00, 2, 0, 5, 0, 7, 0xff, 3, 0xc0, 0x21, 1],
    &[0x01, 2, 0, 5, 0, 7, 0xc0, 0x21, 1],
    &[0x02, 2, 0, 5, 0, 7, 0, 2, 9, 9, 0xff, 3, 0xc0, 0x21, 1],
    &[0x03, 2, 0, 5, 0, 7, 0, 0, 0xc0, 0x21, 1],
    &[0x08, 2, 0, 5, 0, 7, 1, 1, 2, 2, 0xff, 3, 0xc0, 0x21, 1],
    &[0x09, 2, 0, 5, 0, 7, 1, 1, 2, 2, 0xc0, 0x21, 1],
    &[
        0x0a, 2, 0, 5, 0, 7, 1, 1, 2, 2, 0, 1, 9, 0xff, 3, 0xc0, 0x21, 1,
    ],
    &[0x0b, 2, 0, 5, 0, 7, 1, 1, 2, 2, 0, 1, 9, 0xc0, 0x21, 1],
    &[0x40, 2, 0, 13, 0, 5, 0, 7, 0xff, 3, 0xc0, 0x21, 1, 0xee],
    &[0x41, 2, 0, 11, 0, 5, 0, 7, 0xc0, 0x21, 1],
    &[0x42, 2, 0, 16, 0, 5, 0, 7, 0, 1, 9, 0xff, 3, 0xc0, 0x21, 1],
    &[0x43, 2, 0, 14, 0, 5, 0, 7, 0, 1, 9, 0xc0, 0x21, 1, 0xee],
    &[
        0x48, 2, 0, 17, 0, 5, 0, 7, 1, 1, 2, 2, 0xff, 3, 0xc0, 0x21, 1,
    ],
    &[
        0x49, 2, 0, 15, 0, 5, 0, 7, 1, 1, 2, 2, 0xc0, 0x21, 1, 0xee, 0xee,
    ],
    &[
        0x4a, 2, 0, 20, 0, 5, 0, 7, 1, 1, 2, 2, 0, 1, 9, 0xff, 3, 0xc0, 0x21, 1,
    ],
    &[0x4b, 2, 0, 17, 0, 5, 0, 7, 1, 1, 2, 2, 0, 0, 0xc0, 0x21, 1],
];

#[test]
fn reads_data_with_any_of_l_s_o_and_p(rt: HostRuntime) {
    for bytes in SAME_DATA {
        is_the_same_data(&rt, bytes);
    }
}

// octets that are no data message
const NO_DATA: &[&[u8]] = &[
    // version 3, one octet of PPP, Address and Control alone, no PPP
    &[0, 3, 0, 5, 0, 7, 0xc0, 0x21],
    &[0, 2, 0, 5, 0, 7, 0xc0],
    &[0, 2, 0, 5, 0, 7, 0xff, 3],
    &[0, 2, 0, 5, 0, 7],
    // Length past the octets, and before the PPP frame; an offset past the end; no Nr
    &[0x40, 2, 0, 11, 0, 5, 0, 7, 0xc0, 0x21],
    &[0x40, 2, 0, 9, 0, 5, 0, 7, 0xc0, 0x21],
    &[0x02, 2, 0, 5, 0, 7, 0, 9, 0xc0, 0x21],
    &[0x08, 2, 0, 5, 0, 7, 1, 1],
];

fn is_no_data(octets: &[u8]) -> bool {
    matches!(Data::read(octets), Err(ReadError::Outside))
}

#[test]
fn refuses_what_is_no_data_message(rt: HostRuntime) {
    for octets in NO_DATA {
        assert_holds(&rt, is_no_data(octets));
    }
}

// writes data for tunnel 5 and session 7 with these PPP octets
fn write_data(ppp: &[u8], frame: &mut Frame) -> Written {
    let data = Data {
        tunnel: 5,
        session: 7,
        ppp,
    };
    data.write(frame)
}

// asserts what is written of data with the PPP octets c021 01
fn write_three(rt: &impl Abort, frame: &mut Frame) {
    assert_same(rt, &write_data(&[0xc0, 0x21, 1], frame), &Written::Done);
    assert_octets(
        rt,
        frame.payload(),
        &[0, 2, 0, 5, 0, 7, 0xff, 3, 0xc0, 0x21, 1],
    );
}

#[test]
fn writes_data_without_flags_and_begun_by_address_and_control(rt: HostRuntime) {
    let mut frame = Frame::new();
    write_three(&rt, &mut frame);
    let octets = [0; 4096];
    let written = write_data(&octets[..4088], &mut frame);
    assert_same(&rt, &written, &Written::Done);
    let written = write_data(&octets[..4089], &mut frame);
    assert_same(&rt, &written, &Written::Full);
    assert_count(&rt, frame.payload().len(), 4096);
}
