use crate::asserts::{assert_octets, assert_same, assert_same_of};
use crate::judged::printed;
use arrayvec::ArrayVec;
use bng_base::{AuthKind, Frame};
use bng_lcp::{LcpAsk, LcpOptions, LcpRules, Taken, judge};
use bng_ppp_wire::code::{CONFIGURE_ACK, CONFIGURE_NAK, CONFIGURE_REJECT};
use bng_ppp_wire::{Packet, options};
use std::alloc::{AllocError, Global};
use std::process::Abort;
use std::test::Fail;

const RULES: LcpRules = LcpRules {
    limit: 1492,
    own_magic: 0xa1b2c3d4,
    fresh_magic: 0x01020304,
    no_more_naks: false,
};

// The body of a Configure-Request, and the answer with each option's type and data.
const JUDGED: &[(&[u8], &str)] = &[
    (
        &[1, 4, 5, 0xd4, 5, 6, 0x11, 0x22, 0x33, 0x44, 7, 2, 8, 2],
        "Reject 7[] 8[]",
    ),
    (&[1, 4, 5, 0xd4, 5, 6, 0x11, 0x22, 0x33, 0x44], "Ack"),
    (&[], "Ack"),
    (&[1, 4, 0, 128], "Ack"),
    (&[1, 4, 0, 127], "Nak 1[5, 212]"),
    (&[1, 4, 5, 0xd5], "Nak 1[5, 212]"),
    (&[5, 6, 0, 0, 0, 0], "Nak 5[1, 2, 3, 4]"),
    (
        &[5, 6, 0xa1, 0xb2, 0xc3, 0xd4, 1, 4, 0, 0],
        "Nak 5[1, 2, 3, 4] 1[5, 212]",
    ),
    (&[1, 3, 5], "Reject 1[5]"),
    (
        &[5, 2, 1, 4, 0, 0, 2, 6, 0, 0, 0, 0],
        "Reject 5[] 2[0, 0, 0, 0]",
    ),
    (&[3, 4, 0xc0, 0x23], "Reject 3[192, 35]"),
    (
        &[3, 4, 0xc0, 0x23, 1, 4, 0, 0, 5, 6, 1, 1, 1, 1],
        "Reject 3[192, 35]",
    ),
];

fn answer(alloc: Global, body: &[u8], rules: &LcpRules) -> Result<String, AllocError> {
    let request = Packet {
        code: 1,
        id: 1,
        body,
    };
    let Ok(list) = options(&request) else {
        return String::from_str(alloc, "malformed");
    };
    printed(alloc, &judge(list.as_slice(), rules))
}

// Asserts the answer to a Configure-Request with this body.
fn assert_judged(
    rt: &impl Abort,
    alloc: Global,
    body: &[u8],
    rules: &LcpRules,
    want: &str,
) -> Result<(), Fail> {
    let text = answer(alloc, body, rules)?;
    assert_same(rt, &text.as_str(), &want);
    Ok(())
}

#[test]
fn requests_are_judged_by_type_length_and_value(rt: HostRuntime) -> Result<(), Fail> {
    for (body, want) in JUDGED {
        assert_judged(&rt, rt.alloc(), body, &RULES, want)?;
    }
    Ok(())
}

// RULES after the last Configure-Nak.
const WITHOUT_NAKS: LcpRules = LcpRules {
    no_more_naks: true,
    ..RULES
};

// A Maximum-Receive-Unit that is too large, and a magic number.
const TOO_LARGE: &[u8] = &[1, 4, 5, 0xd5, 5, 6, 1, 1, 1, 1];

#[test]
fn after_the_last_nak_it_rejects(rt: HostRuntime) -> Result<(), Fail> {
    assert_judged(
        &rt,
        rt.alloc(),
        TOO_LARGE,
        &WITHOUT_NAKS,
        "Reject 1[5, 213]",
    )
}

// A magic number that is 0.
const NO_MAGIC: &[u8] = &[5, 6, 0, 0, 0, 0];

// RULES where 0 was drawn for what is suggested.
const WITH_0: LcpRules = LcpRules {
    fresh_magic: 0,
    ..RULES
};

#[test]
fn a_suggested_magic_number_is_never_0(rt: HostRuntime) -> Result<(), Fail> {
    assert_judged(&rt, rt.alloc(), NO_MAGIC, &WITH_0, "Nak 5[0, 0, 0, 1]")
}

const RANDOM: [u8; 16] = [9, 8, 7, 6, 0, 0, 0, 0, 0, 0, 0, 0, 0, 0, 0, 0];

// What the gateway asks for at first: 1,492 octets, CHAP with MD5 and its magic number.
const FIRST: LcpOptions = LcpOptions {
    mru: Some(1492),
    auth: AuthKind::Chap,
    magic: Some(0xa1b2c3d4),
};

const SENT: &[u8] = &[
    1, 7, 0, 19, 1, 4, 5, 0xd4, 3, 5, 0xc2, 0x23, 5, 5, 6, 0xa1, 0xb2, 0xc3, 0xd4,
];

// The code, identifier and body of a reply to it, what becomes of it, and what is asked for then.
const TAKEN: &[(u8, u8, &[u8], Taken, LcpOptions)] = &[
    (
        2,
        7,
        &[
            1, 4, 5, 0xd4, 3, 5, 0xc2, 0x23, 5, 5, 6, 0xa1, 0xb2, 0xc3, 0xd4,
        ],
        Taken::Accepted,
        FIRST,
    ),
    (
        2,
        8,
        &[
            1, 4, 5, 0xd4, 3, 5, 0xc2, 0x23, 5, 5, 6, 0xa1, 0xb2, 0xc3, 0xd4,
        ],
        Taken::Ignored,
        FIRST,
    ),
    (
        2,
        7,
        &[1, 4, 5, 0xd4, 3, 5, 0xc2, 0x23, 5],
        Taken::Ignored,
        FIRST,
    ),
    (
        3,
        7,
        &[3, 4, 0xc0, 0x23],
        Taken::Changed,
        LcpOptions {
            auth: AuthKind::Pap,
            ..FIRST
        },
    ),
    (3, 7, &[3, 5, 0xc2, 0x23, 0x80], Taken::Changed, FIRST),
    (
        3,
        7,
        &[1, 4, 5, 0x78],
        Taken::Changed,
        LcpOptions {
            mru: Some(1400),
            ..FIRST
        },
    ),
    (3, 7, &[1, 4, 5, 0xd5], Taken::Changed, FIRST),
    (
        3,
        7,
        &[5, 6, 1, 1, 1, 1],
        Taken::Changed,
        LcpOptions {
            magic: Some(0x09080706),
            ..FIRST
        },
    ),
    (3, 7, &[1, 4, 5], Taken::Ignored, FIRST),
    (
        4,
        7,
        &[1, 4, 5, 0xd4],
        Taken::Changed,
        LcpOptions { mru: None, ..FIRST },
    ),
    (
        4,
        7,
        &[1, 4, 5, 0xd4, 5, 6, 0xa1, 0xb2, 0xc3, 0xd4],
        Taken::Changed,
        LcpOptions {
            mru: None,
            auth: AuthKind::Chap,
            magic: None,
        },
    ),
    (4, 7, &[1, 4, 5, 0xd5], Taken::Ignored, FIRST),
    (4, 7, &[3, 5, 0xc2, 0x23, 5], Taken::Unwilling, FIRST),
    (7, 7, &[1, 4, 5, 0xd4], Taken::Ignored, FIRST),
];

// It was asked with Identifier 7 for what the gateway asks for at first.
fn first_asked(rt: &impl Abort) -> LcpAsk {
    let both = ArrayVec::from([AuthKind::Chap, AuthKind::Pap]);
    let mut ask = LcpAsk::new(1492, 0xa1b2c3d4, both);
    let mut frame = Frame::new();
    ask.request(7, &mut frame);
    assert_octets(rt, frame.payload(), SENT);
    ask
}

// Asserts what becomes of a reply to the request, and what is asked for then.
fn assert_taken(rt: &impl Abort, reply: &Packet<'_>, want: Taken, wanted: LcpOptions) {
    let mut ask = first_asked(rt);
    let taken = ask.on_reply(reply, &RANDOM);
    assert_same_of(rt, reply.code, reply.body, &taken, &want);
    assert_same_of(rt, reply.code, reply.body, &ask.wanted(), &wanted);
}

#[test]
fn replies_are_taken_as_the_standard_says(rt: HostRuntime) {
    for (code, id, body, want, wanted) in TAKEN {
        let reply = Packet {
            code: *code,
            id: *id,
            body,
        };
        assert_taken(&rt, &reply, *want, *wanted);
    }
}

// A Configure-Reject of the Maximum-Receive-Unit and of the magic number.
const REFUSED: Packet<'static> = Packet {
    code: CONFIGURE_REJECT,
    id: 1,
    body: &[1, 4, 5, 0xdc, 5, 6, 0, 0, 0, 1],
};

// A Configure-Nak that suggests both again, and CHAP.
const SUGGESTED: Packet<'static> = Packet {
    code: CONFIGURE_NAK,
    id: 2,
    body: &[1, 4, 2, 0, 5, 6, 1, 1, 1, 1, 3, 5, 0xc2, 0x23, 5],
};

// A Configure-Ack of PAP.
const AGREED: Packet<'static> = Packet {
    code: CONFIGURE_ACK,
    id: 2,
    body: &[3, 4, 0xc0, 0x23],
};

// The second request, which asks for PAP alone.
const SECOND: &[u8] = &[1, 2, 0, 8, 3, 4, 0xc0, 0x23];

// Both are rejected of the first request, with Identifier 1.
fn reject_first(rt: &impl Abort, ask: &mut LcpAsk, frame: &mut Frame) {
    ask.request(1, frame);
    assert_same(rt, &ask.on_reply(&REFUSED, &RANDOM), &Taken::Changed);
}

// They stay out of the second one, and a suggestion of them does not bring them back.
fn agree_to_second(rt: &impl Abort, ask: &mut LcpAsk, frame: &mut Frame) {
    ask.request(2, frame);
    assert_octets(rt, frame.payload(), SECOND);
    assert_same(rt, &ask.on_reply(&SUGGESTED, &RANDOM), &Taken::Changed);
    assert_same(rt, &ask.on_reply(&AGREED, &RANDOM), &Taken::Accepted);
}

#[test]
fn what_was_rejected_stays_out(rt: HostRuntime) {
    let only = ArrayVec::from([AuthKind::Pap, AuthKind::Pap]);
    let mut ask = LcpAsk::new(1500, 0, only);
    let mut frame = Frame::new();
    reject_first(&rt, &mut ask, &mut frame);
    agree_to_second(&rt, &mut ask, &mut frame);
}
