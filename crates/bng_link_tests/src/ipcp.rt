use crate::asserts::{assert_octets, assert_same, assert_same_of};
use crate::judged::printed;
use bng_base::{Frame, Ip4};
use bng_ipcp::{IpcpAsk, IpcpOptions, IpcpRules, Taken, judge};
use bng_ppp_wire::{Packet, options};
use std::alloc::{AllocError, Global};
use std::process::Abort;
use std::test::Fail;

// The lease is 10.0.0.2, and there is one DNS server, 192.0.2.53.
const RULES: IpcpRules = IpcpRules {
    lease: Ip4(0x0a000002),
    dns: [Some(Ip4(0xc0000235)), None],
    no_more_naks: false,
};

// The body of a Configure-Request, and the answer with each option's type and data.
const JUDGED: &[(&[u8], &str)] = &[
    (&[3, 6, 10, 0, 0, 2], "Ack"),
    (&[129, 6, 192, 0, 2, 53, 3, 6, 10, 0, 0, 2], "Ack"),
    (&[3, 6, 0, 0, 0, 0], "Nak 3[10, 0, 0, 2]"),
    (&[], "Nak 3[10, 0, 0, 2]"),
    (
        &[129, 6, 0, 0, 0, 0],
        "Nak 129[192, 0, 2, 53] 3[10, 0, 0, 2]",
    ),
    (
        &[3, 6, 0, 0, 0, 0, 129, 6, 0, 0, 0, 0],
        "Nak 3[10, 0, 0, 2] 129[192, 0, 2, 53]",
    ),
    (
        &[3, 6, 0, 0, 0, 0, 129, 6, 0, 0, 0, 0, 131, 6, 0, 0, 0, 0],
        "Reject 131[0, 0, 0, 0]",
    ),
    (
        &[2, 6, 0, 45, 15, 1, 3, 6, 0, 0, 0, 0],
        "Reject 2[0, 45, 15, 1]",
    ),
    (&[130, 6, 0, 0, 0, 0], "Reject 130[0, 0, 0, 0]"),
    (&[3, 4, 10, 0], "Reject 3[10, 0]"),
];

fn answer(alloc: Global, body: &[u8], rules: &IpcpRules) -> Result<String, AllocError> {
    let request = Packet {
        code: 1,
        id: 1,
        body,
    };
    let Ok(list) = options(&request) else {
        return String::from_str(alloc, "malformed");
    };
    printed(alloc, &judge(list.as_slice(), rules))
}

// Asserts the answer to a Configure-Request with this body.
fn assert_judged(
    rt: &impl Abort,
    alloc: Global,
    body: &[u8],
    rules: &IpcpRules,
    want: &str,
) -> Result<(), Fail> {
    let text = answer(alloc, body, rules)?;
    assert_same(rt, &text.as_str(), &want);
    Ok(())
}

#[test]
fn requests_are_judged_by_lease_and_servers(rt: HostRuntime) -> Result<(), Fail> {
    for (body, want) in JUDGED {
        assert_judged(&rt, rt.alloc(), body, &RULES, want)?;
    }
    Ok(())
}

// RULES after the last Configure-Nak.
const WITHOUT_NAKS: IpcpRules = IpcpRules {
    no_more_naks: true,
    ..RULES
};

// An address that is not the lease.
const OTHER_ADDRESS: &[u8] = &[3, 6, 0, 0, 0, 0];

#[test]
fn after_the_last_nak_it_rejects_and_adds_nothing(rt: HostRuntime) -> Result<(), Fail> {
    let rules = &WITHOUT_NAKS;
    assert_judged(
        &rt,
        rt.alloc(),
        OTHER_ADDRESS,
        rules,
        "Reject 3[0, 0, 0, 0]",
    )?;
    assert_judged(&rt, rt.alloc(), &[], rules, "Ack")
}

// The gateway's address is 10.0.0.1.
const FIRST: IpcpOptions = IpcpOptions {
    address: Some(Ip4(0x0a000001)),
};

const NONE: IpcpOptions = IpcpOptions { address: None };

// The code, identifier and body of a reply to the request, what becomes of it, and what is asked for then.
const TAKEN: &[(u8, u8, &[u8], Taken, IpcpOptions)] = &[
    (2, 1, &[3, 6, 10, 0, 0, 1], Taken::Accepted, FIRST),
    (2, 2, &[3, 6, 10, 0, 0, 1], Taken::Ignored, FIRST),
    (2, 1, &[3, 6, 10, 0, 0, 9], Taken::Ignored, FIRST),
    (3, 1, &[3, 6, 10, 0, 0, 9], Taken::Changed, FIRST),
    (3, 1, &[3, 6, 10], Taken::Ignored, FIRST),
    (4, 1, &[3, 6, 10, 0, 0, 1], Taken::Changed, NONE),
    (4, 1, &[3, 6, 10, 0, 0, 9], Taken::Ignored, FIRST),
    (5, 1, &[], Taken::Ignored, FIRST),
];

// The request, with Identifier 1.
const SENT: &[u8] = &[1, 1, 0, 10, 3, 6, 10, 0, 0, 1];

// What no reply of IPCP uses.
const RANDOM: [u8; 16] = [0; 16];

// It was asked with Identifier 1 for the gateway's address.
fn first_asked(rt: &impl Abort) -> IpcpAsk {
    let mut ask = IpcpAsk::new(Ip4(0x0a000001));
    let mut frame = Frame::new();
    ask.request(1, &mut frame);
    assert_octets(rt, frame.payload(), SENT);
    ask
}

// Asserts what becomes of a reply to the request, and what is asked for then.
fn assert_taken(rt: &impl Abort, reply: &Packet<'_>, want: Taken, wanted: IpcpOptions) {
    let mut ask = first_asked(rt);
    let taken = ask.on_reply(reply, &RANDOM);
    assert_same_of(rt, reply.code, reply.body, &taken, &want);
    assert_same_of(rt, reply.code, reply.body, &ask.wanted(), &wanted);
}

#[test]
fn replies_are_taken_as_the_standard_says(rt: HostRuntime) {
    for (code, id, body, want, wanted) in TAKEN {
        let reply = Packet {
            code: *code,
            id: *id,
            body,
        };
        assert_taken(&rt, &reply, *want, *wanted);
    }
}

// A Configure-Reject of the gateway's address.
const REFUSED: Packet<'static> = Packet {
    code: 4,
    id: 1,
    body: &[3, 6, 10, 0, 0, 1],
};

// A Configure-Ack of no option.
const AGREED: Packet<'static> = Packet {
    code: 2,
    id: 2,
    body: &[],
};

// The second request, which asks for nothing.
const SECOND: &[u8] = &[1, 2, 0, 4];

// The address is rejected of the first request.
fn reject_first(rt: &impl Abort, ask: &mut IpcpAsk, frame: &mut Frame) {
    ask.request(1, frame);
    assert_same(rt, &ask.on_reply(&REFUSED, &RANDOM), &Taken::Changed);
}

// It stays out of the second one, which is acked.
fn agree_to_second(rt: &impl Abort, ask: &mut IpcpAsk, frame: &mut Frame) {
    ask.request(2, frame);
    assert_octets(rt, frame.payload(), SECOND);
    assert_same(rt, &ask.on_reply(&AGREED, &RANDOM), &Taken::Accepted);
}

#[test]
fn after_a_reject_it_asks_for_nothing(rt: HostRuntime) {
    let mut ask = IpcpAsk::new(Ip4(0x0a000001));
    let mut frame = Frame::new();
    reject_first(&rt, &mut ask, &mut frame);
    agree_to_second(&rt, &mut ask, &mut frame);
}
