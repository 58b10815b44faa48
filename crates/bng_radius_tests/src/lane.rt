use crate::asserts::assert_holds;
use arrayvec::ArrayVec;
use bng_access::NasRules;
use bng_auth::{Credentials, Proof};
use bng_base::{Circuit, Frame, Ip4, Mac, Peer, SessionNo};
use bng_lane::{Questions, LaneRules};
use bng_verdict::{AuthAsk, QuestionNo};
use std::alloc::Global;
use std::process::Abort;
use std::test::Fail;

const SERVER: Peer = Peer {
    ip: Ip4(0x0a00_0001),
    port: 1812,
};

const STRANGER: Peer = Peer {
    ip: Ip4(0x0a00_0001),
    port: 1813,
};

// The Request Authenticator of RFC 2865 section 7.1.
const AUTHENTICATOR: [u8; 16] = [
    0x0f, 0x40, 0x3f, 0x94, 0x73, 0x97, 0x80, 0x57, 0xbd, 0x83, 0xd5, 0xcb, 0x98, 0xf4, 0x22, 0x7a,
];

// Replies without attributes to a request with that authenticator, under the secret xyzzy5461, by Python's hashlib: an
// Access-Accept with Identifier 0, an Access-Reject with Identifier 0, and an Access-Accept with Identifier 1.
const ACCEPT: &str = "020000149ef2e97b4e94755c8f16b6394f6e0595";

const REJECT: &str = "03000014072453aba835418a6fe17de435de3db1";

const ACCEPT_1: &str = "020100145ea7681f4b7cdfda62b84e3bebfe8d14";

// The first of them with one octet changed.
const WITH_ONE_OCTET_CHANGED: &str = "020000149ef2e97b4e94755c8f16b6394f6e0594";

fn rules(tries: u8) -> LaneRules {
    let mut secret = ArrayVec::new();
    for octet in b"xyzzy5461" {
        if !secret.is_full() {
            secret.push(*octet);
        }
    }
    let nas = NasRules {
        name: ArrayVec::new(),
        nas_ip: Ip4(0x0a00_0002),
    };
    LaneRules {
        nas,
        server: SERVER,
        secret,
        tries,
    }
}

fn number(ask: u64) -> QuestionNo {
    QuestionNo {
        session: SessionNo(1025),
        ask,
    }
}

// Asks the question of this number, if there is room.
fn asked(lane: &mut Questions, ask: u64, now: u64) -> Option<(u8, Frame)> {
    if !lane.room() {
        return None;
    }
    let circuit = Circuit::Pppoe {
        port: 1,
        mac: Mac([2, 0, 0, 0, 0, 1]),
        session: SessionNo(1025),
    };
    let credentials = Credentials {
        name: ArrayVec::new(),
        proof: Proof::Pap(ArrayVec::new()),
    };
    let question = AuthAsk {
        number: number(ask),
        circuit,
        credentials,
    };
    Some(lane.ask(&question, &AUTHENTICATOR, now))
}

// Asks the question of this number, as `asked`: its identifier.
fn ask(lane: &mut Questions, number: u64) -> Option<u8> {
    match asked(lane, number, 0) {
        Some((id, _)) => Some(id),
        None => None,
    }
}

// Hears a datagram, in hexadecimal digits, which has to answer this question.
fn hear(
    rt: &impl Abort,
    alloc: Global,
    lane: &mut Questions,
    from: Peer,
    datagram: &str,
    answer: Option<QuestionNo>,
) -> Result<(), Fail> {
    let octets = hex::decode(alloc, datagram)?;
    assert_holds(rt, lane.take(from, octets.as_slice()) == answer);
    Ok(())
}

// Notes what became of a send. Nothing is said of it, so that no proof looks into the list of what was sent.
fn note(lane: &mut Questions, id: u8, sent: bool) {
    lane.note(id, sent);
}

// Hears the reply before its request was sent, and where the send failed; and then sends it.
fn hear_too_soon(rt: &impl Abort, alloc: Global, lane: &mut Questions) -> Result<(), Fail> {
    hear(rt, alloc, lane, SERVER, ACCEPT, None)?;
    note(lane, 0, false);
    hear(rt, alloc, lane, SERVER, ACCEPT, None)?;
    note(lane, 0, true);
    Ok(())
}

// Hears what is no reply: from another port, with another Identifier, with one octet changed, and one octet alone.
fn hear_others(rt: &impl Abort, alloc: Global, lane: &mut Questions) -> Result<(), Fail> {
    hear(rt, alloc, lane, STRANGER, ACCEPT, None)?;
    hear(rt, alloc, lane, SERVER, ACCEPT_1, None)?;
    hear(rt, alloc, lane, SERVER, WITH_ONE_OCTET_CHANGED, None)?;
    hear(rt, alloc, lane, SERVER, "02", None)
}

#[test]
fn a_reply_counts_once_and_after_its_request_was_sent(rt: HostRuntime) -> Result<(), Fail> {
    let mut lane = Questions::open(rt.alloc(), rules(3))?;
    assert_holds(&rt, lane.server() == SERVER);
    assert_holds(&rt, ask(&mut lane, 7) == Some(0));
    hear_too_soon(&rt, rt.alloc(), &mut lane)?;
    hear_others(&rt, rt.alloc(), &mut lane)?;
    hear(&rt, rt.alloc(), &mut lane, SERVER, ACCEPT, Some(number(7)))?;
    hear(&rt, rt.alloc(), &mut lane, SERVER, ACCEPT, None)?;
    assert_holds(&rt, lane.deadline() == None);
    Ok(())
}

// Whether the request with this identifier and these octets is sent again at this moment.
fn is_resent(lane: &mut Questions, id: u8, frame: &Frame, now: u64) -> bool {
    match lane.resend(now) {
        Some((again, octets)) => again == id && octets.payload() == frame.payload(),
        None => false,
    }
}

// No request is sent again at this moment.
fn none_resent(lane: &mut Questions, now: u64) -> bool {
    lane.resend(now).is_none()
}

// The question 7 is asked, and its request is sent again after 3 s.
fn send_twice(rt: &impl Abort, lane: &mut Questions) -> Result<(), Fail> {
    let (id, frame) = asked(lane, 7, 0).ok_or("no room")?;
    note(lane, id, true);
    assert_holds(rt, lane.deadline() == Some(3000));
    assert_holds(rt, none_resent(lane, 2999));
    assert_holds(rt, is_resent(lane, id, &frame, 3000));
    Ok(())
}

// It is given up after 3 s more.
fn give_up(rt: &impl Abort, lane: &mut Questions) {
    assert_holds(rt, none_resent(lane, 3000));
    assert_holds(rt, lane.give_up(5999) == None);
    assert_holds(rt, none_resent(lane, 6000));
    assert_holds(rt, lane.give_up(6000) == Some(number(7)));
    assert_holds(rt, lane.give_up(6000) == None);
}

#[test]
fn a_request_is_sent_again_after_3_s_and_given_up_after_its_tries(
    rt: HostRuntime,
) -> Result<(), Fail> {
    let mut lane = Questions::open(rt.alloc(), rules(2))?;
    send_twice(&rt, &mut lane)?;
    give_up(&rt, &mut lane);
    assert_holds(&rt, lane.deadline() == None);
    Ok(())
}

// Asks a question, whose request has this identifier, and sends it.
fn send_one(rt: &impl Abort, lane: &mut Questions, id: u8) {
    assert_holds(rt, ask(lane, u64::from(id)) == Some(id));
    note(lane, id, true);
}

// Asks 256 questions, for more of which there is no room.
fn send_all(rt: &impl Abort, lane: &mut Questions) {
    for id in 0..=255u8 {
        send_one(rt, lane, id);
    }
    assert_holds(rt, !lane.room());
    assert_holds(rt, ask(lane, 256).is_none());
}

#[test]
fn an_identifier_is_given_again_and_was_not_sent_then(rt: HostRuntime) -> Result<(), Fail> {
    let mut lane = Questions::open(rt.alloc(), rules(2))?;
    send_all(&rt, &mut lane);
    hear(&rt, rt.alloc(), &mut lane, SERVER, REJECT, Some(number(0)))?;
    assert_holds(&rt, ask(&mut lane, 256) == Some(0));
    hear(&rt, rt.alloc(), &mut lane, SERVER, REJECT, None)?;
    note(&mut lane, 0, true);
    hear(
        &rt,
        rt.alloc(),
        &mut lane,
        SERVER,
        REJECT,
        Some(number(256)),
    )
}
