use crate::asserts::{assert_holds, assert_octets, assert_same};
use arrayvec::ArrayVec;
use bng_auth::{AuthStep, Chap, Credentials, Pap, Proof, Reply};
use bng_base::{AuthKind, Frame};
use bng_ppp_wire::Packet;
use std::process::Abort;

const fn packet(code: u8, id: u8, body: &[u8]) -> Packet<'_> {
    Packet { code, id, body }
}

fn reply(kind: AuthKind, yes: bool, id: u8) -> Reply {
    let mut text = ArrayVec::new();
    text.push(b'h');
    text.push(b'i');
    Reply {
        kind,
        yes,
        id,
        text,
    }
}

// What a step asks about, if it asks.
fn asked(step: AuthStep) -> Option<Credentials> {
    match step {
        AuthStep::Ask(credentials) => Some(credentials),
        _ => None,
    }
}

// The reply that a step sends again, if it sends one.
fn repeated(step: AuthStep) -> Option<Reply> {
    match step {
        AuthStep::Again(reply) => Some(reply),
        _ => None,
    }
}

// The password that proves a name, if one does.
fn password(proof: &Proof) -> Option<&[u8]> {
    match proof {
        Proof::Pap(password) => Some(password.as_slice()),
        Proof::Chap { .. } => None,
    }
}

// Whether PAP ignores an Authenticate-Request with this Identifier and this body.
fn pap_ignores(pap: &mut Pap, id: u8, body: &[u8]) -> bool {
    matches!(&pap.on_frame(&packet(1, id, body)), AuthStep::Ignore)
}

// Whether CHAP ignores a Response with this Identifier and this body.
fn chap_ignores(chap: &mut Chap, id: u8, body: &[u8]) -> bool {
    matches!(&chap.on_frame(&packet(2, id, body)), AuthStep::Ignore)
}

// The Peer-ID and the Password of nemo.
const NEMO: &[u8] = b"\x04nemo\x0aarctangent";

// Asserts that somebody claims to be nemo, and proves it by nemo's password.
fn assert_nemo(rt: &impl Abort, credentials: &Credentials) {
    assert_octets(rt, credentials.name.as_slice(), b"nemo");
    let password = password(&credentials.proof).expect(rt, "no password");
    assert_octets(rt, password, b"arctangent");
}

// PAP asks about nemo, once.
fn ask_about_nemo(rt: &impl Abort, pap: &mut Pap) {
    let credentials = asked(pap.on_frame(&packet(1, 7, NEMO))).expect(rt, "not asked");
    assert_nemo(rt, &credentials);
    assert_holds(rt, pap_ignores(pap, 8, NEMO));
}

// PAP has two verdicts, and gives the first one twice.
fn accept_nemo(rt: &impl Abort, pap: &mut Pap) {
    let first = pap.on_verdict(true, b"hi");
    assert_same(rt, &(first.code(), first.id), &(2, 7));
    let second = pap.on_verdict(false, b"no");
    assert_same(rt, &second.code(), &2);
    assert_octets(rt, second.text.as_slice(), b"hi");
}

// PAP gives its reply again to another Authenticate-Request.
fn repeat_reply(rt: &impl Abort, pap: &mut Pap) {
    let again = repeated(pap.on_frame(&packet(1, 9, b"\x01x\x00"))).expect(rt, "not repeated");
    assert_same(rt, &(again.code(), again.id), &(2, 9));
    assert_octets(rt, again.text.as_slice(), b"hi");
}

#[test]
fn pap_asks_once_and_repeats_its_reply(rt: HostRuntime) {
    let mut pap = Pap::new();
    ask_about_nemo(&rt, &mut pap);
    accept_nemo(&rt, &mut pap);
    repeat_reply(&rt, &mut pap);
}

// What is no Peer-ID with a Password.
const OUTSIDE: &[&[u8]] = &[b"", b"\x04nem", b"\x01x\x02y", b"\x01x\x00y"];

// PAP refuses an empty name, and the reply to that request is a Nak.
fn refuse_nameless(rt: &impl Abort, pap: &mut Pap) {
    assert_holds(
        rt,
        matches!(&pap.on_frame(&packet(1, 1, b"\x00\x01y")), AuthStep::Refuse),
    );
    let refused = pap.on_verdict(false, b"no name");
    assert_same(rt, &(refused.code(), refused.id), &(3, 1));
}

#[test]
fn requests_outside_their_form_are_ignored_and_long_names_refused(rt: HostRuntime) {
    let mut pap = Pap::new();
    for body in OUTSIDE {
        assert_holds(&rt, pap_ignores(&mut pap, 1, body));
    }
    refuse_nameless(&rt, &mut pap);
}

const CHALLENGE: &[u8] =
    b"\x01\x05\x00\x19\x10\x09\x09\x09\x09\x09\x09\x09\x09\x09\x09\x09\x09\x09\x09\x09\x09bng1";

// The Value and the Name of a Response of u0.
const RESPONSE: &[u8] = b"\x10\x01\x01\x01\x01\x01\x01\x01\x01\x01\x01\x01\x01\x01\x01\x01\x01u0";

// Its first 16 octets.
const CUT: &[u8] = b"\x10\x01\x01\x01\x01\x01\x01\x01\x01\x01\x01\x01\x01\x01\x01\x01";

// The Challenge of bng1 is written.
fn assert_challenge(rt: &impl Abort, chap: &Chap) {
    let mut frame = Frame::new();
    chap.challenge(b"bng1", &mut frame);
    assert_octets(rt, frame.payload(), CHALLENGE);
}

// Whether this is the proof of a Response with Identifier 5, whose Challenge begins with 9 and whose Value with 1.
fn is_response(proof: &Proof) -> bool {
    matches!(
        proof,
        Proof::Chap {
            id: 5,
            challenge: [9, ..],
            value: [1, ..]
        }
    )
}

// CHAP asks about u0.
fn ask_about_u0(rt: &impl Abort, chap: &mut Chap) {
    let credentials = asked(chap.on_frame(&packet(2, 5, RESPONSE))).expect(rt, "not asked");
    assert_octets(rt, credentials.name.as_slice(), b"u0");
    assert_holds(rt, is_response(&credentials.proof));
}

// CHAP refuses u0, and again where the Response comes again.
fn refuse_u0(rt: &impl Abort, chap: &mut Chap) {
    let failed = chap.on_verdict(false, b"hi");
    assert_same(rt, &(failed.code(), failed.id), &(4, 5));
    assert_holds(
        rt,
        matches!(&chap.on_frame(&packet(2, 5, RESPONSE)), AuthStep::Again(_)),
    );
}

#[test]
fn chap_takes_the_response_to_its_challenge(rt: HostRuntime) {
    let mut chap = Chap::ask(&[9; 16], 5);
    assert_challenge(&rt, &chap);
    assert_holds(&rt, chap_ignores(&mut chap, 6, RESPONSE));
    assert_holds(&rt, chap_ignores(&mut chap, 5, CUT));
    ask_about_u0(&rt, &mut chap);
    refuse_u0(&rt, &mut chap);
}

#[test]
fn replies_are_written_as_each_protocol_has_them(rt: HostRuntime) {
    let mut frame = Frame::new();
    reply(AuthKind::Pap, true, 7).write(&mut frame);
    assert_octets(&rt, frame.payload(), b"\x02\x07\x00\x07\x02hi");
    reply(AuthKind::Chap, false, 5).write(&mut frame);
    assert_octets(&rt, frame.payload(), b"\x04\x05\x00\x06hi");
}
