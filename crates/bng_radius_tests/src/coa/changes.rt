use crate::asserts::{assert_holds, assert_same};
use arrayvec::ArrayVec;
use bng_base::{Frame, Ip4, Peer};
use bng_coa::{Admitted, ChangeVerdict, CoaDesk, CoaRules, IgnoredRequest};
use std::alloc::Global;
use std::process::Abort;
use std::test::Fail;

const PEER: Peer = Peer {
    ip: Ip4(0x0a00_0001),
    port: 40000,
};

const STRANGER: Peer = Peer {
    ip: Ip4(0x0a00_0002),
    port: 40000,
};

// The CoA-Request of User-Name nemo, Acct-Session-Id 00000001 and Filter-Id gold that FreeRADIUS 3.2.1 sent, with a
// Message-Authenticator, under the secret xyzzy5461.
const CHANGE: &str =
    "2ba4003cacebcf5aafe792afe50a6236615cb59e01066e656d6f2c0a30303030303030310b06676f6c645012654031f869aa4f6ebec38ceea037e973";

// The Disconnect-Request of the same session that it sent.
const DISCONNECT: &str =
    "28b60030b4f3a9afd25f5f728b99a77a335d82242c0a30303030303030315012e6bcb59c0eb272fa4d0198f274484c93";

// A CoA-Request for a session that is not there, by Python's hashlib.
const UNKNOWN: &str = "2b0d0024aa4c7f2ec00a9be29ce7482700ffcb952c0a30303030303030390b06676f6c64";

fn rules() -> CoaRules {
    let mut peers = ArrayVec::new();
    peers.push(PEER.ip);
    let mut secret = ArrayVec::new();
    for octet in b"xyzzy5461" {
        if !secret.is_full() {
            secret.push(*octet);
        }
    }
    CoaRules { peers, secret }
}

// Requests, what is decided of each, and the replies by Python's hashlib and hmac.
const REPLIES: &[(&str, ChangeVerdict, &str)] = &[
    (
        CHANGE,
        ChangeVerdict::Applied,
        "2ca40026871180fc2ef71d01a496f6c911ff9a835012bacb10a5e7cada74c81936c189d7569b",
    ),
    (
        DISCONNECT,
        ChangeVerdict::Refused(503),
        "2ab6002c48ee3a63c12f1378538ef31c014974946506000001f7501214776f6a16d76ce194042f1f31730b89",
    ),
    (
        UNKNOWN,
        ChangeVerdict::Refused(503),
        "2d0d001a559dd4ee3600464768a43d213a7a644c6506000001f7",
    ),
];

// Admits a request where none is in hand, and writes its reply. It is new, and has the number 0.
fn answer(
    rt: &impl Abort,
    desk: &mut CoaDesk,
    request: &[u8],
    verdict: ChangeVerdict,
    frame: &mut Frame,
) {
    assert_holds(rt, desk.in_hand() == 0);
    match desk.admit(PEER, request, 1000, 1_700_000_000) {
        Admitted::New(number) => {
            assert_same(rt, &number, &0);
            desk.answer(number, verdict, frame);
        }
        _ => assert!(rt; false, "it is not new"),
    }
}

// Asserts that a request has this reply again, where none is in hand.
fn assert_repeated(rt: &impl Abort, desk: &mut CoaDesk, request: &[u8], frame: &Frame) {
    assert_holds(rt, desk.in_hand() == 0);
    match desk.admit(PEER, request, 30_999, 1_700_000_000) {
        Admitted::Repeat(again) => assert_same(rt, &again.payload(), &frame.payload()),
        _ => assert!(rt; false, "it is not repeated"),
    }
}

// Asserts the octets of a frame, in hexadecimal digits.
fn assert_payload(rt: &impl Abort, alloc: Global, frame: &Frame, octets: &str) -> Result<(), Fail> {
    let text = hex::encode(alloc, frame.payload())?;
    assert_same(rt, &text.as_str(), &octets);
    Ok(())
}

// Answers a request, in hexadecimal digits, with this reply, and once more.
fn answer_twice(
    rt: &impl Abort,
    alloc: Global,
    desk: &mut CoaDesk,
    request: &str,
    verdict: ChangeVerdict,
    reply: &str,
) -> Result<(), Fail> {
    let request = hex::decode(alloc, request)?;
    let mut frame = Frame::new();
    answer(rt, desk, request.as_slice(), verdict, &mut frame);
    assert_payload(rt, alloc, &frame, reply)?;
    assert_repeated(rt, desk, request.as_slice(), &frame);
    Ok(())
}

#[test]
fn answers_the_requests_of_another_client(rt: HostRuntime) -> Result<(), Fail> {
    let mut desk = CoaDesk::open(rt.alloc(), &rules())?;
    for (request, verdict, reply) in REPLIES {
        answer_twice(&rt, rt.alloc(), &mut desk, request, *verdict, reply)?;
    }
    Ok(())
}

// A Disconnect-Request with the Event-Timestamp 1,700,000,000, by Python's hashlib.
const STAMPED: &str = "280b00249132f9dd356ca7ec4b5c9c1de03311b12c0a303030303030303137066553f100";

// The same with one bit of its authenticator changed.
const CHANGED: &str = "280b00249133f9dd356ca7ec4b5c9c1de03311b12c0a303030303030303137066553f100";

// A Disconnect-ACK, which is no request.
const REPLY: &str = "29010014000000000000000000000000000000ff";

// Admits a datagram, in hexadecimal digits, at a second where none is in hand: the cause for which it is passed over, if it is.
fn cause(
    rt: &impl Abort,
    alloc: Global,
    desk: &mut CoaDesk,
    from: Peer,
    datagram: &str,
    wall: u64,
) -> Result<Option<IgnoredRequest>, Fail> {
    let octets = hex::decode(alloc, datagram)?;
    assert_holds(rt, desk.in_hand() == 0);
    match desk.admit(from, octets.as_slice(), 0, wall) {
        Admitted::Ignored(why) => Ok(Some(why)),
        _ => Ok(None),
    }
}

// Asserts that a datagram is passed over for this cause.
fn assert_ignored(
    rt: &impl Abort,
    alloc: Global,
    desk: &mut CoaDesk,
    datagram: &str,
    wall: u64,
    why: IgnoredRequest,
) -> Result<(), Fail> {
    assert_holds(
        rt,
        cause(rt, alloc, desk, PEER, datagram, wall)? == Some(why),
    );
    Ok(())
}

// Asserts that the request is new at the last second of those in which it is not stale, and then in hand.
fn take_in(rt: &impl Abort, desk: &mut CoaDesk, request: &[u8]) {
    assert_holds(rt, desk.in_hand() == 0);
    assert_holds(
        rt,
        matches!(
            desk.admit(PEER, request, 0, 1_700_000_300),
            Admitted::New(0)
        ),
    );
    assert_holds(rt, desk.in_hand() == 1);
    assert_holds(
        rt,
        matches!(
            desk.admit(PEER, request, 0, 1_700_000_300),
            Admitted::InHand
        ),
    );
}

// Datagrams, each with the second at which it comes, and the cause for which it is passed over.
const IGNORED: &[(&str, u64, IgnoredRequest)] = &[
    ("2b00", 0, IgnoredRequest::Malformed),
    (REPLY, 0, IgnoredRequest::Malformed),
    (CHANGED, 0, IgnoredRequest::WrongDigest),
    (STAMPED, 1_699_999_699, IgnoredRequest::Stale),
    (STAMPED, 1_700_000_301, IgnoredRequest::Stale),
];

#[test]
fn passes_datagrams_over_for_their_first_cause(rt: HostRuntime) -> Result<(), Fail> {
    let mut desk = CoaDesk::open(rt.alloc(), &rules())?;
    let stranger = cause(&rt, rt.alloc(), &mut desk, STRANGER, "", 0)?;
    assert_holds(&rt, stranger == Some(IgnoredRequest::Stranger));
    for (datagram, wall, why) in IGNORED {
        assert_ignored(&rt, rt.alloc(), &mut desk, datagram, *wall, *why)?;
    }
    let right = hex::decode(rt.alloc(), STAMPED)?;
    take_in(&rt, &mut desk, right.as_slice());
    Ok(())
}

// A CoA-Request with two Proxy-States and two States, and its CoA-NAK, by Python's hashlib.
const PROXIED: &str =
    "2b0c00348cc1de324454017d633e86924d23885b210470312c0a3030303030303032210470321b06000002581804737418047375";

const PROXIED_NAK: &str =
    "2d0c002614b18cf388807a0b203c91ebfcdbd9ca210470312104703218047374650600000191";

// Admits a request where none is in hand, and writes its refusal for an unsupported attribute.
fn refuse(rt: &impl Abort, desk: &mut CoaDesk, request: &[u8], frame: &mut Frame) {
    assert_holds(rt, desk.in_hand() == 0);
    match desk.admit(PEER, request, 0, 0) {
        Admitted::New(number) => desk.answer(number, ChangeVerdict::Refused(401), frame),
        _ => assert!(rt; false, "it is not new"),
    }
}

// Asserts that a request is new after 30 s, where none is in hand.
fn assert_new(rt: &impl Abort, desk: &mut CoaDesk, request: &[u8]) {
    assert_holds(rt, desk.in_hand() == 0);
    assert_holds(
        rt,
        matches!(desk.admit(PEER, request, 30_000, 0), Admitted::New(0)),
    );
}

#[test]
fn repeats_proxy_states_and_the_first_state(rt: HostRuntime) -> Result<(), Fail> {
    let mut desk = CoaDesk::open(rt.alloc(), &rules())?;
    let request = hex::decode(rt.alloc(), PROXIED)?;
    let mut frame = Frame::new();
    refuse(&rt, &mut desk, request.as_slice(), &mut frame);
    assert_payload(&rt, rt.alloc(), &frame, PROXIED_NAK)?;
    assert_new(&rt, &mut desk, request.as_slice());
    Ok(())
}
