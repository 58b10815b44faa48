//! Logins of a host. The Access-Requests and the replies to them were made from the tables of RFC 2865 and RFC 2869 by a script over
//! Python's hashlib and hmac. What is random in them an independent ChaCha20 gives: sixteen octets for the key of the cookies, for each
//! item, and then for the request.
use super::host::{ACK, ACKED, ASKED, PADS, REQUEST, SESSIONS, from_host, session};
use super::running::{SERVE, run_by, run_over};
use super::sent::{OVER, STOPPING, Sent, sends_list, sends_list_from};
use super::{Ended, accounts, assert_status, loopback, others};
use crate::asserts::assert_same;
use bng_base::Role;
use bng_plant::{Arrival, MemoryPlant};
use std::alloc::{AllocError, Global};
use std::process::Abort;
use std::sync::Wait;
use std::test::Fail;
use std::thread::Threads;

/// Hosts authenticate themselves by PAP, and a request is sent twice.
pub(super) const PAP: &str = r#"[gateway]
name = "bng1"
address = "10.0.0.1"
nas_ip = "192.168.1.16"
auth = ["pap"]
[core]
local = "127.0.0.1:9000"
peer = "127.0.0.1:9001"
[control]
local = "127.0.0.1:9002"
[radius]
auth_local = "127.0.0.1:9003"
auth_server = "127.0.0.1:1812"
acct_local = "127.0.0.1:9004"
acct_server = "127.0.0.1:1813"
secret = "xyzzy5461"
tries = 2
[[access]]
local = "127.0.0.1:9010"
peer = "127.0.0.1:9011"
mac = "02:00:00:00:00:fe"
[[pool]]
name = "main"
first = "10.0.0.2"
last = "10.0.0.101"
"#;

/// The gateway's Configure-Request for PAP, and the host's Configure-Ack.
pub(super) const PAP_ASKED: &[u8] =
    b"\xc0\x21\x01\x01\x00\x12\x01\x04\x05\xd4\x03\x04\xc0\x23\x05\x06\xa1\xb2\xc3\xd4";

pub(super) const PAP_ACK: &[u8] =
    b"\xc0\x21\x02\x01\x00\x12\x01\x04\x05\xd4\x03\x04\xc0\x23\x05\x06\xa1\xb2\xc3\xd4";

/// Authenticate-Requests 7 and 8 of nemo with arctangent, as in RFC 2865 section 7.1, and their Authenticate-Acks.
pub(super) const PASSWORD: &[u8] = b"\xc0\x23\x01\x07\x00\x14\x04nemo\x0aarctangent";

const PASSWORD_8: &[u8] = b"\xc0\x23\x01\x08\x00\x14\x04nemo\x0aarctangent";

pub(super) const PASSED: &[u8] = b"\xc0\x23\x02\x07\x00\x05\x00";

const PASSED_8: &[u8] = b"\xc0\x23\x02\x08\x00\x05\x00";

/// The Authenticate-Nak after the last try.
const TIMED_OUT: &[u8] = b"\xc0\x23\x03\x07\x00\x0c\x07timeout";

/// The gateway's Terminate-Request, and the host's Terminate-Ack.
pub(super) const TERMINATE: &[u8] = b"\xc0\x21\x05\x02\x00\x04";

const TERMINATED: &[u8] = b"\xc0\x21\x06\x02\x00\x04";

/// The host's Terminate-Request, and the gateway's Terminate-Ack.
pub(super) const LEAVES: &[u8] = b"\xc0\x21\x05\x09\x00\x04";

pub(super) const LEFT: &[u8] = b"\xc0\x21\x06\x09\x00\x04";

/// The gateway's Configure-Request of IPCP, with its own address (RFC 1332 section 3.3).
pub(super) const OWN_ADDRESS: &[u8] = b"\x80\x21\x01\x01\x00\x0a\x03\x06\x0a\x00\x00\x01";

/// The Access-Request for the password.
pub(super) const PAP_REQUEST: &str =
    "0100008b0c1093ed415b8f3a8ae844ff5e9aad7f01066e656d6f0212053df1e34af862be8097acd947e051350406c0a80110050600000c010606000000020706000000011f1330323a30303a30303a30303a30303a30312006626e67313d06000000055012db1fac27eca6df1d7314cb78cfac81db571670312f3032303030303030303030312f33303733";

/// Replies to it: an Access-Accept, and an Access-Reject.
pub(super) const ACCEPT: &str = "02000014d1d08e7dcc0dcd18335311dc3b5a22c8";

const REJECT: &str = "030000149310a318559c60d3dcd77ef016d42946";

/// Datagrams that are no replies to it, with the ports that they come from.
const IGNORED: &[(u16, &str)] = &[
    // the Access-Reject from elsewhere
    (1813, REJECT),
    // with Identifier 1
    (1812, "0301001475658240c07de9b4c6bcce59fe4761c4"),
    // with one octet changed
    (1812, "030000149310a318559c60d3dcd77ef016d42947"),
    // with a Message-Authenticator of zeros
    (
        1812,
        "03000026eb3636b4405a0b3e2b26ee41df045773501200000000000000000000000000000000",
    ),
    // with Length 19
    (1812, "03000013c447e5c592e22132208a7901260d39cd"),
    // of one octet
    (1812, "03"),
    // an Accounting-Response
    (1812, "05000014cb30912692fb1b56a21533c46496bc39"),
];

/// Replies that refuse the host, and its Authenticate-Nak.
const REFUSALS: &[(&str, &[u8])] = &[
    (REJECT, b"\xc0\x23\x03\x07\x00\x05\x00"),
    // an Access-Challenge with a State and a Reply-Message
    (
        "0b00001beb5b2a7c71d65ad87b9b702d9b0b94871803aa12046869",
        b"\xc0\x23\x03\x07\x00\x07\x02hi",
    ),
    // an Access-Accept with the Service-Type Login
    (
        "0200001a2e3f656673f0c2ae4de92cc72165dbd9060600000001",
        b"\xc0\x23\x03\x07\x00\x05\x00",
    ),
];

/// The Challenge, whose Value is drawn for the third item.
const CHALLENGE: &[u8] =
    b"\xc2\x23\x01\x01\x00\x19\x10\x0f\x1a\x32\xf7\xa9\x43\x65\x25\x36\xaa\x79\x4a\xfb\x7f\x30\xa0bng1";

/// The Response of nemo with arctangent: the MD5 of 01, arctangent and the Challenge's Value (RFC 1994 section 4.1).
const RESPONSE: &[u8] =
    b"\xc2\x23\x02\x01\x00\x19\x10\xfd\xa5\x7f\x75\xc8\xa4\xed\x91\x54\x73\x93\x47\xe2\xf9\x0f\x36nemo";

/// The Access-Request for it, and an Access-Reject with the Reply-Message no and a Message-Authenticator.
const CHAP_REQUEST: &str =
    "0100009e0c1093ed415b8f3a8ae844ff5e9aad7f01066e656d6f031301fda57f75c8a4ed9154739347e2f90f360406c0a80110050600000c010606000000020706000000011f1330323a30303a30303a30303a30303a30312006626e67313c120f1a32f7a943652536aa794afb7f30a03d06000000055012410627d3e044f940df562377a69fb512571670312f3032303030303030303030312f33303733";

const CHAP_REJECT: &str =
    "0300002ade9a116bd3d0e3721e4a23409e84351c12046e6f5012cffb28bf9630bd5e487743dd50252e1e";

/// The Failure.
const FAILURE: &[u8] = b"\xc2\x23\x04\x01\x00\x06no";

/// A host asks for a session, brings LCP to Opened with PAP and sends its password, all in one turn.
pub(super) fn begun(alloc: Global) -> Result<Vec<Arrival>, AllocError> {
    let heard: [&[u8]; 3] = [&REQUEST, PAP_ACK, PASSWORD];
    session(alloc, &heard)
}

/// A datagram to Auth from this port of 127.0.0.1.
pub(super) fn reply(alloc: Global, port: u16, octets: &str) -> Result<Arrival, Fail> {
    let octets = hex::decode(alloc, octets)?;
    Ok(Arrival::new(Role::Auth, loopback(port), octets.as_slice()))
}

/// `stop`, so many waits later.
pub(super) fn stop(waits: u32) -> Arrival {
    Arrival::new(Role::Control, loopback(5), b"stop").after(waits)
}

/// A run over PAP, at moments that are so many milliseconds apart. The calls of the plant with these numbers fail.
fn run_pap<R: Threads + Wait + Sync>(
    rt: &R,
    alloc: Global,
    script: Vec<Arrival>,
    step: u64,
    fails: &[u64],
) -> Result<Ended, AllocError> {
    let plant = MemoryPlant::new(alloc, script, fails.to_vec(alloc)?, 64)?;
    run_by(rt, alloc, PAP, plant, step)
}

/// A run over PAP ended with this status. It sent what a password brings about until its Access-Request went out, and then these, not
/// counting the records of accounting.
pub(super) fn sends_after(
    rt: &impl Abort,
    alloc: Global,
    ended: &Ended,
    status: u8,
    rest: &[Sent<'_>],
) -> Result<(), Fail> {
    assert_status(rt, ended, status);
    assert_same(rt, &others(ended).saturating_sub(4), &rest.len());
    sends_list_from(rt, alloc, ended, 0, QUESTION)?;
    sends_list_from(rt, alloc, ended, 4, rest)
}

/// What a password brings about until its Access-Request goes out.
const QUESTION: &[Sent] = &[
    Sent::Octets(Role::Access(1), 9011, &PADS),
    Sent::ToHost(PAP_ASKED),
    Sent::ToHost(&ACKED),
    AGAIN,
];

/// The Access-Request.
const AGAIN: Sent = Sent::Digits(Role::Auth, 1812, PAP_REQUEST);

/// Another password comes while the first is asked about, and after its reply.
fn two_passwords(alloc: Global) -> Result<Vec<Arrival>, Fail> {
    let mut script = begun(alloc)?;
    script.push(from_host(alloc, PASSWORD_8)?.after(1))?;
    for (port, octets) in IGNORED {
        script.push(reply(alloc, *port, *octets)?)?;
    }
    script.push(reply(alloc, 1812, ACCEPT)?)?;
    script.push(reply(alloc, 1812, ACCEPT)?)?;
    script.push(reply(alloc, 1812, REJECT)?)?;
    script.push(from_host(alloc, PASSWORD_8)?)?;
    script.push(stop(3))?;
    Ok(script)
}

/// What is sent once the reply has come. The server says nothing to the Start and the Stop of the term that began.
const BOTH_PASSED: &[Sent] = &[
    Sent::ToHost(PASSED),
    Sent::ToHost(OWN_ADDRESS),
    Sent::ToHost(PASSED_8),
    STOPPING,
    OVER,
];

#[test]
fn a_password_is_asked_about_and_accepted(rt: HostRuntime) -> Result<(), Fail> {
    let alloc = rt.alloc();
    let ended = run_pap(&rt, alloc, two_passwords(alloc)?, 10, &[])?;
    sends_after(&rt, alloc, &ended, 6, BOTH_PASSED)
}

/// Where the server sends this, the host hears this Authenticate-Nak, and its link ends.
fn is_refused<R: Threads + Wait + Sync + Abort>(
    rt: &R,
    alloc: Global,
    octets: &str,
    nak: &[u8],
) -> Result<(), Fail> {
    let mut script = begun(alloc)?;
    script.push(reply(alloc, 1812, octets)?)?;
    script.push(stop(0))?;
    let ended = run_pap(rt, alloc, script, 10, &[])?;
    let rest = [Sent::ToHost(nak), Sent::ToHost(TERMINATE), STOPPING, OVER];
    sends_after(rt, alloc, &ended, 0, &rest)
}

#[test]
fn a_refused_password_ends_the_link(rt: HostRuntime) -> Result<(), Fail> {
    let alloc = rt.alloc();
    for (octets, nak) in REFUSALS {
        is_refused(&rt, alloc, *octets, nak)?;
    }
    Ok(())
}

/// A run over PAP at moments 1,000 ms apart whose server is silent, with `stop` after so many waits. After the Access-Request it sends
/// these.
fn silent<R: Threads + Wait + Sync + Abort>(
    rt: &R,
    alloc: Global,
    waits: u32,
    rest: &[Sent<'_>],
) -> Result<(), Fail> {
    let mut script = begun(alloc)?;
    script.push(stop(waits))?;
    let ended = run_pap(rt, alloc, script, 1000, &[])?;
    sends_after(rt, alloc, &ended, 0, rest)
}

/// After how many waits `stop` comes, and what is sent after the Access-Request.
const SILENCES: &[(u32, &[Sent])] = &[
    // 2,000 ms after the request: the turn of the ending, at 3,000 ms, sends it again
    (1, &[STOPPING, OVER, AGAIN]),
    // at 3,000 ms
    (2, &[STOPPING, AGAIN, OVER]),
    // at 5,000 ms
    (4, &[AGAIN, STOPPING, OVER]),
    // at 6,000 ms
    (
        5,
        &[
            AGAIN,
            STOPPING,
            Sent::ToHost(TIMED_OUT),
            Sent::ToHost(TERMINATE),
            OVER,
        ],
    ),
];

#[test]
fn a_silent_server_is_asked_again_and_given_up(rt: HostRuntime) -> Result<(), Fail> {
    let alloc = rt.alloc();
    for (waits, rest) in SILENCES {
        silent(&rt, alloc, *waits, rest)?;
    }
    Ok(())
}

/// The first reply comes 1,000 ms after the request, and the second one at 5,000 ms: at 3,000 ms the request is sent again.
fn two_replies(alloc: Global) -> Result<Vec<Arrival>, Fail> {
    let mut script = begun(alloc)?;
    script.push(reply(alloc, 1812, REJECT)?)?;
    script.push(reply(alloc, 1812, ACCEPT)?.after(3))?;
    script.push(stop(0))?;
    Ok(script)
}

const HAS_PASSED: &[Sent] = &[
    Sent::ToHost(PASSED),
    Sent::ToHost(OWN_ADDRESS),
    STOPPING,
    OVER,
];

#[test]
fn a_request_that_did_not_go_has_no_reply(rt: HostRuntime) -> Result<(), Fail> {
    let alloc = rt.alloc();
    // Five binds, the receives of Control, of Acct, of Auth, five times of the access port and of the core, the sends of three frames,
    // and then that of the request.
    let ended = run_pap(&rt, alloc, two_replies(alloc)?, 1000, &[18])?;
    assert_same(&rt, &ended.plant.faults(), &1);
    sends_after(&rt, alloc, &ended, 6, HAS_PASSED)
}

/// The reply of the server stands before the host's frame.
fn leaves_with_reply(alloc: Global) -> Result<Vec<Arrival>, Fail> {
    let mut script = begun(alloc)?;
    script.push(reply(alloc, 1812, ACCEPT)?)?;
    script.push(from_host(alloc, LEAVES)?)?;
    script.push(stop(0))?;
    Ok(script)
}

/// That of no reply, 6,000 ms after the request, stands behind it.
fn leaves_with_none(alloc: Global) -> Result<Vec<Arrival>, Fail> {
    let mut script = begun(alloc)?;
    script.push(from_host(alloc, LEAVES)?.after(5))?;
    script.push(stop(0))?;
    Ok(script)
}

/// What is sent then.
const LEFT_WITH_REPLY: &[Sent] = &[
    Sent::ToHost(PASSED),
    Sent::ToHost(OWN_ADDRESS),
    Sent::ToHost(LEFT),
    STOPPING,
    OVER,
];

const LEFT_WITH_NONE: &[Sent] = &[AGAIN, Sent::ToHost(LEFT), STOPPING, OVER];

#[test]
fn a_host_leaves_in_the_round_of_its_verdict(rt: HostRuntime) -> Result<(), Fail> {
    let alloc = rt.alloc();
    let ended = run_pap(&rt, alloc, leaves_with_reply(alloc)?, 10, &[])?;
    sends_after(&rt, alloc, &ended, 6, LEFT_WITH_REPLY)?;
    // The term began and ended in one round: behind the four sends of the first turn and the three of that round stand its Stop, with
    // the cause User Request, and its Start.
    accounts(
        &rt,
        &ended,
        7,
        &[b"\x28\x06\x00\x00\x00\x02", b"\x31\x06\x00\x00\x00\x01"],
    );
    accounts(&rt, &ended, 8, &[b"\x28\x06\x00\x00\x00\x01"]);
    let ended = run_pap(&rt, alloc, leaves_with_none(alloc)?, 1000, &[])?;
    sends_after(&rt, alloc, &ended, 0, LEFT_WITH_NONE)
}

/// A host brings LCP to Opened with CHAP and sends its response, which is refused.
fn responds(alloc: Global) -> Result<Vec<Arrival>, Fail> {
    let heard: [&[u8]; 3] = [&REQUEST, &ACK, RESPONSE];
    let mut script = session(alloc, &heard)?;
    script.push(reply(alloc, 1812, CHAP_REJECT)?)?;
    script.push(from_host(alloc, TERMINATED)?.after(1))?;
    script.push(stop(0))?;
    Ok(script)
}

const NOT_PASSED: &[Sent] = &[
    Sent::Octets(Role::Access(1), 9011, &PADS),
    Sent::ToHost(&ASKED),
    Sent::ToHost(&ACKED),
    Sent::ToHost(CHALLENGE),
    Sent::Digits(Role::Auth, 1812, CHAP_REQUEST),
    Sent::ToHost(FAILURE),
    Sent::ToHost(TERMINATE),
    OVER,
    STOPPING,
];

#[test]
fn a_response_is_asked_about_and_refused(rt: HostRuntime) -> Result<(), Fail> {
    let alloc = rt.alloc();
    let ended = run_over(&rt, alloc, &SERVE, SESSIONS, responds(alloc)?, &[], &[])?;
    assert_status(&rt, &ended, 0);
    sends_list(&rt, alloc, &ended, NOT_PASSED)
}
