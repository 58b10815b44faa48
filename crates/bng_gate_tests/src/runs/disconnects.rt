//! Disconnect-Requests (RFC 5176 section 2.1), and requests about hosts that log in. The requests and the replies were made from the tables of
//! RFC 2865 and RFC 5176 by a script over Python's hashlib.
use super::authentication::{
    ACCEPT, LEAVES, LEFT, OWN_ADDRESS, PAP, PASSED, TERMINATE, begun, reply, sends_after, stop,
};
use super::changes::{asks, packet_100, replies, run_changes, with_changes};
use super::host::from_host;
use super::logins::run_in;
use super::sent::{OVER, STOPPING, Sent};
use super::{Ended, a_turn_later, assert_err, assert_status, has};
use crate::asserts::assert_holds;
use bng_base::Role;
use bng_plant::Arrival;
use std::alloc::Global;
use std::process::Abort;
use std::sync::Wait;
use std::test::Fail;
use std::thread::Threads;

/// Acct-Status-Type Stop (RFC 2866 section 5.1).
const STOP: &[u8] = b"\x28\x06\x00\x00\x00\x02";

/// The Acct-Terminate-Causes User Request and Admin Reset (RFC 2866 section 5.10).
const USER_REQUEST: &[u8] = b"\x31\x06\x00\x00\x00\x01";

const ADMIN_RESET: &[u8] = b"\x31\x06\x00\x00\x00\x06";

/// A run sent Stops, and each has this attribute.
pub(super) fn stops_have(rt: &impl Abort, ended: &Ended, attribute: &[u8]) {
    let sent = ended.plant.sent().iter();
    let records = sent.filter(|datagram| datagram.role == Role::Acct);
    let mut stops = 0;
    for record in records {
        let octets = record.octets.as_slice();
        if has(octets, STOP) {
            assert_holds(rt, has(octets, attribute));
            stops = 1;
        }
    }
    assert_holds(rt, stops == 1);
}

/// Disconnect-Requests about the circuit, by its address and by its Acct-Session-Id.
const BY_ADDRESS: &str = "2801001a67d8ac8d5aaaaf45c996294fc62e597708060a000002";

const BY_SESSION: &str =
    "2802002e2cd043697509f02108a66a218682c3a22c1a363535336631303030343031303030303030303030303031";

/// The first packet passes; the next one comes in the round of the request, and the last one after it.
fn two_requests(alloc: Global) -> Result<Vec<Arrival>, Fail> {
    let mut script = Vec::new(alloc);
    script.push(packet_100())?;
    script.push(a_turn_later())?;
    script.push(asks(alloc, BY_ADDRESS)?)?;
    script.push(packet_100())?;
    script.push(a_turn_later())?;
    script.push(asks(alloc, BY_SESSION)?)?;
    script.push(packet_100())?;
    script.push(stop(0))?;
    Ok(script)
}

/// The replies. There is no session for the second request any more.
const TWO_REPLIES: &[&str] = &[
    "290100143a1ce75fd75b86922ee97c8f5cdec9de",
    "2a02001a00533886fb3c54f0542bbf7c81c3406a6506000001f7",
];

#[test]
fn a_circuit_is_disconnected_by_its_address(rt: HostRuntime) -> Result<(), Fail> {
    let alloc = rt.alloc();
    let ended = run_changes(&rt, alloc, two_requests(alloc)?, 10)?;
    assert_status(&rt, &ended, 6);
    assert_err(
        &rt,
        &ended,
        b"stop 6553f1000401000000000001 p1/020000000001/1025 10.0.0.2 in=100 out=0\n",
    );
    assert_holds(&rt, has(ended.out.text(), b"drop NotOpen 2\n"));
    stops_have(&rt, &ended, ADMIN_RESET);
    replies(&rt, alloc, &ended, TWO_REPLIES)
}

/// A CoA-Request that brings the host's term to the profile gold, by the Acct-Session-Id of its first term, and its replies.
const TO_GOLD: &str =
    "2b010034cf61935d4bdc16c8afd75df8e66e09b72c1a3635353366313030306330313030303030303030303030310b06676f6c64";

const GOLD: &str = "2c010014e07fb567f9efbe0f0112a84867bb296f";

const NO_SESSION: &str = "2d01001af778fce3a548daaec7e238aeb46acba36506000001f7";

/// A run over hosts that authenticate themselves by PAP.
fn run_hosts<R: Threads + Wait + Sync>(
    rt: &R,
    alloc: Global,
    script: Vec<Arrival>,
) -> Result<Ended, Fail> {
    let configuration = with_changes(alloc, PAP)?;
    Ok(run_in(rt, alloc, configuration.as_str(), script, 10)?)
}

/// The request comes with the host's Terminate-Request and is handled first.
fn together(alloc: Global) -> Result<Vec<Arrival>, Fail> {
    let mut script = begun(alloc)?;
    script.push(reply(alloc, 1812, ACCEPT)?)?;
    script.push(asks(alloc, TO_GOLD)?)?;
    script.push(from_host(alloc, LEAVES)?)?;
    script.push(stop(0))?;
    Ok(script)
}

/// It comes a round after it.
fn apart(alloc: Global) -> Result<Vec<Arrival>, Fail> {
    let mut script = begun(alloc)?;
    script.push(reply(alloc, 1812, ACCEPT)?)?;
    script.push(a_turn_later())?;
    script.push(from_host(alloc, LEAVES)?)?;
    script.push(asks(alloc, TO_GOLD)?)?;
    script.push(stop(0))?;
    Ok(script)
}

/// What is sent then.
const CHANGED: &[Sent] = &[
    Sent::ToHost(PASSED),
    Sent::ToHost(OWN_ADDRESS),
    Sent::ToHost(LEFT),
    Sent::Digits(Role::Coa, 3798, GOLD),
    STOPPING,
    OVER,
];

const NOT_CHANGED: &[Sent] = &[
    Sent::ToHost(PASSED),
    Sent::ToHost(OWN_ADDRESS),
    Sent::ToHost(LEFT),
    Sent::Digits(Role::Coa, 3798, NO_SESSION),
    STOPPING,
    OVER,
];

/// A run with this script ends with status 6. After the Access-Request it sends these, and its Stops have the cause User Request.
fn leaves<R: Threads + Wait + Sync + Abort>(
    rt: &R,
    alloc: Global,
    script: Vec<Arrival>,
    rest: &[Sent<'_>],
) -> Result<(), Fail> {
    let ended = run_hosts(rt, alloc, script)?;
    sends_after(rt, alloc, &ended, 6, rest)?;
    stops_have(rt, &ended, USER_REQUEST);
    Ok(())
}

#[test]
fn a_term_is_changed_in_the_round_in_which_its_host_leaves(rt: HostRuntime) -> Result<(), Fail> {
    let alloc = rt.alloc();
    leaves(&rt, alloc, together(alloc)?, CHANGED)?;
    leaves(&rt, alloc, apart(alloc)?, NOT_CHANGED)
}

/// Two Disconnect-Requests about the address 10.0.0.2.
const FIRST: &str = "2801001a67d8ac8d5aaaaf45c996294fc62e597708060a000002";

const SECOND: &str = "2802001ab8112ad96c9762e278568029bdad662008060a000002";

/// The first request comes with the Access-Accept and stands before it, the second one in the next turn.
fn around_accept(alloc: Global) -> Result<Vec<Arrival>, Fail> {
    let mut script = begun(alloc)?;
    script.push(asks(alloc, FIRST)?)?;
    script.push(reply(alloc, 1812, ACCEPT)?)?;
    script.push(asks(alloc, SECOND)?)?;
    script.push(stop(0))?;
    Ok(script)
}

/// What is sent then.
const DISCONNECTED: &[Sent] = &[
    Sent::ToHost(PASSED),
    Sent::ToHost(OWN_ADDRESS),
    Sent::Digits(
        Role::Coa,
        3798,
        "2a01001a5f11d318cabd4264ad7999a0f6a69b936506000001f7",
    ),
    Sent::ToHost(TERMINATE),
    Sent::Digits(Role::Coa, 3798, "2902001449a88d160a686905d31fcd5893f9dc69"),
    STOPPING,
    OVER,
];

#[test]
fn an_address_that_is_claimed_in_the_round_leads_nowhere_yet(rt: HostRuntime) -> Result<(), Fail> {
    let alloc = rt.alloc();
    let ended = run_hosts(&rt, alloc, around_accept(alloc)?)?;
    sends_after(&rt, alloc, &ended, 6, DISCONNECTED)?;
    stops_have(&rt, &ended, ADMIN_RESET);
    Ok(())
}
