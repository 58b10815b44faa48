//! Timeouts and intervals that CoA-Requests set (RFC 2865 sections 5.27 and 5.28, RFC 2869 section 5.16). The requests were made from the tables
//! of RFC 2865 and RFC 5176 by a script over Python's hashlib.
use super::authentication::stop;
use super::changes::{asks, packet_100, run_changes};
use super::disconnects::stops_have;
use super::{Ended, a_turn_later, has};
use crate::asserts::{assert_holds, assert_same};
use bng_base::Role;
use bng_plant::Arrival;
use std::alloc::Global;
use std::process::Abort;
use std::sync::Wait;
use std::test::Fail;
use std::thread::Threads;

/// Session-Timeouts of two seconds, of none and of one, and an Idle-Timeout of two seconds, for the circuit.
const SESSION_2: &str = "2b01002041b9721e0ee1ec3f8e339d1abb0a3adf08060a0000021b0600000002";

const SESSION_0: &str = "2b020020cc072dd9f8741350b98e005b4b5caeb308060a0000021b0600000000";

const SESSION_1: &str = "2b0400206637fa7f2e3c575d665f37df676ffbc208060a0000021b0600000001";

const IDLE_2: &str = "2b03002068ab4acb7b0c2e137dcd07a45f0ce26108060a0000021c0600000002";

const IDLE_0: &str = "2b0500205a35bbd0728c841ca1d8c7783ee961eb08060a0000021c0600000000";

/// Acct-Terminate-Causes (RFC 2866 section 5.10).
const IDLE_TIMEOUT: &[u8] = b"\x31\x06\x00\x00\x00\x04";

const SESSION_TIMEOUT: &[u8] = b"\x31\x06\x00\x00\x00\x05";

const NAS_REQUEST: &[u8] = b"\x31\x06\x00\x00\x00\x0a";

/// Acct-Session-Times of two and of three seconds.
const TWO: &[u8] = b"\x2e\x06\x00\x00\x00\x02";

const THREE: &[u8] = b"\x2e\x06\x00\x00\x00\x03";

/// A Session-Timeout of two seconds, and then packets in two turns: that of the turn in which it is over passes, and the next one does not.
fn packets_of_two_turns(alloc: Global) -> Result<Vec<Arrival>, Fail> {
    let mut script = Vec::new(alloc);
    script.push(asks(alloc, SESSION_2)?)?;
    script.push(a_turn_later())?;
    script.push(packet_100())?;
    script.push(a_turn_later())?;
    script.push(packet_100())?;
    script.push(stop(0))?;
    Ok(script)
}

/// A Session-Timeout of one second, which is over when it is set: it ends the term in the next turn.
fn over_when_set(alloc: Global) -> Result<Vec<Arrival>, Fail> {
    let mut script = Vec::new(alloc);
    script.push(asks(alloc, SESSION_1)?)?;
    script.push(stop(3))?;
    Ok(script)
}

/// A run with this script, in which the turns are a second apart, sends Stops of a term that its Session-Timeout ended after two seconds.
fn times_out<R: Threads + Wait + Sync + Abort>(
    rt: &R,
    alloc: Global,
    script: Vec<Arrival>,
) -> Result<Ended, Fail> {
    let ended = run_changes(rt, alloc, script, 1000)?;
    stops_have(rt, &ended, SESSION_TIMEOUT);
    stops_have(rt, &ended, TWO);
    Ok(ended)
}

/// The circuit's term begins a second before the first turn, and the turns are a second apart.
#[test]
fn a_session_timeout_counts_from_the_lease(rt: HostRuntime) -> Result<(), Fail> {
    let alloc = rt.alloc();
    let ended = times_out(&rt, alloc, packets_of_two_turns(alloc)?)?;
    assert_holds(&rt, has(ended.out.text(), b"stopped in=100 out=0\n"));
    assert_holds(&rt, has(ended.out.text(), b"drop NotOpen 1\n"));
    let _ended = times_out(&rt, alloc, over_when_set(alloc)?)?;
    Ok(())
}

/// An Idle-Timeout of two seconds with a packet, and `stop` four waits later.
fn one_packet(alloc: Global) -> Result<Vec<Arrival>, Fail> {
    let mut script = Vec::new(alloc);
    script.push(asks(alloc, IDLE_2)?)?;
    script.push(packet_100())?;
    script.push(stop(4))?;
    Ok(script)
}

#[test]
fn an_idle_timeout_counts_from_the_last_packet(rt: HostRuntime) -> Result<(), Fail> {
    let alloc = rt.alloc();
    let ended = run_changes(&rt, alloc, one_packet(alloc)?, 1000)?;
    stops_have(&rt, &ended, IDLE_TIMEOUT);
    stops_have(&rt, &ended, THREE);
    Ok(())
}

/// Where these two requests come in one turn, the term ends at the stop.
fn ends_at_stop<R: Threads + Wait + Sync + Abort>(
    rt: &R,
    alloc: Global,
    first: &str,
    second: &str,
) -> Result<(), Fail> {
    let mut script = Vec::new(alloc);
    script.push(asks(alloc, first)?)?;
    script.push(asks(alloc, second)?)?;
    script.push(stop(4))?;
    let ended = run_changes(rt, alloc, script, 1000)?;
    stops_have(rt, &ended, NAS_REQUEST);
    Ok(())
}

#[test]
fn a_timeout_of_0_is_none(rt: HostRuntime) -> Result<(), Fail> {
    let alloc = rt.alloc();
    ends_at_stop(&rt, alloc, SESSION_2, SESSION_0)?;
    ends_at_stop(&rt, alloc, IDLE_2, IDLE_0)
}

/// Acct-Interim-Intervals of an hour, and of 30 seconds, which are taken as 60.
const HOURLY: &str = "2b010020eab0de9355f81af878fe8dbbb85b70f008060a000002550600000e10";

const EACH_30: &str = "2b0200206f5c576a1417486087136918cb4a03f308060a00000255060000001e";

/// How many Interims a run sent before it answered on Control.
fn interims_before_stop(ended: &Ended) -> usize {
    let sent = ended.plant.sent().iter();
    let before = sent.take_while(|datagram| datagram.role != Role::Control);
    before
        .filter(|datagram| {
            datagram.role == Role::Acct
                && has(datagram.octets.as_slice(), b"\x28\x06\x00\x00\x00\x03")
        })
        .count()
}

/// Where the turns are so many milliseconds apart, a run sends so many Interims before the stop.
fn sends_interims<R: Threads + Wait + Sync + Abort>(
    rt: &R,
    alloc: Global,
    step: u64,
    interims: usize,
) -> Result<(), Fail> {
    let mut script = Vec::new(alloc);
    script.push(asks(alloc, HOURLY)?)?;
    script.push(a_turn_later())?;
    script.push(asks(alloc, EACH_30)?)?;
    script.push(stop(0))?;
    let ended = run_changes(rt, alloc, script, step)?;
    assert_same(rt, &interims_before_stop(&ended), &interims);
    Ok(())
}

#[test]
fn an_interim_is_due_by_the_interval_that_was_set(rt: HostRuntime) -> Result<(), Fail> {
    let alloc = rt.alloc();
    // The second request comes twice these milliseconds after the lease: an Interim that was due in an hour is due then, or not yet.
    sends_interims(&rt, alloc, 29_999, 0)?;
    sends_interims(&rt, alloc, 30_000, 1)
}
