//! How a run ends that does not come to its report.
use super::running::{SERVE, run_over, run_told, seed};
use super::{
    CONFIGURATION, Ended, PACKET, TWO_PORTS, assert_err, assert_sent, assert_status,
    frame_and_stop, loopback,
};
use crate::asserts::{assert_holds, assert_same};
use bng_base::Role;
use bng_plant::{MemoryEntropy, MemoryPlant, MemoryTrace, NoTrace, Trace};
use std::alloc::{AllocError, Global};
use std::process::Abort;
use std::sync::Wait;
use std::test::Fail;
use std::thread::Threads;

const NO_SESSION: &str = r#"[gateway]
name = "bng1"
address = "10.0.0.1"
nas_ip = "192.168.1.16"
[core]
local = "127.0.0.1:9000"
peer = "127.0.0.1:9001"
[control]
local = "127.0.0.1:9002"
[radius]
auth_local = "127.0.0.1:9003"
auth_server = "127.0.0.1:1812"
acct_local = "127.0.0.1:9004"
acct_server = "127.0.0.1:1813"
secret = "xyzzy5461"
[[access]]
local = "127.0.0.1:9010"
peer = "127.0.0.1:9011"
mac = "02:00:00:00:00:fe"
[[pool]]
name = "main"
first = "10.0.0.2"
last = "10.0.0.101"
[[static]]
port = 1
mac = "02:00:00:00:00:01"
session = 1023
address = "10.0.0.2"
user = "fixed1"
"#;

const USAGE: &[u8] =
    b"usage: bng serve CONFIG [--trace FILE] [--rounds N] | check CONFIG | exercise N [--workers W] | audit FILE\n";

/// Words, which calls of the plant fail, and the status and the line of the run.
const LINES: &[(&[&str], &[u64], u8, &[u8])] = &[
    (&[], &[], 1, USAGE),
    (
        &["serve", "missing.toml"],
        &[],
        3,
        b"bng: cannot open configuration\n",
    ),
    (&SERVE, &[2], 3, b"bng: cannot open core\n"),
    (&SERVE, &[4], 3, b"bng: cannot open auth\n"),
    (&SERVE, &[5], 3, b"bng: cannot open acct\n"),
];

/// A run of these words over this configuration, in which the calls of the plant with these numbers fail, ends with this status and this
/// line.
fn has_line<R: Threads + Wait + Sync + Abort>(
    rt: &R,
    alloc: Global,
    words: &[&str],
    configuration: &str,
    fails: &[u64],
    status: u8,
    line: &[u8],
) -> Result<(), Fail> {
    let script = Vec::new(alloc);
    let ended = run_over(rt, alloc, words, configuration, script, fails, &[])?;
    assert_status(rt, &ended, status);
    assert_err(rt, &ended, line);
    Ok(())
}

#[test]
fn each_status_has_its_line(rt: HostRuntime) -> Result<(), Fail> {
    let alloc = rt.alloc();
    for (words, fails, status, line) in LINES {
        has_line(&rt, alloc, words, CONFIGURATION, fails, *status, line)?;
    }
    let line = b"bng: config: C6 static.1.session\n";
    has_line(&rt, alloc, &SERVE, NO_SESSION, &[], 2, line)?;
    let line = b"bng: cannot open access 2\n";
    has_line(&rt, alloc, &SERVE, TWO_PORTS, &[4], 3, line)?;
    let script = frame_and_stop(alloc, &PACKET)?;
    let unwritten = run_over(&rt, alloc, &SERVE, CONFIGURATION, script, &[], &[1])?;
    assert_status(&rt, &unwritten, 5);
    assert_err(&rt, &unwritten, b"bng: output failed\n");
    Ok(())
}

/// What stands in place of a part of the configuration, and the line that tells the fault.
const FAULTS: &[(&str, &str, &[u8])] = &[
    (
        "[core]",
        "shards = 0\n[core]",
        b"bng: config: C6 gateway.shards\n",
    ),
    (
        "[[static]]",
        "speed = 1\n[[static]]",
        b"bng: config: C3 pool.1.speed\n",
    ),
];

/// A run over the configuration with this fault in place of this part sends nothing and ends with status 2 and this line.
fn is_told<R: Threads + Wait + Sync + Abort>(
    rt: &R,
    alloc: Global,
    place: &str,
    faulty: &str,
    line: &[u8],
) -> Result<(), Fail> {
    let text = CONFIGURATION.replace(alloc, place, faulty)?;
    let script = Vec::new(alloc);
    let refused = run_over(rt, alloc, &SERVE, text.as_str(), script, &[], &[])?;
    assert_status(rt, &refused, 2);
    assert_err(rt, &refused, line);
    assert_sent(rt, &refused, 0);
    Ok(())
}

#[test]
fn a_fault_of_the_configuration_is_told(rt: HostRuntime) -> Result<(), Fail> {
    let alloc = rt.alloc();
    for (place, faulty, line) in FAULTS {
        is_told(&rt, alloc, place, faulty, line)?;
    }
    Ok(())
}

/// A run over a packet of the circuit and `stop`, with this source and this trace.
fn run_packet<R: Threads + Wait + Sync, T: Trace>(
    rt: &R,
    alloc: Global,
    source: MemoryEntropy,
    trace: &mut T,
) -> Result<Ended, AllocError> {
    let script = frame_and_stop(alloc, &PACKET)?;
    let plant = MemoryPlant::new(alloc, script, Vec::new(alloc), 64)?;
    run_told(rt, alloc, &SERVE, CONFIGURATION, plant, source, trace, &[])
}

#[test]
fn without_a_seed_nothing_is_bound(rt: HostRuntime) -> Result<(), Fail> {
    let alloc = rt.alloc();
    let source = seed(alloc, &[1])?;
    let ended = run_packet(&rt, alloc, source, &mut NoTrace)?;
    assert_status(&rt, &ended, 3);
    assert_err(&rt, &ended, b"bng: cannot open seed\n");
    assert_holds(
        &rt,
        ended.plant.bound().is_empty() && ended.out.text().is_empty(),
    );
    Ok(())
}

/// A run whose trace does not take this round ends with status 5 and no report. It has sent so many datagrams, of which the first is the
/// packet to the core.
fn is_last<R: Threads + Wait + Sync + Abort>(
    rt: &R,
    alloc: Global,
    round: u64,
    sent: usize,
) -> Result<(), Fail> {
    let fails: [u64; 1] = [round];
    let mut trace = MemoryTrace::new(alloc, fails.to_vec(alloc)?, 8, 64)?;
    let ended = run_packet(rt, alloc, seed(alloc, &[])?, &mut trace)?;
    assert_status(rt, &ended, 5);
    assert_err(rt, &ended, b"bng: trace failed\n");
    assert_holds(rt, ended.out.text().is_empty());
    assert_sent(rt, &ended, sent);
    sends_to_core_first(rt, &ended);
    Ok(())
}

/// The first datagram that a run sent goes to the core.
fn sends_to_core_first(rt: &impl Abort, ended: &Ended) {
    match ended.plant.sent() {
        [first, ..] => {
            assert_same(rt, &first.role, &Role::Core);
            assert_same(rt, &first.peer, &loopback(9001));
        }
        [] => assert_holds(rt, false),
    }
}

#[test]
fn a_round_that_the_trace_does_not_take_is_the_last(rt: HostRuntime) -> Result<(), Fail> {
    let alloc = rt.alloc();
    // The round of the packet, and that of the ending after the round of `stop`. The packet went to the core before that, and the Start of
    // the circuit and its Stop to the server.
    is_last(&rt, alloc, 1, 2)?;
    is_last(&rt, alloc, 3, 4)
}
