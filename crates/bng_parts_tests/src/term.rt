//! Moments with the causes that the RFCs give them, and moments of Interims.

ghost use Rattle.std.specs.Prelude.{◌≡◌, ◌^◌, ◌<◌};

use crate::asserts::{assert_holds, assert_same};
use bng_term::{Lifetime, Limits};
use std::process::Abort;
use std::test::Fail;

// Limits with no Interims.
fn timeouts(session_timeout: u32, idle_timeout: u32) -> Limits
    ensures { result.interim ≡ None }
{
    Limits {
        session_timeout,
        idle_timeout,
        interim: None,
    }
}

// Session-Timeout, Idle-Timeout, the moment of the last packet, that of the look; the lease is at 1,000
const CAUSES: &[(u32, u32, u32, u32, Option<u8>)] = &[
    (60, 0, 1_000, 60_999, None),
    (60, 0, 60_999, 61_000, Some(5)),
    (0, 60, 1_000, 60_999, None),
    (0, 60, 1_000, 61_000, Some(4)),
    (0, 60, 5_000, 64_999, None),
    (0, 60, 5_000, 65_000, Some(4)),
    (60, 60, 1_000, 61_000, Some(4)),
    (60, 60, 1_001, 61_000, Some(5)),
    (0, 0, 1_000, u32::MAX, None),
];

// A look at a term at this moment has this cause, where the last packet passed at that one.
fn looks(rt: &impl Abort, term: &mut Lifetime, now: u64, passed: u64, cause: Option<u8>)
    requires { passed < 2 ^ 60 }
{
    assert_same(rt, &term.look(now, passed), &cause);
}

// So it is of a term within these limits whose lease is at 1,000.
fn looks_within(rt: &impl Abort, limits: Limits, now: u32, passed: u32, cause: Option<u8>)
    requires { limits.interim ≡ None }
{
    let mut term = Lifetime::new(limits, 1_000);
    looks(rt, &mut term, u64::from(now), u64::from(passed), cause);
}

#[test]
fn causes_come_at_their_moments(rt: HostRuntime) -> Result<(), Fail> {
    for (session_timeout, idle_timeout, passed, now, cause) in CAUSES {
        let limits = timeouts(*session_timeout, *idle_timeout);
        looks_within(&rt, limits, *now, *passed, *cause);
    }
    Ok(())
}

// The earliest deadline of a term is this.
fn waits(rt: &impl Abort, term: &Lifetime, deadline: Option<u64>) {
    assert_same(rt, &term.deadline(), &deadline);
}

#[test]
fn a_packet_at_the_last_moment_keeps_the_term(rt: HostRuntime) -> Result<(), Fail> {
    let mut term = Lifetime::new(timeouts(3_600, 60), 0);
    waits(&rt, &term, Some(60_000));
    looks(&rt, &mut term, 60_000, 59_999, None);
    waits(&rt, &term, Some(119_999));
    looks(&rt, &mut term, 119_999, 59_999, Some(4));
    looks(&rt, &mut term, 3_600_000, 3_600_000, Some(5));
    assert_same(&rt, &term.began(), &0);
    Ok(())
}

// An Interim is due at this moment, and not at the one before.
fn is_due(rt: &impl Abort, term: &Lifetime, sooner: u64, moment: u64) {
    let due = [term.interim_due(sooner), term.interim_due(moment)];
    assert_same(rt, &due, &[false, true]);
}

// A report puts the next Interim off by a minute.
fn reports(rt: &impl Abort, term: &mut Lifetime) {
    is_due(rt, term, 64_999, 65_000);
    term.report(65_010);
    is_due(rt, term, 125_009, 125_010);
    waits(rt, term, None);
}

// Limits without Interims have none due.
fn reports_no_more(rt: &impl Abort, term: &mut Lifetime) {
    term.change(timeouts(120, 0));
    assert_same(rt, &term.interim_at(), &None);
    assert_holds(rt, !term.interim_due((1 << 60) - 1));
    waits(rt, term, Some(125_000));
}

#[test]
fn interims_come_a_minute_apart(rt: HostRuntime) -> Result<(), Fail> {
    let limits = Limits {
        session_timeout: 0,
        idle_timeout: 0,
        interim: Some(60),
    };
    let mut term = Lifetime::new(limits, 5_000);
    reports(&rt, &mut term);
    reports_no_more(&rt, &mut term);
    Ok(())
}

#[test]
fn the_longest_timeouts_fit(rt: HostRuntime) -> Result<(), Fail> {
    let last = (1 << 60) - 1;
    let mut term = Lifetime::new(timeouts(u32::MAX, u32::MAX), last);
    waits(&rt, &term, Some(last + 4_294_967_295_000));
    looks(&rt, &mut term, last, last, None);
    Ok(())
}
