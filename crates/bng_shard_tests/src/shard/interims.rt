ghost use Rattle.std.specs.Prelude.{◌≡◌, ◌<◌, ◌^◌, []};
ghost use Rattle.bng_steps.specs.Interims.{AwaitsInterims};

use super::logins::accepted_by;
use super::settings::{TWO, rules_with};
use super::verdicts::ACCEPT;
use super::{Bench, NOTHING, open_bench};
use crate::asserts::assert_same;
use bng_base::{Book, SessionNo, TermId};
use bng_steps::Reports;
use std::alloc::Global;
use std::process::Abort;
use std::test::Fail;

// An Access-Accept with an Acct-Interim-Interval of 60 seconds (RFC 2869 section 5.16).
const REPORTED: &[u8; 26] = b"\x02\0\0\x1a\0\0\0\0\0\0\0\0\0\0\0\0\0\0\0\0\x55\x06\0\0\0\x3c";

// A shard with a pool of two addresses.
fn with_two(alloc: Global) -> Result<Bench, Fail> {
    let rules = rules_with(alloc, TWO)?;
    open_bench(alloc, rules, TWO)
}

// A shard whose first host has a term without Interims, and its second host one with an Interim each minute, both from moment 0 on.
fn reported(rt: &impl Abort, alloc: Global) -> Result<Bench, Fail> {
    let mut bench = with_two(alloc)?;
    let _without = accepted_by(rt, alloc, &mut bench, 1, 1, ACCEPT);
    let _with = accepted_by(rt, alloc, &mut bench, 2, 2, REPORTED);
    Ok(bench)
}

// The Interim that is taken at this moment, if one is due: its term, and what that carried.
fn taken(bench: &Bench, reports: &mut Reports, now: u64) -> Option<(TermId, Book)>
    requires moment { now < 2 ^ 60 }
    requires awaits { bench.now.0.state.changed ≡ [] → AwaitsInterims bench.now.0.state.slots reports.old }
    ensures awaits { bench.now.0.state.changed ≡ [] → AwaitsInterims bench.now.0.state.slots reports.new }
{
    let told = bench.shard.interim(reports, now)?;
    Some((told.term.term, told.carried))
}

// This Interim is taken at this moment.
pub(super) fn assert_taken(
    rt: &impl Abort,
    bench: &Bench,
    reports: &mut Reports,
    now: u64,
    wanted: Option<(TermId, Book)>,
)
    requires moment { now < 2 ^ 60 }
    requires awaits { bench.now.0.state.changed ≡ [] → AwaitsInterims bench.now.0.state.slots reports.old }
    ensures awaits { bench.now.0.state.changed ≡ [] → AwaitsInterims bench.now.0.state.slots reports.new }
{
    assert_same(rt, &taken(bench, reports, now), &wanted);
}

// The second host's term.
const SECOND: TermId = TermId {
    session: SessionNo(2),
    serial: 2,
};

// The second host's Interim is taken at a moment, once, and not a millisecond sooner.
fn assert_taken_once(
    rt: &impl Abort,
    bench: &Bench,
    reports: &mut Reports,
    sooner: u64,
    moment: u64,
)
    requires moments { (sooner < 2 ^ 60) × (moment < 2 ^ 60) }
    requires awaits { bench.now.0.state.changed ≡ [] → AwaitsInterims bench.now.0.state.slots reports.old }
    ensures awaits { bench.now.0.state.changed ≡ [] → AwaitsInterims bench.now.0.state.slots reports.new }
{
    assert_taken(rt, bench, reports, sooner, None);
    assert_taken(rt, bench, reports, moment, Some((SECOND, NOTHING)));
    assert_taken(rt, bench, reports, moment, None);
}

#[test]
fn an_interim_is_due_each_interval_and_taken_once(rt: HostRuntime) -> Result<(), Fail> {
    let alloc = rt.alloc();
    let bench = reported(&rt, alloc)?;
    let mut reports = Reports::open(alloc)?;
    assert_taken_once(&rt, &bench, &mut reports, 59_999, 60_000);
    assert_taken_once(&rt, &bench, &mut reports, 119_999, 120_000);
    Ok(())
}
