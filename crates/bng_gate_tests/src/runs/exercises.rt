//! The words of commands, `check`, and the program that tries itself.
use super::host::SESSIONS;
use super::running::{run_over, run_told, seed};
use super::{CONFIGURATION, Ended, assert_err, assert_out, assert_sent, assert_status};
use crate::asserts::assert_holds;
use bng_plant::{MemoryPlant, MemoryTrace};
use std::alloc::{AllocError, Global};
use std::process::Abort;
use std::sync::Wait;
use std::test::Fail;
use std::thread::Threads;

const USAGE: &[u8] =
    b"usage: bng serve CONFIG [--trace FILE] [--rounds N] | check CONFIG | exercise N [--workers W] | audit FILE\n";

const ONE: &[u8] =
    b"exercise subscribers=1 terms=1 in_packets=1 in_octets=100 out_packets=0 out_octets=0 stops=1 dropped=0\n";

const FOUR: &[u8] =
    b"exercise subscribers=4 terms=4 in_packets=10 in_octets=1020 out_packets=6 out_octets=1214 stops=4 dropped=0\n";

const TWO_THOUSAND: &[u8] =
    b"exercise subscribers=2000 terms=2000 in_packets=9000 in_octets=941000 out_packets=4000 out_octets=822000 stops=2000 dropped=0\n";

/// A run of these words over this configuration, where each call of the plant fails.
fn alone<R: Threads + Wait + Sync>(
    rt: &R,
    alloc: Global,
    words: &[&str],
    configuration: &str,
) -> Result<Ended, Fail> {
    let fails = [1, 2, 3, 4, 5, 6, 7, 8];
    Ok(run_over(
        rt,
        alloc,
        words,
        configuration,
        Vec::new(alloc),
        &fails,
        &[],
    )?)
}

#[test]
fn one_subscriber_is_served_in_memory(rt: HostRuntime) -> Result<(), Fail> {
    let ended = alone(&rt, rt.alloc(), &["exercise", "1"], CONFIGURATION)?;
    assert_out(&rt, &ended, ONE);
    assert_err(&rt, &ended, b"");
    assert_sent(&rt, &ended, 0);
    assert_status(&rt, &ended, 0);
    Ok(())
}

#[test]
fn four_subscribers_are_served_in_memory(rt: HostRuntime) -> Result<(), Fail> {
    let words = ["exercise", "--workers=16", "4"];
    let ended = alone(&rt, rt.alloc(), &words, CONFIGURATION)?;
    assert_out(&rt, &ended, FOUR);
    assert_err(&rt, &ended, b"");
    assert_status(&rt, &ended, 0);
    Ok(())
}

#[test]
fn two_thousand_subscribers_are_served_by_one_worker(rt: HostRuntime) -> Result<(), Fail> {
    let words = ["exercise", "2000", "--workers", "1"];
    let ended = alone(&rt, rt.alloc(), &words, CONFIGURATION)?;
    assert_out(&rt, &ended, TWO_THOUSAND);
    assert_status(&rt, &ended, 0);
    Ok(())
}

/// A run of these words over this configuration to which nothing comes, with this trace.
fn traced<R: Threads + Wait + Sync>(
    rt: &R,
    alloc: Global,
    words: &[&str],
    configuration: &str,
    trace: &mut MemoryTrace,
) -> Result<Ended, AllocError> {
    let plant = MemoryPlant::new(alloc, Vec::new(alloc), Vec::new(alloc), 64)?;
    let source = seed(alloc, &[])?;
    run_told(rt, alloc, words, configuration, plant, source, trace, &[])
}

#[test]
fn an_exercise_ends_at_a_round_that_the_trace_does_not_take(rt: HostRuntime) -> Result<(), Fail> {
    let alloc = rt.alloc();
    let fails: [u64; 1] = [3];
    let mut trace = MemoryTrace::new(alloc, fails.to_vec(alloc)?, 8, 64)?;
    let ended = traced(&rt, alloc, &["exercise", "4"], CONFIGURATION, &mut trace)?;
    assert_status(&rt, &ended, 5);
    assert_err(&rt, &ended, b"bng: trace failed\n");
    assert_holds(&rt, ended.out.text().is_empty());
    Ok(())
}

#[test]
fn an_exercise_whose_line_is_not_written_has_status_5(rt: HostRuntime) -> Result<(), Fail> {
    let alloc = rt.alloc();
    let words = ["exercise", "1"];
    let ended = run_over(
        &rt,
        alloc,
        &words,
        CONFIGURATION,
        Vec::new(alloc),
        &[],
        &[1],
    )?;
    assert_status(&rt, &ended, 5);
    assert_err(&rt, &ended, b"bng: output failed\n");
    Ok(())
}

#[test]
fn check_of_a_right_configuration_prints_ok(rt: HostRuntime) -> Result<(), Fail> {
    let ended = alone(&rt, rt.alloc(), &["check", "bng.toml"], CONFIGURATION)?;
    assert_out(&rt, &ended, b"ok\n");
    assert_err(&rt, &ended, b"");
    assert_status(&rt, &ended, 0);
    Ok(())
}

#[test]
fn check_tells_the_first_fault(rt: HostRuntime) -> Result<(), Fail> {
    let alloc = rt.alloc();
    let text = CONFIGURATION.replace(alloc, "[core]", "shards = 0\n[core]")?;
    let ended = alone(&rt, alloc, &["check", "bng.toml"], text.as_str())?;
    assert_out(&rt, &ended, b"");
    assert_err(&rt, &ended, b"bng: config: C6 gateway.shards\n");
    assert_status(&rt, &ended, 2);
    let missing = alone(&rt, alloc, &["check", "missing.toml"], CONFIGURATION)?;
    assert_err(&rt, &missing, b"bng: cannot open configuration\n");
    assert_status(&rt, &missing, 3);
    Ok(())
}

/// Words that are no command.
const NO_COMMANDS: &[&[&str]] = &[
    &["serve", "bng.toml", "--rounds=0"],
    &["serve", "--rounds", "5"],
    &["serve", "bng.toml", "--rounds", "5", "--rounds", "5"],
    &["serve", "bng.toml", "--trace", "trace"],
    &["check", "bng.toml", "--workers", "2"],
    &["exercise", "4001"],
    &["exercise", "4", "--workers", "17"],
    &["exercise"],
    &["audit", "trace"],
];

/// A run of these words prints the usage line alone and ends with status 1.
fn prints_usage<R: Threads + Wait + Sync + Abort>(
    rt: &R,
    alloc: Global,
    words: &[&str],
) -> Result<(), Fail> {
    let ended = alone(rt, alloc, words, CONFIGURATION)?;
    assert_out(rt, &ended, b"");
    assert_err(rt, &ended, USAGE);
    assert_status(rt, &ended, 1);
    Ok(())
}

#[test]
fn words_that_are_no_command_print_the_usage_line(rt: HostRuntime) -> Result<(), Fail> {
    let alloc = rt.alloc();
    for words in NO_COMMANDS {
        prints_usage(&rt, alloc, words)?;
    }
    Ok(())
}

#[test]
fn serving_ends_by_itself_after_so_many_rounds(rt: HostRuntime) -> Result<(), Fail> {
    let alloc = rt.alloc();
    let mut trace = MemoryTrace::new(alloc, Vec::new(alloc), 16, 64)?;
    let words = ["serve", "bng.toml", "--rounds", "3"];
    let ended = traced(&rt, alloc, &words, SESSIONS, &mut trace)?;
    assert_err(&rt, &ended, b"");
    assert_status(&rt, &ended, 0);
    // Three of serving, and one of the ending.
    assert_holds(&rt, trace.heads().len() == 4);
    Ok(())
}
