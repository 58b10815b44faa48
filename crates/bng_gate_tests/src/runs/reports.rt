//! The texts of what a run has counted, made of what differs from run to run.
use super::{Ended, assert_out};
use std::alloc::{AllocError, Global};
use std::process::Abort;

/// The names of the causes of drops, in the order of their lines.
const CAUSES: &[&str] = &[
    "Malformed",
    "NoSession",
    "NotOpen",
    "Expired",
    "Spoofed",
    "TooBig",
    "Exceeded",
    "LinkFailed",
    "WantOfMemory",
];

/// What was counted: the octets in and out of all packets, the lines of profiles and circuits, and the causes that dropped something, each
/// with its items.
#[derive(Clone, Copy)]
pub(super) struct Counted<'a> {
    pub(super) octets: &'a str,
    pub(super) lines: &'a [&'a str],
    pub(super) drops: &'a [(&'a str, u64)],
}

/// How many items a cause dropped.
fn dropped(drops: &[(&str, u64)], cause: &str) -> u64 {
    for (name, items) in drops {
        if *name == cause {
            return *items;
        }
    }
    0
}

/// The lines of profiles and circuits, and one for each cause.
fn push_rest(text: &mut String, counted: &Counted<'_>) -> Result<(), AllocError> {
    for line in counted.lines {
        write!(text, "{line}\n")?;
    }
    for cause in CAUSES {
        let items = dropped(counted.drops, cause);
        write!(text, "drop {cause} {items}\n")?;
    }
    Ok(())
}

/// The report, where each term has its Stop.
pub(super) fn report(alloc: Global, counted: &Counted<'_>) -> Result<String, AllocError> {
    let octets = counted.octets;
    let mut text = String::new(alloc);
    write!(
        text,
        "stopped {octets}\nlive in=0 out=0\ntotal {octets}\nworker 0 {octets}\n"
    )?;
    push_rest(&mut text, counted)?;
    Ok(text)
}

/// What Control is told, while no term has its Stop.
pub(super) fn stats(alloc: Global, counted: &Counted<'_>) -> Result<String, AllocError> {
    let octets = counted.octets;
    let mut text = String::new(alloc);
    write!(
        text,
        "stopped in=0 out=0\nlive {octets}\ntotal {octets}\nworker 0 {octets}\n"
    )?;
    push_rest(&mut text, counted)?;
    Ok(text)
}

/// A run wrote this report.
pub(super) fn assert_report(
    rt: &impl Abort,
    alloc: Global,
    ended: &Ended,
    counted: &Counted<'_>,
) -> Result<(), AllocError> {
    let text = report(alloc, counted)?;
    assert_out(rt, ended, text.as_bytes());
    Ok(())
}
