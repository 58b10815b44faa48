//! What `exercise` does: it serves scripted subscribers in memory, and says what that came to.
ghost use Rattle.std.specs.Prelude.{◌≡◌, ◌≤◌, IfOk, IfErr, OnOk};
ghost use Rattle.bng_gate.specs.Exercise.{Exercises, IsPlayed, IsUnplayed, Prints, IsUnprinted};

mod configuration;
mod line;

use crate::exercise::configuration::configuration;
use crate::exercise::line::line_of;
use crate::saying::say_text;
use crate::serving::has_starved;
use crate::texts::Refusal;
use crate::top::{Ready, conclude, refuse, serve_all};
use bng_desk::Desk;
use bng_peer::PeerPlant;
use bng_plant::{Gate, Sink, Trace, Wrote};
use std::alloc::Global;
use std::sync::Wait;
use std::thread::Threads;

/// The most rounds of an exercise.
const ROUNDS: u64 = 1 << 40;

// Serves so many subscribers with so many workers, and gives the desk that is left.
#[inline(never)]
fn play<R, T: Trace, G>(
    rt: &R,
    alloc: Global,
    subscribers: u32,
    workers: u16,
    trace: &mut T,
    gate: &G,
) -> Result<Desk, Refusal>
where
    R: Threads + Wait + Sync,
    G: Gate + Sync,
    requires some { 1 ≤ subscribers }
    requires few { subscribers ≤ 4000 }
    requires some_worker { 1 ≤ workers }
    requires few_workers { workers ≤ 16 }
    ensures played { IfOk result (λ desk. IsPlayed workers (T.told trace.old) (T.told trace.new) desk) }
    ensures refused { IfErr result (λ refusal. IsUnplayed workers (T.told trace.old) (T.told trace.new) refusal) }
{
    let Ok(config) = configuration(alloc, workers) else {
        return Err(Refusal::OutOfMemory);
    };
    let Ok((mut plant, mut clock)) = PeerPlant::open(alloc, subscribers) else {
        return Err(Refusal::OutOfMemory);
    };
    let ready = Ready {
        config,
        rounds: ROUNDS,
        seed: [0; 32],
    };
    serve_all(rt, alloc, ready, &mut plant, &mut clock, trace, gate)
}

// Writes what an exercise of so many subscribers came to, unless its desk starved.
fn print<O: Sink>(alloc: Global, subscribers: u32, desk: &Desk, out: &mut O) -> Result<(), Refusal>
    ensures printed { OnOk result (Prints subscribers desk.now (O.told out.old) (O.told out.new)) }
    ensures refused { IfErr result (λ refusal. IsUnprinted subscribers desk.now (O.told out.old) (O.told out.new) refusal) }
{
    if has_starved(desk) {
        return Err(Refusal::OutOfMemory);
    }
    let Ok(text) = line_of(alloc, subscribers, &desk.sums()) else {
        return Err(Refusal::OutOfMemory);
    };
    match say_text(out, text.as_bytes()) {
        Wrote::Ok => Ok(()),
        Wrote::Failed => Err(Refusal::OutputFailed),
    }
}

/// Serves so many scripted subscribers, 1 to 4,000, with so many workers, 1 to 16, until their script ends and the operator says `stop`;
/// writes what that came to, and answers the status. Everything but the trace, the sinks and the gate is in memory.
#[inline(never)]
pub(crate) fn exercise<R, T: Trace, O: Sink, X: Sink, G>(
    rt: &R,
    alloc: Global,
    subscribers: u32,
    workers: u16,
    trace: &mut T,
    out: &mut O,
    err: &mut X,
    gate: &G,
) -> u8
where
    R: Threads + Wait + Sync,
    G: Gate + Sync,
    requires some { 1 ≤ subscribers }
    requires few { subscribers ≤ 4000 }
    requires some_worker { 1 ≤ workers }
    requires few_workers { workers ≤ 16 }
    ensures { Exercises subscribers workers (T.told trace.old) (T.told trace.new) (O.told out.old) (O.told out.new) (X.told err.old) (X.told err.new) result }
{
    let desk = match play(rt, alloc, subscribers, workers, trace, gate) {
        Ok(desk) => desk,
        Err(refusal) => return refuse(err, refusal),
    };
    match print(alloc, subscribers, &desk, out) {
        Ok(()) => conclude(alloc, &desk, err),
        Err(refusal) => refuse(err, refusal),
    }
}
