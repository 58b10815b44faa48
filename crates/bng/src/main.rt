//! The program: it makes the real objects, calls `run` of `bng_gate`, and ends with its answer.
#![tactic(auto)]

mod progress;
mod start;

use crate::progress::Progress;
use crate::start::{FILE_MOST, out_of_memory, raise_threshold};
use bng_gate::run;
use bng_real::{
    RealClock, RealEntropy, RealFiles, RealGate, RealPlant, RealTrace, StandardSink, words_of,
};
use std::io::IsTerminal;
use std::process::ExitCode;

fn main(rt: HostRuntime) -> ExitCode {
    let alloc = rt.alloc();
    raise_threshold(alloc);
    let mut out = StandardSink::new(rt.stdout());
    let mut err = StandardSink::new(rt.stderr());
    let Ok(words) = words_of(&rt, alloc) else {
        return out_of_memory(&mut err);
    };
    let Ok(mut plant) = RealPlant::new(&rt, alloc) else {
        return out_of_memory(&mut err);
    };
    let mut files = RealFiles::new(&rt, FILE_MOST);
    let mut clock = RealClock::new(&rt);
    let mut entropy = RealEntropy::new(&rt);
    let shows = is_exercise(words.as_slice()) && rt.stderr().is_terminal();
    let mut trace = Progress::new(RealTrace, StandardSink::new(rt.stderr()), shows);
    let status = run(
        &rt,
        alloc,
        &words,
        &mut files,
        &mut plant,
        &mut clock,
        &mut entropy,
        &mut trace,
        &mut out,
        &mut err,
        &RealGate,
    );
    trace.clear();
    ExitCode::from(status)
}

// Whether the words are those of an exercise, which shows how far it is.
fn is_exercise(words: &[String]) -> bool {
    match words {
        [command, ..] => command.as_str() == "exercise",
        [] => false,
    }
}
