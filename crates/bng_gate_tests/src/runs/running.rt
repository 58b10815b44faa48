//! How a whole run is made and done.
use super::Ended;
use bng_gate::run;
use bng_plant::{
    Arrival, Clock, MemoryClock, MemoryEntropy, MemoryFile, MemoryFiles, MemoryPlant, MemorySink,
    NoTrace, OpenGate, Plant, Trace,
};
use std::alloc::{AllocError, Global};
use std::sync::Wait;
use std::thread::Threads;

/// The seed of the runs.
const SEED: [u8; 32] = [
    0x00, 0x01, 0x02, 0x03, 0x04, 0x05, 0x06, 0x07, 0x08, 0x09, 0x0a, 0x0b, 0x0c, 0x0d, 0x0e, 0x0f,
    0x10, 0x11, 0x12, 0x13, 0x14, 0x15, 0x16, 0x17, 0x18, 0x19, 0x1a, 0x1b, 0xac, 0x1d, 0x1f, 0x25,
];

/// The words of the service.
pub(super) const SERVE: [&str; 2] = ["serve", "bng.toml"];

/// Which reads of files, and which writes to the output and to the output of errors fail, by their numbers from 1 on.
#[derive(Clone, Copy)]
pub(super) struct Failures<'a> {
    pub(super) reads: &'a [u64],
    pub(super) outs: &'a [u64],
    pub(super) errs: &'a [u64],
}

/// A source of one seed. The calls with these numbers fail.
pub(super) fn seed(alloc: Global, fails: &[u64]) -> Result<MemoryEntropy, AllocError> {
    let mut seeds = Vec::new(alloc);
    seeds.push(SEED)?;
    Ok(MemoryEntropy::new(seeds, fails.to_vec(alloc)?))
}

/// What stands beside the plant in a run.
#[derive(Drop)]
pub(super) struct Beside {
    words: Vec<String>,
    files: MemoryFiles,
    out: MemorySink,
    err: MemorySink,
}

impl Beside {
    /// What was written to the output, and to the output of errors.
    pub(super) fn out(&self) -> &[u8] {
        self.out.text()
    }

    pub(super) fn err(&self) -> &[u8] {
        self.err.text()
    }
}

/// These words, each in memory of its own.
fn words_of(alloc: Global, words: &[&str]) -> Result<Vec<String>, AllocError> {
    let mut list = Vec::new(alloc);
    for word in words {
        list.push(String::from_str(alloc, *word)?)?;
    }
    Ok(list)
}

/// One file, `bng.toml`, of which the reads with these numbers fail.
fn files_of(alloc: Global, configuration: &str, fails: &[u64]) -> Result<MemoryFiles, AllocError> {
    let mut files = Vec::new(alloc);
    files.push(MemoryFile::new(alloc, "bng.toml", configuration.as_bytes())?)?;
    MemoryFiles::new(alloc, files, fails.to_vec(alloc)?, 8)
}

/// An output whose calls with these numbers fail.
fn sink(alloc: Global, fails: &[u64]) -> Result<MemorySink, AllocError> {
    MemorySink::new(alloc, fails.to_vec(alloc)?, 1024)
}

/// These words, one file, and an output whose calls with these numbers fail.
pub(super) fn around(
    alloc: Global,
    words: &[&str],
    configuration: &str,
    out_fails: &[u64],
) -> Result<Beside, AllocError> {
    let failures = Failures {
        reads: &[],
        outs: out_fails,
        errs: &[],
    };
    around_failing(alloc, words, configuration, failures)
}

/// These words, one file, and outputs, of which these calls fail.
pub(super) fn around_failing(
    alloc: Global,
    words: &[&str],
    configuration: &str,
    failures: Failures<'_>,
) -> Result<Beside, AllocError> {
    Ok(Beside {
        words: words_of(alloc, words)?,
        files: files_of(alloc, configuration, failures.reads)?,
        out: sink(alloc, failures.outs)?,
        err: sink(alloc, failures.errs)?,
    })
}

/// The status of a run over these.
pub(super) fn run_with<R: Threads + Wait + Sync, P: Plant, C: Clock, T: Trace>(
    rt: &R,
    alloc: Global,
    around: &mut Beside,
    plant: &mut P,
    clock: &mut C,
    entropy: &mut MemoryEntropy,
    trace: &mut T,
) -> u8 {
    run(
        rt,
        alloc,
        &around.words,
        &mut around.files,
        plant,
        clock,
        entropy,
        trace,
        &mut around.out,
        &mut around.err,
        &OpenGate,
    )
}

/// A run of these words over one file, `bng.toml`.
fn run_at<R: Threads + Wait + Sync, T: Trace>(
    rt: &R,
    alloc: Global,
    words: &[&str],
    configuration: &str,
    mut plant: MemoryPlant,
    mut clock: MemoryClock,
    mut entropy: MemoryEntropy,
    trace: &mut T,
    out_fails: &[u64],
) -> Result<Ended, AllocError> {
    let mut around = around(alloc, words, configuration, out_fails)?;
    let status = run_with(
        rt,
        alloc,
        &mut around,
        &mut plant,
        &mut clock,
        &mut entropy,
        trace,
    );
    let Beside {
        words: _,
        files: _,
        out,
        err,
    } = around;
    Ok(Ended {
        status,
        plant,
        out,
        err,
    })
}

/// The service over this plant with a seed and no trace, at moments that are so many milliseconds apart.
pub(super) fn run_by<R: Threads + Wait + Sync>(
    rt: &R,
    alloc: Global,
    configuration: &str,
    plant: MemoryPlant,
    step: u64,
) -> Result<Ended, AllocError> {
    let clock = MemoryClock::new(alloc, step, 1_700_000_000, 64)?;
    let entropy = seed(alloc, &[])?;
    run_at(
        rt,
        alloc,
        &SERVE,
        configuration,
        plant,
        clock,
        entropy,
        &mut NoTrace,
        &[],
    )
}

/// A run of these words at moments 10 ms apart.
pub(super) fn run_told<R: Threads + Wait + Sync, T: Trace>(
    rt: &R,
    alloc: Global,
    words: &[&str],
    configuration: &str,
    plant: MemoryPlant,
    entropy: MemoryEntropy,
    trace: &mut T,
    out_fails: &[u64],
) -> Result<Ended, AllocError> {
    let clock = MemoryClock::new(alloc, 10, 1_700_000_000, 64)?;
    run_at(
        rt,
        alloc,
        words,
        configuration,
        plant,
        clock,
        entropy,
        trace,
        out_fails,
    )
}

/// The same with a seed and no trace. The calls of the plant and of the output with these numbers fail.
pub(super) fn run_over<R: Threads + Wait + Sync>(
    rt: &R,
    alloc: Global,
    words: &[&str],
    configuration: &str,
    script: Vec<Arrival>,
    plant_fails: &[u64],
    out_fails: &[u64],
) -> Result<Ended, AllocError> {
    let plant = MemoryPlant::new(alloc, script, plant_fails.to_vec(alloc)?, 64)?;
    let entropy = seed(alloc, &[])?;
    run_told(
        rt,
        alloc,
        words,
        configuration,
        plant,
        entropy,
        &mut NoTrace,
        out_fails,
    )
}
