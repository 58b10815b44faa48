//! The clock, the seeds, the words of the command line, files and streams.
use crate::asserts::{assert_count, assert_holds, assert_octets, assert_other, assert_same};
use bng_base::{Listed, RoundRecord};
use bng_plant::{Clock, Entropy, FileError, Files, Gate, Noted, Seeded, Sink, Trace, Wrote};
use bng_real::{RealClock, RealEntropy, RealFiles, RealGate, RealTrace, StandardSink, words_of};
use std::alloc::{Alloc, AllocError, Global};
use std::cell::Cell;
use std::env::FillError;
use std::fs::Files as SystemFiles;
use std::io::{ErrorKind, Read, Write};
use std::process::Abort;
use std::random::RandomSource;
use std::rt::Env;
use std::test::Fail;
use std::time::{Clock as SystemClock, Duration};
use std::{array, env, fs, io, process, thread};

/// The first moment of a clock that was made just now.
fn first_moment<C: Clock>(rt: &impl Abort, clock: &mut C) -> u64 {
    let first = clock.now();
    assert_holds(rt, first < 10_000);
    first
}

/// A clock that was read for the first time 30 ms ago or earlier has gone on by that, but for what is rounded.
fn later_moment<C: Clock>(rt: &impl Abort, clock: &mut C, first: u64) {
    let second = clock.now();
    assert_holds(rt, second >= first.saturating_add(29) && second < 30_000);
}

/// The clock on the wall is past 2023, and does not fall.
fn wall_goes_on<C: Clock>(rt: &impl Abort, clock: &mut C) {
    let wall = clock.wall();
    assert_holds(rt, wall > 1_700_000_000 && wall <= clock.wall());
}

#[test]
fn clock_counts_milliseconds_from_its_start(rt: HostRuntime) -> Result<(), Fail> {
    let mut clock = RealClock::new(&rt);
    let first = first_moment(&rt, &mut clock);
    thread::sleep(&rt, Duration::from_millis(30));
    later_moment(&rt, &mut clock, first);
    wall_goes_on(&rt, &mut clock);
    Ok(())
}

/// Clocks of the system that say what they are set to, in milliseconds, or nothing.
#[derive(Drop)]
struct SetClock {
    passed: Cell<u64>,
    since_1970: Cell<u64>,
    is_silent: Cell<bool>,
}

impl SystemClock for SetClock {
    fn monotonic(&self) -> io::Result<Duration> {
        if self.is_silent.get() {
            return Err(io::Error::from(ErrorKind::Other));
        }
        Ok(Duration::from_millis(self.passed.get()))
    }

    fn since_1970(&self) -> io::Result<Duration> {
        if self.is_silent.get() {
            return Err(io::Error::from(ErrorKind::Other));
        }
        Ok(Duration::from_millis(self.since_1970.get()))
    }
}

/// Clocks of the system at 5 s and at the beginning of 1970.
fn set_clock() -> SetClock {
    SetClock {
        passed: Cell::new(5_000),
        since_1970: Cell::new(0),
        is_silent: Cell::new(false),
    }
}

/// What the system's clocks are set to, and what a clock that began at 5 s then says: its moment and its second on the wall.
const SETTINGS: &[((u64, u64), (u64, u64))] = &[
    ((5_000, 1_700_000_000_999), (0, 1_700_000_000)),
    ((5_007, 1_700_000_001_000), (7, 1_700_000_001)),
    ((5_003, 1_600_000_000_000), (7, 1_600_000_000)),
    ((65_000, 1_700_000_060_000), (60_000, 1_700_000_060)),
];

/// What a clock says: its moment and its second on the wall.
fn said<C: Clock>(clock: &mut C) -> (u64, u64) {
    (clock.now(), clock.wall())
}

/// Sets the system's clocks, and a clock over them says this.
fn follows<C: Clock>(
    rt: &impl Abort,
    system: &SetClock,
    clock: &mut C,
    set: (u64, u64),
    wanted: (u64, u64),
) {
    system.passed.set(set.0);
    system.since_1970.set(set.1);
    assert_same(rt, &said(clock), &wanted);
}

#[test]
fn clock_says_what_the_system_says_and_never_falls(rt: HostRuntime) {
    let system = set_clock();
    let mut clock = RealClock::new(&system);
    for (set, wanted) in SETTINGS {
        follows(&rt, &system, &mut clock, *set, *wanted);
    }
    system.is_silent.set(true);
    let stood = said(&mut clock);
    assert_same(&rt, &stood, &(60_000, 1_700_000_060));
}

/// A source that gives the same octets again and again, or fails.
#[derive(Drop)]
struct SetSource {
    fails: bool,
}

impl RandomSource for SetSource {
    fn fill_bytes(&self, buf: &mut [u8]) -> io::Result<()> {
        if self.fails {
            return Err(io::Error::from(ErrorKind::Other));
        }
        for (at, octet) in buf.iter_mut().enumerate() {
            *octet = (at % 251) as u8;
        }
        Ok(())
    }
}

/// Two seeds differ, and the first one is a seed.
fn seeds_differ<E: Entropy>(rt: &impl Abort, entropy: &mut E) {
    let (first, second) = (entropy.seed(), entropy.seed());
    assert_other(rt, &first, &second);
    assert_other(rt, &first, &Seeded::Failed);
}

/// The seed from a source that is set to give octets.
fn seed_from_set() -> Seeded {
    let set = SetSource { fails: false };
    let mut entropy = RealEntropy::new(&set);
    entropy.seed()
}

/// The seed from a source that fails, and how many faults are counted by then.
fn seed_from_failing() -> (Seeded, u64) {
    let failing = SetSource { fails: true };
    let mut entropy = RealEntropy::new(&failing);
    let seed = entropy.seed();
    (seed, entropy.faults())
}

#[test]
fn seeds_are_what_the_source_gives(rt: HostRuntime) {
    let mut entropy = RealEntropy::new(&rt);
    seeds_differ(&rt, &mut entropy);
    assert_same(&rt, &entropy.faults(), &0);
    assert_same(
        &rt,
        &seed_from_set(),
        &Seeded::Seed(array::from_fn(|at| (at % 251) as u8)),
    );
    assert_same(&rt, &seed_from_failing(), &(Seeded::Failed, 1));
}

/// A system whose command line has these three words.
#[derive(Drop)]
struct SetEnv {
    words: [&'static [u8]; 3],
    alloc: Global,
}

impl Alloc for SetEnv {
    type A = Global;

    fn alloc(&self) -> Global {
        self.alloc
    }
}

impl Env for SetEnv {
    fn arg(&self, i: usize, buf: &mut [u8]) -> Result<usize, FillError> {
        let word = self.words.get(i).ok_or(FillError::NotPresent)?;
        let room = buf.get_mut(..word.len()).ok_or(FillError::TooLong)?;
        room.copy_from_slice(word);
        Ok(word.len())
    }

    fn var(&self, _name: &str, _buf: &mut [u8]) -> Result<usize, FillError> {
        Err(FillError::NotPresent)
    }

    fn var_at(&self, _i: usize, _buf: &mut [u8]) -> Result<usize, FillError> {
        Err(FillError::NotPresent)
    }
}

/// The last word of a command line, and the words after its name.
const LINES: &[(&[u8], &[&str])] = &[
    (b"my.toml", &["serve", "my.toml"]),
    (b"", &["serve", ""]),
    (b"\xff", &[]),
];

/// The words of a command line after its name, where this is the last one.
fn words_with(alloc: Global, last: &'static [u8]) -> Result<Vec<String>, AllocError> {
    let line = SetEnv {
        words: [b"bng".as_slice(), b"serve".as_slice(), last],
        alloc,
    };
    words_of(&line, alloc)
}

/// These are the words that are wanted.
fn assert_words(rt: &impl Abort, words: &[String], wanted: &[&str]) {
    assert_count(rt, words.len(), wanted.len());
    for (word, want) in words.iter().zip(wanted) {
        assert_octets(rt, word.as_bytes(), want.as_bytes());
    }
}

#[test]
fn words_are_those_after_the_name(rt: HostRuntime) -> Result<(), Fail> {
    for (last, wanted) in LINES {
        let words = words_with(rt.alloc(), *last)?;
        assert_words(&rt, words.as_slice(), *wanted);
    }
    Ok(())
}

/// What a file has, and what is read of it where ten octets are read at most.
const TEXTS: &[(&str, &str)] = &[
    ("", ""),
    ("0123456789", "0123456789"),
    ("0123456789a", "0123456789"),
];

/// The name of this process's file in a folder.
fn file_in(alloc: Global, place: &str, id: u32) -> Result<String, AllocError> {
    format!(in alloc; "{place}/bng-files-{id}")
}

/// Whether a read of this name gives this text.
fn reads<F: Files>(files: &mut F, alloc: Global, name: &str, want: &str) -> bool {
    let got = files.read(alloc, name);
    got.is_ok_and(|got| got.as_slice() == want.as_bytes())
}

/// A file with the first text, which stands for as long as it is read, is read as the second one.
fn assert_read_as<R: SystemFiles + Abort, F: Files>(
    rt: &R,
    files: &mut F,
    alloc: Global,
    name: &str,
    row: (&str, &str),
) -> io::Result<()> {
    let (text, want) = row;
    fs::write(rt, name, text)?;
    let is_read = reads(files, alloc, name, want);
    fs::remove_file(rt, name)?;
    assert_holds(rt, is_read);
    Ok(())
}

/// A read of this name fails, and so many faults are counted by then.
fn fails_to_read<F: SystemFiles>(
    rt: &impl Abort,
    files: &mut RealFiles<'_, F>,
    alloc: Global,
    name: &str,
    faults: u64,
) {
    let got = files.read(alloc, name);
    assert_holds(rt, got.is_err_and(|error| error == FileError::Failed));
    assert_same(rt, &files.faults(), &faults);
}

/// Of a file without an end ten octets are read.
fn reads_ten<F: Files>(rt: &impl Abort, files: &mut F, alloc: Global) {
    let endless = files.read(alloc, "/dev/zero");
    assert_holds(rt, endless.is_ok_and(|text| text.len() == 10));
}

#[test]
fn files_are_read_whole_or_to_the_limit(rt: HostRuntime) -> Result<(), Fail> {
    let alloc = rt.alloc();
    let folder = env::temp_dir(&rt)?;
    let place = folder.as_str();
    let name = file_in(alloc, place, process::id(rt.process()))?;
    let mut files = RealFiles::new(&rt, 10);
    for row in TEXTS {
        assert_read_as(&rt, &mut files, alloc, name.as_str(), *row)?;
    }
    assert_same(&rt, &files.faults(), &0);
    fails_to_read(&rt, &mut files, alloc, name.as_str(), 1);
    fails_to_read(&rt, &mut files, alloc, place, 2);
    fails_to_read(&rt, &mut files, alloc, "", 3);
    reads_ten(&rt, &mut files, alloc);
    Ok(())
}

/// A write answers this, and so many faults are counted by then.
fn writes<W: Write + Drop>(
    rt: &impl Abort,
    sink: &mut StandardSink<W>,
    text: &[u8],
    answer: Wrote,
    faults: u64,
) {
    assert_same(rt, &sink.write(text), &answer);
    assert_same(rt, &sink.faults(), &faults);
}

/// A reader gives this text at once.
fn gives<R: Read>(rt: &impl Abort, reader: &mut R, text: &[u8]) -> io::Result<()> {
    let mut room = [0u8; 64];
    let count = reader.read(&mut room)?;
    assert_octets(rt, &room[..count], text);
    Ok(())
}

/// A stream takes a line.
fn takes<W: Write + Drop>(rt: &impl Abort, stream: W, line: &[u8]) {
    assert_same(rt, &StandardSink::new(stream).write(line), &Wrote::Ok);
}

#[test]
fn streams_take_all_or_count_a_fault(rt: HostRuntime) -> Result<(), Fail> {
    let (mut reader, writer) = io::pipe(&rt)?;
    let mut sink = StandardSink::new(writer);
    writes(&rt, &mut sink, b"total in=84 out=0\n", Wrote::Ok, 0);
    gives(&rt, &mut reader, b"total in=84 out=0\n")?;
    drop(reader);
    // Nobody reads.
    writes(&rt, &mut sink, b"x", Wrote::Failed, 1);
    takes(&rt, rt.stdout(), b"out\n");
    takes(&rt, rt.stderr(), b"err\n");
    Ok(())
}

/// A round in which nothing happened.
fn empty_round(alloc: Global) -> RoundRecord {
    RoundRecord {
        number: 1,
        moment: 0,
        wall: 0,
        allowances: Listed::of(Vec::new(alloc)),
        journals: Listed::of(Vec::new(alloc)),
        loose: Listed::of(Vec::new(alloc)),
        outs: Listed::of(Vec::new(alloc)),
        refused: Listed::of(Vec::new(alloc)),
    }
}

#[test]
fn trace_and_gate_do_nothing(rt: HostRuntime) {
    let round = empty_round(rt.alloc());
    let mut trace = RealTrace;
    assert_same(&rt, &trace.start("/nowhere/at/all"), &Noted::Ok);
    assert_same(&rt, &trace.note(&round), &Noted::Ok);
    RealGate.at(0, 0);
}
