use crate::asserts::{assert_count, assert_holds, assert_octets, assert_same};
use bng_base::{ClockAnswer, Datagram, Entry, Frame, Ip4, Peer, Received, Role};
use bng_plant::{
    Arrival, Bound, Clock, Entropy, FileError, Files, Gate, Head, MemoryClock, MemoryEntropy,
    MemoryFile, MemoryFiles, MemoryPlant, MemorySink, MemoryTrace, NoTrace, Noted, OpenGate, Plant,
    Seeded, Sending, Sink, Trace, Wrote,
};
use std::alloc::{AllocError, Global};
use std::process::Abort;
use std::test::Fail;

mod rounds;

use rounds::round;

const PORT: Peer = Peer {
    ip: Ip4(0x0a00_0001),
    port: 4001,
};

const OPERATOR: Peer = Peer {
    ip: Ip4(0x7f00_0001),
    port: 5000,
};

// A datagram that was not cut came from this peer.
fn got(from: Peer) -> Received {
    Received::Got { from, cut: false }
}

// Three arrivals, the second after a wait.
fn script(alloc: Global) -> Result<Vec<Arrival>, AllocError> {
    let script = vec![in alloc;
        Arrival::new(Role::Access(1), PORT, &[7, 8, 9]),
        Arrival::new(Role::Control, OPERATOR, b"stop").after(1),
        Arrival::new(Role::Core, PORT, &[5; 5000]),
    ]?;
    Ok(script)
}

// The fifth call fails.
fn scripted(alloc: Global) -> Result<MemoryPlant, AllocError> {
    let script = script(alloc)?;
    let fail_at = vec![in alloc; 5]?;
    MemoryPlant::new(alloc, script, fail_at, 10)
}

// A receive at this role has this answer.
fn hears<P: Plant>(rt: &impl Abort, plant: &mut P, role: Role, frame: &mut Frame, want: Received) {
    assert_same(rt, &plant.recv(role, frame), &want);
}

fn hear_before_the_wait<P: Plant>(rt: &impl Abort, plant: &mut P, frame: &mut Frame) {
    hears(rt, plant, Role::Control, frame, Received::Empty);
    hears(rt, plant, Role::Access(1), frame, got(PORT));
    hears(rt, plant, Role::Access(1), frame, Received::Empty);
    hears(rt, plant, Role::Control, frame, Received::Empty);
}

// The last one was longer than a frame.
const CUT: Received = Received::Got {
    from: PORT,
    cut: true,
};

fn hear_after_the_wait<P: Plant>(rt: &impl Abort, plant: &mut P, frame: &mut Frame) {
    hears(rt, plant, Role::Control, frame, Received::Failed);
    assert_count(rt, frame.payload().len(), 3);
    hears(rt, plant, Role::Control, frame, got(OPERATOR));
    assert_count(rt, frame.payload().len(), 4);
    hears(rt, plant, Role::Core, frame, CUT);
    assert_count(rt, frame.payload().len(), 4096);
}

fn hear_all<P: Plant>(rt: &impl Abort, plant: &mut P) {
    let mut frame = Frame::new();
    hear_before_the_wait(rt, plant, &mut frame);
    plant.wait(100);
    hear_after_the_wait(rt, plant, &mut frame);
}

#[test]
fn a_script_is_given_in_turn(rt: HostRuntime) -> Result<(), Fail> {
    let mut plant = scripted(rt.alloc())?;
    hear_all(&rt, &mut plant);
    assert_same(&rt, &plant.faults(), &1);
    assert_count(&rt, plant.taken().len(), 3);
    assert_same(&rt, &plant.heard().map(|heard| heard.len()), &Some(8));
    Ok(())
}

// A plant with nothing to hear, that keeps one of each.
fn with_room_for_one(alloc: Global) -> Result<MemoryPlant, AllocError> {
    MemoryPlant::new(alloc, Vec::new(alloc), Vec::new(alloc), 1)
}

fn bind_two<P: Plant>(rt: &impl Abort, plant: &mut P) {
    assert_same(rt, &plant.bind(Role::Auth, PORT, None), &Bound::Ok);
    assert_same(rt, &plant.bind(Role::Acct, PORT, None), &Bound::Failed);
}

const ACCESS: Role = Role::Access(240);

fn send_three<P: Plant>(rt: &impl Abort, plant: &mut P) {
    assert_same(rt, &plant.send(ACCESS, PORT, &[1; 4161]), &Sending::Failed);
    assert_same(rt, &plant.send(ACCESS, PORT, &[1; 4160]), &Sending::Sent);
    assert_same(rt, &plant.send(ACCESS, PORT, &[1]), &Sending::Failed);
}

fn assert_lengths(rt: &impl Abort, sent: &[Datagram]) {
    for sent in sent {
        assert_count(rt, sent.octets.as_slice().len(), 4160);
    }
}

// Three calls failed, and one of each is kept.
fn assert_kept(rt: &impl Abort, plant: &MemoryPlant) {
    assert_same(rt, &plant.faults(), &3);
    assert_count(rt, plant.bound().len(), 1);
    assert_count(rt, plant.sent().len(), 1);
    assert_lengths(rt, plant.sent());
}

// Whether it stopped telling what it heard.
fn stopped_hearing(plant: &MemoryPlant) -> bool {
    plant.heard().is_none()
}

#[test]
fn binds_and_sends_are_kept_up_to_the_room(rt: HostRuntime) -> Result<(), Fail> {
    let mut plant = with_room_for_one(rt.alloc())?;
    bind_two(&rt, &mut plant);
    send_three(&rt, &mut plant);
    assert_kept(&rt, &plant);
    plant.wait(1);
    plant.wait(2);
    assert_holds(&rt, stopped_hearing(&plant));
    Ok(())
}

fn moment<C: Clock>(clock: &mut C) -> u64 {
    clock.now()
}

const ANSWERS: [ClockAnswer; 3] = [
    ClockAnswer::Now(600),
    ClockAnswer::Now(1200),
    ClockAnswer::Wall(1_700_000_001),
];

fn answer_three<C: Clock>(rt: &impl Abort, clock: &mut C) {
    assert_same(rt, &moment(clock), &600);
    assert_same(rt, &moment(clock), &1200);
    assert_same(rt, &clock.wall(), &1_700_000_001);
}

// Whether it stopped telling what it answered.
fn stopped_answering(clock: &MemoryClock) -> bool {
    clock.answers().is_none()
}

#[test]
fn a_clock_moves_by_its_step(rt: HostRuntime) -> Result<(), Fail> {
    let mut clock = MemoryClock::new(rt.alloc(), 600, 1_700_000_000, 3)?;
    answer_three(&rt, &mut clock);
    assert_same(&rt, &clock.answers(), &Some(ANSWERS.as_slice()));
    assert_same(&rt, &moment(&mut clock), &1800);
    assert_holds(&rt, stopped_answering(&clock));
    Ok(())
}

// The next seed is this.
fn seeds<E: Entropy>(rt: &impl Abort, entropy: &mut E, want: Seeded) {
    assert_same(rt, &entropy.seed(), &want);
}

// Two seeds. The second call fails.
fn two_seeds(alloc: Global) -> Result<MemoryEntropy, AllocError> {
    let seeds = vec![in alloc; [1; 32], [2; 32]]?;
    let fail_at = vec![in alloc; 2]?;
    Ok(MemoryEntropy::new(seeds, fail_at))
}

fn seed_four<E: Entropy>(rt: &impl Abort, entropy: &mut E) {
    seeds(rt, entropy, Seeded::Seed([1; 32]));
    seeds(rt, entropy, Seeded::Failed);
    seeds(rt, entropy, Seeded::Seed([2; 32]));
    seeds(rt, entropy, Seeded::Failed);
}

#[test]
fn seeds_come_in_their_order_past_a_failing_call(rt: HostRuntime) -> Result<(), Fail> {
    let mut entropy = two_seeds(rt.alloc())?;
    seed_four(&rt, &mut entropy);
    assert_same(&rt, &entropy.faults(), &2);
    assert_count(&rt, entropy.given().len(), 2);
    Ok(())
}

// Two files. The second read fails, and so does one after two texts were told.
fn two_files(alloc: Global) -> Result<MemoryFiles, AllocError> {
    let a = MemoryFile::new(alloc, "a.conf", b"name a")?;
    let b = MemoryFile::new(alloc, "b.conf", b"name b")?;
    let list = vec![in alloc; a, b]?;
    let fail_at = vec![in alloc; 2]?;
    MemoryFiles::new(alloc, list, fail_at, 2)
}

// Whether a read of the name answers this text, or fails where there is none.
fn reads<F: Files>(files: &mut F, alloc: Global, name: &str, want: Option<&[u8]>) -> bool {
    match files.read(alloc, name) {
        Ok(text) => want == Some(text.as_slice()),
        Err(error) => error == FileError::Failed && want.is_none(),
    }
}

// The read of this name was as it is wanted.
fn assert_read(rt: &impl Abort, name: &str, holds: bool) {
    assert!(rt; holds, "{name}");
}

// The names that are read, one after the other, and their texts.
const READS: &[(&str, Option<&[u8]>)] = &[
    ("b.conf", Some(b"name b")),
    ("b.conf", None),
    ("c.conf", None),
    ("a.conf", Some(b"name a")),
    ("a.conf", None),
];

fn read_five<F: Files>(rt: &impl Abort, files: &mut F, alloc: Global) {
    for (name, want) in READS {
        assert_read(rt, *name, reads(files, alloc, *name, *want));
    }
}

#[test]
fn a_file_is_read_by_its_name(rt: HostRuntime) -> Result<(), Fail> {
    let mut files = two_files(rt.alloc())?;
    read_five(&rt, &mut files, rt.alloc());
    assert_same(&rt, &files.faults(), &3);
    Ok(())
}

// A write of this text has this answer.
fn writes<S: Sink>(rt: &impl Abort, sink: &mut S, text: &str, want: Wrote) {
    assert_same(rt, &sink.write(text.as_bytes()), &want);
}

fn write_three<S: Sink>(rt: &impl Abort, sink: &mut S) {
    writes(rt, sink, "one\n", Wrote::Ok);
    writes(rt, sink, "two\n", Wrote::Failed);
    writes(rt, sink, "three\n", Wrote::Failed);
}

// A sink with room for ten octets, whose second call fails.
fn with_room_for_ten(alloc: Global) -> Result<MemorySink, AllocError> {
    let fail_at = vec![in alloc; 2]?;
    MemorySink::new(alloc, fail_at, 10)
}

#[test]
fn a_failing_write_appends_a_front(rt: HostRuntime) -> Result<(), Fail> {
    let mut sink = with_room_for_ten(rt.alloc())?;
    write_three(&rt, &mut sink);
    assert_octets(&rt, &sink.text(), b"one\ntwthre".as_slice());
    assert_same(&rt, &sink.faults(), &2);
    Ok(())
}

// Notes the round of this number.
fn noted<T: Trace>(alloc: Global, trace: &mut T, number: u64) -> Result<Noted, AllocError> {
    let record = round(alloc, number)?;
    Ok(trace.note(&record))
}

// A trace with room for two such rounds, whose third call fails.
fn with_room_for_two(alloc: Global) -> Result<MemoryTrace, AllocError> {
    let fail_at = vec![in alloc; 3]?;
    MemoryTrace::new(alloc, fail_at, 8, 8)
}

// A note of the round 7 has this answer.
fn notes<T: Trace>(rt: &impl Abort, alloc: Global, trace: &mut T, want: Noted) {
    assert_same(rt, &noted(alloc, trace, 7), &Ok(want));
}

fn note_four<T: Trace>(rt: &impl Abort, alloc: Global, trace: &mut T) {
    assert_same(rt, &trace.start("trace"), &Noted::Ok);
    notes(rt, alloc, trace, Noted::Ok);
    notes(rt, alloc, trace, Noted::Failed);
    notes(rt, alloc, trace, Noted::Ok);
    notes(rt, alloc, trace, Noted::Failed);
}

fn assert_heads(rt: &impl Abort, heads: &[Head]) {
    for head in heads {
        assert_same(rt, &head.number, &7);
    }
}

fn assert_entry(rt: &impl Abort, entry: &Entry, octet: u8) {
    assert_octets(rt, entry.item.frame.payload(), &[octet].as_slice());
    assert_same(rt, &entry.item.frame.headroom(), &65);
}

const OCTETS: &[u8] = &[1, 2, 3, 1, 2, 3];

fn assert_entries(rt: &impl Abort, entries: &[Entry]) {
    for (entry, octet) in entries.iter().zip(OCTETS) {
        assert_entry(rt, entry, *octet);
    }
}

// How many heads, entries, loose items, outs and refused items it keeps.
fn lens(trace: &MemoryTrace) -> [usize; 5] {
    [
        trace.heads().len(),
        trace.entries().len(),
        trace.loose().len(),
        trace.outs().len(),
        trace.refused().len(),
    ]
}

// Two rounds are kept whole.
fn assert_whole_rounds(rt: &impl Abort, trace: &MemoryTrace) {
    assert_heads(rt, trace.heads());
    assert_same(rt, &trace.allowances(), &[10, 20, 10, 20].as_slice());
    assert_entries(rt, trace.entries());
    assert_same(rt, &lens(trace), &[2, 6, 2, 2, 2]);
}

#[test]
fn a_trace_keeps_whole_rounds_in_flat_lists(rt: HostRuntime) -> Result<(), Fail> {
    let mut trace = with_room_for_two(rt.alloc())?;
    note_four(&rt, rt.alloc(), &mut trace);
    assert_same(&rt, &trace.faults(), &2);
    assert_whole_rounds(&rt, &trace);
    Ok(())
}

#[test]
fn the_open_gate_and_no_trace_do_nothing(rt: HostRuntime) -> Result<(), Fail> {
    let mut none = NoTrace;
    assert_same(&rt, &none.start("trace"), &Noted::Ok);
    assert_same(&rt, &noted(rt.alloc(), &mut none, 1)?, &Noted::Ok);
    OpenGate.at(0, 1);
    Ok(())
}
