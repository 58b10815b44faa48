//! A packet of a circuit and `stop`, where the server of accounting answers at once and exactly one call of the outside fails.
ghost use Rattle.std.specs.Prelude.{◌≡◌, ◌≤◌, ◌<◌, ◌^◌, None, false, true};
ghost use Rattle.bng_base.specs.Causes.{HasCause};
ghost use Rattle.bng_plant.specs.Calls.{IsFilled};

use super::reports::{Counted, report};
use super::running::{Beside, Failures, SERVE, around, around_failing, run_with, seed};
use super::{CONFIGURATION, PACKET, frame_of, has_all, loopback};
use crate::asserts::{assert_count, assert_holds, assert_octets, assert_same};
use bng_base::{Frame, Peer, Received, Role};
use bng_digest::md5_of;
use bng_plant::{Bound, Clock, MemoryEntropy, MemoryTrace, NoTrace, Plant, Sending, Trace};
use std::alloc::{AllocError, Global};
use std::cell::Cell;
use std::process::Abort;
use std::rc::Rc;
use std::sync::Wait;
use std::test::Fail;
use std::thread::Threads;

/// A call of the plant.
#[derive(Clone, Copy, PartialEq, Debug)]
enum Call {
    Bind(Role),
    Receive(Role),
    Send(Role),
}

/// What the gateway tried to send, to whom, and when, in milliseconds.
#[derive(Drop)]
struct Tried {
    role: Role,
    to: Peer,
    moment: u64,
    octets: Vec<u8>,
}

/// The access port gives the packet, the server of accounting answers what it hears, and the operator says `stop` once a send to the core was
/// tried. One call fails, by its number from 1 on: it takes nothing, sends nothing and binds nothing.
#[derive(Drop)]
struct Ends {
    alloc: Global,
    moment: Rc<Cell<u64>>,
    begun: u64,
    fails: u64,
    failed: Option<Call>,
    lost: usize,
    faults: u64,
    packet: Vec<u8>,
    gave_packet: bool,
    tried_core: bool,
    said_stop: bool,
    answers: Vec<[u8; 20]>,
    answered: usize,
    tried: Vec<Tried>,
}

/// The Accounting-Response to an Accounting-Request (RFC 2866 section 4.2).
fn response_to(record: &[u8]) -> Option<[u8; 20]> {
    let id = *record.get(1)?;
    let authenticator = record.get(4..20)?;
    let mut response = [0; 20];
    response[..4].copy_from_slice(&[5, id, 0, 20]);
    let signed = md5_of(&[&[5, id, 0, 20], authenticator, b"xyzzy5461"]);
    response[4..].copy_from_slice(&signed);
    Some(response)
}

impl Ends {
    /// Nothing was said yet.
    fn new(alloc: Global, moment: Rc<Cell<u64>>, fails: u64) -> Result<Ends, AllocError> {
        Ok(Ends {
            alloc,
            moment,
            begun: 0,
            fails,
            failed: None,
            lost: 0,
            faults: 0,
            packet: frame_of(alloc, &PACKET)?,
            gave_packet: false,
            tried_core: false,
            said_stop: false,
            answers: Vec::new(alloc),
            answered: 0,
            tried: Vec::new(alloc),
        })
    }

    /// A call begins: whether it goes on.
    fn goes_on(&mut self, call: Call) -> bool
        ensures cause { HasCause self.old.faults self.new.faults (result ≡ false) }
        ensures uncounted { result ≡ true → self.new.faults ≡ self.old.faults }
    {
        self.begun = self.begun.saturating_add(1);
        if self.begun != self.fails {
            return true;
        }
        self.failed = Some(call);
        self.faults = self.faults.saturating_add(1);
        false
    }

    /// Whom the next datagram of a role is from, where there is one, which it puts into the frame.
    fn give(&mut self, role: Role, into: &mut Frame) -> Received
        ensures filled { IsFilled result into.new }
        ensures kept { self.new.faults ≡ self.old.faults }
        ensures given { ¬ (result ≡ Received.Failed) }
    {
        match role {
            Role::Access(_) => self.give_packet(into),
            Role::Acct => self.give_answer(into),
            Role::Control => self.say_stop(into),
            _ => Received::Empty,
        }
    }

    fn give_packet(&mut self, into: &mut Frame) -> Received
        ensures filled { IsFilled result into.new }
        ensures kept { self.new.faults ≡ self.old.faults }
        ensures given { ¬ (result ≡ Received.Failed) }
    {
        if self.gave_packet || self.packet.len() > 4096 {
            return Received::Empty;
        }
        self.gave_packet = true;
        into.set(self.packet.as_slice());
        from(9011)
    }

    fn give_answer(&mut self, into: &mut Frame) -> Received
        ensures filled { IsFilled result into.new }
        ensures kept { self.new.faults ≡ self.old.faults }
        ensures given { ¬ (result ≡ Received.Failed) }
    {
        let Some(answer) = self.answers.get(self.answered) else {
            return Received::Empty;
        };
        into.set(answer);
        self.answered = self.answered.saturating_add(1);
        from(1813)
    }

    fn say_stop(&mut self, into: &mut Frame) -> Received
        ensures filled { IsFilled result into.new }
        ensures kept { self.new.faults ≡ self.old.faults }
        ensures given { ¬ (result ≡ Received.Failed) }
    {
        if self.said_stop || !self.tried_core {
            return Received::Empty;
        }
        self.said_stop = true;
        into.set(b"stop");
        from(5)
    }

    /// Keeps what is sent.
    fn keep(&mut self, role: Role, to: Peer, bytes: &[u8]) -> Result<(), AllocError>
        ensures kept { self.new.faults ≡ self.old.faults }
    {
        let octets = Vec::from_slice(self.alloc, bytes)?;
        let moment = self.moment.get();
        self.tried.push(Tried {
            role,
            to,
            moment,
            octets,
        })?;
        Ok(())
    }

    /// The server of accounting hears this.
    fn hear(&mut self, bytes: &[u8]) -> Result<(), AllocError>
        ensures kept { self.new.faults ≡ self.old.faults }
    {
        if let Some(response) = response_to(bytes) {
            self.answers.push(response)?;
        }
        Ok(())
    }
}

/// A whole datagram from this port of 127.0.0.1.
fn from(port: u16) -> Received
    ensures { ¬ (result ≡ Received.Failed) }
{
    Received::Got {
        from: loopback(port),
        cut: false,
    }
}

impl Plant for Ends {
    ghost told = { λ ends. record { bound = None; heard = None; taken = None; sent = None; faults = ends.faults } };

    fn bind(&mut self, role: Role, _local: Peer, _remote: Option<Peer>) -> Bound {
        if self.goes_on(Call::Bind(role)) {
            Bound::Ok
        } else {
            Bound::Failed
        }
    }

    fn recv(&mut self, role: Role, into: &mut Frame) -> Received {
        if self.goes_on(Call::Receive(role)) {
            self.give(role, into)
        } else {
            Received::Failed
        }
    }

    fn send(&mut self, role: Role, to: Peer, bytes: &[u8]) -> Sending {
        let place = self.tried.len();
        let kept = self.keep(role, to, bytes);
        self.tried_core = self.tried_core || role == Role::Core;
        if !self.goes_on(Call::Send(role)) {
            self.lost = place;
            return Sending::Failed;
        }
        if kept.is_err() || role == Role::Acct && self.hear(bytes).is_err() {
            self.faults = self.faults.saturating_add(1);
            return Sending::Failed;
        }
        Sending::Sent
    }

    fn wait(&mut self, ms: u32) {
        let moment = self.moment.get().saturating_add(u64::from(ms));
        self.moment.set(moment);
    }
}

/// The clock of these ends: it moves where they wait, and nowhere else.
#[derive(Drop)]
struct Moments {
    moment: Rc<Cell<u64>>,
    last: u64,
    ghost bound: { last < 2 ^ 60 },
}

impl Clock for Moments {
    ghost told = { λ moments. record { answers = None; last = moments.last } };

    fn now(&mut self) -> u64 {
        self.last = later(self.last, self.moment.get());
        self.last
    }

    fn wall(&mut self) -> u64 {
        (self.moment.get() / 1000).saturating_add(1_700_000_000)
    }
}

/// The later of a moment and one that is shared, kept below 2^60.
fn later(last: u64, shared: u64) -> u64
    requires { last < 2 ^ 60 }
    ensures later { last ≤ result }
    ensures bound { result < 2 ^ 60 }
{
    last.max(shared.min((1 << 60) - 1))
}

/// The number of the call that fails, of each object; 0 where none does.
#[derive(Clone, Copy)]
struct Fails {
    plant: u64,
    read: u64,
    seed: u64,
    note: u64,
    out: u64,
}

const NO_CALL: Fails = Fails {
    plant: 0,
    read: 0,
    seed: 0,
    note: 0,
    out: 0,
};

/// What such a run left.
#[derive(Drop)]
struct Row {
    status: u8,
    ends: Ends,
    beside: Beside,
    entropy: MemoryEntropy,
    trace: MemoryTrace,
}

/// The ends with their clock at the moment 0.
fn make_ends(alloc: Global, fails: u64) -> Result<(Ends, Moments), AllocError> {
    let moment = Rc::new(alloc, Cell::new(0))?;
    let clock = Moments {
        moment: moment.clone()?,
        last: 0,
    };
    Ok((Ends::new(alloc, moment, fails)?, clock))
}

/// A trace with room for all rounds, of which the note of this number fails.
fn make_trace(alloc: Global, fails: u64) -> Result<MemoryTrace, AllocError> {
    let mut list = Vec::new(alloc);
    list.push(fails)?;
    MemoryTrace::new(alloc, list, 8, 256)
}

/// The service of the circuit over these ends.
fn run_row<R: Threads + Wait + Sync>(
    rt: &R,
    alloc: Global,
    fails: Fails,
) -> Result<Row, AllocError> {
    let (mut plant, mut clock) = make_ends(alloc, fails.plant)?;
    let failures = Failures {
        reads: &[fails.read],
        outs: &[fails.out],
        errs: &[],
    };
    let mut beside = around_failing(alloc, &SERVE, CONFIGURATION, failures)?;
    let mut entropy = seed(alloc, &[fails.seed])?;
    let mut trace = make_trace(alloc, fails.note)?;
    let status = run_with(
        rt,
        alloc,
        &mut beside,
        &mut plant,
        &mut clock,
        &mut entropy,
        &mut trace,
    );
    Ok(Row {
        status,
        ends: plant,
        beside,
        entropy,
        trace,
    })
}

/// What a run ended with, and what it wrote.
fn ends_with(rt: &impl Abort, row: &Row, status: u8, out: &[u8], err: &[u8]) {
    assert_same(rt, &row.status, &status);
    assert_octets(rt, row.beside.out(), out);
    assert_octets(rt, row.beside.err(), err);
}

/// The attributes Acct-Status-Type Start and Stop (RFC 2866 section 5.1).
const START: &[u8] = &[40, 6, 0, 0, 0, 1];

const STOP: &[u8] = &[40, 6, 0, 0, 0, 2];

/// Acct-Input-Octets of 84 and of none, Acct-Output-Octets of none, and the Acct-Session-Id (RFC 2866 sections 5.3 to 5.5).
const IN_84: &[u8] = &[42, 6, 0, 0, 0, 84];

const IN_0: &[u8] = &[42, 6, 0, 0, 0, 0];

const OUT_0: &[u8] = &[43, 6, 0, 0, 0, 0];

const SESSION: &[u8] = b"\x2c\x1a6553f1000401000000000001";

/// What a run counts where the packet went to the core, and where that send failed; and the input octets of the Stop.
const WENT: Counted<'static> = Counted {
    octets: "in=84 out=0",
    lines: &["profile default in=84 out=0", "static 10.0.0.2 in=84 out=0"],
    drops: &[],
};

const FAILED: Counted<'static> = Counted {
    octets: "in=0 out=0",
    lines: &["profile default in=0 out=0", "static 10.0.0.2 in=0 out=0"],
    drops: &[("LinkFailed", 1)],
};

/// How many datagrams of this role a run tried to send that have this.
fn tries(row: &Row, role: Role, part: &[u8]) -> usize {
    let tried = row.ends.tried.iter();
    let of_role = tried.filter(|tried| tried.role == role);
    of_role
        .filter(|tried| has_all(tried.octets.as_slice(), &[part]))
        .count()
}

/// The first datagram of this role with this part that a run tried to send.
fn first_try<'a>(row: &'a Row, role: Role, part: &[u8]) -> Option<&'a Tried> {
    let mut tried = row.ends.tried.iter();
    tried.find(|tried| tried.role == role && has_all(tried.octets.as_slice(), &[part]))
}

/// A run tried once to send the packet to the core, with its TTL lowered by one; once the Start, once the answer to `stop`, and so many times
/// the Stop of the term, with these input octets.
fn tries_each(rt: &impl Abort, row: &Row, input: &[u8], stops: usize) {
    assert_count(rt, tries(row, Role::Core, LOWERED), 1);
    assert_count(rt, tries(row, Role::Core, &[]), 1);
    assert_count(rt, tries(row, Role::Acct, START), 1);
    assert_count(rt, tries(row, Role::Control, b"stopping\n"), 1);
    assert_count(rt, tries(row, Role::Acct, STOP), stops);
    assert_count(rt, row.ends.tried.len(), stops.saturating_add(3));
    let stop = first_try(row, Role::Acct, STOP).expect(rt, "a Stop");
    assert_holds(
        rt,
        has_all(stop.octets.as_slice(), &[input, OUT_0, SESSION]),
    );
}

/// The header of the packet at the core.
const LOWERED: &[u8] = &[
    0x45, 0, 0, 0x54, 0, 1, 0, 0, 0x3f, 1, 0xaf, 0xa5, 10, 0, 0, 2, 0xc0, 0, 2, 1,
];

/// Such a run ended with status 0 and this report, and said nothing else.
fn reports(
    rt: &impl Abort,
    alloc: Global,
    row: &Row,
    counted: &Counted<'_>,
) -> Result<(), AllocError> {
    let text = report(alloc, counted)?;
    ends_with(rt, row, 0, text.as_bytes(), b"");
    Ok(())
}

/// The packet went, and each datagram was tried once.
fn is_whole(rt: &impl Abort, alloc: Global, row: &Row) -> Result<(), AllocError> {
    tries_each(rt, row, IN_84, 1);
    reports(rt, alloc, row, &WENT)
}

/// The packet did not go, and is not accounted for.
fn lost_packet(rt: &impl Abort, alloc: Global, row: &Row) -> Result<(), AllocError> {
    tries_each(rt, row, IN_0, 1);
    reports(rt, alloc, row, &FAILED)
}

/// The first try of the Stop failed: the same octets go out 3,000 ms later.
fn stops_again(rt: &impl Abort, alloc: Global, row: &Row) -> Result<(), AllocError> {
    tries_each(rt, row, IN_84, 2);
    let first = first_try(row, Role::Acct, STOP).expect(rt, "a Stop");
    let last = row.ends.tried.last().expect(rt, "a Stop");
    assert_octets(rt, last.octets.as_slice(), first.octets.as_slice());
    assert_same(rt, &last.moment, &first.moment.saturating_add(3000));
    reports(rt, alloc, row, &WENT)
}

/// Nothing was sent, and no more was said than that this cannot be opened.
fn is_unopened(rt: &impl Abort, row: &Row, err: &[u8]) {
    ends_with(rt, row, 3, b"", err);
    assert_count(rt, row.ends.tried.len(), 0);
}

/// The line of a run that cannot bind a role.
fn unbound(role: Role) -> &'static [u8] {
    match role {
        Role::Control => b"bng: cannot open control\n",
        Role::Core => b"bng: cannot open core\n",
        Role::Access(_) => b"bng: cannot open access 1\n",
        Role::Auth => b"bng: cannot open auth\n",
        Role::Acct => b"bng: cannot open acct\n",
        Role::Tunnel | Role::Coa => b"",
    }
}

/// The datagram whose send failed.
fn lost(row: &Row) -> Option<&[u8]> {
    let tried = row.ends.tried.get(row.ends.lost)?;
    Some(tried.octets.as_slice())
}

/// How a run ends whose send to the server of accounting failed: that of the Start is not repeated, since serving ends before it is due
/// again.
fn missed_record(rt: &impl Abort, alloc: Global, row: &Row) -> Result<(), AllocError> {
    let record = lost(row).expect(rt, "a record");
    if has_all(record, &[STOP]) {
        return stops_again(rt, alloc, row);
    }
    assert_holds(rt, has_all(record, &[START]));
    is_whole(rt, alloc, row)
}

/// How a run ends in which this call of the plant failed.
fn ends_by(rt: &impl Abort, alloc: Global, row: &Row, call: Call) -> Result<(), AllocError> {
    match call {
        Call::Bind(role) => {
            is_unopened(rt, row, unbound(role));
            Ok(())
        }
        Call::Receive(_) | Call::Send(Role::Control) => is_whole(rt, alloc, row),
        Call::Send(Role::Core) => lost_packet(rt, alloc, row),
        Call::Send(_) => missed_record(rt, alloc, row),
    }
}

/// More calls than a run makes of one object.
const MOST: u64 = 64;

#[test]
fn each_call_of_the_plant_fails_in_turn(rt: HostRuntime) -> Result<(), Fail> {
    let alloc = rt.alloc();
    for call in 1..MOST {
        let row = run_row(
            &rt,
            alloc,
            Fails {
                plant: call,
                ..NO_CALL
            },
        )?;
        let Some(failed) = row.ends.failed else {
            // no call has this number
            is_whole(&rt, alloc, &row)?;
            return Ok(());
        };
        assert_same(&rt, &row.ends.faults, &1);
        ends_by(&rt, alloc, &row, failed)?;
    }
    assert_holds(&rt, false);
    Ok(())
}

#[test]
fn without_its_file_or_a_seed_nothing_is_opened(rt: HostRuntime) -> Result<(), Fail> {
    let alloc = rt.alloc();
    let unread = run_row(&rt, alloc, Fails { read: 1, ..NO_CALL })?;
    is_unopened(&rt, &unread, b"bng: cannot open configuration\n");
    let unseeded = run_row(&rt, alloc, Fails { seed: 1, ..NO_CALL })?;
    is_unopened(&rt, &unseeded, b"bng: cannot open seed\n");
    // neither is asked for twice
    is_whole(
        &rt,
        alloc,
        &run_row(&rt, alloc, Fails { read: 2, ..NO_CALL })?,
    )?;
    is_whole(
        &rt,
        alloc,
        &run_row(&rt, alloc, Fails { seed: 2, ..NO_CALL })?,
    )?;
    Ok(())
}

/// The rounds, and how many datagrams were tried once each was settled: of the packet and its Start, of `stop`, and of the Stop.
const ROUNDS: &[(u64, usize)] = &[(1, 2), (2, 3), (3, 4)];

/// A run whose trace does not take this round ends with status 5 and no report, and has tried to send so many datagrams.
fn untold<R: Threads + Wait + Sync + Abort>(
    rt: &R,
    alloc: Global,
    round: u64,
    tried: usize,
) -> Result<(), AllocError> {
    let row = run_row(
        rt,
        alloc,
        Fails {
            note: round,
            ..NO_CALL
        },
    )?;
    ends_with(rt, &row, 5, b"", b"bng: trace failed\n");
    assert_same(rt, &row.trace.faults(), &1);
    assert_count(rt, row.ends.tried.len(), tried);
    assert_count(rt, tries(&row, Role::Core, LOWERED), 1);
    assert_count(rt, tries(&row, Role::Acct, START), 1);
    Ok(())
}

#[test]
fn each_note_fails_in_turn(rt: HostRuntime) -> Result<(), Fail> {
    let alloc = rt.alloc();
    for (round, tried) in ROUNDS {
        untold(&rt, alloc, *round, *tried)?;
    }
    // the grace is not told
    let row = run_row(&rt, alloc, Fails { note: 4, ..NO_CALL })?;
    assert_count(&rt, row.trace.heads().len(), 3);
    is_whole(&rt, alloc, &row)?;
    Ok(())
}

/// These words over the configuration, with the first write to the output of errors failing.
fn unheard<R: Threads + Wait + Sync + Abort>(
    rt: &R,
    alloc: Global,
    words: &[&str],
) -> Result<(), AllocError> {
    let (mut plant, mut clock) = make_ends(alloc, 0)?;
    let failures = Failures {
        reads: &[],
        outs: &[],
        errs: &[1],
    };
    let mut beside = around_failing(alloc, words, CONFIGURATION, failures)?;
    let mut entropy = seed(alloc, &[])?;
    let status = run_with(
        rt,
        alloc,
        &mut beside,
        &mut plant,
        &mut clock,
        &mut entropy,
        &mut NoTrace,
    );
    assert_same(rt, &status, &5);
    assert_octets(rt, beside.out(), b"");
    assert_count(rt, plant.tried.len(), 0);
    Ok(())
}

#[test]
fn a_text_that_is_not_written_is_told_by_the_status(rt: HostRuntime) -> Result<(), Fail> {
    let alloc = rt.alloc();
    let row = run_row(&rt, alloc, Fails { out: 1, ..NO_CALL })?;
    assert_same(&rt, &row.status, &5);
    assert_octets(&rt, row.beside.err(), b"bng: output failed\n");
    tries_each(&rt, &row, IN_84, 1);
    // the report is one write, and the whole run writes nothing to the output of errors
    is_whole(
        &rt,
        alloc,
        &run_row(&rt, alloc, Fails { out: 2, ..NO_CALL })?,
    )?;
    unheard(&rt, alloc, &[])?;
    unheard(&rt, alloc, &["serve", "missing.toml"])?;
    Ok(())
}
