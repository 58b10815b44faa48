ghost use Rattle.std.specs.Prelude.{◌≡◌, Some, None};

use crate::asserts::assert_holds;
use bng_base::{Circuit, Ip4, Mac, Peer, SessionNo, TermId, TunnelNo};
use bng_sessions::Slotted;
use bng_slots::{SlotError, Slots};
use std::alloc::Global;
use std::process::Abort;
use std::test::Fail;

/// A session that nothing is found by.
#[derive(Drop, PartialEq)]
struct Blank {
    tag: u16,
}

impl Slotted for Blank {
    ghost circuit = { λ _. None };

    ghost address = { λ _. None };

    ghost term = { λ _. None };

    ghost deadline = { λ _. None };

    fn circuit(&self) -> Option<Circuit> {
        None
    }

    fn address(&self) -> Option<Ip4> {
        None
    }

    fn term(&self) -> Option<TermId> {
        None
    }

    fn deadline(&self) -> Option<u64> {
        None
    }
}

// Inserts a value, and tells its number.
fn number_of(slots: &mut Slots<Blank>, tag: u16) -> Option<SessionNo> {
    slots.insert(Blank { tag }).ok()
}

// The value that is handed back where all numbers are taken.
fn handed_back(slots: &mut Slots<Blank>, tag: u16) -> Option<Blank> {
    match slots.insert(Blank { tag }) {
        Ok(_) => None,
        Err(full) => Some(full.value),
    }
}

fn fill(rt: &impl Abort, slots: &mut Slots<Blank>) {
    for tag in 1..1023 {
        assert_holds(rt, number_of(slots, tag) == Some(SessionNo(tag)));
    }
}

fn give_five_again(rt: &impl Abort, slots: &mut Slots<Blank>) {
    assert_holds(rt, slots.remove(SessionNo(5)) == Some(Blank { tag: 5 }));
    assert_holds(rt, slots.remove(SessionNo(5)).is_none());
    assert_holds(rt, number_of(slots, 3000) == Some(SessionNo(5)));
}

#[test]
fn the_lowest_number_is_given_first_and_given_again(rt: HostRuntime) -> Result<(), Fail> {
    let mut slots = Slots::open(rt.alloc(), 0)?;
    fill(&rt, &mut slots);
    assert_holds(&rt, slots.vacant().is_none());
    assert_holds(
        &rt,
        handed_back(&mut slots, 2000) == Some(Blank { tag: 2000 }),
    );
    give_five_again(&rt, &mut slots);
    Ok(())
}

/// A subscriber's session.
#[derive(Drop)]
struct Line {
    circuit: Circuit,
    address: Ip4,
    term: TermId,
    deadline: Option<u64>,
}

impl Slotted for Line {
    ghost circuit = { λ l. Some l.circuit };

    ghost address = { λ l. Some l.address };

    ghost term = { λ l. Some l.term };

    ghost deadline = { λ l. l.deadline };

    fn circuit(&self) -> Option<Circuit> {
        Some(self.circuit)
    }

    fn address(&self) -> Option<Ip4> {
        Some(self.address)
    }

    fn term(&self) -> Option<TermId> {
        Some(self.term)
    }

    fn deadline(&self) -> Option<u64> {
        self.deadline
    }
}

fn pppoe(session: u16) -> Line {
    Line {
        circuit: Circuit::Pppoe {
            port: 1,
            mac: Mac([2, 0, 0, 0, 0, 1]),
            session: SessionNo(session),
        },
        address: Ip4(0x0a00_0002),
        term: TermId {
            session: SessionNo(session),
            serial: 1,
        },
        deadline: Some(3000),
    }
}

fn l2tp(session: u16) -> Line {
    Line {
        circuit: Circuit::L2tp {
            peer: Peer {
                ip: Ip4(0xc000_0201),
                port: 1701,
            },
            tunnel: TunnelNo(64_513),
            session: SessionNo(session),
        },
        address: Ip4(0x0a00_0003),
        term: TermId {
            session: SessionNo(session),
            serial: 2,
        },
        deadline: Some(2000),
    }
}

fn third() -> Line {
    Line {
        address: Ip4(0x0a00_0004),
        deadline: Some(3000),
        ..l2tp(64_515)
    }
}

// Puts a line under a number of shard 63 once nothing stands in its way.
fn admit(rt: &impl Abort, slots: &mut Slots<Line>, n: u16, line: Line) {
    let number = SessionNo(n);
    assert_holds(rt, slots.shard() == 63);
    assert_holds(rt, 64_513 <= n && n <= 65_534);
    assert_holds(rt, slots.get(number).is_none());
    assert_holds(rt, slots.by_circuit(&line.circuit).is_none());
    assert_holds(rt, slots.by_address(line.address).is_none());
    assert_holds(rt, slots.by_term(&line.term).is_none());
    slots.put(number, line);
}

// What the indexes say of a line.
fn found(
    slots: &Slots<Line>,
    line: &Line,
) -> (Option<SessionNo>, Option<SessionNo>, Option<SessionNo>) {
    (
        slots.by_circuit(&line.circuit),
        slots.by_address(line.address),
        slots.by_term(&line.term),
    )
}

fn lines(alloc: Global) -> Result<Slots<Line>, SlotError> {
    Slots::open(alloc, 63)
}

fn finds(rt: &impl Abort, slots: &Slots<Line>, line: Line, n: Option<SessionNo>) {
    assert_holds(rt, found(slots, &line) == (n, n, n));
}

// A line whose number is the low one, and one whose number is the high one.
fn admit_two(rt: &impl Abort, slots: &mut Slots<Line>) {
    admit(rt, slots, 65_534, pppoe(65_534));
    admit(rt, slots, 64_513, l2tp(64_513));
}

fn removed(slots: &mut Slots<Line>, n: u16) -> bool {
    slots.remove(SessionNo(n)).is_some()
}

#[test]
fn each_index_leads_to_its_session_until_it_is_removed(rt: HostRuntime) -> Result<(), Fail> {
    let mut slots = lines(rt.alloc())?;
    admit_two(&rt, &mut slots);
    finds(&rt, &slots, pppoe(65_534), Some(SessionNo(65_534)));
    finds(&rt, &slots, l2tp(64_513), Some(SessionNo(64_513)));
    assert_holds(&rt, removed(&mut slots, 65_534));
    finds(&rt, &slots, pppoe(65_534), None);
    Ok(())
}

fn admit_three(rt: &impl Abort, slots: &mut Slots<Line>) {
    admit(rt, slots, 64_520, pppoe(64_520));
    admit(rt, slots, 64_530, l2tp(64_530));
    admit(rt, slots, 64_515, third());
}

#[test]
fn the_earliest_deadline_comes_first_and_then_the_lower_number(
    rt: HostRuntime,
) -> Result<(), Fail> {
    let mut slots = lines(rt.alloc())?;
    admit_three(&rt, &mut slots);
    assert_holds(&rt, slots.earliest() == Some((2000, SessionNo(64_530))));
    assert_holds(&rt, removed(&mut slots, 64_530));
    assert_holds(&rt, slots.earliest() == Some((3000, SessionNo(64_515))));
    Ok(())
}
