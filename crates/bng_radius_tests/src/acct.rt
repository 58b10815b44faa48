ghost use Rattle.std.specs.Prelude.{◌≡◌, ◌<◌, ◌≤◌, ◌∷◌, [], List};
ghost use Rattle.bng_radius_wire.specs.Attributes.{Field};
ghost use Rattle.bng_acct.specs.Request.{AreClasses};

use crate::asserts::{assert_holds, assert_same};
use arrayvec::ArrayVec;
use bng_acct::{AcctRules, Moment, RecordNo, Spool, StatusType, TermFacts};
use bng_base::{Book, Circuit, Frame, Ip4, Mac, Peer, SessionNo, TermId, TunnelNo};
use std::alloc::Global;
use std::process::Abort;
use std::test::Fail;

const RULES_WALL: u64 = 1_700_000_000;

fn rules(terms: u32) -> AcctRules
    requires { terms ≤ 262144 }
    ensures { result.terms ≤ 262144 }
{
    let mut name = ArrayVec::new();
    let _ = name.try_extend_from_slice(b"bng1");
    AcctRules {
        terms,
        wall: RULES_WALL,
        name,
        nas_ip: Ip4(0xc0a8_0110),
    }
}

pub(crate) const PPPOE: Circuit = Circuit::Pppoe {
    port: 1,
    mac: Mac([2, 0, 0, 0, 0, 1]),
    session: SessionNo(1025),
};

const L2TP: Circuit = Circuit::L2tp {
    peer: Peer {
        ip: Ip4(0xc000_020a),
        port: 1701,
    },
    tunnel: TunnelNo(1027),
    session: SessionNo(1025),
};

fn term(session: u16, serial: u64) -> TermId {
    TermId {
        session: SessionNo(session),
        serial,
    }
}

// The Classes "a" and "bc".
pub(crate) fn classes() -> ArrayVec<u8, 512>
    ensures { result.items ≡ 25 ∷ 3 ∷ 97 ∷ 25 ∷ 4 ∷ 98 ∷ 99 ∷ [] }
{
    let mut class = ArrayVec::new();
    let _ = class.try_extend_from_slice(&[25, 3, 97, 25, 4, 98, 99]);
    class
}

// A term with the Classes "a" and "bc", which began after a second.
fn facts(term: TermId, circuit: Circuit, input: u64, output: u64) -> TermFacts
    ensures { (classes : List Field) × AreClasses classes result.class.items }
{
    let mut user = ArrayVec::new();
    let _ = user.try_extend_from_slice(b"nemo");
    TermFacts {
        term,
        circuit,
        address: Ip4(0x0a00_0002),
        user,
        class: classes(),
        began: 1_000,
        carried: Book {
            input,
            output,
            input_packets: 5,
            output_packets: 6,
        },
    }
}

// Forms a record where that may be done.
fn form(
    rt: &impl Abort,
    spool: &mut Spool,
    status: StatusType,
    facts: &TermFacts,
    now: u64,
) -> RecordNo
    requires { (classes : List Field) × AreClasses classes facts.now.class.items }
{
    assert_holds(rt, facts.began <= now);
    assert_holds(rt, spool.free() > 0);
    assert_holds(rt, spool.open_number(facts.term, status).is_none());
    let at = Moment {
        now,
        wall: 1_700_000_062,
        cause: 1,
    };
    match status {
        StatusType::Start => spool.start(facts, at),
        StatusType::Interim => spool.interim(facts, at),
        StatusType::Stop => spool.stop(facts, at),
    }
}

// A record of this kind, circuit and moment, and its octets in hexadecimal digits. They were made from the
// tables of RFC 2865, RFC 2866 and RFC 2869 by a script.
const RECORDS: &[(StatusType, Circuit, u64, &str)] = &[
    (
        StatusType::Stop,
        PPPOE,
        62_999,
        "040000ca0000000000000000000000000000000001066e656d6f0406c0a8011005060000040106060000000207060000000108060a000002190361190462631f1330323a30303a30303a30303a30303a30312006626e67312806000000022a06000000132b06000000072c1a3635353366313030303430313030303030303030303030312e060000003d2f060000000530060000000631060000000134060000000135060000000337066553f13e3d0600000005571670312f3032303030303030303030312f31303235",
    ),
    (
        StatusType::Start,
        L2TP,
        1_000,
        "0400008d0000000000000000000000000000000001066e656d6f0406c0a8011005060000040106060000000207060000000108060a000002190361190462632006626e67312806000000012c1a36353533663130303034303130303030303030303030303137066553f13e3d0600000005571c743139322e302e322e31303a313730312f313032372f31303235",
    ),
    (
        StatusType::Interim,
        PPPOE,
        62_999,
        "040000c40000000000000000000000000000000001066e656d6f0406c0a8011005060000040106060000000207060000000108060a000002190361190462631f1330323a30303a30303a30303a30303a30312006626e67312806000000032a06000000132b06000000072c1a3635353366313030303430313030303030303030303030312e060000003d2f060000000530060000000634060000000135060000000337066553f13e3d0600000005571670312f3032303030303030303030312f31303235",
    ),
];

// Writes the one record of a spool, which is formed of this kind, circuit and moment.
fn write_one(
    rt: &impl Abort,
    alloc: Global,
    frame: &mut Frame,
    status: StatusType,
    circuit: Circuit,
    now: u64,
) -> Result<(), Fail> {
    let mut spool = Spool::open(alloc, &rules(64))?;
    let term = facts(term(1025, 1), circuit, 0x1_0000_0013, 0x3_0000_0007);
    let number = form(rt, &mut spool, status, &term, now);
    assert_holds(rt, spool.next(frame) == Some(number));
    Ok(())
}

fn assert_payload(rt: &impl Abort, alloc: Global, frame: &Frame, octets: &str) -> Result<(), Fail> {
    let text = hex::encode(alloc, frame.payload())?;
    assert_same(rt, &text.as_str(), &octets);
    Ok(())
}

#[test]
fn records_have_the_octets_of_their_facts(rt: HostRuntime) -> Result<(), Fail> {
    let mut frame = Frame::new();
    for (status, circuit, now, octets) in RECORDS {
        write_one(&rt, rt.alloc(), &mut frame, *status, *circuit, *now)?;
        assert_payload(&rt, rt.alloc(), &frame, octets)?;
    }
    Ok(())
}

// Hands out the record that waits longest.
fn next(spool: &mut Spool) -> Option<RecordNo> {
    let mut frame = Frame::new();
    spool.next(&mut frame)
}

// Asserts the room beside the terms that are held, and the number of Stops that are open.
fn assert_sizes(rt: &impl Abort, spool: &Spool, free: u32, stops: u32) {
    assert_same(rt, &spool.free(), &free);
    assert_same(rt, &spool.unacked_stops(), &stops);
}

// Forms a Start, an Interim and a Stop of the term 1.
fn form_three(rt: &impl Abort, spool: &mut Spool) -> [RecordNo; 3] {
    let one = facts(term(1025, 1), PPPOE, 84, 0);
    let start = form(rt, spool, StatusType::Start, &one, 1_000);
    let interim = form(rt, spool, StatusType::Interim, &one, 2_000);
    let stop = form(rt, spool, StatusType::Stop, &one, 3_000);
    [start, interim, stop]
}

// Hands out these records, which stay open.
fn hand_out(rt: &impl Abort, spool: &mut Spool, numbers: [RecordNo; 3]) {
    for number in numbers {
        assert_holds(rt, next(spool) == Some(number));
        assert_holds(rt, spool.knows(number));
    }
    assert_holds(rt, next(spool) == None);
}

// Acknowledges the Interim, the Stop and the Start of the term 1.
fn acknowledge_three(rt: &impl Abort, spool: &mut Spool, numbers: [RecordNo; 3]) {
    let [start, interim, stop] = numbers;
    spool.acked(interim);
    assert_holds(rt, spool.interim_free(&term(1025, 1)));
    spool.acked(stop);
    assert_sizes(rt, spool, 63, 0);
    spool.acked(start);
    assert_holds(rt, !spool.knows(start));
}

#[test]
fn records_go_out_in_order_and_stay_until_acknowledged(rt: HostRuntime) -> Result<(), Fail> {
    let mut spool = Spool::open(rt.alloc(), &rules(64))?;
    let numbers = form_three(&rt, &mut spool);
    assert_sizes(&rt, &spool, 63, 1);
    assert_holds(&rt, !spool.interim_free(&term(1025, 1)));
    hand_out(&rt, &mut spool, numbers);
    acknowledge_three(&rt, &mut spool, numbers);
    assert_same(&rt, &spool.free(), &64);
    Ok(())
}

// Forms the Stop of a term, and then its Start.
fn form_late(rt: &impl Abort, spool: &mut Spool, session: u16, serial: u64) {
    let facts = facts(term(session, serial), PPPOE, 84, serial);
    let stop = form(rt, spool, StatusType::Stop, &facts, 3_000);
    let start = form(rt, spool, StatusType::Start, &facts, 3_000);
    assert_holds(rt, start != stop);
}

fn assert_facts(rt: &impl Abort, facts: &TermFacts, term: TermId) {
    assert_holds(rt, facts.term == term);
    assert_holds(rt, facts.circuit == PPPOE);
    assert_holds(rt, facts.address == Ip4(0x0a00_0002));
    assert_same(rt, &facts.carried.input, &84);
    assert_same(rt, &facts.carried.output, &term.serial);
}

// Asserts that the Stop of this term is listed at this place.
fn assert_stop(rt: &impl Abort, spool: &Spool, at: u32, term: TermId) {
    match spool.unacked(at) {
        Some(facts) => assert_facts(rt, facts, term),
        None => assert!(rt; false, "it is not listed"),
    }
}

// Forgets all but the Stops of three terms, of which one record was handed out.
fn keep_stops(rt: &impl Abort, spool: &mut Spool) {
    assert_holds(rt, next(spool).is_some());
    spool.stops_only();
    assert_sizes(rt, spool, 61, 3);
}

#[test]
fn stops_alone_stay_and_are_listed_by_session_and_term(rt: HostRuntime) -> Result<(), Fail> {
    let mut spool = Spool::open(rt.alloc(), &rules(64))?;
    for (session, serial) in [(1026, 2), (1025, 7), (1025, 1)] {
        form_late(&rt, &mut spool, session, serial);
    }
    keep_stops(&rt, &mut spool);
    for (at, session, serial) in [(0, 1025, 1), (1, 1025, 7), (2, 1026, 2)] {
        assert_stop(&rt, &spool, at, term(session, serial));
    }
    assert_holds(&rt, spool.unacked(3).is_none());
    for _ in 0..2 {
        assert_holds(&rt, next(&mut spool).is_some());
    }
    assert_holds(&rt, next(&mut spool) == None);
    Ok(())
}

const MANY: u64 = 20_000;

// A number below MANY for each such number, no two alike and far from one another.
fn scattered(n: u64) -> usize
    requires { n < 20000 }
{
    (n * 7_919 % MANY) as usize
}

// Acknowledges records in a scattered order.
fn acknowledge(rt: &impl Abort, spool: &mut Spool, numbers: &[RecordNo]) {
    for n in 0..MANY {
        match numbers.get(scattered(n)) {
            Some(number) => {
                assert_holds(rt, spool.knows(*number));
                spool.acked(*number);
                assert_holds(rt, !spool.knows(*number));
            }
            None => assert!(rt; false, "it has no number"),
        }
    }
}

// The Starts of terms that rise, and the Stops of the same that fall.
fn fill(
    rt: &impl Abort,
    spool: &mut Spool,
    starts: &mut Vec<RecordNo>,
    stops: &mut Vec<RecordNo>,
) -> Result<(), Fail> {
    for n in 0..MANY {
        let facts = facts(term(1025, n + 1), PPPOE, 84, 0);
        starts.push(form(rt, spool, StatusType::Start, &facts, 2_000))?;
    }
    for n in 0..MANY {
        let facts = facts(term(1025, MANY - n), PPPOE, 84, 0);
        stops.push(form(rt, spool, StatusType::Stop, &facts, 3_000))?;
    }
    Ok(())
}

// The term of the Stop that is listed at this place.
fn listed(spool: &Spool, at: u32) -> Option<TermId> {
    match spool.unacked(at) {
        Some(facts) => Some(facts.term),
        None => None,
    }
}

// Asserts that the Stops of all terms are listed in order, and no other one.
fn assert_all_listed(rt: &impl Abort, spool: &Spool) {
    for at in 0..20_000u32 {
        assert_holds(rt, listed(spool, at) == Some(term(1025, u64::from(at) + 1)));
    }
    assert_holds(rt, listed(spool, 20_000).is_none());
}

// Hands out these records, and no other one.
fn hand_out_all(rt: &impl Abort, spool: &mut Spool, numbers: &[RecordNo]) {
    for number in numbers {
        assert_holds(rt, next(spool) == Some(*number));
    }
    assert_holds(rt, next(spool) == None);
}

// Acknowledges the Starts, which are not handed out, and then the Stops, which are.
fn acknowledge_all(rt: &impl Abort, spool: &mut Spool, starts: &[RecordNo], stops: &[RecordNo]) {
    acknowledge(rt, spool, starts);
    assert_same(rt, &spool.free(), &1);
    hand_out_all(rt, spool, stops);
    acknowledge(rt, spool, stops);
    assert_sizes(rt, spool, 20_001, 0);
    assert_holds(rt, listed(spool, 0).is_none());
}

#[test]
fn thousands_of_terms_come_and_go(rt: HostRuntime) -> Result<(), Fail> {
    let mut spool = Spool::open(rt.alloc(), &rules(20_001))?;
    let mut starts = Vec::new(rt.alloc());
    let mut stops = Vec::new(rt.alloc());
    fill(&rt, &mut spool, &mut starts, &mut stops)?;
    assert_sizes(&rt, &spool, 1, 20_000);
    assert_all_listed(&rt, &spool);
    acknowledge_all(&rt, &mut spool, starts.as_slice(), stops.as_slice());
    fill(&rt, &mut spool, &mut starts, &mut stops)?;
    assert_sizes(&rt, &spool, 1, 20_000);
    Ok(())
}
