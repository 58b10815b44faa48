ghost use Rattle.std.specs.Prelude.{◌≡◌, ◌<◌, [], ◌∷◌, Some, ℕ, IfOk, length, true};
ghost use Rattle.bng_steps.specs.declared.rules.Rules.{Rules as Ways};
ghost use Rattle.bng_steps.specs.Frames.{charge_of};
ghost use Rattle.bng_steps.specs.Opening.{lease_from, provisioned};
ghost use Rattle.bng_steps.specs.Protocol.{opened};
ghost use Rattle.bng_pool.specs.Tables.{entry};
ghost use Rattle.std.specs.List.{All};
ghost use Rattle.bng_sessions.specs.Sessions.{IsNumberOf};

use super::settings::{TWO, peer, rules};
use super::{Bench, NOTHING, TO_IT, assert_sessions, item, request, span};
use crate::asserts::{assert_count, assert_holds, assert_octets, assert_same};
use arrayvec::ArrayVec;
use bng_base::{
    Book, Charge, Circuit, DropCause, Fate, Frame, Ip4, Item, ItemKind, Mac, Octets, OutRecord,
    Role, SessionNo, Static, TermId,
};
use bng_pool::PlainPool;
use bng_shard::Shard;
use bng_steps::{Charged, Traffic};
use std::alloc::Global;
use std::process::Abort;
use std::test::Fail;

mod handing;
mod shown;

use shown::{carried, first, leaves, second, shows};

pub(super) fn circuit() -> Static
    ensures number { IsNumberOf 1 result.session.0 }
    ensures port { result.port ≡ 1 }
    ensures profile { result.profile ≡ 0 }
{
    let mut user = ArrayVec::new();
    user.push(b'f');
    Static {
        port: 1,
        mac: Mac([2, 0, 0, 0, 0, 1]),
        session: SessionNo(1025),
        address: Ip4(0x0a000002),
        user,
        profile: 0,
    }
}

// The shard 1 with this circuit.
fn open_with(alloc: Global, circuit: &Static) -> Result<Shard, Fail>
    requires number { IsNumberOf 1 circuit.now.session.0 }
    requires port { circuit.now.port ≡ 1 }
    requires profile { circuit.now.profile ≡ 0 }
    ensures { IfOk result (λ s. (rules : Ways) × (rules.pools ≡ []) × (length rules.profiles ≡ 2) × (s ≡ opened 1 rules (circuit.now ∷ []) 0)) }
{
    let rules = rules(alloc)?;
    let circuits = std::slice::from_ref(circuit);
    let shard = Shard::open(alloc, 1, rules, circuits, 0)?;
    Ok(shard)
}

// A packet of its term of so many octets, from the subscriber, that was sent.
pub(super) fn sent(circuit: &Static, octets: u16) -> OutRecord
    ensures charge { result.charge ≡ Some (charge_of (provisioned 0 circuit.now 1) (lease_from 0 circuit.now 1) true octets) }
    ensures sent { result.sent ≡ true }
{
    OutRecord {
        shard: 1,
        seat: 0,
        place: 0,
        role: Role::Core,
        to: peer(9001),
        frame: Octets::of(Frame::new()),
        charge: Some(Charge {
            term: TermId {
                session: circuit.session,
                serial: 1,
            },
            profile: circuit.profile,
            circuit: Circuit::Pppoe {
                port: circuit.port,
                mac: circuit.mac,
                session: circuit.session,
            },
            address: circuit.address,
            input: true,
            octets,
        }),
        sent: true,
    }
}

// Charges the first packet of a shard that has one circuit.
fn charge_first(shard: &mut Shard, circuit: &Static, out: &OutRecord) -> Charged
    requires number { IsNumberOf 1 circuit.now.session.0 }
    requires opened { (rules : Ways) × (shard.old ≡ opened 1 rules (circuit.now ∷ []) 0) }
    requires charged { (octets : ℕ) × (out.now.charge ≡ Some (charge_of (provisioned 0 circuit.now 1) (lease_from 0 circuit.now 1) true octets)) }
    requires sent { out.now.sent ≡ true }
    ensures number { shard.new.number ≡ shard.old.number }
    ensures state { shard.new.state ≡ shard.old.state }
{
    shard.charge(out)
}

// A packet of 84 octets.
const CHARGED: Charged = Charged::Packet {
    input: true,
    octets: 84,
};

const CARRIED: Traffic = Traffic {
    input: 84,
    output: 0,
};

// The term that has this address carried this; none where no term has it.
fn assert_traffic(rt: &impl Abort, shard: &Shard, address: u32, wanted: Option<Traffic>) {
    assert_same(rt, &shard.carried(Ip4(address)), &wanted);
}

#[test]
fn a_packet_counts_for_its_term(rt: HostRuntime) -> Result<(), Fail> {
    let alloc = rt.alloc();
    let circuit = circuit();
    let packet = sent(&circuit, 84);
    let mut shard = open_with(alloc, &circuit)?;
    assert_same(&rt, &charge_first(&mut shard, &circuit, &packet), &CHARGED);
    assert_traffic(&rt, &shard, 0x0a000002, Some(CARRIED));
    assert_traffic(&rt, &shard, 0x0a000003, None);
    Ok(())
}

// A circuit of the shard 1 on the port 1.
fn circuit_of(host: u8, session: u16, address: u32, profile: u8) -> Static
    ensures session { result.session.0 ≡ session }
    ensures address { result.address.0 ≡ address }
    ensures port { result.port ≡ 1 }
    ensures profile { result.profile ≡ profile }
{
    let mut user = ArrayVec::new();
    user.push(b'f');
    Static {
        port: 1,
        mac: Mac([2, 0, 0, 0, 0, host]),
        session: SessionNo(session),
        address: Ip4(address),
        user,
        profile,
    }
}

// Whether the shard 1 holds the addresses of these circuits.
fn are_held(pool: &PlainPool, circuits: &[Static]) -> bool
    ensures { result ≡ true → All (λ c. entry pool.now.table c.address.0 ≡ Some 1) circuits.now }
{
    for circuit in circuits {
        if pool.look(circuit.address) != Some(1) {
            return false;
        }
    }
    true
}

// The shard 1 with these circuits, as it was opened, whose addresses it holds.
fn bench_of(
    rt: &impl Abort,
    alloc: Global,
    shard: Shard,
    circuits: &[Static],
) -> Result<Bench, Fail>
    requires number { shard.number ≡ 1 }
    requires state { (rules : Ways) × (rules.pools ≡ []) × (length rules.profiles ≡ 2) × (shard.state ≡ (opened 1 rules circuits.now 0).state) }
{
    let mut pool = PlainPool::open(alloc, &[TWO], 2)?;
    for _ in circuits {
        let _held = pool.scan(1, 0);
    }
    assert_holds(rt, are_held(&pool, circuits));
    Ok(Bench { shard, pool })
}

// The shard 1 with two circuits, the one with the higher session number first, whose addresses it holds. The other has the second
// profile.
pub(super) fn open_two(rt: &impl Abort, alloc: Global) -> Result<Bench, Fail> {
    let rules = rules(alloc)?;
    let circuits = [
        circuit_of(2, 1026, 0x0a000003, 0),
        circuit_of(1, 1025, 0x0a000002, 1),
    ];
    let circuits = circuits.as_slice();
    let shard = Shard::open(alloc, 1, rules, circuits, 0)?;
    bench_of(rt, alloc, shard, circuits)
}

// A packet of the first circuit, in a frame of its session.
const FROM_IT: [u8; 50] = [
    2, 0, 0, 0, 0, 0xfe, 2, 0, 0, 0, 0, 1, 0x88, 0x64, 0x11, 0, 4, 1, 0, 30, 0, 0x21, 0x45, 0, 0,
    28, 0, 0, 0, 0, 64, 17, 0xae, 0xce, 10, 0, 0, 2, 192, 0, 2, 1, 0x30, 0x39, 0x30, 0x39, 0, 8, 0,
    0,
];

// A packet towards 10.0.0.2.
fn to_it() -> Item
    ensures { result.frame.headroom ≡ 64 }
{
    let mut core = item(ItemKind::Core, &TO_IT);
    core.from = peer(9001);
    core
}

// A packet of the first circuit, of 28 octets, has this fate at this moment.
pub(super) fn assert_up(rt: &impl Abort, alloc: Global, bench: &mut Bench, now: u32, fate: Fate) {
    let mut tally = NOTHING;
    let access = item(ItemKind::Access(1), &FROM_IT);
    let (found, _outs) = bench.handled(rt, alloc, &mut tally, u64::from(now), access);
    assert_holds(rt, found == fate);
}

// So has a packet towards it.
pub(super) fn assert_down(rt: &impl Abort, alloc: Global, bench: &mut Bench, now: u32, fate: Fate) {
    let mut tally = NOTHING;
    let (found, _outs) = bench.handled(rt, alloc, &mut tally, u64::from(now), to_it());
    assert_holds(rt, found == fate);
}

// A packet of the first circuit and one towards it have this fate.
fn assert_fate(rt: &impl Abort, alloc: Global, bench: &mut Bench, fate: Fate) {
    assert_up(rt, alloc, bench, 0, fate);
    assert_down(rt, alloc, bench, 0, fate);
}

// The outs of an End of the shard 1.
fn end(rt: &impl Abort, alloc: Global, bench: &mut Bench) -> Vec<OutRecord> {
    let mut tally = NOTHING;
    let mut end = item(ItemKind::End, &[]);
    end.target = 1;
    let (_consumed, outs) = bench.handled(rt, alloc, &mut tally, 0, end);
    outs
}

// This term leaves next, and its address becomes free.
fn assert_reaps(rt: &impl Abort, bench: &mut Bench, term: (TermId, Circuit, Ip4)) {
    assert_holds(rt, bench.pool.look(term.2).is_some());
    assert_holds(rt, leaves(bench, term));
    assert_holds(rt, bench.pool.look(term.2).is_none());
}

// No term is left that ended, and no session.
fn assert_all_left(rt: &impl Abort, bench: &mut Bench) {
    assert_holds(rt, bench.reap().is_none());
    assert_sessions(rt, &bench.shard, 0);
}

// At this place this term is there.
fn assert_term(rt: &impl Abort, bench: &Bench, place: usize, term: (TermId, Circuit, Ip4)) {
    assert_holds(rt, shows(bench, place, term));
}

// No term stands at this place, from 0.
fn assert_no_term(rt: &impl Abort, bench: &Bench, place: usize) {
    assert_holds(rt, bench.shard.term(place).is_none());
}

// An End is told to one session alone.
fn assert_ends(rt: &impl Abort, alloc: Global, bench: &mut Bench) {
    let outs = end(rt, alloc, bench);
    // the session that discovery made is told by a PADT, and the circuits are not
    assert_count(rt, outs.len(), 1);
    assert_octets(rt, span(&outs, 0, 15, 18), b"\xa7\x04\x03");
}

// Of three sessions two are of terms, which leave one after the other.
fn assert_each_leaves(rt: &impl Abort, bench: &mut Bench) {
    assert_sessions(rt, &bench.shard, 3);
    assert_reaps(rt, bench, first());
    assert_reaps(rt, bench, second());
    assert_all_left(rt, bench);
}

#[test]
fn an_end_ends_circuits_too_and_each_leaves_by_a_stop(rt: HostRuntime) -> Result<(), Fail> {
    let alloc = rt.alloc();
    let mut bench = open_two(&rt, alloc)?;
    let _made = request(&rt, alloc, &mut bench, 3);
    assert_fate(&rt, alloc, &mut bench, Fate::Forwarded);
    assert_ends(&rt, alloc, &mut bench);
    assert_fate(&rt, alloc, &mut bench, Fate::Dropped(DropCause::NotOpen));
    assert_each_leaves(&rt, &mut bench);
    Ok(())
}

// Both terms are there, by their numbers.
fn assert_shows_both(rt: &impl Abort, bench: &Bench) {
    assert_term(rt, bench, 0, first());
    assert_term(rt, bench, 1, second());
    assert_no_term(rt, bench, 2);
}

#[test]
fn terms_are_shown_by_their_numbers_until_they_leave(rt: HostRuntime) -> Result<(), Fail> {
    let alloc = rt.alloc();
    let mut bench = open_two(&rt, alloc)?;
    let _outs = end(&rt, alloc, &mut bench);
    assert_shows_both(&rt, &bench);
    assert_reaps(&rt, &mut bench, first());
    assert_term(&rt, &bench, 0, second());
    assert_no_term(&rt, &bench, 1);
    Ok(())
}

// The shard 1 with one circuit, of whose term a packet of 84 octets was sent.
fn open_charged(rt: &impl Abort, alloc: Global) -> Result<Bench, Fail> {
    let circuit = circuit();
    let packet = sent(&circuit, 84);
    let mut shard = open_with(alloc, &circuit)?;
    let _charged = charge_first(&mut shard, &circuit, &packet);
    bench_of(rt, alloc, shard, std::slice::from_ref(&circuit))
}

// What that packet is in a book.
const OF_84: Book = Book {
    input: 84,
    output: 0,
    input_packets: 1,
    output_packets: 0,
};

#[test]
fn a_stop_says_what_its_term_carried(rt: HostRuntime) -> Result<(), Fail> {
    let alloc = rt.alloc();
    let mut bench = open_charged(&rt, alloc)?;
    let _outs = end(&rt, alloc, &mut bench);
    assert_same(&rt, &carried(&mut bench), &Some(OF_84));
    assert_traffic(&rt, &bench.shard, 0x0a000002, None);
    Ok(())
}

// What passed under this profile is this.
pub(super) fn assert_book(rt: &impl Abort, bench: &Bench, profile: u8, wanted: Book)
    requires { profile < 2 }
{
    assert_same(rt, &bench.book(profile), &wanted);
}

// What both packets are in a book.
const OF_BOTH: Book = Book {
    input: 28,
    output: 28,
    input_packets: 1,
    output_packets: 1,
};

#[test]
fn a_packet_counts_in_the_book_of_its_profile(rt: HostRuntime) -> Result<(), Fail> {
    let alloc = rt.alloc();
    let mut bench = open_two(&rt, alloc)?;
    assert_fate(&rt, alloc, &mut bench, Fate::Forwarded);
    assert_book(&rt, &bench, 0, NOTHING);
    assert_book(&rt, &bench, 1, OF_BOTH);
    Ok(())
}
