//! What the tests of a shard share: the rounds of one item, and how a host asks for a session.
ghost use Rattle.std.specs.Prelude.{◌≡◌, ◌⊎◌, ◌+◌, ◌<◌, ◌≤◌, ◌^◌, [], ◌∷◌, length, map, true};
ghost use Rattle.bng_profile.specs.Books.{AreDifferent, names_of};
ghost use Rattle.bng_steps.specs.Sums.{AreLow, IsLow};

use crate::asserts::{assert_count, assert_holds};
use bng_base::{Book, Fate, Frame, Item, ItemKind, OutRecord, Range};
use bng_pool::PlainPool;
use bng_shard::Shard;
use bng_steps::{EndedTerm, LiveTerm, Rules};
use settings::{KEY, peer};
use std::alloc::Global;
use std::marker::Model;
use std::process::Abort;
use std::test::Fail;

mod changes;
mod discovery;
mod interims;
mod logins;
mod metering;
mod settings;
mod terms;
mod tunnels;
mod verdicts;

// for any service, with a Host-Uniq
const PADI: [u8; 32] = [
    0xff, 0xff, 0xff, 0xff, 0xff, 0xff, 2, 0, 0, 0, 0, 1, 0x88, 0x63, 0x11, 9, 0, 0, 0, 12, 1, 1,
    0, 0, 1, 3, 0, 4, 0xa1, 0xb2, 0xc3, 0xd4,
];
// a PADR of the same host, up to its cookie
const PADR: [u8; 52] = [
    2, 0, 0, 0, 0, 0xfe, 2, 0, 0, 0, 0, 1, 0x88, 0x63, 0x11, 0x19, 0, 0, 0, 32, 1, 1, 0, 0, 1, 3,
    0, 4, 0xa1, 0xb2, 0xc3, 0xd4, 1, 4, 0, 16, 0, 0, 0, 0, 0, 0, 0, 0, 0, 0, 0, 0, 0, 0, 0, 0,
];

// A packet towards 10.0.0.2.
const TO_IT: [u8; 28] = [
    0x45, 0, 0, 28, 0, 0, 0, 0, 64, 17, 0xae, 0xce, 192, 0, 2, 1, 10, 0, 0, 2, 0x30, 0x39, 0x30,
    0x39, 0, 8, 0, 0,
];

/// A shard, and who holds an address.
struct Bench {
    shard: Shard,
    pool: PlainPool,
}

impl Drop for Bench {
    fn drop(self) {
        let Bench { shard: _, pool: _ } = self;
    }
}

impl Model for Bench {
    ghost use Rattle.std.specs.Prelude.{◌≡◌, ◌<◌, length};
    ghost use Rattle.bng_base.specs.declared.item.Entry.{Entry};
    ghost use Rattle.bng_engine.specs.Views.{ShardView};
    ghost use Rattle.bng_pool.specs.Plain.{PlainView};
    ghost use Rattle.bng_steps.specs.Protocol.{ShardState, terms_of};
    ghost use Rattle.bng_shard.specs.Handling.{AreHeld, HasPools};

    ghost Value = { ShardView ShardState Entry × PlainView };

    ghost use Rattle.std.specs.Coded.{codes};
    ghost use Rattle.bng_steps.specs.Codes.{state_code};

    ghost coded = { Prim.hlevel (codes, state_code) };

    ghost view = { λ b. (b.shard, b.pool) };

    ghost invariant = { λ b. HasPools b.shard.state.rules.pools b.pool.ranges × (b.shard.number < b.pool.shards)
        × AreHeld b.shard.number (terms_of b.shard.state) b.pool.table × (length b.shard.state.rules.profiles ≡ 2) };
}

// The shard 0 by these rules, of which no term holds an address of this range.
fn open_bench(alloc: Global, rules: Rules, range: Range) -> Result<Bench, Fail>
    requires auth { 0 < length rules.link.auth.items }
    requires offers { length rules.offers ≡ length rules.access }
    requires profiles { length rules.profiles ≡ 2 }
    requires different { AreDifferent (names_of rules.profiles) }
    requires range { (range.first.0 ≤ range.last.0) × (range.last.0 < range.first.0 + 262144) }
    requires pools { (rules.pools ≡ []) ⊎ (map (λ p. p.range) rules.pools ≡ range ∷ []) }
{
    let pool = PlainPool::open(alloc, &[range], 1)?;
    let shard = Shard::open(alloc, 0, rules, &[], 0)?;
    Ok(Bench { shard, pool })
}

fn item(kind: ItemKind, octets: &[u8]) -> Item
    requires { length octets.now ≤ 4096 }
    ensures kind { result.kind ≡ kind }
    ensures whole { result.frame.headroom ≡ 64 }
{
    let mut frame = Frame::new();
    frame.set(octets);
    Item {
        kind,
        from: peer(9011),
        frame,
        cut: false,
        random: KEY,
        target: 0,
        ask: 0,
    }
}

const NOTHING: Book = Book {
    input: 0,
    output: 0,
    input_packets: 0,
    output_packets: 0,
};

// No more than 2^62 octets or packets are in a book.
fn is_low(book: &Book) -> bool
    ensures { result ≡ true → IsLow (2 ^ 63) book.now }
{
    let most = 1 << 62;
    book.input <= most
        && book.output <= most
        && book.input_packets <= most
        && book.output_packets <= most
}

// Whether the books of the shard's two profiles are low.
fn has_low_books(shard: &Shard) -> bool
    requires { length shard.now.state.rules.profiles ≡ 2 }
    ensures { result ≡ true → AreLow (2 ^ 63) shard.now.books }
{
    let bronze = shard.book(0);
    if !is_low(&bronze) {
        return false;
    }
    let gold = shard.book(1);
    is_low(&gold)
}

impl Bench {
    // The fate and the outs of one item at this moment, with its packets in a seat's tally. The round is not settled; one term may
    // begin in it.
    fn handled(
        &mut self,
        rt: &impl Abort,
        alloc: Global,
        tally: &mut Book,
        now: u64,
        item: Item,
    ) -> (Fate, Vec<OutRecord>)
        requires moment { now < 2 ^ 60 }
        requires whole { item.frame.headroom ≡ 64 }
    {
        // No round is going on now, which `prepare` asks.
        let _none = self.shard.drain();
        assert_holds(rt, self.shard.begun() < 1 << 40);
        assert_holds(rt, self.shard.prepare(alloc, 1, 1).is_ok());
        assert_holds(rt, has_low_books(&self.shard));
        assert_holds(rt, is_low(tally));
        let fate = self.shard.step(&mut self.pool, 0, 0, now, &item, tally);
        let (journal, outs) = self.shard.drain();
        assert_count(rt, journal.len(), 1);
        (fate, outs.into_vec())
    }

    // What passed under one of the two profiles.
    fn book(&self, profile: u8) -> Book
        requires { profile < 2 }
    {
        self.shard.book(profile)
    }

    // The first term of whose beginning no Start was formed yet.
    fn fresh(&mut self) -> Option<LiveTerm> {
        self.shard.fresh()
    }

    // The next term that ended leaves, if one has.
    fn reap(&mut self) -> Option<EndedTerm> {
        self.shard.reap(&mut self.pool)
    }

    // The outs of a round of one item at this moment, in which no term ends.
    fn round(
        &mut self,
        rt: &impl Abort,
        alloc: Global,
        tally: &mut Book,
        now: u64,
        item: Item,
    ) -> Vec<OutRecord>
        requires moment { now < 2 ^ 60 }
        requires whole { item.frame.headroom ≡ 64 }
    {
        let (_fate, outs) = self.handled(rt, alloc, tally, now, item);
        assert_holds(rt, self.reap().is_none());
        outs
    }
}

// Each check of a value is a function of its own: in a test, among all that is live there, its proof would take long.
fn assert_sessions(rt: &impl Abort, shard: &Shard, wanted: u32) {
    assert_eq!(rt; shard.sessions(), wanted);
}

fn assert_due(rt: &impl Abort, due: Option<u64>, wanted: Option<u64>) {
    assert_eq!(rt; due, wanted);
}

// The octets of the out at this place.
fn octets(outs: &[OutRecord], place: usize) -> &[u8] {
    match outs.get(place) {
        Some(out) => out.frame.as_slice(),
        None => &[],
    }
}

// The octets of the out at this place, from one octet to another.
fn span(outs: &[OutRecord], place: usize, start: usize, end: usize) -> &[u8] {
    match octets(outs, place).get(start..end) {
        Some(span) => span,
        None => &[],
    }
}

// The PADI of a host.
fn padi(host: u16) -> [u8; 32] {
    let [high, low] = host.to_be_bytes();
    let mut octets = PADI;
    octets[10] = high;
    octets[11] = low;
    octets
}

// The PADR of a host that was offered a session so.
fn padr(host: u16, offer: &[u8]) -> [u8; 52] {
    let [high, low] = host.to_be_bytes();
    let mut octets = PADR;
    octets[10] = high;
    octets[11] = low;
    if let Some(cookie) = offer.last_chunk::<16>() {
        octets[36..].copy_from_slice(cookie);
    }
    octets
}

// The outs of a round with the PADR of a host, after one with its PADI, at moment 0.
fn request(rt: &impl Abort, alloc: Global, bench: &mut Bench, host: u16) -> Vec<OutRecord> {
    let mut tally = NOTHING;
    let access = ItemKind::Access(1);
    let offered = bench.round(rt, alloc, &mut tally, 0, item(access, &padi(host)));
    let asked = padr(host, octets(&offered, 0));
    bench.round(rt, alloc, &mut tally, 0, item(access, &asked))
}
