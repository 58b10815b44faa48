//! Sums over all shards.
ghost use Rattle.std.specs.Prelude.{◌≡◌, ◌≤◌, ◌<◌, ◌+◌, ◌/◌, ◌^◌, Bool, IfOk, length, map, slice_get};
ghost use Rattle.std.specs.List.{All};
ghost use Rattle.bng_engine.specs.Quantities.{Quantity, in_book};
ghost use Rattle.bng_desk.specs.Model.{begun_in, sessions_in, carried_on, live_of, plus_book, plus_traffic, traffic_at, traffic_or, traffic_under};
ghost use Rattle.bng_desk.specs.Taking.{CarriesWithin, LinesWithin, far};
ghost use Rattle.bng_steps.specs.Protocol.{row_at};

use crate::drops::CAUSES;
use crate::line::CircuitLine;
use bng_base::{Book, Ip4, SessionNo};
use bng_shard::Shard;
use bng_steps::Traffic;
use std::alloc::{AllocError, Global};

/// Nothing was carried.
pub(crate) const NO_TRAFFIC: Traffic = Traffic {
    input: 0,
    output: 0,
};

/// How many sessions there are in all shards.
pub(crate) fn sessions_in(shards: &[Shard]) -> u64
    requires few { length shards.now ≤ 64 }
    ensures { result ≡ sessions_in shards.now }
{
    let mut sessions = 0;
    for shard in shards {
        sessions += u64::from(shard.sessions());
    }
    sessions
}

/// How many terms began in all shards, those of the provisioned circuits at the opening among them.
pub(crate) fn begun_in(shards: &[Shard]) -> u64
    requires few { length shards.now ≤ 64 }
    requires low { All (λ v. v.state.slots.begun < 2 ^ 48) shards.now }
    ensures { result ≡ begun_in shards.now }
{
    let mut begun = 0;
    for shard in shards {
        begun += shard.begun();
    }
    begun
}

/// What a desk has counted since it was opened. A book's octets are the IPv4 total lengths of its packets, of which each was sent; `input`
/// is from the subscribers and `output` towards them. Each term that began has its Stop, or has none yet; and all terms together carried
/// what was sent.
#[derive(Clone, Copy, PartialEq, Eq, Debug)]
pub struct Sums {
    /// What the terms carried that ended and have left, as their Stops say.
    pub stopped: Book,
    /// What the terms carried so far that have no Stop yet.
    pub live: Book,
    /// Both together.
    pub total: Book,
    /// The terms that began, those of the provisioned circuits among them, which begin with the desk.
    pub terms: u64,
    /// The Stops that were formed, whether or not the server of accounting has acknowledged them.
    pub stops: u64,
    /// The items that were dropped, by the number of the cause.
    pub drops: [u64; CAUSES],
}

/// One book and the other together.
pub(crate) fn plus_book(a: Book, b: Book) -> Book
    requires low { (q : Quantity) (input : Bool) → in_book q input a + in_book q input b < 2 ^ 64 }
    ensures { result ≡ plus_book a b }
{
    Book {
        input: a.input + b.input,
        output: a.output + b.output,
        input_packets: a.input_packets + b.input_packets,
        output_packets: a.output_packets + b.output_packets,
    }
}

// What the term with an address carried; nothing where the shard has no such term.
fn carried_in(shard: &Shard, address: Ip4) -> Traffic
    ensures { result ≡ traffic_or (row_at shard.now.rows address) }
{
    match shard.carried(address) {
        Some(traffic) => traffic,
        None => NO_TRAFFIC,
    }
}

/// One and the other together.
pub(crate) fn plus(a: Traffic, b: Traffic) -> Traffic
    requires input { a.input + b.input < 2 ^ 64 }
    requires output { a.output + b.output < 2 ^ 64 }
    ensures { result ≡ plus_traffic a b }
{
    Traffic {
        input: a.input + b.input,
        output: a.output + b.output,
    }
}

// What the term with an address carried that is in the shard of this session's number.
fn carried_now(shards: &[Shard], session: SessionNo, address: Ip4) -> Traffic
    ensures { result ≡ traffic_at (slice_get shards.now (session.0 / 1024)) address }
{
    match shards.get(usize::from(session.0 / 1024)) {
        Some(shard) => carried_in(shard, address),
        None => NO_TRAFFIC,
    }
}

/// What a circuit carried: what the Stops with its address say, and what the shard of its number keeps for the term that has it.
pub(crate) fn carried_on(shards: &[Shard], line: &CircuitLine) -> Traffic
    requires { CarriesWithin far shards.now line.now }
    ensures { result ≡ carried_on shards.now line.now }
{
    plus(
        line.stopped,
        carried_now(shards, line.session, line.address),
    )
}

/// What each circuit carried.
pub(crate) fn all_carried(
    alloc: Global,
    shards: &[Shard],
    lines: &[CircuitLine],
) -> Result<Vec<Traffic>, AllocError>
    requires low { LinesWithin far shards.now lines.now }
    ensures { IfOk result (λ traffic. traffic.items ≡ map (carried_on shards.now) lines.now) }
{
    let mut traffic = Vec::with_capacity(alloc, lines.len())?;
    for line in lines {
        traffic.push_reserved(carried_on(shards, line));
    }
    Ok(traffic)
}

/// What was sent under the profile at this place, in octets in and out, as the books of the shards say.
pub(crate) fn sent_under(shards: &[Shard], place: u8) -> (u128, u128)
    requires few { length shards.now ≤ 64 }
    requires there { All (λ v. place < length v.state.rules.profiles) shards.now }
    ensures input { result.0 ≡ (traffic_under shards.now place).input }
    ensures output { result.1 ≡ (traffic_under shards.now place).output }
{
    let mut input: u128 = 0;
    let mut output: u128 = 0;
    for shard in shards {
        let book = shard.book(place);
        input += u128::from(book.input);
        output += u128::from(book.output);
    }
    (input, output)
}

/// What the terms of all shards carried that have no Stop yet.
pub(crate) fn live(shards: &[Shard]) -> Book
    requires low { (q : Quantity) (input : Bool) → in_book q input (live_of shards.now) < 2 ^ 64 }
    ensures { result ≡ live_of shards.now }
{
    let mut sum = Book::empty();
    for shard in shards {
        sum = plus_book(sum, shard.live());
    }
    sum
}
