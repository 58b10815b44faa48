//! Seats of many threads.
ghost use Rattle.std.specs.Prelude.{◌≡◌, ◌+◌, ◌*◌, ◌^◌, ◌<◌, ◌≤◌, ℕ, true, [], length, slice_get, slice_index_or, IfOk, Some};
ghost use Rattle.bng_pool.specs.Ranges.{ArePoolRanges, HasAddress};
ghost use Rattle.bng_pool.specs.Seats.{Holds, new_seat};

mod one_hand;
mod plain;
mod table;

use crate::asserts::{assert_holds, assert_same};
use bng_base::{Claim, Ip4, Range};
use bng_pool::{Pool, PoolError, PoolSeat};
use std::alloc::{AllocError, Global};
use std::process::Abort;
use std::sync::Wait;
use std::sync::atomic::{AtomicU64, Ordering};
use std::test::Fail;
use std::thread;
use std::thread::Threads;

const FIRST: u32 = 0x0a00_0000;

type Opened = (Pool, Vec<PoolSeat>, Vec<PoolSeat>);

// A pool of one range of so many addresses, for so many shards and one worker.
fn open_one(alloc: Global, size: u32, shards: u16) -> Result<Opened, PoolError>
    requires { (1 ≤ size) × (size ≤ 1000) × (1 ≤ shards) × (shards ≤ 64) }
    ensures pool { IfOk result (λ t. t.0.shards ≡ shards) }
    ensures range { IfOk result (λ t. (length t.0.ranges ≡ 1) × ((a : ℕ) → 0x0A000000 ≤ a → a < 0x0A000000 + size → HasAddress t.0.ranges a)) }
    ensures counts { IfOk result (λ t. (length t.1.items ≡ shards) × (length t.2.items ≡ 1)) }
    ensures shard_seats { IfOk result (λ t. (k : ℕ) → k < shards → slice_get t.1.items k ≡ Some (new_seat t.0 k)) }
    ensures worker_seats { IfOk result (λ t. slice_get t.2.items 0 ≡ Some (new_seat t.0 shards)) }
{
    let ranges = [Range {
        first: Ip4(FIRST),
        last: Ip4(FIRST + size - 1),
    }];
    Pool::open(alloc, &ranges, shards, 1)
}

// Whether the address went to this seat's shard.
fn lease(pool: &Pool, seat: &mut PoolSeat, a: Ip4) -> bool
    requires pool { (seat.old.pool ≡ pool.now) × (seat.old.number < pool.now.shards) }
    ensures same { (seat.new.pool ≡ pool.now) × (seat.new.number ≡ seat.old.number) × (seat.new.phase ≡ seat.old.phase)
        × (seat.new.full ≡ seat.old.full) }
    ensures held { result ≡ true → Holds seat.new.held a.0 }
{
    if !pool.has(a) {
        return false;
    }
    match pool.claim(seat, a) {
        Claim::Claimed(_) => true,
        _ => false,
    }
}

fn seek(pool: &Pool, seat: &mut PoolSeat) -> Claim
    requires pool { (seat.old.pool ≡ pool.now) × (seat.old.number < pool.now.shards) × (0 < length pool.now.ranges) }
    ensures { (seat.new.pool ≡ pool.now) × (seat.new.number ≡ seat.old.number) }
{
    pool.scan(seat, 0)
}

fn holder(pool: &Pool, seat: &mut PoolSeat, a: Ip4) -> Option<u16>
    requires { seat.old.pool ≡ pool.now }
    ensures { (seat.new.pool ≡ pool.now) × (seat.new.number ≡ seat.old.number) }
{
    if !pool.has(a) {
        return None;
    }
    pool.look(seat, a)
}

// To the next phase, with all seats.
fn onward<R: Wait>(rt: &R, pool: &Pool, seat: &mut PoolSeat)
    requires { (seat.old.pool ≡ pool.now) × (seat.old.full ≡ true) × (seat.old.phase < 2 ^ 48) }
    ensures { seat.new ≡ record seat.old { phase = seat.old.phase + 1; notes = [] } }
{
    pool.pass(seat);
    pool.meet(rt, seat);
}

// Claims each address by rising number, and signs those that it got.
fn claim_each(pool: &Pool, seat: &mut PoolSeat, number: u64, winners: &[AtomicU64])
    requires { (seat.old ≡ new_seat pool.now number) × (number < pool.now.shards) × (number < 2 ^ 32) }
    ensures { seat.new.pool ≡ pool.now }
{
    for i in 0..1000 {
        if lease(pool, seat, Ip4(FIRST + i)) {
            if let Some(winner) = winners.get(i as usize) {
                winner.fetch_add(number + 1, Ordering::SeqCst);
            }
        }
    }
}

fn all_claim<R: Threads + Wait + Sync>(
    rt: &R,
    pool: &Pool,
    seats: &mut [PoolSeat],
    winners: &[AtomicU64],
)
    requires seats { (k : ℕ) (d : _) → k < length seats.old → slice_index_or seats.old k d ≡ new_seat pool.now k }
    requires few { (length seats.old ≤ pool.now.shards) × (length seats.old ≤ 64) }
    ensures count { length seats.new ≡ length seats.old }
    ensures seats { (k : ℕ) (d : _) → k < length seats.old → (slice_index_or seats.new k d).pool ≡ pool.now }
{
    thread::for_each_mut(
        rt,
        seats,
        2,
        &|index: usize, seat: &mut PoolSeat|
            requires { (seat.old ≡ new_seat pool.now index) × (index < pool.now.shards) × (index < 64) }
            ensures { seat.new.pool ≡ pool.entry.now }
        { claim_each(pool, seat, index as u64, winners) },
    );
}

// Whether a look of each address names the shard that signed it, and that alone.
fn names_winners(pool: &Pool, seat: &mut PoolSeat, winners: &[AtomicU64]) -> bool
    requires { seat.old.pool ≡ pool.now }
{
    let mut next = FIRST;
    for winner in winners {
        let winner = winner.load(Ordering::SeqCst);
        let found = holder(pool, seat, Ip4(next));
        if found.map(|shard| u64::from(shard) + 1) != Some(winner) {
            return false;
        }
        next = next.wrapping_add(1);
    }
    next == FIRST + 1000
}

// So many places that nobody signed.
fn unsigned(alloc: Global, count: usize) -> Result<Vec<AtomicU64>, AllocError> {
    let mut places = Vec::with_capacity(alloc, count)?;
    for _ in 0..count {
        places.push(AtomicU64::new(0))?;
    }
    Ok(places)
}

#[test]
fn each_address_goes_to_one_of_two_threads(rt: HostRuntime) -> Result<(), Fail> {
    let (pool, mut shards, _workers) = open_one(rt.alloc(), 1000, 2)?;
    let winners = unsigned(rt.alloc(), 1000)?;
    all_claim(&rt, &pool, shards.as_mut_slice(), winners.as_slice());
    assert_holds(
        &rt,
        names_winners(&pool, &mut shards[0], winners.as_slice()),
    );
    Ok(())
}

// Takes and frees one address for so many rounds, beside the other shards, and signs the address that it got at the end.
// The seats from the number 4 on are workers' and go along.
fn play<R: Wait>(
    rt: &R,
    pool: &Pool,
    seat: &mut PoolSeat,
    number: u64,
    rounds: u64,
    last: &[AtomicU64],
)
    requires { (seat.old ≡ new_seat pool.now number) × (pool.now.shards ≡ 4) × (rounds < 2 ^ 32) }
    ensures { seat.new.pool ≡ pool.now }
{
    for round in 0..rounds {
        let a = Ip4(FIRST + (round % 3) as u32);
        let got = number < 4 && lease(pool, seat, a);
        onward(rt, pool, seat);
        if got {
            pool.give_back(seat, a);
        }
        onward(rt, pool, seat);
    }
    let i = number % 3;
    if number < 4 && lease(pool, seat, Ip4(FIRST + i as u32)) {
        if let Some(last) = last.get(i as usize) {
            last.store(number + 1, Ordering::SeqCst);
        }
    }
}

fn all_play<R: Threads + Wait + Sync>(
    rt: &R,
    pool: &Pool,
    seats: &mut [PoolSeat],
    rounds: u64,
    last: &[AtomicU64],
)
    requires seats { (k : ℕ) (d : _) → k < length seats.old → slice_index_or seats.old k d ≡ new_seat pool.now k }
    requires few { (pool.now.shards ≡ 4) × (rounds < 2 ^ 32) }
    ensures count { length seats.new ≡ length seats.old }
    ensures seats { (k : ℕ) (d : _) → k < length seats.old → (slice_index_or seats.new k d).pool ≡ pool.now }
{
    thread::for_each_mut(
        rt,
        seats,
        5,
        &|index: usize, seat: &mut PoolSeat|
            requires { (seat.old ≡ new_seat pool.now index) × (pool.now.shards ≡ 4) × (rounds < 2 ^ 32) }
            ensures { seat.new.pool ≡ pool.entry.now }
        { play(rt, pool, seat, index as u64, rounds, last) },
    );
}

// The holder of an address is the shard that signed last.
fn assert_signed(rt: &impl Abort, pool: &Pool, seat: &mut PoolSeat, a: Ip4, last: &AtomicU64)
    requires { seat.old.pool ≡ pool.now }
    ensures { seat.new.pool ≡ pool.now }
{
    let found = holder(pool, seat, a);
    let signed = last.load(Ordering::SeqCst);
    assert_same(rt, &found.map(|shard| u64::from(shard) + 1), &Some(signed));
}

#[test]
fn after_many_rounds_each_address_is_where_the_seats_say(rt: HostRuntime) -> Result<(), Fail> {
    let (pool, mut seats, mut workers) = open_one(rt.alloc(), 3, 4)?;
    let worker = workers.remove(0);
    seats.push(worker)?;
    let last = [AtomicU64::new(0), AtomicU64::new(0), AtomicU64::new(0)];
    all_play(&rt, &pool, seats.as_mut_slice(), 10_000, &last);
    let seat = &mut seats[4];
    assert_signed(&rt, &pool, seat, Ip4(FIRST), &last[0]);
    assert_signed(&rt, &pool, seat, Ip4(FIRST + 1), &last[1]);
    assert_signed(&rt, &pool, seat, Ip4(FIRST + 2), &last[2]);
    Ok(())
}

// The shard gets all three addresses.
fn take_all(rt: &impl Abort, pool: &Pool, seat: &mut PoolSeat)
    requires { (seat.old.pool ≡ pool.now) × (seat.old.number < pool.now.shards) × (0 < length pool.now.ranges) }
{
    assert_same(rt, &seek(pool, seat), &Claim::Claimed(Ip4(FIRST)));
    assert_same(rt, &seek(pool, seat), &Claim::Claimed(Ip4(FIRST + 1)));
    assert_same(rt, &seek(pool, seat), &Claim::Claimed(Ip4(FIRST + 2)));
}

// The shard gets none of them, since the shard 1 has them.
fn find_them_held(rt: &impl Abort, pool: &Pool, seat: &mut PoolSeat)
    requires { (seat.old.pool ≡ pool.now) × (seat.old.number < pool.now.shards) × (0 < length pool.now.ranges) }
{
    assert_same(rt, &seek(pool, seat), &Claim::Exhausted(0));
    assert_holds(rt, !lease(pool, seat, Ip4(FIRST + 2)));
    assert_same(rt, &holder(pool, seat, Ip4(FIRST + 2)), &Some(1));
    assert_same(rt, &holder(pool, seat, Ip4(FIRST + 3)), &None);
}

#[test]
fn a_range_that_another_shard_holds_is_exhausted(rt: HostRuntime) -> Result<(), Fail> {
    let (pool, mut shards, _workers) = open_one(rt.alloc(), 3, 2)?;
    take_all(&rt, &pool, &mut shards[1]);
    find_them_held(&rt, &pool, &mut shards[0]);
    Ok(())
}
