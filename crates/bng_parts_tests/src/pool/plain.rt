//! A pool in one thread, seen as its table alone.
ghost use Rattle.std.specs.Prelude.{◌≡◌, ◌+◌, ◌<◌, ◌≤◌, ◌^◌, ◌↔◌, ℕ, true, [], Some, length, slice_get, IfOk, IsTrue};
ghost use Rattle.bng_base.specs.declared.book.Range.{Range};
ghost use Rattle.bng_pool.specs.Ranges.{HasAddress, ArePoolRanges};
ghost use Rattle.bng_pool.specs.Tables.{entry, TableClaims, TableScans, TableFrees};

use super::one_hand::{claim, give_back, look, scan};
use crate::asserts::{assert_holds, assert_same};
use bng_base::{Claim, Ip4, Range};
use bng_pool::{Pool, PoolError, PoolSeat, seats_in_one_hand_are_a_table};
use std::alloc::Global;
use std::marker::Model;
use std::process::Abort;
use std::sync::Wait;
use std::test::Fail;

/// Who holds an address. Clauses see the ranges, the table, how many shards there are, and how many phases have passed.
#[derive(Drop)]
struct Plain {
    pool: Pool,
    seats: Vec<PoolSeat>,
    looker: PoolSeat,
}

impl Model for Plain {
    ghost use Rattle.std.specs.Prelude.{◌≡◌, ℕ, List};
    ghost use Rattle.bng_base.specs.declared.book.Range.{Range};
    ghost use Rattle.bng_pool.specs.Seats.{IsInRound};
    ghost use Rattle.bng_pool.specs.OneHand.{table_of, AreInOneHand, AreInRound};

    ghost Value = { List Range × List (ℕ × ℕ) × ℕ × ℕ };

    ghost view = { λ p. (p.pool.ranges, table_of p.seats.items, p.pool.shards, p.looker.phase) };

    ghost invariant = { λ p. AreInOneHand p.pool p.seats.items × (AreInRound p.looker.phase p.seats.items × IsInRound p.looker)
        × ((p.looker.pool ≡ p.pool) × (p.looker.number ≡ p.pool.shards)) };
}

impl Plain {
    fn open(alloc: Global, ranges: &[Range], shards: u16) -> Result<Plain, PoolError>
        requires ranges { ArePoolRanges ranges.now }
        requires shards { (1 ≤ shards) × (shards ≤ 64) }
        ensures { IfOk result (λ p. p ≡ (ranges.now, [], shards, 0)) }
    {
        seats_in_one_hand_are_a_table();
        let (pool, seats, mut workers) = Pool::open(alloc, ranges, shards, 1)?;
        let looker = workers.remove(0);
        Ok(Plain {
            pool,
            seats,
            looker,
        })
    }

    fn has(&self, a: Ip4) -> bool
        ensures { IsTrue result ↔ HasAddress self.now.0 a.0 }
    {
        self.pool.has(a)
    }

    fn claim(&mut self, shard: usize, a: Ip4) -> Claim
        requires shard { shard < self.old.2 }
        requires has { HasAddress self.old.0 a.0 }
        ensures table { TableClaims self.old.1 shard a result self.new.1 }
        ensures rest { (self.new.0 ≡ self.old.0) × (self.new.2 ≡ self.old.2) × (self.new.3 ≡ self.old.3) }
    {
        claim(&self.pool, self.seats.as_mut_slice(), shard, a)
    }

    fn scan(&mut self, shard: usize, range: u8) -> Claim
        requires shard { shard < self.old.2 }
        requires range { range < length self.old.0 }
        ensures table { (r : Range) × (slice_get self.old.0 range ≡ Some r) × TableScans self.old.1 shard r range result self.new.1 }
        ensures rest { (self.new.0 ≡ self.old.0) × (self.new.2 ≡ self.old.2) × (self.new.3 ≡ self.old.3) }
    {
        scan(&self.pool, self.seats.as_mut_slice(), shard, range)
    }

    fn look(&mut self, a: Ip4) -> Option<u16>
        ensures table { result ≡ entry self.old.1 a.0 }
        ensures rest { self.new ≡ self.old }
    {
        look(&self.pool, &mut self.looker, self.seats.as_mut_slice(), a)
    }

    fn give_back<R: Wait>(&mut self, rt: &R, shard: usize, a: Ip4)
        requires shard { shard < self.old.2 }
        requires held { entry self.old.1 a.0 ≡ Some shard }
        requires low { self.old.3 + 2 ≤ 2 ^ 48 }
        ensures table { TableFrees self.old.1 shard a.0 self.new.1 }
        ensures rest { (self.new.0 ≡ self.old.0) × (self.new.2 ≡ self.old.2) × (self.new.3 ≡ self.old.3 + 2) }
    {
        give_back(
            rt,
            &self.pool,
            &mut self.looker,
            self.seats.as_mut_slice(),
            shard,
            a,
        );
    }
}

const FIRST: u32 = 0x0a00_0000;

// The three addresses of the first range, and the one behind them.
const ONE: Ip4 = Ip4(0x0a00_0010);

const TWO: Ip4 = Ip4(0x0a00_0011);

const THREE: Ip4 = Ip4(0x0a00_0012);

const BEHIND: Ip4 = Ip4(0x0a00_0013);

// Two ranges, of three addresses and of one.
fn open_two(alloc: Global, shards: u16) -> Result<Plain, PoolError>
    requires { (1 ≤ shards) × (shards ≤ 64) }
    ensures { IfOk result (λ p. (length p.0 ≡ 2) × (p.2 ≡ shards) × (p.3 ≡ 0)) }
{
    let ranges = [
        Range {
            first: Ip4(FIRST + 16),
            last: Ip4(FIRST + 18),
        },
        Range {
            first: Ip4(FIRST),
            last: Ip4(FIRST),
        },
    ];
    Plain::open(alloc, &ranges, shards)
}

// Claims an address that may have no word.
fn take(plain: &mut Plain, shard: usize, a: Ip4) -> Option<Claim>
    requires { shard < plain.old.2 }
    ensures { (plain.new.0 ≡ plain.old.0) × (plain.new.2 ≡ plain.old.2) × (plain.new.3 ≡ plain.old.3) }
{
    if plain.has(a) {
        Some(plain.claim(shard, a))
    } else {
        None
    }
}

// Gives an address back if it is the shard's, and says whether it was.
fn free<R: Wait>(rt: &R, plain: &mut Plain, shard: u16, a: Ip4) -> bool
    requires { (shard < plain.old.2) × (plain.old.3 + 2 ≤ 2 ^ 48) }
    ensures { (plain.new.0 ≡ plain.old.0) × (plain.new.2 ≡ plain.old.2) × (plain.new.3 ≤ plain.old.3 + 2) }
{
    if plain.look(a) != Some(shard) {
        return false;
    }
    plain.give_back(rt, usize::from(shard), a);
    true
}

fn claim_two(rt: &impl Abort, plain: &mut Plain, last: u16)
    requires { (length plain.old.0 ≡ 2) × (last < plain.old.2) }
    ensures { (plain.new.0 ≡ plain.old.0) × (plain.new.2 ≡ plain.old.2) × (plain.new.3 ≡ plain.old.3) }
{
    assert_same(rt, &plain.look(ONE), &None);
    assert_same(rt, &plain.scan(usize::from(last), 0), &Claim::Claimed(ONE));
    assert_same(rt, &take(plain, 0, ONE), &Some(Claim::Held(ONE)));
    assert_same(rt, &take(plain, 0, THREE), &Some(Claim::Claimed(THREE)));
    assert_same(rt, &take(plain, 0, BEHIND), &None);
}

fn claim_the_rest(rt: &impl Abort, plain: &mut Plain, last: u16)
    requires { (length plain.old.0 ≡ 2) × (last < plain.old.2) }
    ensures { (plain.new.0 ≡ plain.old.0) × (plain.new.2 ≡ plain.old.2) × (plain.new.3 ≡ plain.old.3) }
{
    assert_same(rt, &plain.scan(usize::from(last), 0), &Claim::Claimed(TWO));
    assert_same(rt, &plain.scan(0, 0), &Claim::Exhausted(0));
    assert_same(rt, &plain.scan(0, 1), &Claim::Claimed(Ip4(FIRST)));
}

fn look_at_three(rt: &impl Abort, plain: &mut Plain, last: u16)
    ensures { plain.new ≡ plain.old }
{
    assert_same(rt, &plain.look(ONE), &Some(last));
    assert_same(rt, &plain.look(THREE), &Some(0));
    assert_same(rt, &plain.look(BEHIND), &None);
}

// The last shard gives an address back, and the first one claims it.
fn hand_over<R: Wait + Abort>(rt: &R, plain: &mut Plain, last: u16)
    requires { (length plain.old.0 ≡ 2) × (last < plain.old.2) × (plain.old.3 ≡ 0) }
{
    assert_holds(rt, free(rt, plain, last, TWO));
    assert_holds(rt, !free(rt, plain, last, TWO));
    assert_same(rt, &plain.look(TWO), &None);
    assert_same(rt, &plain.look(ONE), &Some(last));
    assert_same(rt, &plain.scan(0, 0), &Claim::Claimed(TWO));
    assert_same(rt, &plain.look(TWO), &Some(0));
}

// So many shards claim, look, and give back.
fn answer_as_a_table<R: Wait + Abort>(rt: &R, alloc: Global, shards: u16) -> Result<(), Fail>
    requires { (1 ≤ shards) × (shards ≤ 64) }
{
    let last: u16 = shards - 1;
    let mut plain = open_two(alloc, shards)?;
    claim_two(rt, &mut plain, last);
    claim_the_rest(rt, &mut plain, last);
    look_at_three(rt, &mut plain, last);
    hand_over(rt, &mut plain, last);
    Ok(())
}

#[test]
fn seats_of_one_thread_answer_as_a_table(rt: HostRuntime) -> Result<(), Fail> {
    answer_as_a_table(&rt, rt.alloc(), 1)?;
    answer_as_a_table(&rt, rt.alloc(), 3)
}
