//! The seats of all shards in the hand of one thread, used as a table of who holds an address.
ghost use Rattle.std.specs.Prelude.{◌≡◌, ◌+◌, ◌<◌, ◌≤◌, ◌^◌, ℕ, true, false, [], Some, length, slice_get};
ghost use Rattle.bng_base.specs.declared.book.Range.{Range};
ghost use Rattle.bng_pool.specs.Ranges.{HasAddress};
ghost use Rattle.bng_pool.specs.Seats.{SeatView, IsInRound};
ghost use Rattle.bng_pool.specs.Tables.{entry, TableClaims, TableScans, TableFrees};
ghost use Rattle.bng_pool.specs.OneHand.{table_of, AreInOneHand, AreInRound};

use bng_base::{Claim, Ip4};
use bng_pool::{Pool, PoolSeat, seats_in_one_hand_are_a_table};
use std::sync::Wait;

pub(crate) fn claim(pool: &Pool, seats: &mut [PoolSeat], shard: usize, a: Ip4) -> Claim
    requires hand { AreInOneHand pool.now seats.old }
    requires round { (phase : ℕ) × AreInRound phase seats.old }
    requires shard { shard < pool.now.shards }
    requires has { HasAddress pool.now.ranges a.0 }
    ensures table { TableClaims (table_of seats.old) shard a result (table_of seats.new) }
    ensures hand { AreInOneHand pool.now seats.new }
    ensures round { (phase : ℕ) → AreInRound phase seats.old → AreInRound phase seats.new }
{
    seats_in_one_hand_are_a_table();
    let answer = pool.claim(&mut seats[shard], a);
    pool.compare_at(seats, shard);
    answer
}

pub(crate) fn scan(pool: &Pool, seats: &mut [PoolSeat], shard: usize, range: u8) -> Claim
    requires hand { AreInOneHand pool.now seats.old }
    requires round { (phase : ℕ) × AreInRound phase seats.old }
    requires shard { shard < pool.now.shards }
    requires range { range < length pool.now.ranges }
    ensures table { (r : Range) × (slice_get pool.now.ranges range ≡ Some r) × TableScans (table_of seats.old) shard r range result (table_of seats.new) }
    ensures hand { AreInOneHand pool.now seats.new }
    ensures round { (phase : ℕ) → AreInRound phase seats.old → AreInRound phase seats.new }
{
    seats_in_one_hand_are_a_table();
    let answer = pool.scan(&mut seats[shard], range);
    pool.compare_at(seats, shard);
    answer
}

// The looker is a worker's seat.
pub(crate) fn look(
    pool: &Pool,
    looker: &mut PoolSeat,
    seats: &mut [PoolSeat],
    a: Ip4,
) -> Option<u16>
    requires hand { AreInOneHand pool.now seats.old }
    requires round { AreInRound looker.old.phase seats.old × IsInRound looker.old }
    requires looker { (looker.old.pool ≡ pool.now) × (looker.old.number ≡ pool.now.shards) }
    ensures table { result ≡ entry (table_of seats.old) a.0 }
    ensures same { table_of seats.new ≡ table_of seats.old }
    ensures hand { AreInOneHand pool.now seats.new }
    ensures round { AreInRound looker.old.phase seats.new × IsInRound looker.new × (looker.new.phase ≡ looker.old.phase) }
    ensures looker { (looker.new.pool ≡ pool.now) × (looker.new.number ≡ pool.now.shards) }
{
    seats_in_one_hand_are_a_table();
    pool.compare_each(looker, seats);
    let holder = pool.look(looker, a);
    pool.compare_each(looker, seats);
    holder
}

fn pass_all(pool: &Pool, seats: &mut [PoolSeat])
    requires seats { (j : ℕ) (q : SeatView) → slice_get seats.old j ≡ Some q → (q.pool ≡ pool.now) × (q.full ≡ true) × (q.phase < 2 ^ 48) }
    ensures { (j : ℕ) (q : SeatView) → slice_get seats.old j ≡ Some q → slice_get seats.new j ≡ Some (record q { phase = q.phase + 1; full = false; notes = [] }) }
{
    for seat in seats.iter_mut() {
        pool.pass(seat);
    }
}

fn meet_all<R: Wait>(rt: &R, pool: &Pool, seats: &mut [PoolSeat])
    requires { (j : ℕ) (q : SeatView) → slice_get seats.old j ≡ Some q → q.pool ≡ pool.now }
    ensures { (j : ℕ) (q : SeatView) → slice_get seats.old j ≡ Some q → slice_get seats.new j ≡ Some (record q { full = true }) }
{
    for seat in seats.iter_mut() {
        pool.meet(rt, seat);
    }
}

// All seats go to the next phase.
fn onward<R: Wait>(rt: &R, pool: &Pool, looker: &mut PoolSeat, seats: &mut [PoolSeat])
    requires looker { (looker.old.pool ≡ pool.now) × (looker.old.full ≡ true) × (looker.old.phase < 2 ^ 48) }
    requires seats { (j : ℕ) (q : SeatView) → slice_get seats.old j ≡ Some q → (q.pool ≡ pool.now) × (q.full ≡ true) × (q.phase ≡ looker.old.phase) }
    ensures looker { looker.new ≡ record looker.old { phase = looker.old.phase + 1; notes = [] } }
    ensures seats { (j : ℕ) (q : SeatView) → slice_get seats.old j ≡ Some q → slice_get seats.new j ≡ Some (record q { phase = looker.old.phase + 1; notes = [] }) }
{
    pass_all(pool, seats);
    pool.pass(looker);
    meet_all(rt, pool, seats);
    pool.meet(rt, looker);
}

pub(crate) fn give_back<R: Wait>(
    rt: &R,
    pool: &Pool,
    looker: &mut PoolSeat,
    seats: &mut [PoolSeat],
    shard: usize,
    a: Ip4,
)
    requires hand { AreInOneHand pool.now seats.old }
    requires round { AreInRound looker.old.phase seats.old × IsInRound looker.old }
    requires looker { (looker.old.pool ≡ pool.now) × (looker.old.number ≡ pool.now.shards) }
    requires low { looker.old.phase + 2 ≤ 2 ^ 48 }
    requires shard { shard < pool.now.shards }
    requires held { entry (table_of seats.old) a.0 ≡ Some shard }
    ensures table { TableFrees (table_of seats.old) shard a.0 (table_of seats.new) }
    ensures hand { AreInOneHand pool.now seats.new }
    ensures round { AreInRound looker.new.phase seats.new × IsInRound looker.new × (looker.new.phase ≡ looker.old.phase + 2) }
    ensures looker { (looker.new.pool ≡ pool.now) × (looker.new.number ≡ pool.now.shards) }
{
    seats_in_one_hand_are_a_table();
    onward(rt, pool, looker, seats);
    pool.give_back(&mut seats[shard], a);
    onward(rt, pool, looker, seats);
}
