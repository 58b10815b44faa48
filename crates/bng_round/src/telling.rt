//! What the seats at the words of the addresses tell each other when a round is opened and when it is closed.
ghost use Rattle.std.specs.Prelude.{◌≡◌, ◌<◌, ℕ, length};
ghost use Rattle.bng_pool.specs.Seats.{told};
ghost use Rattle.bng_round.specs.Asking.{Goes};
ghost use Rattle.bng_round.specs.Telling.{IsAt, AreAt, LookersAt, Knows, KnowsAll, KnowsEach, EachGoes, EachKnows, IsTold, AllTold, EachKnowsMore, AreAgreed};

use crate::placed::Placed;
use crate::seated::Seated;
use bng_pool::{Pool, PoolSeat};

// A shard tells a seat.
fn tell_one<S: Seated>(pool: &Pool, shard: &mut Placed<S>, to: &mut PoolSeat)
    requires at { (phase : ℕ) × IsAt pool.now phase shard.old.hold }
    requires pool { to.old.pool ≡ pool.now }
    ensures same { shard.new ≡ shard.old }
    ensures goes { Goes to.old to.new }
    ensures held { to.new.held ≡ to.old.held }
    ensures knows { Knows to.new shard.old.hold }
{
    shard.tell(pool, to);
}

// A seat tells another.
fn tell_seat(pool: &Pool, from: &mut PoolSeat, to: &mut PoolSeat)
    requires at { (phase : ℕ) × IsAt pool.now phase from.old }
    requires pool { to.old.pool ≡ pool.now }
    ensures same { from.new ≡ from.old }
    ensures goes { Goes to.old to.new }
    ensures held { to.new.held ≡ to.old.held }
    ensures knows { Knows to.new from.old }
{
    pool.tell(from, to);
}

// A seat tells a shard.
fn hear_one<S: Seated>(pool: &Pool, shard: &mut Placed<S>, from: &mut PoolSeat)
    requires from { (phase : ℕ) × IsAt pool.now phase from.old }
    requires at { (phase : ℕ) × IsAt pool.now phase shard.old.hold }
    ensures same { from.new ≡ from.old }
    ensures told { IsTold from.old shard.old shard.new }
{
    shard.hear(pool, from);
}

// All shards tell one seat.
fn tell_all<S: Seated>(pool: &Pool, shards: &mut [Placed<S>], to: &mut PoolSeat)
    requires at { (phase : ℕ) × AreAt pool.now phase shards.old }
    requires pool { to.old.pool ≡ pool.now }
    ensures same { shards.new ≡ shards.old }
    ensures goes { Goes to.old to.new }
    ensures held { to.new.held ≡ to.old.held }
    ensures knows { KnowsAll to.new shards.old }
{
    for shard in shards.iter_mut() {
        tell_one(pool, shard, to);
    }
}

// Each of some seats tells one seat.
fn tell_each(pool: &Pool, others: &mut [PoolSeat], to: &mut PoolSeat)
    requires at { (phase : ℕ) × LookersAt pool.now phase others.old }
    requires pool { to.old.pool ≡ pool.now }
    ensures same { others.new ≡ others.old }
    ensures goes { Goes to.old to.new }
    ensures held { to.new.held ≡ to.old.held }
    ensures knows { KnowsEach to.new others.old }
{
    for other in others.iter_mut() {
        tell_seat(pool, other, to);
    }
}

// One seat tells all shards.
fn hear_all<S: Seated>(pool: &Pool, shards: &mut [Placed<S>], from: &mut PoolSeat)
    requires from { (phase : ℕ) × IsAt pool.now phase from.old }
    requires at { (phase : ℕ) × AreAt pool.now phase shards.old }
    ensures same { from.new ≡ from.old }
    ensures count { length shards.new ≡ length shards.old }
    ensures told { AllTold from.old shards.old shards.new }
{
    for shard in shards.iter_mut() {
        hear_one(pool, shard, from);
    }
}

/// At the opening of a round: each worker's seat is told what all shards hold.
pub fn brief<S: Seated>(pool: &Pool, shards: &mut [Placed<S>], lookers: &mut [PoolSeat])
    requires at { (phase : ℕ) × AreAt pool.now phase shards.old × LookersAt pool.now phase lookers.old }
    ensures same { shards.new ≡ shards.old }
    ensures count { length lookers.new ≡ length lookers.old }
    ensures goes { EachGoes lookers.old lookers.new }
    ensures knows { EachKnows lookers.new shards.old }
{
    for looker in lookers.iter_mut() {
        tell_all(pool, shards, looker);
    }
}

/// At the close: all that anybody knows comes to the first worker's seat, and from there to each shard's.
pub fn debrief<S: Seated>(
    pool: &Pool,
    shards: &mut [Placed<S>],
    first: &mut PoolSeat,
    others: &mut [PoolSeat],
)
    requires at { (phase : ℕ) × AreAt pool.now phase shards.old × IsAt pool.now phase first.old × LookersAt pool.now phase others.old }
    ensures others { others.new ≡ others.old }
    ensures goes { Goes first.old first.new }
    ensures count { length shards.new ≡ length shards.old }
    ensures knows { KnowsAll first.new shards.old × KnowsEach first.new others.old }
    ensures told { AllTold first.new shards.old shards.new }
{
    tell_each(pool, others, first);
    tell_all(pool, shards, first);
    hear_all(pool, shards, first);
}

/// At the close: whatever a shard's or a worker's seat noted of the shards is so, and no two shards hold one address.
pub fn agree<S: Seated>(pool: &Pool, shards: &mut [Placed<S>], lookers: &mut [PoolSeat])
    requires some { 0 < length lookers.old }
    requires count { length shards.old ≡ pool.now.shards }
    requires at { (phase : ℕ) × AreAt pool.now phase shards.old × LookersAt pool.now phase lookers.old }
    ensures lookers { (length lookers.new ≡ length lookers.old) × EachGoes lookers.old lookers.new }
    ensures count { length shards.new ≡ length shards.old }
    ensures more { EachKnowsMore shards.old shards.new }
    ensures agreed { AreAgreed shards.old shards.new lookers.old }
{
    let Some((first, others)) = lookers.split_first_mut() else {
        unreachable!()
    };
    debrief(pool, shards, first, others);
}

/// The same over whole lists.
pub fn agree_in<S: Seated>(pool: &Pool, shards: &mut Vec<Placed<S>>, lookers: &mut Vec<PoolSeat>)
    requires some { 0 < length lookers.old.items }
    requires count { length shards.old.items ≡ pool.now.shards }
    requires at { (phase : ℕ) × AreAt pool.now phase shards.old.items × LookersAt pool.now phase lookers.old.items }
    ensures lookers { (length lookers.new.items ≡ length lookers.old.items) × EachGoes lookers.old.items lookers.new.items }
    ensures count { length shards.new.items ≡ length shards.old.items }
    ensures more { EachKnowsMore shards.old.items shards.new.items }
    ensures agreed { AreAgreed shards.old.items shards.new.items lookers.old.items }
{
    agree(pool, shards.as_mut_slice(), lookers.as_mut_slice());
}

/// What `brief` does, over whole lists.
pub fn brief_in<S: Seated>(pool: &Pool, shards: &mut Vec<Placed<S>>, lookers: &mut Vec<PoolSeat>)
    requires at { (phase : ℕ) × AreAt pool.now phase shards.old.items × LookersAt pool.now phase lookers.old.items }
    ensures same { shards.new.items ≡ shards.old.items }
    ensures count { length lookers.new.items ≡ length lookers.old.items }
    ensures goes { EachGoes lookers.old.items lookers.new.items }
    ensures knows { EachKnows lookers.new.items shards.old.items }
{
    brief(pool, shards.as_mut_slice(), lookers.as_mut_slice());
}
