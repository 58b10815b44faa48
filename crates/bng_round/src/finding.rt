//! Which shard an item is for, where words that all threads share say who holds an address.
ghost use Rattle.std.specs.Prelude.{◌≡◌, ◌<◌, ◌≤◌, ℕ};
ghost use Rattle.bng_pool.specs.Seats.{IsInRound};
ghost use Rattle.bng_round.specs.Asking.{Goes};
ghost use Rattle.bng_round.specs.Looking.{Finds, IsFoundNow};

use bng_base::{Fate, Ip4, Item};
use bng_pool::{Pool, PoolSeat};
use bng_steps::{Destination, Rules, Whose, destination_of};

/// Where an item is handled: where it leads, and by one look of the seat where it leads to the holder of an address.
pub(crate) fn whose_is(rules: &Rules, pool: &Pool, looker: &mut PoolSeat, item: &Item) -> Whose
    requires some { 1 ≤ rules.now.shards }
    requires pool { looker.old.pool ≡ pool.now }
    requires shards { pool.now.shards ≤ rules.now.shards }
    requires round { IsInRound looker.old }
    ensures finds { Finds rules.now item.now result looker.old looker.new }
    ensures inside { (n : ℕ) → result ≡ Whose.Stands n → n < rules.now.shards }
{
    match destination_of(rules, item) {
        Destination::Loose(fate) => Whose::Loose(fate),
        Destination::Stands(shard) => Whose::Stands(shard),
        Destination::Holder(address, fate) => held_or(pool, looker, address, fate),
    }
}

// By whoever holds an address.
fn held_or(pool: &Pool, looker: &mut PoolSeat, address: Ip4, fate: Fate) -> Whose
    requires pool { looker.old.pool ≡ pool.now }
    requires round { IsInRound looker.old }
    ensures goes { Goes looker.old looker.new }
    ensures found { IsFoundNow (Destination.Holder address fate) result looker.old looker.new }
    ensures inside { (n : ℕ) → result ≡ Whose.Stands n → n < pool.now.shards }
{
    match pool.look(looker, address) {
        Some(shard) => Whose::Stands(shard),
        None => Whose::Loose(fate),
    }
}
