//! Which shard an item is for, where the table says who holds an address.
ghost use Rattle.std.specs.Prelude.{◌≡◌, ◌<◌, ◌≤◌, ℕ};
ghost use Rattle.bng_pool.specs.Tables.{entry};
ghost use Rattle.bng_steps.specs.Whose.{IsHeldOr, IsWhose};

use bng_base::{Fate, Ip4, Item};
use bng_pool::PlainPool;
use bng_steps::{Destination, Rules, Whose, destination_of};

/// Where an item is handled: where it leads, by the table of addresses where it leads to a holder.
pub fn whose_is(rules: &Rules, pool: &PlainPool, item: &Item) -> Whose
    requires some { 1 ≤ rules.now.shards }
    requires shards { pool.now.shards ≤ rules.now.shards }
    ensures is { IsWhose rules.now (entry pool.now.table) item.now result }
    ensures inside { (n : ℕ) → result ≡ Whose.Stands n → n < rules.now.shards }
{
    match destination_of(rules, item) {
        Destination::Loose(fate) => Whose::Loose(fate),
        Destination::Stands(shard) => Whose::Stands(shard),
        Destination::Holder(address, fate) => held_or(pool, address, fate),
    }
}

// By whoever holds an address.
fn held_or(pool: &PlainPool, address: Ip4, fate: Fate) -> Whose
    ensures is { IsHeldOr fate (entry pool.now.table address.0) result }
    ensures inside { (n : ℕ) → result ≡ Whose.Stands n → n < pool.now.shards }
{
    pool.lists_each_once();
    match pool.look(address) {
        Some(shard) => Whose::Stands(shard),
        None => Whose::Loose(fate),
    }
}
