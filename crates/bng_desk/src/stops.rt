//! The Stops of a round: the terms that ended leave, and their addresses are given back.
ghost use Rattle.std.specs.Prelude.{◌≡◌, ◌≢◌, ◌≤◌, ◌++◌, Bool, List, ℕ, [], ◌∷◌, map};
ghost use Rattle.std.specs.List.{All};
ghost use Rattle.bng_engine.specs.Terms.{Key, Term, keys};
ghost use Rattle.bng_steps.specs.Lasting.{AreTenures};
ghost use Rattle.bng_steps.specs.Protocol.{key_in, terms_of};
ghost use Rattle.bng_shard.specs.Handling.{AreHeld};
ghost use Rattle.bng_desk.specs.Accounting.{AreSettling};
ghost use Rattle.bng_desk.specs.Model.{keys_in};
ghost use Rattle.bng_desk.specs.Round.{news_in};
ghost use Rattle.bng_desk.specs.Taking.{states_of, AllWithin, AreInOrder, LinesWithin, ReapsShard, ReapsAll, SameInAll, far};

use crate::accounts::Accounts;
use bng_pool::PlainPool;
use bng_shard::Shard;

// Lets the terms of a shard leave that ended, the first in order first. `began` are the terms that began in the round, of all shards. It is
// not inlined: it blanks the room for a term that ended, and a shard without one would pay for that in each turn.
#[inline(never)]
fn reap_ended(
    shard: &mut Shard,
    pool: &mut PlainPool,
    accounts: &mut Accounts,
    moment: u64,
    wall: u64,
)
    requires low { LinesWithin far (shard.old ∷ []) accounts.old.lines }
    requires low_in_all { AllWithin far (shard.old ∷ []) accounts.old.stopped }
    requires terms { AreTenures moment shard.old.state.slots }
    requires settling { (front back began : List Key) × AreSettling (front ++ (keys (terms_of shard.old.state) ++ back)) began accounts.old.billing }
    requires held { AreHeld shard.old.number (terms_of shard.old.state) pool.old.table }
    ensures reaps { ReapsShard shard.old.state.slots.terms moment wall shard.old shard.new pool.old pool.new accounts.old accounts.new }
    ensures settling { (front back began : List Key) → AreSettling (front ++ (keys (terms_of shard.old.state) ++ back)) began accounts.old.billing → AreSettling (front ++ (keys (terms_of shard.new.state) ++ back)) began accounts.new.billing }
    ensures terms { AreTenures moment shard.new.state.slots }
    ensures held { AreHeld shard.new.number (terms_of shard.new.state) pool.new.table }
    ensures others { (n : ℕ) (terms : List Term) → n ≢ shard.old.number → AreHeld n terms pool.old.table → AreHeld n terms pool.new.table }
{
    while let Some(ended) = shard.reap(pool) {
        // What accounting knows of terms agrees with its records: no Stop of a live term is open.
        prove!(accounts.free() <= u32::MAX);
        accounts.stop(ended, moment, wall);
    }
}

// The same, where a term has ended or a session is to leave.
fn reap(shard: &mut Shard, pool: &mut PlainPool, accounts: &mut Accounts, moment: u64, wall: u64)
    requires low { LinesWithin far (shard.old ∷ []) accounts.old.lines }
    requires low_in_all { AllWithin far (shard.old ∷ []) accounts.old.stopped }
    requires terms { AreTenures moment shard.old.state.slots }
    requires settling { (front back began : List Key) × AreSettling (front ++ (keys (terms_of shard.old.state) ++ back)) began accounts.old.billing }
    requires held { AreHeld shard.old.number (terms_of shard.old.state) pool.old.table }
    ensures reaps { ReapsShard shard.old.state.slots.terms moment wall shard.old shard.new pool.old pool.new accounts.old accounts.new }
    ensures settling { (front back began : List Key) → AreSettling (front ++ (keys (terms_of shard.old.state) ++ back)) began accounts.old.billing → AreSettling (front ++ (keys (terms_of shard.new.state) ++ back)) began accounts.new.billing }
    ensures terms { AreTenures moment shard.new.state.slots }
    ensures held { AreHeld shard.new.number (terms_of shard.new.state) pool.new.table }
    ensures others { (n : ℕ) (terms : List Term) → n ≢ shard.old.number → AreHeld n terms pool.old.table → AreHeld n terms pool.new.table }
{
    if shard.is_settled() {
        return;
    }
    reap_ended(shard, pool, accounts, moment, wall);
}

/// Lets the terms leave that ended, of the shards in their order: each by one Stop, with which its address is given back, of which a
/// record is formed at this moment and this second on the wall, and what it carried is added to the line with its address and to what all
/// Stops say, among which it counts. It is called once all outs of a round were sent and charged.
pub(crate) fn reap_all(
    shards: &mut [Shard],
    pool: &mut PlainPool,
    accounts: &mut Accounts,
    moment: u64,
    wall: u64,
)
    requires low { LinesWithin far shards.old accounts.old.lines }
    requires low_in_all { AllWithin far shards.old accounts.old.stopped }
    requires terms { All (λ v. AreTenures moment v.state.slots) shards.old }
    requires settling { AreSettling (keys_in shards.old) (map key_in (news_in (states_of shards.old))) accounts.old.billing }
    requires numbers { AreInOrder shards.old }
    requires held { All (λ v. AreHeld v.number (terms_of v.state) pool.old.table) shards.old }
    ensures reaps { ReapsAll moment wall shards.old shards.new pool.old pool.new accounts.old accounts.new }
    ensures within { (most : Bool → ℕ) → LinesWithin most shards.old accounts.old.lines → LinesWithin most shards.new accounts.new.lines }
    ensures same { SameInAll shards.old accounts.old.stopped shards.new accounts.new.stopped }
    ensures settling { AreSettling (keys_in shards.new) (map key_in (news_in (states_of shards.new))) accounts.new.billing }
    ensures terms { All (λ v. AreTenures moment v.state.slots) shards.new }
    ensures held { All (λ v. AreHeld v.number (terms_of v.state) pool.new.table) shards.new }
{
    for shard in shards.iter_mut() {
        reap(shard, pool, accounts, moment, wall);
    }
}
