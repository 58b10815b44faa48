//! The Starts of terms: of those that are there at the opening, and of those that began in a round.
ghost use Rattle.std.specs.Prelude.{◌≡◌, ◌⊎◌, ◌+◌, ◌≤◌, ◌<◌, ◌++◌, ◌^◌, false, None, Bool, List, ℕ, [], ◌∷◌, length, map};
ghost use Rattle.std.specs.List.{All, AllPairs};
ghost use Rattle.bng_acct.specs.Roster.{of_term, same};
ghost use Rattle.bng_engine.specs.Terms.{Key, keys};
ghost use Rattle.bng_steps.specs.Lasting.{AreTenures};
ghost use Rattle.bng_steps.specs.Protocol.{key_in, terms_of};
ghost use Rattle.bng_steps.specs.Tenures.{Tenure};
ghost use Rattle.bng_desk.specs.Accounting.{AreBilled, AreSettling};
ghost use Rattle.bng_desk.specs.Model.{keys_in};
ghost use Rattle.bng_desk.specs.Round.{news_in};
ghost use Rattle.bng_desk.specs.Taking.{states_of, BeginsAll, BeginsShard, BooksStarts, HasRows, OwesNone};

use crate::accounts::Accounts;
use bng_shard::Shard;

/// Forms the Starts of the terms that a shard has at its opening, in the order in which they began, at this moment and this second on the
/// wall. There is room for them, and nothing of them is held. It has a row for each.
pub(crate) fn start_all(shard: &Shard, accounts: &mut Accounts, moment: u64, wall: u64)
    requires few { length (keys (terms_of shard.now.state)) ≤ 2 ^ 32 }
    requires room { length accounts.old.billing.spool.held + length (keys (terms_of shard.now.state)) ≤ accounts.old.billing.spool.rules.terms }
    requires fresh { All (λ k. of_term k.term accounts.old.billing.spool.held ≡ None) (keys (terms_of shard.now.state)) }
    requires apart { AllPairs (λ j k. same j.term k.term ≡ false) (keys (terms_of shard.now.state)) }
    requires rows { HasRows shard.now }
    requires terms { AreTenures moment shard.now.state.slots }
    ensures { BooksStarts shard.now.state.slots.terms moment wall (keys (terms_of shard.now.state)) accounts.old accounts.new }
{
    let mut place = 0;
    while let Some(term) = shard.term(place) {
        accounts.start(term, moment, wall);
        place += 1;
    }
}

// Forms the Starts of the terms of a shard that began in its round, the first in order first.
fn begin(shard: &mut Shard, accounts: &mut Accounts, moment: u64, wall: u64)
    requires terms { AreTenures moment shard.old.state.slots }
    requires settling { (terms : List Key) × AreSettling terms (map key_in shard.old.state.slots.news) accounts.old.billing }
    ensures begins { BeginsShard shard.old.state.slots.news moment wall shard.old shard.new accounts.old accounts.new }
    ensures settling { (terms front back : List Key) → AreSettling terms (front ++ (map key_in shard.old.state.slots.news ++ back)) accounts.old.billing → AreSettling terms (front ++ back) accounts.new.billing }
{
    if !shard.has_news() {
        return;
    }
    while let Some(term) = shard.fresh() {
        accounts.start(term, moment, wall);
    }
}

/// Forms the Starts of the terms that began in a round, of the shards in their order and in each the first in order first, at this moment
/// and this second on the wall. It is called once the Stops of the round were formed. Each term that is there is live in accounting then.
pub(crate) fn begin_all(shards: &mut [Shard], accounts: &mut Accounts, moment: u64, wall: u64)
    requires terms { All (λ v. AreTenures moment v.state.slots) shards.old }
    requires settling { AreSettling (keys_in shards.old) (map key_in (news_in (states_of shards.old))) accounts.old.billing }
    ensures begins { BeginsAll moment wall shards.old shards.new accounts.old accounts.new }
    ensures owes_none { All OwesNone shards.new }
    ensures billed { AreBilled (keys_in shards.new) accounts.new.billing }
{
    for shard in shards.iter_mut() {
        begin(shard, accounts, moment, wall);
    }
}
