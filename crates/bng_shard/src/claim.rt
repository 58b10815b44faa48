//! What is asked of the table of addresses.
ghost use Rattle.std.specs.Prelude.{◌≡◌, ◌<◌, ◌+◌, length};
ghost use Rattle.bng_base.specs.declared.address.Ip4.{Ip4 as Address};
ghost use Rattle.bng_steps.specs.Protocol.{claimed_by};
ghost use Rattle.bng_shard.specs.Handling.{AnswersClaim, HasPools};
ghost use Rattle.bng_steps.specs.Wished.{MayWish};
ghost use Rattle.bng_steps.specs.Wishes.{IsAnswerTo};

use bng_base::Claim;
use bng_pool::PlainPool;
use bng_steps::{Rules, Wish};

/// What the pool answers to a wish of the shard with this number. Its ranges are those of the rules' pools, at the same places.
pub(crate) fn claim_wish(pool: &mut PlainPool, _rules: &Rules, shard: u16, wish: Wish) -> Claim
    requires shard { shard < pool.old.shards }
    requires pools { HasPools _rules.now.pools pool.old.ranges }
    requires may { MayWish _rules.now.pools wish }
    ensures answer { IsAnswerTo _rules.now.pools wish result }
    ensures table { AnswersClaim shard result pool.old pool.new }
{
    match wish {
        Wish::Nothing => Claim::NoClaim,
        Wish::Address(address) => pool.claim(shard, address),
        Wish::Pool(place) => pool.scan(shard, place),
    }
}

/// How many terms may still begin, once this was claimed.
pub(crate) fn left_after(left: u32, claim: Claim) -> u32
    requires left { (a : Address) → claim ≡ Claim.Claimed a → 0 < left }
    ensures { result + length (claimed_by claim) ≡ left }
{
    match claim {
        Claim::Claimed(_) => left - 1,
        Claim::NoClaim | Claim::Held(_) | Claim::Exhausted(_) => left,
    }
}
