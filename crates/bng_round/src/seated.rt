//! What a round asks of a shard.
ghost use Rattle.std.specs.Prelude.{◌≡◌, ◌≢◌, ◌≤◌, ◌<◌, ◌+◌, ◌^◌, [], OnOk};
ghost use Rattle.std.specs.List.{All};
ghost use Rattle.bng_base.specs.declared.address.Ip4.{Ip4 as Address};
ghost use Rattle.bng_engine.specs.Calls.{Kept, IsReady};
ghost use Rattle.bng_engine.specs.Terms.{Term, keys};
ghost use Rattle.bng_engine.specs.Views.{row_keys};
ghost use Rattle.bng_round.specs.Booking.{HandlesAs};
ghost use Rattle.bng_round.specs.Ticks.{Admits};
ghost use Rattle.bng_round.specs.Views.{is_limited};
ghost use Rattle.bng_steps.specs.Protocol.{entry_with, sessions_of, terms_of};
ghost use Rattle.bng_steps.specs.Sums.{AreLow, IsLow};
ghost use Rattle.bng_steps.specs.Wished.{IsAnswered, IsWished, MayWish};

use bng_base::{Book, Claim, Fate, Item};
use bng_steps::{Rules, ShardError, Wish};
use std::alloc::Global;

/// A shard that a round can seat, and what is seen of it. It asks nothing of the words of the addresses itself.
pub trait Seated: Drop {
    ghost use Rattle.bng_round.specs.Views.{Shown};

    /// The shard as contracts see it.
    ghost seen: { Self → Shown };

    /// By what it works.
    fn rules(&self) -> &Rules
        ensures { result.now ≡ (seen self.now).state.rules };

    /// Makes room for a round of so many items, in which at most `allowance` terms may begin. No round may be going on. After an error all
    /// is as before, room and allowance aside.
    fn prepare(&mut self, alloc: Global, items: u16, allowance: u32) -> Result<(), ShardError>
        requires journal { (seen self.old).journal ≡ [] }
        requires outs { (seen self.old).outs ≡ [] }
        requires numbers { 0 < allowance → (seen self.old).state.slots.begun + allowance < 2 ^ 48 }
        ensures kept { Kept (seen self.old) (seen self.new) }
        ensures ready { OnOk result (IsReady items allowance (seen self.new)) }
        ensures empty { ((seen self.new).journal ≡ []) × ((seen self.new).outs ≡ []) }
        ensures fit { row_keys (seen self.new).rows ≡ keys (terms_of (seen self.new).state) }
        ensures few { sessions_of (seen self.new).state ≤ 1022 };

    /// What an item asks of the pools of addresses, as things stand in the round.
    fn wish(&self, item: &Item) -> Wish
        requires room { 0 < (seen self.now).room }
        ensures wished { IsWished (seen self.now).state.rules (seen self.now).state.slots item.now (is_limited (seen self.now)) result }
        ensures may { MayWish (seen self.now).state.rules.pools result };

    /// Handles an item that stood at this place of this seat's list, at the round's moment in milliseconds, below 2^60, and answers its fate
    /// before its sends. `claim` is what was answered to what the item asks; an address that was claimed is no term's. It appends one entry
    /// to the journal, and takes no memory. What passes is entered in the ledger, and in the book of its term's profile.
    fn step_with(
        &mut self,
        seat: u16,
        place: u16,
        now: u64,
        item: &Item,
        claim: Claim,
        ledger: &mut Book,
    ) -> Fate
        requires room { 0 < (seen self.old).room }
        requires once { Admits (seen self.old).journal item.now.kind }
        requires moment { now < 2 ^ 60 }
        requires whole { item.now.frame.headroom ≡ 64 }
        requires low_books { AreLow (2 ^ 63) (seen self.old).books }
        requires low_ledger { IsLow (2 ^ 63) ledger.old }
        requires answered { IsAnswered (seen self.old).state.rules (seen self.old).state.slots item.now (is_limited (seen self.old)) claim }
        requires free { (a : Address) → claim ≡ Claim.Claimed a → All (λ (t : Term). t.key.address.0 ≢ a.0) (terms_of (seen self.old).state) }
        ensures { HandlesAs (seen self.old) (seen self.new) (entry_with claim seat place now item.now) result ledger.old ledger.new };
}
