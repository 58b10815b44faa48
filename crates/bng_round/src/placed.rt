//! A shard in its place in a round.
ghost use Rattle.std.specs.Prelude.{◌≡◌, ◌≤◌, ◌<◌, ◌+◌, ◌^◌, [], ℕ, true, OnOk, sum};
ghost use Rattle.bng_engine.specs.Calls.{IsReady, Kept};
ghost use Rattle.bng_engine.specs.Terms.{keys};
ghost use Rattle.bng_engine.specs.Views.{row_keys};
ghost use Rattle.bng_pool.specs.Ranges.{HasAddress};
ghost use Rattle.bng_pool.specs.Seats.{Holds, IsInRound, IsLearned, told};
ghost use Rattle.bng_round.specs.Asking.{AreHeldBy, IsAskedFor, IsHold};
ghost use Rattle.bng_round.specs.Booking.{CanHandle, IsNext, IsSet, Steps};
ghost use Rattle.bng_steps.specs.Protocol.{entry_of, sessions_of, terms_of};
ghost use Rattle.bng_steps.specs.Sums.{AreLow};
ghost use Rattle.bng_steps.specs.Wished.{MayWish};
ghost use Rattle.bng_steps.specs.Wishes.{IsAnswerTo};

use crate::mark::{Done, Mark};
use crate::seated::Seated;
use bng_base::{Book, Claim, Fate, Item, NamedRange};
use bng_pool::{Pool, PoolSeat};
use bng_steps::{Rules, ShardError, Wish, steps_meet_laws};
use bng_turn::Booked;
use std::alloc::Global;
use std::marker::Model;

/// A shard, with its seat at the words of the addresses, as a round's turn keeps it. Contracts see both, and of a round that is going on the
/// lengths of the workers' lists, the moment, and what the last entry came to.
#[derive(Drop)]
pub struct Placed<S: Seated> {
    pub(crate) shard: S,
    pub(crate) hold: PoolSeat,
    pub(crate) lists: Vec<u16>,
    pub(crate) moment: u64,
    pub(crate) last: Done,
}

impl<S: Seated> Model for Placed<S> {
    ghost use Rattle.std.specs.Coded.{codes};
    ghost use Rattle.bng_steps.specs.Codes.{state_code};
    ghost use Rattle.bng_round.specs.Views.{PlacedView};

    ghost Value = { PlacedView };

    ghost coded = { Prim.hlevel (codes, state_code) };

    ghost view = { λ a. record { shard = S.seen a.shard; hold = a.hold; lists = a.lists.items; moment = a.moment; last = a.last } };
}

impl<S: Seated> Booked for Placed<S> {
    type Mark = Mark;

    ghost use Rattle.bng_round.specs.Booking.{Follows};

    ghost follows = { Follows };
}

// What the words answer to a wish of the seat's shard, whose pools are their ranges.
fn ask(pool: &Pool, hold: &mut PoolSeat, _pools: &[NamedRange], wish: Wish) -> Claim
    requires hold { IsHold pool.now _pools.now hold.old }
    requires may { MayWish _pools.now wish }
    ensures answer { IsAnswerTo _pools.now wish result }
    ensures asked { IsAskedFor wish result hold.old hold.new }
{
    match wish {
        Wish::Nothing => Claim::NoClaim,
        Wish::Address(address) => pool.claim(hold, address),
        Wish::Pool(place) => pool.scan(hold, place),
    }
}

impl<S: Seated> Placed<S> {
    /// A shard and its seat, in which no round goes on.
    pub fn of(alloc: Global, shard: S, hold: PoolSeat) -> Placed<S>
        ensures shard { result.shard ≡ S.seen shard }
        ensures hold { result.hold ≡ hold }
    {
        Placed {
            shard,
            hold,
            lists: Vec::new(alloc),
            moment: 0,
            last: Done {
                fate: Fate::Consumed,
                passed: Book::empty(),
            },
        }
    }

    /// The shard and its seat.
    pub fn into_parts(self) -> (S, PoolSeat)
        ensures shard { S.seen result.0 ≡ self.shard }
        ensures hold { result.1 ≡ self.hold }
    {
        let Placed {
            shard,
            hold,
            lists: _,
            moment: _,
            last: _,
        } = self;
        (shard, hold)
    }

    /// By what the shard works.
    pub fn rules(&self) -> &Rules
        ensures { result.now ≡ self.now.shard.state.rules }
    {
        self.shard.rules()
    }

    /// Makes the shard ready for a round at this moment, with lists of these lengths: there is room for all of their items, and at most
    /// `allowance` terms may begin. No round may be going on. After an error all is as before, what is kept of a round aside.
    pub fn prepare(
        &mut self,
        alloc: Global,
        lists: &[u16],
        items: u16,
        allowance: u32,
        now: u64,
    ) -> Result<(), ShardError>
        requires journal { self.old.shard.journal ≡ [] }
        requires outs { self.old.shard.outs ≡ [] }
        requires numbers { 0 < allowance → self.old.shard.state.slots.begun + allowance < 2 ^ 48 }
        requires items { (sum lists.now ≡ items) × (items ≤ 1024) }
        requires books { AreLow (2 ^ 62) self.old.shard.books }
        requires held { AreHeldBy self.old.hold (terms_of self.old.shard.state) }
        ensures set { OnOk result (IsSet self.new) }
        ensures ready { OnOk result (IsReady items allowance self.new.shard × (self.new.lists ≡ lists.now) × (self.new.moment ≡ now)) }
        ensures kept { Kept self.old.shard self.new.shard }
        ensures hold { self.new.hold ≡ self.old.hold }
        ensures within { (a : ℕ) → Holds self.new.hold.held a → HasAddress self.new.hold.pool.ranges a }
        ensures empty { (self.new.shard.journal ≡ []) × (self.new.shard.outs ≡ []) }
        ensures fit { row_keys self.new.shard.rows ≡ keys (terms_of self.new.shard.state) }
        ensures few { sessions_of self.new.shard.state ≤ 1022 }
    {
        self.hold.holds_within();
        let room = self.shard.prepare(alloc, items, allowance);
        let Ok(lengths) = Vec::from_slice(alloc, lists) else {
            return Err(ShardError::OutOfMemory);
        };
        self.lists = lengths;
        self.moment = now;
        room
    }

    /// Handles an item that stood at this place of this seat's list, and answers what it came to. What the item asks of the words is asked
    /// once.
    pub(crate) fn step(&mut self, pool: &Pool, seat: u16, place: u16, now: u64, item: &Item) -> Done
        requires hold { IsHold pool.now self.old.shard.state.rules.pools self.old.hold }
        requires next { IsNext self.old (entry_of seat place now item.now) }
        requires can { CanHandle self.old item.now.kind }
        ensures { Steps self.old (entry_of seat place now item.now) result self.new }
    {
        steps_meet_laws();
        let wish = self.shard.wish(item);
        let claim = ask(
            pool,
            &mut self.hold,
            self.shard.rules().pools.as_slice(),
            wish,
        );
        let mut passed = Book::empty();
        let fate = self
            .shard
            .step_with(seat, place, now, item, claim, &mut passed);
        self.last = Done { fate, passed };
        self.last
    }

    /// Gives a seat of the words all that the shard's seat holds and noted.
    pub(crate) fn tell(&mut self, pool: &Pool, to: &mut PoolSeat)
        requires pool { (self.old.hold.pool ≡ pool.now) × (to.old.pool ≡ pool.now) }
        requires round { IsInRound self.old.hold }
        ensures same { self.new ≡ self.old }
        ensures to { to.new ≡ told to.old self.old.hold }
    {
        pool.tell(&mut self.hold, to);
    }

    /// Gives the shard's seat all that another holds and noted. What it knows then agrees.
    pub(crate) fn hear(&mut self, pool: &Pool, from: &mut PoolSeat)
        requires pool { (self.old.hold.pool ≡ pool.now) × (from.old.pool ≡ pool.now) }
        requires round { IsInRound from.old }
        requires full { self.old.hold.full ≡ true }
        ensures from { from.new ≡ from.old }
        ensures hold { self.new ≡ record self.old { hold = told self.old.hold from.old } }
        ensures learned { IsLearned (told self.old.hold from.old) }
        ensures within { (a : ℕ) → Holds self.new.hold.held a → HasAddress self.new.hold.pool.ranges a }
    {
        pool.tell(from, &mut self.hold);
        pool.learn(&mut self.hold);
        self.hold.holds_within();
    }
}
