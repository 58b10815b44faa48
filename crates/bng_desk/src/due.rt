//! What is due in the shards.
ghost use Rattle.std.specs.Prelude.{◌≡◌, ◌+◌, ◌≤◌, ◌<◌, ◌^◌, ◌++◌, ◌∷◌, [], length};
ghost use Rattle.bng_desk.specs.Intake.{AddsTimeouts};
ghost use Rattle.bng_desk.specs.Items.{ticks_of, ends_of, drawn_from, for_shard, is_reached};
ghost use Rattle.bng_desk.specs.Random.{draw};
ghost use Rattle.bng_desk.specs.Taking.{AreInOrder};
ghost use Rattle.bng_desk.specs.Turn.{deadline_in, wait_for};
ghost use Rattle.bng_ppp.specs.LcpRelation.{earliest as first_of};

use crate::answers::verdict;
use crate::random::Draws;
use bng_base::{Batch, Frame, Item, ItemKind, NOBODY};
use bng_lane::Questions;
use bng_shard::Shard;

/// The milliseconds of a wait before which nothing is due.
const WAIT_MOST: u64 = 100;

fn is_reached(deadline: Option<u64>, now: u64) -> bool
    ensures { result ≡ is_reached deadline now }
{
    match deadline {
        Some(deadline) => deadline <= now,
        None => false,
    }
}

// An item of this kind for a shard, with its random octets.
fn item_for(kind: ItemKind, shard: u16, draws: &mut Draws) -> Item
    requires drawn { draws.old.drawn < 2 ^ 62 }
    ensures item { result ≡ record (for_shard kind shard) { random = draw draws.old.seed draws.old.drawn } }
    ensures drawn { draws.new ≡ record draws.old { drawn = draws.old.drawn + 1 } }
{
    let random = draws.sixteen();
    Item {
        kind,
        from: NOBODY,
        frame: Frame::new(),
        cut: false,
        random,
        target: shard,
        ask: 0,
    }
}

// Adds a Tick for the shard with this number, if it has a due deadline.
fn add_tick(shard: &Shard, number: u16, now: u64, draws: &mut Draws, items: &mut Batch<Item>)
    requires number { shard.now.number ≡ number }
    requires room { length items.old.items < items.old.room }
    requires drawn { draws.old.drawn < 2 ^ 62 }
    ensures items { items.new.items ≡ items.old.items ++ drawn_from draws.old.seed draws.old.drawn (ticks_of now (shard.now ∷ [])) }
    ensures drawn { draws.new ≡ record draws.old { drawn = draws.old.drawn + length (ticks_of now (shard.now ∷ [])) } }
    ensures capacity { items.new.room ≡ items.old.room }
{
    if is_reached(shard.due(), now) {
        let tick = item_for(ItemKind::Tick, number, draws);
        items.push(tick);
    }
}

/// Adds a Tick for each shard that has a due deadline, in the order of their numbers.
pub(crate) fn add_ticks(shards: &[Shard], now: u64, draws: &mut Draws, items: &mut Batch<Item>)
    requires numbers { AreInOrder shards.now }
    requires few { length shards.now ≤ 64 }
    requires room { length items.old.items + length shards.now ≤ items.old.room }
    requires drawn { draws.old.drawn < 2 ^ 61 }
    ensures items { items.new.items ≡ items.old.items ++ drawn_from draws.old.seed draws.old.drawn (ticks_of now shards.now) }
    ensures drawn { draws.new ≡ record draws.old { drawn = draws.old.drawn + length (ticks_of now shards.now) } }
    ensures capacity { items.new.room ≡ items.old.room }
{
    for (number, shard) in shards.iter().enumerate() {
        add_tick(shard, number as u16, now, draws, items);
    }
}

/// Gives up the questions whose server was silent to the last, so many at most: each is an item without octets.
pub(crate) fn add_timeouts(
    lane: &mut Questions,
    now: u64,
    most: usize,
    draws: &mut Draws,
    items: &mut Batch<Item>,
)
    requires few { most ≤ 128 }
    requires room { length items.old.items + most ≤ items.old.room }
    requires drawn { draws.old.drawn < 2 ^ 61 }
    ensures adds { AddsTimeouts now most lane.old lane.new draws.old draws.new items.old.items items.new.items }
    ensures few { length items.new.items ≤ length items.old.items + most }
    ensures few_drawn { draws.new.drawn ≤ draws.old.drawn + most }
    ensures capacity { items.new.room ≡ items.old.room }
{
    if !lane.is_due(now) {
        return;
    }
    for _given_up in 0..most {
        let Some(number) = lane.give_up(now) else {
            return;
        };
        let random = draws.sixteen();
        items.push(verdict(number, NOBODY, false, Frame::new(), random));
    }
}

/// Adds an End for each of so many shards.
pub(crate) fn add_ends(shards: usize, draws: &mut Draws, items: &mut Batch<Item>)
    requires few { shards ≤ 64 }
    requires room { length items.old.items + shards ≤ items.old.room }
    requires drawn { draws.old.drawn < 2 ^ 61 }
    ensures items { items.new.items ≡ items.old.items ++ drawn_from draws.old.seed draws.old.drawn (ends_of shards) }
    ensures drawn { draws.new ≡ record draws.old { drawn = draws.old.drawn + shards } }
    ensures capacity { items.new.room ≡ items.old.room }
{
    for number in 0..shards {
        let end = item_for(ItemKind::End, number as u16, draws);
        items.push(end);
    }
}

/// The earlier of two deadlines.
pub(crate) fn earlier(a: Option<u64>, b: Option<u64>) -> Option<u64>
    ensures { result ≡ first_of a b }
{
    match (a, b) {
        (Some(a), Some(b)) => Some(a.min(b)),
        (Some(a), None) => Some(a),
        (None, b) => b,
    }
}

/// The earliest deadline of all shards.
pub(crate) fn deadline_of(shards: &[Shard]) -> Option<u64>
    ensures { result ≡ deadline_in shards.now }
{
    shards
        .iter()
        .fold(None, |deadline, shard| earlier(deadline, shard.due()))
}

/// The milliseconds from a moment to a deadline, 100 at most.
pub(crate) fn wait_until(deadline: Option<u64>, now: u64) -> u32
    ensures { result ≡ wait_for deadline now }
{
    match deadline {
        Some(deadline) => deadline.saturating_sub(now).min(WAIT_MOST) as u32,
        None => WAIT_MOST as u32,
    }
}
