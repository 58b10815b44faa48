//! A round and its settlement, over all shards.
ghost use Rattle.std.specs.Prelude.{◌≡◌, ◌+◌, ◌*◌, ◌≤◌, ◌<◌, ◌^◌, ◌++◌, ◌∷◌, [], true, ℕ, List, Bool, length, sum_by, slice_index_or, vec_capacity};
ghost use Rattle.std.specs.List.{All, AllZip};
ghost use Rattle.bng_engine.specs.Calls.{Kept, IsReady};
ghost use Rattle.bng_engine.specs.Lists.{one_if};
ghost use Rattle.bng_engine.specs.Quantities.{Quantity, in_book};
ghost use Rattle.bng_engine.specs.Sums.{charge_if, is_directed, passed_sum};
ghost use Rattle.bng_pool.specs.Tables.{entry};
ghost use Rattle.bng_steps.specs.Protocol.{terms_of};
ghost use Rattle.bng_shard.specs.Handling.{AreHeld, HasPools};
ghost use Rattle.bng_shard.specs.Room.{Admits};
ghost use Rattle.bng_steps.specs.Sums.{Has, IsMore, IsLow, AreLow, RowsAreLow};
ghost use Rattle.bng_steps.specs.Whose.{IsWhose};
ghost use Rattle.bng_desk.specs.Allowing.{allowance_of};
ghost use Rattle.bng_desk.specs.Counting.{Within, plus};
ghost use Rattle.bng_desk.specs.Round.{with_failed};
ghost use Rattle.bng_desk.specs.Taking.{Shown, IsEmpty, HasRows, AreInOrder, AreItems, IsLight, Covers, DealsOne, Deals, is_lost, lost_part, Turns, AllTurn, Sends, SendsAll};

use crate::allowing::allowance;
use crate::calls::send;
use crate::drops::{Drops, count};
use crate::lists::Lists;
use bng_base::{Batch, Book, DropCause, Entry, Fate, Item, Listed, Loose, OutRecord};
use bng_plant::Plant;
use bng_pool::PlainPool;
use bng_shard::{Shard, whose_is};
use bng_steps::{Charged, Rules, Whose};
use std::alloc::Global;

// Lends a shard the list of a journal of before, emptied.
fn lend(shard: &mut Shard, mut list: Batch<Entry>)
    requires { shard.old.journal ≡ [] }
    ensures { shard.new ≡ record shard.old { room = 0 } }
{
    list.clear();
    shard.keep_journal(list);
}

// The list of a journal of before, where the shard wants one and one is left.
fn list_for(shard: &Shard, spare: &mut Vec<Batch<Entry>>) -> Option<Batch<Entry>> {
    if shard.wants_journal() {
        spare.pop()
    } else {
        None
    }
}

// Makes a shard ready for a round of so many items, in which so many terms may begin, with the list of a journal of before where it wants
// one and one is left.
fn prepare_one(
    shard: &mut Shard,
    alloc: Global,
    items: u16,
    allowance: u32,
    spare: &mut Vec<Batch<Entry>>,
) -> bool
    requires empty { IsEmpty shard.old }
    requires numbers { 0 < allowance → shard.old.state.slots.begun + allowance < 2 ^ 48 }
    ensures kept { Kept shard.old shard.new }
    ensures empty { IsEmpty shard.new }
    ensures ready { result ≡ true → IsReady items allowance shard.new }
    ensures rows { HasRows shard.new }
{
    if let Some(list) = list_for(shard, spare) {
        lend(shard, list);
    }
    shard.prepare(alloc, items, allowance).is_ok()
}

/// Makes all shards ready for a round of so many items, and says whether there is room. Accounting has room for so many terms, of which
/// each shard has its share. Lists of `spare` serve for their journals.
pub(crate) fn prepare_all(
    shards: &mut [Shard],
    alloc: Global,
    items: u16,
    free: u32,
    spare: &mut Vec<Batch<Entry>>,
) -> bool
    requires some { 1 ≤ length shards.old }
    requires few { length shards.old ≤ 64 }
    requires numbers { AreInOrder shards.old }
    requires empty { All IsEmpty shards.old }
    ensures kept { AllZip Kept shards.old shards.new }
    ensures empty { All IsEmpty shards.new }
    ensures ready { result ≡ true → AllZip (λ v w. IsReady items (allowance_of free (length shards.old) v) w) shards.old shards.new }
    ensures rows { result ≡ true → All HasRows shards.new }
{
    let count = shards.len() as u16;
    for (number, shard) in shards.iter_mut().enumerate() {
        let allowance = allowance(shard, number as u16, free, count);
        if !prepare_one(shard, alloc, items, allowance, spare) {
            return false;
        }
    }
    true
}

// A copy of an item, as a loose one with this fate.
fn loose_of(place: u16, item: &Item, fate: Fate) -> Loose
    ensures { result ≡ record { seat = 0; place = place; item = item.now; fate = fate } }
{
    Loose {
        seat: 0,
        place,
        item: item.copied(),
        fate,
    }
}

// An item that is dealt, its place on the list of its round, and the moment of the round in milliseconds.
#[derive(Clone, Copy)]
struct Dealt<'a> {
    place: u16,
    moment: u64,
    item: &'a Item,
}

// Hands an item to its shard, or keeps a copy of it as a loose one, and answers its fate.
fn deal(
    rules: &Rules,
    shards: &mut [Shard],
    pool: &mut PlainPool,
    dealt: &Dealt<'_>,
    loose: &mut Vec<Loose>,
    tally: &mut Book,
) -> Fate
    requires count { length shards.old ≡ rules.now.shards }
    requires some { 1 ≤ rules.now.shards }
    requires numbers { AreInOrder shards.old }
    requires one_rule { All (λ v. v.state.rules ≡ rules.now) shards.old }
    requires pools { HasPools rules.now.pools pool.old.ranges }
    requires places { pool.old.shards ≡ rules.now.shards }
    requires held { All (λ v. AreHeld v.number (terms_of v.state) pool.old.table) shards.old }
    requires moment { dealt.now.moment < 2 ^ 60 }
    requires whole { dealt.now.item.now.frame.headroom ≡ 64 }
    requires room { All (λ v. 0 < v.room) shards.old }
    requires once { (n : ℕ) (d : Shown) → n < length shards.old → IsWhose rules.now (entry pool.old.table) dealt.now.item.now (Whose.Stands n) → Admits (slice_index_or shards.old n d) dealt.now.item.now.kind }
    requires low_books { All (λ v. AreLow (2 ^ 63) v.books) shards.old }
    requires low_tally { IsLow (2 ^ 63) tally.old }
    requires loose_room { length loose.old.items < vec_capacity loose.old }
    ensures deals { DealsOne rules.now pool.old pool.new dealt.now.place dealt.now.moment dealt.now.item.now shards.old shards.new loose.old.items loose.new.items tally.old tally.new result }
    ensures held { All (λ v. AreHeld v.number (terms_of v.state) pool.new.table) shards.new }
    ensures capacity { vec_capacity loose.new ≡ vec_capacity loose.old }
{
    let item = dealt.item;
    match whose_is(rules, pool, item) {
        Whose::Loose(fate) => {
            loose.push_reserved(loose_of(dealt.place, item, fate));
            fate
        }
        Whose::Stands(number) => {
            shards[usize::from(number)].step(pool, 0, dealt.place, dealt.moment, item, tally)
        }
    }
}

/// Hands each item on the lists to its shard, in their order; an item that is for no shard is loose. Where a peer is accepted an address
/// is claimed of the pool. What passes is entered in the tally. At most as many terms begin in a shard as it is allowed.
pub(crate) fn deal_all(
    rules: &Rules,
    shards: &mut [Shard],
    pool: &mut PlainPool,
    now: u64,
    lists: &mut Lists,
    drops: &mut Drops,
    tally: &mut Book,
)
    requires numbers { AreInOrder shards.old }
    requires count { length shards.old ≡ rules.now.shards }
    requires some { 1 ≤ rules.now.shards }
    requires one_rule { All (λ v. v.state.rules ≡ rules.now) shards.old }
    requires pools { HasPools rules.now.pools pool.old.ranges }
    requires places { pool.old.shards ≡ rules.now.shards }
    requires held { All (λ v. AreHeld v.number (terms_of v.state) pool.old.table) shards.old }
    requires moment { now < 2 ^ 60 }
    requires items { AreItems lists.old.items.items }
    requires ready { All (λ v. IsReady (length lists.old.items.items) v.allowance v) shards.old }
    requires rows { All HasRows shards.old }
    requires low_books { All (λ v. AreLow (2 ^ 62 + 2 ^ 61) v.books) shards.old }
    requires low_tally { IsLow (2 ^ 62 + 2 ^ 61) tally.old }
    requires loose { lists.old.loose.items ≡ [] }
    requires room { length lists.old.items.items ≤ vec_capacity lists.old.loose }
    requires drops { Within (2 ^ 62) drops.old }
    ensures deals { Deals rules.now pool.old pool.new now lists.old.items.items shards.old shards.new lists.new.loose.items drops.old drops.new tally.old tally.new }
    ensures rest { lists.new ≡ record lists.old { loose = lists.new.loose } }
    ensures numbers { AreInOrder shards.new }
    ensures held { All (λ v. AreHeld v.number (terms_of v.state) pool.new.table) shards.new }
    ensures within { (most : ℕ) → Within most drops.old → Within (most + length lists.old.items.items) drops.new }
    ensures tally { (most : ℕ) → IsLow most tally.old → IsLow (most + 4160 * length lists.old.items.items) tally.new }
{
    let loose = &mut lists.loose;
    let mut place = 0;
    for item in lists.items.as_slice() {
        let dealt = Dealt {
            place,
            moment: now,
            item,
        };
        let fate = deal(rules, shards, pool, &dealt, loose, tally);
        count(drops, fate);
        place += 1;
    }
}

// Whether a packet's send failed.
fn is_lost(charged: Charged, sent: bool) -> bool
    ensures { result ≡ is_lost charged sent }
{
    match charged {
        Charged::Packet { .. } => !sent,
        Charged::Control => false,
    }
}

// Counts a packet whose send failed.
fn count_failed(drops: &mut Drops, charged: Charged, sent: bool)
    requires { Within (2 ^ 63) drops.old }
    ensures { drops.new ≡ plus drops.old (with_failed (one_if (is_lost charged sent))) }
{
    if is_lost(charged, sent) {
        count(drops, Fate::Dropped(DropCause::LinkFailed));
    }
}

// Takes a packet off a tally, of so many octets in this direction.
fn take_off(tally: &mut Book, input: bool, octets: u16)
    requires { Has tally.old input octets }
    ensures { IsMore tally.new input octets tally.old }
{
    tally.take_off(input, octets);
}

// Takes a packet whose send failed off the tally, in which it was entered when it passed.
fn take_back(tally: &mut Book, charged: Charged, sent: bool)
    requires { (q : Quantity) (input : Bool) → lost_part q input charged sent ≤ in_book q input tally.old }
    ensures { (q : Quantity) (input : Bool) → in_book q input tally.new + lost_part q input charged sent ≡ in_book q input tally.old }
{
    if let Charged::Packet { input, octets } = charged {
        if !sent {
            take_off(tally, input, octets);
        }
    }
}

// The out that was added last.
fn last_of(outs: &Batch<OutRecord>) -> &OutRecord
    requires some { 1 ≤ length outs.now.items }
    ensures { (others : List OutRecord) (last : OutRecord) → outs.now.items ≡ others ++ last ∷ [] → result.now ≡ last }
{
    let outs = outs.as_slice();
    &outs[outs.len() - 1]
}

// Sends what a shard has to send and charges the answers. Each out is copied once, to its place among the outs of the turn.
fn send_outs<P: Plant>(
    shard: &mut Shard,
    plant: &mut P,
    outs: &mut Batch<OutRecord>,
    drops: &mut Drops,
    tally: &mut Book,
) -> Batch<Entry>
    requires turns { Turns shard.old }
    requires low { RowsAreLow (2 ^ 62 + 2 ^ 61) shard.old.rows }
    requires light { IsLight (4160 * 1024) shard.old.outs }
    requires room { length outs.old.items + length shard.old.outs ≤ outs.old.room }
    requires few { length shard.old.outs ≤ 2 ^ 32 }
    requires drops { Within (2 ^ 62 + 2 ^ 61) drops.old }
    requires covered { Covers tally.old shard.old.outs }
    ensures sends { Sends shard.old shard.new (P.told plant.old) (P.told plant.new) outs.old.items outs.new.items result.items drops.old drops.new tally.old tally.new }
    ensures capacity { outs.new.room ≡ outs.old.room }
{
    let (journal, mut to_send) = shard.drain();
    if to_send.len() == 0 {
        return journal;
    }
    for out in to_send.as_slice() {
        let sent = send(plant, out.role, out.to, out.frame.as_slice());
        outs.push_sent(out, sent);
        let charged = shard.charge(last_of(outs));
        count_failed(drops, charged, sent);
        take_back(tally, charged, sent);
    }
    to_send.clear();
    shard.keep_outs(to_send);
    journal
}

/// Sends what the shards have to send, in their order, and charges the answers.
pub(crate) fn send_all<P: Plant>(
    shards: &mut [Shard],
    plant: &mut P,
    outs: &mut Batch<OutRecord>,
    journals: &mut Vec<Listed<Entry>>,
    drops: &mut Drops,
    tally: &mut Book,
)
    requires turning { AllTurn shards.old }
    requires low { All (λ v. RowsAreLow (2 ^ 62 + 2 ^ 61) v.rows) shards.old }
    requires light { All (λ v. IsLight (4160 * 1024) v.outs) shards.old }
    requires outs { outs.old.items ≡ [] }
    requires journals { journals.old.items ≡ [] }
    requires outs_room { sum_by (λ v. length v.outs) shards.old ≤ outs.old.room }
    requires journals_room { length shards.old ≤ vec_capacity journals.old }
    requires drops { Within (2 ^ 62) drops.old }
    requires few { sum_by (λ v. length v.outs) shards.old ≤ 2 ^ 32 }
    requires covered { (q : Quantity) (input : Bool) → sum_by (λ v. passed_sum (charge_if q (is_directed input)) v.outs) shards.old ≤ in_book q input tally.old }
    ensures sends { SendsAll shards.old shards.new (P.told plant.old) (P.told plant.new) outs.new.items journals.new.items drops.old drops.new tally.old tally.new }
    ensures tally { (most : ℕ) → IsLow most tally.old → IsLow most tally.new }
    ensures within { (most : ℕ) → Within most drops.old → Within (most + sum_by (λ v. length v.outs) shards.old) drops.new }
{
    for shard in shards.iter_mut() {
        let journal = send_outs(shard, plant, outs, drops, tally);
        journals.push_reserved(Listed::of_batch(journal));
    }
}
