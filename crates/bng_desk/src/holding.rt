//! A round of given items: opened and settled, or refused for want of memory.
ghost use Rattle.std.specs.Prelude.{◌≡◌, ◌+◌, ◌≤◌, ◌++◌, ◌∷◌, [], true, false, length, replicate, vec_capacity};
ghost use Rattle.bng_base.specs.Causes.{HasCause};
ghost use Rattle.bng_base.specs.Told.{Grows};
ghost use Rattle.bng_desk.specs.Holding.{IsPrepared};
ghost use Rattle.bng_desk.specs.Items.{stays, kept_of, is_from_outside};
ghost use Rattle.bng_desk.specs.Round.{refused_of};
ghost use Rattle.bng_desk.specs.Settlement.{IsReady, KeepsWorks};
ghost use Rattle.bng_desk.specs.Taking.{RoundHeld, Holds};
ghost use Rattle.bng_desk.specs.Turn.{told_if};

use crate::allowing::note as note_allowances;
use crate::drops::count_refused;
use crate::lists::Lists;
use crate::round::{deal_all, prepare_all, send_all};
use crate::settlement::Works;
use crate::starts::begin_all;
use crate::stops::reap_all;
use bng_base::{Batch, Item, ItemKind, Listed, RoundRecord};
use bng_plant::{Noted, Plant, Trace};
use bng_steps::Rules;
use std::alloc::Global;
use std::mem;

/// What names a round: its number, its moment in milliseconds and its second on the wall.
#[derive(Clone, Copy)]
pub(crate) struct Named {
    pub(crate) number: u64,
    pub(crate) moment: u64,
    pub(crate) wall: u64,
}

// What the trace is told of a round, from its lists. Its items are those that were refused.
fn recorded(named: Named, lists: Lists) -> RoundRecord
    ensures { result ≡ record { number = named.number; moment = named.moment; wall = named.wall; allowances = lists.allowances.items; journals = lists.journals.items; loose = lists.loose.items; outs = lists.outs.items; refused = lists.items.items } }
{
    let Lists {
        items,
        loose,
        allowances,
        journals,
        outs,
        repeats: _,
    } = lists;
    RoundRecord {
        number: named.number,
        moment: named.moment,
        wall: named.wall,
        allowances: Listed::of(allowances),
        journals: Listed::of(journals),
        loose: Listed::of(loose),
        outs: Listed::of_batch(outs),
        refused: Listed::of_batch(items),
    }
}

// Deals the items to the shards, which were made ready for them, and settles.
pub(crate) fn opened<P: Plant>(
    rules: &Rules,
    works: &mut Works,
    plant: &mut P,
    named: Named,
    mut lists: Lists,
) -> RoundRecord
    requires ready { IsReady rules.now named lists works.old }
    requires prepared { IsPrepared (length lists.items.items) works.old }
    ensures round { RoundHeld rules.now works.old.pool works.new.pool works.old.accounts works.new.accounts named lists.items.items (P.told plant.old) (P.told plant.new) works.old.shards.items works.new.shards.items works.old.drops works.new.drops works.old.tally works.new.tally result }
    ensures keeps { KeepsWorks named.moment works.old works.new }
    ensures rest { works.new ≡ record works.old { shards = works.new.shards; pool = works.new.pool; accounts = works.new.accounts; tally = works.new.tally; drops = works.new.drops } }
{
    let shards = works.shards.as_mut_slice();
    deal_all(
        rules,
        shards,
        &mut works.pool,
        named.moment,
        &mut lists,
        &mut works.drops,
        &mut works.tally,
    );
    send_all(
        shards,
        plant,
        &mut lists.outs,
        &mut lists.journals,
        &mut works.drops,
        &mut works.tally,
    );
    reap_all(
        shards,
        &mut works.pool,
        &mut works.accounts,
        named.moment,
        named.wall,
    );
    begin_all(shards, &mut works.accounts, named.moment, named.wall);
    works.accounts.report_all(shards, named.moment, named.wall);
    note_allowances(shards, &mut lists.allowances);
    // The emptied batch goes back with the record, so that its places serve the next turn.
    lists.items.clear();
    recorded(named, lists)
}

// The record of a round that was not opened, with the items of the outside that it refused.
pub(crate) fn refused(
    alloc: Global,
    shards: usize,
    named: Named,
    lists: Lists,
    refused: Vec<Item>,
) -> RoundRecord
    requires loose { lists.loose.items ≡ [] }
    requires journals { (lists.journals.items ≡ []) × (shards ≤ vec_capacity lists.journals) }
    requires outs { lists.outs.items ≡ [] }
    requires allowances { lists.allowances.items ≡ replicate shards 0 }
    ensures { result ≡ record { number = named.number; moment = named.moment; wall = named.wall; allowances = replicate shards 0; journals = replicate shards []; loose = []; outs = []; refused = refused.items } }
{
    let Lists {
        items: _,
        loose,
        allowances,
        mut journals,
        outs,
        repeats,
    } = lists;
    for _shard in 0..shards {
        journals.push_reserved(Listed::of(Vec::new(alloc)));
    }
    recorded(
        named,
        Lists {
            items: Batch::of(refused),
            loose,
            allowances,
            journals,
            outs,
            repeats,
        },
    )
}

// Whether an item of this kind stands first in the next round where its own could not be opened.
fn stays(kind: ItemKind) -> bool
    ensures { result ≡ stays kind }
{
    match kind {
        ItemKind::Verdict | ItemKind::Change | ItemKind::End => true,
        ItemKind::Access(_) | ItemKind::Core | ItemKind::Tunnel | ItemKind::Tick => false,
    }
}

fn is_from_outside(kind: ItemKind) -> bool
    ensures { result ≡ is_from_outside kind }
{
    match kind {
        ItemKind::Access(_) | ItemKind::Core | ItemKind::Tunnel => true,
        ItemKind::Verdict | ItemKind::Change | ItemKind::Tick | ItemKind::End => false,
    }
}

// Moves an item to the end of `kept`, if it stays.
fn keep_one(item: &mut Item, kept: &mut Vec<Item>)
    requires room { length kept.old.items + length (kept_of (item.old ∷ [])) ≤ vec_capacity kept.old }
    ensures kept { kept.new.items ≡ kept.old.items ++ kept_of (item.old ∷ []) }
    ensures capacity { vec_capacity kept.new ≡ vec_capacity kept.old }
    ensures others { refused_of (item.new ∷ []) ≡ refused_of (item.old ∷ []) }
{
    if stays(item.kind) {
        kept.push_reserved(mem::replace(item, Item::blank()));
    }
}

// Moves the items that stay to the end of `kept`, and answers those of the outside. It takes no memory.
fn part(mut items: Vec<Item>, kept: &mut Vec<Item>) -> Vec<Item>
    requires room { length kept.old.items + length (kept_of items.items) ≤ vec_capacity kept.old }
    ensures refused { result.items ≡ refused_of items.items }
    ensures kept { kept.new.items ≡ kept.old.items ++ kept_of items.items }
    ensures capacity { vec_capacity kept.new ≡ vec_capacity kept.old }
{
    for item in items.iter_mut() {
        keep_one(item, kept);
    }
    items.retain(|item| is_from_outside(item.kind));
    items
}

/// A round as it came out: its record, and whether it was opened.
#[derive(Drop)]
pub(crate) struct HeldRound {
    pub(crate) record: RoundRecord,
    pub(crate) is_opened: bool,
}

/// Holds a round of these items; or, for want of memory, refuses those of the outside, and keeps the requests for
/// changes, the verdicts and the Ends for the next turn.
pub(crate) fn hold<P: Plant>(
    alloc: Global,
    rules: &Rules,
    works: &mut Works,
    plant: &mut P,
    named: Named,
    mut lists: Lists,
) -> HeldRound
    requires ready { IsReady rules.now named lists works.old }
    ensures round { Holds rules.now works.old.pool works.new.pool works.old.accounts works.new.accounts named lists.items.items (P.told plant.old) (P.told plant.new) works.old.shards.items works.new.shards.items works.old.drops works.new.drops works.old.tally works.new.tally result.record result.is_opened works.new.kept.items }
    ensures keeps { KeepsWorks named.moment works.old works.new }
    ensures rest { works.new ≡ record works.old { shards = works.new.shards; pool = works.new.pool; accounts = works.new.accounts; tally = works.new.tally; drops = works.new.drops; kept = works.new.kept; spare = works.new.spare } }
{
    let count = lists.items.len() as u16;
    let free = works.accounts.free();
    let shards = works.shards.as_mut_slice();
    if prepare_all(shards, alloc, count, free, &mut works.spare) {
        return HeldRound {
            record: opened(rules, works, plant, named, lists),
            is_opened: true,
        };
    }
    let items = mem::replace(&mut lists.items, Batch::new(alloc));
    let outside = part(items.into_vec(), &mut works.kept);
    count_refused(&mut works.drops, outside.len());
    HeldRound {
        record: refused(alloc, works.shards.len(), named, lists, outside),
        is_opened: false,
    }
}

/// Tells the trace a round, and says whether it took it.
pub(crate) fn note<T: Trace>(trace: &mut T, round: &RoundRecord) -> bool
    ensures rounds { Grows (T.told trace.old).rounds (T.told trace.new).rounds (told_if result round.now) }
    ensures cause { HasCause (T.told trace.old).faults (T.told trace.new).faults (result ≡ false) }
    ensures uncounted { result ≡ true → (T.told trace.new).faults ≡ (T.told trace.old).faults }
{
    match trace.note(round) {
        Noted::Ok => true,
        Noted::Failed => false,
    }
}
