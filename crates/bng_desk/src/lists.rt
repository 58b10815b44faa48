//! The lists of a turn.
ghost use Rattle.std.specs.Prelude.{◌≡◌, ◌≤◌, ◌+◌, ◌*◌, ◌++◌, [], length, vec_capacity, replicate, IfOk};

use crate::coa::{REQUESTS_MOST, Repeated};
use bng_base::{Batch, Entry, Item, Listed, Loose, OutRecord, RoundRecord};
use std::alloc::{AllocError, Global};
use std::mem;

/// The most items that the lists have room for. At most 896 come: 32 requests for changes, 128 verdicts, 672 datagrams, and one Tick or
/// End for each of 64 shards.
pub(crate) const ITEMS_MOST: usize = 1024;

/// The most outs that requests, verdicts and items of the outside have, all together.
const TAKEN_OUTS_MOST: usize = 8320;

/// The most outs of a Tick or an End.
const SHARD_OUTS_MOST: usize = 320;

/// The most lists of journals that are kept for later rounds: one for each of 64 shards.
const SPARE_MOST: usize = 64;

/// The lists of a turn, with room for all that it may put on them. A desk keeps them from turn to turn.
#[derive(Drop)]
pub(crate) struct Lists {
    pub(crate) items: Batch<Item>,
    pub(crate) loose: Vec<Loose>,
    pub(crate) allowances: Vec<u32>,
    pub(crate) journals: Vec<Listed<Entry>>,
    pub(crate) outs: Batch<OutRecord>,
    pub(crate) repeats: Vec<Repeated>,
}

// An empty list with room for so many, of one that was used before.
fn roomy<T: Drop>(mut list: Vec<T>, room: usize) -> Result<Vec<T>, AllocError>
    ensures { IfOk result (λ l. (l.items ≡ []) × (room ≤ vec_capacity l)) }
{
    list.clear();
    match list.reserve(room) {
        Ok(()) => Ok(list),
        Err(_) => Err(AllocError),
    }
}

// An empty batch with places for so many, of one that was used before.
fn cleared<T: Drop>(mut batch: Batch<T>, room: usize) -> Result<Batch<T>, AllocError>
    ensures { IfOk result (λ b. (b.items ≡ []) × (room ≤ b.room)) }
{
    batch.clear();
    match batch.reserve(room) {
        Ok(()) => Ok(batch),
        Err(_) => Err(AllocError),
    }
}

/// Moves all items of a list to the end of a batch that has room for them. Both keep their memory.
pub(crate) fn move_all(from: &mut Vec<Item>, to: &mut Batch<Item>)
    requires room { length to.old.items + length from.old.items ≤ to.old.room }
    ensures moved { to.new.items ≡ to.old.items ++ from.old.items }
    ensures none { from.new.items ≡ [] }
    ensures from_room { vec_capacity from.new ≡ vec_capacity from.old }
    ensures to_room { to.new.room ≡ to.old.room }
{
    for item in from.as_slice() {
        to.push_copy(item);
    }
    from.clear();
}

// So many zeros, in the place of what was on a list.
fn zeros(mut list: Vec<u32>, count: usize) -> Result<Vec<u32>, AllocError>
    ensures { IfOk result (λ l. l.items ≡ replicate count 0) }
{
    list.clear();
    match list.resize(count, 0) {
        Ok(()) => Ok(list),
        Err(_) => Err(AllocError),
    }
}

// Keeps the list of a journal for a later round, if something stood on it, few are kept, and there is memory to keep it. One with nothing on
// it has no memory.
fn keep(spare: &mut Vec<Batch<Entry>>, journal: Batch<Entry>) {
    if journal.len() == 0 || SPARE_MOST <= spare.len() {
        return;
    }
    match spare.push(journal) {
        Ok(()) => {}
        Err(_) => {}
    }
}

// Keeps the lists of the journals, which are taken off.
fn keep_all(spare: &mut Vec<Batch<Entry>>, journals: &mut Vec<Listed<Entry>>) {
    for _shard in 0..journals.len() {
        if let Some(journal) = journals.pop() {
            keep(spare, journal.into_batch());
        }
    }
}

impl Lists {
    /// Lists with nothing on them and no room.
    pub(crate) fn new(alloc: Global) -> Lists {
        Lists {
            items: Batch::new(alloc),
            loose: Vec::new(alloc),
            allowances: Vec::new(alloc),
            journals: Vec::new(alloc),
            outs: Batch::new(alloc),
            repeats: Vec::new(alloc),
        }
    }

    /// Empty lists for a turn over so many shards, of those of the turn before. No term may begin in a round: each allowance is 0.
    pub(crate) fn take(&mut self, alloc: Global, shards: usize) -> Result<Lists, AllocError>
        requires { shards ≤ 64 }
        ensures items { IfOk result (λ l. (l.items.items ≡ []) × (1024 ≤ l.items.room)) }
        ensures loose { IfOk result (λ l. (l.loose.items ≡ []) × (1024 ≤ vec_capacity l.loose)) }
        ensures allowances { IfOk result (λ l. l.allowances.items ≡ replicate shards 0) }
        ensures journals { IfOk result (λ l. (l.journals.items ≡ []) × (shards ≤ vec_capacity l.journals)) }
        ensures outs { IfOk result (λ l. (l.outs.items ≡ []) × (8320 + 320 * shards ≤ l.outs.room)) }
        ensures repeats { IfOk result (λ l. (l.repeats.items ≡ []) × (32 ≤ vec_capacity l.repeats)) }
    {
        let Lists {
            items,
            loose,
            allowances,
            journals,
            outs,
            repeats,
        } = mem::replace(self, Lists::new(alloc));
        let items = cleared(items, ITEMS_MOST)?;
        let loose = roomy(loose, ITEMS_MOST)?;
        let allowances = zeros(allowances, shards)?;
        let journals = roomy(journals, shards)?;
        let outs = cleared(outs, TAKEN_OUTS_MOST + SHARD_OUTS_MOST * shards)?;
        let repeats = roomy(repeats, REQUESTS_MOST)?;
        Ok(Lists {
            items,
            loose,
            allowances,
            journals,
            outs,
            repeats,
        })
    }

    /// The lists of a round that was told, for the next turn. Those of its journals go to `spare`; where it was not opened they have no
    /// memory, and are let go. The list of the replies that were sent again goes along.
    pub(crate) fn of_round(
        round: RoundRecord,
        is_opened: bool,
        spare: &mut Vec<Batch<Entry>>,
        repeats: Vec<Repeated>,
    ) -> Lists {
        let RoundRecord {
            number: _,
            moment: _,
            wall: _,
            allowances,
            journals,
            loose,
            outs,
            refused,
        } = round;
        let mut journals = journals.into_vec();
        if is_opened {
            keep_all(spare, &mut journals);
        }
        Lists {
            items: refused.into_batch(),
            loose: loose.into_vec(),
            allowances: allowances.into_vec(),
            journals,
            outs: outs.into_batch(),
            repeats,
        }
    }
}
