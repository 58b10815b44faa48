//! The lists of a shard's rounds: the room on them, and whose memory they have.
ghost use Rattle.std.specs.Prelude.{◌≡◌, ◌≤◌, ◌<◌, ◌+◌, ◌*◌, ◌^◌, [], true};

use bng_base::{Batch, Entry, OutRecord};
use std::alloc::Global;
use std::mem;

/// How many outs an item has at most, a Tick and an End aside.
const OUTS: usize = 10;
/// How many a Tick and an End have in all, and the last session of a Tick might have beside them.
const TIMED_OUTS: usize = 645;

/// For how many items a round makes room at first: as many as a turn of the desk has at most, so that no later round makes the lists
/// anew. Of the room only what is used is touched.
const ITEMS_AT_FIRST: usize = 736;

// Makes room for a round of so many items in lists that are empty, and says whether there is.
fn reserve(journal: &mut Batch<Entry>, outs: &mut Batch<OutRecord>, items: usize) -> bool
    requires few { items < 2 ^ 16 }
    requires none { (journal.old.items ≡ []) × (outs.old.items ≡ []) }
    ensures none_still { (journal.new.items ≡ []) × (outs.new.items ≡ []) }
    ensures journal { result ≡ true → items ≤ journal.new.room }
    ensures outs { result ≡ true → 10 * items + 645 ≤ outs.new.room }
{
    if journal.reserve(items).is_err() {
        return false;
    }
    outs.reserve(OUTS * items + TIMED_OUTS).is_ok()
}

/// Makes room for a round of so many items in lists that are empty, and for a full round where there is memory for that. Says whether there is
/// room for these.
pub(crate) fn reserve_amply(
    journal: &mut Batch<Entry>,
    outs: &mut Batch<OutRecord>,
    items: usize,
) -> bool
    requires few { items < 2 ^ 16 }
    requires none { (journal.old.items ≡ []) × (outs.old.items ≡ []) }
    ensures none_still { (journal.new.items ≡ []) × (outs.new.items ≡ []) }
    ensures journal { result ≡ true → items ≤ journal.new.room }
    ensures outs { result ≡ true → 10 * items + 645 ≤ outs.new.room }
{
    if items < ITEMS_AT_FIRST && reserve(journal, outs, ITEMS_AT_FIRST) {
        return true;
    }
    reserve(journal, outs, items)
}

/// Hands out what is on a list. Its memory goes along, but stays where nothing was on it.
pub(crate) fn handed_out<T: Drop>(list: &mut Batch<T>, alloc: Global) -> Batch<T>
    ensures items { result.items ≡ list.old.items }
    ensures none { list.new.items ≡ [] }
{
    if list.len() == 0 {
        return Batch::new(alloc);
    }
    mem::replace(list, Batch::new(alloc))
}

/// Whether a journal was handed out with its memory, after one more.
pub(crate) fn is_lent(lent: bool, journal: &Batch<Entry>) -> bool {
    lent || journal.len() > 0
}
