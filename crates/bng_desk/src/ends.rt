//! The items of a round of the ending.
ghost use Rattle.std.specs.Prelude.{◌≡◌, ◌+◌, ◌≤◌, ◌<◌, ◌^◌, ◌++◌, [], length, vec_capacity, if◌then◌else◌};
ghost use Rattle.bng_desk.specs.Items.{ends_of, drawn_from};
ghost use Rattle.bng_desk.specs.Turn.{has_end};
ghost use Rattle.bng_shard.specs.Room.{is_end};

use crate::due::add_ends;
use crate::lists::move_all;
use crate::random::Draws;
use bng_base::{Batch, Item, ItemKind};

fn is_end(kind: ItemKind) -> bool
    ensures { result ≡ is_end kind }
{
    match kind {
        ItemKind::End => true,
        ItemKind::Access(_)
        | ItemKind::Core
        | ItemKind::Tunnel
        | ItemKind::Verdict
        | ItemKind::Change
        | ItemKind::Tick => false,
    }
}

// Whether an End is among these.
fn has_end(items: &[Item]) -> bool
    ensures { result ≡ has_end items.now }
{
    items.iter().any(|item| is_end(item.kind))
}

/// Puts the items of a round of the ending on `items`: those that stay of the round before, and an End for each of so many shards,
/// unless Ends are among them.
pub(crate) fn to_end(
    kept: &mut Vec<Item>,
    shards: usize,
    draws: &mut Draws,
    items: &mut Batch<Item>,
)
    requires few { shards ≤ 64 }
    requires empty { items.old.items ≡ [] }
    requires room { length kept.old.items + shards ≤ items.old.room }
    requires drawn { draws.old.drawn < 2 ^ 61 }
    ensures items { items.new.items ≡ (if has_end kept.old.items then kept.old.items else kept.old.items ++ drawn_from draws.old.seed draws.old.drawn (ends_of shards)) }
    ensures drawn { draws.new ≡ record draws.old { drawn = draws.old.drawn + (if has_end kept.old.items then 0 else shards) } }
    ensures none_kept { kept.new.items ≡ [] }
    ensures kept_room { vec_capacity kept.new ≡ vec_capacity kept.old }
{
    let are_there = has_end(kept.as_slice());
    move_all(kept, items);
    if !are_there {
        add_ends(shards, draws, items);
    }
}
