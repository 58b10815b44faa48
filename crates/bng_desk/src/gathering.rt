//! The items of a turn while serving.
ghost use Rattle.std.specs.Prelude.{◌≡◌, ◌≤◌, ◌<◌, ◌+◌, ◌*◌, ◌^◌, ◌&&◌, [], count_by, length, vec_capacity};
ghost use Rattle.std.specs.List.{All};
ghost use Rattle.bng_desk.specs.Coa.{has_places, replies_in};
ghost use Rattle.bng_desk.specs.Intake.{TakesAuth, TakesCoa, Gathers};
ghost use Rattle.bng_desk.specs.Items.{is_verdict_item, is_verdict_kind};
ghost use Rattle.bng_desk.specs.Kept.{AreFewAsked, IsAsked, StandsFirst};
ghost use Rattle.bng_desk.specs.Reading.{is_empty};
ghost use Rattle.bng_desk.specs.Taking.{AreInOrder, AreItems, outs_of_items};

use crate::answers::{VERDICTS_MOST, take_replies};
use crate::coa::{has_places, take_if as take_requests_if};
use crate::due::{add_ticks, add_timeouts};
use crate::flags::both;
use crate::holding::Named;
use crate::intake::take_data;
use crate::lists::{Lists, move_all};
use crate::random::Draws;
use crate::settlement::Works;
use bng_base::{Batch, Frame, Item, ItemKind};
use bng_lane::Questions;
use bng_plant::Plant;
use bng_steps::Rules;

fn is_none(items: &[Item]) -> bool
    ensures { result ≡ is_empty items.now }
{
    match items {
        [] => true,
        [_, ..] => false,
    }
}

// Takes the replies of the server, where it is read, and says whether none was taken.
fn take_if<P: Plant>(
    reads: bool,
    plant: &mut P,
    frame: &mut Frame,
    lane: &mut Questions,
    draws: &mut Draws,
    items: &mut Batch<Item>,
) -> bool
    requires room { length items.old.items + 128 ≤ items.old.room }
    requires drawn { draws.old.drawn < 2 ^ 61 }
    ensures takes { TakesAuth reads (P.told plant.old) (P.told plant.new) lane.old lane.new draws.old draws.new items.old.items items.new.items result }
    ensures capacity { items.new.room ≡ items.old.room }
{
    if reads {
        take_replies(plant, frame, lane, draws, items)
    } else {
        true
    }
}

fn is_verdict(kind: ItemKind) -> bool
    ensures { result ≡ is_verdict_kind kind }
{
    match kind {
        ItemKind::Verdict => true,
        ItemKind::Access(_)
        | ItemKind::Core
        | ItemKind::Tunnel
        | ItemKind::Change
        | ItemKind::Tick
        | ItemKind::End => false,
    }
}

// How many verdicts are among these.
fn verdicts_in(items: &[Item]) -> usize
    ensures { result ≡ count_by is_verdict_item items.now }
{
    items.iter().filter(|item| is_verdict(item.kind)).count()
}

/// What stands first among the items of a turn: whether Auth is read, which it is where nothing stays of the round before, how many
/// verdicts stay, and whether no datagram of Coa was taken.
#[derive(Clone, Copy)]
pub(crate) struct IntakeFront {
    pub(crate) reads: bool,
    pub(crate) verdicts: usize,
    pub(crate) quiet: bool,
}

/// Puts the items that stay of the round before on the lists, and where there is none the requests that came from Coa, if requests for
/// changes are served.
pub(crate) fn begin<P: Plant>(
    rules: &Rules,
    works: &mut Works,
    plant: &mut P,
    named: Named,
    lists: &mut Lists,
) -> IntakeFront
    requires empty { lists.old.items.items ≡ [] }
    requires none { lists.old.repeats.items ≡ [] }
    requires room { 1024 ≤ lists.old.items.room }
    requires places { 32 ≤ vec_capacity lists.old.repeats }
    requires drawn { works.old.draws.drawn < 2 ^ 58 }
    requires asked { All IsAsked works.old.kept.items }
    requires few_kept { AreFewAsked works.old.kept.items }
    requires kept { AreItems works.old.kept.items }
    ensures takes { TakesCoa (rules.now.serves_changes && (is_empty works.old.kept.items && has_places works.old.coa)) named.moment named.wall (P.told plant.old) (P.told plant.new) works.old.coa works.new.coa works.old.draws works.new.draws works.old.kept.items lists.new.items.items [] (replies_in lists.new.repeats.items) result.quiet }
    ensures reads { result.reads ≡ is_empty works.old.kept.items }
    ensures verdicts { result.verdicts ≡ count_by is_verdict_item works.old.kept.items }
    ensures first { StandsFirst result.reads result.verdicts lists.new.items.items }
    ensures few_drawn { works.new.draws.drawn ≤ works.old.draws.drawn + 32 }
    ensures room { 1024 ≤ lists.new.items.room }
    ensures none_kept { works.new.kept.items ≡ [] }
    ensures kept_room { vec_capacity works.new.kept ≡ vec_capacity works.old.kept }
    ensures rest { works.new ≡ record works.old { draws = works.new.draws; coa = works.new.coa; kept = works.new.kept; frame = works.new.frame } }
    ensures lists { lists.new ≡ record lists.old { items = lists.new.items; repeats = lists.new.repeats } }
{
    let reads = is_none(works.kept.as_slice());
    let verdicts = verdicts_in(works.kept.as_slice());
    move_all(&mut works.kept, &mut lists.items);
    let may_read = both(reads, has_places(&works.coa));
    let quiet = take_requests_if(
        both(rules.serves_changes, may_read),
        plant,
        &mut works.frame,
        &mut works.coa,
        named,
        &mut works.draws,
        lists,
    );
    IntakeFront {
        reads,
        verdicts,
        quiet,
    }
}

/// Behind what stands first on the list it takes what came from the RADIUS server, where that is read. Then it takes what came to the end
/// for tunnels, on the access ports and from the core, gives up the questions whose server was silent, as long as there are fewer than 128
/// verdicts, and adds a Tick for each shard that has a due deadline. Says whether nothing was taken.
pub(crate) fn gather<P: Plant>(
    rules: &Rules,
    works: &mut Works,
    plant: &mut P,
    now: u64,
    front: IntakeFront,
    items: &mut Batch<Item>,
) -> bool
    requires some { 1 ≤ length rules.now.access }
    requires few { length rules.now.access ≤ 16 }
    requires numbers { AreInOrder works.old.shards.items }
    requires few_shards { length works.old.shards.items ≤ 64 }
    requires room { 1024 ≤ items.old.room }
    requires drawn { works.old.draws.drawn < 2 ^ 59 }
    requires first { StandsFirst front.reads front.verdicts items.old.items }
    ensures gathers { Gathers rules.now works.old.shards.items now front.reads front.verdicts items.old.items (P.told plant.old) (P.told plant.new) works.old.lane works.new.lane works.old.draws works.new.draws items.new.items result }
    ensures items { AreItems items.new.items }
    ensures few_outs { outs_of_items items.new.items ≤ 8320 + 320 * length works.old.shards.items }
    ensures few_drawn { works.new.draws.drawn ≤ works.old.draws.drawn + 864 }
    ensures rest { works.new ≡ record works.old { draws = works.new.draws; lane = works.new.lane; frame = works.new.frame } }
{
    let before = items.len();
    let silent = take_if(
        front.reads,
        plant,
        &mut works.frame,
        &mut works.lane,
        &mut works.draws,
        items,
    );
    let verdicts = front.verdicts + (items.len() - before);
    let quiet = take_data(rules, plant, &mut works.frame, &mut works.draws, items);
    let most = VERDICTS_MOST - verdicts;
    add_timeouts(&mut works.lane, now, most, &mut works.draws, items);
    add_ticks(works.shards.as_slice(), now, &mut works.draws, items);
    both(silent, quiet)
}
