//! The settlement of a turn: its round, the requests to the RADIUS server, and what the trace is told.
ghost use Rattle.std.specs.Prelude.{◌≡◌};
ghost use Rattle.bng_desk.specs.Coa.{replies_in};
ghost use Rattle.bng_desk.specs.Settlement.{IsReady, KeepsWorks, Settles};

use crate::accounts::Accounts;
use crate::drops::Drops;
use crate::holding::{HeldRound, Named, hold, note};
use crate::lists::Lists;
use crate::random::Draws;
use crate::replies::send_replies;
use crate::requests::send_requests;
use bng_base::{Batch, Book, Entry, Frame, Item};
use bng_coa::CoaDesk;
use bng_lane::Questions;
use bng_plant::{Plant, Trace};
use bng_pool::PlainPool;
use bng_shard::Shard;
use bng_steps::{Handed, Rules};
use std::alloc::Global;
use std::mem;

/// What the turns of a desk work on. The lists of its turns are kept from one to the next: `lists`, and in `spare` those of the shards'
/// journals. `kept` has room for all that may stay of a round, so that a round that could not be opened for want of memory takes none.
/// Into `frame` a turn receives, and in it the replies to requests for changes are formed; it is kept so that no turn blanks one.
pub(crate) struct Works {
    pub(crate) shards: Vec<Shard>,
    pub(crate) pool: PlainPool,
    pub(crate) accounts: Accounts,
    pub(crate) tally: Book,
    pub(crate) draws: Draws,
    pub(crate) drops: Drops,
    pub(crate) lane: Questions,
    pub(crate) handed: Vec<Handed>,
    pub(crate) coa: CoaDesk,
    pub(crate) kept: Vec<Item>,
    pub(crate) lists: Lists,
    pub(crate) spare: Vec<Batch<Entry>>,
    pub(crate) frame: Frame,
}

impl Drop for Works {
    fn drop(self) {
        let Works {
            shards: _,
            pool: _,
            accounts: _,
            tally: _,
            draws: _,
            drops: _,
            lane: _,
            handed: _,
            coa: _,
            kept: _,
            lists: _,
            spare: _,
            frame: _,
        } = self;
    }
}

/// What came of a settlement: whether the trace took its round, and whether that was opened.
#[derive(Clone, Copy)]
pub(crate) struct Settled {
    pub(crate) noted: bool,
    pub(crate) is_opened: bool,
}

/// Holds a round of the items on the lists, sends the replies to requests for changes, the requests that are due again and those of the
/// questions and of the records that wait, and tells the trace the round. The lists are kept for the next turn.
pub(crate) fn settle<P: Plant, T: Trace>(
    alloc: Global,
    rules: &Rules,
    works: &mut Works,
    plant: &mut P,
    trace: &mut T,
    named: Named,
    mut lists: Lists,
) -> Settled
    requires ready { IsReady rules.now named lists works.old }
    ensures settles { Settles rules.now named (replies_in lists.repeats.items) lists.items.items works.old works.new (P.told plant.old) (P.told plant.new) (T.told trace.old) (T.told trace.new) result }
    ensures keeps { KeepsWorks named.moment works.old works.new }
{
    let repeats = mem::replace(&mut lists.repeats, Vec::new(alloc));
    let HeldRound { record, is_opened } = hold(alloc, rules, works, plant, named, lists);
    send_replies(
        plant,
        rules,
        repeats.as_slice(),
        record.loose.as_slice(),
        works.shards.as_mut_slice(),
        &mut works.coa,
        &mut works.frame,
    );
    send_requests(
        plant,
        &mut works.lane,
        works.shards.as_slice(),
        works.handed.as_mut_slice(),
        &mut works.draws,
        named.moment,
    );
    works.accounts.send(plant, named.moment);
    let noted = note(trace, &record);
    works.lists = Lists::of_round(record, is_opened, &mut works.spare, repeats);
    Settled { noted, is_opened }
}
