ghost use Rattle.std.specs.Prelude.{◌≡◌, ◌+◌, ◌≤◌, ◌<◌, ◌^◌, ◌++◌, ◌||◌, ◌&&◌, ◌==◌, [], true, not, nat_le, if◌then◌else◌, length, map, vec_capacity, IfOk, OnOk, OnErr};
ghost use Rattle.std.specs.List.{All};
ghost use Rattle.bng_acct.specs.Spool.{unacked_stops};
ghost use Rattle.bng_base.specs.declared.settings.NamedRange.{NamedRange};
ghost use Rattle.bng_config.specs.Rules.{KeepsRules};
ghost use Rattle.bng_pool.specs.Ranges.{ArePoolRanges, HasAddress};
ghost use Rattle.bng_desk.specs.Model.{state_of, all_carried, by_profile, live_terms, sessions_in, sums_of, total_of, traffic_by, HasOneRule, grace_most, graces_most};
ghost use Rattle.bng_desk.specs.Opening.{IsOpened};
ghost use Rattle.bng_desk.specs.Report.{report_text, stop_lines};

use crate::drops::NO_DROPS;
use crate::flags::either;
use crate::lists::Lists;
use crate::opening;
use crate::random::Draws;
use crate::report::{octets_of, report};
use crate::settlement::Works;
use crate::sums::{Sums, all_carried, begun_in, live, plus_book, sessions_in};
use bng_base::{Book, Frame, Item, Listed};
use bng_config::Config;
use bng_shard::Shard;
use bng_steps::Rules;
use std::alloc::Global;
use std::marker::Model;
use std::mem;

/// So many turns of the ending in a row that open no round are the end.
const UNOPENED_MOST: u64 = 1_000_000;

/// So many milliseconds after the last round of Ends the grace is over.
pub(crate) const GRACE_MOST: u64 = 30_000;

/// So many turns of the grace are its end.
const GRACES_MOST: u64 = 1_000_000;

/// The most items that stay of a round: 32 requests for changes, 128 verdicts, and an End for each of 64 shards.
const KEPT_MOST: usize = 224;

/// What a desk was not opened or did not report for.
#[derive(Clone, Copy)]
pub enum DeskError {
    OutOfMemory,
}

/// Where a desk stands. While it serves, a turn reads what came. In `Ending` a turn is one round in which sessions end, until none
/// is left. In `Grace` a turn hears the server of accounting, until it has acknowledged each Stop, or for 30 seconds. `Starved` is the
/// end where no round could be opened.
#[derive(Clone, Copy)]
pub enum DeskState {
    Serving,
    Ending,
    Grace,
    Ended,
    Starved,
}

/// What a turn answers. `TraceFault` comes where the trace did not take the round, which is settled all the same. `WantOfMemory` comes
/// before any call on the outside.
#[derive(Clone, Copy)]
pub enum Turned {
    Ok,
    TraceFault,
    WantOfMemory,
}

/// The desk. Contracts see what it serves, its shards, the questions and the records that are out, and what it counts.
pub struct Desk {
    pub(crate) rules: Rules,
    rounds: u64,
    pub(crate) turns: u64,
    pub(crate) stopped: bool,
    pub(crate) works: Works,
    pub(crate) moment: u64,
    pub(crate) told: u64,
    pub(crate) endings: u64,
    pub(crate) unopened: u64,
    pub(crate) closed: bool,
    pub(crate) closing: u64,
    pub(crate) graces: u64,
}

impl Drop for Desk {
    fn drop(self) {
        let Desk {
            rules: _,
            rounds: _,
            turns: _,
            stopped: _,
            works: _,
            moment: _,
            told: _,
            endings: _,
            unopened: _,
            closed: _,
            closing: _,
            graces: _,
        } = self;
    }
}

impl Model for Desk {
    ghost use Rattle.bng_desk.specs.Model.{Desk as Seen};
    ghost use Rattle.std.specs.Prelude.{◌≤◌, map, [], ◌∷◌, vec_capacity};
    ghost use Rattle.std.specs.Coded.{codes};
    ghost use Rattle.bng_steps.specs.Codes.{state_code};
    ghost use Rattle.bng_desk.specs.Kept.{IsKept, rested};

    ghost Value = { Seen };

    ghost coded = { Prim.hlevel (codes, state_code) };

    ghost view = { λ d. record { rules = d.rules; lines = d.works.accounts.lines; stopped_book = d.works.accounts.stopped.carried; stops = d.works.accounts.stopped.stops; rounds = d.rounds; turns = d.turns; stopped = d.stopped; shards = map rested d.works.shards.items; pool = d.works.pool; tallies = d.works.tally ∷ []; seed = d.works.draws.seed; drawn = d.works.draws.drawn; drops = d.works.drops; moment = d.moment; told = d.told; lane = d.works.lane; handed = d.works.handed.items; billing = d.works.accounts.billing; reports = d.works.accounts.reports; coa = d.works.coa; endings = d.endings; unopened = d.unopened; closed = d.closed; closing = d.closing; graces = d.graces; kept = d.works.kept.items } };

    ghost invariant = { λ d. IsKept (record { rules = d.rules; lines = d.works.accounts.lines; stopped_book = d.works.accounts.stopped.carried; stops = d.works.accounts.stopped.stops; rounds = d.rounds; turns = d.turns; stopped = d.stopped; shards = d.works.shards.items; pool = d.works.pool; tallies = d.works.tally ∷ []; seed = d.works.draws.seed; drawn = d.works.draws.drawn; drops = d.works.drops; moment = d.moment; told = d.told; lane = d.works.lane; handed = d.works.handed.items; billing = d.works.accounts.billing; reports = d.works.accounts.reports; coa = d.works.coa; endings = d.endings; unopened = d.unopened; closed = d.closed; closing = d.closing; graces = d.graces; kept = d.works.kept.items }) × (224 ≤ vec_capacity d.works.kept) };
}

// An empty list with room for all items that may stay of a round.
fn room_to_keep(alloc: Global) -> Result<Vec<Item>, DeskError>
    ensures { IfOk result (λ kept. (kept.items ≡ []) × (224 ≤ vec_capacity kept)) }
{
    match Vec::with_capacity(alloc, KEPT_MOST) {
        Ok(kept) => Ok(kept),
        Err(_) => Err(DeskError::OutOfMemory),
    }
}

// Whether the grace is over: each Stop was acknowledged, or so much time went by since the last round of Ends, or so many turns were made.
fn is_grace_over(acknowledged: bool, closing: u64, moment: u64, graces: u64) -> bool
    requires { closing ≤ moment }
    ensures { result ≡ (acknowledged || (nat_le (closing + grace_most) moment || nat_le graces_most graces)) }
{
    acknowledged || GRACE_MOST <= moment - closing || GRACES_MOST <= graces
}

// Whether a round of Ends was made and no session is left. The sessions are counted only where one was made.
fn has_ended(closed: bool, shards: &[Shard]) -> bool
    requires few { length shards.now ≤ 64 }
    ensures { result ≡ (closed && (sessions_in shards.now == 0)) }
{
    closed && sessions_in(shards) == 0
}

// Where a desk stands.
fn stands(over: bool, ended: bool, done: bool, starved: bool) -> DeskState
    ensures { result ≡ (if not over then DeskState.Serving else (if ended then (if done then DeskState.Ended else DeskState.Grace) else (if starved then DeskState.Starved else DeskState.Ending))) }
{
    if !over {
        DeskState::Serving
    } else if ended && done {
        DeskState::Ended
    } else if ended {
        DeskState::Grace
    } else if starved {
        DeskState::Starved
    } else {
        DeskState::Ending
    }
}

impl Desk {
    /// A desk that serves this configuration for so many turns at most, 1 to 2^40. `now` is the moment of the opening in milliseconds,
    /// below 2^60, and `wall` its second on the wall. Of `seed` all random octets are drawn, the key of the cookies first.
    pub fn open(
        alloc: Global,
        mut config: Config,
        rounds: u64,
        seed: [u8; 32],
        now: u64,
        wall: u64,
    ) -> Result<Desk, DeskError>
        requires some { 1 ≤ rounds }
        requires most { rounds ≤ 2 ^ 40 }
        requires moment { now < 2 ^ 60 }
        requires rules { KeepsRules config }
        requires pools { ArePoolRanges (map (λ (p : NamedRange). p.range) config.pools) }
        requires within { All (λ c. HasAddress (map (λ (p : NamedRange). p.range) config.pools) c.address.0) config.statics }
        ensures { IfOk result (λ d. IsOpened config rounds seed now wall d) }
    {
        let mut draws = Draws::of(seed);
        let key = draws.sixteen();
        let access = config.access.as_slice();
        let offers = opening::offers(alloc, access, key, &config.name, &config.services)?;
        let lines = opening::lines(alloc, config.statics.as_slice())?;
        let billing = opening::billing_rules(&config, wall);
        let lane = opening::lane(alloc, &config)?;
        let pool = opening::pool(alloc, &config)?;
        let (handed, reports) = opening::notes(alloc, config.shards)?;
        let kept = room_to_keep(alloc)?;
        let coa = opening::coa(alloc, &config.coa)?;
        let rules = opening::rules(alloc, &config, offers, wall)?;
        let circuits = mem::replace(&mut config.statics, Listed::of(Vec::new(alloc)));
        let opens = opening::shards(alloc, &rules, circuits.into_vec(), now)?;
        let accounts = opening::accounts(alloc, billing, lines, reports, opens.as_slice(), now)?;
        Ok(Desk {
            rules,
            rounds,
            turns: 0,
            stopped: false,
            works: Works {
                shards: opens,
                pool,
                accounts,
                tally: Book::empty(),
                draws,
                drops: NO_DROPS,
                lane,
                handed,
                coa,
                kept,
                lists: Lists::new(alloc),
                spare: Vec::new(alloc),
                frame: Frame::new(),
            },
            moment: now,
            told: 0,
            endings: 0,
            unopened: 0,
            closed: false,
            closing: now,
            graces: 0,
        })
    }

    /// Whether the desk serves, or where it stands in ending. However it stands, each shard works by the desk's rules, and fewer than
    /// 2^37 turns of the ending were made, and at most 1,000,000 of the grace.
    pub fn state(&self) -> DeskState
        ensures stands { result ≡ state_of self.now }
        ensures rules { HasOneRule self.now }
        ensures few { self.now.endings < 2 ^ 37 }
        ensures few_graces { self.now.graces ≤ graces_most }
    {
        let over = either(self.stopped, self.turns == self.rounds);
        let ended = has_ended(self.closed, self.works.shards.as_slice());
        let acknowledged = self.works.accounts.is_acknowledged();
        let done = is_grace_over(acknowledged, self.closing, self.moment, self.graces);
        stands(over, ended, done, UNOPENED_MOST <= self.unopened)
    }

    /// Ends serving, as a `stop` from Control does.
    pub fn stop(&mut self)
        ensures { self.new ≡ record self.old { stopped = true } }
    {
        self.stopped = true;
    }

    /// Appends the report: the octets in and out that the Stops say that were formed so far, those of the terms that have no Stop yet,
    /// and both together, which are those of all packets that were sent; those of each worker, of each profile and of each provisioned
    /// circuit; and the drops by cause.
    pub fn report(&self, alloc: Global, out: &mut Vec<u8>) -> Result<(), DeskError>
        ensures appended { OnOk result (out.new.items ≡ out.old.items ++ report_text (sums_of self.now).stopped (sums_of self.now).live (sums_of self.now).total (map traffic_by self.now.tallies) self.now.rules.profiles (by_profile self.now) self.now.lines (all_carried self.now) (sums_of self.now).drops) }
        ensures adds_up { (sums_of self.now).total ≡ total_of self.now.tallies }
        ensures kept { OnErr result (out.new.items ≡ out.old.items) }
    {
        let lines = self.works.accounts.lines();
        let shards = self.works.shards.as_slice();
        let Ok(traffic) = all_carried(alloc, shards, lines) else {
            return Err(DeskError::OutOfMemory);
        };
        let sums = self.sums();
        let workers = [octets_of(self.works.tally)];
        let profiles = self.rules.profiles.as_slice();
        let Ok(text) = report(
            alloc,
            &sums,
            &workers,
            profiles,
            shards,
            lines,
            traffic.as_slice(),
        ) else {
            return Err(DeskError::OutOfMemory);
        };
        match out.extend_from_slice(text.as_slice()) {
            Ok(()) => Ok(()),
            Err(_) => Err(DeskError::OutOfMemory),
        }
    }

    /// What the desk has counted since it was opened: what all terms carried, in octets and in packets of each direction; the terms that
    /// began; the Stops that were formed; and the items that were dropped. What the Stops say and what the other terms carried so far are
    /// together all packets that were sent; and each term that began has its Stop, or has none yet.
    pub fn sums(&self) -> Sums
        ensures sums { result ≡ sums_of self.now }
        ensures adds_up { result.total ≡ total_of self.now.tallies }
        ensures each_term { result.terms ≡ result.stops + live_terms self.now.shards }
    {
        let shards = self.works.shards.as_slice();
        let stopped = self.works.accounts.stopped();
        let live = live(shards);
        Sums {
            stopped: stopped.carried,
            live,
            total: plus_book(stopped.carried, live),
            terms: begun_in(shards),
            stops: stopped.stops,
            drops: self.works.drops.counts,
        }
    }

    /// Appends a line for each Stop that the server of accounting did not acknowledge, by session and term number, and answers their
    /// number.
    pub fn unanswered(&self, alloc: Global, out: &mut Vec<u8>) -> Result<u32, DeskError>
        ensures appended { IfOk result (λ n. (out.new.items ≡ out.old.items ++ stop_lines self.now.billing.spool.rules.wall (unacked_stops self.now.billing.spool)) × (n ≡ length (unacked_stops self.now.billing.spool))) }
        ensures kept { OnErr result (out.new.items ≡ out.old.items) }
    {
        let Ok(text) = self.works.accounts.unanswered(alloc) else {
            return Err(DeskError::OutOfMemory);
        };
        match out.extend_from_slice(text.as_slice()) {
            Ok(()) => Ok(self.works.accounts.unacked_stops()),
            Err(_) => Err(DeskError::OutOfMemory),
        }
    }
}
