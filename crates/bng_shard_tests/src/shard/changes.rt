ghost use Rattle.std.specs.Prelude.{◌≡◌, ◌≤◌, [], IfOk};

use super::interims::assert_taken;
use super::settings::rules;
use super::terms::{assert_book, assert_down, assert_up, open_two};
use super::{Bench, NOTHING, assert_due, item};
use crate::asserts::{assert_holds, assert_same};
use bng_base::{Book, DropCause, Fate, Ip4, Item, ItemKind, Range, SessionNo, TermId};
use bng_coa::ChangeVerdict;
use bng_pool::PlainPool;
use bng_shard::whose_is;
use bng_steps::{Reports, Rules, Whose};
use std::alloc::Global;
use std::process::Abort;
use std::test::Fail;

mod requests;

use requests::{
    CASES, DISCONNECTS, DISCONNECTS_OTHER, IDLES, LASTS, LASTS_A_SECOND, NO_REQUEST, REFUSED,
    REPORTS, TO_BRONZE, TO_GOLD, WHOLE,
};

const NOT_OPEN: Fate = Fate::Dropped(DropCause::NotOpen);

// An item with these octets in hexadecimal digits, under this number.
fn change(rt: &impl Abort, alloc: Global, ask: u64, octets: &str) -> Result<Item, Fail>
    ensures { IfOk result (λ i. i.frame.headroom ≡ 64) }
{
    let octets = hex::decode(alloc, octets)?;
    assert_holds(rt, octets.len() <= 4096);
    let mut change = item(ItemKind::Change, octets.as_slice());
    change.ask = ask;
    Ok(change)
}

// A round of one request at this moment, under this number.
fn ask(
    rt: &impl Abort,
    alloc: Global,
    bench: &mut Bench,
    now: u32,
    number: u64,
    request: &str,
) -> Result<(), Fail> {
    let item = change(rt, alloc, number, request)?;
    let mut tally = NOTHING;
    let (fate, _outs) = bench.handled(rt, alloc, &mut tally, u64::from(now), item);
    assert_holds(rt, fate == Fate::Consumed);
    Ok(())
}

// The next answer.
fn told(bench: &mut Bench) -> Option<(u64, ChangeVerdict)> {
    bench.shard.changed()
}

// A request is answered so, and there is no other answer.
fn assert_answer(
    rt: &impl Abort,
    alloc: Global,
    bench: &mut Bench,
    now: u32,
    request: &str,
    verdict: ChangeVerdict,
) -> Result<(), Fail> {
    ask(rt, alloc, bench, now, 7, request)?;
    assert_same(rt, &told(bench), &Some((7, verdict)));
    assert_same(rt, &told(bench), &None);
    Ok(())
}

// A Tick at this moment.
fn tick(rt: &impl Abort, alloc: Global, bench: &mut Bench, now: u32) {
    let mut tally = NOTHING;
    let mut tick = item(ItemKind::Tick, &[]);
    tick.target = 1;
    let (_consumed, _outs) = bench.handled(rt, alloc, &mut tally, u64::from(now), tick);
}

// The session of the next term that leaves, and the cause of its end.
fn stopped(bench: &mut Bench) -> Option<(u16, u8)> {
    let ended = bench.reap()?;
    Some((ended.term.session.0, ended.cause))
}

// The next term that leaves is that of session 1025, and it ended by this cause.
fn assert_stop(rt: &impl Abort, bench: &mut Bench, cause: u8) {
    assert_same(rt, &stopped(bench), &Some((1025, cause)));
}

const APPLIED: ChangeVerdict = ChangeVerdict::Applied;

// No term is found.
const GONE: ChangeVerdict = ChangeVerdict::Refused(503);

const EXCEEDED: Fate = Fate::Dropped(DropCause::Exceeded);

// Two packets of the first circuit, one after the other, have these fates.
fn assert_ups(rt: &impl Abort, alloc: Global, bench: &mut Bench, fates: (Fate, Fate)) {
    assert_up(rt, alloc, bench, 0, fates.0);
    assert_up(rt, alloc, bench, 0, fates.1);
}

// A request that names its profile leaves the meters where they are.
fn stays_under_gold(rt: &impl Abort, alloc: Global, bench: &mut Bench) -> Result<(), Fail> {
    assert_up(rt, alloc, bench, 0, Fate::Forwarded);
    assert_answer(rt, alloc, bench, 0, TO_GOLD, APPLIED)?;
    assert_up(rt, alloc, bench, 0, EXCEEDED);
    Ok(())
}

// Packets pass without a meter, and by full ones once it comes under gold again.
fn changes_profiles(rt: &impl Abort, alloc: Global, bench: &mut Bench) -> Result<(), Fail> {
    assert_answer(rt, alloc, bench, 0, TO_BRONZE, APPLIED)?;
    assert_ups(rt, alloc, bench, (Fate::Forwarded, Fate::Forwarded));
    assert_answer(rt, alloc, bench, 0, TO_GOLD, APPLIED)?;
    assert_ups(rt, alloc, bench, (Fate::Forwarded, EXCEEDED));
    Ok(())
}

// Two packets of 28 octets.
const TWO_PACKETS: Book = Book {
    input: 56,
    output: 0,
    input_packets: 2,
    output_packets: 0,
};

// The term is metered by gold at first: 28 octets at once, and 84 a second. Under bronze nothing is metered. Its meters start full where
// it comes under gold again, and they stay where it is under gold already.
#[test]
fn a_change_of_profile_moves_books_and_starts_meters(rt: HostRuntime) -> Result<(), Fail> {
    let alloc = rt.alloc();
    let mut bench = open_two(&rt, alloc)?;
    stays_under_gold(&rt, alloc, &mut bench)?;
    changes_profiles(&rt, alloc, &mut bench)?;
    assert_book(&rt, &bench, 0, TWO_PACKETS);
    assert_book(&rt, &bench, 1, TWO_PACKETS);
    Ok(())
}

// A request ends the term, of which no packet passes any longer.
fn is_disconnected(rt: &impl Abort, alloc: Global, bench: &mut Bench) -> Result<(), Fail> {
    assert_answer(rt, alloc, bench, 5, DISCONNECTS, APPLIED)?;
    assert_up(rt, alloc, bench, 6, NOT_OPEN);
    assert_down(rt, alloc, bench, 6, NOT_OPEN);
    Ok(())
}

// A term that has ended is not found any longer.
fn is_not_found(rt: &impl Abort, alloc: Global, bench: &mut Bench) -> Result<(), Fail> {
    assert_answer(rt, alloc, bench, 6, DISCONNECTS, GONE)?;
    assert_answer(rt, alloc, bench, 6, TO_BRONZE, GONE)
}

#[test]
fn a_disconnect_ends_a_circuit_by_admin_reset(rt: HostRuntime) -> Result<(), Fail> {
    let alloc = rt.alloc();
    let mut bench = open_two(&rt, alloc)?;
    is_disconnected(&rt, alloc, &mut bench)?;
    is_not_found(&rt, alloc, &mut bench)?;
    assert_stop(&rt, &mut bench, 6);
    assert_holds(&rt, bench.reap().is_none());
    Ok(())
}

// Each is refused so.
fn are_refused(rt: &impl Abort, alloc: Global, bench: &mut Bench) -> Result<(), Fail> {
    for (cause, request) in REFUSED {
        let refused = ChangeVerdict::Refused(*cause);
        assert_answer(rt, alloc, bench, 0, *request, refused)?;
    }
    Ok(())
}

// Each is refused for the first cause that holds, and changes nothing.
#[test]
fn a_request_is_refused_for_the_first_cause_that_holds(rt: HostRuntime) -> Result<(), Fail> {
    let alloc = rt.alloc();
    let mut bench = open_two(&rt, alloc)?;
    are_refused(&rt, alloc, &mut bench)?;
    assert_holds(&rt, bench.reap().is_none());
    assert_answer(&rt, alloc, &mut bench, 0, WHOLE, APPLIED)
}

// Two requests to end one term, and between them what is no request.
fn ask_thrice(rt: &impl Abort, alloc: Global, bench: &mut Bench) -> Result<(), Fail> {
    ask(rt, alloc, bench, 0, 3, DISCONNECTS_OTHER)?;
    ask(rt, alloc, bench, 0, 9, NO_REQUEST)?;
    ask(rt, alloc, bench, 0, 1, DISCONNECTS_OTHER)
}

#[test]
fn answers_are_handed_out_in_the_order_of_the_journal(rt: HostRuntime) -> Result<(), Fail> {
    let alloc = rt.alloc();
    let mut bench = open_two(&rt, alloc)?;
    ask_thrice(&rt, alloc, &mut bench)?;
    assert_same(&rt, &told(&mut bench), &Some((3, APPLIED)));
    assert_same(&rt, &told(&mut bench), &Some((1, GONE)));
    assert_same(&rt, &told(&mut bench), &None);
    Ok(())
}

// The earliest deadline of the shard is this.
fn assert_waits(rt: &impl Abort, bench: &Bench, due: Option<u64>) {
    assert_due(rt, bench.shard.due(), due);
}

// A circuit has no timeout until a request sets one, and none once a request has set it to 0.
fn sets_and_resets(rt: &impl Abort, alloc: Global, bench: &mut Bench) -> Result<(), Fail> {
    assert_waits(rt, bench, None);
    assert_answer(rt, alloc, bench, 200, LASTS_A_SECOND, APPLIED)?;
    assert_waits(rt, bench, Some(1_000));
    assert_answer(rt, alloc, bench, 300, LASTS, APPLIED)?;
    assert_waits(rt, bench, None);
    Ok(())
}

// After a Tick at this moment a packet of the first circuit has this fate.
fn assert_up_after_tick(rt: &impl Abort, alloc: Global, bench: &mut Bench, now: u32, fate: Fate) {
    tick(rt, alloc, bench, now);
    assert_up(rt, alloc, bench, now, fate);
}

// A circuit has no timeout until a request sets one. Session-Timeout counts from the lease, at moment 0.
#[test]
fn a_circuit_ends_by_a_session_timeout_that_a_request_set(rt: HostRuntime) -> Result<(), Fail> {
    let alloc = rt.alloc();
    let mut bench = open_two(&rt, alloc)?;
    sets_and_resets(&rt, alloc, &mut bench)?;
    assert_answer(&rt, alloc, &mut bench, 400, LASTS_A_SECOND, APPLIED)?;
    assert_up_after_tick(&rt, alloc, &mut bench, 999, Fate::Forwarded);
    assert_up_after_tick(&rt, alloc, &mut bench, 1_000, NOT_OPEN);
    assert_waits(&rt, &bench, None);
    assert_stop(&rt, &mut bench, 5);
    Ok(())
}

// A request sets an Idle-Timeout, whose end a packet puts off.
fn idles(rt: &impl Abort, alloc: Global, bench: &mut Bench) -> Result<(), Fail> {
    assert_answer(rt, alloc, bench, 200, IDLES, APPLIED)?;
    assert_waits(rt, bench, Some(2_000));
    assert_up(rt, alloc, bench, 1_500, Fate::Forwarded);
    tick(rt, alloc, bench, 2_000);
    assert_waits(rt, bench, Some(3_500));
    Ok(())
}

// Idle-Timeout counts from the last packet that passed.
#[test]
fn a_circuit_ends_by_an_idle_timeout_that_a_request_set(rt: HostRuntime) -> Result<(), Fail> {
    let alloc = rt.alloc();
    let mut bench = open_two(&rt, alloc)?;
    idles(&rt, alloc, &mut bench)?;
    tick(&rt, alloc, &mut bench, 3_500);
    assert_down(&rt, alloc, &mut bench, 3_500, NOT_OPEN);
    assert_stop(&rt, &mut bench, 4);
    Ok(())
}

// The test fails where no answer waits.
fn assert_changed(rt: &impl Abort, bench: &Bench)
    ensures { bench.now.0.state.changed ≡ [] → ⊥ }
{
    assert_holds(rt, bench.shard.has_changed());
}

// The term of session 1025.
const TERM: TermId = TermId {
    session: SessionNo(1025),
    serial: 1,
};

// An Acct-Interim-Interval of 30 seconds is taken as 60, from the lease on. At moment 100 none was due for a minute.
#[test]
fn a_request_may_bring_an_interim_forward(rt: HostRuntime) -> Result<(), Fail> {
    let alloc = rt.alloc();
    let mut bench = open_two(&rt, alloc)?;
    let mut reports = Reports::open(alloc)?;
    assert_taken(&rt, &bench, &mut reports, 100, None);
    ask(&rt, alloc, &mut bench, 200, 1, REPORTS)?;
    assert_changed(&rt, &bench);
    assert_taken(&rt, &bench, &mut reports, 59_999, None);
    assert_taken(&rt, &bench, &mut reports, 60_000, Some((TERM, NOTHING)));
    Ok(())
}

// The addresses 10.0.0.2 to 10.0.0.9.
const EIGHT: Range = Range {
    first: Ip4(0x0a00_0002),
    last: Ip4(0x0a00_0009),
};

// The request stands there.
fn stands(
    rt: &impl Abort,
    alloc: Global,
    rules: &Rules,
    pool: &PlainPool,
    request: &str,
    whose: &Whose,
) -> Result<(), Fail>
    requires some { 1 ≤ rules.now.shards }
    requires shards { pool.now.shards ≤ rules.now.shards }
{
    let item = change(rt, alloc, 1, request)?;
    assert_same(rt, &whose_is(rules, pool, &item), whose);
    Ok(())
}

#[test]
fn a_request_stands_in_the_shard_of_its_term(rt: HostRuntime) -> Result<(), Fail> {
    let alloc = rt.alloc();
    let rules = rules(alloc)?;
    let mut pool = PlainPool::open(alloc, &[EIGHT], 1)?;
    let _held = pool.scan(0, 0);
    for (request, whose) in CASES {
        stands(&rt, alloc, &rules, &pool, *request, whose)?;
    }
    Ok(())
}
