ghost use Rattle.std.specs.Prelude.{◌≡◌, ◌≤◌, length};

use super::settings::{ONE, rules_with};
use super::terms::assert_down;
use super::verdicts::{ACCEPT, ACK, PASSWORD, REQUEST, in_session_of, verdict};
use super::{Bench, NOTHING, assert_due, assert_sessions, item, octets, open_bench, request, span};
use crate::asserts::{assert_count, assert_holds, assert_octets, assert_same};
use bng_base::{DropCause, Fate, Ip4, Item, ItemKind, OutRecord};
use std::alloc::Global;
use std::process::Abort;
use std::test::Fail;

// The address of the pool.
const ADDRESS: Ip4 = Ip4(0x0a000002);

// A host asks for the pool's address by IPCP, and takes what the gateway asks for: its own address (RFC 1332 section 3.3).
const ASKS: &[u8; 12] = b"\x80\x21\x01\x01\x00\x0a\x03\x06\x0a\0\0\x02";

const TAKES: &[u8; 12] = b"\x80\x21\x02\x01\x00\x0a\x03\x06\x0a\0\0\x01";

// The gateway's own Configure-Request of IPCP, and what PAP makes of a refusal by the gateway.
const OWN: &[u8; 12] = b"\x80\x21\x01\x01\x00\x0a\x03\x06\x0a\0\0\x01";

const NO_ADDRESS: &[u8; 17] = b"\xc0\x23\x03\x07\x00\x0f\x0ano address";

// An Access-Accept with a Session-Timeout of 60 seconds and an Idle-Timeout of 30 (RFC 2865 sections 5.27 and 5.28).
const LIMITED: &[u8; 32] =
    b"\x02\0\0\x20\0\0\0\0\0\0\0\0\0\0\0\0\0\0\0\0\x1b\x06\0\0\0\x3c\x1c\x06\0\0\0\x1e";

// The peer's end of LCP (RFC 1661 section 5.5).
const TERMINATE: &[u8; 6] = b"\xc0\x21\x05\x09\x00\x04";

// A packet of the first host from the pool's address.
const FROM_IT: &[u8; 30] =
    b"\0\x21\x45\0\0\x1c\0\0\0\0\x40\x11\xae\xce\x0a\0\0\x02\xc0\0\x02\x01\x30\x39\x30\x39\0\x08\0\0";

// A PADT of the first host's session.
const PADT: &[u8; 20] = b"\x02\0\0\0\0\xfe\x02\0\0\0\0\x01\x88\x63\x11\xa7\0\x01\0\0";

const NOT_OPEN: Fate = Fate::Dropped(DropCause::NotOpen);

// A shard with a pool of one address.
pub(super) fn with_one(alloc: Global) -> Result<Bench, Fail> {
    let rules = rules_with(alloc, ONE)?;
    open_bench(alloc, rules, ONE)
}

// The outs of one item at moment 0. The round is not settled.
fn hear(rt: &impl Abort, alloc: Global, bench: &mut Bench, item: Item) -> Vec<OutRecord>
    requires whole { item.frame.headroom ≡ 64 }
{
    let mut tally = NOTHING;
    let (_fate, outs) = bench.handled(rt, alloc, &mut tally, 0, item);
    outs
}

// The outs of the Accept of a host that made the session of its number and sent its password, by which it asks this question.
fn accepted(
    rt: &impl Abort,
    alloc: Global,
    bench: &mut Bench,
    host: u8,
    ask: u64,
) -> Vec<OutRecord> {
    accepted_by(rt, alloc, bench, host, ask, ACCEPT)
}

// The same with this reply.
pub(super) fn accepted_by(
    rt: &impl Abort,
    alloc: Global,
    bench: &mut Bench,
    host: u8,
    ask: u64,
    reply: &[u8],
) -> Vec<OutRecord>
    requires { length reply.now ≤ 4096 }
{
    let _made = request(rt, alloc, bench, u16::from(host));
    let _answered = hear(rt, alloc, bench, in_session_of(host, REQUEST));
    let _opened = hear(rt, alloc, bench, in_session_of(host, ACK));
    let _asked = hear(rt, alloc, bench, in_session_of(host, PASSWORD));
    hear(rt, alloc, bench, verdict(u16::from(host), ask, reply))
}

// A shard whose first host has a term within those limits, from moment 0 on.
fn limited(rt: &impl Abort, alloc: Global) -> Result<Bench, Fail> {
    let mut bench = with_one(alloc)?;
    let _accepted = accepted_by(rt, alloc, &mut bench, 1, 1, LIMITED);
    open_ipcp(rt, alloc, &mut bench);
    Ok(bench)
}

// How many outs a Tick at this moment has; and the next deadline then.
fn ticked(rt: &impl Abort, alloc: Global, bench: &mut Bench, now: u32) -> (usize, Option<u64>) {
    let mut tally = NOTHING;
    let tick = item(ItemKind::Tick, &[]);
    let (_fate, outs) = bench.handled(rt, alloc, &mut tally, u64::from(now), tick);
    (outs.len(), bench.shard.due())
}

// A Tick at this moment has so many outs, and this is the next deadline then.
fn assert_ticks(
    rt: &impl Abort,
    alloc: Global,
    bench: &mut Bench,
    now: u32,
    wanted: (usize, Option<u64>),
) {
    assert_same(rt, &ticked(rt, alloc, bench, now), &wanted);
}

// A packet of the first host, of 28 octets, has this fate at this moment.
pub(super) fn assert_passes(
    rt: &impl Abort,
    alloc: Global,
    bench: &mut Bench,
    now: u32,
    fate: Fate,
) {
    let mut tally = NOTHING;
    let packet = in_session_of(1, FROM_IT);
    let (found, _outs) = bench.handled(rt, alloc, &mut tally, u64::from(now), packet);
    assert_holds(rt, found == fate);
}

// A packet of the first host passes at this moment.
fn pass(rt: &impl Abort, alloc: Global, bench: &mut Bench, now: u32) {
    assert_passes(rt, alloc, bench, now, Fate::Forwarded);
}

// A packet of the first host and one towards it have this fate.
fn assert_fate(rt: &impl Abort, alloc: Global, bench: &mut Bench, fate: Fate) {
    assert_passes(rt, alloc, bench, 0, fate);
    assert_down(rt, alloc, bench, 0, fate);
}

// IPCP opens for the first host.
pub(super) fn open_ipcp(rt: &impl Abort, alloc: Global, bench: &mut Bench) {
    let _acknowledged = hear(rt, alloc, bench, in_session_of(1, ASKS));
    let _opened = hear(rt, alloc, bench, in_session_of(1, TAKES));
}

// The number and the address of the next term that is told.
fn told(bench: &mut Bench) -> Option<(u64, Ip4)> {
    let told = bench.fresh()?;
    Some((told.term.serial, told.address))
}

// The term that began is told, with this number, and once.
fn assert_tells(rt: &impl Abort, bench: &mut Bench, serial: u64) {
    assert_same(rt, &told(bench), &Some((serial, ADDRESS)));
    assert_same(rt, &told(bench), &None);
}

// The Authenticate-Nak says that there is no address, and LCP does Close.
fn assert_refused(rt: &impl Abort, outs: &[OutRecord]) {
    assert_count(rt, outs.len(), 2);
    assert_count(rt, octets(outs, 0).len(), 37);
    assert_same(rt, &span(outs, 0, 20, 37), &NO_ADDRESS.as_slice());
    assert_octets(rt, span(outs, 1, 20, 23), b"\xc0\x21\x05");
}

// The address of the pool is held by this shard, or by nobody.
fn assert_held(rt: &impl Abort, bench: &Bench, holder: Option<u16>) {
    assert_same(rt, &bench.pool.look(ADDRESS), &holder);
}

// The number, the address and the cause of the next term that leaves; none also where it is not of the first host's user.
fn left(bench: &mut Bench) -> Option<(u64, Ip4, u8)> {
    let ended = bench.reap()?;
    if ended.user.as_slice() != b"u0".as_slice() {
        return None;
    }
    Some((ended.term.serial, ended.address, ended.cause))
}

// The term that ended leaves: of the first host, with this number and by this cause; its address is held until then.
fn assert_reaps(rt: &impl Abort, bench: &mut Bench, serial: u64, cause: u8) {
    assert_held(rt, bench, Some(0));
    assert_same(rt, &left(bench), &Some((serial, ADDRESS, cause)));
    assert_held(rt, bench, None);
    assert_holds(rt, bench.reap().is_none());
}

// The verdict of this host's question has two outs, as an Accept has that begins a term.
fn assert_accepted(rt: &impl Abort, alloc: Global, bench: &mut Bench, host: u8, ask: u64) {
    let outs = accepted(rt, alloc, bench, host, ask);
    assert_count(rt, outs.len(), 2);
}

// The Accept of the first host says so, and IPCP asks for its opening.
fn assert_asks_by_ipcp(rt: &impl Abort, alloc: Global, bench: &mut Bench) {
    let outs = accepted(rt, alloc, bench, 1, 1);
    assert_count(rt, outs.len(), 2);
    assert_octets(rt, span(&outs, 1, 20, 32), OWN);
}

#[test]
fn an_accept_begins_a_term_that_is_told_once(rt: HostRuntime) -> Result<(), Fail> {
    let alloc = rt.alloc();
    let mut bench = with_one(alloc)?;
    assert_asks_by_ipcp(&rt, alloc, &mut bench);
    assert_held(&rt, &bench, Some(0));
    assert_same(&rt, &bench.shard.allowance(), &1);
    assert_tells(&rt, &mut bench, 1);
    Ok(())
}

// Packets pass once IPCP has opened, and do not pass before.
fn assert_passes_once_open(rt: &impl Abort, alloc: Global, bench: &mut Bench) {
    let _accepted = accepted(rt, alloc, bench, 1, 1);
    assert_fate(rt, alloc, bench, NOT_OPEN);
    open_ipcp(rt, alloc, bench);
    assert_fate(rt, alloc, bench, Fate::Forwarded);
}

#[test]
fn packets_pass_from_the_opening_of_ipcp_to_a_terminate_request(
    rt: HostRuntime,
) -> Result<(), Fail> {
    let alloc = rt.alloc();
    let mut bench = with_one(alloc)?;
    assert_passes_once_open(&rt, alloc, &mut bench);
    let _ended = hear(&rt, alloc, &mut bench, in_session_of(1, TERMINATE));
    assert_fate(&rt, alloc, &mut bench, NOT_OPEN);
    assert_reaps(&rt, &mut bench, 1, 1);
    Ok(())
}

// While the first host has the address, the second one is refused.
fn assert_refuses_another(rt: &impl Abort, alloc: Global, bench: &mut Bench) {
    assert_accepted(rt, alloc, bench, 1, 1);
    let second = accepted(rt, alloc, bench, 2, 2);
    assert_refused(rt, &second);
}

#[test]
fn an_address_that_is_held_is_given_to_nobody_else(rt: HostRuntime) -> Result<(), Fail> {
    let alloc = rt.alloc();
    let mut bench = with_one(alloc)?;
    assert_refuses_another(&rt, alloc, &mut bench);
    // a Configure-Request in Opened ends the term; then the address is free, and it is leased again
    let _again = hear(&rt, alloc, &mut bench, in_session_of(1, REQUEST));
    assert_reaps(&rt, &mut bench, 1, 1);
    assert_accepted(&rt, alloc, &mut bench, 3, 3);
    assert_held(&rt, &bench, Some(0));
    Ok(())
}

// A term that was silent ends.
fn assert_ends_when_silent(rt: &impl Abort, alloc: Global, bench: &mut Bench) {
    assert_due(rt, bench.shard.due(), Some(30_000));
    pass(rt, alloc, bench, 20_000);
    // what passed is known when the deadline comes, which moves then
    assert_ticks(rt, alloc, bench, 30_000, (0, Some(50_000)));
    // no packet for 30 seconds: the term ends, and the link by a Terminate-Request
    assert_ticks(rt, alloc, bench, 50_000, (1, Some(53_000)));
    assert_reaps(rt, bench, 1, 4);
}

// Packets do not let it last for more than 60 seconds.
fn assert_ends_at_its_end(rt: &impl Abort, alloc: Global, bench: &mut Bench) {
    pass(rt, alloc, bench, 29_999);
    pass(rt, alloc, bench, 59_998);
    assert_ticks(rt, alloc, bench, 59_999, (0, Some(60_000)));
    assert_ticks(rt, alloc, bench, 60_000, (1, Some(63_000)));
    assert_reaps(rt, bench, 1, 5);
}

#[test]
fn a_term_ends_when_it_was_silent_or_lasted_too_long(rt: HostRuntime) -> Result<(), Fail> {
    let alloc = rt.alloc();
    let mut silent = limited(&rt, alloc)?;
    assert_ends_when_silent(&rt, alloc, &mut silent);
    let mut busy = limited(&rt, alloc)?;
    assert_ends_at_its_end(&rt, alloc, &mut busy);
    Ok(())
}

// A PADT ends the first host's term.
fn assert_ends_by_a_padt(rt: &impl Abort, alloc: Global, bench: &mut Bench) {
    let _first = accepted(rt, alloc, bench, 1, 1);
    let _ended = hear(rt, alloc, bench, item(ItemKind::Access(1), PADT));
    assert_reaps(rt, bench, 1, 1);
}

// An End ends its next one.
fn assert_ends_by_an_end(rt: &impl Abort, alloc: Global, bench: &mut Bench) {
    let _second = accepted(rt, alloc, bench, 1, 2);
    let _all = hear(rt, alloc, bench, item(ItemKind::End, &[]));
    assert_reaps(rt, bench, 2, 10);
}

#[test]
fn a_padt_and_an_end_end_terms_by_causes_of_their_own(rt: HostRuntime) -> Result<(), Fail> {
    let alloc = rt.alloc();
    let mut bench = with_one(alloc)?;
    assert_ends_by_a_padt(&rt, alloc, &mut bench);
    assert_ends_by_an_end(&rt, alloc, &mut bench);
    assert_sessions(&rt, &bench.shard, 0);
    Ok(())
}
