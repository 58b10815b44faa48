ghost use Rattle.std.specs.Prelude.{◌≡◌, ◌<◌, ◌≤◌, ◌^◌, length};

use super::settings::{TWO, peer, rules};
use super::{Bench, NOTHING, assert_due, assert_sessions, item, octets, open_bench};
use crate::asserts::{assert_count, assert_octets, assert_same};
use bng_base::{DropCause, Fate, Item, ItemKind, OutRecord, Peer, Role};
use std::alloc::Global;
use std::process::Abort;
use std::test::Fail;

// The access concentrator is 127.0.0.1, without a secret, and its tunnel has the number 5. The shard is 0, whose first tunnel number is 1.

const SCCRQ: &[u8; 56] =
    b"\xc8\x02\x00\x38\x00\x00\x00\x00\x00\x00\x00\x00\x80\x08\x00\x00\x00\x00\x00\x01\x80\x08\x00\x00\x00\x02\x01\x00\x80\x0a\x00\x00\x00\x03\x00\x00\x00\x03\x80\x0a\x00\x00\x00\x07\x6c\x61\x63\x31\x80\x08\x00\x00\x00\x09\x00\x05";

const SCCRP: &[u8; 64] =
    b"\xc8\x02\x00\x40\x00\x05\x00\x00\x00\x00\x00\x01\x80\x08\x00\x00\x00\x00\x00\x02\x80\x08\x00\x00\x00\x02\x01\x00\x80\x0a\x00\x00\x00\x03\x00\x00\x00\x03\x80\x0a\x00\x00\x00\x07\x62\x6e\x67\x31\x80\x08\x00\x00\x00\x09\x00\x01\x80\x08\x00\x00\x00\x0a\x00\x08";

const SCCCN: &[u8; 20] =
    b"\xc8\x02\x00\x14\x00\x01\x00\x00\x00\x01\x00\x01\x80\x08\x00\x00\x00\x00\x00\x03";

// an ICRQ of session 9, the ICRP that gives it the session 1, and the ICCN
const ICRQ: &[u8; 48] =
    b"\xc8\x02\x00\x30\x00\x01\x00\x00\x00\x02\x00\x01\x80\x08\x00\x00\x00\x00\x00\x0a\x80\x08\x00\x00\x00\x0e\x00\x09\x80\x0a\x00\x00\x00\x0f\x00\x00\x00\x01\x80\x0a\x00\x00\x00\x12\x00\x00\x00\x00";

const ICRP: &[u8; 28] =
    b"\xc8\x02\x00\x1c\x00\x05\x00\x09\x00\x01\x00\x03\x80\x08\x00\x00\x00\x00\x00\x0b\x80\x08\x00\x00\x00\x0e\x00\x01";

const ICCN: &[u8; 40] =
    b"\xc8\x02\x00\x28\x00\x01\x00\x01\x00\x03\x00\x02\x80\x08\x00\x00\x00\x00\x00\x0c\x80\x0a\x00\x00\x00\x18\x00\x00\x00\x00\x80\x0a\x00\x00\x00\x13\x00\x00\x00\x01";

// an LCP frame of the session 2
const DATA: &[u8; 14] = b"\x00\x02\x00\x01\x00\x02\xff\x03\xc0\x21\x09\x01\x00\x04";

const HELLO: &[u8; 20] =
    b"\xc8\x02\x00\x14\x00\x05\x00\x00\x00\x01\x00\x02\x80\x08\x00\x00\x00\x00\x00\x06";

// a StopCCN with Result Code 6
const STOP_CCN: &[u8; 36] =
    b"\xc8\x02\x00\x24\x00\x05\x00\x00\x00\x01\x00\x02\x80\x08\x00\x00\x00\x00\x00\x04\x80\x08\x00\x00\x00\x09\x00\x01\x80\x08\x00\x00\x00\x01\x00\x06";

// the same after an ICRP
const STOP_CCN_OF_A_CALL: &[u8; 36] =
    b"\xc8\x02\x00\x24\x00\x05\x00\x00\x00\x02\x00\x04\x80\x08\x00\x00\x00\x00\x00\x04\x80\x08\x00\x00\x00\x09\x00\x01\x80\x08\x00\x00\x00\x01\x00\x06";

// The ZLB with these Ns and Nr.
fn zlb(ns: u8, nr: u8) -> [u8; 12] {
    [0xc8, 2, 0, 12, 0, 5, 0, 0, 0, ns, 0, nr]
}

// The one out for a datagram goes to its sender.
fn answer(
    rt: &impl Abort,
    alloc: Global,
    bench: &mut Bench,
    now: u64,
    datagram: &[u8],
    wanted: &[u8],
)
    requires moment { now < 2 ^ 60 }
    requires short { length datagram.now ≤ 4096 }
{
    let mut tally = NOTHING;
    let came = item(ItemKind::Tunnel, datagram);
    let outs = bench.round(rt, alloc, &mut tally, now, came);
    assert_count(rt, outs.len(), 1);
    assert_octets(rt, octets(&outs, 0), wanted);
    assert_to_sender(rt, &outs, 0);
}

// Where the out at this place goes.
fn way(outs: &[OutRecord], place: usize) -> Option<(Role, Peer)> {
    let out = outs.get(place)?;
    Some((out.role, out.to))
}

// The out at this place is for the tunnels' peer, of which all items of these tests are.
fn assert_to_sender(rt: &impl Abort, outs: &[OutRecord], place: usize) {
    assert_same(rt, &way(outs, place), &Some((Role::Tunnel, peer(9011))));
}

// How many outs a datagram has.
fn assert_outs(
    rt: &impl Abort,
    alloc: Global,
    bench: &mut Bench,
    now: u64,
    datagram: &[u8],
    count: usize,
)
    requires moment { now < 2 ^ 60 }
    requires short { length datagram.now ≤ 4096 }
{
    let mut tally = NOTHING;
    let came = item(ItemKind::Tunnel, datagram);
    let outs = bench.round(rt, alloc, &mut tally, now, came);
    assert_count(rt, outs.len(), count);
}

// How much an item sends, and what first.
fn timed(
    rt: &impl Abort,
    alloc: Global,
    bench: &mut Bench,
    came: Item,
    now: u64,
    wanted: (usize, &[u8]),
)
    requires moment { now < 2 ^ 60 }
    requires whole { came.frame.headroom ≡ 64 }
{
    let mut tally = NOTHING;
    let outs = bench.round(rt, alloc, &mut tally, now, came);
    assert_count(rt, outs.len(), wanted.0);
    assert_octets(rt, octets(&outs, 0), wanted.1);
}

// What an End sends first, and how much it sends.
fn end(rt: &impl Abort, alloc: Global, bench: &mut Bench, now: u64, count: usize, wanted: &[u8])
    requires moment { now < 2 ^ 60 }
{
    timed(
        rt,
        alloc,
        bench,
        item(ItemKind::End, &[]),
        now,
        (count, wanted),
    );
}

// What a Tick sends first, and how much it sends.
fn tick(rt: &impl Abort, alloc: Global, bench: &mut Bench, now: u64, count: usize, wanted: &[u8])
    requires moment { now < 2 ^ 60 }
{
    timed(
        rt,
        alloc,
        bench,
        item(ItemKind::Tick, &[]),
        now,
        (count, wanted),
    );
}

// A shard without a tunnel.
fn without_tunnel(alloc: Global) -> Result<Bench, Fail> {
    let rules = rules(alloc)?;
    open_bench(alloc, rules, TWO)
}

// A shard with an established tunnel, whose last message came at moment 0.
fn established(rt: &impl Abort, alloc: Global) -> Result<Bench, Fail> {
    let mut bench = without_tunnel(alloc)?;
    answer(rt, alloc, &mut bench, 0, SCCRQ, SCCRP);
    answer(rt, alloc, &mut bench, 0, SCCCN, &zlb(1, 2));
    Ok(bench)
}

// An SCCRQ that comes twice makes one tunnel.
fn is_made_once(rt: &impl Abort, alloc: Global, bench: &mut Bench) {
    answer(rt, alloc, bench, 0, SCCRQ, SCCRP);
    answer(rt, alloc, bench, 1, SCCRQ, &zlb(1, 1));
    assert_due(rt, bench.shard.due(), Some(1_000));
    answer(rt, alloc, bench, 2, SCCCN, &zlb(1, 2));
}

// A frame of no session is dropped.
fn assert_dropped(rt: &impl Abort, alloc: Global, bench: &mut Bench) {
    let mut tally = NOTHING;
    let (fate, outs) = bench.handled(rt, alloc, &mut tally, 4, item(ItemKind::Tunnel, DATA));
    assert_same(rt, &fate, &Fate::Dropped(DropCause::NoSession));
    assert_count(rt, outs.len(), 0);
}

#[test]
fn a_tunnel_is_made_once_and_takes_a_call(rt: HostRuntime) -> Result<(), Fail> {
    let alloc = rt.alloc();
    let mut bench = without_tunnel(alloc)?;
    is_made_once(&rt, alloc, &mut bench);
    answer(&rt, alloc, &mut bench, 3, ICRQ, ICRP);
    assert_dropped(&rt, alloc, &mut bench);
    Ok(())
}

// The ICCN is acknowledged, and the call's link asks.
fn assert_speaks(rt: &impl Abort, alloc: Global, bench: &mut Bench) {
    let mut tally = NOTHING;
    let outs = bench.round(rt, alloc, &mut tally, 2, item(ItemKind::Tunnel, ICCN));
    assert_count(rt, outs.len(), 2);
    assert_octets(rt, octets(&outs, 0), &zlb(2, 4));
    assert_to_sender(rt, &outs, 1);
}

// Once the ICCN came the call's link asks first, in a data message after the acknowledgement.
#[test]
fn a_call_speaks_once_it_is_connected(rt: HostRuntime) -> Result<(), Fail> {
    let alloc = rt.alloc();
    let mut bench = established(&rt, alloc)?;
    answer(&rt, alloc, &mut bench, 1, ICRQ, ICRP);
    assert_speaks(&rt, alloc, &mut bench);
    Ok(())
}

// A HELLO of the peer with this Ns.
fn hello(ns: u16) -> [u8; 20] {
    let [high, low] = ns.to_be_bytes();
    [
        0xc8, 2, 0, 20, 0, 1, 0, 0, high, low, 0, 1, 0x80, 8, 0, 0, 0, 0, 0, 6,
    ]
}

// The HELLOs of the peer with the Ns 2 to 65,534, each of which is acknowledged.
fn talk(rt: &impl Abort, alloc: Global, bench: &mut Bench) {
    for ns in 2..65_535u16 {
        assert_outs(rt, alloc, bench, 0, &hello(ns), 1);
    }
}

// The HELLO with this Ns is acknowledged by a ZLB with this Nr.
fn acknowledges(rt: &impl Abort, alloc: Global, bench: &mut Bench, ns: u16, nr: u8) {
    answer(rt, alloc, bench, 1, &hello(ns), &zlb(1, nr));
}

// Two come, and come again.
fn come_again(rt: &impl Abort, alloc: Global, bench: &mut Bench) {
    acknowledges(rt, alloc, bench, 65_535, 0);
    acknowledges(rt, alloc, bench, 0, 1);
    acknowledges(rt, alloc, bench, 65_535, 1);
    acknowledges(rt, alloc, bench, 0, 1);
}

// Ns 0 comes after 65,535 (RFC 2661 section 5.8). A message that comes again is acknowledged again, and one that comes too early is not.
#[test]
fn numbers_of_messages_go_on_from_65535_to_0(rt: HostRuntime) -> Result<(), Fail> {
    let alloc = rt.alloc();
    let mut bench = established(&rt, alloc)?;
    talk(&rt, alloc, &mut bench);
    come_again(&rt, alloc, &mut bench);
    assert_outs(&rt, alloc, &mut bench, 1, &hello(2), 0);
    acknowledges(&rt, alloc, &mut bench, 1, 2);
    Ok(())
}

// The ICRQ comes twice.
fn ask_twice(rt: &impl Abort, alloc: Global, bench: &mut Bench) {
    answer(rt, alloc, bench, 1, ICRQ, ICRP);
    answer(rt, alloc, bench, 2, ICRQ, &zlb(2, 3));
    assert_sessions(rt, &bench.shard, 1);
}

// The ICCN comes twice.
fn connect_twice(rt: &impl Abort, alloc: Global, bench: &mut Bench) {
    assert_outs(rt, alloc, bench, 3, ICCN, 2);
    answer(rt, alloc, bench, 4, ICCN, &zlb(2, 4));
    assert_sessions(rt, &bench.shard, 1);
}

// Each message of a call comes twice: one session is made, whose link asks once.
#[test]
fn a_call_that_is_asked_for_twice_is_one(rt: HostRuntime) -> Result<(), Fail> {
    let alloc = rt.alloc();
    let mut bench = established(&rt, alloc)?;
    ask_twice(&rt, alloc, &mut bench);
    connect_twice(&rt, alloc, &mut bench);
    Ok(())
}

#[test]
fn a_silent_tunnel_is_asked_by_a_tick(rt: HostRuntime) -> Result<(), Fail> {
    let alloc = rt.alloc();
    let mut bench = established(&rt, alloc)?;
    assert_due(&rt, bench.shard.due(), Some(60_000));
    tick(&rt, alloc, &mut bench, 59_999, 0, &[]);
    tick(&rt, alloc, &mut bench, 60_000, 1, HELLO);
    assert_due(&rt, bench.shard.due(), Some(61_000));
    Ok(())
}

#[test]
fn an_end_without_sessions_stops_each_tunnel_once(rt: HostRuntime) -> Result<(), Fail> {
    let alloc = rt.alloc();
    let mut bench = established(&rt, alloc)?;
    end(&rt, alloc, &mut bench, 5, 1, STOP_CCN);
    end(&rt, alloc, &mut bench, 5, 0, &[]);
    assert_due(&rt, bench.shard.due(), None);
    Ok(())
}

// The call gets no CDN.
#[test]
fn an_end_stops_the_tunnel_of_a_call(rt: HostRuntime) -> Result<(), Fail> {
    let alloc = rt.alloc();
    let mut bench = established(&rt, alloc)?;
    answer(&rt, alloc, &mut bench, 1, ICRQ, ICRP);
    assert_outs(&rt, alloc, &mut bench, 2, ICCN, 2);
    end(&rt, alloc, &mut bench, 3, 1, STOP_CCN_OF_A_CALL);
    end(&rt, alloc, &mut bench, 3, 0, &[]);
    Ok(())
}
