ghost use Rattle.std.specs.Prelude.{◌<◌, ◌^◌};

use super::verdicts::opened;
use super::{Bench, NOTHING, PADI, assert_due, assert_sessions, item, octets, padi, request};
use crate::asserts::{assert_count, assert_octets, assert_same};
use bng_base::{ItemKind, OutRecord};
use std::alloc::Global;
use std::process::Abort;
use std::test::Fail;

// its PADO, whose cookie is HMAC-MD5 of 01 020000000001 under the key, as Python's hmac computes it
const PADO: [u8; 68] = [
    2, 0, 0, 0, 0, 1, 2, 0, 0, 0, 0, 0xfe, 0x88, 0x63, 0x11, 7, 0, 0, 0, 0x30, 1, 2, 0, 4, 0x62,
    0x6e, 0x67, 0x31, 1, 1, 0, 0, 1, 1, 0, 4, 0x69, 0x6e, 0x65, 0x74, 1, 3, 0, 4, 0xa1, 0xb2, 0xc3,
    0xd4, 1, 4, 0, 16, 0x15, 0x38, 0xfd, 0x1a, 0x2b, 9, 0x5a, 0x46, 0x52, 0x80, 0xfe, 0xa6, 0x52,
    0x44, 0xa0, 0x75,
];
// the PADS of a host's session, and that of a host for which there is none
const PADS: [u8; 32] = [
    2, 0, 0, 0, 0, 1, 2, 0, 0, 0, 0, 0xfe, 0x88, 0x63, 0x11, 0x65, 0, 1, 0, 12, 1, 1, 0, 0, 1, 3,
    0, 4, 0xa1, 0xb2, 0xc3, 0xd4,
];

const FULL: [u8; 36] = [
    2, 0, 0, 0, 4, 0, 2, 0, 0, 0, 0, 0xfe, 0x88, 0x63, 0x11, 0x65, 0, 0, 0, 16, 1, 1, 0, 0, 2, 2,
    0, 0, 1, 3, 0, 4, 0xa1, 0xb2, 0xc3, 0xd4,
];

// So many Ticks at this moment.
fn ticks(rt: &impl Abort, alloc: Global, bench: &mut Bench, now: u64, count: u32)
    requires moment { now < 2 ^ 60 }
{
    let mut tally = NOTHING;
    for _ in 0..count {
        let _outs = bench.round(rt, alloc, &mut tally, now, item(ItemKind::Tick, &[]));
    }
}

// The outs of a host's PADI at moment 0.
fn call(rt: &impl Abort, alloc: Global, bench: &mut Bench, padi: &[u8; 32]) -> Vec<OutRecord> {
    let mut tally = NOTHING;
    bench.round(rt, alloc, &mut tally, 0, item(ItemKind::Access(1), padi))
}

// The first host is offered a session, and has none yet.
fn assert_offered(rt: &impl Abort, alloc: Global, bench: &mut Bench) {
    let outs = call(rt, alloc, bench, &PADI);
    assert_octets(rt, octets(&outs, 0), &PADO);
    assert_sessions(rt, &bench.shard, 0);
}

// The request of the first host has so many outs, of which the first is the PADS.
fn assert_given(rt: &impl Abort, alloc: Global, bench: &mut Bench, count: usize) {
    let outs = request(rt, alloc, bench, 1);
    assert_count(rt, outs.len(), count);
    assert_octets(rt, octets(&outs, 0), &PADS);
}

#[test]
fn a_host_is_offered_a_session_and_its_request_sent_twice_makes_one(
    rt: HostRuntime,
) -> Result<(), Fail> {
    let alloc = rt.alloc();
    let mut bench = opened(alloc)?;
    assert_offered(&rt, alloc, &mut bench);
    assert_given(&rt, alloc, &mut bench, 2);
    assert_given(&rt, alloc, &mut bench, 1);
    assert_sessions(&rt, &bench.shard, 1);
    assert_due(&rt, bench.shard.due(), Some(3000));
    Ok(())
}

// A PADI of this host has one out.
fn assert_answered(rt: &impl Abort, alloc: Global, bench: &mut Bench, host: u16) {
    let outs = call(rt, alloc, bench, &padi(host));
    assert_count(rt, outs.len(), 1);
}

// So have those of ten thousand hosts.
fn assert_all_answered(rt: &impl Abort, alloc: Global, bench: &mut Bench) {
    for host in 0..10_000 {
        assert_answered(rt, alloc, bench, host);
    }
}

#[test]
fn ten_thousand_calls_make_no_session(rt: HostRuntime) -> Result<(), Fail> {
    let alloc = rt.alloc();
    let mut bench = opened(alloc)?;
    assert_all_answered(&rt, alloc, &mut bench);
    assert_sessions(&rt, &bench.shard, 0);
    assert_due(&rt, bench.shard.due(), None);
    Ok(())
}

// A host is given the session of its number.
fn assert_numbered(rt: &impl Abort, alloc: Global, bench: &mut Bench, host: u16) {
    let outs = request(rt, alloc, bench, host);
    assert_same(
        rt,
        &octets(&outs, 0).get(16..18),
        &Some(host.to_be_bytes().as_slice()),
    );
}

// Hosts take all sessions of a shard.
fn fill(rt: &impl Abort, alloc: Global, bench: &mut Bench) {
    for host in 1..1023 {
        assert_numbered(rt, alloc, bench, host);
    }
    assert_sessions(rt, &bench.shard, 1022);
}

// One host more has none.
fn assert_full(rt: &impl Abort, alloc: Global, bench: &mut Bench) {
    let outs = request(rt, alloc, bench, 1024);
    assert_octets(rt, octets(&outs, 0), &FULL);
}

// All sessions are there until the last of ten deadlines, three seconds apart, and then none.
fn assert_freed(rt: &impl Abort, alloc: Global, bench: &mut Bench) {
    for count in 1..11 {
        assert_sessions(rt, &bench.shard, 1022);
        ticks(rt, alloc, bench, 3000 * count, 16);
    }
    assert_sessions(rt, &bench.shard, 0);
}

#[test]
fn a_full_shard_refuses_and_is_free_again_where_no_host_goes_on(
    rt: HostRuntime,
) -> Result<(), Fail> {
    let alloc = rt.alloc();
    let mut bench = opened(alloc)?;
    fill(&rt, alloc, &mut bench);
    assert_full(&rt, alloc, &mut bench);
    assert_freed(&rt, alloc, &mut bench);
    Ok(())
}
