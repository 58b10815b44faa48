use super::{
    ICCN, ICRQ, PLAIN, SCCCN, SCCCN_ANSWERS, SCCRP_ASKS, SCCRQ_ASKS, SECRET, assert_answer,
    assert_first, assert_outs, came, established, passes, passes_datagram, takes, text, told,
};
use crate::asserts::{assert_holds, assert_same};
use bng_base::{SessionNo, TunnelNo};
use bng_l2tp_call::Call;
use bng_lns::Tunnels;
use std::alloc::Global;
use std::process::Abort;
use std::test::Fail;

const TWICE: &[(&str, &str)] = &[
    (SCCRQ_ASKS, SCCRP_ASKS),
    (SCCRQ_ASKS, "c802000c0005000000010001 "),
    (SCCCN_ANSWERS, "c802000c0005000000010002 "),
    (SCCCN_ANSWERS, "c802000c0005000000010002 "),
];

// a shard's tunnels, of which one of the peer with the secret is established by messages that come twice
fn established_twice(rt: &impl Abort, alloc: Global) -> Result<Tunnels, Fail> {
    let mut lns = Tunnels::open(alloc, 1)?;
    for (message, out) in TWICE {
        assert_first(rt, alloc, &mut lns, &came(SECRET, 0), message, out)?;
    }
    Ok(lns)
}

// the ICRQ is answered by an ICRP
fn begin_call(
    rt: &impl Abort,
    alloc: Global,
    lns: &mut Tunnels,
    call: &mut Call,
) -> Result<(), Fail> {
    let step = passes_datagram(rt, alloc, lns, &came(SECRET, 0), call, ICRQ)?;
    assert_holds(rt, !step.opened && !step.ended && !step.left_out);
    let icrp = "c802001c0005000900010003800800000000000b80080000000e0402 ";
    assert_outs(rt, alloc, &step, icrp)
}

// the ICCN opens the call
fn open_call(
    rt: &impl Abort,
    alloc: Global,
    lns: &mut Tunnels,
    call: &mut Call,
) -> Result<(), Fail> {
    let step = passes_datagram(rt, alloc, lns, &came(SECRET, 0), call, ICCN)?;
    assert_holds(rt, step.opened && !step.ended && call.is_connected());
    assert_outs(rt, alloc, &step, "c802000c0005000000020004 ")
}

// a message comes again, and only this ZLB goes out
fn repeat(
    rt: &impl Abort,
    alloc: Global,
    lns: &mut Tunnels,
    datagram: &str,
    zlb: &str,
) -> Result<(), Fail> {
    assert_answer(rt, alloc, lns, &came(SECRET, 0), datagram, zlb)
}

#[test]
fn messages_that_come_twice_make_one_tunnel_and_one_call(rt: HostRuntime) -> Result<(), Fail> {
    let alloc = rt.alloc();
    let mut lns = established_twice(&rt, alloc)?;
    let mut call = Call::new(&Some(text(b"xyzzy")), SessionNo(1026));
    begin_call(&rt, alloc, &mut lns, &mut call)?;
    repeat(&rt, alloc, &mut lns, ICRQ, "c802000c0005000000020003 ")?;
    open_call(&rt, alloc, &mut lns, &mut call)?;
    repeat(&rt, alloc, &mut lns, ICCN, "c802000c0005000000020004 ")
}

// a call of tunnel 1025, which takes the ICRQ
fn asked(rt: &impl Abort, alloc: Global, lns: &mut Tunnels) -> Result<Call, Fail> {
    let mut call = Call::new(&None, SessionNo(1026));
    passes_datagram(rt, alloc, lns, &came(PLAIN, 5), &mut call, ICRQ)?;
    Ok(call)
}

// the gateway ends the call
fn hang_up(rt: &impl Abort, alloc: Global, lns: &mut Tunnels, call: &mut Call) -> Result<(), Fail> {
    let number = TunnelNo(1025);
    assert_holds(rt, lns.get(number).is_some());
    let step = lns.hang_up(number, call, 6);
    assert_holds(rt, step.ended && !step.left_out);
    let cdn = "c80200240005000900020003800800000000000e80080000000e04028008000000010003 ";
    assert_outs(rt, alloc, &step, cdn)
}

// the gateway shuts down at the moment 7
fn stop(rt: &impl Abort, alloc: Global, lns: &mut Tunnels) -> Result<(), Fail> {
    let text = told(alloc, lns.stop(0, 7))?;
    let stop = "c80200240005000000030003800800000000000480080000000904018008000000010006 ";
    assert_same(rt, &text.as_str(), &stop);
    Ok(())
}

#[test]
fn a_call_is_hung_up_and_a_tunnel_stops_once(rt: HostRuntime) -> Result<(), Fail> {
    let alloc = rt.alloc();
    let mut lns = established(&rt, alloc)?;
    let mut call = asked(&rt, alloc, &mut lns)?;
    hang_up(&rt, alloc, &mut lns, &mut call)?;
    stop(&rt, alloc, &mut lns)?;
    assert_holds(&rt, lns.stop(0, 8).is_none());
    Ok(())
}

// The peer takes one message before it acknowledges it.
const SCCRQ_OF_ONE: &str =
    "c8020040000000000000000080080000000000018008000000020100800a0000000300000003800a000000076c616331800800000009000580080000000a0001";

// a shard's tunnels, of which one of that peer is established
fn established_of_one(rt: &impl Abort, alloc: Global) -> Result<Tunnels, Fail> {
    let mut lns = Tunnels::open(alloc, 1)?;
    takes(rt, alloc, &mut lns, &came(PLAIN, 0), SCCRQ_OF_ONE)?;
    takes(rt, alloc, &mut lns, &came(PLAIN, 0), SCCCN)?;
    Ok(lns)
}

// an ICRQ with this Ns is answered once, and its answer is left out where it has the Ns 67
fn ask_for_call(rt: &impl Abort, alloc: Global, lns: &mut Tunnels, ns: u8) -> Result<(), Fail> {
    let mut icrq = hex::decode(alloc, ICRQ)?;
    assert_holds(rt, icrq.len() > 9);
    icrq[9] = ns;
    let mut call = Call::new(&None, SessionNo(1026));
    let step = passes(rt, lns, &came(PLAIN, 0), &mut call, icrq.as_slice())?;
    assert_holds(rt, step.outs.len() == 1 && step.left_out == (ns == 67));
    Ok(())
}

#[test]
fn a_call_whose_answer_is_left_out_is_acknowledged(rt: HostRuntime) -> Result<(), Fail> {
    let mut lns = established_of_one(&rt, rt.alloc())?;
    for ns in 2..68u8 {
        ask_for_call(&rt, rt.alloc(), &mut lns, ns)?;
    }
    Ok(())
}
