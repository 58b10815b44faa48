ghost use Rattle.std.specs.Prelude.{◌≤◌, length};

use super::{
    SCCCN, SCCRP, SCCRQ, assert_answer, assert_outs, established, take_both, takes, tunnel,
};
use crate::asserts::{assert_holds, assert_same};
use bng_base::TunnelStep;
use bng_l2tp_tunnel::Tunnel;
use std::alloc::Global;
use std::process::Abort;
use std::test::Fail;

// whether the timers of a tunnel send nothing at this moment
fn none_due(tunnel: &mut Tunnel, now: u64) -> bool {
    let step = tunnel.due(now);
    step.outs.is_empty()
}

// whether the timers of a tunnel clear it at this moment
fn is_cleared(tunnel: &mut Tunnel, now: u64) -> bool {
    let step = tunnel.due(now);
    step.cleared
}

// asserts what the timers of a tunnel send at this moment
fn assert_due(
    rt: &impl Abort,
    alloc: Global,
    tunnel: &mut Tunnel,
    now: u64,
    wanted: &str,
) -> Result<(), Fail> {
    let step = tunnel.due(now);
    assert_outs(rt, alloc, &step, wanted)
}

// when the SCCRP goes out again
const MOMENTS: &[u64] = &[1000, 3000, 7000, 15_000, 23_000];

// asserts that the SCCRP goes out again at this moment, and nothing a millisecond before
fn send_again(
    rt: &impl Abort,
    alloc: Global,
    tunnel: &mut Tunnel,
    moment: u64,
) -> Result<(), Fail> {
    assert_same(rt, &tunnel.deadline(), &moment);
    assert_holds(rt, none_due(tunnel, moment.saturating_sub(1)));
    assert_due(rt, alloc, tunnel, moment, SCCRP)
}

// asserts that the tunnel is cleared at 31 s and not before, and sends nothing later
fn give_up(rt: &impl Abort, tunnel: &mut Tunnel) {
    assert_holds(rt, !is_cleared(tunnel, 30_999));
    assert_holds(rt, is_cleared(tunnel, 31_000));
    assert_holds(rt, none_due(tunnel, 62_000));
}

// Nothing comes for 60 s. Then a HELLO goes out.
fn greet(rt: &impl Abort, alloc: Global) -> Result<(), Fail> {
    let mut greeted = established(alloc)?;
    assert_holds(rt, none_due(&mut greeted, 59_999));
    let hello = "c802001400050000000100028008000000000006 ";
    assert_due(rt, alloc, &mut greeted, 60_000, hello)
}

#[test]
fn timers_send_again_greet_and_give_up(rt: HostRuntime) -> Result<(), Fail> {
    let mut silent = tunnel(0x0401, false, true);
    takes(rt.alloc(), &mut silent, SCCRQ, 0)?;
    for moment in MOMENTS {
        send_again(&rt, rt.alloc(), &mut silent, *moment)?;
    }
    give_up(&rt, &mut silent);
    greet(&rt, rt.alloc())
}

// a CDN for session 3 of the peer
const CDN: &str = "c80200240000000300000000800800000000000e80080000000e00028008000000010003";

// sends the CDN at this moment
fn send(rt: &impl Abort, alloc: Global, tunnel: &mut Tunnel, now: u64) -> Result<TunnelStep, Fail> {
    let cdn = hex::decode(alloc, CDN)?;
    assert_holds(rt, cdn.len() <= 512);
    Ok(tunnel.send(cdn.as_slice(), now))
}

// the CDN goes out at the moment 5
fn send_at_once(rt: &impl Abort, alloc: Global, tunnel: &mut Tunnel) -> Result<(), Fail> {
    let step = send(rt, alloc, tunnel, 5)?;
    assert_holds(rt, !step.left_out);
    let sent = "c80200240005000300010002800800000000000e80080000000e00028008000000010003 ";
    assert_outs(rt, alloc, &step, sent)
}

// the gateway shuts down at the moment 6
fn stop(rt: &impl Abort, alloc: Global, tunnel: &mut Tunnel) -> Result<(), Fail> {
    let step = tunnel.stop(6);
    assert_holds(rt, step.cleared);
    let sent = "c80200240005000000020002800800000000000480080000000904018008000000010006 ";
    assert_outs(rt, alloc, &step, sent)
}

#[test]
fn a_calls_message_goes_out_and_the_last_is_one_stop_ccn(rt: HostRuntime) -> Result<(), Fail> {
    let mut tunnel = established(rt.alloc())?;
    send_at_once(&rt, rt.alloc(), &mut tunnel)?;
    stop(&rt, rt.alloc(), &mut tunnel)?;
    let again = tunnel.stop(7);
    assert_holds(&rt, again.outs.is_empty() && !again.cleared);
    Ok(())
}

// The peer takes one message before it acknowledges it.
const SCCRQ_OF_ONE: &str =
    "c8020040000000000000000080080000000000018008000000020100800a0000000300000003800a000000076c616331800800000009000580080000000a0001";

// asserts that the CDN waits
fn send_later(rt: &impl Abort, alloc: Global, tunnel: &mut Tunnel) -> Result<(), Fail> {
    let step = send(rt, alloc, tunnel, 0)?;
    assert_holds(rt, step.outs.is_empty() && !step.left_out);
    Ok(())
}

// a message goes out, 64 wait, and one is left out
fn fill(rt: &impl Abort, alloc: Global, tunnel: &mut Tunnel) -> Result<(), Fail> {
    assert_holds(rt, send(rt, alloc, tunnel, 0)?.outs.len() == 1);
    for _ in 0..64 {
        send_later(rt, alloc, tunnel)?;
    }
    assert_holds(rt, send(rt, alloc, tunnel, 0)?.left_out);
    Ok(())
}

// a ZLB that acknowledges the first, and a HELLO that acknowledges the second, with what goes out then
const ACKNOWLEDGED: &[(&str, &str)] = &[
    (
        "c802000c0401000000020002",
        "c80200240005000300020002800800000000000e80080000000e00028008000000010003 ",
    ),
    (
        "c802001404010000000200038008000000000006",
        "c80200240005000300030003800800000000000e80080000000e00028008000000010003 c802000c0005000000040003 ",
    ),
];

#[test]
fn the_window_holds_messages_back(rt: HostRuntime) -> Result<(), Fail> {
    let mut tunnel = tunnel(0x0401, false, true);
    take_both(rt.alloc(), &mut tunnel, SCCRQ_OF_ONE, SCCCN)?;
    fill(&rt, rt.alloc(), &mut tunnel)?;
    for (datagram, out) in ACKNOWLEDGED {
        assert_answer(&rt, rt.alloc(), &mut tunnel, datagram, 0, out)?;
    }
    // no StopCCN goes out while another message is in flight
    let stopped = tunnel.stop(0);
    assert_holds(&rt, stopped.cleared && stopped.outs.is_empty());
    Ok(())
}
