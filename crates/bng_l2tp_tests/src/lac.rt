use crate::asserts::{assert_holds, assert_same};
use arrayvec::ArrayVec;
use bng_base::{Ip4, Peer, TunnelNo, TunnelStep};
use bng_l2tp_wire::Control;
use bng_lac::{LacRules, LacTunnel};
use std::alloc::Global;
use std::process::Abort;
use std::test::Fail;

mod refusals;
mod tunnels;

// The gateway is `bng1` and its tunnel 1025. The network server is `lns1`, its tunnel 7, and the secret `xyzzy`. Digests are by RFC 2661
// section 4.4.3 over Python's hashlib.

const LNS: Peer = Peer {
    ip: Ip4(0x0a00_0007),
    port: 1701,
};

const RANDOM: [u8; 16] = [0, 1, 2, 3, 4, 5, 6, 7, 8, 9, 10, 11, 12, 13, 14, 15];

const SCCRQ: &str =
    "c8020040000000000000000080080000000000018008000000020100800a0000000300000003800a00000007626e6731800800000009040180080000000a0008 ";

// an SCCRP of a server that takes eight messages
const SCCRP: &str =
    "c8020040040100000000000180080000000000028008000000020100800a0000000300000003800a000000076c6e7331800800000009000780080000000a0008";

const SCCCN: &str = "c802001400070000000100018008000000000003 ";

fn text(octets: &[u8]) -> ArrayVec<u8, 64> {
    let mut text = ArrayVec::new();
    for octet in octets {
        if !text.is_full() {
            text.push(*octet);
        }
    }
    text
}

// a tunnel of the gateway, which is opened at the moment 0
fn opened(rt: &impl Abort, alloc: Global, has_secret: bool) -> Result<LacTunnel, Fail> {
    let secret = if has_secret {
        Some(text(b"xyzzy"))
    } else {
        None
    };
    let rules = LacRules {
        name: text(b"bng1"),
        secret,
    };
    let mut lac = LacTunnel::new(alloc, &rules)?;
    assert_holds(rt, !lac.used());
    lac.open(LNS, TunnelNo(1025), &RANDOM, 0);
    assert_holds(rt, lac.used());
    Ok(lac)
}

// the datagrams of a step, each with a space after it
fn outs(alloc: Global, step: &TunnelStep) -> Result<String, Fail> {
    let mut text = String::new(alloc);
    for frame in step.outs.as_slice() {
        let datagram = hex::encode(alloc, frame.payload())?;
        text.push_str(datagram.as_str())?;
        text.push_str(" ")?;
    }
    Ok(text)
}

// asserts the datagrams of a step
fn assert_outs(
    rt: &impl Abort,
    alloc: Global,
    step: &TunnelStep,
    wanted: &str,
) -> Result<(), Fail> {
    let text = outs(alloc, step)?;
    assert_same(rt, &text.as_str(), &wanted);
    Ok(())
}

// the step of a tunnel that is in use at a datagram
fn takes(
    rt: &impl Abort,
    alloc: Global,
    lac: &mut LacTunnel,
    datagram: &str,
) -> Result<TunnelStep, Fail> {
    let octets = hex::decode(alloc, datagram)?;
    let message = Control::read(octets.as_slice())?;
    assert_holds(rt, lac.used());
    Ok(lac.on_message(&message, &RANDOM, 0))
}

// asserts what goes out where the tunnel takes a datagram
fn assert_answer(
    rt: &impl Abort,
    alloc: Global,
    lac: &mut LacTunnel,
    datagram: &str,
    wanted: &str,
) -> Result<TunnelStep, Fail> {
    let step = takes(rt, alloc, lac, datagram)?;
    assert_outs(rt, alloc, &step, wanted)?;
    Ok(step)
}

// asserts what the timers of a tunnel that is in use send at this moment
fn assert_due(
    rt: &impl Abort,
    alloc: Global,
    lac: &mut LacTunnel,
    now: u64,
    wanted: &str,
) -> Result<(), Fail> {
    assert_holds(rt, lac.used());
    let step = lac.due(now);
    assert_outs(rt, alloc, &step, wanted)
}
