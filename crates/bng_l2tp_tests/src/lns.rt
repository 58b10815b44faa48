use crate::asserts::{assert_holds, assert_same};
use arrayvec::ArrayVec;
use bng_base::{Frame, Ip4, Lac, Peer, TunnelNo, TunnelStep};
use bng_l2tp_call::Call;
use bng_l2tp_wire::Control;
use bng_lns::{Came, MessageOutcome, TunnelOutcome, Tunnels};
use std::alloc::Global;
use std::process::Abort;
use std::test::Fail;

mod calls;
mod datagrams;
mod numbers;
mod timers;

// The gateway is `bng1`, and the tunnels are of shard 1, whose first number is 1025. The access concentrators are 10.0.0.1, without a
// secret, and 10.0.0.5 with the secret `xyzzy`. Digests are by RFC 2661 section 4.4.3 over Python's hashlib.

const PLAIN: Peer = Peer {
    ip: Ip4(0x0a00_0001),
    port: 1701,
};

const SECRET: Peer = Peer {
    ip: Ip4(0x0a00_0005),
    port: 1701,
};

// an SCCRQ of tunnel 5, and the same with the Challenge 01020304
const SCCRQ: &str =
    "c8020038000000000000000080080000000000018008000000020100800a0000000300000003800a000000076c6163318008000000090005";

const SCCRQ_ASKS: &str =
    "c8020042000000000000000080080000000000018008000000020100800a0000000300000003800a000000076c6163318008000000090005800a0000000b01020304";

const SCCRP: &str =
    "c8020040000500000000000180080000000000028008000000020100800a0000000300000003800a00000007626e6731800800000009040180080000000a0008 ";

const SCCRP_ASKS: &str =
    "c802006c000500000000000180080000000000028008000000020100800a0000000300000003800a00000007626e6731800800000009040180080000000a000880160000000b000102030405060708090a0b0c0d0e0f80160000000d6a2f6eee7ce939973b542d68b8355a6b ";

const SCCCN: &str = "c802001404010000000100018008000000000003";

const SCCCN_ANSWERS: &str =
    "c802002a0401000000010001800800000000000380160000000d4d7866b7dd1e24422b8bb654d98b43e1";

// an ICRQ of session 9, and the ICCN of the gateway's session 1026
const ICRQ: &str =
    "c80200300401000000020001800800000000000a80080000000e0009800a0000000f00000001800a0000001200000000";

const ICCN: &str =
    "c80200320401040200030002800800000000000c800a0000001800989680800a0000001300000001000a0000002600989680";

const STOP_CCN: &str = "c80200240401000000020001800800000000000480080000000900058008000000010001";

fn text(octets: &[u8]) -> ArrayVec<u8, 64> {
    let mut text = ArrayVec::new();
    for octet in octets {
        if !text.is_full() {
            text.push(*octet);
        }
    }
    text
}

fn lacs() -> [Lac; 2] {
    [
        Lac {
            ip: PLAIN.ip,
            secret: None,
        },
        Lac {
            ip: SECRET.ip,
            secret: Some(text(b"xyzzy")),
        },
    ]
}

const RANDOM: [u8; 16] = [0, 1, 2, 3, 4, 5, 6, 7, 8, 9, 10, 11, 12, 13, 14, 15];

fn came(from: Peer, moment: u64) -> Came {
    Came {
        from,
        random: RANDOM,
        moment,
    }
}

// what becomes of a message
fn hears(lns: &mut Tunnels, came: &Came, octets: &[u8]) -> Result<MessageOutcome, Fail> {
    let message = Control::read(octets)?;
    Ok(lns.hear(&text(b"bng1"), &lacs(), came, &message))
}

// puts a datagram and a space behind a text
fn put_datagram(alloc: Global, text: &mut String, frame: &Frame) -> Result<(), Fail> {
    let datagram = hex::encode(alloc, frame.payload())?;
    text.push_str(datagram.as_str())?;
    text.push_str(" ")?;
    Ok(())
}

// the datagrams of a step, each with a space after it
fn outs(alloc: Global, step: &TunnelStep) -> Result<String, Fail> {
    let mut text = String::new(alloc);
    for frame in step.outs.as_slice() {
        put_datagram(alloc, &mut text, frame)?;
    }
    Ok(text)
}

// asserts the datagrams of a step
fn assert_outs(
    rt: &impl Abort,
    alloc: Global,
    step: &TunnelStep,
    wanted: &str,
) -> Result<(), Fail> {
    let text = outs(alloc, step)?;
    assert_same(rt, &text.as_str(), &wanted);
    Ok(())
}

// what becomes of a message in hexadecimal digits
fn hears_datagram(
    alloc: Global,
    lns: &mut Tunnels,
    came: &Came,
    datagram: &str,
) -> Result<MessageOutcome, Fail> {
    let octets = hex::decode(alloc, datagram)?;
    hears(lns, came, octets.as_slice())
}

// the number of the tunnel that took a message, and its step
fn step_of(rt: &impl Abort, taken: MessageOutcome) -> (TunnelNo, TunnelStep) {
    match taken {
        MessageOutcome::Step { number, step } => (number, step),
        MessageOutcome::Unknown | MessageOutcome::Ignored => {
            assert_holds(rt, false);
            unreachable!()
        }
    }
}

// the number of the tunnel that took a message
fn number_in(taken: &MessageOutcome) -> Option<u16> {
    match taken {
        MessageOutcome::Step { number, .. } => Some(number.0),
        MessageOutcome::Unknown | MessageOutcome::Ignored => None,
    }
}

// the number of the tunnel that takes a message, and what goes out
fn takes(
    rt: &impl Abort,
    alloc: Global,
    lns: &mut Tunnels,
    came: &Came,
    datagram: &str,
) -> Result<(TunnelNo, String), Fail> {
    let (number, step) = step_of(rt, hears_datagram(alloc, lns, came, datagram)?);
    Ok((number, outs(alloc, &step)?))
}

// asserts what goes out where a tunnel takes a message
fn assert_answer(
    rt: &impl Abort,
    alloc: Global,
    lns: &mut Tunnels,
    came: &Came,
    datagram: &str,
    wanted: &str,
) -> Result<(), Fail> {
    let (_, text) = takes(rt, alloc, lns, came, datagram)?;
    assert_same(rt, &text.as_str(), &wanted);
    Ok(())
}

// asserts that tunnel 1025 takes a message, and what goes out
fn assert_first(
    rt: &impl Abort,
    alloc: Global,
    lns: &mut Tunnels,
    came: &Came,
    datagram: &str,
    wanted: &str,
) -> Result<(), Fail> {
    let (number, text) = takes(rt, alloc, lns, came, datagram)?;
    assert_holds(rt, number.0 == 1025);
    assert_same(rt, &text.as_str(), &wanted);
    Ok(())
}

// what goes out over the tunnel where this call takes a message
fn passes(
    rt: &impl Abort,
    lns: &mut Tunnels,
    came: &Came,
    call: &mut Call,
    octets: &[u8],
) -> Result<TunnelStep, Fail> {
    let message = Control::read(octets)?;
    match lns.hear(&text(b"bng1"), &lacs(), came, &message) {
        MessageOutcome::Step { number, step } => {
            assert_holds(rt, step.call);
            Ok(lns.answer(number, step, call, &message, came.moment))
        }
        MessageOutcome::Unknown | MessageOutcome::Ignored => {
            assert_holds(rt, false);
            unreachable!()
        }
    }
}

// what goes out over the tunnel where this call takes a message in hexadecimal digits
fn passes_datagram(
    rt: &impl Abort,
    alloc: Global,
    lns: &mut Tunnels,
    came: &Came,
    call: &mut Call,
    datagram: &str,
) -> Result<TunnelStep, Fail> {
    let octets = hex::decode(alloc, datagram)?;
    passes(rt, lns, came, call, octets.as_slice())
}

// a shard's tunnels, of which one of the peer without a secret is established
fn established(rt: &impl Abort, alloc: Global) -> Result<Tunnels, Fail> {
    let mut lns = Tunnels::open(alloc, 1)?;
    takes(rt, alloc, &mut lns, &came(PLAIN, 0), SCCRQ)?;
    takes(rt, alloc, &mut lns, &came(PLAIN, 0), SCCCN)?;
    Ok(lns)
}

// what becomes of an SCCRQ of the tunnel of this Assigned Tunnel ID, of the peer without a secret
fn asks(
    rt: &impl Abort,
    alloc: Global,
    lns: &mut Tunnels,
    id: u8,
    moment: u64,
) -> Result<MessageOutcome, Fail> {
    let mut sccrq = hex::decode(alloc, SCCRQ)?;
    assert_holds(rt, sccrq.len() == 56);
    sccrq[55] = id;
    hears(lns, &came(PLAIN, moment), sccrq.as_slice())
}

// Whether a message is for no tunnel of its peer.
fn is_unknown(taken: &MessageOutcome) -> bool {
    matches!(taken, MessageOutcome::Unknown)
}

// the octets that a tunnel tells of its own
fn told(alloc: Global, told: Option<TunnelOutcome>) -> Result<String, Fail> {
    match told {
        Some(told) => outs(alloc, &told.step),
        None => Ok(String::new(alloc)),
    }
}
