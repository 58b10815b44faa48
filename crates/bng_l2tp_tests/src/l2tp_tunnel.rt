use crate::asserts::{assert_holds, assert_same};
use arrayvec::ArrayVec;
use bng_base::{Frame, Ip4, Peer, TunnelNo, TunnelStep};
use bng_l2tp_tunnel::{Tunnel, TunnelRules};
use bng_l2tp_wire::values::{assigned_tunnel, message_type};
use bng_l2tp_wire::{Control, message};
use std::alloc::Global;
use std::process::Abort;
use std::test::Fail;

mod refusals;
mod sends;

// Digests and hidden values below are by RFC 2661 sections 4.3 and 4.4.3 over Python's hashlib, with the secret `xyzzy`.

// an SCCRQ of tunnel 5, and the same with the Challenge 01020304
const SCCRQ: &str =
    "c8020038000000000000000080080000000000018008000000020100800a0000000300000003800a000000076c6163318008000000090005";

const SCCRQ_ASKS: &str =
    "c8020042000000000000000080080000000000018008000000020100800a0000000300000003800a000000076c6163318008000000090005800a0000000b01020304";

// the SCCRP of tunnel 1025 to each of them, without a secret and with it; the second has a Challenge and a Challenge Response
const SCCRP: &str =
    "c8020040000500000000000180080000000000028008000000020100800a0000000300000003800a00000007626e6731800800000009040180080000000a0008 ";

const SCCRP_ASKS: &str =
    "c802006c000500000000000180080000000000028008000000020100800a0000000300000003800a00000007626e6731800800000009040180080000000a000880160000000b000102030405060708090a0b0c0d0e0f80160000000d6a2f6eee7ce939973b542d68b8355a6b ";

// an SCCCN, and one with the answer to the Challenge
const SCCCN: &str = "c802001404010000000100018008000000000003";

const SCCCN_ANSWERS: &str =
    "c802002a0401000000010001800800000000000380160000000d4d7866b7dd1e24422b8bb654d98b43e1";

// what acknowledges the second message of the peer, and the third
const ZLB_2: &str = "c802000c0005000000010002 ";

const ZLB_3: &str = "c802000c0005000000010003 ";

const HELLO: &str = "c802001404010000000200018008000000000006";

fn text(octets: &[u8]) -> ArrayVec<u8, 64> {
    let mut text = ArrayVec::new();
    for octet in octets {
        if !text.is_full() {
            text.push(*octet);
        }
    }
    text
}

fn rules(has_secret: bool, known: bool) -> TunnelRules {
    let secret = if has_secret {
        Some(text(b"xyzzy"))
    } else {
        None
    };
    TunnelRules {
        name: text(b"bng1"),
        secret,
        known,
    }
}

const PEER: Peer = Peer {
    ip: Ip4(0x0a00_0001),
    port: 1701,
};

// a tunnel of a gateway bng1
fn tunnel(number: u16, has_secret: bool, known: bool) -> Tunnel {
    Tunnel::new(&rules(has_secret, known), TunnelNo(number), PEER, 0)
}

const RANDOM: [u8; 16] = [0, 1, 2, 3, 4, 5, 6, 7, 8, 9, 10, 11, 12, 13, 14, 15];

// the step of a tunnel at a datagram
fn takes(alloc: Global, tunnel: &mut Tunnel, datagram: &str, now: u64) -> Result<TunnelStep, Fail> {
    let bytes = hex::decode(alloc, datagram)?;
    let message = Control::read(bytes.as_slice())?;
    Ok(tunnel.on_message(&message, &RANDOM, now))
}

// puts a datagram and a space behind a text
fn put_datagram(alloc: Global, text: &mut String, frame: &Frame) -> Result<(), Fail> {
    let datagram = hex::encode(alloc, frame.payload())?;
    text.push_str(datagram.as_str())?;
    text.push_str(" ")?;
    Ok(())
}

// the datagrams of a step, each with a space after it
fn outs(alloc: Global, step: &TunnelStep) -> Result<String, Fail> {
    let mut text = String::new(alloc);
    for frame in step.outs.as_slice() {
        put_datagram(alloc, &mut text, frame)?;
    }
    Ok(text)
}

// asserts the datagrams of a step
fn assert_outs(
    rt: &impl Abort,
    alloc: Global,
    step: &TunnelStep,
    wanted: &str,
) -> Result<(), Fail> {
    let text = outs(alloc, step)?;
    assert_same(rt, &text.as_str(), &wanted);
    Ok(())
}

// asserts the datagrams of the step of a tunnel at a datagram
fn assert_answer(
    rt: &impl Abort,
    alloc: Global,
    tunnel: &mut Tunnel,
    datagram: &str,
    now: u64,
    wanted: &str,
) -> Result<(), Fail> {
    let step = takes(alloc, tunnel, datagram, now)?;
    assert_outs(rt, alloc, &step, wanted)
}

// whether a tunnel sends nothing at a datagram at the moment 0
fn is_silent(alloc: Global, tunnel: &mut Tunnel, datagram: &str) -> Result<bool, Fail> {
    let step = takes(alloc, tunnel, datagram, 0)?;
    Ok(step.outs.is_empty())
}

// takes these datagrams at the moment 0
fn take_both(alloc: Global, tunnel: &mut Tunnel, first: &str, second: &str) -> Result<(), Fail> {
    takes(alloc, tunnel, first, 0)?;
    takes(alloc, tunnel, second, 0)?;
    Ok(())
}

// established without a secret
fn established(alloc: Global) -> Result<Tunnel, Fail> {
    let mut made = tunnel(0x0401, false, true);
    take_both(alloc, &mut made, SCCRQ, SCCCN)?;
    Ok(made)
}

// what acknowledges the first message of the peer
const ZLB_1: &str = "c802000c0005000000010001 ";

// the SCCRQ with the Challenge comes at the moment 0, and again at 1
fn ask_twice(rt: &impl Abort, alloc: Global, tunnel: &mut Tunnel) -> Result<(), Fail> {
    let first = takes(alloc, tunnel, SCCRQ_ASKS, 0)?;
    assert_holds(rt, !first.established && !first.cleared && !first.left_out);
    assert_outs(rt, alloc, &first, SCCRP_ASKS)?;
    assert_holds(rt, tunnel.peer_number() == Some(5));
    assert_answer(rt, alloc, tunnel, SCCRQ_ASKS, 1, ZLB_1)
}

// the SCCCN with the answer comes at this moment: asserts whether the tunnel comes to be established by it, and what goes out
fn connect(
    rt: &impl Abort,
    alloc: Global,
    tunnel: &mut Tunnel,
    now: u64,
    established: bool,
) -> Result<(), Fail> {
    let step = takes(alloc, tunnel, SCCCN_ANSWERS, now)?;
    assert_holds(rt, step.established == established && !step.cleared);
    assert_outs(rt, alloc, &step, ZLB_2)
}

#[test]
fn messages_that_come_twice_make_one_tunnel(rt: HostRuntime) -> Result<(), Fail> {
    let mut tunnel = tunnel(0x0401, true, true);
    assert_holds(&rt, tunnel.peer_number().is_none());
    ask_twice(&rt, rt.alloc(), &mut tunnel)?;
    connect(&rt, rt.alloc(), &mut tunnel, 2, true)?;
    connect(&rt, rt.alloc(), &mut tunnel, 3, false)
}

// the SCCCN without an answer comes, and the tunnel is established
fn connect_plainly(rt: &impl Abort, alloc: Global, tunnel: &mut Tunnel) -> Result<(), Fail> {
    let second = takes(alloc, tunnel, SCCCN, 0)?;
    assert_holds(rt, second.established);
    assert_outs(rt, alloc, &second, ZLB_2)
}

// asserts that a tunnel sends nothing at a datagram, and is not cleared
fn assert_quiet(
    rt: &impl Abort,
    alloc: Global,
    tunnel: &mut Tunnel,
    datagram: &str,
) -> Result<(), Fail> {
    let step = takes(alloc, tunnel, datagram, 0)?;
    assert_holds(rt, step.outs.is_empty() && !step.cleared);
    Ok(())
}

// a ZLB, and a message ahead of the next
const QUIET: &[&str] = &[
    "c802000c0401000000030001",
    "c802001404010000000900018008000000000006",
];

#[test]
fn a_tunnel_without_a_secret_asks_for_no_answer(rt: HostRuntime) -> Result<(), Fail> {
    let mut tunnel = tunnel(0x0401, false, true);
    assert_answer(&rt, rt.alloc(), &mut tunnel, SCCRQ, 0, SCCRP)?;
    connect_plainly(&rt, rt.alloc(), &mut tunnel)?;
    assert_answer(&rt, rt.alloc(), &mut tunnel, HELLO, 0, ZLB_3)?;
    for quiet in QUIET {
        assert_quiet(&rt, rt.alloc(), &mut tunnel, quiet)?;
    }
    Ok(())
}

const HIDDEN_VALUES: &str =
    "c802006c0000000000000000800800000000000180080000000201008008000000247a7a800800000024aabbc00c000000032cacdb3404d7c01f0000000725f0e799060a611e0fae631b6a1591ae0d8d4ea60b1ee37974800b000000246c61746572c00a00000009df5e0cb2";

// the SCCRQ is taken by a tunnel with the secret
fn take_hidden(rt: &impl Abort, alloc: Global) -> Result<(), Fail> {
    let mut tunnel = tunnel(0x0401, true, true);
    let step = takes(alloc, &mut tunnel, HIDDEN_VALUES, 0)?;
    assert_holds(rt, !step.cleared && tunnel.peer_number() == Some(5));
    Ok(())
}

// asserts that this is an SCCRQ of tunnel 5, which is read with the secret alone
fn assert_assigned(rt: &impl Abort, message: &Control<'_>) {
    assert_holds(rt, message_type(message) == Some(message::SCCRQ));
    assert_holds(
        rt,
        assigned_tunnel(message, &Some(text(b"xyzzy"))) == Some(5),
    );
    assert_holds(rt, assigned_tunnel(message, &None) == None);
}

// Framing Capabilities and the Host Name are hidden under the second of two Random Vectors, the Assigned Tunnel ID under a third.
#[test]
fn hidden_values_are_read_with_the_last_random_vector(rt: HostRuntime) -> Result<(), Fail> {
    take_hidden(&rt, rt.alloc())?;
    let bytes = hex::decode(rt.alloc(), HIDDEN_VALUES)?;
    let message = Control::read(bytes.as_slice())?;
    assert_assigned(&rt, &message);
    Ok(())
}

// an ICRQ of session 9
const ICRQ: &str = "c80200260401000000020001800800000000000a80080000000e0009800a0000000f00000001";

// a tunnel takes the ICRQ, which is a call's
fn hand_over(rt: &impl Abort, alloc: Global, tunnel: &mut Tunnel) -> Result<(), Fail> {
    let step = takes(alloc, tunnel, ICRQ, 0)?;
    assert_holds(rt, step.call && !step.ended && !step.cleared);
    assert_holds(rt, step.outs.is_empty());
    Ok(())
}

// asserts that a tunnel stands without a secret, and the ZLB that it would send
fn assert_standing(rt: &impl Abort, alloc: Global, tunnel: &Tunnel) -> Result<(), Fail> {
    let zlb = hex::encode(alloc, tunnel.acknowledge().payload())?;
    assert_same(rt, &zlb.as_str(), &"c802000c0005000000010003");
    assert_holds(rt, tunnel.is_standing() && tunnel.secret().is_none());
    Ok(())
}

const STOP_CCN: &str = "c80200240401000000020001800800000000000480080000000900058008000000010001";

// a tunnel is cleared by the StopCCN, and sends nothing where that comes again
fn clear(rt: &impl Abort, alloc: Global, tunnel: &mut Tunnel) -> Result<(), Fail> {
    let step = takes(alloc, tunnel, STOP_CCN, 0)?;
    assert_holds(rt, step.cleared && !step.call);
    assert_outs(rt, alloc, &step, ZLB_3)?;
    assert_holds(rt, is_silent(alloc, tunnel, STOP_CCN)?);
    Ok(())
}

#[test]
fn a_stop_ccn_clears_and_a_call_is_handed_over(rt: HostRuntime) -> Result<(), Fail> {
    let mut tunnel = established(rt.alloc())?;
    hand_over(&rt, rt.alloc(), &mut tunnel)?;
    assert_standing(&rt, rt.alloc(), &tunnel)?;
    let mut tunnel = established(rt.alloc())?;
    clear(&rt, rt.alloc(), &mut tunnel)
}
