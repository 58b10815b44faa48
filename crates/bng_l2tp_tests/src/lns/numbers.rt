use super::{
    PLAIN, SCCCN, SCCRP, SCCRQ, SECRET, STOP_CCN, asks, assert_answer, assert_first, assert_outs,
    came, established, hears_datagram, is_unknown, number_in, step_of, takes,
};
use crate::asserts::{assert_holds, assert_same};
use bng_base::{Ip4, Peer, TunnelNo};
use bng_lns::{MessageOutcome, Tunnels};
use std::alloc::Global;
use std::process::Abort;
use std::test::Fail;

// asserts that an SCCRQ makes no tunnel, and is answered by this StopCCN
fn assert_refused(
    rt: &impl Abort,
    alloc: Global,
    lns: &mut Tunnels,
    from: Peer,
    sccrq: &str,
    stop: &str,
) -> Result<(), Fail> {
    let (number, text) = takes(rt, alloc, lns, &came(from, 0), sccrq)?;
    assert_holds(rt, number.0 == 0);
    assert_same(rt, &text.as_str(), &stop);
    Ok(())
}

const HIDDEN: &str =
    "c802003c000000000000000080080000000000018008000000020100800a0000000300000003c00e000000076c6163316c6163318008000000090005";

const STOP_2_3: &str =
    "c8020026000500000000000180080000000000048008000000090000800a0000000100020003 ";

const STOP_4: &str = "c80200240005000000000001800800000000000480080000000900008008000000010004 ";

// an address that is not configured: StopCCN 4
const OTHER: Peer = Peer {
    ip: Ip4(0x0a00_0009),
    port: 1701,
};

// A hidden Host Name and no Random Vector: the SCCRQ is refused, and its number is given to the next.
#[test]
fn a_refused_request_makes_no_tunnel(rt: HostRuntime) -> Result<(), Fail> {
    let alloc = rt.alloc();
    let mut lns = Tunnels::open(alloc, 1)?;
    assert_refused(&rt, alloc, &mut lns, SECRET, HIDDEN, STOP_2_3)?;
    assert_first(&rt, alloc, &mut lns, &came(PLAIN, 0), SCCRQ, SCCRP)?;
    assert_refused(&rt, alloc, &mut lns, OTHER, SCCRQ, STOP_4)
}

// another port of the peer without a secret
const OTHER_PORT: Peer = Peer {
    ip: Ip4(0x0a00_0001),
    port: 1702,
};

// asserts that the SCCRQ of this peer at this moment makes tunnel 1026
fn assert_second(
    rt: &impl Abort,
    alloc: Global,
    lns: &mut Tunnels,
    from: Peer,
    moment: u64,
) -> Result<(), Fail> {
    let (number, _) = takes(rt, alloc, lns, &came(from, moment), SCCRQ)?;
    assert_holds(rt, number.0 == 1026);
    Ok(())
}

// asserts that a message of this peer at this moment is for no tunnel of it
fn assert_unknown(
    rt: &impl Abort,
    alloc: Global,
    lns: &mut Tunnels,
    from: Peer,
    moment: u64,
    datagram: &str,
) -> Result<(), Fail> {
    let taken = hears_datagram(alloc, lns, &came(from, moment), datagram)?;
    assert_holds(rt, is_unknown(&taken));
    Ok(())
}

// no Tunnel ID, and no SCCRQ
fn assert_passed(rt: &impl Abort, alloc: Global, lns: &mut Tunnels) -> Result<(), Fail> {
    let none = "c802001400000000000100018008000000000003";
    let taken = hears_datagram(alloc, lns, &came(PLAIN, 0), none)?;
    assert_holds(rt, matches!(taken, MessageOutcome::Ignored));
    Ok(())
}

const PAST: &str = "c802001404110000000100018008000000000003";

// whether there is tunnel 1025, and no tunnel 1027
fn are_two(lns: &Tunnels) -> bool {
    lns.get(TunnelNo(1025)).is_some() && lns.get(TunnelNo(1027)).is_none()
}

#[test]
fn tunnels_are_told_apart_by_their_peers(rt: HostRuntime) -> Result<(), Fail> {
    let alloc = rt.alloc();
    let mut lns = established(&rt, alloc)?;
    // the same Assigned Tunnel ID of another port
    assert_second(&rt, alloc, &mut lns, OTHER_PORT, 0)?;
    // tunnel 1025 is of another peer, and no tunnel has the number 1041
    assert_unknown(&rt, alloc, &mut lns, OTHER_PORT, 0, SCCCN)?;
    assert_unknown(&rt, alloc, &mut lns, PLAIN, 0, PAST)?;
    assert_passed(&rt, alloc, &mut lns)?;
    assert_holds(&rt, are_two(&lns));
    Ok(())
}

// asserts that an SCCRQ with this Assigned Tunnel ID at this moment makes the tunnel of this number
fn assert_made(
    rt: &impl Abort,
    alloc: Global,
    lns: &mut Tunnels,
    id: u8,
    moment: u64,
    number: u16,
) -> Result<(), Fail> {
    let taken = asks(rt, alloc, lns, id, moment)?;
    assert_holds(rt, number_in(&taken) == Some(number));
    Ok(())
}

// the SCCRQ of a seventeenth tunnel is refused
fn ask_for_seventeenth(rt: &impl Abort, alloc: Global, lns: &mut Tunnels) -> Result<(), Fail> {
    let (number, step) = step_of(rt, asks(rt, alloc, lns, 17, 0)?);
    assert_holds(rt, number.0 == 0 && step.cleared);
    let stop = "c8020026001100000000000180080000000000048008000000090000800a0000000100020004 ";
    assert_outs(rt, alloc, &step, stop)
}

#[test]
fn a_shard_has_sixteen_tunnels(rt: HostRuntime) -> Result<(), Fail> {
    let mut lns = Tunnels::open(rt.alloc(), 1)?;
    for id in 1..17u8 {
        let wanted = 1024 + u16::from(id);
        assert_made(&rt, rt.alloc(), &mut lns, id, 0, wanted)?;
    }
    ask_for_seventeenth(&rt, rt.alloc(), &mut lns)
}

// the StopCCN clears tunnel 1025 at the moment 1000
fn clear(rt: &impl Abort, alloc: Global, lns: &mut Tunnels) -> Result<(), Fail> {
    let zlb = "c802000c0005000000010003 ";
    assert_answer(rt, alloc, lns, &came(PLAIN, 1000), STOP_CCN, zlb)?;
    assert_holds(rt, lns.get(TunnelNo(1025)).is_none());
    Ok(())
}

#[test]
fn a_number_rests_for_31_seconds(rt: HostRuntime) -> Result<(), Fail> {
    let alloc = rt.alloc();
    let mut lns = established(&rt, alloc)?;
    clear(&rt, alloc, &mut lns)?;
    // The tunnel is not known any more, nor is the StopCCN when it comes again.
    assert_unknown(&rt, alloc, &mut lns, PLAIN, 1001, STOP_CCN)?;
    assert_second(&rt, alloc, &mut lns, PLAIN, 31_999)?;
    assert_made(&rt, alloc, &mut lns, 6, 32_000, 1025)
}
