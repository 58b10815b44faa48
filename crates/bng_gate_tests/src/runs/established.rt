//! What comes to tunnels that are established, and how they end (RFC 2661 sections 5.5 to 5.8).
use super::authentication::stop;
use super::concentrator::{
    ICRP, ICRQ, OTHER, PLAIN, SCCCN, SCCCN_0801, SCCRP, SCCRP_0801, SCCRQ, STOPS, STOPS_0801,
    TUNNELS, ZLB_2, ZLB_4, serves, tells, then_come,
};
use super::logins::run_in as run_tunnels;
use super::{a_turn_later, assert_status, has};
use crate::asserts::assert_holds;
use bng_base::{Peer, Role};
use bng_plant::Arrival;
use std::alloc::Global;
use std::test::Fail;

/// The ICCN of session 0402, which there is not, as the fourth message, the StopCCN after its ZLB, and a PPP frame of that session.
const ICCN: &str =
    "c80200320401040200030002800800000000000c800a0000001800989680800a0000001300000001000a0000002600989680";

const STOPS_LAST: &str = "c80200240005000000020004800800000000000480080000000904018008000000010006";

const DATA: &str = "000204010402ff03c0210101000a050611223344";

/// A tunnel is set up and a call is asked for, then come an ICCN and data of a session that there is not; and what the peer is told.
const FOR_NO_CALL: &[(Peer, &str)] = &[
    (PLAIN, SCCRQ),
    (PLAIN, SCCCN),
    (PLAIN, ICRQ),
    (PLAIN, ICCN),
    (PLAIN, DATA),
];

const TOLD_OF_NO_CALL: &[(Peer, &str)] = &[
    (PLAIN, SCCRP),
    (PLAIN, ZLB_2),
    (PLAIN, ICRP),
    (PLAIN, ZLB_4),
    (PLAIN, STOPS_LAST),
];

#[test]
fn what_is_for_no_call_changes_nothing(rt: HostRuntime) -> Result<(), Fail> {
    let alloc = rt.alloc();
    serves(
        &rt,
        alloc,
        FOR_NO_CALL,
        TOLD_OF_NO_CALL,
        b"drop NoSession 1\n",
    )
}

/// Two tunnels are set up, and what their peers are told. Two octets are no message.
const TWO_TUNNELS: &[(Peer, &str)] = &[
    (PLAIN, SCCRQ),
    (OTHER, SCCRQ),
    (OTHER, "c802"),
    (OTHER, SCCCN_0801),
    (PLAIN, SCCCN),
];

const TOLD_OF_STOP: &[(Peer, &str)] = &[
    (PLAIN, SCCRP),
    (PLAIN, ZLB_2),
    (OTHER, SCCRP_0801),
    (OTHER, ZLB_2),
    (PLAIN, STOPS),
    (OTHER, STOPS_0801),
];

#[test]
fn each_tunnel_is_told_of_the_stop_once(rt: HostRuntime) -> Result<(), Fail> {
    let alloc = rt.alloc();
    serves(&rt, alloc, TWO_TUNNELS, TOLD_OF_STOP, b"drop Malformed 1\n")
}

/// The gateway's HELLO, and one of the peer, which is its third message.
const HELLO: &str = "c802001400050000000100028008000000000006";

const HELLO_OF_PEER: &str = "c802001404010000000200018008000000000006";

/// What a peer is told that falls silent once its tunnel is established.
const TOLD_TO_SILENT: &[(Peer, &str)] = &[
    (PLAIN, SCCRP),
    (PLAIN, ZLB_2),
    (PLAIN, HELLO),
    (PLAIN, HELLO),
    (PLAIN, HELLO),
    (PLAIN, HELLO),
    (PLAIN, HELLO),
    (PLAIN, HELLO),
];

const SETS_UP: &[(Peer, &str)] = &[(PLAIN, SCCRQ), (PLAIN, SCCCN)];

/// 60 s after the last message a HELLO goes out, and again after 1, 3, 7, 15 and 23 s more; 31 s after the first the tunnel is cleared. Then
/// comes a HELLO of the peer.
fn silence(alloc: Global) -> Result<Vec<Arrival>, Fail> {
    let mut script = Vec::new(alloc);
    then_come(alloc, &mut script, SETS_UP)?;
    let late = hex::decode(alloc, HELLO_OF_PEER)?;
    script.push(Arrival::new(Role::Tunnel, PLAIN, late.as_slice()).after(92))?;
    script.push(stop(0))?;
    Ok(script)
}

#[test]
fn a_tunnel_that_falls_silent_is_cleared(rt: HostRuntime) -> Result<(), Fail> {
    let alloc = rt.alloc();
    let ended = run_tunnels(&rt, alloc, TUNNELS, silence(alloc)?, 1000)?;
    assert_status(&rt, &ended, 0);
    assert_holds(&rt, has(ended.out.text(), b"drop NoSession 1\n"));
    tells(&rt, alloc, &ended, TOLD_TO_SILENT)
}

/// The peer's StopCCN for tunnel 0401 as its third message, and the ZLB for it.
const STOP_OF_PEER: &str =
    "c80200240401000000020001800800000000000480080000000900058008000000010001";

const ZLB_3: &str = "c802000c0005000000010003";

/// SCCRQs with the Assigned Tunnel IDs 6 and 7; for the first the SCCRP of tunnel 0402, and for the second that of tunnel 0401; the
/// SCCCN for 0402, and the ZLBs to 6 and 7; and the StopCCNs to 7 and 6.
pub(super) const SCCRQ_6: &str =
    "c8020038000000000000000080080000000000018008000000020100800a0000000300000003800a000000076c6163318008000000090006";

const SCCRQ_7: &str =
    "c8020038000000000000000080080000000000018008000000020100800a0000000300000003800a000000076c6163318008000000090007";

pub(super) const SCCRP_6: &str =
    "c8020040000600000000000180080000000000028008000000020100800a0000000300000003800a00000007626e6731800800000009040280080000000a0008";

const SCCRP_7: &str =
    "c8020040000700000000000180080000000000028008000000020100800a0000000300000003800a00000007626e6731800800000009040180080000000a0008";

const SCCCN_0402: &str = "c802001404020000000100018008000000000003";

const ZLB_6: &str = "c802000c0006000000010002";

const ZLB_7: &str = "c802000c0007000000010002";

const STOPS_7: &str = "c80200240007000000010002800800000000000480080000000904018008000000010006";

const STOPS_6: &str = "c80200240006000000010002800800000000000480080000000904028008000000010006";

/// The first tunnel comes and goes; the second comes, and then the third; and what their peer is told.
const FIRST: &[(Peer, &str)] = &[(PLAIN, SCCRQ), (PLAIN, SCCCN), (PLAIN, STOP_OF_PEER)];

const SECOND: &[(Peer, &str)] = &[(PLAIN, SCCRQ_6), (PLAIN, SCCCN_0402)];

const THIRD: &[(Peer, &str)] = &[(PLAIN, SCCRQ_7), (PLAIN, SCCCN)];

const TOLD_OF_THREE: &[(Peer, &str)] = &[
    (PLAIN, SCCRP),
    (PLAIN, ZLB_2),
    (PLAIN, ZLB_3),
    (PLAIN, SCCRP_6),
    (PLAIN, ZLB_6),
    (PLAIN, SCCRP_7),
    (PLAIN, ZLB_7),
    (PLAIN, STOPS_7),
    (PLAIN, STOPS_6),
];

/// The three tunnels, each in its turn, and then `stop`.
fn three_tunnels(alloc: Global) -> Result<Vec<Arrival>, Fail> {
    let mut script = Vec::new(alloc);
    then_come(alloc, &mut script, FIRST)?;
    script.push(a_turn_later())?;
    then_come(alloc, &mut script, SECOND)?;
    script.push(a_turn_later())?;
    then_come(alloc, &mut script, THIRD)?;
    script.push(stop(0))?;
    Ok(script)
}

#[test]
fn the_number_of_a_cleared_tunnel_rests_for_31_seconds(rt: HostRuntime) -> Result<(), Fail> {
    let alloc = rt.alloc();
    // At 31 s the first tunnel comes and goes. 15.5 s later its number rests, and 31 s later it is given again.
    let ended = run_tunnels(&rt, alloc, TUNNELS, three_tunnels(alloc)?, 15_500)?;
    assert_status(&rt, &ended, 0);
    tells(&rt, alloc, &ended, TOLD_OF_THREE)
}
