use super::{
    SCCCN, SCCCN_ANSWERS, SCCRP, SCCRQ, SCCRQ_ASKS, assert_answer, assert_outs, is_silent, outs,
    takes, tunnel,
};
use crate::asserts::assert_holds;
use bng_l2tp_tunnel::Tunnel;
use std::alloc::Global;
use std::process::Abort;
use std::test::Fail;

// a tunnel answers an SCCRQ by this StopCCN
fn refuse(
    rt: &impl Abort,
    alloc: Global,
    tunnel: &mut Tunnel,
    sccrq: &str,
    stop: &str,
) -> Result<(), Fail> {
    let step = takes(alloc, tunnel, sccrq, 0)?;
    assert_holds(rt, step.cleared && !step.established && !step.call);
    assert_eq!(rt; outs(alloc, &step)?.as_str(), stop, "{sccrq}");
    Ok(())
}

// the StopCCN that a tunnel of this number answers an SCCRQ by, which has no tunnel then
fn refuses(
    rt: &impl Abort,
    alloc: Global,
    mut tunnel: Tunnel,
    sccrq: &str,
    stop: &str,
) -> Result<(), Fail> {
    refuse(rt, alloc, &mut tunnel, sccrq, stop)?;
    assert_holds(rt, is_silent(alloc, &mut tunnel, sccrq)?);
    Ok(())
}

const STOP_4: &str = "c80200240005000000000001800800000000000480080000000900008008000000010004 ";

const STOP_5: &str = "c80200240005000000000001800800000000000480080000000900008008000000010005 ";

const STOP_2_8: &str =
    "c8020026000500000000000180080000000000048008000000090000800a0000000100020008 ";

const STOP_2_3: &str =
    "c8020026000500000000000180080000000000048008000000090000800a0000000100020003 ";

const STOP_2_4: &str =
    "c8020026000500000000000180080000000000048008000000090000800a0000000100020004 ";

// an SCCRQ with many faults, the same with Protocol Version 1.0, and that one without an AVP of type 40
const FAULTS: &str =
    "c802004d000000000000000080080000000000018008000000020101800a0000000300000003c00e000000076c6163316c616331800800000009000580070000002878800a0000000b01020304";

const UNKNOWN: &str =
    "c802004d000000000000000080080000000000018008000000020100800a0000000300000003c00e000000076c6163316c616331800800000009000580070000002878800a0000000b01020304";

const HIDDEN: &str =
    "c8020046000000000000000080080000000000018008000000020100800a0000000300000003c00e000000076c6163316c6163318008000000090005800a0000000b01020304";

// Whether the peer is known, an SCCRQ, and the StopCCN that it is answered by where there is no number for a tunnel.
const IN_ORDER: &[(bool, &str, &str)] = &[
    (false, FAULTS, STOP_4),
    (true, FAULTS, STOP_5),
    (true, UNKNOWN, STOP_2_8),
    (true, HIDDEN, STOP_2_3),
    (true, SCCRQ_ASKS, STOP_4),
    (true, SCCRQ, STOP_2_4),
];

// Each message has one fault less than the one before it, and is refused for the next in order.
#[test]
fn refusals_come_in_their_order(rt: HostRuntime) -> Result<(), Fail> {
    for (known, sccrq, stop) in IN_ORDER {
        refuses(&rt, rt.alloc(), tunnel(0, false, *known), sccrq, stop)?;
    }
    Ok(())
}

// Whether there is a secret, an SCCRQ, and the StopCCN that it is answered by, if one goes out.
const LACKING: &[(bool, &str, &str)] = &[
    // a hidden Host Name and no Random Vector, where there is a secret
    (
        true,
        "c802003c000000000000000080080000000000018008000000020100800a0000000300000003c00e000000076c6163316c6163318008000000090005",
        STOP_2_3,
    ),
    // Framing Capabilities of two octets, no Protocol Version, a reserved bit, no Assigned Tunnel ID, one of three octets
    (
        false,
        "c80200360000000000000000800800000000000180080000000201008008000000030003800a000000076c6163318008000000090005",
        STOP_2_3,
    ),
    (
        false,
        "c802003000000000000000008008000000000001800a0000000300000003800a000000076c6163318008000000090005",
        STOP_2_3,
    ),
    (
        false,
        "c802003f000000000000000080080000000000018008000000020100800a0000000300000003800a000000076c616331800800000009000584070000000878",
        STOP_2_8,
    ),
    (
        false,
        "c8020030000000000000000080080000000000018008000000020100800a0000000300000003800a000000076c616331",
        "",
    ),
    (
        false,
        "c8020039000000000000000080080000000000018008000000020100800a0000000300000003800a000000076c616331800900000009000005",
        "",
    ),
];

// an AVP of another vendor and one of type 40, neither of which must be known
const OPTIONAL: &str =
    "c8020046000000000000000080080000000000018008000000020100800a0000000300000003800a000000076c61633180080000000900050007000900017800070000002878";

#[test]
fn an_sccrq_without_what_it_must_have_is_refused(rt: HostRuntime) -> Result<(), Fail> {
    for (has_secret, sccrq, stop) in LACKING {
        let made = tunnel(0x0401, *has_secret, true);
        refuses(&rt, rt.alloc(), made, sccrq, stop)?;
    }
    let mut taken = tunnel(0x0401, false, true);
    assert_answer(&rt, rt.alloc(), &mut taken, OPTIONAL, 0, SCCRP)
}

const STOP_4_OF_1025: &str =
    "c80200240005000000010002800800000000000480080000000904018008000000010004 ";

const STOP_7_OF_1025: &str =
    "c80200240005000000010002800800000000000480080000000904018008000000010007 ";

// no answer, and one made for another message
const WRONG: &[&str] = &[
    SCCCN,
    "c802002a0401000000010001800800000000000380160000000d84556850d53985c00accdd7e925fdf39",
];

// a tunnel is cleared by a message, and sends this StopCCN
fn clear(
    rt: &impl Abort,
    alloc: Global,
    tunnel: &mut Tunnel,
    datagram: &str,
    stop: &str,
) -> Result<(), Fail> {
    let step = takes(alloc, tunnel, datagram, 0)?;
    assert_holds(rt, step.cleared && !step.established);
    assert_outs(rt, alloc, &step, stop)
}

// a tunnel with the secret is cleared by this SCCCN, and sends nothing at the right one
fn refuse_scccn(rt: &impl Abort, alloc: Global, scccn: &str) -> Result<(), Fail> {
    let mut asked = tunnel(0x0401, true, true);
    takes(alloc, &mut asked, SCCRQ_ASKS, 0)?;
    clear(rt, alloc, &mut asked, scccn, STOP_4_OF_1025)?;
    assert_holds(rt, is_silent(alloc, &mut asked, SCCCN_ANSWERS)?);
    Ok(())
}

// a HELLO before the SCCCN
const EARLY_HELLO: &str = "c802001404010000000100018008000000000006";

#[test]
fn a_tunnel_is_refused_over_its_channel(rt: HostRuntime) -> Result<(), Fail> {
    for scccn in WRONG {
        refuse_scccn(&rt, rt.alloc(), scccn)?;
    }
    let mut early = tunnel(0x0401, false, true);
    takes(rt.alloc(), &mut early, SCCRQ, 0)?;
    clear(&rt, rt.alloc(), &mut early, EARLY_HELLO, STOP_7_OF_1025)
}
