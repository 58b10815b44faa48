use super::{SCCRP, SCCRQ, assert_answer, assert_due, opened, takes};
use crate::asserts::assert_holds;
use bng_base::SessionNo;
use bng_lac::{CALLS_MOST, LacTunnel};
use std::alloc::Global;
use std::process::Abort;
use std::test::Fail;

// Whether there is a secret, the server's first message, what the gateway answers, and whether the tunnel is established then. Each SCCRP of
// the first four has one fault less than the one before it.
const FIRST_MESSAGES: &[(bool, &str, &str, bool)] = &[
    (
        false,
        "c8020049040100000000000180080000000000028008000000020101800a0000000300000003800a000000076c6e7331800800000009000780070000002878800a0000000b01020304",
        "c80200240007000000010001800800000000000480080000000904018008000000010005 ",
        false,
    ),
    (
        false,
        "c8020049040100000000000180080000000000028008000000020100800a0000000300000003800a000000076c6e7331800800000009000780070000002878800a0000000b01020304",
        "c8020026000700000001000180080000000000048008000000090401800a0000000100020008 ",
        false,
    ),
    (
        false,
        "c80200400401000000000001800800000000000280080000000201008008000000030003800a000000076c6e73318008000000090007800a0000000b01020304",
        "c8020026000700000001000180080000000000048008000000090401800a0000000100020003 ",
        false,
    ),
    (
        false,
        "c8020042040100000000000180080000000000028008000000020100800a0000000300000003800a000000076c6e73318008000000090007800a0000000b01020304",
        "c80200240007000000010001800800000000000480080000000904018008000000010004 ",
        false,
    ),
    // the Challenge of the SCCRQ is not answered
    (
        true,
        SCCRP,
        "c80200240007000000010001800800000000000480080000000904018008000000010004 ",
        false,
    ),
    // it is, and the server's is too
    (
        true,
        "c8020058040100000000000180080000000000028008000000020100800a0000000300000003800a000000076c6e73318008000000090007800a0000000b0102030480160000000d84556850d53985c00accdd7e925fdf39",
        "c802002a0007000000010001800800000000000380160000000da09843dd6a7842d3d7f2d49d57417181 ",
        true,
    ),
    // a HELLO before the SCCRP
    (
        false,
        "c802001404010000000000018008000000000006",
        "c80200240000000000010001800800000000000480080000000904018008000000010007 ",
        false,
    ),
    // a StopCCN of the server
    (
        false,
        "c80200240401000000000001800800000000000480080000000900078008000000010001",
        "c802000c0007000000010001 ",
        false,
    ),
];

const SCCRQ_ASKS: &str =
    "c8020056000000000000000080080000000000018008000000020100800a0000000300000003800a00000007626e6731800800000009040180080000000a000880160000000b000102030405060708090a0b0c0d0e0f ";

// the gateway's answer to the server's first message
fn answers_first(
    rt: &impl Abort,
    alloc: Global,
    has_secret: bool,
    datagram: &str,
    wanted: &str,
    established: bool,
) -> Result<(), Fail> {
    let mut lac = opened(rt, alloc, has_secret)?;
    assert_due(
        rt,
        alloc,
        &mut lac,
        0,
        if has_secret { SCCRQ_ASKS } else { SCCRQ },
    )?;
    let step = assert_answer(rt, alloc, &mut lac, datagram, wanted)?;
    assert_holds(
        rt,
        step.established == established && step.cleared != established,
    );
    assert_holds(rt, lac.used() == established);
    Ok(())
}

#[test]
fn first_messages_are_taken_or_refused(rt: HostRuntime) -> Result<(), Fail> {
    for (has_secret, datagram, wanted, established) in FIRST_MESSAGES {
        answers_first(&rt, rt.alloc(), *has_secret, datagram, wanted, *established)?;
    }
    Ok(())
}

const SESSION: SessionNo = SessionNo(1026);

// an established tunnel that asked for a call of session 1026
fn asked(rt: &impl Abort, alloc: Global) -> Result<LacTunnel, Fail> {
    let mut lac = opened(rt, alloc, false)?;
    assert_holds(
        rt,
        lac.used() && !lac.has_call(SESSION) && lac.calls().len() < CALLS_MOST,
    );
    let _ = lac.call(SESSION, 0);
    assert_due(rt, alloc, &mut lac, 0, SCCRQ)?;
    takes(rt, alloc, &mut lac, SCCRP)?;
    Ok(lac)
}

// A message for the call, the gateway's answer, and whether the call has ended then.
const CALL_MESSAGES: &[(&str, &str, bool)] = &[
    // an ICRP without an Assigned Session ID
    (
        "c80200140401040200010003800800000000000b",
        "c80200260007000000030002800800000000000e80080000000e0402800a0000000100020003 ",
        true,
    ),
    // an ICRP with an AVP that must be known and is not
    (
        "c80200230401040200010003800800000000000b80080000000e000980070000002878",
        "c80200260007000900030002800800000000000e80080000000e0402800a0000000100020008 ",
        true,
    ),
    // an SLI
    (
        "c80200240401040200010003800800000000001080100000002300000000000000000000",
        "c802000c0007000000030002 ",
        false,
    ),
];

#[test]
fn messages_of_a_call_are_taken_or_refused(rt: HostRuntime) -> Result<(), Fail> {
    for (datagram, wanted, ended) in CALL_MESSAGES {
        let mut lac = asked(&rt, rt.alloc())?;
        let step = assert_answer(&rt, rt.alloc(), &mut lac, datagram, wanted)?;
        assert_holds(&rt, step.ended == *ended && !step.opened && !step.cleared);
        assert_holds(&rt, lac.has_call(SESSION) != *ended);
    }
    Ok(())
}
