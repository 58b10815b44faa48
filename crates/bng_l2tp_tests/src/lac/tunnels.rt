use super::{LNS, SCCCN, SCCRP, SCCRQ, assert_answer, assert_due, opened, outs, takes};
use crate::asserts::{assert_holds, assert_same};
use bng_base::{Frame, SessionNo, Written};
use bng_l2tp_wire::Data;
use bng_lac::{CALLS_MOST, Called, LacTunnel};
use std::alloc::Global;
use std::process::Abort;
use std::test::Fail;

const FIRST: SessionNo = SessionNo(1026);

const SECOND: SessionNo = SessionNo(1030);

// the SCCCN, and the ICRQs of the sessions 1026 and 1030
const CONNECTS: &str =
    "c802001400070000000100018008000000000003 c80200260007000000020001800800000000000a80080000000e0402800a0000000f00000001 c80200260007000000030001800800000000000a80080000000e0406800a0000000f00000002 ";

// the ICRP of session 1026 from the server's session 9, and the ICCN
const ICRP: &str = "c802001c0401040200010004800800000000000b80080000000e0009";

const ICCN: &str =
    "c80200280007000900040002800800000000000c800a0000001800989680800a0000001300000001 ";

// a CDN of session 1030, and the ZLB
const CDN: &str = "c80200240401040600020005800800000000000e800800000001000280080000000e0008";

const ZLB_3: &str = "c802000c0007000000050003 ";

// an ICRP of session 1030, which is not known by then, and the ZLB
const ICRP_LATE: &str = "c802001c0401040600030005800800000000000b80080000000e0008";

const ZLB_4: &str = "c802000c0007000000050004 ";

// the gateway's CDN of session 1026
const CDN_OUT: &str = "c80200240007000900050004800800000000000e80080000000e04028008000000010003 ";

// an SCCRP of a server that takes one message
const SCCRP_OF_ONE: &str =
    "c8020040040100000000000180080000000000028008000000020100800a0000000300000003800a000000076c6e7331800800000009000780080000000a0001";

// whether a call of a session is asked for
fn asks(rt: &impl Abort, lac: &mut LacTunnel, session: SessionNo) -> Called {
    assert_holds(rt, lac.used());
    assert_holds(rt, !lac.has_call(session));
    assert_holds(rt, lac.calls().len() < CALLS_MOST);
    lac.call(session, 0)
}

// a tunnel with two calls that wait for it, whose SCCRQ went out
fn waiting(rt: &impl Abort, alloc: Global) -> Result<LacTunnel, Fail> {
    let mut lac = opened(rt, alloc, false)?;
    assert_same(rt, &asks(rt, &mut lac, SECOND), &Called::Asked);
    assert_same(rt, &asks(rt, &mut lac, FIRST), &Called::Asked);
    assert_due(rt, alloc, &mut lac, 0, SCCRQ)?;
    Ok(lac)
}

// The calls that wait are asked for by rising session number once the tunnel is established.
fn establish(rt: &impl Abort, alloc: Global, lac: &mut LacTunnel) -> Result<(), Fail> {
    let step = assert_answer(rt, alloc, lac, SCCRP, CONNECTS)?;
    assert_holds(rt, step.established && !step.left_out);
    assert_same(rt, &lac.up(FIRST), &None);
    Ok(())
}

// A call is up from its ICRP on.
fn bring_up(rt: &impl Abort, alloc: Global, lac: &mut LacTunnel) -> Result<(), Fail> {
    let step = assert_answer(rt, alloc, lac, ICRP, ICCN)?;
    assert_holds(rt, step.opened && !step.ended && !step.call);
    assert_same(rt, &lac.up(FIRST), &Some((7, 9)));
    assert_same(rt, &lac.up(SECOND), &None);
    Ok(())
}

// A CDN ends its call, whose messages are acknowledged from then on and change nothing.
fn end_one(rt: &impl Abort, alloc: Global, lac: &mut LacTunnel) -> Result<(), Fail> {
    let step = assert_answer(rt, alloc, lac, CDN, ZLB_3)?;
    assert_holds(rt, step.ended && !step.opened);
    let late = assert_answer(rt, alloc, lac, ICRP_LATE, ZLB_4)?;
    assert_holds(rt, !late.ended && !late.opened && !late.cleared);
    assert_same(rt, &lac.up(SECOND), &None);
    Ok(())
}

// The gateway ends a call by a CDN with Result Code 3.
fn hang_up(rt: &impl Abort, alloc: Global, lac: &mut LacTunnel) -> Result<(), Fail> {
    lac.end(FIRST, 0);
    assert_same(rt, &lac.up(FIRST), &None);
    assert_due(rt, alloc, lac, 0, CDN_OUT)
}

#[test]
fn a_tunnel_brings_calls_up_and_ends_them(rt: HostRuntime) -> Result<(), Fail> {
    let alloc = rt.alloc();
    let mut lac = waiting(&rt, alloc)?;
    assert_holds(&rt, lac.peer() == LNS && lac.number().0 == 1025);
    establish(&rt, alloc, &mut lac)?;
    bring_up(&rt, alloc, &mut lac)?;
    end_one(&rt, alloc, &mut lac)?;
    hang_up(&rt, alloc, &mut lac)
}

// The subscriber's PPP frame goes into the call that is up.
#[test]
fn a_frame_goes_into_the_call_that_is_up(rt: HostRuntime) -> Result<(), Fail> {
    let alloc = rt.alloc();
    let mut lac = waiting(&rt, alloc)?;
    establish(&rt, alloc, &mut lac)?;
    bring_up(&rt, alloc, &mut lac)?;
    let (tunnel, session) = lac.up(FIRST).ok_or("no call is up")?;
    let ppp = hex::decode(alloc, "c0210101000a050611223344")?;
    let message = Data {
        tunnel,
        session,
        ppp: ppp.as_slice(),
    };
    let mut frame = Frame::new();
    let written = message.write(&mut frame);
    assert_holds(&rt, matches!(written, Written::Done));
    let digits = hex::encode(alloc, frame.payload())?;
    let wanted = "000200070009ff03c0210101000a050611223344";
    assert_same(&rt, &digits.as_str(), &wanted);
    Ok(())
}

// Neither a frame of the subscriber nor one of the server finds a call before its ICRP.
#[test]
fn no_call_is_up_before_its_icrp(rt: HostRuntime) -> Result<(), Fail> {
    let alloc = rt.alloc();
    let mut lac = waiting(&rt, alloc)?;
    establish(&rt, alloc, &mut lac)?;
    let octets = hex::decode(alloc, "000204010402ff03c0210101000a050611223344")?;
    let data = Data::read(octets.as_slice())?;
    assert_same(&rt, &data.tunnel, &lac.number().0);
    assert_same(&rt, &lac.up(SessionNo(data.session)), &None);
    bring_up(&rt, alloc, &mut lac)?;
    assert_same(&rt, &lac.up(SessionNo(data.session)), &Some((7, 9)));
    Ok(())
}

// What a tunnel with a call that is up takes next: the same ICRP again, another one of session 10, a HELLO.
const LATER: &[(&str, &str)] = &[
    (ICRP, "c802000c0007000000050002 "),
    (
        "c802001c0401040200020005800800000000000b80080000000e000a",
        ZLB_3,
    ),
    ("c802001404010000000200058008000000000006", ZLB_3),
];

#[test]
fn a_call_comes_up_once(rt: HostRuntime) -> Result<(), Fail> {
    let alloc = rt.alloc();
    for (datagram, wanted) in LATER {
        let mut lac = waiting(&rt, alloc)?;
        establish(&rt, alloc, &mut lac)?;
        bring_up(&rt, alloc, &mut lac)?;
        let step = assert_answer(&rt, alloc, &mut lac, datagram, wanted)?;
        assert_holds(&rt, !step.opened && !step.ended && !step.cleared);
        assert_same(&rt, &lac.up(FIRST), &Some((7, 9)));
    }
    Ok(())
}

// A StopCCN of the server clears the tunnel, which ends its calls.
#[test]
fn a_stop_of_the_server_ends_all_calls(rt: HostRuntime) -> Result<(), Fail> {
    let alloc = rt.alloc();
    let mut lac = waiting(&rt, alloc)?;
    establish(&rt, alloc, &mut lac)?;
    bring_up(&rt, alloc, &mut lac)?;
    let stop = "c80200240401000000020005800800000000000480080000000900078008000000010001";
    let step = assert_answer(&rt, alloc, &mut lac, stop, ZLB_3)?;
    assert_holds(&rt, step.cleared && !lac.used());
    assert_holds(&rt, lac.calls().is_empty());
    assert_same(&rt, &lac.up(FIRST), &None);
    Ok(())
}

// The server takes one message before it acknowledges it: the first ICRQ goes out once the SCCCN is acknowledged.
#[test]
fn the_servers_window_counts(rt: HostRuntime) -> Result<(), Fail> {
    let alloc = rt.alloc();
    let mut lac = waiting(&rt, alloc)?;
    assert_answer(&rt, alloc, &mut lac, SCCRP_OF_ONE, SCCCN)?;
    let zlb = "c802000c0401000000010002";
    let icrq = "c80200260007000000020001800800000000000a80080000000e0402800a0000000f00000001 ";
    assert_answer(&rt, alloc, &mut lac, zlb, icrq)?;
    Ok(())
}

// 63 calls wait for a tunnel at most.
#[test]
fn the_64th_call_finds_no_room(rt: HostRuntime) -> Result<(), Fail> {
    let mut lac = opened(&rt, rt.alloc(), false)?;
    for index in 0..63u16 {
        assert_same(
            &rt,
            &asks(&rt, &mut lac, SessionNo(1025 + index)),
            &Called::Asked,
        );
    }
    assert_same(&rt, &asks(&rt, &mut lac, SessionNo(2000)), &Called::Full);
    assert_holds(&rt, !lac.has_call(SessionNo(2000)));
    Ok(())
}

// 64 messages wait in the channel at most.
#[test]
fn a_full_channel_takes_no_call(rt: HostRuntime) -> Result<(), Fail> {
    let alloc = rt.alloc();
    let mut lac = waiting(&rt, alloc)?;
    assert_answer(&rt, alloc, &mut lac, SCCRP_OF_ONE, SCCCN)?;
    for index in 0..62u16 {
        assert_same(
            &rt,
            &asks(&rt, &mut lac, SessionNo(1100 + index)),
            &Called::Asked,
        );
    }
    assert_same(&rt, &asks(&rt, &mut lac, SessionNo(2000)), &Called::Full);
    assert_holds(&rt, !lac.has_call(SessionNo(2000)));
    Ok(())
}

// The SCCRQ goes out again, and the tunnel is cleared where nothing answers it.
#[test]
fn a_server_that_is_silent_is_given_up(rt: HostRuntime) -> Result<(), Fail> {
    let alloc = rt.alloc();
    let mut lac = waiting(&rt, alloc)?;
    for moment in [1000, 3000, 7000, 15_000, 23_000u64] {
        assert_due(&rt, alloc, &mut lac, moment, SCCRQ)?;
    }
    assert_holds(&rt, lac.used());
    assert_same(&rt, &lac.deadline(), &31_000);
    let step = lac.due(31_000);
    assert_holds(&rt, step.cleared && step.outs.is_empty());
    assert_holds(&rt, !lac.used() && !lac.has_call(FIRST));
    Ok(())
}

// The gateway shuts down.
#[test]
fn a_stop_tells_the_server(rt: HostRuntime) -> Result<(), Fail> {
    let alloc = rt.alloc();
    let mut lac = opened(&rt, alloc, false)?;
    assert_due(&rt, alloc, &mut lac, 0, SCCRQ)?;
    takes(&rt, alloc, &mut lac, SCCRP)?;
    assert_holds(&rt, lac.used());
    let step = lac.stop(0);
    let stop = "c80200240007000000020001800800000000000480080000000904018008000000010006 ";
    assert_same(&rt, &outs(alloc, &step)?.as_str(), &stop);
    assert_holds(&rt, step.cleared && !lac.used());
    Ok(())
}
