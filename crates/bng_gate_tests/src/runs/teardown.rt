//! How calls end: by a CDN or a StopCCN of the peer, by a tunnel that falls silent, and at the stop (RFC 2661 sections 5.5 to 5.7).
use super::authentication::{reply, stop};
use super::calls::{PACKET, START, STARTED};
use super::concentrator::{
    ACCEPT, ACKED, ANY, ASKED, ASKS, GETS, ICRP, ICRQ, OTHER, OWN, PASSED, PASSWORD, PLAIN,
    QUESTION, REQUEST, SCCCN, SCCCN_0801, SCCRP, SCCRP_0801, SCCRQ, STOPS_0801, TAKES, TO_BE,
    ZLB_2, ZLB_4, asks, begun, run_calls, tells, then_come,
};
use super::logins::{records, records_begin, response};
use super::three_calls::{THREE_RECORDS, THREE_TOLD, three_are_accepted};
use super::{Ended, a_turn_later, assert_status, has};
use crate::asserts::{assert_count, assert_holds, assert_same};
use bng_base::{Peer, Role};
use bng_plant::Arrival;
use std::alloc::Global;
use std::process::Abort;
use std::test::Fail;

/// A CDN of the peer with the Result Code 1 as its fifth message, the ZLB for it, and the StopCCN then. The records of the term at
/// the second 1,700,000,000: its Start, and its Stop with the cause 2, Lost Carrier (RFC 2866 section 5.10).
const CDN_OF_PEER: &str =
    "c80200240401040100040002800800000000000e80080000000e00098008000000010001";

const ZLB_5: &str = "c802000c0005000000020005";

const STOPS_5: &str = "c80200240005000000020005800800000000000480080000000904018008000000010006";

pub(super) const START_0: &str =
    "0400008b22396218d23267efb80b5816aede663101066e656d6f0406c0a8011005060000040106060000000207060000000108060a0000321906676f6c642006626e67312806000000012c1a36353533663130303034303130303030303030303030303137066553f1003d0600000005571b743132372e302e302e313a313730352f313032352f31303235";

const STOP_2: &str =
    "040100bb40808cf16b3eeaeeaf741d764058a2f701066e656d6f0406c0a8011005060000040106060000000207060000000108060a0000321906676f6c642006626e67312806000000022a06000000002b06000000002c1a3635353366313030303430313030303030303030303030312e06000000002f060000000030060000000031060000000234060000000035060000000037066553f1003d0600000005571b743132372e302e302e313a313730352f313032352f31303235";

/// The CDN comes a turn after the Access-Accept.
fn hung_up(alloc: Global) -> Result<Vec<Arrival>, Fail> {
    let mut script = begun(alloc, ACCEPT)?;
    script.push(a_turn_later())?;
    then_come(alloc, &mut script, &[(PLAIN, CDN_OF_PEER)])?;
    script.push(stop(0))?;
    Ok(script)
}

/// What the peer is told then.
const TOLD_TO_HUNG_UP: &[(Peer, &str)] = &[
    (PLAIN, SCCRP),
    (PLAIN, ZLB_2),
    (PLAIN, ICRP),
    (PLAIN, ZLB_4),
    (PLAIN, ASKED),
    (PLAIN, ACKED),
    (PLAIN, PASSED),
    (PLAIN, OWN),
    (PLAIN, ZLB_5),
    (PLAIN, STOPS_5),
];

#[test]
fn a_cdn_ends_a_live_term_and_gets_none_back(rt: HostRuntime) -> Result<(), Fail> {
    let alloc = rt.alloc();
    let ended = run_calls(&rt, alloc, hung_up(alloc)?, 10)?;
    // The server says nothing to the records.
    assert_status(&rt, &ended, 6);
    asks(&rt, alloc, &ended, QUESTION)?;
    tells(&rt, alloc, &ended, TOLD_TO_HUNG_UP)?;
    records_begin(&rt, alloc, &ended, &[START_0, STOP_2])
}

#[test]
fn a_stop_ccn_ends_the_three_live_calls_of_its_tunnel(rt: HostRuntime) -> Result<(), Fail> {
    let alloc = rt.alloc();
    let ended = run_calls(&rt, alloc, three_are_accepted(alloc)?, 10)?;
    assert_status(&rt, &ended, 6);
    // One ZLB is the last that is told: no CDN goes out, and at the stop there is no tunnel.
    tells(&rt, alloc, &ended, THREE_TOLD)?;
    records_begin(&rt, alloc, &ended, THREE_RECORDS)
}

/// The gateway's HELLO; and the Stop of the term 90 s after its Start, with the cause Lost Carrier, and the Accounting-Response to it.
const HELLO: &str = "c802001400050000000200048008000000000006";

const SILENT_STOP: &str =
    "040100bb4612a71a84ceae68aaa2d1f73663bed401066e656d6f0406c0a8011005060000040106060000000207060000000108060a0000321906676f6c642006626e67312806000000022a06000000002b06000000002c1a3635353366313031303430313030303030303030303030312e060000005a2f060000000030060000000031060000000234060000000035060000000037066553f15d3d0600000005571b743132372e302e302e313a313730352f313032352f31303235";

const SILENT_STOPPED: &str = "050100142f9e66d6e35d631750078c92f3a30eba";

/// What the peer of a tunnel is told that falls silent.
const TOLD_TO_SILENT: &[(Peer, &str)] = &[
    (PLAIN, SCCRP),
    (PLAIN, ZLB_2),
    (PLAIN, ICRP),
    (PLAIN, ZLB_4),
    (PLAIN, ASKED),
    (PLAIN, ACKED),
    (PLAIN, PASSED),
    (PLAIN, OWN),
    (PLAIN, TO_BE),
    (PLAIN, GETS),
    (PLAIN, HELLO),
    (PLAIN, HELLO),
    (PLAIN, HELLO),
    (PLAIN, HELLO),
    (PLAIN, HELLO),
    (PLAIN, HELLO),
];

const TAKES_ADDRESS: &[(Peer, &str)] = &[(PLAIN, ANY), (PLAIN, ASKS), (PLAIN, TAKES)];

/// 60 s after the ICCN a HELLO goes out, and again after 1, 3, 7, 15 and 23 s more; 31 s after the first the tunnel is cleared. Then comes a
/// packet of its call.
fn silence(alloc: Global) -> Result<Vec<Arrival>, Fail> {
    let mut script = begun(alloc, ACCEPT)?;
    then_come(alloc, &mut script, TAKES_ADDRESS)?;
    script.push(response(alloc, STARTED)?)?;
    script.push(response(alloc, SILENT_STOPPED)?.after(90))?;
    then_come(alloc, &mut script, &[(PLAIN, PACKET)])?;
    script.push(stop(0))?;
    Ok(script)
}

#[test]
fn a_tunnel_that_falls_silent_ends_its_live_call(rt: HostRuntime) -> Result<(), Fail> {
    let alloc = rt.alloc();
    let ended = run_calls(&rt, alloc, silence(alloc)?, 1000)?;
    assert_status(&rt, &ended, 0);
    assert_holds(&rt, has(ended.out.text(), b"drop NoSession 1\n"));
    tells(&rt, alloc, &ended, TOLD_TO_SILENT)?;
    records(&rt, alloc, &ended, &[START, SILENT_STOP])
}

/// The ICCN of session 0401 as the twenty-third message, the ZLB for it, and the Configure-Request, whose magic number is drawn for the
/// twenty-fifth item, with its Configure-Ack. The Access-Accept to the request after 28 items, the StopCCN then, and the Stop of the term
/// with the cause 10, NAS Request.
const ICCN_22: &str =
    "c80200320401040100160015800800000000000c800a0000001800989680800a0000001300000001000a0000002600989680";

const ZLB_23: &str = "c802000c0005000000150017";

const ASKED_25: &str = "000200050009ff03c02101010012010405dc0304c0230506190d7e03";

const ACK_25: &str = "000204010401ff03c02102010012010405dc0304c0230506190d7e03";

const ACCEPT_29: &str =
    "020000260ab7efe702a7afee39db69a562611dd706060000000208060a0000321906676f6c64";

const STOPS_21: &str = "c80200240005000000150017800800000000000480080000000904018008000000010006";

const STOP_10: &str =
    "040100bb31930e72b0e3bc3ce16444e742af271c01066e656d6f0406c0a8011005060000040106060000000207060000000108060a0000321906676f6c642006626e67312806000000022a06000000002b06000000002c1a3635353366313030303430313030303030303030303030312e06000000002f060000000030060000000031060000000a34060000000035060000000037066553f1003d0600000005571b743132372e302e302e313a313730352f313032352f31303235";

/// The ICRQ of the peer's session 9 and so many more, and the ICRP for it, for the gateway's session 0401 and as many more. Each ICRQ
/// acknowledges all that was told before it.
fn call_asked(rt: &impl Abort, alloc: Global, more: u8) -> Result<Arrival, Fail> {
    let mut icrq = hex::decode(alloc, ICRQ)?;
    assert_count(rt, icrq.len(), 48);
    icrq[9] = more.wrapping_add(2);
    icrq[11] = more.wrapping_add(1);
    icrq[27] = more.wrapping_add(9);
    Ok(Arrival::new(Role::Tunnel, PLAIN, icrq.as_slice()))
}

fn call_answered(rt: &impl Abort, alloc: Global, more: u8) -> Result<Vec<u8>, Fail> {
    let mut icrp = hex::decode(alloc, ICRP)?;
    assert_count(rt, icrp.len(), 28);
    icrp[7] = more.wrapping_add(9);
    icrp[9] = more.wrapping_add(1);
    icrp[11] = more.wrapping_add(3);
    icrp[27] = more.wrapping_add(1);
    Ok(icrp)
}

/// Two tunnels are set up, of two shards; on the second a call is begun and accepted; and what their peer is told before the ICRPs, and
/// after them. No call gets a CDN: one StopCCN ends them all, and the tunnel of the other shard has its own.
const TWO_TUNNELS: &[(Peer, &str)] = &[
    (OTHER, SCCRQ),
    (OTHER, SCCCN_0801),
    (PLAIN, SCCRQ),
    (PLAIN, SCCCN),
];

const ONE_CALL: &[(Peer, &str)] = &[
    (PLAIN, ICCN_22),
    (PLAIN, REQUEST),
    (PLAIN, ACK_25),
    (PLAIN, PASSWORD),
];

const TOLD_BEFORE: &[&str] = &[SCCRP, ZLB_2];

const TOLD_AFTER: &[&str] = &[
    ZLB_23, ASKED_25, ACKED, SCCRP_0801, ZLB_2, PASSED, OWN, STOPS_21, STOPS_0801,
];

/// Twenty calls are asked for on the second tunnel, of which the first is that one.
fn twenty_calls(rt: &impl Abort, alloc: Global) -> Result<Vec<Arrival>, Fail> {
    let mut script = Vec::new(alloc);
    then_come(alloc, &mut script, TWO_TUNNELS)?;
    for more in 0..20u8 {
        script.push(call_asked(rt, alloc, more)?)?;
    }
    then_come(alloc, &mut script, ONE_CALL)?;
    script.push(reply(alloc, 1812, ACCEPT_29)?)?;
    script.push(stop(0))?;
    Ok(script)
}

/// What a run told is that, with the twenty ICRPs between, and no more.
fn tells_twenty(rt: &impl Abort, alloc: Global, ended: &Ended) -> Result<(), Fail> {
    let mut sent = ended
        .plant
        .sent()
        .iter()
        .filter(|datagram| datagram.role == Role::Tunnel)
        .map(|datagram| datagram.octets.as_slice());
    for told in TOLD_BEFORE {
        told_next(rt, alloc, sent.next(), told)?;
    }
    for more in 0..20u8 {
        answered_next(rt, alloc, sent.next(), more)?;
    }
    for told in TOLD_AFTER {
        told_next(rt, alloc, sent.next(), told)?;
    }
    assert_holds(rt, sent.next().is_none());
    Ok(())
}

/// What was told next is this.
fn told_next(
    rt: &impl Abort,
    alloc: Global,
    found: Option<&[u8]>,
    wanted: &str,
) -> Result<(), Fail> {
    let wanted = hex::decode(alloc, wanted)?;
    assert_same(rt, &found, &Some(wanted.as_slice()));
    Ok(())
}

/// It is the ICRP for the session of the first call and so many more.
fn answered_next(
    rt: &impl Abort,
    alloc: Global,
    found: Option<&[u8]>,
    more: u8,
) -> Result<(), Fail> {
    let icrp = call_answered(rt, alloc, more)?;
    assert_same(rt, &found, &Some(icrp.as_slice()));
    Ok(())
}

#[test]
fn at_the_stop_tunnels_tell_the_end_of_their_calls(rt: HostRuntime) -> Result<(), Fail> {
    let alloc = rt.alloc();
    let ended = run_calls(&rt, alloc, twenty_calls(&rt, alloc)?, 10)?;
    assert_status(&rt, &ended, 6);
    tells_twenty(&rt, alloc, &ended)?;
    records_begin(&rt, alloc, &ended, &[START_0, STOP_10])
}
