//! Calls of access concentrators, and what goes over them (RFC 2661 sections 5.2 and 5.3).
use super::authentication::{reply, stop};
use super::concentrator::{
    ACCEPT, ACKED, ANY, ASKS, GETS, ICCN, ICRP, ICRQ, OWN, PLAIN, REQUEST, SCCCN, SCCCN_ANSWERS,
    SCCRP, SCCRP_ASKS, SCCRQ, SCCRQ_ASKS, SECRET, STOPS_0402, STOPS_LATE, TAKES, TO_BE, TUNNELS,
    ZLB, ZLB_2, ZLB_4, asks, run_calls, serves, tells, then_come,
};
use super::host::{framed, request};
use super::logins::{ANY as PPP_ANY, FROM_CORE, UP, records, response, run_in};
use super::reports::{Counted, assert_report};
use super::{Ended, assert_err, assert_status, has, loopback};
use crate::asserts::{assert_holds, assert_octets, assert_same};
use bng_base::{Peer, Role};
use bng_plant::Arrival;
use std::alloc::Global;
use std::process::Abort;
use std::test::Fail;

/// A ZLB that acknowledges the ICRQ a second time, and the StopCCN with the Result Code 6 after the ICCN.
const ZLB_REPEAT: &str = "c802000c0005000000020003";

const STOPS_4: &str = "c80200240005000000020004800800000000000480080000000904018008000000010006";

/// The Configure-Request whose magic number is drawn for the seventh item. CHAP is asked for.
const ASKED_7: &str = "000200050009ff03c02101010013010405dc0305c223050506a4c5c7c1";

/// Messages that come twice, and what their peer is told.
const TWICE: &[(Peer, &str)] = &[
    (SECRET, SCCRQ_ASKS),
    (SECRET, SCCRQ_ASKS),
    (SECRET, SCCCN_ANSWERS),
    (SECRET, SCCCN_ANSWERS),
    (SECRET, ICRQ),
    (SECRET, ICRQ),
    (SECRET, ICCN),
    (SECRET, ICCN),
];

const TOLD_TWICE: &[(Peer, &str)] = &[
    (SECRET, SCCRP_ASKS),
    (SECRET, ZLB),
    (SECRET, ZLB_2),
    (SECRET, ZLB_2),
    (SECRET, ICRP),
    (SECRET, ZLB_REPEAT),
    (SECRET, ZLB_4),
    (SECRET, ASKED_7),
    (SECRET, ZLB_4),
    (SECRET, STOPS_4),
];

#[test]
fn messages_that_come_twice_make_one_tunnel_and_one_call(rt: HostRuntime) -> Result<(), Fail> {
    let alloc = rt.alloc();
    serves(&rt, alloc, TWICE, TOLD_TWICE, b"drop NoSession 0\n")
}

/// The ICCN, with the Nr from before the ICRP, and the Configure-Request whose magic number is drawn for the fifth item.
const ICCN_EARLY: &str =
    "c80200320401040100030001800800000000000c800a0000001800989680800a0000001300000001000a0000002600989680";

const ASKED_5: &str = "000200050009ff03c02101010013010405dc0305c2230505060c1093ed";

/// The ICCN comes before the ICRQ, and again after it; and what the peer is told.
const ICCN_FIRST: &[(Peer, &str)] = &[
    (PLAIN, SCCRQ),
    (PLAIN, SCCCN),
    (PLAIN, ICCN_EARLY),
    (PLAIN, ICRQ),
    (PLAIN, ICCN),
];

const TOLD_ICCN_FIRST: &[(Peer, &str)] = &[
    (PLAIN, SCCRP),
    (PLAIN, ZLB_2),
    (PLAIN, ICRP),
    (PLAIN, ZLB_4),
    (PLAIN, ASKED_5),
    (PLAIN, STOPS_4),
];

#[test]
fn an_iccn_is_not_taken_before_the_icrq_that_was_lost(rt: HostRuntime) -> Result<(), Fail> {
    let alloc = rt.alloc();
    serves(
        &rt,
        alloc,
        ICCN_FIRST,
        TOLD_ICCN_FIRST,
        b"drop NoSession 0\n",
    )
}

/// An IPv4 packet over the call.
pub(super) const PACKET: &str =
    "000204010401ff03002145000028000100004011ae910a000032c0000201000102030405060708090a0b0c0d0e0f10111213";

/// Data comes before the ICCN; and what a peer is told up to its ICRP, and at the stop.
const DATA_FIRST: &[(Peer, &str)] = &[
    (PLAIN, SCCRQ),
    (PLAIN, SCCCN),
    (PLAIN, ICRQ),
    (PLAIN, PACKET),
    (PLAIN, REQUEST),
];

const TOLD_UP_TO_ICRP: &[(Peer, &str)] = &[
    (PLAIN, SCCRP),
    (PLAIN, ZLB_2),
    (PLAIN, ICRP),
    (PLAIN, STOPS_LATE),
];

#[test]
fn data_before_the_iccn_is_not_heard(rt: HostRuntime) -> Result<(), Fail> {
    let alloc = rt.alloc();
    serves(&rt, alloc, DATA_FIRST, TOLD_UP_TO_ICRP, b"drop NotOpen 1\n")
}

/// The Configure-Request for CHAP whose magic number is drawn for the fourth item. The SCCRP of tunnel 0402 to the concentrator with a
/// secret, with the Challenge that is drawn for the seventh item; and an IPv4 packet for that tunnel and the session 0401.
const ASKED_CHAP: &str = "000200050009ff03c02101010013010405dc0305c22305050623205876";

const SCCRP_DRAWN_7: &str =
    "c8020056000500000000000180080000000000028008000000020100800a0000000300000003800a00000007626e6731800800000009040280080000000a000880160000000ba4c5c7c1745e05d5497ac9fd5a06ab0d";

const PACKET_0402: &str =
    "000204020401ff03002145000028000100004011ae910a000032c0000201000102030405060708090a0b0c0d0e0f10111213";

/// Data of another peer comes for the session, also from a tunnel of its own; and what both are told.
const OF_OTHERS: &[(Peer, &str)] = &[
    (PLAIN, SCCRQ),
    (PLAIN, SCCCN),
    (PLAIN, ICRQ),
    (PLAIN, ICCN),
    (SECRET, PACKET),
    (SECRET, REQUEST),
    (SECRET, SCCRQ),
    (SECRET, PACKET_0402),
];

const TOLD_OTHERS: &[(Peer, &str)] = &[
    (PLAIN, SCCRP),
    (PLAIN, ZLB_2),
    (PLAIN, ICRP),
    (PLAIN, ZLB_4),
    (PLAIN, ASKED_CHAP),
    (SECRET, SCCRP_DRAWN_7),
    (PLAIN, STOPS_4),
    (SECRET, STOPS_0402),
];

#[test]
fn data_of_another_peer_or_tunnel_leads_nowhere(rt: HostRuntime) -> Result<(), Fail> {
    let alloc = rt.alloc();
    serves(&rt, alloc, OF_OTHERS, TOLD_OTHERS, b"drop NoSession 3\n")
}

/// The Configure-Ack to that for CHAP; the Challenge, whose Value is drawn for the sixth item; the Response of nemo with arctangent, the
/// Access-Request for it, and the Success.
const ACK_CHAP: &str = "000204010401ff03c02102010013010405dc0305c22305050623205876";

const CHALLENGE: &str = "000200050009ff03c223010100191005baa609eb9bb5847272dbaec37a461b626e6731";

const RESPONSE: &str = "000204010401ff03c22302010019102276b7f2c3daa109f1238cc317b9cb5d6e656d6f";

const CHAP_QUESTION: &str =
    "01000090eb881a7d382fbc1c31df0689771c9bed01066e656d6f0313012276b7f2c3daa109f1238cc317b9cb5d0406c0a801100506000004010606000000020706000000012006626e67313c1205baa609eb9bb5847272dbaec37a461b3d060000000550124a998d59ba267947bdf29f189faf6472571b743132372e302e302e313a313730352f313032352f31303235";

const SUCCESS: &str = "000200050009ff03c22303010004";

/// A packet of 40 octets from 10.0.0.50 in data messages with a Length; with Ns and Nr; with an Offset Size and three octets of padding;
/// and with priority, and without Address and Control (RFC 2661 section 3.1).
const UP_LENGTH: &str =
    "4002003404010401ff03002145000028000100004011ae910a000032c0000201000102030405060708090a0b0c0d0e0f10111213";

const UP_SEQUENCE: &str =
    "08020401040100010000ff03002145000028000100004011ae910a000032c0000201000102030405060708090a0b0c0d0e0f10111213";

const UP_OFFSET: &str =
    "0202040104010003eeeeeeff03002145000028000100004011ae910a000032c0000201000102030405060708090a0b0c0d0e0f10111213";

const UP_PRIORITY: &str =
    "010204010401002145000028000100004011ae910a000032c0000201000102030405060708090a0b0c0d0e0f10111213";

/// The packet of the core of 28 octets to 10.0.0.50 as it goes to the peer.
const DOWN: &str = "000200050009ff0300214500001c000200003f11af9cc00002010a0000320001020304050607";

/// The peer's Terminate-Request, the Terminate-Ack, and the CDN with the Result Code 3 once LCP has finished; the ZLB of the peer for that,
/// and the StopCCN then.
const LEAVES: &str = "000204010401ff03c02105090004";

const LEFT: &str = "000200050009ff03c02106090004";

const CDN_3: &str = "c80200240005000900020004800800000000000e80080000000e04018008000000010003";

const ZLB_OF_PEER: &str = "c802000c0401000000040003";

const STOPS_AFTER_CDN: &str =
    "c80200240005000000030004800800000000000480080000000904018008000000010006";

/// The Start of the term, formed at the second 1,700,000,003, with its NAS-Port-Id `t127.0.0.1:1705/1025/1025`; its Stop, formed 2 s later,
/// with four packets of 160 octets in and one of 28 out and the cause User Request; and the Accounting-Responses to them.
pub(super) const START: &str =
    "0400008b39fd8af36a4c71a008a91ebfc34bda9401066e656d6f0406c0a8011005060000040106060000000207060000000108060a0000321906676f6c642006626e67312806000000012c1a36353533663130313034303130303030303030303030303137066553f1033d0600000005571b743132372e302e302e313a313730352f313032352f31303235";

pub(super) const STARTED: &str = "05000014a26f922dc5232e74ca59b97f6b678be0";

const STOP: &str =
    "040100bb7753233078d4b26a68cb65ae857ba42601066e656d6f0406c0a8011005060000040106060000000207060000000108060a0000321906676f6c642006626e67312806000000022a06000000a02b060000001c2c1a3635353366313031303430313030303030303030303030312e06000000022f060000000430060000000131060000000134060000000035060000000037066553f1053d0600000005571b743132372e302e302e313a313730352f313032352f31303235";

const STOPPED: &str = "0501001490dc7fb8c1e06170b9e15859d1d7e0ce";

/// By these a call comes to its question; by those its subscriber comes to its address and sends four packets; and what the peer is told.
const BEGINS: &[(Peer, &str)] = &[
    (PLAIN, SCCRQ),
    (PLAIN, SCCCN),
    (PLAIN, ICRQ),
    (PLAIN, ICCN),
    (PLAIN, REQUEST),
    (PLAIN, ACK_CHAP),
    (PLAIN, RESPONSE),
];

const VISITS: &[(Peer, &str)] = &[
    (PLAIN, ANY),
    (PLAIN, ASKS),
    (PLAIN, TAKES),
    (PLAIN, UP_LENGTH),
    (PLAIN, UP_SEQUENCE),
    (PLAIN, UP_OFFSET),
    (PLAIN, UP_PRIORITY),
];

const TOLD: &[(Peer, &str)] = &[
    (PLAIN, SCCRP),
    (PLAIN, ZLB_2),
    (PLAIN, ICRP),
    (PLAIN, ZLB_4),
    (PLAIN, ASKED_CHAP),
    (PLAIN, ACKED),
    (PLAIN, CHALLENGE),
    (PLAIN, SUCCESS),
    (PLAIN, OWN),
    (PLAIN, TO_BE),
    (PLAIN, GETS),
    (PLAIN, DOWN),
    (PLAIN, LEFT),
    (PLAIN, CDN_3),
    (PLAIN, STOPS_AFTER_CDN),
];

/// A subscriber of a call is accepted, its packets and one to it come, and it leaves.
fn visit(alloc: Global) -> Result<Vec<Arrival>, Fail> {
    let mut script = Vec::new(alloc);
    then_come(alloc, &mut script, BEGINS)?;
    script.push(reply(alloc, 1812, ACCEPT)?)?;
    script.push(response(alloc, STARTED)?)?;
    then_come(alloc, &mut script, VISITS)?;
    script.push(Arrival::new(Role::Core, loopback(9001), FROM_CORE))?;
    then_leaves(alloc, &mut script)?;
    Ok(script)
}

/// It leaves. LCP finishes 3 s after the Terminate-Request; the CDN for that is acknowledged a turn later.
fn then_leaves(alloc: Global, script: &mut Vec<Arrival>) -> Result<(), Fail> {
    then_come(alloc, script, &[(PLAIN, LEAVES)])?;
    script.push(response(alloc, STOPPED)?)?;
    let heard = hex::decode(alloc, ZLB_OF_PEER)?;
    script.push(Arrival::new(Role::Tunnel, PLAIN, heard.as_slice()).after(2))?;
    script.push(stop(0))?;
    Ok(())
}

/// Each datagram that a run sent to the core has these octets, and there are so many.
fn sends_to_core(rt: &impl Abort, ended: &Ended, octets: &[u8], count: usize) {
    let sent = ended.plant.sent().iter();
    for packet in sent.filter(|datagram| datagram.role == Role::Core) {
        assert_octets(rt, packet.octets.as_slice(), octets);
    }
    let sent = ended.plant.sent().iter();
    let packets = sent.filter(|datagram| datagram.role == Role::Core);
    assert_same(rt, &packets.count(), &count);
}

#[test]
fn a_subscriber_of_a_call_is_served_and_accounted_for(rt: HostRuntime) -> Result<(), Fail> {
    let alloc = rt.alloc();
    let ended = run_in(&rt, alloc, TUNNELS, visit(alloc)?, 1000)?;
    assert_err(&rt, &ended, b"");
    assert_status(&rt, &ended, 0);
    assert_report(
        &rt,
        alloc,
        &ended,
        &Counted {
            octets: "in=160 out=28",
            lines: &["profile default in=160 out=28"],
            drops: &[],
        },
    )?;
    sends_to_core(&rt, &ended, UP, 4);
    asks(&rt, alloc, &ended, CHAP_QUESTION)?;
    tells(&rt, alloc, &ended, TOLD)?;
    records(&rt, alloc, &ended, &[START, STOP])
}

/// The MAC of a host of the same shard as the call, what stands before the low octet of LENGTH in a frame to it of its session 0402, and in
/// one from it of the call's session 0401; its PADS, and the Configure-Request, whose magic number is drawn for the fourth item.
const HOST: [u8; 6] = [0x02, 0x00, 0x00, 0x00, 0x00, 0x03];

const TO_HOST_0402: [u8; 19] = [
    0x02, 0x00, 0x00, 0x00, 0x00, 0x03, 0x02, 0x00, 0x00, 0x00, 0x00, 0xfe, 0x88, 0x64, 0x11, 0x00,
    0x04, 0x02, 0x00,
];

const FROM_HOST_0401: [u8; 19] = [
    0x02, 0x00, 0x00, 0x00, 0x00, 0xfe, 0x02, 0x00, 0x00, 0x00, 0x00, 0x03, 0x88, 0x64, 0x11, 0x00,
    0x04, 0x01, 0x00,
];

const PADS_0402: [u8; 32] = [
    0x02, 0x00, 0x00, 0x00, 0x00, 0x03, 0x02, 0x00, 0x00, 0x00, 0x00, 0xfe, 0x88, 0x63, 0x11, 0x65,
    0x04, 0x02, 0x00, 0x0c, 0x01, 0x01, 0x00, 0x00, 0x01, 0x03, 0x00, 0x04, 0xa1, 0xb2, 0xc3, 0xd4,
];

const PPPOE_ASKED: &[u8] =
    b"\xc0\x21\x01\x01\x00\x12\x01\x04\x05\xd4\x03\x04\xc0\x23\x05\x06\x23\x20\x58\x76";

/// The messages of a call up to its ICRQ.
const UP_TO_ICRQ: &[(Peer, &str)] = &[(PLAIN, SCCRQ), (PLAIN, SCCCN), (PLAIN, ICRQ)];

/// They come, and then the host's PADR, a frame of it for the call's session, and `stop`.
fn call_and_host(alloc: Global) -> Result<Vec<Arrival>, Fail> {
    let mut script = Vec::new(alloc);
    then_come(alloc, &mut script, UP_TO_ICRQ)?;
    script.push(Arrival::new(Role::Access(1), loopback(9011), &request(&HOST)))?;
    let other = framed(alloc, &FROM_HOST_0401, PPP_ANY)?;
    script.push(Arrival::new(Role::Access(1), loopback(9011), other.as_slice()))?;
    script.push(stop(0))?;
    Ok(script)
}

/// The first two datagrams that a run sent on access port 1 are the PADS and the Configure-Request of session 0402.
fn asks_0402(rt: &impl Abort, alloc: Global, ended: &Ended) -> Result<(), Fail> {
    let asked = framed(alloc, &TO_HOST_0402, PPPOE_ASKED)?;
    let mut sent = ended
        .plant
        .sent()
        .iter()
        .filter(|datagram| datagram.role == Role::Access(1))
        .map(|datagram| datagram.octets.as_slice());
    assert_same(rt, &sent.next(), &Some(PADS_0402.as_slice()));
    assert_same(rt, &sent.next(), &Some(asked.as_slice()));
    Ok(())
}

#[test]
fn a_call_and_a_host_share_the_numbers_of_sessions(rt: HostRuntime) -> Result<(), Fail> {
    let alloc = rt.alloc();
    let ended = run_calls(&rt, alloc, call_and_host(alloc)?, 10)?;
    assert_status(&rt, &ended, 0);
    assert_holds(&rt, has(ended.out.text(), b"drop NoSession 1\n"));
    asks_0402(&rt, alloc, &ended)?;
    tells(&rt, alloc, &ended, TOLD_UP_TO_ICRP)
}
