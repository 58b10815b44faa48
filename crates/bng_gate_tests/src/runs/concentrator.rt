//! An L2TP access concentrator with a tunnel and a call, and what it hears from the gateway (RFC 2661). The messages, and the digests and
//! hidden values in them, were made from the tables of RFC 2661 sections 3.1 and 4.1 to 4.4 by a script over Python's hashlib and hmac, and
//! what goes over the call from those of RFC 1661, RFC 1332, RFC 1334, RFC 1994, RFC 2865 and RFC 2866. What is random in them an
//! independent ChaCha20 gives: sixteen octets for the key of the cookies, for each item of a turn, and then for each request of it.
use super::authentication::{reply, stop};
use super::logins::run_in;
use super::{Ended, assert_status, goes_to, has};
use crate::asserts::{assert_holds, assert_octets, assert_same};
use bng_base::{Ip4, Peer, Role};
use bng_plant::Arrival;
use std::alloc::{AllocError, Global};
use std::process::Abort;
use std::sync::Wait;
use std::test::Fail;
use std::thread::Threads;

/// Four shards, an end for tunnels, and two access concentrators: one without a secret, and one that shares `xyzzy`.
pub(super) const TUNNELS: &str = r#"[gateway]
name = "bng1"
address = "10.0.0.1"
nas_ip = "192.168.1.16"
shards = 4
services = ["inet"]
[core]
local = "127.0.0.1:9000"
peer = "127.0.0.1:9001"
[control]
local = "127.0.0.1:9002"
[radius]
auth_local = "127.0.0.1:9003"
auth_server = "127.0.0.1:1812"
acct_local = "127.0.0.1:9004"
acct_server = "127.0.0.1:1813"
secret = "xyzzy5461"
[[access]]
local = "127.0.0.1:9010"
peer = "127.0.0.1:9011"
mac = "02:00:00:00:00:fe"
[[pool]]
name = "main"
first = "10.0.0.2"
last = "10.0.0.101"
[tunnel]
local = "127.0.0.1:1701"
[[lac]]
ip = "127.0.0.1"
[[lac]]
ip = "127.0.0.5"
secret = "xyzzy"
"#;

/// A concentrator without a secret, and one that shares it. The octets of the address and the port of each sum to 1,833, so both are for
/// shard 1, whose first tunnel has the number 0401.
pub(super) const PLAIN: Peer = Peer {
    ip: Ip4(0x7f00_0001),
    port: 1705,
};

pub(super) const SECRET: Peer = Peer {
    ip: Ip4(0x7f00_0005),
    port: 1701,
};

/// The first from another port, for shard 2.
pub(super) const OTHER: Peer = Peer {
    ip: Ip4(0x7f00_0001),
    port: 1706,
};

/// An SCCRQ with the Assigned Tunnel ID 5, and the same with the Challenge 01020304.
pub(super) const SCCRQ: &str =
    "c8020038000000000000000080080000000000018008000000020100800a0000000300000003800a000000076c6163318008000000090005";

pub(super) const SCCRQ_ASKS: &str =
    "c8020042000000000000000080080000000000018008000000020100800a0000000300000003800a000000076c6163318008000000090005800a0000000b01020304";

/// The SCCRP of tunnel 0401 to the first. That to the second answers the Challenge, and has one of its own, which is drawn for the first item.
pub(super) const SCCRP: &str =
    "c8020040000500000000000180080000000000028008000000020100800a0000000300000003800a00000007626e6731800800000009040180080000000a0008";

pub(super) const SCCRP_ASKS: &str =
    "c802006c000500000000000180080000000000028008000000020100800a0000000300000003800a00000007626e6731800800000009040180080000000a000880160000000ba1b2c3d48ef532286099ab446046ae0780160000000d6a2f6eee7ce939973b542d68b8355a6b";

/// The SCCCN for tunnel 0401, and the same with the answer to that Challenge.
pub(super) const SCCCN: &str = "c802001404010000000100018008000000000003";

pub(super) const SCCCN_ANSWERS: &str =
    "c802002a0401000000010001800800000000000380160000000d5c037e61cce37718836e4c0102f9021f";

/// The SCCRP of tunnel 0801, and the SCCCN for it.
pub(super) const SCCRP_0801: &str =
    "c8020040000500000000000180080000000000028008000000020100800a0000000300000003800a00000007626e6731800800000009080180080000000a0008";

pub(super) const SCCCN_0801: &str = "c802001408010000000100018008000000000003";

/// ZLBs to the peer's tunnel 5 that acknowledge its SCCRQ, its SCCCN, and its fourth message.
pub(super) const ZLB: &str = "c802000c0005000000010001";

pub(super) const ZLB_2: &str = "c802000c0005000000010002";

pub(super) const ZLB_4: &str = "c802000c0005000000020004";

/// An ICRQ of the peer's session 9, as its third message; the ICRP for it, of the session 0401; and the ICCN for that.
pub(super) const ICRQ: &str =
    "c80200300401000000020001800800000000000a80080000000e0009800a0000000f00000001800a0000001200000000";

pub(super) const ICRP: &str = "c802001c0005000900010003800800000000000b80080000000e0401";

pub(super) const ICCN: &str =
    "c80200320401040100030002800800000000000c800a0000001800989680800a0000001300000001000a0000002600989680";

/// The StopCCN with the Result Code 6 of tunnel 0401: before its SCCCN, after it, and after an ICRP; that of tunnel 0402 before its SCCCN;
/// and that of tunnel 0801 after it.
pub(super) const STOPS_EARLY: &str =
    "c80200240005000000010001800800000000000480080000000904018008000000010006";

pub(super) const STOPS: &str =
    "c80200240005000000010002800800000000000480080000000904018008000000010006";

pub(super) const STOPS_LATE: &str =
    "c80200240005000000020003800800000000000480080000000904018008000000010006";

pub(super) const STOPS_0402: &str =
    "c80200240005000000010001800800000000000480080000000904028008000000010006";

pub(super) const STOPS_0801: &str =
    "c80200240005000000010002800800000000000480080000000908018008000000010006";

/// The gateway's Configure-Request over the call, whose MRU is 1,500 and whose magic number is drawn for the fourth item; the peer's, and the
/// Configure-Acks to both. The frames of the gateway go to the peer's tunnel 5 and session 9, and those of the peer to 0401 and 0401.
pub(super) const ASKED: &str = "000200050009ff03c02101010012010405dc0304c023050623205876";

pub(super) const REQUEST: &str = "000204010401ff03c0210102000e010405d4050611223344";

pub(super) const ACKED: &str = "000200050009ff03c0210202000e010405d4050611223344";

pub(super) const ACK: &str = "000204010401ff03c02102010012010405dc0304c023050623205876";

/// The Authenticate-Request of nemo with arctangent, its Authenticate-Ack, and the gateway's Configure-Request of IPCP.
pub(super) const PASSWORD: &str = "000204010401ff03c02301070014046e656d6f0a61726374616e67656e74";

pub(super) const PASSED: &str = "000200050009ff03c0230207000500";

pub(super) const OWN: &str = "000200050009ff0380210101000a03060a000001";

/// The Access-Request for it: it has no Calling-Station-Id, and its NAS-Port-Id is `t127.0.0.1:1705/1025/1025`. The Access-Accept has the
/// Service-Type Framed, the Framed-IP-Address 10.0.0.50 and the Class gold.
pub(super) const QUESTION: &str =
    "0100007deb881a7d382fbc1c31df0689771c9bed01066e656d6f02120e3d4cbc982bfcbe2f063b107065e46d0406c0a801100506000004010606000000020706000000012006626e67313d06000000055012f6b39fc27fd426a972ad14815a7b83ae571b743132372e302e302e313a313730352f313032352f31303235";

pub(super) const ACCEPT: &str =
    "02000026ebcba8ec06b58585bcba1bb5564927f706060000000208060a0000321906676f6c64";

/// The peer asks by IPCP for any address, hears which it is to be, asks for that, and hears that it has it; and it takes the gateway's.
pub(super) const ANY: &str = "000204010401ff0380210101000a030600000000";

pub(super) const TO_BE: &str = "000200050009ff0380210301000a03060a000032";

pub(super) const ASKS: &str = "000204010401ff0380210102000a03060a000032";

pub(super) const GETS: &str = "000200050009ff0380210202000a03060a000032";

pub(super) const TAKES: &str = "000204010401ff0380210201000a03060a000001";

/// The messages and frames by which a call comes to its question, in one turn.
const BEGINS: [(Peer, &str); 7] = [
    (PLAIN, SCCRQ),
    (PLAIN, SCCCN),
    (PLAIN, ICRQ),
    (PLAIN, ICCN),
    (PLAIN, REQUEST),
    (PLAIN, ACK),
    (PLAIN, PASSWORD),
];

/// A configuration by which peers of calls authenticate themselves by PAP, and no echoes are asked for.
fn configuration(alloc: Global) -> Result<String, AllocError> {
    TUNNELS.replace(alloc, "services", "echo = 0\nauth = [\"pap\"]\nservices")
}

/// Datagrams of these peers for tunnels come next, in this order.
pub(super) fn then_come(
    alloc: Global,
    script: &mut Vec<Arrival>,
    list: &[(Peer, &str)],
) -> Result<(), Fail> {
    for (from, octets) in list {
        let octets = hex::decode(alloc, *octets)?;
        script.push(Arrival::new(Role::Tunnel, *from, octets.as_slice()))?;
    }
    Ok(())
}

/// A call comes to its question, and in the next turn to this Access-Accept.
pub(super) fn begun(alloc: Global, accept: &str) -> Result<Vec<Arrival>, Fail> {
    let mut script = Vec::new(alloc);
    then_come(alloc, &mut script, &BEGINS)?;
    script.push(reply(alloc, 1812, accept)?)?;
    Ok(script)
}

/// A run over this script with that configuration, at moments that are so many milliseconds apart.
pub(super) fn run_calls<R: Threads + Wait + Sync>(
    rt: &R,
    alloc: Global,
    script: Vec<Arrival>,
    step: u64,
) -> Result<Ended, Fail> {
    let configuration = configuration(alloc)?;
    let ended = run_in(rt, alloc, configuration.as_str(), script, step)?;
    Ok(ended)
}

/// A run with these messages of concentrators, and then `stop`, ends with status 0. It sends these, and drops so many items in this way.
pub(super) fn serves<R: Threads + Wait + Sync + Abort>(
    rt: &R,
    alloc: Global,
    messages: &[(Peer, &str)],
    wanted: &[(Peer, &str)],
    drops: &[u8],
) -> Result<(), Fail> {
    let mut script = Vec::new(alloc);
    then_come(alloc, &mut script, messages)?;
    script.push(stop(0))?;
    let ended = run_in(rt, alloc, TUNNELS, script, 10)?;
    assert_status(rt, &ended, 0);
    assert_holds(rt, has(ended.out.text(), drops));
    tells(rt, alloc, &ended, wanted)
}

/// The datagrams that a run sent to the other ends of tunnels are these, in this order.
pub(super) fn tells(
    rt: &impl Abort,
    alloc: Global,
    ended: &Ended,
    wanted: &[(Peer, &str)],
) -> Result<(), Fail> {
    assert_same(rt, &told(ended), &wanted.len());
    let sent = ended.plant.sent().iter();
    let all = sent.filter(|datagram| datagram.role == Role::Tunnel);
    for (datagram, (peer, octets)) in all.zip(wanted) {
        goes_to(rt, alloc, datagram, *peer, *octets)?;
    }
    Ok(())
}

/// How many datagrams a run sent to the other ends of tunnels.
fn told(ended: &Ended) -> usize {
    let sent = ended.plant.sent().iter();
    sent.filter(|datagram| datagram.role == Role::Tunnel)
        .count()
}

/// The one request that a run sent to Auth is this.
pub(super) fn asks(
    rt: &impl Abort,
    alloc: Global,
    ended: &Ended,
    wanted: &str,
) -> Result<(), Fail> {
    let wanted = hex::decode(alloc, wanted)?;
    let sent = ended.plant.sent().iter();
    let mut requests = sent.filter(|datagram| datagram.role == Role::Auth);
    let request = requests.next().expect(rt, "a request");
    assert_octets(rt, request.octets.as_slice(), wanted.as_slice());
    assert_holds(rt, requests.next().is_none());
    Ok(())
}
