//! L2TP access concentrators that set up tunnels (RFC 2661 sections 5.1 and 7.2).
use super::authentication::stop;
use super::concentrator::{
    ICRP, ICRQ, PLAIN, SCCCN, SCCCN_ANSWERS, SCCRP, SCCRP_ASKS, SCCRQ, SCCRQ_ASKS, SECRET, STOPS,
    STOPS_0402, STOPS_EARLY, STOPS_LATE, TUNNELS, ZLB, ZLB_2, serves, tells, then_come,
};
use super::discovery::NOTHING;
use super::logins::run_in as run_tunnels;
use super::reports::assert_report;
use super::running::{SERVE, run_over};
use super::{Ended, assert_err, assert_status, loopback};
use crate::asserts::{assert_count, assert_holds, assert_same};
use bng_base::{Bind, Peer, Role};
use bng_plant::Arrival;
use std::alloc::Global;
use std::process::Abort;
use std::test::Fail;

/// The StopCCN that turns an SCCRQ away for an AVP that is missing or cannot be read: Result Code 2, Error Code 3.
const TURNED_AWAY: &str =
    "c8020026000500000000000180080000000000048008000000090000800a0000000100020003";

/// Messages that come twice, and what their peer is told.
const TWICE: &[(Peer, &str)] = &[
    (SECRET, SCCRQ_ASKS),
    (SECRET, SCCRQ_ASKS),
    (SECRET, SCCCN_ANSWERS),
    (SECRET, SCCCN_ANSWERS),
];

const TOLD_TWICE: &[(Peer, &str)] = &[
    (SECRET, SCCRP_ASKS),
    (SECRET, ZLB),
    (SECRET, ZLB_2),
    (SECRET, ZLB_2),
    (SECRET, STOPS),
];

/// They come, and then `stop`.
fn twice(alloc: Global) -> Result<Vec<Arrival>, Fail> {
    let mut script = Vec::new(alloc);
    then_come(alloc, &mut script, TWICE)?;
    script.push(stop(0))?;
    Ok(script)
}

/// The sixth bind of a run was that of the end for tunnels.
fn binds_tunnel_sixth(rt: &impl Abort, ended: &Ended) {
    let tunnel = Bind {
        role: Role::Tunnel,
        local: loopback(1701),
    };
    assert_same(rt, &ended.plant.bound().get(5), &Some(&tunnel));
}

#[test]
fn messages_that_come_twice_make_one_tunnel(rt: HostRuntime) -> Result<(), Fail> {
    let alloc = rt.alloc();
    let ended = run_tunnels(&rt, alloc, TUNNELS, twice(alloc)?, 10)?;
    assert_status(&rt, &ended, 0);
    assert_report(&rt, alloc, &ended, &NOTHING)?;
    binds_tunnel_sixth(&rt, &ended);
    tells(&rt, alloc, &ended, TOLD_TWICE)
}

/// An SCCRQ whose Host Name is hidden, without a Random Vector before it.
const WITHOUT_VECTOR: &str =
    "c802003c000000000000000080080000000000018008000000020100800a0000000300000003c00e000000076c6163316c6163318008000000090005";

/// The SCCRP of tunnel 0401 to a concentrator that shares a secret, with the Challenge that is drawn for the second item, and with that of
/// the third.
const SCCRP_DRAWN_2: &str =
    "c8020056000500000000000180080000000000028008000000020100800a0000000300000003800a00000007626e6731800800000009040180080000000a000880160000000b6fd5d89dd8feb9d8932823eaffe69ed2";

const SCCRP_DRAWN_3: &str =
    "c8020056000500000000000180080000000000028008000000020100800a0000000300000003800a00000007626e6731800800000009040180080000000a000880160000000b0f1a32f7a943652536aa794afb7f30a0";

/// The SCCRQ without a Random Vector comes, and then a right one; and what their peer is told.
const NO_VECTOR: &[(Peer, &str)] = &[(SECRET, WITHOUT_VECTOR), (SECRET, SCCRQ)];

const TOLD_OF_VECTOR: &[(Peer, &str)] = &[
    (SECRET, TURNED_AWAY),
    (SECRET, SCCRP_DRAWN_2),
    (SECRET, STOPS_EARLY),
];

#[test]
fn a_hidden_host_name_without_a_random_vector_makes_no_tunnel(rt: HostRuntime) -> Result<(), Fail> {
    let alloc = rt.alloc();
    serves(&rt, alloc, NO_VECTOR, TOLD_OF_VECTOR, b"drop NoSession 0\n")
}

/// SCCRQs with a Random Vector whose Host Name is hidden under the secret `other`, whose Assigned Tunnel ID is hidden under that, and whose
/// Host Name is hidden under the right one.
const FALSE_NAME: &str =
    "c8020045000000000000000080080000000000018008000000020100800a0000000300000003800b000000246c61747465c00c000000070e72ee3a4f798008000000090005";

const FALSE_NUMBER: &str =
    "c8020045000000000000000080080000000000018008000000020100800a0000000300000003800a000000076c616331800b000000246c61747465c00a000000097245878f";

const HIDDEN_NAME: &str =
    "c8020045000000000000000080080000000000018008000000020100800a0000000300000003800b000000246c61747465c00c000000074b1dfe28e5788008000000090005";

/// These SCCRQs come, and what their peer is told. Where the number cannot be read, nobody can be answered.
const HIDDEN: &[(Peer, &str)] = &[
    (SECRET, FALSE_NAME),
    (SECRET, FALSE_NUMBER),
    (SECRET, HIDDEN_NAME),
];

const TOLD_OF_HIDDEN: &[(Peer, &str)] = &[
    (SECRET, TURNED_AWAY),
    (SECRET, SCCRP_DRAWN_3),
    (SECRET, STOPS_EARLY),
];

#[test]
fn a_value_hidden_under_another_secret_is_not_read(rt: HostRuntime) -> Result<(), Fail> {
    let alloc = rt.alloc();
    serves(&rt, alloc, HIDDEN, TOLD_OF_HIDDEN, b"drop Malformed 0\n")
}

/// The SCCRP with the Challenge that is drawn for the first item, an SCCCN that answers it by the secret `other`, and the StopCCN with the
/// Result Code 4 for that.
const SCCRP_DRAWN_1: &str =
    "c8020056000500000000000180080000000000028008000000020100800a0000000300000003800a00000007626e6731800800000009040180080000000a000880160000000ba1b2c3d48ef532286099ab446046ae07";

const SCCCN_FALSE: &str =
    "c802002a0401000000010001800800000000000380160000000d802968a984516550f734416fd0b8e804";

const REFUSED: &str = "c80200240005000000010002800800000000000480080000000904018008000000010004";

/// The wrong answer comes, and then the right one, which comes too late; and what their peer is told.
const WRONG_ANSWER: &[(Peer, &str)] = &[
    (SECRET, SCCRQ),
    (SECRET, SCCCN_FALSE),
    (SECRET, SCCCN_ANSWERS),
];

const TOLD_OF_ANSWER: &[(Peer, &str)] = &[(SECRET, SCCRP_DRAWN_1), (SECRET, REFUSED)];

#[test]
fn a_wrong_answer_to_a_challenge_ends_the_tunnel(rt: HostRuntime) -> Result<(), Fail> {
    let alloc = rt.alloc();
    serves(
        &rt,
        alloc,
        WRONG_ANSWER,
        TOLD_OF_ANSWER,
        b"drop NoSession 1\n",
    )
}

/// The ICRQ comes before the SCCCN, and again after it; and what the peer is told.
const ICRQ_FIRST: &[(Peer, &str)] = &[(PLAIN, SCCRQ), (PLAIN, ICRQ), (PLAIN, SCCCN), (PLAIN, ICRQ)];

const TOLD_ICRQ_FIRST: &[(Peer, &str)] = &[
    (PLAIN, SCCRP),
    (PLAIN, ZLB_2),
    (PLAIN, ICRP),
    (PLAIN, STOPS_LATE),
];

#[test]
fn a_message_is_not_taken_before_the_one_that_was_lost(rt: HostRuntime) -> Result<(), Fail> {
    let alloc = rt.alloc();
    serves(
        &rt,
        alloc,
        ICRQ_FIRST,
        TOLD_ICRQ_FIRST,
        b"drop NoSession 0\n",
    )
}

/// The SCCRP of tunnel 0402 to a concentrator that shares a secret, with the Challenge of the second item.
const SCCRP_0402: &str =
    "c8020056000500000000000180080000000000028008000000020100800a0000000300000003800a00000007626e6731800800000009040280080000000a000880160000000b6fd5d89dd8feb9d8932823eaffe69ed2";

/// Two peers assign one number, and what they are told. The last message is for a tunnel of another peer.
const ONE_NUMBER: &[(Peer, &str)] = &[(PLAIN, SCCRQ), (SECRET, SCCRQ), (SECRET, SCCCN)];

const TOLD_OF_ONE_NUMBER: &[(Peer, &str)] = &[
    (PLAIN, SCCRP),
    (SECRET, SCCRP_0402),
    (PLAIN, STOPS_EARLY),
    (SECRET, STOPS_0402),
];

#[test]
fn tunnels_with_one_assigned_number_are_told_apart_by_their_peers(
    rt: HostRuntime,
) -> Result<(), Fail> {
    let alloc = rt.alloc();
    serves(
        &rt,
        alloc,
        ONE_NUMBER,
        TOLD_OF_ONE_NUMBER,
        b"drop NoSession 1\n",
    )
}

/// One shard, an end for tunnels, and an access concentrator without a secret.
const ONE_SHARD: &str = r#"[gateway]
name = "bng1"
address = "10.0.0.1"
nas_ip = "192.168.1.16"
shards = 1
[core]
local = "127.0.0.1:9000"
peer = "127.0.0.1:9001"
[control]
local = "127.0.0.1:9002"
[radius]
auth_local = "127.0.0.1:9003"
auth_server = "127.0.0.1:1812"
acct_local = "127.0.0.1:9004"
acct_server = "127.0.0.1:1813"
secret = "xyzzy5461"
[[access]]
local = "127.0.0.1:9010"
peer = "127.0.0.1:9011"
mac = "02:00:00:00:00:fe"
[[pool]]
name = "main"
first = "10.0.0.2"
last = "10.0.0.101"
[tunnel]
local = "127.0.0.1:1701"
[[lac]]
ip = "127.0.0.1"
"#;

/// The SCCRQ with this Assigned Tunnel ID.
fn request(rt: &impl Abort, alloc: Global, id: u8) -> Result<Arrival, Fail> {
    let mut sccrq = hex::decode(alloc, SCCRQ)?;
    assert_count(rt, sccrq.len(), 56);
    sccrq[55] = id;
    Ok(Arrival::new(Role::Tunnel, PLAIN, sccrq.as_slice()))
}

/// The StopCCN to the peer's tunnel 17 with the Result Code 2 and the Error Code 4: no number may be taken.
const NONE_LEFT: &str =
    "c8020026001100000000000180080000000000048008000000090000800a0000000100020004";

/// SCCRQs with the Assigned Tunnel IDs 1 to 17 come, and then `stop`.
fn seventeen(rt: &impl Abort, alloc: Global) -> Result<Vec<Arrival>, Fail> {
    let mut script = Vec::new(alloc);
    for id in 1..18u8 {
        script.push(request(rt, alloc, id)?)?;
    }
    script.push(stop(0))?;
    Ok(script)
}

/// This is the SCCRP of the gateway's tunnel of this number to the peer's of the same number.
fn assert_sccrp(rt: &impl Abort, found: Option<&[u8]>, id: u8) {
    let sccrp = found.expect(rt, "an SCCRP");
    assert_same(rt, &sccrp.get(4..6), &Some([0, id].as_slice()));
    assert_same(rt, &sccrp.get(54..56), &Some([0, id].as_slice()));
}

/// This is the StopCCN to the peer's tunnel of this number.
fn assert_stop(rt: &impl Abort, found: Option<&[u8]>, id: u8) {
    let stops = found.expect(rt, "a StopCCN");
    assert_same(rt, &stops.get(4..6), &Some([0, id].as_slice()));
    assert_same(rt, &stops.get(18..20), &Some([0, 4].as_slice()));
}

/// A run told the peer's tunnels 1 to 16 their SCCRPs, the seventeenth that no number is left, and the sixteen in the end their StopCCNs.
fn tells_sixteen(rt: &impl Abort, alloc: Global, ended: &Ended) -> Result<(), Fail> {
    let none_left = hex::decode(alloc, NONE_LEFT)?;
    let mut sent = ended
        .plant
        .sent()
        .iter()
        .filter(|datagram| datagram.role == Role::Tunnel)
        .map(|datagram| datagram.octets.as_slice());
    for id in 1..17u8 {
        assert_sccrp(rt, sent.next(), id);
    }
    assert_same(rt, &sent.next(), &Some(none_left.as_slice()));
    for id in 1..17u8 {
        assert_stop(rt, sent.next(), id);
    }
    assert_holds(rt, sent.next().is_none());
    Ok(())
}

#[test]
fn a_shard_has_sixteen_tunnels(rt: HostRuntime) -> Result<(), Fail> {
    let alloc = rt.alloc();
    let ended = run_tunnels(&rt, alloc, ONE_SHARD, seventeen(&rt, alloc)?, 10)?;
    assert_status(&rt, &ended, 0);
    tells_sixteen(&rt, alloc, &ended)
}

#[test]
fn an_end_for_tunnels_that_cannot_be_bound_is_told(rt: HostRuntime) -> Result<(), Fail> {
    let alloc = rt.alloc();
    let unbound = run_over(&rt, alloc, &SERVE, TUNNELS, Vec::new(alloc), &[6], &[])?;
    assert_status(&rt, &unbound, 3);
    assert_err(&rt, &unbound, b"bng: cannot open tunnel\n");
    Ok(())
}
