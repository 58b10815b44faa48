//! The script, octet by octet, against the standards.
ghost use Rattle.std.specs.Prelude.{◌≤◌};

use crate::asserts::{assert_holds, assert_same};
use bng_base::{Frame, Ip4, Peer, Received, Role};
use bng_peer::{PeerClock, PeerPlant};
use bng_plant::{Clock, Plant, Sending};
use std::alloc::Global;
use std::process::Abort;
use std::test::Fail;

/// The gateway, for all that the peers know of it.
const GATEWAY: Peer = Peer {
    ip: Ip4(0x7f00_0001),
    port: 9000,
};

/// The first access concentrator.
const LAC: Peer = Peer {
    ip: Ip4(0x7f00_0002),
    port: 1701,
};

/// A datagram that the gateway sends, or the next one that it hears.
#[derive(Clone, Copy)]
enum Line {
    Says(&'static str),
    Hears(&'static str),
}

/// What a peer gives at a role next, as hexadecimal digits; nothing where it gives nothing.
fn heard(alloc: Global, plant: &mut PeerPlant, role: Role) -> Result<String, Fail> {
    let mut frame = Frame::new();
    match plant.recv(role, &mut frame) {
        Received::Got { .. } => Ok(hex::encode(alloc, frame.payload())?),
        Received::Empty | Received::Failed => Ok(String::new(alloc)),
    }
}

fn say(
    alloc: Global,
    plant: &mut PeerPlant,
    role: Role,
    to: Peer,
    text: &str,
) -> Result<bool, Fail> {
    let octets = hex::decode(alloc, text)?;
    if octets.len() > 1500 {
        return Ok(false);
    }
    Ok(plant.send(role, to, octets.as_slice()) == Sending::Sent)
}

/// The gateway sends these digits to a peer.
fn says(
    rt: &impl Abort,
    alloc: Global,
    plant: &mut PeerPlant,
    role: Role,
    to: Peer,
    text: &str,
) -> Result<(), Fail> {
    let said = say(alloc, plant, role, to, text)?;
    assert_holds(rt, said);
    Ok(())
}

/// A peer gives these digits at a role next; nothing where there are none.
fn hears(
    rt: &impl Abort,
    alloc: Global,
    plant: &mut PeerPlant,
    role: Role,
    text: &str,
) -> Result<(), Fail> {
    let found = heard(alloc, plant, role)?;
    assert_same(rt, &found.as_str(), &text);
    Ok(())
}

fn play_line(
    rt: &impl Abort,
    alloc: Global,
    plant: &mut PeerPlant,
    role: Role,
    to: Peer,
    line: Line,
) -> Result<(), Fail> {
    match line {
        Line::Says(text) => says(rt, alloc, plant, role, to, text),
        Line::Hears(text) => hears(rt, alloc, plant, role, text),
    }
}

fn play(
    rt: &impl Abort,
    alloc: Global,
    plant: &mut PeerPlant,
    role: Role,
    to: Peer,
    lines: &[Line],
) -> Result<(), Fail> {
    for line in lines {
        play_line(rt, alloc, plant, role, to, *line)?;
    }
    Ok(())
}

/// A subscriber of CHAP over PPPoE (RFC 2516, RFC 1661, RFC 1994, RFC 1332), its packet (RFC 791), and an Echo-Request.
const LOGIN: &[Line] = &[
    Line::Hears("ffffffffffff020000000000886311090000000c010100000103000400000000"),
    Line::Says(
        "0200000000000200000000fe886311070000002801020004626e673101010000010300040000000001040010000102030405060708090a0b0c0d0e0f",
    ),
    Line::Hears(
        "0200000000fe020000000000886311190000002001010000010300040000000001040010000102030405060708090a0b0c0d0e0f",
    ),
    Line::Says("0200000000000200000000fe886311650005000c010100000103000400000000"),
    Line::Says(
        "0200000000000200000000fe8864110000050015c02101010013010405d40305c223050506a1b2c3d4",
    ),
    Line::Hears(
        "0200000000fe0200000000008864110000050015c02102010013010405d40305c223050506a1b2c3d4",
    ),
    Line::Hears("0200000000fe0200000000008864110000050010c0210101000e010405d4050601000000"),
    Line::Says("0200000000000200000000fe8864110000050010c0210201000e010405d4050601000000"),
    Line::Says(
        "0200000000000200000000fe886411000005001bc2230107001910303132333435363738393a3b3c3d3e3f626e6731",
    ),
    Line::Hears(
        "0200000000fe0200000000008864110000050019c223020700171046fb64291a9f7c28d5fa61efe49dcc737530",
    ),
    Line::Says("0200000000000200000000fe8864110000050006c22303070004"),
    Line::Says("0200000000000200000000fe886411000005000c80210101000a03060a000001"),
    Line::Hears("0200000000fe020000000000886411000005000c80210201000a03060a000001"),
    Line::Hears("0200000000fe020000000000886411000005000c80210101000a030600000000"),
    Line::Says("0200000000000200000000fe886411000005000c80210301000a03060a000002"),
    Line::Hears("0200000000fe020000000000886411000005000c80210102000a03060a000002"),
    Line::Says("0200000000000200000000fe886411000005000c80210202000a03060a000002"),
    Line::Hears(
        "0200000000fe0200000000008864110000050066002145000064000000004000ae970a000002c00002010000000000000000000000000000000000000000000000000000000000000000000000000000000000000000000000000000000000000000000000000000000000000000000000000000000000000000",
    ),
    Line::Says("0200000000000200000000fe886411000005000ac02109040008a1b2c3d4"),
    Line::Hears("0200000000fe020000000000886411000005000ac0210a04000801000000"),
    Line::Hears(""),
];

const LOWERED: &str =
    "45000064000000003f00af970a000002c00002010000000000000000000000000000000000000000000000000000000000000000000000000000000000000000000000000000000000000000000000000000000000000000000000000000000000000000";

/// The subscriber logs in, and its packet goes to the core.
fn logs_in(rt: &impl Abort, alloc: Global, plant: &mut PeerPlant) -> Result<(), Fail> {
    play(rt, alloc, plant, Role::Access(1), GATEWAY, LOGIN)?;
    says(rt, alloc, plant, Role::Core, GATEWAY, LOWERED)?;
    hears(rt, alloc, plant, Role::Core, "")
}

/// The operator is quiet, and says `stop` later.
fn stops(rt: &impl Abort, alloc: Global, plant: &mut PeerPlant) -> Result<(), Fail> {
    hears(rt, alloc, plant, Role::Control, "")?;
    // The operator says `stop` once the first interim record is acknowledged, since no number is odd.
    play(rt, alloc, plant, Role::Acct, GATEWAY, RECORD)?;
    play(rt, alloc, plant, Role::Control, GATEWAY, STOP)
}

const STOP: &[Line] = &[Line::Hears("73746f70"), Line::Hears("")];

/// So many subscribers.
fn peers(rt: &impl Abort, alloc: Global, n: u32) -> (PeerPlant, PeerClock)
    requires { (1 ≤ n) × (n ≤ 4000) }
{
    PeerPlant::open(alloc, n).expect(rt, "peers")
}

#[test]
fn a_subscriber_logs_in_and_sends_its_packet(rt: HostRuntime) -> Result<(), Fail> {
    let alloc = rt.alloc();
    let (mut plant, _) = peers(&rt, alloc, 1);
    logs_in(&rt, alloc, &mut plant)?;
    stops(&rt, alloc, &mut plant)
}

const PADI: &str = "ffffffffffff020000000000886311090000000c010100000103000400000000";

/// Milliseconds, and what the subscriber gives after them.
const WAITS: &[(u32, &str)] = &[(0, PADI), (2999, ""), (1, PADI), (2999, ""), (1, PADI)];

fn waits(rt: &impl Abort, alloc: Global, plant: &mut PeerPlant) -> Result<(), Fail> {
    for (wait, text) in WAITS {
        plant.wait(*wait);
        hears(rt, alloc, plant, Role::Access(1), *text)?;
    }
    Ok(())
}

/// The clock is at this moment in milliseconds, and at this second since 1970.
fn assert_moment(rt: &impl Abort, clock: &mut PeerClock, now: u64, wall: u64) {
    assert_same(rt, &clock.now(), &now);
    assert_same(rt, &clock.wall(), &wall);
}

#[test]
fn what_is_not_answered_is_sent_again_after_three_seconds(rt: HostRuntime) -> Result<(), Fail> {
    let alloc = rt.alloc();
    let (mut plant, mut clock) = peers(&rt, alloc, 1);
    waits(&rt, alloc, &mut plant)?;
    assert_moment(&rt, &mut clock, 6000, 1_700_000_006);
    Ok(())
}

/// What an access concentrator sends first: it asks for a tunnel (RFC 2661 section 6.1).
const SCCRQ: &[Line] = &[Line::Hears(
    "c802003f000000000000000080080000000000018008000000020100800a00000003000000018009000000076c6163800800000009000180080000000a0008",
)];

/// The tunnel with a Challenge, a call, and a subscriber that suggests PAP (RFC 2661, RFC 1661 section 5.3).
const TUNNEL: &[Line] = &[
    Line::Says(
        "c8020056000100000000000180080000000000028008000000020100800a0000000300000003800a00000007626e6731800800000009040180080000000a000880160000000b303132333435363738393a3b3c3d3e3f",
    ),
    Line::Hears(
        "c802002a0401000000010001800800000000000380160000000d36572878f0bd559ae53650248c0932af",
    ),
    Line::Hears("c80200260401000000020001800800000000000a80080000000e0004800a0000000f00000004"),
    Line::Says("c802000c0001000000010002"),
    Line::Says("c802001c0001000400010003800800000000000b80080000000e0405"),
    Line::Hears("c80200280401040500030002800800000000000c800a0000001805f5e100800a0000001300000001"),
    Line::Says("c802000c0001000000020004"),
    Line::Says("000200010004ff03c02101010013010405dc0305c223050506a1b2c3d4"),
    Line::Hears("000204010405ff03c021030100080304c023"),
];

/// The first one makes its tunnel and its call.
fn calls(rt: &impl Abort, alloc: Global, plant: &mut PeerPlant) -> Result<(), Fail> {
    play(rt, alloc, plant, Role::Tunnel, LAC, SCCRQ)?;
    // The other one asks for its tunnel too, and calls for nobody.
    heard(alloc, plant, Role::Tunnel)?;
    play(rt, alloc, plant, Role::Tunnel, LAC, TUNNEL)
}

#[test]
fn an_access_concentrator_makes_its_tunnel_and_its_call(rt: HostRuntime) -> Result<(), Fail> {
    let alloc = rt.alloc();
    let (mut plant, _) = peers(&rt, alloc, 4);
    calls(&rt, alloc, &mut plant)
}

const ACCEPTED: &[Line] = &[
    Line::Says("01090018000102030405060708090a0b0c0d0e0f01047530"),
    Line::Hears("020900200a6cbfcd8ea157411537b075d6b53ac5060600000002550600000258"),
    Line::Hears(""),
];

const RECORD: &[Line] = &[
    Line::Says("040a001e5acc039f991fccd552497d60d57d99e401047530280600000003"),
    Line::Hears("050a0014239acae71d20d4634d6ae94ed25c8e35"),
    Line::Hears(""),
];

/// It replies to a request and to a record.
fn replies(rt: &impl Abort, alloc: Global, plant: &mut PeerPlant) -> Result<(), Fail> {
    play(rt, alloc, plant, Role::Auth, GATEWAY, ACCEPTED)?;
    play(rt, alloc, plant, Role::Acct, GATEWAY, RECORD)
}

#[test]
fn the_server_signs_its_replies(rt: HostRuntime) -> Result<(), Fail> {
    let alloc = rt.alloc();
    let (mut plant, _) = peers(&rt, alloc, 1);
    replies(&rt, alloc, &mut plant)
}
