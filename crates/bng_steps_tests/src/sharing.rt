//! Packets of the core for an address that two sessions of a plain store have.
ghost use Rattle.std.specs.Prelude.{◌≡◌, ◌≢◌, ◌≤◌, length, IfOk, true};
ghost use Rattle.std.specs.List.{All, AllPairs};
ghost use Rattle.bng_sessions.specs.Sessions.{IsNumberOf};

use crate::asserts::assert_same;
use crate::plain::Plain;
use crate::plain_step::hear_core_plainly;
use crate::shared::circuit;
use arrayvec::ArrayVec;
use bng_base::{
    AccessPort, At, AuthKind, Batch, DropCause, Fate, Frame, Ip4, Item, ItemKind, Listed, Mac,
    OutRecord, Peer, Static,
};
use bng_discovery::PortRules;
use bng_ppp::LinkRules;
use bng_steps::{Incoming, Rules, Served, Terms};
use std::alloc::{AllocError, Global};
use std::process::Abort;
use std::test::Fail;

// A port of 127.0.0.1.
fn peer(port: u16) -> Peer {
    Peer {
        ip: Ip4(0x7f000001),
        port,
    }
}

// The access port 1.
fn access(alloc: Global) -> Result<Listed<AccessPort>, AllocError>
    ensures { IfOk result (λ l. length l ≡ 1) }
{
    let port = AccessPort {
        local: peer(9010),
        peer: peer(9011),
        mac: Mac([2, 0, 0, 0, 0, 0xfe]),
    };
    let list = Vec::from_array(alloc, [port])?;
    Ok(Listed::of(list))
}

fn links() -> LinkRules {
    LinkRules {
        name: ArrayVec::new(),
        address: Ip4(0x0a000001),
        dns: [None, None],
        auth: ArrayVec::from([AuthKind::Pap, AuthKind::Chap]),
        echo: 0,
    }
}

// One shard, whose core is 127.0.0.1:9001, with the port 1.
fn rules(alloc: Global) -> Result<Rules, AllocError>
    ensures { IfOk result (λ r. length r.access ≡ 1) }
{
    Ok(Rules {
        shards: 1,
        core_peer: peer(9001),
        access: access(alloc)?,
        offers: Listed::of(Vec::new(alloc)),
        pools: Listed::of(Vec::new(alloc)),
        profiles: Listed::of(Vec::new(alloc)),
        link: links(),
        lacs: Listed::of(Vec::new(alloc)),
        serves_tunnels: false,
        nas_ip: Ip4(0xc0a80110),
        wall: 1_700_000_000,
        serves_changes: false,
    })
}

// A packet to 10.0.0.2, of 28 octets.
const TO_IT: [u8; 28] = [
    0x45, 0, 0, 28, 0, 0, 0, 0, 64, 17, 0xae, 0xce, 192, 0, 2, 1, 10, 0, 0, 2, 0x30, 0x39, 0x30,
    0x39, 0, 8, 0, 0,
];

// It comes from the core.
fn packet() -> Item
    ensures { result.frame.headroom ≡ 64 }
{
    let mut frame = Frame::new();
    frame.set(&TO_IT);
    Item {
        kind: ItemKind::Core,
        from: peer(9001),
        frame,
        cut: false,
        random: [0; 16],
        target: 0,
        ask: 0,
    }
}

// The fate of the packet in a shard 0 that opened with these circuits, whose addresses may be the same, and the outs.
fn heard(alloc: Global, circuits: &[Static]) -> Result<(Fate, Vec<OutRecord>), AllocError>
    requires own { All (λ c. IsNumberOf 0 c.session.0) circuits.now }
    requires sessions { AllPairs (λ a b. a.session ≢ b.session) circuits.now }
    requires ports { All (λ c. c.port ≡ 1) circuits.now }
{
    let rules = rules(alloc)?;
    let sessions = Plain::open(alloc, 0)?;
    let mut served = Served::open(alloc, sessions, 0, &[], circuits, 0)?;
    let terms = Terms::open(alloc, 0, circuits, 0)?;
    let mut outs = Batch::new(alloc);
    outs.reserve(1)?;
    let incoming = Incoming {
        rules: &rules,
        at: At {
            shard: 0,
            seat: 0,
            place: 0,
        },
        moment: 0,
        item: &packet(),
    };
    let fate = hear_core_plainly(&mut served, &terms, &incoming, &mut outs);
    Ok((fate, outs.into_vec()))
}

// The session number to which a frame of the access port goes (RFC 2516 section 4), where it is one.
fn session_of(out: &OutRecord) -> Option<u16> {
    let octets = out.frame.as_slice();
    Some(u16::from_be_bytes([*octets.get(16)?, *octets.get(17)?]))
}

// With these circuits the packet has this fate, and goes to the session with this number.
fn assert_goes(
    rt: &impl Abort,
    alloc: Global,
    circuits: &[Static],
    wanted: &(Fate, Option<u16>),
) -> Result<(), Fail>
    requires own { All (λ c. IsNumberOf 0 c.session.0) circuits.now }
    requires sessions { AllPairs (λ a b. a.session ≢ b.session) circuits.now }
    requires ports { All (λ c. c.port ≡ 1) circuits.now }
{
    let (fate, outs) = heard(alloc, circuits)?;
    let to = match outs.first() {
        Some(out) => session_of(out),
        None => None,
    };
    assert_same(rt, &(fate, to), wanted);
    Ok(())
}

#[test]
fn of_two_sessions_with_its_destination_the_lower_number_has_a_packet(
    rt: HostRuntime,
) -> Result<(), Fail> {
    let alloc = rt.alloc();
    let lost = (Fate::Dropped(DropCause::NoSession), None);
    assert_goes(&rt, alloc, &[], &lost)?;
    assert_goes(
        &rt,
        alloc,
        &[circuit(7), circuit(3)],
        &(Fate::Forwarded, Some(3)),
    )?;
    assert_goes(
        &rt,
        alloc,
        &[circuit(3), circuit(7)],
        &(Fate::Forwarded, Some(3)),
    )?;
    assert_goes(&rt, alloc, &[circuit(7)], &(Fate::Forwarded, Some(7)))
}
