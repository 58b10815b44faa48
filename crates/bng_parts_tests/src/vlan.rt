ghost use Rattle.std.specs.Prelude.{◌≡◌, ◌≤◌, ◌+◌, ◌<◌, length, IfOk};
ghost use Rattle.bng_vlan.specs.Map.{IsMap};
ghost use Rattle.bng_vlan.specs.Views.{trunks_in};

use crate::asserts::{assert_count, assert_holds, assert_octets, assert_same};
use bng_base::{Datagram, Frame, Ip4, Peer, Received, Role};
use bng_plant::{Arrival, MemoryPlant};
use bng_vlan::{Telling, TrunkPlant, VlanEntry, VlanError, VlanMap, VlanPlant};
use std::alloc::{AllocError, Global};
use std::process::Abort;
use std::test::Fail;

const PEER: Peer = Peer {
    ip: Ip4(0x0a00_0001),
    port: 4001,
};

const STRANGER: Peer = Peer {
    ip: Ip4(0x0a00_0002),
    port: 4001,
};

const PLAIN: VlanEntry = VlanEntry {
    access: 1,
    trunk: 1,
    outer: 100,
    inner: None,
};

const NEXT: VlanEntry = VlanEntry {
    access: 2,
    trunk: 1,
    outer: 101,
    inner: None,
};

const PAIR: VlanEntry = VlanEntry {
    access: 3,
    trunk: 1,
    outer: 100,
    inner: Some(200),
};

// One trunk with three entries.
fn map(alloc: Global) -> Result<VlanMap, AllocError>
    ensures { IfOk result (λ map. IsMap (trunks_in map)) }
{
    let trunks = vec![in alloc; PEER]?;
    let entries = vec![in alloc; PLAIN, NEXT, PAIR]?;
    Ok(VlanMap { trunks, entries })
}

// A frame with these octets behind its addresses, and a mark in its payload.
fn frame_with(tags: &[u8], mark: u8) -> Frame
    requires { length tags.now ≤ 8 }
{
    let mut frame = Frame::new();
    frame.set(&[2, 0, 0, 0, 0, 0xfe, 2, 0, 0, 0, 0, 1]);
    frame.put_back(tags);
    frame.put_back(&[0x88, 0x64, 0x11, 0, 4, 1, 0, 0x16, 0, 0x21]);
    frame.put_back(&[mark; 20]);
    frame
}

const VLAN_100: [u8; 4] = [0x81, 0, 0, 0x64];

const VLAN_100_WITH_PRIORITY: [u8; 4] = [0x81, 0, 0xb0, 0x64];

const VLAN_101: [u8; 4] = [0x81, 0, 0, 0x65];

const VLAN_102: [u8; 4] = [0x81, 0, 0, 0x66];

const PAIR_100_200: [u8; 8] = [0x88, 0xa8, 0, 0x64, 0x81, 0, 0, 0xc8];

const TWO_C_TAGS: [u8; 8] = [0x81, 0, 0, 0x64, 0x81, 0, 0, 0xc8];

const S_TAG_ALONE: [u8; 4] = [0x88, 0xa8, 0, 0x64];

// A frame that comes on trunk 1.
fn on_trunk(from: Peer, tags: &[u8], mark: u8) -> Arrival
    requires { length tags.now ≤ 8 }
{
    let frame = frame_with(tags, mark);
    Arrival::new(Role::Access(240), from, frame.payload())
}

fn scripted(alloc: Global, script: Vec<Arrival>) -> Result<MemoryPlant, AllocError> {
    MemoryPlant::new(alloc, script, Vec::new(alloc), 600)
}

// A port is given the frame with this mark, without tags.
fn gives<P: TrunkPlant>(rt: &impl Abort, plant: &mut P, port: u8, mark: u8) {
    let mut into = Frame::new();
    let answer = plant.recv(Role::Access(port), &mut into);
    let wanted = Received::Got {
        from: PEER,
        cut: false,
    };
    assert_same(rt, &answer, &wanted);
    let untagged = frame_with(&[], mark);
    assert_octets(rt, into.payload(), untagged.payload());
    assert_count(rt, into.headroom(), 64);
}

fn is_empty<P: TrunkPlant>(rt: &impl Abort, plant: &mut P, port: u8) {
    let mut into = Frame::new();
    let answer = plant.recv(Role::Access(port), &mut into);
    assert_same(rt, &answer, &Received::Empty);
}

// Frames of three entries in turn.
fn sound_frames(alloc: Global) -> Result<Vec<Arrival>, AllocError> {
    let script = vec![in alloc;
        on_trunk(PEER, &VLAN_100, 1),
        on_trunk(PEER, &VLAN_100_WITH_PRIORITY, 2),
        on_trunk(PEER, &VLAN_101, 3),
        on_trunk(PEER, &PAIR_100_200, 4),
        on_trunk(PEER, &TWO_C_TAGS, 5),
    ]?;
    Ok(script)
}

fn give_by_tags<P: TrunkPlant>(rt: &impl Abort, plant: &mut P) {
    gives(rt, plant, 1, 1);
    gives(rt, plant, 2, 3);
    gives(rt, plant, 1, 2);
    gives(rt, plant, 3, 4);
    gives(rt, plant, 3, 5);
    is_empty(rt, plant, 3);
}

#[test]
fn frames_go_to_the_entry_of_their_tags(rt: HostRuntime) -> Result<(), Fail> {
    let alloc = rt.alloc();
    let mut inner = scripted(alloc, sound_frames(alloc)?)?;
    let mut told = Telling { plant: &mut inner };
    let map = map(alloc)?;
    match VlanPlant::open(alloc, &mut told, &map) {
        Err(VlanError::OutOfMemory) => {
            assert_holds(&rt, false);
            Ok(())
        }
        Ok(mut plant) => {
            give_by_tags(&rt, &mut plant);
            assert_same(&rt, &plant.strays(), &0);
            Ok(())
        }
    }
}

// The same addresses under three tags, of which two are entries'.
fn three_tags(alloc: Global) -> Result<Vec<Arrival>, AllocError> {
    let script = vec![in alloc;
        on_trunk(PEER, &VLAN_100, 1),
        on_trunk(PEER, &VLAN_101, 2),
        on_trunk(PEER, &VLAN_102, 3),
    ]?;
    Ok(script)
}

#[test]
fn one_address_under_two_tags_is_on_two_ports(rt: HostRuntime) -> Result<(), Fail> {
    let alloc = rt.alloc();
    let mut inner = scripted(alloc, three_tags(alloc)?)?;
    let mut told = Telling { plant: &mut inner };
    let map = map(alloc)?;
    match VlanPlant::open(alloc, &mut told, &map) {
        Err(VlanError::OutOfMemory) => {
            assert_holds(&rt, false);
            Ok(())
        }
        Ok(mut plant) => {
            for (port, mark) in [(1, 1), (2, 2)] {
                gives(&rt, &mut plant, port, mark);
            }
            is_empty(&rt, &mut plant, 1);
            assert_same(&rt, &plant.strays(), &1);
            Ok(())
        }
    }
}

// Frames of no entry: with other tags, without tags, with an S-TAG alone, of a stranger, and cut.
fn stray_frames(alloc: Global) -> Result<Vec<Arrival>, AllocError> {
    let script = vec![in alloc;
        on_trunk(PEER, &VLAN_102, 1),
        on_trunk(PEER, &[], 2),
        on_trunk(PEER, &S_TAG_ALONE, 3),
        on_trunk(STRANGER, &VLAN_100, 4),
        Arrival::new(Role::Access(240), PEER, &[0x81; 5000]),
    ]?;
    Ok(script)
}

#[test]
fn strays_are_counted_and_given_to_nobody(rt: HostRuntime) -> Result<(), Fail> {
    let alloc = rt.alloc();
    let mut inner = scripted(alloc, stray_frames(alloc)?)?;
    let mut told = Telling { plant: &mut inner };
    let map = map(alloc)?;
    match VlanPlant::open(alloc, &mut told, &map) {
        Err(VlanError::OutOfMemory) => {
            assert_holds(&rt, false);
            Ok(())
        }
        Ok(mut plant) => {
            is_empty(&rt, &mut plant, 240);
            assert_same(&rt, &plant.strays(), &0);
            is_empty(&rt, &mut plant, 1);
            assert_same(&rt, &plant.strays(), &5);
            Ok(())
        }
    }
}

// So many frames of one entry, and one of another behind them.
fn many_of_one(alloc: Global, number: u8) -> Result<Vec<Arrival>, AllocError> {
    let mut script = Vec::new(alloc);
    for mark in 0..number {
        script.push(on_trunk(PEER, &VLAN_100, mark))?;
    }
    script.push(on_trunk(PEER, &VLAN_101, 77))?;
    Ok(script)
}

// The trunk is read no further than to the 17th frame, until the first was given.
fn hold_and_go_on<P: TrunkPlant>(rt: &impl Abort, plant: &mut P) {
    is_empty(rt, plant, 2);
    gives(rt, plant, 1, 0);
    gives(rt, plant, 2, 77);
    for mark in 1..17 {
        gives(rt, plant, 1, mark);
    }
    is_empty(rt, plant, 1);
}

#[test]
fn a_frame_whose_entry_is_full_is_held(rt: HostRuntime) -> Result<(), Fail> {
    let alloc = rt.alloc();
    let mut inner = scripted(alloc, many_of_one(alloc, 17)?)?;
    let mut told = Telling { plant: &mut inner };
    let map = map(alloc)?;
    match VlanPlant::open(alloc, &mut told, &map) {
        Err(VlanError::OutOfMemory) => {
            assert_holds(&rt, false);
            Ok(())
        }
        Ok(mut plant) => {
            hold_and_go_on(&rt, &mut plant);
            Ok(())
        }
    }
}

fn many_strays(alloc: Global) -> Result<Vec<Arrival>, AllocError> {
    let mut script = Vec::new(alloc);
    for _ in 0..230 {
        script.push(on_trunk(PEER, &VLAN_102, 1))?;
    }
    Ok(script)
}

#[test]
fn a_receive_reads_224_frames_at_most(rt: HostRuntime) -> Result<(), Fail> {
    let alloc = rt.alloc();
    let mut inner = scripted(alloc, many_strays(alloc)?)?;
    let mut told = Telling { plant: &mut inner };
    let map = map(alloc)?;
    match VlanPlant::open(alloc, &mut told, &map) {
        Err(VlanError::OutOfMemory) => {
            assert_holds(&rt, false);
            Ok(())
        }
        Ok(mut plant) => {
            is_empty(&rt, &mut plant, 2);
            assert_same(&rt, &plant.strays(), &224);
            is_empty(&rt, &mut plant, 2);
            assert_same(&rt, &plant.strays(), &230);
            Ok(())
        }
    }
}

fn send_three<P: TrunkPlant>(plant: &mut P) {
    let frame = frame_with(&[], 9);
    let _ = plant.send(Role::Access(3), PEER, frame.payload());
    let _ = plant.send(Role::Access(1), PEER, &[1, 2, 3]);
    let _ = plant.send(Role::Core, PEER, &[4]);
}

fn assert_sent(rt: &impl Abort, sent: &[Datagram]) {
    let pair = frame_with(&PAIR_100_200, 9);
    match sent {
        [first, short, core] => {
            assert_same(rt, &first.role, &Role::Access(240));
            assert_octets(rt, first.octets.as_slice(), pair.payload());
            assert_octets(rt, short.octets.as_slice(), &[1, 2, 3, 0x81, 0, 0, 0x64]);
            assert_same(rt, &core.role, &Role::Core);
        }
        _ => assert_count(rt, sent.len(), 3),
    }
}

fn send_over_trunks(alloc: Global, inner: &mut MemoryPlant) -> Result<(), AllocError> {
    let mut told = Telling { plant: inner };
    let map = map(alloc)?;
    if let Ok(mut plant) = VlanPlant::open(alloc, &mut told, &map) {
        send_three(&mut plant);
    }
    Ok(())
}

#[test]
fn a_frame_that_is_sent_carries_the_tags_of_its_entry(rt: HostRuntime) -> Result<(), Fail> {
    let alloc = rt.alloc();
    let mut inner = scripted(alloc, Vec::new(alloc))?;
    send_over_trunks(alloc, &mut inner)?;
    assert_sent(&rt, inner.sent());
    Ok(())
}
