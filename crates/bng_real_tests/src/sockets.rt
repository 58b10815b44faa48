//! The sockets of a plant, and those of another party.
mod waiting;

use crate::asserts::{assert_count, assert_holds, assert_same};
use bng_base::{Frame, Ip4, Peer, Received, Role};
use bng_plant::{Bound, Plant, Sending};
use bng_real::RealPlant;
use std::net::{Net, SocketAddr, UdpSocket};
use std::process::Abort;
use std::test::Fail;
use std::time::Duration;
use std::{array, io};

const LOOPBACK: Ip4 = Ip4(0x7f00_0001);

/// An end of the loopback that no socket had a moment ago.
fn free_end<N: Net>(net: &N) -> io::Result<Peer> {
    let socket = UdpSocket::bind(net, "127.0.0.1:0")?;
    end_of(&socket)
}

fn end_of(socket: &UdpSocket) -> io::Result<Peer> {
    let port = socket.local_addr()?.port();
    Ok(Peer { ip: LOOPBACK, port })
}

/// A socket of another party, which waits five seconds at most, and its end.
#[derive(Drop)]
struct Party {
    socket: UdpSocket,
    end: Peer,
}

/// Another party, with a socket of its own.
fn stranger<N: Net>(net: &N) -> io::Result<Party> {
    let socket = UdpSocket::bind(net, "127.0.0.1:0")?;
    socket.set_read_timeout(Some(Duration::from_secs(5)))?;
    let end = end_of(&socket)?;
    Ok(Party { socket, end })
}

/// Octets that count up, from 0 to 250 again and again.
fn counting() -> [u8; 4200] {
    array::from_fn(|at| (at % 251) as u8)
}

/// Whether these are the first of those, and so many.
fn counts_up(octets: &[u8], length: usize) -> bool {
    let all = counting();
    octets.len() == length && octets.iter().zip(all.iter()).all(|(a, b)| a == b)
}

/// Sends so many octets that count up to an end, 4,200 at most.
fn send_counting(from: &UdpSocket, to: Peer, length: usize) -> io::Result<usize> {
    let octets = counting();
    from.send_to(
        &octets[..length.min(4200)],
        SocketAddr::from(([127, 0, 0, 1], to.port)),
    )
}

/// Another party sends so many of those octets, and the system takes them all.
fn send_all(rt: &impl Abort, other: &Party, to: Peer, length: usize) -> io::Result<()> {
    assert_same(rt, &send_counting(&other.socket, to, length)?, &length);
    Ok(())
}

/// Gives a role its socket, at a free end.
fn open<R: Net + Abort, P: Plant>(rt: &R, plant: &mut P, role: Role) -> io::Result<Peer> {
    let end = free_end(rt)?;
    assert_same(rt, &plant.bind(role, end, None), &Bound::Ok);
    Ok(end)
}

/// A role has nothing more, and no fault was counted.
fn assert_empty<N: Net>(rt: &impl Abort, plant: &mut RealPlant<'_, N>, role: Role) {
    let mut frame = Frame::new();
    let got = plant.recv(role, &mut frame);
    assert_same(rt, &(got, plant.faults()), &(Received::Empty, 0));
}

/// How many octets come, how many of them are kept, and whether the datagram is said to be longer.
const LENGTHS: &[(usize, usize, bool)] = &[
    (0, 0, false),
    (1, 1, false),
    (4095, 4095, false),
    (4096, 4096, false),
    (4097, 4096, true),
    (4200, 4096, true),
];

/// What comes next to access port 1 answers this, and so many octets of it, which count up, are kept.
fn assert_received<P: Plant>(
    rt: &impl Abort,
    plant: &mut P,
    frame: &mut Frame,
    wanted: Received,
    kept: usize,
) {
    plant.wait(5_000);
    let got = plant.recv(Role::Access(1), frame);
    assert_same(rt, &got, &wanted);
    assert_holds(rt, counts_up(frame.payload(), kept));
}

/// A datagram of each of these lengths comes to access port 1.
fn each_length_comes<P: Plant>(
    rt: &impl Abort,
    plant: &mut P,
    other: &Party,
    access: Peer,
) -> io::Result<()> {
    let mut frame = Frame::new();
    let from = other.end;
    for (length, kept, cut) in LENGTHS {
        send_all(rt, other, access, *length)?;
        let wanted = Received::Got { from, cut: *cut };
        assert_received(rt, plant, &mut frame, wanted, *kept);
    }
    Ok(())
}

#[test]
fn datagrams_come_in_whole_up_to_4096_octets(rt: HostRuntime) -> Result<(), Fail> {
    let other = stranger(&rt)?;
    let mut plant = RealPlant::new(&rt, rt.alloc())?;
    let access = open(&rt, &mut plant, Role::Access(1))?;
    each_length_comes(&rt, &mut plant, &other, access)?;
    assert_empty(&rt, &mut plant, Role::Access(1));
    Ok(())
}

const ROLES: &[Role] = &[
    Role::Control,
    Role::Core,
    Role::Auth,
    Role::Acct,
    Role::Tunnel,
    Role::Coa,
    Role::Access(1),
    Role::Access(2),
    Role::Access(255),
];

/// Gives each role its socket, to which as many octets come as roles stand before it.
fn open_each<R: Net + Abort, P: Plant>(rt: &R, plant: &mut P, other: &Party) -> io::Result<()> {
    for (at, role) in ROLES.iter().enumerate() {
        let end = open(rt, plant, *role)?;
        send_all(rt, other, end, at)?;
    }
    Ok(())
}

/// What a receive gave is a whole datagram of this sender, of so many octets.
fn assert_whole(rt: &impl Abort, got: Received, frame: &Frame, from: Peer, length: usize) {
    assert_same(rt, &got, &Received::Got { from, cut: false });
    assert_count(rt, frame.payload().len(), length);
}

/// Each role has what came to its own socket.
fn each_has_its_own<P: Plant>(rt: &impl Abort, plant: &mut P, from: Peer) {
    let mut frame = Frame::new();
    for (at, role) in ROLES.iter().enumerate() {
        let got = plant.recv(*role, &mut frame);
        assert_whole(rt, got, &frame, from, at);
    }
}

#[test]
fn each_role_has_a_socket_of_its_own(rt: HostRuntime) -> Result<(), Fail> {
    let other = stranger(&rt)?;
    let mut plant = RealPlant::new(&rt, rt.alloc())?;
    open_each(&rt, &mut plant, &other)?;
    plant.wait(5_000);
    each_has_its_own(&rt, &mut plant, other.end);
    Ok(())
}

/// The next datagram of a socket: whether its octets count up to so many, and the port that it came from.
fn came_whole(socket: &UdpSocket, length: usize) -> io::Result<(bool, u16)> {
    let mut room = [0u8; 4200];
    let (count, sender) = socket.recv_from(&mut room)?;
    Ok((counts_up(&room[..count], length), sender.port()))
}

/// Another party gets so many octets that count up, from this port.
fn gets(rt: &impl Abort, other: &Party, length: usize, port: u16) -> io::Result<()> {
    assert_same(rt, &came_whole(&other.socket, length)?, &(true, port));
    Ok(())
}

/// Has the core send so many octets that count up, 4,160 at most.
fn send_from_core<P: Plant>(plant: &mut P, to: Peer, length: usize) -> Sending {
    let octets = counting();
    plant.send(Role::Core, to, &octets[..length.min(4160)])
}

/// Has access port 240 send so many octets that count up, 4,168 at most, the most that any role may.
fn send_from_trunk<P: Plant>(plant: &mut P, to: Peer, length: usize) -> Sending {
    let octets = counting();
    plant.send(Role::Access(240), to, &octets[..length.min(4168)])
}

const CORE_LENGTHS: &[usize] = &[0, 1, 84, 4160];

/// So many octets that the core sends come to another party whole, from the core's port.
fn core_sends<P: Plant>(
    rt: &impl Abort,
    plant: &mut P,
    other: &Party,
    port: u16,
    length: usize,
) -> io::Result<()> {
    let sent = send_from_core(plant, other.end, length);
    assert_same(rt, &sent, &Sending::Sent);
    gets(rt, other, length, port)
}

/// The most octets that access port 240 sends come to another party whole, from that port's own.
fn trunk_sends<P: Plant>(
    rt: &impl Abort,
    plant: &mut P,
    other: &Party,
    port: u16,
) -> io::Result<()> {
    let sent = send_from_trunk(plant, other.end, 4168);
    assert_same(rt, &sent, &Sending::Sent);
    gets(rt, other, 4168, port)
}

#[test]
fn datagrams_leave_whole_from_their_role(rt: HostRuntime) -> Result<(), Fail> {
    let other = stranger(&rt)?;
    let mut plant = RealPlant::new(&rt, rt.alloc())?;
    let trunk = open(&rt, &mut plant, Role::Access(240))?;
    let core = open(&rt, &mut plant, Role::Core)?;
    for length in CORE_LENGTHS {
        core_sends(&rt, &mut plant, &other, core.port, *length)?;
    }
    trunk_sends(&rt, &mut plant, &other, trunk.port)?;
    assert_same(&rt, &plant.faults(), &0);
    Ok(())
}

/// A bind at an end that is taken fails, which is counted.
fn fails_to_bind<N: Net>(rt: &impl Abort, plant: &mut RealPlant<'_, N>, end: Peer) {
    let taken = plant.bind(Role::Access(1), end, None);
    assert_same(rt, &(taken, plant.faults()), &(Bound::Failed, 1));
}

/// A receive of a role without a socket fails, which is counted too.
fn fails_to_receive<N: Net>(rt: &impl Abort, plant: &mut RealPlant<'_, N>) {
    let mut frame = Frame::new();
    let unbound = plant.recv(Role::Access(1), &mut frame);
    assert_same(rt, &(unbound, plant.faults()), &(Received::Failed, 2));
}

/// So does a send of that role, and is counted.
fn fails_to_send<N: Net>(rt: &impl Abort, plant: &mut RealPlant<'_, N>, to: Peer) {
    let unsent = plant.send(Role::Access(1), to, b"out");
    assert_same(rt, &(unsent, plant.faults()), &(Sending::Failed, 3));
}

/// An end that takes nothing.
const NOWHERE: Peer = Peer {
    ip: LOOPBACK,
    port: 0,
};

/// So does a send of the core to such an end.
fn fails_to_reach<N: Net>(rt: &impl Abort, plant: &mut RealPlant<'_, N>) {
    let nowhere = plant.send(Role::Core, NOWHERE, b"out");
    assert_same(rt, &(nowhere, plant.faults()), &(Sending::Failed, 4));
}

#[test]
fn what_fails_is_counted(rt: HostRuntime) -> Result<(), Fail> {
    let mut plant = RealPlant::new(&rt, rt.alloc())?;
    let core = open(&rt, &mut plant, Role::Core)?;
    fails_to_bind(&rt, &mut plant, core);
    fails_to_receive(&rt, &mut plant);
    fails_to_send(&rt, &mut plant, core);
    fails_to_reach(&rt, &mut plant);
    Ok(())
}
