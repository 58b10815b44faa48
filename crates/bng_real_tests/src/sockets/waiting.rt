//! The waits of a plant, and what its turns read.
use super::{Party, assert_empty, assert_whole, open, send_all, send_counting, stranger};
use crate::asserts::{assert_holds, assert_other, assert_same};
use bng_base::{Frame, Peer, Received, Role};
use bng_plant::Plant;
use bng_real::RealPlant;
use std::io;
use std::net::{Net, UdpSocket};
use std::process::Abort;
use std::test::Fail;
use std::time::{Clock, Duration, Instant};

/// A wait in which nothing comes takes its time. The answer is when it began.
fn wait_for_nothing<R: Clock + Abort, P: Plant>(rt: &R, plant: &mut P) -> io::Result<Instant> {
    let start = Instant::now(rt)?;
    plant.wait(20);
    let waited = start.elapsed(rt)?;
    assert_holds(rt, waited >= Duration::from_millis(20));
    Ok(start)
}

/// A wait for what comes to Control ends with it, and nothing more comes.
fn wait_for_one<N: Net>(
    rt: &impl Abort,
    plant: &mut RealPlant<'_, N>,
    other: &Party,
    control: Peer,
) -> io::Result<()> {
    let mut frame = Frame::new();
    send_all(rt, other, control, 4)?;
    plant.wait(50_000);
    let got = plant.recv(Role::Control, &mut frame);
    assert_other(rt, &got, &Received::Empty);
    assert_empty(rt, plant, Role::Control);
    Ok(())
}

#[test]
fn wait_ends_at_a_datagram_or_its_time(rt: HostRuntime) -> Result<(), Fail> {
    let other = stranger(&rt)?;
    let mut plant = RealPlant::new(&rt, rt.alloc())?;
    let control = open(&rt, &mut plant, Role::Control)?;
    let start = wait_for_nothing(&rt, &mut plant)?;
    for _ in 0..3 {
        wait_for_one(&rt, &mut plant, &other, control)?;
    }
    assert_holds(&rt, start.elapsed(&rt)? < Duration::from_secs(30));
    Ok(())
}

/// What access port 1 gives next, once waited for where nothing is there yet.
fn take_or_wait<P: Plant>(plant: &mut P, frame: &mut Frame) -> Received {
    let got = plant.recv(Role::Access(1), frame);
    if got != Received::Empty {
        return got;
    }
    plant.wait(5_000);
    plant.recv(Role::Access(1), frame)
}

/// Four datagrams come, of one octet, two, three and four.
fn send_four(rt: &impl Abort, other: &Party, to: Peer) -> io::Result<()> {
    for length in 1..=4 {
        send_all(rt, other, to, length)?;
    }
    Ok(())
}

/// Access port 1 gives these four in their order.
fn take_four<P: Plant>(rt: &impl Abort, plant: &mut P, from: Peer) {
    let mut frame = Frame::new();
    for length in 1..=4 {
        let got = take_or_wait(plant, &mut frame);
        assert_whole(rt, got, &frame, from, length);
    }
}

#[test]
fn what_came_is_read_on_until_it_runs_out(rt: HostRuntime) -> Result<(), Fail> {
    let other = stranger(&rt)?;
    let mut plant = RealPlant::new(&rt, rt.alloc())?;
    let access = open(&rt, &mut plant, Role::Access(1))?;
    send_four(&rt, &other, access)?;
    take_four(&rt, &mut plant, other.end);
    assert_empty(&rt, &mut plant, Role::Access(1));
    Ok(())
}

/// What an access port gives in a turn that reads Control once before it. Before that, so many more datagrams come to Control.
fn turn<P: Plant>(
    plant: &mut P,
    other: &UdpSocket,
    control: Peer,
    more: usize,
) -> io::Result<Received> {
    for _ in 0..more {
        send_counting(other, control, 1)?;
    }
    let mut frame = Frame::new();
    let _ = plant.recv(Role::Control, &mut frame);
    Ok(plant.recv(Role::Access(1), &mut frame))
}

/// What an access port gives in turns that read Control once before it, 100,000 of them at most. Before each, so many more
/// datagrams come to Control.
fn come_in<P: Plant>(
    plant: &mut P,
    other: &UdpSocket,
    control: Peer,
    more: usize,
) -> io::Result<Received> {
    for _ in 0..100_000 {
        let got = turn(plant, other, control, more)?;
        if got != Received::Empty {
            return Ok(got);
        }
    }
    Ok(Received::Empty)
}

/// What comes to access port 1 is read in such turns, once and whole.
fn assert_read_beside_control<N: Net>(
    rt: &impl Abort,
    plant: &mut RealPlant<'_, N>,
    other: &Party,
    control: Peer,
    access: Peer,
    more: usize,
) -> io::Result<()> {
    let from = other.end;
    send_all(rt, other, access, 4)?;
    let got = come_in(plant, &other.socket, control, more)?;
    assert_same(rt, &got, &Received::Got { from, cut: false });
    assert_empty(rt, plant, Role::Access(1));
    Ok(())
}

/// How many datagrams come to Control before each turn.
const MORE: &[usize] = &[0, 0, 0, 2, 2, 2];

#[test]
fn turns_read_a_port_whatever_comes_to_control(rt: HostRuntime) -> Result<(), Fail> {
    let other = stranger(&rt)?;
    let mut plant = RealPlant::new(&rt, rt.alloc())?;
    let control = open(&rt, &mut plant, Role::Control)?;
    let access = open(&rt, &mut plant, Role::Access(1))?;
    for more in MORE {
        assert_read_beside_control(&rt, &mut plant, &other, control, access, *more)?;
    }
    Ok(())
}
