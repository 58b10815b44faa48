//! Messages of an access concentrator whose numbers come round (RFC 2661 section 5.8).
ghost use Rattle.std.specs.Prelude.{◌≡◌, None};
ghost use Rattle.bng_base.specs.Causes.{HasCause};
ghost use Rattle.bng_plant.specs.Calls.{IsFilled};

use super::concentrator::{PLAIN, TUNNELS};
use super::loopback;
use super::running::{SERVE, around, run_with, seed};
use crate::asserts::{assert_holds, assert_same};
use bng_base::{Frame, Peer, Received, Role};
use bng_plant::{Bound, MemoryClock, NoTrace, Plant, Sending};
use std::alloc::{AllocError, Global};
use std::sync::Wait;
use std::test::Fail;
use std::thread::Threads;

/// An SCCRQ with the Assigned Tunnel ID 5, and the SCCCN for tunnel 0401.
const SCCRQ: &[u8; 56] =
    b"\xc8\x02\x00\x38\x00\x00\x00\x00\x00\x00\x00\x00\x80\x08\x00\x00\x00\x00\x00\x01\x80\x08\x00\x00\x00\x02\x01\x00\x80\x0a\x00\x00\x00\x03\x00\x00\x00\x03\x80\x0a\x00\x00\x00\x07\x6c\x61\x63\x31\x80\x08\x00\x00\x00\x09\x00\x05";

const SCCCN: &[u8; 20] =
    b"\xc8\x02\x00\x14\x04\x01\x00\x00\x00\x01\x00\x01\x80\x08\x00\x00\x00\x00\x00\x03";

/// The concentrator sets up a tunnel, and then says HELLO with these numbers, one after another. It keeps the Nr of what it is told. Once it
/// has said all, the operator stops the gateway.
#[derive(Drop)]
struct Concentrator {
    numbers: Vec<u16>,
    next: usize,
    stopped: bool,
    told: Vec<u16>,
    faults: u64,
}

impl Concentrator {
    /// The next of its messages.
    fn speak(&mut self, into: &mut Frame) -> Received
        ensures filled { IsFilled result into.new }
        ensures cause { HasCause self.old.faults self.new.faults (result ≡ Received.Failed) }
    {
        let Some(ns) = self.numbers.get(self.next).copied() else {
            return Received::Empty;
        };
        match self.next {
            0 => into.set(SCCRQ),
            1 => into.set(SCCCN),
            _ => into.set(&hello(ns)),
        }
        self.next = self.next.saturating_add(1);
        Received::Got {
            from: PLAIN,
            cut: false,
        }
    }

    /// The operator's word.
    fn end(&mut self, into: &mut Frame) -> Received
        ensures filled { IsFilled result into.new }
        ensures cause { HasCause self.old.faults self.new.faults (result ≡ Received.Failed) }
    {
        if self.stopped || self.next < self.numbers.len() {
            return Received::Empty;
        }
        self.stopped = true;
        into.set(b"stop");
        Received::Got {
            from: loopback(5),
            cut: false,
        }
    }
}

impl Plant for Concentrator {
    ghost told = { λ plant. record { bound = None; heard = None; taken = None; sent = None; faults = plant.faults } };

    fn bind(&mut self, _role: Role, _local: Peer, _remote: Option<Peer>) -> Bound {
        Bound::Ok
    }

    fn recv(&mut self, role: Role, into: &mut Frame) -> Received {
        match role {
            Role::Tunnel => self.speak(into),
            Role::Control => self.end(into),
            _ => Received::Empty,
        }
    }

    fn send(&mut self, role: Role, _to: Peer, bytes: &[u8]) -> Sending {
        if role != Role::Tunnel {
            return Sending::Sent;
        }
        let (Some(high), Some(low)) = (bytes.get(10), bytes.get(11)) else {
            return Sending::Sent;
        };
        if self.told.push(u16::from_be_bytes([*high, *low])).is_ok() {
            return Sending::Sent;
        }
        self.faults = self.faults.saturating_add(1);
        Sending::Failed
    }

    fn wait(&mut self, _ms: u32) {}
}

/// A HELLO for tunnel 0401 with this Ns.
fn hello(ns: u16) -> [u8; 20] {
    let [high, low] = ns.to_be_bytes();
    [
        0xc8, 2, 0, 20, 4, 1, 0, 0, high, low, 0, 1, 0x80, 8, 0, 0, 0, 0, 0, 6,
    ]
}

/// Its messages have the numbers 0 to 65,535, and then 0; the one before it again; 2, which is too early; and 1.
fn of_all_numbers(alloc: Global) -> Result<Concentrator, AllocError> {
    let mut numbers = Vec::new(alloc);
    for ns in 0..65_535u16 {
        numbers.push(ns)?;
    }
    numbers.extend_from_slice(&[65_535, 0, 65_535, 2, 1])?;
    Ok(Concentrator {
        numbers,
        next: 0,
        stopped: false,
        told: Vec::new(alloc),
        faults: 0,
    })
}

/// How a run over it ends, by four shards.
fn run_over_it<R: Threads + Wait + Sync>(
    rt: &R,
    alloc: Global,
    plant: &mut Concentrator,
) -> Result<u8, AllocError> {
    let mut around = around(alloc, &SERVE, TUNNELS, &[])?;
    let mut clock = MemoryClock::new(alloc, 10, 1_700_000_000, 64)?;
    let mut entropy = seed(alloc, &[])?;
    Ok(run_with(
        rt,
        alloc,
        &mut around,
        plant,
        &mut clock,
        &mut entropy,
        &mut NoTrace,
    ))
}

#[test]
fn numbers_of_messages_go_on_from_65535_to_0(rt: HostRuntime) -> Result<(), Fail> {
    let alloc = rt.alloc();
    let mut plant = of_all_numbers(alloc)?;
    let status = run_over_it(&rt, alloc, &mut plant)?;
    assert_same(&rt, &status, &0);
    // Each message is acknowledged, the one that comes again with what was told last, and the one that comes too early is not.
    let mut told = plant.told.iter();
    for nr in 1..65_535u16 {
        assert_same(&rt, &told.next(), &Some(&nr));
    }
    for nr in [65_535u16, 0, 1, 1, 2, 2] {
        assert_same(&rt, &told.next(), &Some(&nr));
    }
    assert_holds(&rt, told.next().is_none());
    Ok(())
}
