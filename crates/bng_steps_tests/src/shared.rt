//! Sessions of a plain store that share an address.
ghost use Rattle.std.specs.Prelude.{◌≡◌, ◌≢◌, [], IfOk};
ghost use Rattle.std.specs.List.{All, AllPairs};
ghost use Rattle.bng_sessions.specs.Sessions.{IsNumberOf};
ghost use Rattle.bng_steps.specs.Opening.{opened_slots};
ghost use Rattle.bng_steps.specs.Serving.{KeepsLease};
ghost use Rattle.bng_steps.specs.Timers.{stays_at};

use crate::asserts::{assert_holds, assert_same};
use crate::plain::Plain;
use crate::plain_step::put_plainly;
use arrayvec::ArrayVec;
use bng_base::{Ip4, Mac, SessionNo, Static};
use bng_steps::{Served, Session, Store};
use bng_term::{Lifetime, Limits};
use std::alloc::{AllocError, Global};
use std::process::Abort;
use std::test::Fail;

// The address that all sessions share.
const SHARED: Ip4 = Ip4(0x0a000002);

/// The circuit of the shard 0 with this session number, on the port 1, with the shared address.
pub(crate) fn circuit(session: u8) -> Static
    ensures session { result.session.0 ≡ session }
    ensures port { result.port ≡ 1 }
{
    let mut user = ArrayVec::new();
    user.push(b'f');
    Static {
        port: 1,
        mac: Mac([2, 0, 0, 0, 0, session]),
        session: SessionNo(u16::from(session)),
        address: SHARED,
        user,
        profile: 0,
    }
}

// The sessions of these circuits of the shard 0, at its opening at moment 0.
fn open(alloc: Global, circuits: &[Static]) -> Result<Served<Plain>, AllocError>
    requires own { All (λ c. IsNumberOf 0 c.session.0) circuits.now }
    requires sessions { AllPairs (λ a b. a.session ≢ b.session) circuits.now }
    ensures opened { IfOk result (λ s. s ≡ record (opened_slots 0 [] circuits.now 0) { terms = [] }) }
{
    let sessions = Plain::open(alloc, 0)?;
    Served::open(alloc, sessions, 0, &[], circuits, 0)
}

// Whether there is a session with this number that has not ended.
fn stays(served: &Served<Plain>, number: SessionNo) -> bool
    ensures { result ≡ stays_at served.now number.0 }
{
    match served.get(number) {
        Some(session) => !session.has_ended(),
        None => false,
    }
}

// Takes out the session with this number.
fn take(rt: &impl Abort, served: &mut Served<Plain>, number: u16) {
    assert_holds(rt, stays(served, SessionNo(number)));
    let _session = served.take(SessionNo(number));
}

// Puts a session at its number, whoever has its address.
fn put(rt: &impl Abort, served: &mut Served<Plain>, session: Session)
    requires { KeepsLease session.service session.lease }
{
    let number = session.number;
    let first = served.shard() * 1024 + 1;
    assert_holds(rt, first <= number.0);
    assert_holds(rt, number.0 < first + 1022);
    assert_holds(rt, served.get(number).is_none());
    put_plainly(served, session);
}

// The session of the circuit with this number.
fn session_of(rt: &impl Abort, alloc: Global, number: u8) -> Result<Session, Fail>
    ensures { IfOk result (λ x. KeepsLease x.service x.lease) }
{
    assert_holds(rt, 1 <= number);
    let circuit = circuit(number);
    let mut served = open(alloc, std::slice::from_ref(&circuit))?;
    let number = SessionNo(u16::from(number));
    assert_holds(rt, stays(&served, number));
    Ok(served.take(number))
}

// The number of the session that has the shared address.
fn holder(served: &Served<Plain>) -> Option<u16> {
    Some(served.holder_of(SHARED)?.number.0)
}

fn assert_holder(rt: &impl Abort, served: &Served<Plain>, wanted: Option<u16>) {
    assert_same(rt, &holder(served), &wanted);
}

// The sessions 1 and 2, put in falling order.
fn open_two(rt: &impl Abort, alloc: Global) -> Result<Served<Plain>, Fail> {
    let mut served = open(alloc, &[])?;
    put(rt, &mut served, session_of(rt, alloc, 2)?);
    put(rt, &mut served, session_of(rt, alloc, 1)?);
    Ok(served)
}

#[test]
fn of_two_sessions_with_an_address_the_lower_number_has_it(rt: HostRuntime) -> Result<(), Fail> {
    let mut served = open_two(&rt, rt.alloc())?;
    assert_holder(&rt, &served, Some(1));
    take(&rt, &mut served, 1);
    assert_holder(&rt, &served, Some(2));
    take(&rt, &mut served, 2);
    assert_holder(&rt, &served, None);
    Ok(())
}

// It has this Session-Timeout in seconds from moment 0 on, or none where this is 0.
fn lasting(mut session: Session, seconds: u32) -> Session
    requires { KeepsLease session.service session.lease }
    ensures { KeepsLease result.service result.lease }
{
    if let Some(lease) = &mut session.lease {
        let limits = Limits {
            session_timeout: seconds,
            idle_timeout: 0,
            interim: None,
        };
        lease.life = Lifetime::new(limits, 0);
    }
    session
}

// Four sessions, with their Session-Timeouts in seconds.
const FOUR: [(u8, u32); 4] = [(5, 30), (2, 60), (4, 30), (1, 0)];

fn open_four(rt: &impl Abort, alloc: Global) -> Result<Served<Plain>, Fail> {
    let mut served = open(alloc, &[])?;
    for (number, seconds) in FOUR {
        let session = session_of(rt, alloc, number)?;
        put(rt, &mut served, lasting(session, seconds));
    }
    Ok(served)
}

// The lowest number that is not used.
fn vacant(served: &Served<Plain>) -> Option<u16> {
    Some(served.vacant()?.0)
}

// The earliest deadline in milliseconds, with the lowest number that has it.
fn earliest(served: &Served<Plain>) -> Option<(u64, u16)> {
    let (moment, number) = served.sessions.earliest()?;
    Some((moment, number.0))
}

// How many sessions there are, and both of these.
fn assert_store(rt: &impl Abort, served: &Served<Plain>, wanted: (u32, u16, Option<(u64, u16)>)) {
    assert_same(rt, &served.count(), &wanted.0);
    assert_same(rt, &vacant(served), &Some(wanted.1));
    assert_same(rt, &earliest(served), &wanted.2);
}

#[test]
fn a_plain_store_counts_and_finds_the_earliest_deadline(rt: HostRuntime) -> Result<(), Fail> {
    let mut served = open_four(&rt, rt.alloc())?;
    assert_store(&rt, &served, (4, 3, Some((30_000, 4))));
    take(&rt, &mut served, 4);
    assert_store(&rt, &served, (3, 3, Some((30_000, 5))));
    take(&rt, &mut served, 5);
    take(&rt, &mut served, 1);
    assert_store(&rt, &served, (1, 1, Some((60_000, 2))));
    take(&rt, &mut served, 2);
    assert_store(&rt, &served, (0, 1, None));
    Ok(())
}
