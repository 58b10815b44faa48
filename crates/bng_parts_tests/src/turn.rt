//! Seats that sign a roll under the lock.
ghost use Rattle.std.specs.Prelude.{◌≡◌, ◌+◌, ◌^◌, ◌<◌, ℕ, false, length, slice_index_or};
ghost use Rattle.bng_turn.specs.Ends.{new_seat};

use crate::asserts::{assert_count, assert_holds, assert_same};
use bng_turn::{Booked, Turn, TurnSeat};
use std::process::Abort;
use std::sync::Wait;
use std::test::Fail;
use std::thread;
use std::thread::Threads;

// A list of (seat, place). What is booked of an entry is its place.
struct Roll {
    entries: Vec<(u64, u64)>,
}

impl Booked for Roll {
    type Mark = u64;

    ghost use Rattle.std.specs.Prelude.{◌≡◌, ◌++◌};

    ghost follows = { λ opening list state. state.entries.items ≡ opening.entries.items ++ list };
}

// Appends one entry of the seat, and answers the last one that it found.
fn sign<R: Wait + Abort>(
    rt: &R,
    turn: &Turn<Roll>,
    seat: &mut TurnSeat<Roll>,
    number: u64,
    place: u64,
) -> Option<(u64, u64)>
    requires seat { (seat.old.turn ≡ Some turn.now) × (seat.old.inside ≡ false) × (seat.old.number ≡ number) }
    requires few { length seat.old.own < 2 ^ 32 }
    ensures seat { (seat.new.turn ≡ Some turn.now) × (seat.new.inside ≡ false) × (seat.new.number ≡ number) }
    ensures own { length seat.new.own ≡ length seat.old.own + 1 }
{
    let mut roll = turn.enter(rt, seat);
    let found = roll.entries.last().copied();
    roll.entries.push((number, place)).expect(rt, "no room");
    turn.leave(seat, roll);
    found
}

fn sign_all<R: Wait + Abort>(
    rt: &R,
    turn: &Turn<Roll>,
    seat: &mut TurnSeat<Roll>,
    number: u64,
    places: u64,
)
    requires seat { seat.old ≡ new_seat turn.now number }
    requires few { places < 2 ^ 32 }
    ensures seat { (seat.new.turn ≡ Some turn.now) × (seat.new.inside ≡ false) × (seat.new.number ≡ number) }
{
    for place in 0..places {
        let _ = sign(rt, turn, seat, number, place);
    }
}

fn all_sign<R: Threads + Wait + Abort + Sync>(
    rt: &R,
    turn: &Turn<Roll>,
    seats: &mut [TurnSeat<Roll>],
    places: u64,
)
    requires seats { (k : ℕ) (d : _) → k < length seats.old → slice_index_or seats.old k d ≡ new_seat turn.now k }
    requires few { places < 2 ^ 32 }
    ensures count { length seats.new ≡ length seats.old }
    ensures seats { (k : ℕ) (d : _) → k < length seats.old → let q = slice_index_or seats.new k d in
        (q.turn ≡ Some turn.now) × (q.inside ≡ false) × (q.number ≡ k) }
{
    thread::for_each_mut(
        rt,
        seats,
        4,
        &|index: usize, seat: &mut TurnSeat<Roll>|
            requires { (seat.old ≡ new_seat turn.now index) × (places < 2 ^ 32) }
            ensures { (seat.new.turn ≡ Some turn.entry.now) × (seat.new.inside ≡ false) × (seat.new.number ≡ index) }
        { sign_all(rt, turn, seat, index as u64, places) },
    );
}

// The next entry of one of four seats has the place that comes next.
fn assert_next(rt: &impl Abort, next: &mut [u64; 4], seat: u64, place: u64) {
    assert_holds(rt, seat < 4);
    let seat = seat as usize;
    assert_same(rt, &next[seat], &place);
    next[seat] = place.wrapping_add(1);
}

// Each of four seats signed 1,000 places, in their order.
fn assert_each_in_order(rt: &impl Abort, entries: &[(u64, u64)]) {
    let mut next = [0u64; 4];
    for (seat, place) in entries {
        assert_next(rt, &mut next, *seat, *place);
    }
    assert_same(rt, &next, &[1000, 1000, 1000, 1000]);
}

#[test]
fn each_seats_entries_stand_once_and_in_its_order(rt: HostRuntime) -> Result<(), Fail> {
    let roll = Roll {
        entries: Vec::with_capacity(rt.alloc(), 4000)?,
    };
    match Turn::open(rt.alloc(), roll, 4) {
        Err((refused, Roll { entries: _ })) => Err(refused)?,
        Ok((turn, mut seats)) => {
            all_sign(&rt, &turn, seats.as_mut_slice(), 1000);
            let Roll { entries } = turn.close(seats);
            assert_count(&rt, entries.len(), 4000);
            assert_each_in_order(&rt, entries.as_slice());
        }
    }
    Ok(())
}

#[test]
fn a_seat_that_enters_twice_finds_its_first_entry(rt: HostRuntime) -> Result<(), Fail> {
    let roll = Roll {
        entries: Vec::with_capacity(rt.alloc(), 2)?,
    };
    match Turn::open(rt.alloc(), roll, 1) {
        Err((refused, Roll { entries: _ })) => Err(refused)?,
        Ok((turn, mut seats)) => {
            let seat = &mut seats[0];
            let first = sign(&rt, &turn, seat, 0, 7);
            let second = sign(&rt, &turn, seat, 0, 8);
            let Roll { entries } = turn.close(seats);
            assert_same(&rt, &(first, second), &(None, Some((0, 7))));
            assert_same(&rt, &entries.as_slice(), &[(0, 7), (0, 8)].as_slice());
        }
    }
    Ok(())
}

#[test]
fn a_turn_in_which_nothing_was_done_gives_the_opening_state(rt: HostRuntime) -> Result<(), Fail> {
    let mut entries = Vec::with_capacity(rt.alloc(), 1)?;
    entries.push((3, 9))?;
    match Turn::open(rt.alloc(), Roll { entries }, 2) {
        Err((refused, Roll { entries: _ })) => Err(refused)?,
        Ok((turn, seats)) => {
            let Roll { entries } = turn.close(seats);
            assert_same(&rt, &entries.as_slice(), &[(3, 9)].as_slice());
        }
    }
    Ok(())
}
