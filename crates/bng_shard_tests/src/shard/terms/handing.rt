//! A shard that is handed to another thread, and back.
ghost use Rattle.std.specs.Prelude.{◌≡◌, IfOk, length};

use super::circuit_of;
use super::shown::{first, is_end, second};
use crate::asserts::{assert_holds, assert_same};
use crate::shard::settings::rules;
use crate::shard::{NOTHING, assert_sessions, has_low_books, item};
use bng_base::{Circuit, Claim, Ip4, ItemKind, TermId};
use bng_shard::Shard;
use std::alloc::Global;
use std::process::Abort;
use std::test::Fail;
use std::thread;
use std::thread::Threads;

// How many entries the journal of a round has, and how many datagrams are to be sent for them.
type Counts = (usize, usize);

// The shard 1 with two circuits.
fn open_with_two(alloc: Global) -> Result<Shard, Fail>
    ensures { IfOk result (λ s. length s.state.rules.profiles ≡ 2) }
{
    let rules = rules(alloc)?;
    let circuits = [
        circuit_of(2, 1026, 0x0a000003, 0),
        circuit_of(1, 1025, 0x0a000002, 1),
    ];
    Ok(Shard::open(alloc, 1, rules, circuits.as_slice(), 0)?)
}

// Handles an End of the shard 1, and gives the shard back. An End asks for no address.
fn ended(alloc: Global, shard: Shard) -> (Shard, Option<Counts>)
    requires { length shard.state.rules.profiles ≡ 2 }
{
    let mut shard = shard;
    // No round is going on now, which `prepare` asks.
    let _none = shard.drain();
    if shard.prepare(alloc, 1, 0).is_err() {
        return (shard, None);
    }
    if !has_low_books(&shard) {
        return (shard, None);
    }
    let mut end = item(ItemKind::End, &[]);
    end.target = 1;
    let mut tally = NOTHING;
    let _consumed = shard.step_with(0, 0, 0, &end, Claim::NoClaim, &mut tally);
    let (journal, outs) = shard.drain();
    (shard, Some((journal.len(), outs.len())))
}

// Each of two shards is handed to a thread of its own, and comes back.
fn both_ended(
    rt: &impl Threads,
    alloc: Global,
    one: Shard,
    other: Shard,
) -> ((Shard, Option<Counts>), (Shard, Option<Counts>))
    requires one { length one.state.rules.profiles ≡ 2 }
    requires other { length other.state.rules.profiles ≡ 2 }
{
    thread::join(rt, move || ended(alloc, one), move || ended(alloc, other))
}

// This term leaves next.
fn assert_leaves(rt: &impl Abort, shard: &mut Shard, term: (TermId, Circuit, Ip4)) {
    let ended = shard.take_ended();
    assert_holds(rt, ended.as_ref().is_some_and(|ended| is_end(ended, term)));
}

// Its End was handled, and the terms of both circuits leave, one after the other.
fn assert_ended(rt: &impl Abort, shard: Shard, counts: Option<Counts>) {
    let mut shard = shard;
    assert_same(rt, &counts, &Some((1, 0)));
    assert_leaves(rt, &mut shard, first());
    assert_leaves(rt, &mut shard, second());
    assert_holds(rt, shard.take_ended().is_none());
    assert_sessions(rt, &shard, 0);
}

#[test]
fn shards_are_handled_in_threads_of_their_own(rt: HostRuntime) -> Result<(), Fail> {
    let alloc = rt.alloc();
    let one = open_with_two(alloc)?;
    let other = open_with_two(alloc)?;
    let ((one, counts), (other, others)) = both_ended(&rt, alloc, one, other);
    assert_ended(&rt, one, counts);
    assert_ended(&rt, other, others);
    Ok(())
}
