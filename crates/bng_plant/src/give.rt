//! What a script gives.
ghost use Rattle.std.specs.Prelude.{◌≡◌, ◌≤◌, ◌<◌, ◌+◌, ◌++◌, ◌↔◌, length, take, map, if◌then◌else◌, IsTrue, IsSomeAnd, slice_get};
ghost use Rattle.bng_base.specs.Told.{taken_by};
ghost use Rattle.bng_plant.specs.Arrival.{datagram_of, is_got, IsFor, IsGiven};
ghost use Rattle.bng_plant.specs.Calls.{IsFilled};

use crate::arrival::Arrival;
use bng_base::{Frame, Received, Role};

/// Gives the arrival at this place of the script, where it is for this role and so many waits came before it.
pub fn give(
    script: &[Arrival],
    next: &mut usize,
    waited: &mut u32,
    role: Role,
    into: &mut Frame,
) -> Received
    ensures answers { ¬ (result ≡ Received.Failed) }
    ensures filled { IsFilled result into.new }
    ensures empty { (result ≡ Received.Empty) ↔ ¬ IsSomeAnd (slice_get script.now next.old) (IsFor role waited.old) }
    ensures got { IsTrue (is_got result) → IsSomeAnd (slice_get script.now next.old) (IsGiven role waited.old result into.new) }
    ensures told { map datagram_of (take next.new script.now) ≡ map datagram_of (take next.old script.now) ++ taken_by role result into.new.payload }
    ensures next { next.new ≡ (if is_got result then next.old + 1 else next.old) }
    ensures waited { waited.new ≡ (if is_got result then 0 else waited.old) }
    ensures within { next.old ≤ length script.now → next.new ≤ length script.now }
    ensures kept { result ≡ Received.Empty → into.new ≡ into.old }
{
    if *next >= script.len() {
        return Received::Empty;
    }
    let arrival = &script[*next];
    if arrival.role != role || arrival.waits > *waited {
        return Received::Empty;
    }
    into.set(arrival.octets.as_slice());
    *next += 1;
    *waited = 0;
    Received::Got {
        from: arrival.from,
        cut: arrival.cut,
    }
}
