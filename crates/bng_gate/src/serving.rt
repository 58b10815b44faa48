//! Serving, the ending and the grace, turn by turn.
ghost use Rattle.std.specs.Prelude.{◌≡◌, ◌≤◌, ◌<◌, ◌^◌, false, OnOk, OnErr};
ghost use Rattle.bng_desk.specs.Model.{graces_most, state_of};
ghost use Rattle.bng_gate.specs.Serving.{Serves, FailsServing, Finishes, FailsFinishing};
ghost use Rattle.bng_gate.specs.Serving.{is_serving as stands_serving, is_late as stands_late, is_starved as stands_starved, is_fault as answers_fault};

use bng_desk::{Desk, DeskState, Turned};
use bng_plant::{Clock, Gate, Plant, Trace};
use std::alloc::Global;
use std::sync::Wait;
use std::thread::Threads;

/// The trace did not take a round.
#[derive(Clone, Copy, Debug)]
pub struct TraceFault;

fn is_serving(desk: &Desk) -> bool
    ensures { result ≡ stands_serving (state_of desk.now) }
{
    match desk.state() {
        DeskState::Serving => true,
        DeskState::Ending | DeskState::Grace | DeskState::Ended | DeskState::Starved => false,
    }
}

// Whether serving is over and turns are still to be made.
fn is_late(desk: &Desk) -> bool
    ensures stands { result ≡ stands_late (state_of desk.now) }
    ensures few { desk.now.endings < 2 ^ 37 }
    ensures few_graces { desk.now.graces ≤ graces_most }
{
    match desk.state() {
        DeskState::Ending | DeskState::Grace => true,
        DeskState::Serving | DeskState::Ended | DeskState::Starved => false,
    }
}

/// Whether the ending came to no round of Ends.
pub fn has_starved(desk: &Desk) -> bool
    ensures { result ≡ stands_starved (state_of desk.now) }
{
    match desk.state() {
        DeskState::Starved => true,
        DeskState::Serving | DeskState::Ending | DeskState::Grace | DeskState::Ended => false,
    }
}

fn is_fault(turned: Turned) -> bool
    ensures { result ≡ answers_fault turned }
{
    match turned {
        Turned::TraceFault => true,
        Turned::Ok | Turned::WantOfMemory => false,
    }
}

/// Turns of a new desk until it has served, or until the trace did not take a round.
pub fn serve<R, P: Plant, C: Clock, T: Trace, G>(
    rt: &R,
    alloc: Global,
    desk: &mut Desk,
    plant: &mut P,
    clock: &mut C,
    trace: &mut T,
    gate: &G,
) -> Result<(), TraceFault>
where
    R: Threads + Wait + Sync,
    G: Gate + Sync,
    requires turns { desk.old.turns ≡ 0 }
    requires serving { desk.old.stopped ≡ false }
    requires later { desk.old.moment ≤ (C.told clock.old).last }
    ensures served { OnOk result (Serves desk.old desk.new
        (record { plant = P.told plant.old; clock = C.told clock.old; trace = T.told trace.old })
        (record { plant = P.told plant.new; clock = C.told clock.new; trace = T.told trace.new })) }
    ensures failed { OnErr result (FailsServing desk.old desk.new
        (record { plant = P.told plant.old; clock = C.told clock.old; trace = T.told trace.old })
        (record { plant = P.told plant.new; clock = C.told clock.new; trace = T.told trace.new })) }
    ensures later { desk.new.moment ≤ (C.told clock.new).last }
{
    'serving: while is_serving(desk) {
        let turned = desk.turn(rt, alloc, plant, clock, trace, gate);
        if is_fault(turned) {
            return Err(TraceFault);
        }
    }
    Ok(())
}

/// Turns of a desk that has served: of the ending, until no session is left or it starved, and then of the grace, until that is over;
/// or until the trace did not take a round.
pub fn finish<R, P: Plant, C: Clock, T: Trace, G>(
    rt: &R,
    alloc: Global,
    desk: &mut Desk,
    plant: &mut P,
    clock: &mut C,
    trace: &mut T,
    gate: &G,
) -> Result<(), TraceFault>
where
    R: Threads + Wait + Sync,
    G: Gate + Sync,
    requires over { ¬ (state_of desk.old ≡ DeskState.Serving) }
    requires later { desk.old.moment ≤ (C.told clock.old).last }
    ensures finished { OnOk result (Finishes desk.old desk.new
        (record { plant = P.told plant.old; clock = C.told clock.old; trace = T.told trace.old })
        (record { plant = P.told plant.new; clock = C.told clock.new; trace = T.told trace.new })) }
    ensures failed { OnErr result (FailsFinishing desk.old desk.new
        (record { plant = P.told plant.old; clock = C.told clock.old; trace = T.told trace.old })
        (record { plant = P.told plant.new; clock = C.told clock.new; trace = T.told trace.new })) }
{
    'ending: while is_late(desk) {
        let made = desk.turn(rt, alloc, plant, clock, trace, gate);
        if is_fault(made) {
            return Err(TraceFault);
        }
    }
    Ok(())
}
