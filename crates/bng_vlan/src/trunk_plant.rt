ghost use Rattle.std.specs.Prelude.{◌≡◌, ◌≤◌, length};
ghost use Rattle.bng_base.specs.Causes.{HasCause};
ghost use Rattle.bng_base.specs.Told.{PlantTold, Grows};
ghost use Rattle.bng_base.specs.Stretch.{PlantStretch, plant_none, plant_joined, ExtendsPlant};
ghost use Rattle.bng_plant.specs.Calls.{send_most, IsFilled, binds};
ghost use Rattle.bng_vlan.specs.Stretches.{receiving, sending, waiting};

use bng_base::{Frame, Peer, Received, Role};
use bng_plant::{Bound, Sending};

/// Datagrams in and out, by role: `bng_plant::Plant`, but that what a call adds is told by a relation between the plant before and
/// the plant after it. What `Plant` tells is a function of the object, and a plant over trunks has none: how often a frame that it
/// keeps was given before the trunk was read again stands in no field of it. This trait is a copy for this crate alone. It goes
/// once `Plant` itself has the relation.
pub trait TrunkPlant {
    ghost told: { Self → PlantTold };

    ghost adds: { Self → PlantStretch → Self → Type 0 };

    /// Gives a role its socket. `remote` is the configured other end, where there is one.
    fn bind(&mut self, role: Role, local: Peer, remote: Option<Peer>) -> Bound
        ensures bound { Grows (told self.old).bound (told self.new).bound (binds role local result) }
        ensures heard { (told self.new).heard ≡ (told self.old).heard }
        ensures taken { (told self.new).taken ≡ (told self.old).taken }
        ensures sent { (told self.new).sent ≡ (told self.old).sent }
        ensures cause { HasCause (told self.old).faults (told self.new).faults (result ≡ Bound.Failed) }
        ensures uncounted { result ≡ Bound.Ok → (told self.new).faults ≡ (told self.old).faults };

    /// Takes the next datagram of a role into the frame, where one is there. The frame then has all its headroom.
    fn recv(&mut self, role: Role, into: &mut Frame) -> Received
        ensures filled { IsFilled result into.new }
        ensures adds { adds self.old (receiving role result into.new.payload) self.new };

    /// Hands a datagram to the system.
    fn send(&mut self, role: Role, to: Peer, bytes: &[u8]) -> Sending
        requires { length bytes.now ≤ send_most role }
        ensures adds { adds self.old (sending role to bytes.now result) self.new };

    /// Waits until a datagram may be there, at most so many milliseconds.
    fn wait(&mut self, ms: u32)
        ensures adds { adds self.old (waiting ms) self.new };

    // No call adds nothing.
    ghost none: { (p : Self) → adds p plant_none p };

    // What two stretches add, one after the other, they add together.
    ghost more: { (p q r : Self) (a b : PlantStretch) → adds p a q → adds q b r → adds p (plant_joined a b) r };

    // What is added is what is told.
    ghost tells: { (p q : Self) (a : PlantStretch) → adds p a q → ExtendsPlant (told p) (told q) a };
}
