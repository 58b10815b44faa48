ghost use Rattle.std.specs.Prelude.{◌≡◌, ◌<◌, ◌≤◌, ◌^◌, [], ◌∷◌, length, IfOk, OnErr, IsErrOf};
ghost use Rattle.bng_base.specs.declared.outside.Heard.TheVariants.{Receive, Wait};
ghost use Rattle.bng_base.specs.declared.outside.ClockAnswer.TheVariants.{Now, Wall};
ghost use Rattle.bng_base.specs.Causes.{HasCause};
ghost use Rattle.bng_base.specs.Told.{FilesTold, PlantTold, ClockTold, EntropyTold, TraceTold, SinkTold, Grows, GrowsIfTold, taken_by};
ghost use Rattle.bng_plant.specs.Calls.{send_most, IsFilled, binds, sends, seeds, reads, notes, writes};

use crate::answers::{Bound, FileError, Noted, Seeded, Sending, Wrote};
use bng_base::{Frame, Peer, Received, Role, RoundRecord};
use std::alloc::Global;

/// Datagrams in and out, by role.
pub trait Plant {
    ghost told: { Self → PlantTold };

    /// Gives a role its socket. `remote` is the configured other end, where there is one.
    fn bind(&mut self, role: Role, local: Peer, remote: Option<Peer>) -> Bound
        ensures bound { Grows (told self.old).bound (told self.new).bound (binds role local result) }
        ensures heard { (told self.new).heard ≡ (told self.old).heard }
        ensures taken { (told self.new).taken ≡ (told self.old).taken }
        ensures sent { (told self.new).sent ≡ (told self.old).sent }
        ensures cause { HasCause (told self.old).faults (told self.new).faults (result ≡ Bound.Failed) }
        ensures uncounted { result ≡ Bound.Ok → (told self.new).faults ≡ (told self.old).faults };

    /// Takes the next datagram of a role into the frame, where one is there. The frame then has all its headroom.
    fn recv(&mut self, role: Role, into: &mut Frame) -> Received
        ensures filled { IsFilled result into.new }
        ensures bound { (told self.new).bound ≡ (told self.old).bound }
        ensures heard { GrowsIfTold (told self.old).heard (told self.new).heard (Receive role result ∷ []) }
        ensures taken { Grows (told self.old).taken (told self.new).taken (taken_by role result into.new.payload) }
        ensures sent { (told self.new).sent ≡ (told self.old).sent }
        ensures cause { HasCause (told self.old).faults (told self.new).faults (result ≡ Received.Failed) };

    /// Hands a datagram to the system.
    fn send(&mut self, role: Role, to: Peer, bytes: &[u8]) -> Sending
        requires { length bytes.now ≤ send_most role }
        ensures bound { (told self.new).bound ≡ (told self.old).bound }
        ensures heard { (told self.new).heard ≡ (told self.old).heard }
        ensures taken { (told self.new).taken ≡ (told self.old).taken }
        ensures sent { Grows (told self.old).sent (told self.new).sent (sends role to bytes.now result) }
        ensures cause { HasCause (told self.old).faults (told self.new).faults (result ≡ Sending.Failed) };

    /// Waits until a datagram may be there, at most so many milliseconds.
    fn wait(&mut self, ms: u32)
        ensures bound { (told self.new).bound ≡ (told self.old).bound }
        ensures heard { GrowsIfTold (told self.old).heard (told self.new).heard (Wait ms ∷ []) }
        ensures taken { (told self.new).taken ≡ (told self.old).taken }
        ensures sent { (told self.new).sent ≡ (told self.old).sent }
        ensures later { (told self.old).faults ≤ (told self.new).faults };
}

/// The moment, in milliseconds, and the second on the wall.
pub trait Clock {
    ghost told: { Self → ClockTold };

    /// The moment, never below the last one and below 2^60.
    fn now(&mut self) -> u64
        ensures answers { GrowsIfTold (told self.old).answers (told self.new).answers (Now result ∷ []) }
        ensures later { (told self.old).last ≤ result }
        ensures last { (told self.new).last ≡ result }
        ensures bound { result < 2 ^ 60 };

    /// Seconds since the beginning of 1970.
    fn wall(&mut self) -> u64
        ensures answers { GrowsIfTold (told self.old).answers (told self.new).answers (Wall result ∷ []) }
        ensures last { (told self.new).last ≡ (told self.old).last };
}

/// Where random seeds come from.
pub trait Entropy {
    ghost told: { Self → EntropyTold };

    fn seed(&mut self) -> Seeded
        ensures seeds { Grows (told self.old).seeds (told self.new).seeds (seeds result) }
        ensures cause { HasCause (told self.old).faults (told self.new).faults (result ≡ Seeded.Failed) }
        ensures uncounted { ¬ (result ≡ Seeded.Failed) → (told self.new).faults ≡ (told self.old).faults };
}

/// Files by name.
pub trait Files {
    ghost told: { Self → FilesTold };

    /// The whole content of the file of this name.
    fn read(&mut self, alloc: Global, name: &str) -> Result<Vec<u8>, FileError>
        ensures reads { IfOk result (λ text. Grows (told self.old).reads (told self.new).reads (reads name.now text.items)) }
        ensures kept { OnErr result ((told self.new).reads ≡ (told self.old).reads) }
        ensures cause { HasCause (told self.old).faults (told self.new).faults (IsErrOf result FileError.Failed) }
        ensures uncounted { ¬ IsErrOf result FileError.Failed → (told self.new).faults ≡ (told self.old).faults };
}

/// A keeper of rounds.
pub trait Trace {
    ghost told: { Self → TraceTold };

    /// Opens the file of this name for the rounds that follow.
    fn start(&mut self, name: &str) -> Noted
        ensures rounds { (told self.new).rounds ≡ (told self.old).rounds }
        ensures cause { HasCause (told self.old).faults (told self.new).faults (result ≡ Noted.Failed) }
        ensures uncounted { result ≡ Noted.Ok → (told self.new).faults ≡ (told self.old).faults };

    /// Keeps a round.
    fn note(&mut self, round: &RoundRecord) -> Noted
        ensures rounds { Grows (told self.old).rounds (told self.new).rounds (notes round.now result) }
        ensures cause { HasCause (told self.old).faults (told self.new).faults (result ≡ Noted.Failed) }
        ensures uncounted { result ≡ Noted.Ok → (told self.new).faults ≡ (told self.old).faults };
}

/// Where text goes.
pub trait Sink {
    ghost told: { Self → SinkTold };

    fn write(&mut self, text: &[u8]) -> Wrote
        ensures bytes { writes (told self.old).bytes (told self.new).bytes text.now result }
        ensures cause { HasCause (told self.old).faults (told self.new).faults (result ≡ Wrote.Failed) };
}

/// What stands inside each shard's turn. The program's gate does nothing.
pub trait Gate {
    fn at(&self, seat: u16, shard: u16);
}
