ghost use Rattle.std.specs.Prelude.{◌≡◌, ℕ, Option as Maybe};
ghost use Rattle.bng_base.specs.declared.address.Ip4.{Ip4 as Address};
ghost use Rattle.bng_base.specs.declared.circuit.Circuit.{Circuit as Where};
ghost use Rattle.bng_base.specs.declared.circuit.TermId.{TermId as Term};

use bng_base::{Circuit, Ip4, TermId};

/// What a slot keeps, as far as the slots are found by it.
pub trait Slotted {
    ghost circuit: { Self → Maybe Where };

    ghost address: { Self → Maybe Address };

    ghost term: { Self → Maybe Term };

    ghost deadline: { Self → Maybe ℕ };

    /// The circuit that it serves, if it serves one.
    fn circuit(&self) -> Option<Circuit>
        ensures { result ≡ circuit self.now };

    /// The address that it leases, if it leases one.
    fn address(&self) -> Option<Ip4>
        ensures { result ≡ address self.now };

    /// Its term, if it has one.
    fn term(&self) -> Option<TermId>
        ensures { result ≡ term self.now };

    /// The moment in milliseconds at which it wants to be called, if there is one.
    fn deadline(&self) -> Option<u64>
        ensures { result ≡ deadline self.now };
}
