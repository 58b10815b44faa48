ghost use Rattle.std.specs.Prelude.{◌≡◌, ◌≤◌};
ghost use Rattle.bng_base.specs.Causes.{HasCause};
ghost use Rattle.bng_base.specs.Told.{Grows};
ghost use Rattle.bng_plant.specs.Calls.{notes};

use crate::answers::Noted;
use crate::outside::{Gate, Trace};
use bng_base::RoundRecord;

/// A trace that keeps nothing and tells nothing, and never fails.
#[derive(Clone, Copy)]
pub struct NoTrace;

impl Trace for NoTrace {
    ghost use Rattle.bng_plant.specs.NoTrace.{tells_nothing};

    ghost told = { tells_nothing };

    fn start(&mut self, _name: &str) -> Noted
        ensures rounds { (tells_nothing self.new).rounds ≡ (tells_nothing self.old).rounds }
        ensures cause { HasCause (tells_nothing self.old).faults (tells_nothing self.new).faults (result ≡ Noted.Failed) }
        ensures uncounted { result ≡ Noted.Ok → (tells_nothing self.new).faults ≡ (tells_nothing self.old).faults }
        ensures unfailing { result ≡ Noted.Ok }
    {
        Noted::Ok
    }

    fn note(&mut self, round: &RoundRecord) -> Noted
        ensures rounds { Grows (tells_nothing self.old).rounds (tells_nothing self.new).rounds (notes round.now result) }
        ensures cause { HasCause (tells_nothing self.old).faults (tells_nothing self.new).faults (result ≡ Noted.Failed) }
        ensures uncounted { result ≡ Noted.Ok → (tells_nothing self.new).faults ≡ (tells_nothing self.old).faults }
        ensures unfailing { result ≡ Noted.Ok }
    {
        let _ = round;
        Noted::Ok
    }
}

/// A gate that does nothing.
#[derive(Clone, Copy)]
pub struct OpenGate;

impl Gate for OpenGate {
    fn at(&self, _seat: u16, _shard: u16) {}
}
