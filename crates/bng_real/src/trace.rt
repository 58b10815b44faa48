//! The trace of a run that keeps none.
ghost use Rattle.std.specs.Prelude.{None};

use bng_base::RoundRecord;
use bng_plant::{Noted, Trace};

/// Opens nothing and keeps nothing.
#[derive(Drop)]
pub struct RealTrace;

impl Trace for RealTrace {
    ghost told = { λ _. record { rounds = None; faults = 0 } };

    fn start(&mut self, _name: &str) -> Noted {
        Noted::Ok
    }

    fn note(&mut self, _round: &RoundRecord) -> Noted {
        Noted::Ok
    }
}
