//! The system's source of random octets.
ghost use Rattle.std.specs.Prelude.{◌≡◌, ℕ, List, Option, None, [], ◌∷◌, OnOk, OnErr};
ghost use Rattle.bng_base.specs.Told.{Grows};

use bng_plant::{Entropy, Seeded};
use std::io;
use std::random::RandomSource;

/// Where random octets come from, 32 at a time. It may tell which it gave; the system's tells none.
pub trait Source {
    ghost given: { Self → Option (List (List ℕ)) };

    /// Fills the room, or fails.
    fn fill(&mut self, room: &mut [u8; 32]) -> io::Result<()>
        ensures gives { OnOk result (Grows (given self.old) (given self.new) (room.new ∷ [])) }
        ensures gives_none { OnErr result (Grows (given self.old) (given self.new) []) };
}

/// The kernel's source (getentropy), of the program's runtime.
impl<R: RandomSource> Source for &R {
    ghost given = { λ _. None };

    fn fill(&mut self, room: &mut [u8; 32]) -> io::Result<()> {
        (**self).fill_bytes(room)
    }
}

/// Seeds from a source: each is the octets that it gave.
#[derive(Drop)]
pub struct RealEntropy<S: Source + Drop> {
    source: S,
    faults: u64,
}

impl<S: Source + Drop> RealEntropy<S> {
    pub fn new(source: S) -> RealEntropy<S>
        ensures { result.faults ≡ 0 }
    {
        RealEntropy { source, faults: 0 }
    }

    /// How many calls failed.
    pub fn faults(&self) -> u64
        ensures { self.now.faults ≡ result }
    {
        self.faults
    }
}

impl<S: Source + Drop> Entropy for RealEntropy<S> {
    ghost told = { λ entropy. record { seeds = S.given entropy.source; faults = entropy.faults } };

    fn seed(&mut self) -> Seeded {
        let mut octets = [0; 32];
        match self.source.fill(&mut octets) {
            Ok(()) => Seeded::Seed(octets),
            Err(_) => {
                self.faults = self.faults.saturating_add(1);
                Seeded::Failed
            }
        }
    }
}
