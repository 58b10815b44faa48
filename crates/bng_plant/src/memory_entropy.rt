ghost use Rattle.std.specs.Prelude.{◌≡◌, ◌≤◌, ◌<◌, ◌+◌, ◌-◌, [], Some, IfOk, take, length, true, false, ◌↔◌, not, nat_lt, IsTrue, IfSome, slice_get, vec_len};
ghost use Rattle.bng_base.specs.Causes.{HasCause};
ghost use Rattle.bng_base.specs.Told.{Grows};
ghost use Rattle.bng_plant.specs.Calls.{seeds};
ghost use Rattle.bng_plant.specs.Failing.{goes_on, fresh};

use crate::answers::Seeded;
use crate::failing::Failing;
use crate::outside::Entropy;

/// A source that gives the seeds of a list one after the other. Its room is their number.
#[derive(Drop)]
pub struct MemoryEntropy {
    seeds: Vec<[u8; 32]>,
    given: usize,
    failing: Failing,
    ghost in_list: { given ≤ vec_len seeds },
}

impl MemoryEntropy {
    ghost use Rattle.bng_plant.specs.MemoryEntropy.{told_by, held_by};

    /// A source of these seeds. The calls with these numbers fail, the first being 1, and give no seed, and so does a
    /// call after the last seed was given.
    pub fn new(seeds: Vec<[u8; 32]>, fail_at: Vec<u64>) -> MemoryEntropy
        ensures told { told_by result ≡ record { seeds = Some []; faults = 0 } }
        ensures held { held_by result ≡ record { calls = fresh fail_at.items; seeds = seeds.items; given = 0 } }
    {
        MemoryEntropy {
            seeds,
            given: 0,
            failing: Failing::new(fail_at),
        }
    }

    /// The seeds that were given.
    pub fn given(&self) -> &[[u8; 32]]
        ensures { (told_by self.now).seeds ≡ Some result.now }
    {
        &self.seeds[..self.given]
    }

    /// How many calls failed.
    pub fn faults(&self) -> u64
        ensures { (told_by self.now).faults ≡ result }
    {
        self.failing.faults
    }
}

impl Entropy for MemoryEntropy {
    ghost use Rattle.bng_plant.specs.MemoryEntropy.{told_by, held_by, seed_of, held_after};

    ghost told = { told_by };

    fn seed(&mut self) -> Seeded
        ensures seeds { Grows (told_by self.old).seeds (told_by self.new).seeds (seeds result) }
        ensures cause { HasCause (told_by self.old).faults (told_by self.new).faults (result ≡ Seeded.Failed) }
        // It fails exactly where it is to fail or no seed is left, and gives the next one otherwise.
        ensures failed { (result ≡ Seeded.Failed) ↔ IsTrue (not (goes_on (held_by self.old).calls (nat_lt (held_by self.old).given (length (held_by self.old).seeds)))) }
        ensures next { IfSome (seed_of result) (λ octets. slice_get (held_by self.old).seeds (held_by self.old).given ≡ Some octets) }
        ensures unfailing { (held_by self.old).calls.fail_at ≡ [] → (held_by self.old).given < length (held_by self.old).seeds → ¬ (result ≡ Seeded.Failed) }
        ensures uncounted { ¬ (result ≡ Seeded.Failed) → (told_by self.new).faults ≡ (told_by self.old).faults }
        ensures held { held_by self.new ≡ held_after result (held_by self.old) }
    {
        if !self.failing.goes_on(self.given < self.seeds.len()) {
            return Seeded::Failed;
        }
        let seed = self.seeds[self.given];
        self.given += 1;
        Seeded::Seed(seed)
    }
}
