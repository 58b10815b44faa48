ghost use Rattle.std.specs.Prelude.{◌≡◌, ◌<◌, ◌≤◌, ◌^◌, ◌-◌, ◌+◌, ◌/◌, min, [], ◌∷◌, Some, None, IfOk, IfSome};
ghost use Rattle.bng_base.specs.Told.{Grows, GrowsIfTold};
ghost use Rattle.bng_base.specs.declared.outside.ClockAnswer.TheVariants.{Now, Wall};

use crate::failing::tell;
use crate::outside::Clock;
use bng_base::ClockAnswer;
use std::alloc::{AllocError, Global};

/// A clock that moves on by a step, in milliseconds, at each `now`. Its second on the wall moves along.
#[derive(Drop)]
pub struct MemoryClock {
    last: u64,
    step: u64,
    wall: u64,
    answers: Vec<ClockAnswer>,
    silent: bool,
    ghost below: { last < 2 ^ 60 },
}

const LATEST: u64 = (1 << 60) - 1;

impl MemoryClock {
    ghost use Rattle.bng_plant.specs.MemoryClock.{told_by, held_by};

    /// A clock whose first moment is the step. `wall` is its second on the wall at the moment 0, and `room` how many
    /// answers it tells: with one more it stops telling, and goes on otherwise.
    pub fn new(alloc: Global, step: u64, wall: u64, room: usize) -> Result<MemoryClock, AllocError>
        ensures told { IfOk result (λ c. told_by c ≡ record { answers = Some []; last = 0 }) }
        ensures held { IfOk result (λ c. held_by c ≡ record { step = step; wall = wall; room = room }) }
    {
        Ok(MemoryClock {
            last: 0,
            step,
            wall,
            answers: Vec::with_capacity(alloc, room)?,
            silent: false,
        })
    }

    /// What it answered, in order. `None` where it has stopped telling.
    pub fn answers(&self) -> Option<&[ClockAnswer]>
        ensures silent { result ≡ None → (told_by self.now).answers ≡ None }
        ensures answers { IfSome result (λ answers. (told_by self.now).answers ≡ Some answers.now) }
    {
        if self.silent {
            return None;
        }
        Some(self.answers.as_slice())
    }
}

impl Clock for MemoryClock {
    ghost use Rattle.bng_plant.specs.MemoryClock.{told_by, held_by};

    ghost told = { told_by };

    fn now(&mut self) -> u64
        ensures answers { GrowsIfTold (told_by self.old).answers (told_by self.new).answers (Now result ∷ []) }
        ensures later { (told_by self.old).last ≤ result }
        ensures last { (told_by self.new).last ≡ result }
        ensures bound { result < 2 ^ 60 }
        // The last moment and a step, kept below 2^60.
        ensures moment { result ≡ min ((told_by self.old).last + (held_by self.old).step) (2 ^ 60 - 1) }
        // While there is room, it tells.
        ensures telling { 0 < (held_by self.old).room → Grows (told_by self.old).answers (told_by self.new).answers (Now result ∷ []) }
        ensures held { held_by self.new ≡ record (held_by self.old) { room = (held_by self.old).room - 1 } }
    {
        let moment = self.last.saturating_add(self.step).min(LATEST);
        self.last = moment;
        tell(
            &mut self.answers,
            &mut self.silent,
            ClockAnswer::Now(moment),
        );
        moment
    }

    fn wall(&mut self) -> u64
        ensures answers { GrowsIfTold (told_by self.old).answers (told_by self.new).answers (Wall result ∷ []) }
        ensures last { (told_by self.new).last ≡ (told_by self.old).last }
        // The second at the moment 0 and the seconds since.
        ensures second { result ≡ min ((held_by self.old).wall + (told_by self.old).last / 1000) (2 ^ 64 - 1) }
        ensures telling { 0 < (held_by self.old).room → Grows (told_by self.old).answers (told_by self.new).answers (Wall result ∷ []) }
        ensures held { held_by self.new ≡ record (held_by self.old) { room = (held_by self.old).room - 1 } }
    {
        let second = self.wall.saturating_add(self.last / 1000);
        tell(
            &mut self.answers,
            &mut self.silent,
            ClockAnswer::Wall(second),
        );
        second
    }
}
