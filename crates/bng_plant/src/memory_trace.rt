ghost use Rattle.std.specs.Prelude.{◌≡◌, ◌≤◌, ◌↔◌, [], Some, not, map, IfOk, IfSome, IsTrue};
ghost use Rattle.std.specs.List.{flat_map};
ghost use Rattle.bng_base.specs.Causes.{HasCause};
ghost use Rattle.bng_base.specs.Told.{Grows};
ghost use Rattle.bng_plant.specs.Calls.{notes};
ghost use Rattle.bng_plant.specs.Failing.{goes_on, is_due, fresh};

use crate::answers::Noted;
use crate::failing::Failing;
use crate::head::Head;
use crate::outside::Trace;
use crate::rounds::Rounds;
use bng_base::{Entry, Item, Loose, OutRecord, RoundRecord};
use std::alloc::{AllocError, Global};

/// A trace that keeps the rounds it is told, in flat lists.
#[derive(Drop)]
pub struct MemoryTrace {
    rounds: Rounds,
    failing: Failing,
}

impl MemoryTrace {
    ghost use Rattle.bng_plant.specs.MemoryTrace.{told_by, held_by, room_for, head_of};

    /// A trace with room for so many rounds, and for `room` allowances, journals, entries, loose items, outs and
    /// refused items in all of them. Starts and notes are its calls: those with the numbers of `fail_at` fail, the
    /// first being 1, and so does a note past the room.
    pub fn new(
        alloc: Global,
        fail_at: Vec<u64>,
        rounds: usize,
        room: usize,
    ) -> Result<MemoryTrace, AllocError>
        ensures told { IfOk result (λ t. told_by t ≡ record { rounds = Some []; faults = 0 }) }
        ensures held { IfOk result (λ t. held_by t ≡ record { calls = fresh fail_at.items; room = room_for rounds room }) }
    {
        Ok(MemoryTrace {
            rounds: Rounds::new(alloc, rounds, room)?,
            failing: Failing::new(fail_at),
        })
    }

    /// The heads of its rounds.
    pub fn heads(&self) -> &[Head]
        ensures { IfSome (told_by self.now).rounds (λ rounds. map head_of rounds ≡ result.now) }
    {
        self.rounds.heads.as_slice()
    }

    /// The allowances of all its rounds, those of the first round first. So for the other lists.
    pub fn allowances(&self) -> &[u32]
        ensures { IfSome (told_by self.now).rounds (λ rounds. flat_map (λ r. r.allowances) rounds ≡ result.now) }
    {
        self.rounds.allowances.items()
    }

    /// The entries of all journals.
    pub fn entries(&self) -> &[Entry]
        ensures { IfSome (told_by self.now).rounds (λ rounds. flat_map (λ journal. journal) (flat_map (λ r. r.journals) rounds) ≡ result.now) }
    {
        self.rounds.journals.items()
    }

    pub fn loose(&self) -> &[Loose]
        ensures { IfSome (told_by self.now).rounds (λ rounds. flat_map (λ r. r.loose) rounds ≡ result.now) }
    {
        self.rounds.loose.items()
    }

    pub fn outs(&self) -> &[OutRecord]
        ensures { IfSome (told_by self.now).rounds (λ rounds. flat_map (λ r. r.outs) rounds ≡ result.now) }
    {
        self.rounds.outs.items()
    }

    pub fn refused(&self) -> &[Item]
        ensures { IfSome (told_by self.now).rounds (λ rounds. flat_map (λ r. r.refused) rounds ≡ result.now) }
    {
        self.rounds.refused.items()
    }

    /// How many calls failed.
    pub fn faults(&self) -> u64
        ensures { (told_by self.now).faults ≡ result }
    {
        self.failing.faults
    }
}

impl Trace for MemoryTrace {
    ghost use Rattle.bng_plant.specs.MemoryTrace.{told_by, held_by, fits, after_note, after_start};

    ghost told = { told_by };

    /// The name is not kept.
    fn start(&mut self, _name: &str) -> Noted
        ensures rounds { (told_by self.new).rounds ≡ (told_by self.old).rounds }
        ensures cause { HasCause (told_by self.old).faults (told_by self.new).faults (result ≡ Noted.Failed) }
        // It fails exactly where it is to fail.
        ensures ok { (result ≡ Noted.Ok) ↔ IsTrue (not (is_due (held_by self.old).calls)) }
        ensures unfailing { (held_by self.old).calls.fail_at ≡ [] → result ≡ Noted.Ok }
        ensures uncounted { result ≡ Noted.Ok → (told_by self.new).faults ≡ (told_by self.old).faults }
        ensures held { held_by self.new ≡ after_start (held_by self.old) }
    {
        if self.failing.goes_on(true) {
            Noted::Ok
        } else {
            Noted::Failed
        }
    }

    fn note(&mut self, round: &RoundRecord) -> Noted
        ensures rounds { Grows (told_by self.old).rounds (told_by self.new).rounds (notes round.now result) }
        ensures cause { HasCause (told_by self.old).faults (told_by self.new).faults (result ≡ Noted.Failed) }
        // It fails exactly where it is to fail or goes past the room.
        ensures ok { (result ≡ Noted.Ok) ↔ IsTrue (goes_on (held_by self.old).calls (fits round.now (held_by self.old).room)) }
        ensures unfailing { (held_by self.old).calls.fail_at ≡ [] → IsTrue (fits round.now (held_by self.old).room) → result ≡ Noted.Ok }
        ensures uncounted { result ≡ Noted.Ok → (told_by self.new).faults ≡ (told_by self.old).faults }
        ensures held { held_by self.new ≡ after_note round.now result (held_by self.old) }
    {
        if !self.failing.goes_on(self.rounds.fits(round)) {
            return Noted::Failed;
        }
        self.rounds.push(round);
        Noted::Ok
    }
}
