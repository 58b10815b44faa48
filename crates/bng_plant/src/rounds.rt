//! Rounds in flat lists.
ghost use Rattle.std.specs.Prelude.{◌≡◌, ◌<◌, ◌≤◌, ◌-◌, ◌++◌, ◌∷◌, [], length, sum, vec_len, vec_capacity, IfOk, IsTrue};
ghost use Rattle.bng_plant.specs.Parts.{parts_of};
ghost use Rattle.bng_plant.specs.Rounds.{IsColumn};

use crate::again::Again;
use crate::failing::has_room;
use crate::head::Head;
use crate::parts::{Parts, suffices};
use bng_base::{Entry, Item, Loose, OutRecord, RoundRecord};
use std::alloc::{AllocError, Global};

/// Rounds, each with its part of the flat lists: `counts` is how many of the journals are a round's.
#[derive(Drop)]
pub struct Rounds {
    pub heads: Vec<Head>,
    pub allowances: Parts<u32>,
    pub counts: Vec<usize>,
    pub journals: Parts<Entry>,
    pub loose: Parts<Loose>,
    pub outs: Parts<OutRecord>,
    pub refused: Parts<Item>,
    ghost counted: { sum counts.items ≡ length (parts_of journals) },
    ghost counts_column: { (length counts.items ≡ length heads.items) × (vec_capacity counts - vec_len counts ≡ vec_capacity heads - vec_len heads) },
    ghost allowances_column: { IsColumn allowances (length heads.items) (vec_capacity heads - vec_len heads) },
    ghost loose_column: { IsColumn loose (length heads.items) (vec_capacity heads - vec_len heads) },
    ghost outs_column: { IsColumn outs (length heads.items) (vec_capacity heads - vec_len heads) },
    ghost refused_column: { IsColumn refused (length heads.items) (vec_capacity heads - vec_len heads) },
}

impl Rounds {
    ghost use Rattle.bng_plant.specs.MemoryTrace.{rounds_in, rounds_room, room_for, fits, room_after};

    /// No rounds, and room for so many, and for so many allowances, journals, entries, loose items, outs and refused
    /// items in all.
    pub fn new(alloc: Global, rounds: usize, room: usize) -> Result<Rounds, AllocError>
        ensures rounds { IfOk result (λ r. rounds_in r ≡ []) }
        ensures room { IfOk result (λ r. rounds_room r ≡ room_for rounds room) }
    {
        Ok(Rounds {
            heads: Vec::with_capacity(alloc, rounds)?,
            allowances: Parts::new(alloc, rounds, room)?,
            counts: Vec::with_capacity(alloc, rounds)?,
            journals: Parts::new(alloc, room, room)?,
            loose: Parts::new(alloc, rounds, room)?,
            outs: Parts::new(alloc, rounds, room)?,
            refused: Parts::new(alloc, rounds, room)?,
        })
    }

    /// Whether there is room for this round.
    pub fn fits(&self, round: &RoundRecord) -> bool
        ensures { result ≡ fits round.now (rounds_room self.now) }
    {
        has_room(&self.heads)
            && round.allowances.as_slice().len() <= self.allowances.item_room()
            && round.journals.as_slice().len() <= self.journals.part_room()
            && suffices(round.journals.as_slice(), self.journals.item_room())
            && round.loose.as_slice().len() <= self.loose.item_room()
            && round.outs.as_slice().len() <= self.outs.item_room()
            && round.refused.as_slice().len() <= self.refused.item_room()
    }

    /// Copies a round for which there is room.
    pub fn push(&mut self, round: &RoundRecord)
        requires { IsTrue (fits round.now (rounds_room self.old)) }
        ensures rounds { rounds_in self.new ≡ rounds_in self.old ++ round.now ∷ [] }
        ensures room { rounds_room self.new ≡ room_after round.now (rounds_room self.old) }
    {
        self.allowances.push(round.allowances.as_slice());
        self.counts.push_reserved(round.journals.as_slice().len());
        self.journals.push_all(round.journals.as_slice());
        self.loose.push(round.loose.as_slice());
        self.outs.push(round.outs.as_slice());
        self.refused.push(round.refused.as_slice());
        self.heads.push_reserved(Head {
            number: round.number,
            moment: round.moment,
            wall: round.wall,
        });
    }
}
