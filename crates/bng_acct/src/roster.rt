//! The terms that a spool holds, by session and term number, and the boxes for as many as there is room for.
ghost use Rattle.std.specs.Prelude.{◌≡◌, ◌<◌, ◌≤◌, ◌+◌, [], length, slice_get, filter_map, IfOk, None};
ghost use Rattle.bng_acct.specs.Roster.{of_term, Rises, Puts, Removes};

use crate::held::Held;
use crate::spares::Spares;
use crate::tree::Tree;
use bng_base::TermId;
use std::alloc::{AllocError, Global};
use std::marker::Model;

/// The terms, and for how many there is room.
#[derive(Drop)]
pub(crate) struct Roster {
    tree: Tree,
    spares: Spares,
    room: usize,
}

impl Model for Roster {
    ghost use Rattle.bng_acct.specs.Roster.{Terms};
    ghost use Rattle.bng_acct.specs.Branch.{IsRoster};

    ghost Value = { Terms };

    ghost view = { λ r. record { held = r.tree.held; room = r.room } };

    ghost invariant = { λ r. IsRoster r.tree r.spares r.room };
}

impl Roster {
    /// No term, and room for so many. A term's node takes two boxes.
    pub(crate) fn open(alloc: Global, room: usize) -> Result<Roster, AllocError>
        requires { room ≤ 262144 }
        ensures { IfOk result (λ r. r ≡ record { held = []; room = room }) }
    {
        Ok(Roster {
            tree: Tree::new(),
            spares: Spares::open(alloc, 2 * room)?,
            room,
        })
    }

    /// For how many more terms there is room.
    pub(crate) fn free(&self) -> usize
        ensures free { result + length self.now.held ≡ self.now.room }
        ensures rises { Rises self.now.held }
    {
        let _ = &self.tree;
        self.spares.left() / 2
    }

    /// What is held of a term.
    pub(crate) fn get(&self, term: TermId) -> Option<Held>
        ensures held { result ≡ of_term term self.now.held }
        ensures room { length self.now.held ≤ self.now.room }
    {
        self.tree.get(term)
    }

    /// The number at this place of those of the open Stops, by session and term number.
    pub(crate) fn stop_at(&self, at: u32) -> Option<u32>
        ensures { result ≡ slice_get (filter_map (λ h. h.stop) self.now.held) at }
    {
        self.tree.stop_at(at)
    }

    /// Holds this of its term from then on.
    pub(crate) fn put(&mut self, held: Held)
        requires { of_term held.term self.old.held ≡ None → length self.old.held < self.old.room }
        ensures puts { Puts self.old.held self.new.held held }
        ensures room { self.new.room ≡ self.old.room }
    {
        self.tree.put(held, &mut self.spares);
    }

    /// Holds nothing of a term from then on.
    pub(crate) fn remove(&mut self, term: TermId)
        ensures removes { Removes self.old.held self.new.held term }
        ensures room { self.new.room ≡ self.old.room }
    {
        self.tree.remove(term, &mut self.spares);
    }
}
