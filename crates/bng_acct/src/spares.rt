//! Boxes for the nodes of a tree, kept while no tree uses them.
ghost use Rattle.std.specs.Prelude.{◌≡◌, ◌+◌, ◌<◌, ◌≤◌, IfOk};
ghost use Rattle.bng_acct.specs.Branch.{empty};

use crate::tree::Tree;
use std::alloc::{AllocError, Global};
use std::marker::Model;

/// Boxes that no tree uses, and for how many there is room.
#[derive(Drop)]
pub(crate) struct Spares {
    boxes: Vec<Box<Tree>>,
    room: usize,
}

impl Model for Spares {
    ghost use Rattle.std.specs.Prelude.{◌≤◌, length, vec_capacity};
    ghost use Rattle.bng_acct.specs.Branch.{Stock};

    ghost Value = { Stock };

    ghost view = { λ s. record { left = length s.boxes.items; room = s.room } };

    ghost invariant = { λ s. s.room ≤ vec_capacity s.boxes };
}

impl Spares {
    pub(crate) fn open(alloc: Global, room: usize) -> Result<Spares, AllocError>
        ensures { IfOk result (λ s. s ≡ record { left = room; room = room }) }
    {
        let mut boxes = Vec::with_capacity(alloc, room)?;
        for _ in 0..room {
            boxes.push_reserved(Box::new(alloc, Tree::new())?);
        }
        Ok(Spares { boxes, room })
    }

    /// How many there are.
    pub(crate) fn left(&self) -> usize
        ensures { result ≡ self.now.left }
    {
        self.boxes.len()
    }

    /// One of them, with a tree of no term in it.
    pub(crate) fn take(&mut self) -> Box<Tree>
        requires { 1 ≤ self.old.left }
        ensures value { result.value ≡ empty }
        ensures left { self.new.left + 1 ≡ self.old.left }
        ensures room { self.new.room ≡ self.old.room }
    {
        match self.boxes.pop() {
            Some(mut one) => {
                *one = Tree::new();
                one
            }
            None => unreachable!(),
        }
    }

    /// One more.
    pub(crate) fn keep(&mut self, one: Box<Tree>)
        requires { self.old.left < self.old.room }
        ensures left { self.new.left ≡ self.old.left + 1 }
        ensures room { self.new.room ≡ self.old.room }
    {
        self.boxes.push_reserved(one);
    }
}
