//! The terms that a spool holds, by session and term number, in a tree whose two sides differ by one level at most at
//! each node (G. M. Adelson-Velsky and E. M. Landis, 1962).
ghost use Rattle.std.specs.Prelude.{◌≡◌, ◌+◌, ◌*◌, ◌^◌, ◌<◌, ◌≤◌, max, [], ◌∷◌, ◌++◌, None, length, sum_by, slice_get, filter_map, IfSome, IfNone};
ghost use Rattle.bng_acct.specs.Branch.{empty, DifferByAtMost, IsFlat, Settles, Edits};
ghost use Rattle.bng_acct.specs.Roster.{of_term, Rises};
ghost use Rattle.bng_acct.specs.Spool.{stop_count};

use crate::held::Held;
use crate::order::is_before;
use crate::spares::Spares;
use bng_base::TermId;
use std::marker::Model;
use std::mem;

/// Terms in their order.
#[cycle(tree)]
#[derive(Drop)]
pub(crate) struct Tree {
    node: Node,
}

#[cycle(tree)]
#[derive(Drop)]
enum Node {
    Leaf,
    // What comes before a term, the term, what is noted of all, and what comes after it.
    Fork(Box<Tree>, Held, Note, Box<Tree>),
}

// How many levels there are, and how many open Stops.
#[derive(Clone, Copy)]
struct Note {
    height: u32,
    stops: u32,
}

impl Model for Tree {
    ghost use Rattle.std.specs.Prelude.{length};
    ghost use Rattle.bng_acct.specs.Branch.{Branch};

    ghost Value = { Branch };

    ghost use Rattle.bng_acct.specs.Tree.{branch, IsTree};

    ghost view = { λ a. branch a.node };

    ghost invariant = { λ a. IsTree a.node };

    ghost size = { λ d. length d.held };

    ghost use Rattle.std.proofs.Common.{arith, length-append};

    ghost size_decreases = { λ a h. Prim.grind (arith, length-append) };
}

// How many Stops of a term are open.
fn open_stops(held: Held) -> u32
    ensures { result ≡ stop_count held }
{
    match held.stop {
        Some(_) => 1,
        None => 0,
    }
}

// A term between two sides.
fn fork(before: Box<Tree>, held: Held, after: Box<Tree>) -> Tree
    requires even { DifferByAtMost 1 before.value.height after.value.height }
    requires few { length (before.value.held ++ held ∷ after.value.held) < 2 ^ 31 }
    ensures { result ≡ record { held = before.value.held ++ held ∷ after.value.held; height = max before.value.height after.value.height + 1 } }
{
    let note = Note {
        height: before.height().max(after.height()) + 1,
        stops: before.stops() + open_stops(held) + after.stops(),
    };
    Tree {
        node: Node::Fork(before, held, note, after),
    }
}

// A term between two sides, of which the one before it is two levels higher.
fn lean_after(mut before: Box<Tree>, held: Held, after: Box<Tree>) -> Tree
    requires two_higher { before.value.height ≡ after.value.height + 2 }
    requires few { length (before.value.held ++ held ∷ after.value.held) < 2 ^ 31 }
    ensures held { result.held ≡ before.value.held ++ held ∷ after.value.held }
    ensures height { Settles before.value.height after.value.height result.height }
{
    let side = mem::replace(&mut *before, Tree::new());
    let Node::Fork(x, j, _, mut y) = side.node else {
        unreachable!()
    };
    if x.height() >= y.height() {
        *before = fork(y, held, after);
        return fork(x, j, before);
    }
    let middle = mem::replace(&mut *y, Tree::new());
    let Node::Fork(u, i, _, v) = middle.node else {
        unreachable!()
    };
    *y = fork(x, j, u);
    *before = fork(v, held, after);
    fork(y, i, before)
}

// A term between two sides, of which the one after it is two levels higher.
fn lean_before(before: Box<Tree>, held: Held, mut after: Box<Tree>) -> Tree
    requires two_higher { after.value.height ≡ before.value.height + 2 }
    requires few { length (before.value.held ++ held ∷ after.value.held) < 2 ^ 31 }
    ensures held { result.held ≡ before.value.held ++ held ∷ after.value.held }
    ensures height { Settles before.value.height after.value.height result.height }
{
    let side = mem::replace(&mut *after, Tree::new());
    let Node::Fork(mut y, j, _, x) = side.node else {
        unreachable!()
    };
    if x.height() >= y.height() {
        *after = fork(before, held, y);
        return fork(after, j, x);
    }
    let middle = mem::replace(&mut *y, Tree::new());
    let Node::Fork(u, i, _, v) = middle.node else {
        unreachable!()
    };
    *after = fork(before, held, u);
    *y = fork(v, j, x);
    fork(after, i, y)
}

// A term between two sides, of which one may be two levels higher.
fn level(before: Box<Tree>, held: Held, after: Box<Tree>) -> Tree
    requires near { DifferByAtMost 2 before.value.height after.value.height }
    requires few { length (before.value.held ++ held ∷ after.value.held) < 2 ^ 31 }
    ensures held { result.held ≡ before.value.held ++ held ∷ after.value.held }
    ensures height { Settles before.value.height after.value.height result.height }
{
    let (front, behind) = (before.height(), after.height());
    if front > behind + 1 {
        lean_after(before, held, after)
    } else if behind > front + 1 {
        lean_before(before, held, after)
    } else {
        fork(before, held, after)
    }
}

impl Tree {
    pub(crate) fn new() -> Tree
        ensures { result ≡ empty }
    {
        Tree { node: Node::Leaf }
    }

    /// How many levels there are. The longest way down has so many nodes.
    fn height(&self) -> u32
        ensures value { result ≡ self.now.height }
        ensures flat { IsFlat self.now.held self.now.height }
    {
        match &self.node {
            Node::Leaf => 0,
            Node::Fork(_, _, note, _) => note.height,
        }
    }

    /// How many Stops are open.
    fn stops(&self) -> u32
        ensures { result ≡ sum_by stop_count self.now.held }
    {
        match &self.node {
            Node::Leaf => 0,
            Node::Fork(_, _, note, _) => note.stops,
        }
    }

    /// What is held of a term.
    pub(crate) fn get(&self, term: TermId) -> Option<Held>
        requires { Rises self.now.held }
        ensures { result ≡ of_term term self.now.held }
    {
        match &self.node {
            Node::Leaf => None,
            Node::Fork(before, here, _, after) => {
                if is_before(term, here.term) {
                    before.get(term)
                } else if is_before(here.term, term) {
                    after.get(term)
                } else {
                    Some(*here)
                }
            }
        }
    }

    /// The number at this place of those of the open Stops.
    pub(crate) fn stop_at(&self, at: u32) -> Option<u32>
        ensures { result ≡ slice_get (filter_map (λ h. h.stop) self.now.held) at }
    {
        match &self.node {
            Node::Leaf => None,
            Node::Fork(before, here, _, after) => {
                let earlier = before.stops();
                if at < earlier {
                    return before.stop_at(at);
                }
                match here.stop {
                    Some(number) => {
                        if at == earlier {
                            Some(number)
                        } else {
                            after.stop_at(at - earlier - 1)
                        }
                    }
                    None => after.stop_at(at - earlier),
                }
            }
        }
    }

    /// Holds this of its term from then on.
    pub(crate) fn put(&mut self, held: Held, spares: &mut Spares)
        requires rises { Rises self.old.held }
        requires few { length self.old.held + 1 < 2 ^ 31 }
        requires spare { of_term held.term self.old.held ≡ None → 2 ≤ spares.old.left }
        ensures edits { Edits self.old.held self.new.held held.term (held ∷ []) }
        ensures not_lower { self.old.height ≤ self.new.height }
        ensures at_most_one_higher { self.new.height ≤ self.old.height + 1 }
        ensures spares { spares.new.left + 2 * length self.new.held ≡ spares.old.left + 2 * length self.old.held }
        ensures room { spares.new.room ≡ spares.old.room }
    {
        let tree = mem::replace(self, Tree::new());
        match tree.node {
            Node::Leaf => {
                let before = spares.take();
                let after = spares.take();
                *self = fork(before, held, after);
            }
            Node::Fork(mut before, here, _, mut after) => {
                if is_before(held.term, here.term) {
                    before.put(held, spares);
                    *self = level(before, here, after);
                    return;
                }
                if is_before(here.term, held.term) {
                    after.put(held, spares);
                    *self = level(before, here, after);
                    return;
                }
                *self = fork(before, held, after);
            }
        }
    }

    /// Takes the first term out.
    fn take_first(&mut self, spares: &mut Spares) -> Option<Held>
        requires few { length self.old.held < 2 ^ 31 }
        requires room { spares.old.left + 2 * length self.old.held ≤ spares.old.room }
        ensures some { IfSome result (λ h. self.old.held ≡ h ∷ self.new.held) }
        ensures none { IfNone result ((self.old ≡ empty) × (self.new ≡ empty)) }
        ensures not_higher { self.new.height ≤ self.old.height }
        ensures at_most_one_lower { self.old.height ≤ self.new.height + 1 }
        ensures spares { spares.new.left + 2 * length self.new.held ≡ spares.old.left + 2 * length self.old.held }
        ensures room { spares.new.room ≡ spares.old.room }
    {
        let tree = mem::replace(self, Tree::new());
        match tree.node {
            Node::Leaf => None,
            Node::Fork(mut before, here, _, mut after) => match before.take_first(spares) {
                Some(first) => {
                    *self = level(before, here, after);
                    Some(first)
                }
                None => {
                    mem::swap(self, &mut *after);
                    spares.keep(before);
                    spares.keep(after);
                    Some(here)
                }
            },
        }
    }

    /// Holds nothing of a term from then on.
    pub(crate) fn remove(&mut self, term: TermId, spares: &mut Spares)
        requires rises { Rises self.old.held }
        requires few { length self.old.held < 2 ^ 31 }
        requires room { spares.old.left + 2 * length self.old.held ≤ spares.old.room }
        ensures edits { Edits self.old.held self.new.held term [] }
        ensures not_higher { self.new.height ≤ self.old.height }
        ensures at_most_one_lower { self.old.height ≤ self.new.height + 1 }
        ensures spares { spares.new.left + 2 * length self.new.held ≡ spares.old.left + 2 * length self.old.held }
        ensures room { spares.new.room ≡ spares.old.room }
    {
        let tree = mem::replace(self, Tree::new());
        match tree.node {
            Node::Leaf => {}
            Node::Fork(mut before, here, _, mut after) => {
                if is_before(term, here.term) {
                    before.remove(term, spares);
                    *self = level(before, here, after);
                    return;
                }
                if is_before(here.term, term) {
                    after.remove(term, spares);
                    *self = level(before, here, after);
                    return;
                }
                match after.take_first(spares) {
                    Some(next) => *self = level(before, next, after),
                    None => {
                        mem::swap(self, &mut *before);
                        spares.keep(before);
                        spares.keep(after);
                    }
                }
            }
        }
    }
}
