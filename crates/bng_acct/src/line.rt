//! Numbers that wait in a row. Each can leave where it stands.
ghost use Rattle.std.specs.Prelude.{◌≡◌, ◌≢◌, ◌<◌, ◌≤◌, ◌^◌, ◌++◌, ◌∷◌, [], IfOk, None, length, slice_get, slice_set};
ghost use Rattle.std.specs.List.{AllByRecursion};
ghost use Rattle.bng_acct.specs.Queue.{without, IsIn};

use std::alloc::{AllocError, Global};
use std::marker::Model;

/// Numbers below a bound, each at most once. Each number has a place, which has the numbers after it and before it; the
/// place of the bound has the first and the last.
#[derive(Drop)]
pub(crate) struct NumberList {
    after: Vec<u32>,
    before: Vec<u32>,
    end: u32,
}

impl Model for NumberList {
    ghost use Rattle.bng_acct.specs.Row.{Row, row, IsRow};

    ghost Value = { Row };

    ghost view = { λ l. row l.after.items l.end };

    ghost invariant = { λ l. IsRow l.after.items l.before.items l.end (row l.after.items l.end).numbers };
}

// One number stands before another.
fn link(after: &mut Vec<u32>, before: &mut Vec<u32>, front: u32, behind: u32)
    requires front { front < length after.old.items }
    requires behind { behind < length before.old.items }
    ensures after { after.new.items ≡ slice_set after.old.items front behind }
    ensures before { before.new.items ≡ slice_set before.old.items behind front }
{
    after[front as usize] = behind;
    before[behind as usize] = front;
}

impl NumberList {
    /// No number, and room for those below a bound.
    pub(crate) fn open(alloc: Global, bound: u32) -> Result<NumberList, AllocError>
        ensures { IfOk result (λ l. l ≡ record { numbers = []; room = bound }) }
    {
        let places = bound as usize + 1;
        Ok(NumberList {
            after: vec![in alloc; bound; places]?,
            before: vec![in alloc; bound; places]?,
            end: bound,
        })
    }

    /// The number that waited longest.
    pub(crate) fn first(&self) -> Option<u32>
        ensures { result ≡ slice_get self.now.numbers 0 }
    {
        let number = self.after[self.end as usize];
        if number == self.end {
            None
        } else {
            Some(number)
        }
    }

    /// Adds a number behind the others.
    pub(crate) fn push(&mut self, number: u32)
        requires below { number < self.old.room }
        requires apart { AllByRecursion (λ m. m ≢ number) self.old.numbers }
        requires few { length self.old.numbers < self.old.room }
        ensures numbers { self.new.numbers ≡ self.old.numbers ++ number ∷ [] }
        ensures room { self.new.room ≡ self.old.room }
    {
        let last = self.before[self.end as usize];
        link(&mut self.after, &mut self.before, last, number);
        link(&mut self.after, &mut self.before, number, self.end);
    }

    /// Takes out a number that is there.
    pub(crate) fn remove(&mut self, number: u32)
        requires { IsIn number self.old.numbers }
        ensures numbers { self.new.numbers ≡ without number self.old.numbers }
        ensures room { self.new.room ≡ self.old.room }
    {
        let front = self.before[number as usize];
        let behind = self.after[number as usize];
        link(&mut self.after, &mut self.before, front, behind);
    }
}
