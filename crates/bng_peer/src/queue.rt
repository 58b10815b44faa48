//! Who is ready, in the order in which they became so.
ghost use Rattle.std.specs.Prelude.{◌≡◌, IfSome, IfNone, true, false, slice_set};
ghost use Rattle.bng_peer.specs.Queue.{marks, stands_at};

use std::alloc::{AllocError, Global};

/// No place.
const NONE: u32 = u32::MAX;

/// Who stands before and behind a place of the queue.
#[derive(Clone, Copy)]
struct QueueLink {
    is_in: bool,
    before: u32,
    behind: u32,
}

/// The link of who is not in the queue.
const OUT: QueueLink = QueueLink {
    is_in: false,
    before: NONE,
    behind: NONE,
};

/// A queue of numbers below a bound, in which each stands at most once. No call but `new` takes memory, and each takes the
/// same time, however many stand in it.
#[derive(Drop)]
pub(crate) struct Queue {
    links: Vec<QueueLink>,
    first: u32,
    last: u32,
}

#[tactic(auto, using(crate::proofs::Marks::of_links, crate::proofs::Marks::as_it_was, crate::proofs::Marks::as_it_is, crate::proofs::Marks::past_end))]
impl Queue {
    /// An empty queue of numbers below this one.
    pub(crate) fn new(alloc: Global, bound: u32) -> Result<Queue, AllocError> {
        let mut links = Vec::new(alloc);
        for _ in 0..bound {
            links.push(OUT)?;
        }
        Ok(Queue {
            links,
            first: NONE,
            last: NONE,
        })
    }

    fn link(&self, number: u32) -> QueueLink
        ensures { result.is_in ≡ stands_at (marks self.now) number }
    {
        match self.links.get(number as usize) {
            Some(link) => *link,
            None => OUT,
        }
    }

    fn put(&mut self, number: u32, link: QueueLink)
        ensures { marks self.new ≡ slice_set (marks self.old) number link.is_in }
    {
        if let Some(place) = self.links.get_mut(number as usize) {
            *place = link;
        }
    }

    // Puts a number behind a place, or first.
    fn set_behind(&mut self, before: u32, behind: u32)
        ensures { marks self.new ≡ marks self.old }
    {
        if before == NONE {
            self.first = behind;
            return;
        }
        let link = self.link(before);
        self.put(before, QueueLink { behind, ..link });
    }

    // Puts a number before a place, or last.
    fn set_before(&mut self, behind: u32, before: u32)
        ensures { marks self.new ≡ marks self.old }
    {
        if behind == NONE {
            self.last = before;
            return;
        }
        let link = self.link(behind);
        self.put(behind, QueueLink { before, ..link });
    }

    fn join(&mut self, before: u32, behind: u32)
        ensures { marks self.new ≡ marks self.old }
    {
        self.set_behind(before, behind);
        self.set_before(behind, before);
    }

    /// Whether a number stands in the queue.
    pub(crate) fn has(&self, number: u32) -> bool
        ensures { result ≡ stands_at (marks self.now) number }
    {
        self.link(number).is_in
    }

    /// Puts a number at the end, unless it stands in the queue or is not below the bound.
    pub(crate) fn push(&mut self, number: u32)
        ensures { marks self.new ≡ slice_set (marks self.old) number true }
    {
        if self.has(number) || self.links.len() <= number as usize {
            return;
        }
        let last = self.last;
        self.put(
            number,
            QueueLink {
                is_in: true,
                before: last,
                behind: NONE,
            },
        );
        self.join(last, number);
        self.last = number;
    }

    /// Takes a number out, where it stands in the queue.
    pub(crate) fn remove(&mut self, number: u32)
        ensures { marks self.new ≡ slice_set (marks self.old) number false }
    {
        let link = self.link(number);
        if !link.is_in {
            return;
        }
        self.join(link.before, link.behind);
        self.put(number, OUT);
    }

    /// Puts a number at the end, where it is to stand in the queue, or takes it out.
    pub(crate) fn set(&mut self, number: u32, stands: bool)
        ensures { marks self.new ≡ slice_set (marks self.old) number stands }
    {
        if stands {
            self.push(number);
        } else {
            self.remove(number);
        }
    }

    /// The first number.
    pub(crate) fn first(&self) -> Option<u32> {
        if self.first == NONE {
            return None;
        }
        Some(self.first)
    }

    /// Takes the first number out.
    pub(crate) fn pop(&mut self) -> Option<u32>
        ensures taken { IfSome result (λ number. marks self.new ≡ slice_set (marks self.old) number false) }
        ensures kept { IfNone result (marks self.new ≡ marks self.old) }
    {
        let first = self.first()?;
        self.remove(first);
        Some(first)
    }
}
