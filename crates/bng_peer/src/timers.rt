//! Who waits for an answer, and until when.
ghost use Rattle.std.specs.Prelude.{◌≡◌, ◌⊎◌, ◌≤◌, ◌+◌, ◌-◌, ◌^◌, IfSome, min, slice_get, slice_set};

use crate::queue::Queue;
use crate::script::patient_until;
use std::alloc::{AllocError, Global};

/// Those that wait, by their deadlines: each waits as long, so they stand in the order in which they began.
#[derive(Drop)]
pub(crate) struct Timers {
    waiting: Queue,
    deadlines: Vec<u64>,
}

impl Timers {
    /// Nobody waits. Numbers are below this one.
    pub(crate) fn new(alloc: Global, bound: u32) -> Result<Timers, AllocError> {
        let mut deadlines = Vec::new(alloc);
        for _ in 0..bound {
            deadlines.push(0)?;
        }
        Ok(Timers {
            waiting: Queue::new(alloc, bound)?,
            deadlines,
        })
    }

    /// Begins to wait, at this moment.
    pub(crate) fn start(&mut self, number: u32, now: u64)
        ensures { self.new.deadlines.items ≡ slice_set self.old.deadlines.items number (min (now + 3000) (2 ^ 64 - 1)) }
    {
        self.waiting.remove(number);
        if let Some(deadline) = self.deadlines.get_mut(number as usize) {
            *deadline = patient_until(now);
        }
        self.waiting.push(number);
    }

    /// Begins to wait, at this moment, unless it waits already.
    pub(crate) fn start_once(&mut self, number: u32, now: u64)
        ensures { (self.new.deadlines.items ≡ self.old.deadlines.items)
            ⊎ (self.new.deadlines.items ≡ slice_set self.old.deadlines.items number (min (now + 3000) (2 ^ 64 - 1))) }
    {
        if !self.waiting.has(number) {
            self.start(number, now);
        }
    }

    /// Waits no more.
    pub(crate) fn stop(&mut self, number: u32)
        ensures { self.new.deadlines.items ≡ self.old.deadlines.items }
    {
        self.waiting.remove(number);
    }

    /// The next one that has waited long enough. It waits no more.
    pub(crate) fn take_due(&mut self, now: u64) -> Option<u32>
        ensures due { IfSome result (λ number. IfSome (slice_get self.old.deadlines.items number) (λ deadline. deadline ≤ now)) }
        ensures kept { self.new.deadlines.items ≡ self.old.deadlines.items }
    {
        let first = self.waiting.first()?;
        let deadline = *self.deadlines.get(first as usize)?;
        if now < deadline {
            return None;
        }
        self.waiting.remove(first);
        Some(first)
    }
}
