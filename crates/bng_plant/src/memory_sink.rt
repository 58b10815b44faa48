ghost use Rattle.std.specs.Prelude.{◌≡◌, ◌≤◌, ◌+◌, ◌-◌, ◌/◌, ◌++◌, [], Some, length, take, min, nat_le, true, false, IfOk, IsTrue, ◌↔◌, vec_len, vec_capacity};
ghost use Rattle.bng_base.specs.Causes.{HasCause};
ghost use Rattle.bng_base.specs.Told.{Grows};
ghost use Rattle.bng_plant.specs.Calls.{writes};
ghost use Rattle.bng_plant.specs.Failing.{goes_on, one_more, fresh};

use crate::answers::Wrote;
use crate::failing::Failing;
use crate::outside::Sink;
use std::alloc::{AllocError, Global};

/// A sink that keeps what is written. A write that is to fail appends the first half of its text, as far as there is
/// room, and one that goes past the room fails and appends what fits.
#[derive(Drop)]
pub struct MemorySink {
    text: Vec<u8>,
    failing: Failing,
}

impl MemorySink {
    ghost use Rattle.bng_plant.specs.MemorySink.{told_by, held_by};

    /// A sink with room for so many octets. The writes with these numbers fail, the first being 1.
    pub fn new(alloc: Global, fail_at: Vec<u64>, room: usize) -> Result<MemorySink, AllocError>
        ensures told { IfOk result (λ s. told_by s ≡ record { bytes = Some []; faults = 0 }) }
        ensures held { IfOk result (λ s. held_by s ≡ record { calls = fresh fail_at.items; room = room }) }
    {
        Ok(MemorySink {
            text: Vec::with_capacity(alloc, room)?,
            failing: Failing::new(fail_at),
        })
    }

    /// What was written.
    pub fn text(&self) -> &[u8]
        ensures { (told_by self.now).bytes ≡ Some result.now }
    {
        self.text.as_slice()
    }

    /// How many writes failed.
    pub fn faults(&self) -> u64
        ensures { (told_by self.now).faults ≡ result }
    {
        self.failing.faults
    }
}

/// Appends octets for which there is room.
fn append(to: &mut Vec<u8>, from: &[u8])
    requires { vec_len to.old + length from.now ≤ vec_capacity to.old }
    ensures items { to.new.items ≡ to.old.items ++ from.now }
    ensures room { vec_capacity to.new - vec_len to.new ≡ vec_capacity to.old - vec_len to.old - length from.now }
{
    for octet in from {
        to.push_reserved(*octet);
    }
}

impl Sink for MemorySink {
    ghost use Rattle.bng_plant.specs.MemorySink.{told_by, held_by, written};

    ghost told = { told_by };

    fn write(&mut self, text: &[u8]) -> Wrote
        ensures bytes { writes (told_by self.old).bytes (told_by self.new).bytes text.now result }
        ensures cause { HasCause (told_by self.old).faults (told_by self.new).faults (result ≡ Wrote.Failed) }
        // It fails exactly where it is to fail or goes past its room.
        ensures ok { (result ≡ Wrote.Ok) ↔ IsTrue (goes_on (held_by self.old).calls (nat_le (length text.now) (held_by self.old).room)) }
        ensures unfailing { (held_by self.old).calls.fail_at ≡ [] → length text.now ≤ (held_by self.old).room → result ≡ Wrote.Ok }
        ensures uncounted { result ≡ Wrote.Ok → (told_by self.new).faults ≡ (told_by self.old).faults }
        // What it appends.
        ensures front { Grows (told_by self.old).bytes (told_by self.new).bytes (take (written (held_by self.old) (length text.now)) text.now) }
        ensures held { held_by self.new ≡ record { calls = one_more (held_by self.old).calls; room = (held_by self.old).room - written (held_by self.old) (length text.now) } }
    {
        let room = self.text.capacity() - self.text.len();
        let due = self.failing.is_due();
        let goes_on = self.failing.goes_on(text.len() <= room);
        let wanted = if due { text.len() / 2 } else { text.len() };
        append(&mut self.text, &text[..wanted.min(room)]);
        if goes_on { Wrote::Ok } else { Wrote::Failed }
    }
}
