ghost use Rattle.std.specs.Prelude.{◌≡◌, ◌<◌, ◌≤◌, ◌-◌, [], ◌∷◌, Some, None, map, length, true, false, not, ◌&&◌, ◌↔◌, nat_lt, nat_le, IfOk, IfSome, IsTrue, IsSomeAnd, slice_get, vec_len, vec_capacity};
ghost use Rattle.bng_base.specs.Causes.{HasCause};
ghost use Rattle.bng_base.specs.Told.{Grows, GrowsIfTold, taken_by};
ghost use Rattle.bng_base.specs.declared.outside.Heard.TheVariants.{Receive, Wait};
ghost use Rattle.bng_plant.specs.Arrival.{datagram_of, is_got, IsFor, IsGiven};
ghost use Rattle.bng_plant.specs.Calls.{IsFilled, binds, sends, send_most};
ghost use Rattle.bng_plant.specs.Failing.{is_due, goes_on};

use crate::answers::{Bound, Sending};
use crate::arrival::{Arrival, kept};
use crate::failing::{Failing, has_room, tell};
use crate::give::give;
use crate::outside::Plant;
use bng_base::{Bind, Datagram, Frame, Heard, Peer, ROOM, Received, Role};
use std::alloc::{AllocError, Global};

/// A plant whose receives answer by a script, and that keeps what was bound, heard and sent.
#[derive(Drop)]
pub struct MemoryPlant {
    script: Vec<Arrival>,
    next: usize,
    waited: u32,
    failing: Failing,
    bound: Vec<Bind>,
    heard: Vec<Heard>,
    sent: Vec<Datagram>,
    silent: bool,
    ghost within: { next ≤ vec_len script },
}

impl MemoryPlant {
    ghost use Rattle.bng_plant.specs.MemoryPlant.{told_by, held_by, nothing_yet, made};

    /// A plant that gives the arrivals of the script one after the other, each to the next receive of its role, and
    /// that answers Empty otherwise. Binds, receives and sends are its calls: those with the numbers of `fail_at`
    /// fail, the first being 1. `room` is how many binds, how many receives and waits, and how many sends it keeps. A
    /// bind or a send past it fails, and so does a send of more than 4,160 octets; a receive or a wait past it is not
    /// told, and neither are those after it.
    pub fn new(
        alloc: Global,
        script: Vec<Arrival>,
        fail_at: Vec<u64>,
        room: usize,
    ) -> Result<MemoryPlant, AllocError>
        ensures told { IfOk result (λ p. told_by p ≡ nothing_yet) }
        ensures held { IfOk result (λ p. held_by p ≡ made script.items fail_at.items room) }
    {
        Ok(MemoryPlant {
            script,
            next: 0,
            waited: 0,
            failing: Failing::new(fail_at),
            bound: Vec::with_capacity(alloc, room)?,
            heard: Vec::with_capacity(alloc, room)?,
            sent: Vec::with_capacity(alloc, room)?,
            silent: false,
        })
    }

    /// The binds that answered Ok.
    pub fn bound(&self) -> &[Bind]
        ensures { (told_by self.now).bound ≡ Some result.now }
    {
        self.bound.as_slice()
    }

    /// The answers of the receives and the waits, in order. `None` where it has stopped telling.
    pub fn heard(&self) -> Option<&[Heard]>
        ensures silent { result ≡ None → (told_by self.now).heard ≡ None }
        ensures heard { IfSome result (λ heard. (told_by self.now).heard ≡ Some heard.now) }
    {
        if self.silent {
            return None;
        }
        Some(self.heard.as_slice())
    }

    /// The arrivals that were given.
    pub fn taken(&self) -> &[Arrival]
        ensures { (told_by self.now).taken ≡ Some (map datagram_of result.now) }
    {
        &self.script[..self.next]
    }

    /// The datagrams that were sent.
    pub fn sent(&self) -> &[Datagram]
        ensures { (told_by self.now).sent ≡ Some result.now }
    {
        self.sent.as_slice()
    }

    /// How many calls failed.
    pub fn faults(&self) -> u64
        ensures { (told_by self.now).faults ≡ result }
    {
        self.failing.faults
    }
}

/// Whether a datagram can be kept: there is room for it, and it has at most 4,160 octets.
fn can_keep(sent: &Vec<Datagram>, bytes: &[u8]) -> bool
    ensures { result ≡ (nat_lt 0 (vec_capacity sent.now - vec_len sent.now) && nat_le (length bytes.now) ROOM) }
{
    has_room(sent) && bytes.len() <= ROOM
}

impl Plant for MemoryPlant {
    ghost use Rattle.bng_plant.specs.MemoryPlant.{told_by, held_by, after_bind, after_receive, after_send, after_wait};

    ghost told = { told_by };

    fn bind(&mut self, role: Role, local: Peer, _remote: Option<Peer>) -> Bound
        ensures bound { Grows (told_by self.old).bound (told_by self.new).bound (binds role local result) }
        ensures heard { (told_by self.new).heard ≡ (told_by self.old).heard }
        ensures taken { (told_by self.new).taken ≡ (told_by self.old).taken }
        ensures sent { (told_by self.new).sent ≡ (told_by self.old).sent }
        ensures cause { HasCause (told_by self.old).faults (told_by self.new).faults (result ≡ Bound.Failed) }
        // It fails exactly where it is to fail or goes past the room.
        ensures ok { (result ≡ Bound.Ok) ↔ IsTrue (goes_on (held_by self.old).calls (nat_lt 0 (held_by self.old).binds)) }
        ensures unfailing { (held_by self.old).calls.fail_at ≡ [] → 0 < (held_by self.old).binds → result ≡ Bound.Ok }
        ensures uncounted { result ≡ Bound.Ok → (told_by self.new).faults ≡ (told_by self.old).faults }
        ensures held { held_by self.new ≡ after_bind result (held_by self.old) }
    {
        if !self.failing.goes_on(has_room(&self.bound)) {
            return Bound::Failed;
        }
        self.bound.push_reserved(Bind { role, local });
        Bound::Ok
    }

    fn recv(&mut self, role: Role, into: &mut Frame) -> Received
        ensures filled { IsFilled result into.new }
        ensures bound { (told_by self.new).bound ≡ (told_by self.old).bound }
        ensures heard { GrowsIfTold (told_by self.old).heard (told_by self.new).heard (Receive role result ∷ []) }
        ensures taken { Grows (told_by self.old).taken (told_by self.new).taken (taken_by role result into.new.payload) }
        ensures sent { (told_by self.new).sent ≡ (told_by self.old).sent }
        ensures cause { HasCause (told_by self.old).faults (told_by self.new).faults (result ≡ Received.Failed) }
        // It fails exactly where it is to fail.
        ensures failed { (result ≡ Received.Failed) ↔ IsTrue (is_due (held_by self.old).calls) }
        ensures unfailing { (held_by self.old).calls.fail_at ≡ [] → ¬ (result ≡ Received.Failed) }
        ensures uncounted { IsTrue (not (is_due (held_by self.old).calls)) → (told_by self.new).faults ≡ (told_by self.old).faults }
        // Otherwise it is Empty exactly where the script gives nothing, and what the script gives is what is taken.
        ensures empty { (result ≡ Received.Empty) ↔ (IsTrue (not (is_due (held_by self.old).calls)) × ¬ IsSomeAnd (slice_get (held_by self.old).script (held_by self.old).next) (IsFor role (held_by self.old).waited)) }
        ensures got { IsTrue (is_got result) → IsSomeAnd (slice_get (held_by self.old).script (held_by self.old).next) (IsGiven role (held_by self.old).waited result into.new) }
        ensures kept { IsTrue (not (is_got result)) → into.new ≡ into.old }
        // While there is room, it tells.
        ensures telling { 0 < (held_by self.old).hears → Grows (told_by self.old).heard (told_by self.new).heard (Receive role result ∷ []) }
        ensures held { held_by self.new ≡ after_receive result (held_by self.old) }
    {
        let mut answer = Received::Failed;
        if self.failing.goes_on(true) {
            answer = give(&self.script, &mut self.next, &mut self.waited, role, into);
        }
        tell(
            &mut self.heard,
            &mut self.silent,
            Heard::Receive(role, answer),
        );
        answer
    }

    fn send(&mut self, role: Role, to: Peer, bytes: &[u8]) -> Sending
        requires { length bytes.now ≤ send_most role }
        ensures bound { (told_by self.new).bound ≡ (told_by self.old).bound }
        ensures heard { (told_by self.new).heard ≡ (told_by self.old).heard }
        ensures taken { (told_by self.new).taken ≡ (told_by self.old).taken }
        ensures sent { Grows (told_by self.old).sent (told_by self.new).sent (sends role to bytes.now result) }
        ensures cause { HasCause (told_by self.old).faults (told_by self.new).faults (result ≡ Sending.Failed) }
        // It fails exactly where it is to fail or goes past the room: of datagrams, or of 4,160 octets.
        ensures ok { (result ≡ Sending.Sent) ↔ IsTrue (goes_on (held_by self.old).calls (nat_lt 0 (held_by self.old).sends && nat_le (length bytes.now) ROOM)) }
        ensures unfailing { (held_by self.old).calls.fail_at ≡ [] → 0 < (held_by self.old).sends → length bytes.now ≤ ROOM → result ≡ Sending.Sent }
        ensures uncounted { result ≡ Sending.Sent → (told_by self.new).faults ≡ (told_by self.old).faults }
        ensures held { held_by self.new ≡ after_send result (held_by self.old) }
    {
        if !self.failing.goes_on(can_keep(&self.sent, bytes)) {
            return Sending::Failed;
        }
        self.sent.push_reserved(Datagram {
            role,
            peer: to,
            octets: kept(bytes),
        });
        Sending::Sent
    }

    fn wait(&mut self, ms: u32)
        ensures bound { (told_by self.new).bound ≡ (told_by self.old).bound }
        ensures heard { GrowsIfTold (told_by self.old).heard (told_by self.new).heard (Wait ms ∷ []) }
        ensures taken { (told_by self.new).taken ≡ (told_by self.old).taken }
        ensures sent { (told_by self.new).sent ≡ (told_by self.old).sent }
        ensures uncounted { (told_by self.new).faults ≡ (told_by self.old).faults }
        ensures later { (told_by self.old).faults ≤ (told_by self.new).faults }
        // While there is room, it tells.
        ensures telling { 0 < (held_by self.old).hears → Grows (told_by self.old).heard (told_by self.new).heard (Wait ms ∷ []) }
        ensures held { held_by self.new ≡ after_wait (held_by self.old) }
    {
        self.waited = self.waited.saturating_add(1);
        tell(&mut self.heard, &mut self.silent, Heard::Wait(ms));
    }
}
