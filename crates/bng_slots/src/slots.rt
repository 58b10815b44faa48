ghost use Rattle.std.specs.Prelude.{◌≡◌, ◌+◌, ◌*◌, ◌<◌, ◌≤◌, ◌↔◌, ◌≢◌, ℕ, Some, None, IsSome, IfOk, IfErr, IfSome, IfNone, IsErr};
ghost use Rattle.std.specs.Option.{option_copied};
ghost use Rattle.std.specs.FinMap.{empty};
ghost use Rattle.bng_base.specs.declared.address.SessionNo.{SessionNo as Number};
ghost use Rattle.bng_slots.specs.Inside.{due_of};
ghost use Rattle.bng_sessions.specs.Sessions.{IsNumberOf, IsLowestVacant, IsEarliest, NoneShares, value_at, read_at, used, with_value, without};

use crate::full::{Full, SlotError};
use crate::index::Index;
use crate::key::Deadline;
use crate::shelf::Shelf;
use crate::vacancy::{PLACES, Vacancy};
use bng_base::{Circuit, Ip4, SessionNo, TermId};
use bng_sessions::Slotted;
use std::alloc::Global;
use std::marker::Model;

/// A shard's sessions by number, found by their circuits, addresses, terms and deadlines too. There is room for one at each
/// session number of the shard, and only `open` takes memory.
#[derive(Drop)]
pub struct Slots<V: Slotted> {
    shard: u16,
    shelf: Shelf<V>,
    vacancy: Vacancy,
    circuits: Index<Circuit>,
    addresses: Index<Ip4>,
    terms: Index<TermId>,
    deadlines: Index<Deadline>,
}

impl<V: Slotted> Model for Slots<V> {
    ghost use Rattle.bng_sessions.specs.Sessions.{Sessions, sessions_code};

    ghost Value = { Sessions V };

    ghost coded = { sessions_code V.code };

    ghost use Rattle.bng_slots.specs.Inside.{by_number, IsSlots};

    ghost view = { λ a. record { shard = a.shard; by_number = by_number a.shard a.shelf } };

    ghost invariant = { λ a. IsSlots V.circuit V.address V.term V.deadline a.shard a.shelf a.vacancy.words a.circuits a.addresses a.terms a.deadlines };
}

// The place of a session number; none exactly where it is none of the shard's.
fn place_of(shard: u16, n: SessionNo) -> Option<usize>
    requires { shard < 64 }
    ensures here { IfSome result (λ p. (p < PLACES) × (n.0 ≡ shard * 1024 + 1 + p)) }
    ensures nowhere { IfNone result (IsNumberOf shard n.0 → ⊥) }
{
    let first = shard * 1024 + 1;
    if n.0 < first {
        return None;
    }
    let place = usize::from(n.0 - first);
    if place < PLACES { Some(place) } else { None }
}

impl<V: Slotted> Slots<V> {
    /// The slots of the shard of this number, all vacant.
    pub fn open(alloc: Global, shard: u16) -> Result<Slots<V>, SlotError>
        requires { shard ≤ 63 }
        ensures shard { IfOk result (λ s. s.shard ≡ shard) }
        ensures vacant { IfOk result (λ s. s.by_number ≡ empty) }
    {
        let circuits = Index::open(alloc, PLACES)?;
        let addresses = Index::open(alloc, PLACES)?;
        let terms = Index::open(alloc, PLACES)?;
        let deadlines = Index::open(alloc, PLACES)?;
        Ok(Slots {
            shard,
            shelf: Shelf::open(alloc)?,
            vacancy: Vacancy::open(),
            circuits,
            addresses,
            terms,
            deadlines,
        })
    }

    /// The shard's number. Each session number that is used is one of the shard's.
    pub fn shard(&self) -> u16
        ensures number { result ≡ self.now.shard }
        ensures range { result < 64 }
        ensures own { (n : ℕ) → IsSome (value_at self.now n) → IsNumberOf self.now.shard n }
    {
        self.shard
    }

    /// The value of a session number; none exactly where it is not used.
    pub fn get(&self, n: SessionNo) -> Option<&V>
        ensures { option_copied result ≡ value_at self.now n.0 }
    {
        let place = place_of(self.shard, n)?;
        self.shelf.get(place)
    }

    /// How many session numbers are used.
    pub fn count(&self) -> u32
        ensures used { result ≡ used self.now }
        ensures few { result ≤ 1022 }
    {
        self.shelf.count() as u32
    }

    /// The lowest session number of the shard that is not used; none exactly where 1,022 are used.
    pub fn vacant(&self) -> Option<SessionNo>
        ensures lowest { IfSome result (λ n. IsLowestVacant self.now n.0) }
        ensures none { (result ≡ None) ↔ (used self.now ≡ 1022) }
        ensures all { IfNone result ((n : ℕ) → IsNumberOf self.now.shard n → IsSome (value_at self.now n)) }
    {
        let place = self.vacancy.lowest()?;
        Some(SessionNo(self.shard * 1024 + 1 + place as u16))
    }

    /// The session that serves a circuit; none exactly where no slot has it.
    pub fn by_circuit(&self, circuit: &Circuit) -> Option<SessionNo>
        ensures found { (n : Number) → (result ≡ Some n) ↔ (read_at V.circuit self.now n.0 ≡ Some circuit.now) }
        ensures none { (result ≡ None) ↔ ((n : ℕ) → read_at V.circuit self.now n ≢ Some circuit.now) }
    {
        self.circuits.find(circuit)
    }

    /// The session that leases an address; none exactly where no slot has it.
    pub fn by_address(&self, address: Ip4) -> Option<SessionNo>
        ensures found { (n : Number) → (result ≡ Some n) ↔ (read_at V.address self.now n.0 ≡ Some address) }
        ensures none { (result ≡ None) ↔ ((n : ℕ) → read_at V.address self.now n ≢ Some address) }
    {
        self.addresses.find(&address)
    }

    /// The session of a term; none exactly where no slot has it.
    pub fn by_term(&self, term: &TermId) -> Option<SessionNo>
        ensures found { (n : Number) → (result ≡ Some n) ↔ (read_at V.term self.now n.0 ≡ Some term.now) }
        ensures none { (result ≡ None) ↔ ((n : ℕ) → read_at V.term self.now n ≢ Some term.now) }
    {
        self.terms.find(term)
    }

    /// The earliest deadline in milliseconds, with the lowest session number of those that have it; none exactly where no slot has
    /// a deadline.
    pub fn earliest(&self) -> Option<(u64, SessionNo)>
        ensures first { IfSome result (λ e. IsEarliest V.deadline self.now e.0 e.1.0) }
        ensures none { (result ≡ None) ↔ ((n : ℕ) → read_at V.deadline self.now n ≡ None) }
    {
        let due = self.deadlines.first()?;
        Some((due.deadline, due.session))
    }

    /// Gives a session number that is not used a value whose circuit, address and term no slot has.
    pub fn put(&mut self, n: SessionNo, value: V)
        requires number { IsNumberOf self.old.shard n.0 }
        requires vacant { value_at self.old n.0 ≡ None }
        requires circuit { NoneShares V.circuit self.old value }
        requires address { NoneShares V.address self.old value }
        requires term { NoneShares V.term self.old value }
        ensures { self.new ≡ with_value self.old n.0 value }
    {
        let Some(place) = place_of(self.shard, n) else {
            unreachable!()
        };
        self.circuits.note(value.circuit(), n);
        self.addresses.note(value.address(), n);
        self.terms.note(value.term(), n);
        self.deadlines.note(due_of(&value, n), n);
        self.vacancy.take(place);
        self.shelf.put(place, value);
    }

    /// Gives the lowest session number that is not used a value whose circuit, address and term no slot has. `Full` comes exactly
    /// where 1,022 numbers are used; then all is as before.
    pub fn insert(&mut self, value: V) -> Result<SessionNo, Full<V>>
        requires circuit { NoneShares V.circuit self.old value }
        requires address { NoneShares V.address self.old value }
        requires term { NoneShares V.term self.old value }
        ensures lowest { IfOk result (λ n. IsLowestVacant self.old n.0) }
        ensures placed { IfOk result (λ n. self.new ≡ with_value self.old n.0 value) }
        ensures full { IsErr result ↔ (used self.old ≡ 1022) }
        ensures handed_back { IfErr result (λ full. (full.value ≡ value) × (self.new ≡ self.old)) }
    {
        match self.vacant() {
            Some(n) => {
                self.put(n, value);
                Ok(n)
            }
            None => Err(Full { value }),
        }
    }

    /// Takes the value of a session number out; none exactly where it is not used, and then all is as before.
    pub fn remove(&mut self, n: SessionNo) -> Option<V>
        ensures value { result ≡ value_at self.old n.0 }
        ensures after { self.new ≡ without self.old n.0 }
    {
        let place = place_of(self.shard, n)?;
        let value = self.shelf.take(place)?;
        self.circuits.forget(value.circuit());
        self.addresses.forget(value.address());
        self.terms.forget(value.term());
        self.deadlines.forget(due_of(&value, n));
        self.vacancy.give_back(place);
        Some(value)
    }
}

// What the index of deadlines has for a value under a session number.
fn due_of<V: Slotted>(value: &V, session: SessionNo) -> Option<Deadline>
    ensures { result ≡ due_of V.deadline session value.now }
{
    let deadline = value.deadline()?;
    Some(Deadline { deadline, session })
}
