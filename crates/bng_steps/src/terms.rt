//! The terms of a shard, with their sums.
ghost use Rattle.std.specs.Prelude.{◌≡◌, ◌≢◌, ◌+◌, ◌^◌, ◌<◌, ◌++◌, ◌∷◌, ◌==◌, [], None as Nothing, true, false, filter, find, map, option_map, slice_get, IfNone, IfOk, IfSome};
ghost use Rattle.std.specs.List.{list_any, All, AllPairs};
ghost use Rattle.bng_engine.specs.Books.{BooksFall};
ghost use Rattle.bng_engine.specs.Calls.{SayMore};
ghost use Rattle.bng_engine.specs.Lists.{AnyOf};
ghost use Rattle.bng_engine.specs.Protocol.{IsOwned};
ghost use Rattle.bng_engine.specs.Terms.{keys};
ghost use Rattle.bng_engine.specs.Views.{new_row, row_keys};
ghost use Rattle.bng_engine.specs.Quantities.{empty_book};
ghost use Rattle.bng_radius_wire.specs.Grammar.{whole as packet_of};
ghost use Rattle.bng_steps.specs.Changes.{named_term, is_named_by};
ghost use Rattle.bng_steps.specs.Interims.{row_told};
ghost use Rattle.bng_steps.specs.Live.{live_in};
ghost use Rattle.bng_steps.specs.Opening.{in_order, tenure_from, tenures_after};
ghost use Rattle.bng_steps.specs.Protocol.{key_of, row_at, term_in, SaysOf};
ghost use Rattle.bng_steps.specs.TermRows.{closed_rows, has_ended, row_recast_by, rows_in, tenure_in, tenures_in, AreRising, TakesFirst};
ghost use Rattle.bng_steps.specs.Sums.{traffic_in, AreCovered, RowsAreLow};
ghost use Rattle.bng_steps.specs.Tenures.{has_kept};

use crate::live::live;
use crate::rules::Rules;
use crate::served::circuit_with;
use crate::session::Lease;
use crate::sums::{Traffic, take_off};
use crate::term::{LiveTerm, ReportedTerm};
use crate::term_rows::{
    named_by, carried_by, carry, close, copied, copy_of, keep, recast, take_first, term_at,
    told_of,
};
use arrayvec::ArrayVec;
use bng_base::{Book, Circuit, Ip4, OutRecord, SessionNo, Static, TermId};
use bng_profile::Profiles;
use bng_radius_wire::Radius;
use std::alloc::{AllocError, Global};
use std::marker::Model;

/// A term: its session and its number in its shard, its circuit, its address, the place of its profile, and what its packets from the
/// subscriber and towards it carried. The User-Name and the Class attributes of its records, the moment at which it began, and the
/// cause of its end, once it has ended.
#[derive(Drop)]
pub struct TermRow {
    pub term: TermId,
    pub circuit: Circuit,
    pub lease: Ip4,
    pub profile: u8,
    pub carried: Book,
    pub user: ArrayVec<u8, 128>,
    pub class: ArrayVec<u8, 512>,
    pub began: u64,
    pub cause: Option<u8>,
}

/// A term that was asked for: which it is, and the place of its profile, from 0.
#[derive(Clone, Copy)]
pub struct NamedTerm {
    pub term: TermId,
    pub profile: u8,
}

/// The terms that have no Stop yet, in the order in which they began, and those of whose beginning no Start was formed yet; how many of
/// the first have ended; and for how many more there is room.
#[derive(Drop)]
pub struct Terms {
    rows: Vec<TermRow>,
    news: Vec<TermRow>,
    over: usize,
    room: usize,
}

impl Model for Terms {
    ghost use Rattle.std.specs.Prelude.{◌≡◌, ◌+◌, ◌≤◌, count_by, length, vec_capacity};
    ghost use Rattle.bng_steps.specs.TermRows.{TermsView, AreRising, has_ended};

    ghost Value = { TermsView };

    ghost view = { λ t. record { rows = t.rows.items; news = t.news.items; room = t.room } };

    ghost invariant = { λ t. AreRising t.rows.items × AreRising t.news.items × (t.over ≡ count_by has_ended t.rows.items)
        × (length t.rows.items + t.room ≤ vec_capacity t.rows) × (length t.news.items + t.room ≤ vec_capacity t.news) };
}

/// The most sessions of a shard.
const NUMBERS: u16 = 1022;

// The row of the term of a circuit that begins.
fn begun(circuit: &Static, serial: u64, now: u64) -> TermRow
    ensures tenure { tenure_in result ≡ tenure_from now circuit.now serial }
    ensures carried { result.carried ≡ empty_book }
{
    TermRow {
        term: TermId {
            session: circuit.session,
            serial,
        },
        circuit: Circuit::Pppoe {
            port: circuit.port,
            mac: circuit.mac,
            session: circuit.session,
        },
        lease: circuit.address,
        profile: circuit.profile,
        carried: Book::empty(),
        user: copied(&circuit.user),
        class: ArrayVec::new(),
        began: now,
        cause: None,
    }
}

// The rows of the terms of circuits, by rising session number.
fn rows_of(
    alloc: Global,
    number: u16,
    circuits: &[Static],
    now: u64,
) -> Result<Vec<TermRow>, AllocError>
    requires number { number < 64 }
    requires sessions { AllPairs (λ a b. a.session ≢ b.session) circuits.now }
    ensures tenures { IfOk result (λ r. tenures_in r.items ≡ tenures_after now 0 (in_order number circuits.now)) }
    ensures rows { IfOk result (λ r. rows_in r.items ≡ map new_row (keys (map term_in (tenures_in r.items)))) }
{
    let mut rows = Vec::with_capacity(alloc, usize::from(NUMBERS))?;
    let mut serial = 0;
    let first = number * 1024 + 1;
    for n in first..first + NUMBERS {
        if let Some(circuit) = circuit_with(circuits, SessionNo(n)) {
            serial += 1;
            rows.push_reserved(begun(circuit, serial, now));
        }
    }
    Ok(rows)
}

impl Terms {
    /// The terms of a shard's circuits at its opening, numbered from 1 on by rising session number: they began at this moment, in
    /// milliseconds. A Start is formed of each then.
    pub fn open(
        alloc: Global,
        number: u16,
        circuits: &[Static],
        now: u64,
    ) -> Result<Terms, AllocError>
        requires number { number < 64 }
        requires sessions { AllPairs (λ a b. a.session ≢ b.session) circuits.now }
        ensures terms { IfOk result (λ t. tenures_in t.rows ≡ tenures_after now 0 (in_order number circuits.now)) }
        ensures rows { IfOk result (λ t. rows_in t.rows ≡ map new_row (keys (map term_in (tenures_after now 0 (in_order number circuits.now))))) }
        ensures none { IfOk result (λ t. (t.news ≡ []) × (t.room ≡ 0)) }
    {
        Ok(Terms {
            rows: rows_of(alloc, number, circuits, now)?,
            news: Vec::new(alloc),
            over: 0,
            room: 0,
        })
    }

    /// What its memory comes from.
    pub fn allocator(&self) -> Global {
        *self.rows.allocator()
    }

    /// Makes room for so many terms more, and says whether there is; there is none where not.
    pub fn reserve(&mut self, items: usize) -> bool
        ensures kept { self.new ≡ record self.old { room = self.new.room } }
        ensures room { result ≡ true → self.new.room ≡ items }
        ensures none { result ≡ false → self.new.room ≡ 0 }
    {
        self.room = 0;
        if self.rows.reserve(items).is_err() || self.news.reserve(items).is_err() {
            return false;
        }
        self.room = items;
        true
    }

    /// A term begins, whose number is above those of all terms that are there.
    pub fn begin(&mut self, row: TermRow)
        requires room { 0 < self.old.room }
        requires above { All (λ r. r.term.serial < row.term.serial) self.old.rows }
        requires above_news { All (λ r. r.term.serial < row.term.serial) self.old.news }
        requires live { row.cause ≡ Nothing }
        ensures rows { self.new.rows ≡ self.old.rows ++ row ∷ [] }
        ensures news { tenures_in self.new.news ≡ tenures_in self.old.news ++ tenure_in row ∷ [] }
        ensures room { self.new.room + 1 ≡ self.old.room }
    {
        self.room -= 1;
        self.news.push_reserved(copy_of(&row));
        self.rows.push_reserved(row);
    }

    /// The term of this lease ends by this cause, where there is a lease and a cause.
    pub fn close(&mut self, lease: Option<Lease>, cause: Option<u8>)
        ensures { self.new ≡ record self.old { rows = closed_rows lease cause self.old.rows } }
    {
        let Some(lease) = lease else {
            return;
        };
        let Some(cause) = cause else {
            return;
        };
        if close(&mut self.rows, lease.serial, cause) {
            self.over += 1;
        }
    }

    /// The term with this number is under the profile at this place from then on, if it is live.
    pub fn recast(&mut self, serial: u64, place: u8)
        ensures { self.new ≡ record self.old { rows = map (row_recast_by serial place) self.old.rows } }
    {
        recast(&mut self.rows, serial, place);
    }

    /// The live term that has all the values which a request names; the one that began first, where there are some.
    pub fn named_by(&self, rules: &Rules, request: &Radius<'_>) -> Option<NamedTerm>
        ensures { result ≡ option_map named_term (find (is_named_by rules.now (packet_of request.now).attributes) (tenures_in self.now.rows)) }
    {
        named_by(&self.rows, rules, request)
    }

    /// Each has a number above those before it.
    pub fn are_rising(&self)
        ensures { AreRising self.now.rows }
    {
        let _room = self.room;
    }

    /// Whether a term that has ended still has this address.
    pub fn keeps(&self, address: Ip4) -> bool
        ensures { result ≡ list_any (has_kept address) (tenures_in self.now.rows) }
    {
        self.over > 0 && keep(&self.rows, address)
    }

    /// Takes out the first in order of the terms that have ended: the lower session number comes first, and of one session the earlier
    /// term. None exactly where none has ended.
    pub fn take_first_over(&mut self) -> Option<TermRow>
        ensures one { IfSome result (λ r. TakesFirst true self.old.rows r self.new.rows × (self.new ≡ record self.old { rows = self.new.rows })) }
        ensures none { IfNone result ((filter has_ended self.old.rows ≡ []) × (self.new ≡ self.old)) }
    {
        if self.over == 0 {
            return None;
        }
        let row = take_first(&mut self.rows, true)?;
        self.over -= 1;
        Some(row)
    }

    /// Whether a term has ended that is still there.
    pub fn has_over(&self) -> bool
        ensures none { result ≡ false → filter has_ended self.now.rows ≡ [] }
        ensures some { result ≡ true → filter has_ended self.now.rows ≢ [] }
    {
        self.over > 0
    }

    /// Whether there is a term of whose beginning no Start was formed yet.
    pub fn has_news(&self) -> bool
        ensures none { result ≡ false → self.now.news ≡ [] }
        ensures some { result ≡ true → self.now.news ≢ [] }
    {
        !self.news.is_empty()
    }

    /// Takes out the first in order of those of whose beginning no Start was formed yet; none exactly where there is none.
    pub fn take_first_new(&mut self) -> Option<TermRow>
        ensures one { IfSome result (λ r. TakesFirst false self.old.news r self.new.news × (self.new ≡ record self.old { news = self.new.news })) }
        ensures none { IfNone result ((self.old.news ≡ []) × (self.new ≡ self.old)) }
    {
        take_first(&mut self.news, false)
    }

    /// The term whose row stands at this place, from 0; none exactly past the last.
    pub fn term_at(&self, place: usize) -> Option<LiveTerm>
        ensures keys { option_map key_of result ≡ slice_get (row_keys (rows_in self.now.rows)) place }
        ensures says { IfSome result (λ t. AnyOf (SaysOf t.user.items t.class.items t.began (key_of t)) (tenures_in self.now.rows)) }
    {
        term_at(&self.rows, place)
    }

    /// The term with this number, and what it carried; none exactly where no row has it.
    pub fn told_of(&self, serial: u64) -> Option<ReportedTerm>
        ensures row { option_map row_told result ≡ find (λ r. r.key.term.serial == serial) (rows_in self.now.rows) }
        ensures says { IfSome result (λ t. AnyOf (SaysOf t.term.user.items t.term.class.items t.term.began (key_of t.term)) (tenures_in self.now.rows)) }
    {
        told_of(&self.rows, serial)
    }

    /// What the term with this address carried.
    pub fn carried_by(&self, address: Ip4) -> Option<Traffic>
        ensures { result ≡ option_map traffic_in (row_at (rows_in self.now.rows) address) }
    {
        carried_by(&self.rows, address)
    }

    /// What the terms carried that have no Stop yet, in all.
    pub fn live(&self) -> Book
        requires input { (live_in (rows_in self.now.rows)).input < 2 ^ 64 }
        requires output { (live_in (rows_in self.now.rows)).output < 2 ^ 64 }
        requires input_packets { (live_in (rows_in self.now.rows)).input_packets < 2 ^ 64 }
        requires output_packets { (live_in (rows_in self.now.rows)).output_packets < 2 ^ 64 }
        ensures { result ≡ live_in (rows_in self.now.rows) }
    {
        live(&self.rows)
    }

    /// Takes the answer to a send: a packet that was sent is added to the row of its term, and one that was not is taken off the book
    /// of its profile, if there is that profile.
    pub fn settle(&mut self, profiles: &mut Profiles, out: &OutRecord)
        requires low { RowsAreLow (2 ^ 63) (rows_in self.old.rows) }
        requires own { IsOwned (row_keys (rows_in self.old.rows)) out.now }
        requires covered { AreCovered profiles.old.books out.now }
        ensures rows { SayMore (rows_in self.old.rows) (out.now ∷ []) (rows_in self.new.rows) }
        ensures terms { tenures_in self.new.rows ≡ tenures_in self.old.rows }
        ensures others { self.new ≡ record self.old { rows = self.new.rows } }
        ensures names { profiles.new.names ≡ profiles.old.names }
        ensures books { BooksFall profiles.old.books (out.now ∷ []) profiles.new.books }
    {
        let Some(charge) = out.charge else {
            return;
        };
        if out.sent {
            carry(&mut self.rows, charge);
        } else if charge.profile < profiles.count() {
            take_off(profiles, charge.profile, charge.input, charge.octets);
        }
    }
}
