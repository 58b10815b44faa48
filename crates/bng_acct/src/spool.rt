//! The spool: records from their forming until the server has them.
ghost use Rattle.std.specs.Prelude.{◌≡◌, ◌<◌, ◌≤◌, ◌+◌, ◌*◌, ◌↔◌, [], None, Some, IfOk, IfSome, IfNone, IsTrue, IsSome, false, true, List, ℕ, length, filter, slice_get};
ghost use Rattle.std.specs.Option.{option_copied};
ghost use Rattle.bng_radius_wire.specs.Attributes.{Field};
ghost use Rattle.bng_base.specs.declared.circuit.TermId.{TermId};
ghost use Rattle.bng_acct.specs.Request.{AreClasses};
ghost use Rattle.bng_acct.specs.Queue.{sheet_at, Sets, without};
ghost use Rattle.bng_acct.specs.Roster.{of_term};
ghost use Rattle.bng_acct.specs.Spool.{IsOpened, open_of, or_unknown, stops_in, IsAdmitted, Forms, HandsOver, Releases, ReleasesIfAny, SameFacts, Agree, is_live, is_stop_sheet, only_stop, facts_at, unacked_stops};
ghost use Rattle.bng_acct.specs.Texts.{session_id};

use crate::facts::{Moment, Record, RecordNo, StatusType, TermFacts};
use crate::held::{Held, ended_by, is_kept, unknown, with_number};
use crate::queue::RecordQueue;
use crate::record::write;
use crate::roster::Roster;
use crate::rules::{AcctRules, SpoolError};
use crate::sheet::Sheet;
use crate::texts::session_id;
use arrayvec::ArrayVec;
use bng_base::{Frame, TermId};
use std::alloc::Global;
use std::marker::Model;

/// The records that were formed and are neither acknowledged nor forgotten, and the terms that are live or have such a
/// record. `open` takes all the memory that they need.
#[derive(Drop)]
pub struct Spool {
    rules: AcctRules,
    queue: RecordQueue,
    roster: Roster,
    stops: u32,
}

impl Model for Spool {
    ghost use Rattle.bng_acct.specs.Spool.{State};
    ghost use Rattle.bng_acct.specs.Consistent.{IsConsistent};

    ghost Value = { State };

    ghost view = { λ s. record { rules = s.rules; sheets = s.queue.sheets; waiting = s.queue.waiting; held = s.roster.held } };

    ghost invariant = { λ s. IsConsistent s.rules s.queue s.roster s.stops };
}

// The same facts.
fn copied(facts: &TermFacts) -> TermFacts
    ensures { SameFacts facts.now result }
{
    let mut user = ArrayVec::new();
    let _ = user.try_extend_from_slice(facts.user.as_slice());
    let mut class = ArrayVec::new();
    let _ = class.try_extend_from_slice(facts.class.as_slice());
    TermFacts {
        term: facts.term,
        circuit: facts.circuit,
        address: facts.address,
        user,
        class,
        began: facts.began,
        carried: facts.carried,
    }
}

// The same rules.
fn same_rules(rules: &AcctRules) -> AcctRules
    ensures terms { result.terms ≡ rules.now.terms }
    ensures wall { result.wall ≡ rules.now.wall }
    ensures name { result.name.items ≡ rules.now.name.items }
    ensures nas_ip { result.nas_ip ≡ rules.now.nas_ip }
{
    let mut name = ArrayVec::new();
    let _ = name.try_extend_from_slice(rules.name.as_slice());
    AcctRules {
        terms: rules.terms,
        wall: rules.wall,
        name,
        nas_ip: rules.nas_ip,
    }
}

// What is held of a term, where something is.
fn known_of(roster: &Roster, term: TermId) -> Held
    ensures held { result ≡ or_unknown term (of_term term roster.now.held) }
    ensures room { length roster.now.held ≤ roster.now.room }
{
    match roster.get(term) {
        Some(held) => held,
        None => unknown(term),
    }
}

// Whether a record is a Stop.
fn stops_in(status: StatusType) -> u32
    ensures { result ≡ stops_in status }
{
    match status {
        StatusType::Start | StatusType::Interim => 0,
        StatusType::Stop => 1,
    }
}

// A term's record of a kind is open no longer.
fn release(roster: &mut Roster, term: TermId, status: StatusType)
    requires { IsSome (of_term term roster.old.held) }
    ensures releases { Releases roster.old.held roster.new.held term status }
    ensures room { roster.new.room ≡ roster.old.room }
{
    if let Some(held) = roster.get(term) {
        let left = with_number(status, None, held);
        if is_kept(left) {
            roster.put(left);
        } else {
            roster.remove(left.term);
        }
    }
}

// The facts of the record with a number.
fn facts_of(queue: &RecordQueue, number: u32) -> Option<&TermFacts>
    ensures { option_copied result ≡ facts_at queue.now.sheets number }
{
    match queue.get(number) {
        Some(sheet) => Some(&sheet.record.facts),
        None => None,
    }
}

impl Spool {
    // Forms a record.
    fn form(&mut self, status: StatusType, facts: &TermFacts, moment: Moment) -> RecordNo
        requires classes { (classes : List Field) × AreClasses classes facts.now.class.items }
        requires began { facts.now.began ≤ moment.now }
        requires admitted { IsAdmitted self.old facts.now.term }
        requires once { open_of facts.now.term status self.old.held ≡ None }
        ensures { Forms self.old self.new status facts.now moment result.0 }
    {
        let known = known_of(&self.roster, facts.term);
        let number = self.queue.add(Sheet {
            record: Record {
                status,
                facts: copied(facts),
                moment,
            },
            handed: false,
        });
        self.roster
            .put(with_number(status, Some(number), ended_by(status, known)));
        self.stops += stops_in(status);
        RecordNo(number)
    }

    /// A spool with no record. Room is made for three records of 1,024 octets for each of the terms, which are 262,144 at
    /// most.
    pub fn open(alloc: Global, rules: &AcctRules) -> Result<Spool, SpoolError>
        requires { rules.now.terms ≤ 262144 }
        ensures { IfOk result (λ s. IsOpened rules.now s) }
    {
        let room = rules.terms as usize;
        let queue = RecordQueue::open(alloc, 3 * room)?;
        let Ok(roster) = Roster::open(alloc, room) else {
            return Err(SpoolError::OutOfMemory);
        };
        Ok(Spool {
            rules: same_rules(rules),
            queue,
            roster,
            stops: 0,
        })
    }

    /// Forms the Start of a term (RFC 2866 section 5.1). The facts' Classes are a list of at most 32 whole attributes of
    /// type 25, the term began no later than now, and it is admitted: something is held of it, or `free` is 1 at least.
    /// No Start of it is open.
    pub fn start(&mut self, term: &TermFacts, moment: Moment) -> RecordNo
        requires classes { (classes : List Field) × AreClasses classes term.now.class.items }
        requires began { term.now.began ≤ moment.now }
        requires admitted { IsAdmitted self.old term.now.term }
        requires once { open_of term.now.term StatusType.Start self.old.held ≡ None }
        ensures { Forms self.old self.new StatusType.Start term.now moment result.0 }
    {
        self.form(StatusType::Start, term, moment)
    }

    /// Forms an Interim of a term, under the conditions of `start`: no Interim of it is open.
    pub fn interim(&mut self, term: &TermFacts, moment: Moment) -> RecordNo
        requires classes { (classes : List Field) × AreClasses classes term.now.class.items }
        requires began { term.now.began ≤ moment.now }
        requires admitted { IsAdmitted self.old term.now.term }
        requires once { open_of term.now.term StatusType.Interim self.old.held ≡ None }
        ensures { Forms self.old self.new StatusType.Interim term.now moment result.0 }
    {
        self.form(StatusType::Interim, term, moment)
    }

    /// Forms the Stop of a term, which is live no longer, under the conditions of `start`: no Stop of it is open. It may
    /// come before the Start.
    pub fn stop(&mut self, term: &TermFacts, moment: Moment) -> RecordNo
        requires classes { (classes : List Field) × AreClasses classes term.now.class.items }
        requires began { term.now.began ≤ moment.now }
        requires admitted { IsAdmitted self.old term.now.term }
        requires once { open_of term.now.term StatusType.Stop self.old.held ≡ None }
        ensures { Forms self.old self.new StatusType.Stop term.now moment result.0 }
    {
        self.form(StatusType::Stop, term, moment)
    }

    /// The number of a term's open record of a kind.
    pub fn open_number(&self, term: TermId, status: StatusType) -> Option<u32>
        ensures { result ≡ open_of term status self.now.held }
    {
        let held = self.roster.get(term)?;
        match status {
            StatusType::Start => held.start,
            StatusType::Interim => held.interim,
            StatusType::Stop => held.stop,
        }
    }

    /// Whether no Interim of a term is open: none was formed, or the last one is acknowledged or forgotten.
    pub fn interim_free(&self, term: &TermId) -> bool
        ensures { IsTrue result ↔ (open_of term.now StatusType.Interim self.now.held ≡ None) }
    {
        self.open_number(*term, StatusType::Interim).is_none()
    }

    /// Whether a record was not handed out yet. It takes the same time however many are open.
    pub fn waits(&self) -> bool
        ensures { (result ≡ false) ↔ (self.now.waiting ≡ []) }
    {
        self.queue.waits()
    }

    /// Writes the record that was formed first of those not handed out yet, as an Accounting-Request of at most 1,024
    /// octets that is still to be numbered and signed, and hands it out. None exactly where there is none.
    pub fn next(&mut self, into: &mut Frame) -> Option<RecordNo>
        ensures some { IfSome result (λ n. HandsOver self.old self.new n.0 into.new) }
        ensures none { (result ≡ None) ↔ (self.old.waiting ≡ []) }
        ensures kept { IfNone result (self.new ≡ self.old) }
        ensures frame { IfNone result (into.new ≡ into.old) }
    {
        let number = self.queue.hand_out()?;
        match self.queue.get(number) {
            Some(sheet) => write(&self.rules, &sheet.record, into),
            None => unreachable!(),
        }
        Some(RecordNo(number))
    }

    /// Acknowledges a record: it is open no longer.
    pub fn acked(&mut self, n: RecordNo)
        ensures sets { Sets self.old.sheets self.new.sheets n.0 None }
        ensures waiting { self.new.waiting ≡ without n.0 self.old.waiting }
        ensures terms { ReleasesIfAny self.old.held self.new.held (sheet_at self.old.sheets n.0) }
        ensures agree { Agree self.new.sheets self.new.held }
        ensures rules { self.new.rules ≡ self.old.rules }
    {
        let Some(sheet) = self.queue.remove(n.0) else {
            return;
        };
        let status = sheet.record.status;
        release(&mut self.roster, sheet.record.facts.term, status);
        self.stops -= stops_in(status);
    }

    // Whether a number is that of an open Stop.
    fn is_stop(&self, number: u32) -> bool
        ensures { result ≡ is_stop_sheet (sheet_at self.now.sheets number) }
    {
        match self.queue.get(number) {
            Some(sheet) => stops_in(sheet.record.status) == 1,
            None => false,
        }
    }

    /// Forgets all Starts and Interims that are open. It goes through all records.
    pub fn stops_only(&mut self)
        ensures sheets { (n : ℕ) → sheet_at self.new.sheets n ≡ only_stop (sheet_at self.old.sheets n) }
        ensures waiting { self.new.waiting ≡ filter (λ n. is_stop_sheet (sheet_at self.old.sheets n)) self.old.waiting }
        ensures live { (t : TermId) → is_live (of_term t self.new.held) ≡ is_live (of_term t self.old.held) }
        ensures fewer { length self.new.held ≤ length self.old.held }
        ensures agree { Agree self.new.sheets self.new.held }
        ensures rules { self.new.rules ≡ self.old.rules }
    {
        for number in 0..self.queue.bound() {
            if !self.is_stop(number) {
                self.acked(RecordNo(number));
            }
        }
    }

    /// The facts of the Stop at this place, from 0, of those that are open, by session and term number. None exactly past
    /// the last.
    pub fn unacked(&self, at: u32) -> Option<&TermFacts>
        ensures { option_copied result ≡ slice_get (unacked_stops self.now) at }
    {
        match self.roster.stop_at(at) {
            Some(number) => facts_of(&self.queue, number),
            None => None,
        }
    }

    /// The Acct-Session-Id (RFC 2866 section 5.5) of a term's records.
    pub fn session_id(&self, term: TermId) -> [u8; 24]
        ensures { result ≡ session_id self.now.rules.wall term }
    {
        session_id(self.rules.wall, term)
    }

    /// Whether a record is neither acknowledged nor forgotten.
    pub fn knows(&self, n: RecordNo) -> bool
        ensures { IsTrue result ↔ IsSome (sheet_at self.now.sheets n.0) }
    {
        self.queue.get(n.0).is_some()
    }

    /// The number of terms for which there is room beside those that are live or have an open record.
    pub fn free(&self) -> u32
        ensures agree { Agree self.now.sheets self.now.held }
        ensures free { result + length self.now.held ≡ self.now.rules.terms }
    {
        self.roster.free() as u32
    }

    /// The number of Stops that are open.
    pub fn unacked_stops(&self) -> u32
        ensures { result ≡ length (unacked_stops self.now) }
    {
        self.stops
    }
}
