//! What a settlement writes to beside the shards: the lines of the circuits, what all Stops say and how many they are, and the records of
//! terms.
ghost use Rattle.std.specs.Prelude.{◌≡◌, ◌⊎◌, ◌+◌, ◌≤◌, ◌<◌, ◌^◌, List, true, false, None, [], ◌∷◌, IfOk, length, map};
ghost use Rattle.std.specs.List.{All, AllPairs};
ghost use Rattle.bng_acct.specs.Roster.{of_term, same};
ghost use Rattle.bng_acct.specs.Spool.{is_live, open_of, unacked_stops, Agree, IsAdmitted};
ghost use Rattle.bng_acct.specs.Request.{AreClasses};
ghost use Rattle.bng_acct.specs.declared.facts.StatusType.TheVariants as status;
ghost use Rattle.bng_billing.specs.State.{places_of};
ghost use Rattle.bng_engine.specs.Lists.{AnyOf};
ghost use Rattle.bng_engine.specs.Quantities.{empty_book};
ghost use Rattle.bng_rad_client.specs.DueRequests.{IsDeadline};
ghost use Rattle.bng_radius_wire.specs.Attributes.{Field};
ghost use Rattle.bng_steps.specs.Lasting.{AreTenures};
ghost use Rattle.bng_steps.specs.Protocol.{key_of, stop_of, SaysOf};
ghost use Rattle.bng_steps.specs.Tenures.{Tenure};
ghost use Rattle.bng_desk.specs.Accounting.{AreBilled, IsStartOf, IsStopOf};
ghost use Rattle.bng_desk.specs.Intake.{SendsRecords, TakesAcknowledgements};
ghost use Rattle.bng_desk.specs.Interims.{AreAwaited, AreWaiting};
ghost use Rattle.bng_desk.specs.Model.{keys_in, line_after};
ghost use Rattle.bng_desk.specs.Reading.{is_empty};
ghost use Rattle.bng_desk.specs.Report.{stop_lines};
ghost use Rattle.bng_desk.specs.Taking.{BooksStarts, BooksStops, HasRoomFor, KeepsHeld, ReportsAll, TakesIn, plus_stops};
ghost use Rattle.bng_desk.specs.Turn.{Closes};

use crate::acknowledgements::take_acknowledgements;
use crate::interims::report_each;
use crate::line::CircuitLine;
use crate::records::send_records;
use crate::sums::plus_book;
use crate::unanswered::unanswered;
use bng_acct::{Moment, TermFacts};
use bng_base::{Book, Frame};
use bng_billing::Billing;
use bng_plant::Plant;
use bng_shard::Shard;
use bng_steps::{EndedTerm, LiveTerm, Reports};
use std::alloc::{AllocError, Global};
use std::marker::Model;

/// What the Stops of all terms say that were formed so far, in octets and in packets, and how many they are.
#[derive(Clone, Copy)]
pub(crate) struct Stopped {
    pub(crate) carried: Book,
    pub(crate) stops: u64,
}

/// No Stop was formed yet.
pub(crate) const NO_STOPS: Stopped = Stopped {
    carried: Book {
        input: 0,
        output: 0,
        input_packets: 0,
        output_packets: 0,
    },
    stops: 0,
};

/// The lines of the circuits, what the Stops of all terms say that were formed so far, the records of terms, and of each shard which
/// Interims were taken.
pub(crate) struct Accounts {
    pub(crate) lines: Vec<CircuitLine>,
    pub(crate) stopped: Stopped,
    pub(crate) billing: Billing,
    pub(crate) reports: Vec<Reports>,
}

impl Drop for Accounts {
    fn drop(self) {
        let Accounts {
            lines: _,
            stopped: _,
            billing: _,
            reports: _,
        } = self;
    }
}

impl Model for Accounts {
    ghost use Rattle.bng_desk.specs.Taking.{Accounts as Seen};

    ghost Value = { Seen };

    ghost view = { λ a. record { lines = a.lines.items; stopped = a.stopped; billing = a.billing; reports = a.reports.items } };
}

// Adds what a term that ended carried to a line, if it had the line's address.
fn add_to(line: &mut CircuitLine, ended: &EndedTerm)
    requires { TakesIn (stop_of ended.now ∷ []) line.old }
    ensures { line.new ≡ line_after (stop_of ended.now ∷ []) line.old }
{
    if line.address.0 == ended.address.0 {
        line.stopped.input += ended.carried.input;
        line.stopped.output += ended.carried.output;
    }
}

// Adds what a term that ended carried to the line with its address.
fn add_carried(lines: &mut Vec<CircuitLine>, ended: &EndedTerm)
    requires { All (TakesIn (stop_of ended.now ∷ [])) lines.old.items }
    ensures { lines.new.items ≡ map (line_after (stop_of ended.now ∷ [])) lines.old.items }
{
    for line in lines.iter_mut() {
        add_to(line, ended);
    }
}

// One Stop more, that of a term that ended.
fn with_stop(stopped: Stopped, ended: &EndedTerm) -> Stopped
    requires { HasRoomFor (stop_of ended.now ∷ []) stopped }
    ensures { result ≡ plus_stops stopped (stop_of ended.now ∷ []) }
{
    Stopped {
        carried: plus_book(stopped.carried, ended.carried),
        stops: stopped.stops + 1,
    }
}

impl Accounts {
    /// Forms the Start of a term that began, at this moment and this second on the wall. Its Classes are whole, it began no later than now,
    /// no Start of it is open, and there is room for it. It is one of these terms.
    pub(crate) fn start(&mut self, term: LiveTerm, moment: u64, wall: u64)
        requires classes { (classes : List Field) × AreClasses classes term.class.items }
        requires began { term.began ≤ moment }
        requires admitted { IsAdmitted self.old.billing.spool term.term }
        requires once { open_of term.term status.Start self.old.billing.spool.held ≡ None }
        ensures { (terms : List Tenure) → AnyOf (SaysOf term.user.items term.class.items term.began (key_of term)) terms → BooksStarts terms moment wall (key_of term ∷ []) self.old self.new }
    {
        let facts = TermFacts {
            term: term.term,
            circuit: term.circuit,
            address: term.address,
            user: term.user,
            class: term.class,
            began: term.began,
            carried: Book::empty(),
        };
        let at = Moment {
            now: moment,
            wall,
            cause: 0,
        };
        let _number = self.billing.start(&facts, at);
    }

    /// Forms the Stop of a term that ended, at this moment and this second on the wall, and adds what it carried to the line with its
    /// address and to what all Stops say, among which it counts. Its Classes are whole, it began no later than now, no Stop of it is open,
    /// and there is room for it. It is one of these terms.
    pub(crate) fn stop(&mut self, ended: EndedTerm, moment: u64, wall: u64)
        requires classes { (classes : List Field) × AreClasses classes ended.class.items }
        requires began { ended.began ≤ moment }
        requires admitted { IsAdmitted self.old.billing.spool ended.term }
        requires once { open_of ended.term status.Stop self.old.billing.spool.held ≡ None }
        requires room { All (TakesIn (stop_of ended ∷ [])) self.old.lines }
        requires room_in_all { HasRoomFor (stop_of ended ∷ []) self.old.stopped }
        ensures { (terms : List Tenure) → AnyOf (SaysOf ended.user.items ended.class.items ended.began (stop_of ended).key) terms → BooksStops terms moment wall (stop_of ended ∷ []) self.old self.new }
    {
        add_carried(&mut self.lines, &ended);
        self.stopped = with_stop(self.stopped, &ended);
        let at = Moment {
            now: moment,
            wall,
            cause: ended.cause,
        };
        let facts = TermFacts {
            term: ended.term,
            circuit: ended.circuit,
            address: ended.address,
            user: ended.user,
            class: ended.class,
            began: ended.began,
            carried: ended.carried,
        };
        let _number = self.billing.stop(&facts, at);
    }

    /// Takes the Interims of live terms that are due at this moment, in milliseconds, of the shards in their order, and forms a record of
    /// each whose last one is not open, at this second on the wall. It is called once the Stops and the Starts of a round were formed.
    pub(crate) fn report_all(&mut self, shards: &[Shard], moment: u64, wall: u64)
        requires moment { moment < 2 ^ 60 }
        requires terms { All (λ v. AreTenures moment v.state.slots) shards.now }
        requires billed { AreBilled (keys_in shards.now) self.old.billing }
        requires awaited { AreAwaited moment shards.now self.old.reports }
        ensures reports { ReportsAll moment wall shards.now self.old self.new }
        ensures billed { AreBilled (keys_in shards.now) self.new.billing }
        ensures held { KeepsHeld self.old.billing self.new.billing }
        ensures awaited { AreWaiting moment shards.now self.new.reports }
    {
        let reports = self.reports.as_mut_slice();
        report_each(shards, reports, &mut self.billing, moment, wall);
    }

    /// For how many terms there is room beside those that are live or have an open record. What it knows of terms agrees with the records
    /// that are open.
    pub(crate) fn free(&self) -> u32
        ensures agree { Agree self.now.billing.spool.sheets self.now.billing.spool.held }
        ensures free { result + length self.now.billing.spool.held ≡ self.now.billing.spool.rules.terms }
    {
        self.billing.free()
    }

    /// Takes what came from the server of accounting, and says whether nothing was taken.
    pub(crate) fn hear<P: Plant>(&mut self, plant: &mut P, frame: &mut Frame) -> bool
        ensures takes { TakesAcknowledgements (P.told plant.old) (P.told plant.new) self.old.billing self.new.billing result }
        ensures others { self.new ≡ record self.old { billing = self.new.billing } }
    {
        take_acknowledgements(plant, frame, &mut self.billing)
    }

    /// Sends the requests of accounting that are due again at this moment in milliseconds, and then the records that wait.
    pub(crate) fn send<P: Plant>(&mut self, plant: &mut P, now: u64)
        ensures sends { SendsRecords now (P.told plant.old) (P.told plant.new) self.old.billing self.new.billing }
        ensures others { self.new ≡ record self.old { billing = self.new.billing } }
    {
        send_records(plant, &mut self.billing, now);
    }

    /// The first moment, in milliseconds, at which a request of accounting is due to be sent again.
    pub(crate) fn deadline(&self) -> Option<u64>
        ensures { IsDeadline (places_of self.now.billing) result }
    {
        self.billing.deadline()
    }

    /// Forgets all Starts and Interims, if no session is left.
    pub(crate) fn close(&mut self, ended: bool)
        ensures closes { Closes ended self.old.billing self.new.billing }
        ensures others { self.new ≡ record self.old { billing = self.new.billing } }
    {
        if ended {
            self.billing.stops_only();
        }
    }

    /// Whether each Stop was acknowledged.
    pub(crate) fn is_acknowledged(&self) -> bool
        ensures { result ≡ is_empty (unacked_stops self.now.billing.spool) }
    {
        self.billing.unacked_stops() == 0
    }

    /// The number of Stops that are not acknowledged.
    pub(crate) fn unacked_stops(&self) -> u32
        ensures { result ≡ length (unacked_stops self.now.billing.spool) }
    {
        self.billing.unacked_stops()
    }

    /// A line for each Stop that is not acknowledged, by session and term number.
    pub(crate) fn unanswered(&self, alloc: Global) -> Result<Vec<u8>, AllocError>
        ensures { IfOk result (λ text. text.items ≡ stop_lines self.now.billing.spool.rules.wall (unacked_stops self.now.billing.spool)) }
    {
        unanswered(alloc, &self.billing)
    }

    /// What the Stops of all terms say that were formed so far, and how many they are.
    pub(crate) fn stopped(&self) -> Stopped
        ensures { result ≡ self.now.stopped }
    {
        self.stopped
    }

    /// The provisioned circuits.
    pub(crate) fn lines(&self) -> &[CircuitLine]
        ensures { result.now ≡ self.now.lines }
    {
        self.lines.as_slice()
    }
}
