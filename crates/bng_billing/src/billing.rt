ghost use Rattle.std.specs.Prelude.{◌≡◌, ◌≤◌, ◌↔◌, ◌+◌, IsTrue, IfOk, IfSome, IfNone, OnSome, None, false, List, length, slice_get};
ghost use Rattle.std.specs.Option.{option_copied};
ghost use Rattle.bng_radius_wire.specs.Attributes.{Field};
ghost use Rattle.bng_rad_client.specs.declared.due.Sought.TheVariants.{Endless};
ghost use Rattle.bng_rad_client.specs.Due.{is_sought, OneBelow};
ghost use Rattle.bng_rad_client.specs.DueRequests.{IsDeadline};
ghost use Rattle.bng_acct.specs.Request.{AreClasses};
ghost use Rattle.bng_acct.specs.Spool.{open_of, IsAdmitted, Agree, unacked_stops};
ghost use Rattle.bng_acct.specs.Texts.{session_id};
ghost use Rattle.bng_billing.specs.State.{IsNewBilling, places_of, noted};
ghost use Rattle.bng_billing.specs.Records.{IsFormedBy};
ghost use Rattle.bng_billing.specs.Replies.{Takes};
ghost use Rattle.bng_billing.specs.Due.{IsResentBy, NoneToResend, due_count};
ghost use Rattle.bng_billing.specs.Sending.{IsSentBy, NoneToSend};
ghost use Rattle.bng_billing.specs.Stopping.{StopsOnly};

use crate::rules::{BillingError, BillingRules};
use crate::withdrawing::withdraw_lost;
use bng_acct::{Moment, RecordNo, Spool, StatusType, TermFacts};
use bng_base::{Frame, NOBODY, Peer, TermId};
use bng_rad_client::{
    Asked, Client, DueRequest, Lane as Kind, Owner, RadiusRules, RecordNo as Number, Replied,
};
use std::alloc::Global;
use std::marker::Model;

/// The records that are open and the requests that are out: the client of the requests, the spool of the records, and which
/// requests were sent. A record is written into `request`.
#[derive(Drop)]
pub struct Billing {
    client: Client,
    spool: Spool,
    sent: [bool; 256],
    request: Frame,
}

impl Model for Billing {
    ghost use Rattle.bng_billing.specs.State.{BillingState};

    ghost Value = { BillingState };

    ghost use Rattle.bng_billing.specs.Invariant.{IsBilling};

    ghost view = { λ b. record { client = b.client; spool = b.spool; sent = b.sent } };

    ghost invariant = { λ b. IsBilling b.client b.spool };
}

impl Billing {
    /// Accounting with no record. It takes all the memory that it needs: for three records of each of the terms, which are
    /// 262,144 at most, and for 256 requests.
    pub fn open(alloc: Global, rules: BillingRules) -> Result<Billing, BillingError>
        requires { rules.acct.terms ≤ 262144 }
        ensures { IfOk result (IsNewBilling rules) }
    {
        let BillingRules {
            acct,
            server,
            secret,
        } = rules;
        let Ok(spool) = Spool::open(alloc, &acct) else {
            return Err(BillingError::OutOfMemory);
        };
        let rules = RadiusRules {
            auth: NOBODY,
            acct: server,
            secret,
            tries: 0,
        };
        match Client::open(alloc, &rules) {
            Ok(client) => Ok(Billing {
                client,
                spool,
                sent: [false; 256],
                request: Frame::new(),
            }),
            Err(_) => Err(BillingError::OutOfMemory),
        }
    }

    /// The server that the requests go to.
    pub fn server(&self) -> Peer
        ensures { result ≡ self.now.client.acct_server }
    {
        self.client.server(Kind::Acct)
    }

    /// Forms the Start of a term (RFC 2866 section 5.1). The facts' Classes are a list of at most 32 whole attributes of
    /// type 25, the term began no later than now, and it is admitted: it is live or a record of it is open, or `free` is 1
    /// at least. No Start of it is open.
    pub fn start(&mut self, term: &TermFacts, moment: Moment) -> RecordNo
        requires classes { (classes : List Field) × AreClasses classes term.now.class.items }
        requires began { term.now.began ≤ moment.now }
        requires admitted { IsAdmitted self.old.spool term.now.term }
        requires once { open_of term.now.term StatusType.Start self.old.spool.held ≡ None }
        ensures { IsFormedBy self.old StatusType.Start term.now moment result.0 self.new }
    {
        self.spool.start(term, moment)
    }

    /// Forms an Interim of a term, under the conditions of `start`: no Interim of it is open.
    pub fn interim(&mut self, term: &TermFacts, moment: Moment) -> RecordNo
        requires classes { (classes : List Field) × AreClasses classes term.now.class.items }
        requires began { term.now.began ≤ moment.now }
        requires admitted { IsAdmitted self.old.spool term.now.term }
        requires once { open_of term.now.term StatusType.Interim self.old.spool.held ≡ None }
        ensures { IsFormedBy self.old StatusType.Interim term.now moment result.0 self.new }
    {
        self.spool.interim(term, moment)
    }

    /// Forms the Stop of a term, which is live no longer, under the conditions of `start`: no Stop of it is open. It may
    /// come before the Start.
    pub fn stop(&mut self, term: &TermFacts, moment: Moment) -> RecordNo
        requires classes { (classes : List Field) × AreClasses classes term.now.class.items }
        requires began { term.now.began ≤ moment.now }
        requires admitted { IsAdmitted self.old.spool term.now.term }
        requires once { open_of term.now.term StatusType.Stop self.old.spool.held ≡ None }
        ensures { IsFormedBy self.old StatusType.Stop term.now moment result.0 self.new }
    {
        self.spool.stop(term, moment)
    }

    /// Whether no Interim of a term is open.
    pub fn interim_free(&self, term: &TermId) -> bool
        ensures { IsTrue result ↔ (open_of term.now StatusType.Interim self.now.spool.held ≡ None) }
    {
        self.spool.interim_free(term)
    }

    /// The number of terms for which there is room beside those that are live or have an open record.
    pub fn free(&self) -> u32
        ensures agree { Agree self.now.spool.sheets self.now.spool.held }
        ensures free { result + length self.now.spool.held ≡ self.now.spool.rules.terms }
    {
        self.spool.free()
    }

    /// The number of Stops that are open.
    pub fn unacked_stops(&self) -> u32
        ensures { result ≡ length (unacked_stops self.now.spool) }
    {
        self.spool.unacked_stops()
    }

    /// The facts of the Stop at this place, from 0, of those that are open, by session and term number. None exactly past
    /// the last.
    pub fn unacked(&self, at: u32) -> Option<&TermFacts>
        ensures { option_copied result ≡ slice_get (unacked_stops self.now.spool) at }
    {
        self.spool.unacked(at)
    }

    /// The Acct-Session-Id (RFC 2866 section 5.5) of a term's records.
    pub fn session_id(&self, term: TermId) -> [u8; 24]
        ensures { result ≡ session_id self.now.spool.rules.wall term }
    {
        self.spool.session_id(term)
    }

    /// Whether a record waits and fewer than 256 requests are out: where it is false, `send` has nothing to answer. It takes
    /// the same time however many are open or out.
    pub fn waits(&self) -> bool
        ensures { (result ≡ false) ↔ NoneToSend self.now }
    {
        self.client.room(Kind::Acct) && self.spool.waits()
    }

    /// Hands out, at this moment in milliseconds, the record that was formed first of those that wait: its number, and the
    /// identifier and the octets of its request, which is to be sent. Until `note` says that it was, no datagram is its
    /// reply. None exactly where no record waits or 256 requests are out.
    pub fn send(&mut self, now: u64) -> Option<(RecordNo, u8, Frame)>
        ensures sent { IfSome result (λ r. IsSentBy self.old now r.0.0 r.1 r.2.payload self.new) }
        ensures size { IfSome result (λ r. length r.2.payload ≤ 1024) }
        ensures none { (result ≡ None) ↔ NoneToSend self.old }
        ensures kept { IfNone result (self.new ≡ self.old) }
    {
        if !self.client.room(Kind::Acct) {
            return None;
        }
        let number = self.spool.next(&mut self.request)?;
        let owner = Owner::Record(Number(number.0));
        match self.client.ask(Kind::Acct, owner, &self.request, now) {
            Asked::Sent { id, frame } => {
                self.sent[usize::from(id)] = false;
                Some((number, id, frame))
            }
            Asked::Waiting => unreachable!(),
        }
    }

    /// Notes what the outside answered to a send of the request with this identifier: where it was sent, a datagram may be
    /// its reply from then on.
    pub fn note(&mut self, id: u8, sent: bool)
        ensures { self.new ≡ noted id sent self.old }
    {
        if sent {
            self.sent[usize::from(id)] = true;
        }
    }

    /// The record that a datagram acknowledges, which is open no longer, and its request is out no longer. None exactly
    /// where it acknowledges none: it does not come from the server, is no packet of at most 64 attributes with the code of
    /// an Accounting-Response, no request with its identifier is out or was sent, or a digest is wrong.
    pub fn take(&mut self, from: Peer, octets: &[u8]) -> Option<RecordNo>
        ensures { Takes self.old from octets.now result self.new }
    {
        let [_, id, ..] = octets else {
            return None;
        };
        if !self.sent[usize::from(*id)] {
            return None;
        }
        match self.client.reply(Kind::Acct, from, octets) {
            Replied::Matched(Owner::Record(number)) => {
                self.sent[usize::from(*id)] = false;
                self.spool.acked(RecordNo(number.0));
                Some(RecordNo(number.0))
            }
            Replied::Matched(Owner::Ask { .. }) => unreachable!(),
            Replied::Ignored(_) => None,
        }
    }

    /// Whether the interval of a request has passed at this moment, in milliseconds. It takes the same time however many are
    /// out; where it is false, `resend` has nothing to answer.
    pub fn is_due(&self, now: u64) -> bool
        ensures again { result ≡ false → NoneToResend self.now now }
        ensures done { result ≡ false → due_count self.now now ≡ 0 }
        ensures due { IsTrue result → OneBelow (is_sought Endless now) (places_of self.now) 256 }
    {
        self.client.is_due(now)
    }

    /// The identifier and the octets of a request that is to be sent again at this moment, in milliseconds, which counts as
    /// sent now: of the requests that were sent 3 s ago or longer, the one that was sent first. None exactly where there is
    /// none.
    pub fn resend(&mut self, now: u64) -> Option<(u8, Frame)>
        ensures again { IfSome result (λ r. IsResentBy self.old now r.0 r.1.payload self.new) }
        ensures none { IfNone result (NoneToResend self.old now) }
        ensures kept { IfNone result (self.new ≡ self.old) }

        // So a caller that goes on until None ends.
        ensures fewer { OnSome result (due_count self.new now + 1 ≡ due_count self.old now) }
        ensures done { IfNone result (due_count self.old now ≡ 0) }
        ensures most { due_count self.old now ≤ 256 }
    {
        match self.client.due(now, false) {
            Some(DueRequest::Resend { id, frame, .. }) => Some((id, frame)),
            Some(DueRequest::TimedOut(_)) => unreachable!(),
            None => None,
        }
    }

    /// The first moment, in milliseconds, at which a request is due to be sent again, if no other call comes before. None
    /// exactly where none is out.
    pub fn deadline(&self) -> Option<u64>
        ensures { IsDeadline (places_of self.now) result }
    {
        self.client.deadline(Kind::Acct)
    }

    /// Forgets all Starts and Interims that are open; the identifiers of their requests are free. It goes through all
    /// records.
    pub fn stops_only(&mut self)
        ensures { StopsOnly self.old self.new }
    {
        self.spool.stops_only();
        withdraw_lost(&self.spool, &mut self.client, &mut self.sent);
    }
}
