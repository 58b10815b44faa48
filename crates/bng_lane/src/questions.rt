ghost use Rattle.std.specs.Prelude.{◌≡◌, ◌≤◌, ◌<◌, ◌↔◌, ◌+◌, IsTrue, IfOk, IfSome, IfNone, OnSome, None, false, length};
ghost use Rattle.bng_rad_client.specs.declared.due.Sought.TheVariants.{Endless};
ghost use Rattle.bng_rad_client.specs.Table.{taken};
ghost use Rattle.bng_rad_client.specs.Due.{is_sought, OneBelow};
ghost use Rattle.bng_rad_client.specs.DueRequests.{IsDeadline};
ghost use Rattle.bng_lane.specs.Invariant.{question_of};
ghost use Rattle.bng_lane.specs.State.{IsNewLane, places_of, noted};
ghost use Rattle.bng_lane.specs.Replies.{Takes};
ghost use Rattle.bng_lane.specs.Due.{GivesUp, IsResentBy, NoneToResend, due_count};
ghost use Rattle.bng_lane.specs.Asking.{IsAskedBy};

use crate::rules::{LaneError, LaneRules};
use bng_access::{NasRules, write};
use bng_base::{Frame, NOBODY, Peer};
use bng_rad_client::{Asked, Client, DueRequest, Lane, Owner, RadiusRules, Replied};
use bng_verdict::{AuthAsk, QuestionNo};
use std::alloc::Global;
use std::marker::Model;

/// The questions that are out: the client of their requests, what the requests say of the gateway, and which of them were
/// sent.
#[derive(Drop)]
pub struct Questions {
    client: Client,
    nas: NasRules,
    sent: [bool; 256],
}

impl Model for Questions {
    ghost use Rattle.bng_lane.specs.State.{LaneState};

    ghost Value = { LaneState };

    ghost use Rattle.bng_lane.specs.Invariant.{IsLane};

    ghost view = { λ l. record { client = l.client; nas = l.nas; sent = l.sent } };

    ghost invariant = { λ l. IsLane l.client };
}

// The number of the question whose request this is.
fn question_of(owner: Owner) -> Option<QuestionNo>
    ensures { result ≡ question_of owner }
{
    match owner {
        Owner::Ask { session, ask } => Some(QuestionNo { session, ask }),
        Owner::Record(_) => None,
    }
}

impl Questions {
    /// A lane with no question. It takes all the memory that it needs.
    pub fn open(alloc: Global, rules: LaneRules) -> Result<Questions, LaneError>
        ensures { IfOk result (IsNewLane rules) }
    {
        let LaneRules {
            nas,
            server,
            secret,
            tries,
        } = rules;
        let rules = RadiusRules {
            auth: server,
            acct: NOBODY,
            secret,
            tries,
        };
        match Client::open(alloc, &rules) {
            Ok(client) => Ok(Questions {
                client,
                nas,
                sent: [false; 256],
            }),
            Err(_) => Err(LaneError::OutOfMemory),
        }
    }

    /// The server that the requests go to.
    pub fn server(&self) -> Peer
        ensures { result ≡ self.now.client.auth_server }
    {
        self.client.server(Lane::Auth)
    }

    /// Whether fewer than 256 requests are out.
    pub fn room(&self) -> bool
        ensures { IsTrue result ↔ (taken (places_of self.now) < 256) }
    {
        self.client.room(Lane::Auth)
    }

    /// The question that a datagram answers, whose request is out no longer from then on. None exactly where it answers
    /// none: it does not come from the server, is no packet of at most 64 attributes that answers an Access-Request, no
    /// request with its identifier is out or was sent, or a digest is wrong.
    pub fn take(&mut self, from: Peer, octets: &[u8]) -> Option<QuestionNo>
        ensures { Takes self.old from octets.now result self.new }
    {
        let [_, id, ..] = octets else {
            return None;
        };
        if !self.sent[usize::from(*id)] {
            return None;
        }
        match self.client.reply(Lane::Auth, from, octets) {
            Replied::Matched(owner) => question_of(owner),
            Replied::Ignored(_) => None,
        }
    }

    /// Whether the interval of a request has passed at this moment, in milliseconds. It takes the same time however many are
    /// out; where it is false, neither `give_up` nor `resend` has anything to answer.
    pub fn is_due(&self, now: u64) -> bool
        ensures again { result ≡ false → NoneToResend self.now now }
        ensures done { result ≡ false → due_count self.now now ≡ 0 }
        ensures given_up { result ≡ false → GivesUp self.now now None self.now }
        ensures due { IsTrue result → OneBelow (is_sought Endless now) (places_of self.now) 256 }
    {
        self.client.is_due(now)
    }

    /// Gives up a question at this moment, in milliseconds: of the requests that were sent as often as they are to be, and
    /// 3 s ago or longer, the one that was sent first is out no longer. None exactly where there is none.
    pub fn give_up(&mut self, now: u64) -> Option<QuestionNo>
        ensures { GivesUp self.old now result self.new }
    {
        match self.client.due(now, true) {
            Some(DueRequest::TimedOut(owner)) => question_of(owner),
            Some(DueRequest::Resend { .. }) => unreachable!(),
            None => None,
        }
    }

    /// The identifier and the octets of a request that is to be sent again at this moment, in milliseconds, which counts as
    /// sent now: of the requests that were not sent as often as they are to be, and 3 s ago or longer, the one that was sent
    /// first. None exactly where there is none.
    pub fn resend(&mut self, now: u64) -> Option<(u8, Frame)>
        ensures again { IfSome result (λ r. IsResentBy self.old now r.0 r.1.payload self.new) }
        ensures none { IfNone result (NoneToResend self.old now) }
        ensures kept { IfNone result (self.new ≡ self.old) }

        // So a caller that goes on until None ends.
        ensures fewer { OnSome result (due_count self.new now + 1 ≡ due_count self.old now) }
        ensures done { IfNone result (due_count self.old now ≡ 0) }
        ensures most { due_count self.old now ≤ 256 }
    {
        match self.client.due(now, false) {
            Some(DueRequest::Resend { id, frame, .. }) => Some((id, frame)),
            Some(DueRequest::TimedOut(_)) => unreachable!(),
            None => None,
        }
    }

    /// Asks a question at this moment, in milliseconds, under a Request Authenticator that was drawn for it: the identifier
    /// and the octets of its request, which is to be sent. Until `note` says that it was, no datagram is its reply.
    pub fn ask(&mut self, ask: &AuthAsk, authenticator: &[u8; 16], now: u64) -> (u8, Frame)
        requires { taken (places_of self.old) < 256 }
        ensures asked { IsAskedBy self.old now ask.now authenticator.now result.0 result.1.payload self.new }
        ensures size { length result.1.payload ≤ 4096 }
    {
        let mut request = Frame::new();
        write(
            &self.nas,
            self.client.secret(),
            ask,
            authenticator,
            &mut request,
        );
        let owner = Owner::Ask {
            session: ask.number.session,
            ask: ask.number.ask,
        };
        match self.client.ask(Lane::Auth, owner, &request, now) {
            Asked::Sent { id, frame } => {
                self.sent[usize::from(id)] = false;
                (id, frame)
            }
            Asked::Waiting => unreachable!(),
        }
    }

    /// Notes what the outside answered to a send of the request with this identifier: where it was sent, a datagram may be
    /// its reply from then on.
    pub fn note(&mut self, id: u8, sent: bool)
        ensures { self.new ≡ noted id sent self.old }
    {
        if sent {
            self.sent[usize::from(id)] = true;
        }
    }

    /// The first moment, in milliseconds, at which a request is due to be sent again or given up, if no other call comes
    /// before. None exactly where none is out.
    pub fn deadline(&self) -> Option<u64>
        ensures { IsDeadline (places_of self.now) result }
    {
        self.client.deadline(Lane::Auth)
    }
}
