ghost use Rattle.std.specs.Prelude.{◌≡◌, ◌≢◌, ◌≤◌, ◌<◌, ◌↔◌, ◌⊎◌, ◌+◌, ℕ, List, Option, Some, None, false, IsTrue, IfOk, IfNone, length, slice_set, replicate};
ghost use Rattle.std.specs.Option.{option_map};
ghost use Rattle.bng_radius_wire.specs.Grammar.{Packet, IsRadius, length_in};
ghost use Rattle.bng_radius_wire.specs.Digests.{CanBeSigned};
ghost use Rattle.bng_rad_client.specs.Table.{request_of, taken};
ghost use Rattle.bng_rad_client.specs.Asking.{IsAsked, WhenSent, WhenWaiting};
ghost use Rattle.bng_rad_client.specs.Replies.{Answers, WhenIgnored, WhenMatched, IsReplyOf};
ghost use Rattle.bng_rad_client.specs.declared.due.Sought.TheVariants.{Endless};
ghost use Rattle.bng_rad_client.specs.Due.{is_sought, NoneBelow, OneBelow};
ghost use Rattle.bng_rad_client.specs.DueRequests.{IsDue, IsDeadline};
ghost use Rattle.bng_rad_client.specs.State.{table_of, server_of, ChangesTable, IsOpened};

use crate::asking::ask;
use crate::due::{DueRequest, INTERVAL, Longest, Sought, longest_of};
use crate::replies::{Replied, reply};
use crate::requests::Requests;
use crate::rules::{Asked, ClientError, Lane, Owner, RadiusRules};
use crate::sends::{give_up, send_again};
use arrayvec::ArrayVec;
use bng_base::{Frame, Peer};
use std::alloc::Global;
use std::marker::Model;

/// The requests of both lanes that are out.
#[derive(Drop)]
pub struct Client {
    auth: Requests,
    acct: Requests,
    auth_server: Peer,
    acct_server: Peer,
    secret: ArrayVec<u8, 64>,
    tries: u8,
}

impl Model for Client {
    ghost use Rattle.bng_rad_client.specs.DueRequests.{IsDue, IsDeadline};
    ghost use Rattle.bng_rad_client.specs.State.{State};

    ghost Value = { State };

    ghost view = { λ c. record { auth = c.auth; acct = c.acct; auth_server = c.auth_server; acct_server = c.acct_server; secret = c.secret.items; tries = c.tries } };
}

// A list of the same octets.
fn copied(octets: &[u8]) -> ArrayVec<u8, 64>
    requires { length octets.now ≤ 64 }
    ensures { result.items ≡ octets.now }
{
    let mut list = ArrayVec::new();
    for octet in octets {
        list.push(*octet);
    }
    list
}

impl Client {
    /// A client with no request. It takes all the memory that it needs.
    pub fn open(alloc: Global, rules: &RadiusRules) -> Result<Client, ClientError>
        ensures { IfOk result (λ c. IsOpened c rules.now.auth rules.now.acct rules.now.secret.items rules.now.tries) }
    {
        let Ok(auth) = Requests::open(alloc) else {
            return Err(ClientError::OutOfMemory);
        };
        let Ok(acct) = Requests::open(alloc) else {
            return Err(ClientError::OutOfMemory);
        };
        Ok(Client {
            auth,
            acct,
            auth_server: rules.auth,
            acct_server: rules.acct,
            secret: copied(rules.secret.as_slice()),
            tries: rules.tries,
        })
    }

    /// The server that the requests of the lane go to.
    pub fn server(&self, lane: Lane) -> Peer
        ensures { result ≡ server_of self.now lane }
    {
        match lane {
            Lane::Auth => self.auth_server,
            Lane::Acct => self.acct_server,
        }
    }

    /// The secret that is shared with the servers, 64 octets at most.
    pub fn secret(&self) -> &[u8]
        ensures octets { result.now ≡ self.now.secret }
        ensures size { length result.now ≤ 64 }
    {
        self.secret.as_slice()
    }

    /// Whether fewer than 256 requests of the lane are out.
    pub fn room(&self, lane: Lane) -> bool
        ensures { IsTrue result ↔ (taken (table_of self.now lane).places < 256) }
    {
        match lane {
            Lane::Auth => self.auth.room(),
            Lane::Acct => self.acct.room(),
        }
    }

    /// Gives a request the first free identifier of the lane after the one that was given last, modulo 256, from 0 on. The
    /// frame is to be sent: the packet of the request with that identifier, signed, without what pads it. Waiting comes
    /// exactly where 256 requests of the lane are out.
    pub fn ask(&mut self, lane: Lane, owner: Owner, request: &Frame, now: u64) -> Asked
        requires { (p : Packet) × IsRadius p request.now.payload × CanBeSigned p }
        ensures sent { (p : Packet) → IsRadius p request.now.payload → WhenSent result (IsAsked (table_of self.old lane) (table_of self.new lane) owner p self.old.secret now) }
        ensures size { WhenSent result (λ id frame. length frame.payload ≡ length_in request.now.payload) }
        ensures waiting { (result ≡ Asked.Waiting) ↔ (taken (table_of self.old lane).places ≡ 256) }
        ensures kept { WhenWaiting result (self.new ≡ self.old) }
        ensures others { ChangesTable self.old self.new lane }
    {
        match lane {
            Lane::Auth => ask(&mut self.auth, self.secret.as_slice(), owner, request, now),
            Lane::Acct => ask(&mut self.acct, self.secret.as_slice(), owner, request, now),
        }
    }

    /// What a datagram is to the lane's requests. Where it is the reply to one, that request is out no longer.
    pub fn reply(&mut self, lane: Lane, from: Peer, bytes: &[u8]) -> Replied
        ensures answer { Answers (server_of self.old lane) from lane (table_of self.old lane).places self.old.secret bytes.now result }
        ensures ignored { WhenIgnored result (self.new ≡ self.old) }
        ensures matched { WhenMatched result ((p : Packet) × IsReplyOf lane p bytes.now × ((table_of self.new lane).places ≡ slice_set (table_of self.old lane).places p.id None)) }
        ensures last { (table_of self.new lane).last ≡ (table_of self.old lane).last }
        ensures others { ChangesTable self.old self.new lane }
    {
        match lane {
            Lane::Auth => reply(
                &mut self.auth,
                lane,
                self.auth_server,
                self.secret.as_slice(),
                from,
                bytes,
            ),
            Lane::Acct => reply(
                &mut self.acct,
                lane,
                self.acct_server,
                self.secret.as_slice(),
                from,
                bytes,
            ),
        }
    }

    /// Whose request has this identifier. None exactly where none is out.
    pub fn owner(&self, lane: Lane, id: u8) -> Option<Owner>
        ensures { result ≡ option_map (λ r. r.owner) (request_of (table_of self.now lane).places id) }
    {
        let place = match lane {
            Lane::Auth => self.auth.get(id),
            Lane::Acct => self.acct.get(id),
        };
        place.map(|request| request.owner)
    }

    /// Frees an identifier, and answers whose request had it. None exactly where none was out.
    pub fn withdraw(&mut self, lane: Lane, id: u8) -> Option<Owner>
        ensures owner { result ≡ option_map (λ r. r.owner) (request_of (table_of self.old lane).places id) }
        ensures places { (table_of self.new lane).places ≡ slice_set (table_of self.old lane).places id None }
        ensures last { (table_of self.new lane).last ≡ (table_of self.old lane).last }
        ensures others { ChangesTable self.old self.new lane }
    {
        let place = match lane {
            Lane::Auth => self.auth.take(id),
            Lane::Acct => self.acct.take(id),
        };
        place.map(|request| request.owner)
    }

    /// What is due at this moment, the longest first: where `timeouts` is true the owner of an Access-Request that was sent
    /// as often as it is to be, which is out no longer; else the frame of a request that is sent again, which counts as
    /// sent now. Of two that are due as long the one of the lane Auth comes first, and then the lower identifier. None
    /// exactly where nothing of that kind is due.
    pub fn due(&mut self, now: u64, timeouts: bool) -> Option<DueRequest>
        ensures due { IsDue self.old self.new now timeouts result }
        ensures kept { IfNone result (self.new ≡ self.old) }
        ensures auth_server { self.new.auth_server ≡ self.old.auth_server }
        ensures acct_server { self.new.acct_server ≡ self.old.acct_server }
        ensures secret { self.new.secret ≡ self.old.secret }
        ensures tries { self.new.tries ≡ self.old.tries }
    {
        if timeouts {
            return give_up(&mut self.auth, now, self.tries).map(|owner| DueRequest::TimedOut(
                owner,
            ));
        }
        let auth = self.auth.oldest(now, Sought::Resend(self.tries));
        let acct = self.acct.oldest(now, Sought::Endless);
        match longest_of(auth, acct) {
            Longest::Auth(id) => Some(DueRequest::Resend {
                lane: Lane::Auth,
                id,
                frame: send_again(&mut self.auth, id, now),
            }),
            Longest::Acct(id) => Some(DueRequest::Resend {
                lane: Lane::Acct,
                id,
                frame: send_again(&mut self.acct, id, now),
            }),
            Longest::Neither => None,
        }
    }

    /// Whether the interval of a request of either lane has passed. It takes the same time however many are out; where it is
    /// false, `due` has nothing to answer.
    pub fn is_due(&self, now: u64) -> bool
        ensures no { result ≡ false → NoneBelow (is_sought Endless now) self.now.auth.places 256 × NoneBelow (is_sought Endless now) self.now.acct.places 256 }
        ensures yes { IsTrue result → OneBelow (is_sought Endless now) self.now.auth.places 256 ⊎ OneBelow (is_sought Endless now) self.now.acct.places 256 }
    {
        self.auth.is_due(now) || self.acct.is_due(now)
    }

    /// The first moment at which a request of the lane is due, if no other call comes before. None exactly where none is
    /// out.
    pub fn deadline(&self, lane: Lane) -> Option<u64>
        ensures { IsDeadline (table_of self.now lane).places result }
    {
        let first = match lane {
            Lane::Auth => self.auth.oldest(0, Sought::Any),
            Lane::Acct => self.acct.oldest(0, Sought::Any),
        };
        match first {
            Some(due) => Some(due.sent_at.saturating_add(INTERVAL)),
            None => None,
        }
    }
}
