ghost use Rattle.std.specs.Prelude.{◌≡◌, ◌≤◌, ◌<◌, ◌↔◌, IsTrue, true, IfOk, IfSome, IfNone, length};
ghost use Rattle.std.specs.Option.{option_map};
ghost use Rattle.bng_radius_wire.specs.Grammar.{Packet, IsRadius};
ghost use Rattle.bng_radius_wire.specs.Digests.{CanBeSigned};
ghost use Rattle.bng_failover.specs.Servers.{request_at, in_hand, Gains, Keeps, Leaves};
ghost use Rattle.bng_failover.specs.Asking.{IsAskedAt, WhenSend, WhenWaiting};
ghost use Rattle.bng_failover.specs.Replies.{Hears, answered};
ghost use Rattle.bng_failover.specs.Due.{IsDeadline};
ghost use Rattle.bng_failover.specs.State.{servers_of, ChangesLane, NoneTwice, IsOpened, IsDue, timed_out};
ghost use Rattle.bng_failover.specs.Withdrawing.{Withdraws};

use crate::rules::{DueSend, FailAsked, FailoverRules};
use crate::servers::Servers;
use arrayvec::ArrayVec;
use bng_base::{Frame, Peer};
use bng_rad_client::{ClientError, Lane, Owner, Replied};
use std::alloc::Global;
use std::marker::Model;

/// The requests of both lanes that are in hand.
#[derive(Drop)]
pub struct Failover {
    auth: Servers,
    acct: Servers,
    secret: ArrayVec<u8, 64>,
    tries: u8,
}

impl Model for Failover {
    ghost use Rattle.bng_failover.specs.State.{State};

    ghost Value = { State };

    ghost view = { λ f. record { auth = f.auth; acct = f.acct; secret = f.secret.items; tries = f.tries } };
}

// A list of the same octets.
fn copied(octets: &[u8]) -> ArrayVec<u8, 64>
    requires { length octets.now ≤ 64 }
    ensures { result.items ≡ octets.now }
{
    let mut list = ArrayVec::new();
    for octet in octets {
        list.push(*octet);
    }
    list
}

impl Failover {
    /// No request in hand. It takes all the memory that it needs: at each server for 256 requests. Each lane has at least one
    /// server, and none twice; a request is sent at least once.
    pub fn open(alloc: Global, rules: &FailoverRules) -> Result<Failover, ClientError>
        requires auth { 0 < length rules.now.auth }
        requires acct { 0 < length rules.now.acct }
        requires auth_once { NoneTwice rules.now.auth }
        requires acct_once { NoneTwice rules.now.acct }
        requires tries { 0 < rules.now.tries }
        ensures { IfOk result (IsOpened rules.now) }
    {
        let Ok(auth) = Servers::open(alloc, rules.auth.as_slice()) else {
            return Err(ClientError::OutOfMemory);
        };
        let Ok(acct) = Servers::open(alloc, rules.acct.as_slice()) else {
            return Err(ClientError::OutOfMemory);
        };
        Ok(Failover {
            auth,
            acct,
            secret: copied(rules.secret.as_slice()),
            tries: rules.tries,
        })
    }

    /// Whether fewer than 256 requests of the lane are in hand.
    pub fn room(&self, lane: Lane) -> bool
        ensures { IsTrue result ↔ (in_hand (servers_of self.now lane) < 256) }
    {
        match lane {
            Lane::Auth => self.auth.room(),
            Lane::Acct => self.acct.room(),
        }
    }

    /// Asks the first server of the lane: the request has the first free identifier of that server after the one that was given
    /// last, modulo 256, from 0 on. `into` is to be sent to it: the packet of the request with that identifier, signed, without
    /// what pads it. Waiting comes exactly where 256 requests of the lane are in hand.
    pub fn ask(
        &mut self,
        lane: Lane,
        owner: Owner,
        request: &Frame,
        now: u64,
        into: &mut Frame,
    ) -> FailAsked
        requires { (p : Packet) × IsRadius p request.now.payload × CanBeSigned p }
        ensures sent { WhenSend result (λ peer. IsAskedAt (servers_of self.old lane) (servers_of self.new lane) 0 owner request.now.payload self.old.secret now peer into.new) }
        ensures owners { WhenSend result (λ peer. Gains (servers_of self.old lane) (servers_of self.new lane) owner) }
        ensures waiting { (result ≡ FailAsked.Waiting) ↔ (in_hand (servers_of self.old lane) ≡ 256) }
        ensures kept { WhenWaiting result ((self.new ≡ self.old) × (into.new ≡ into.old)) }
        ensures others { ChangesLane self.old self.new lane }
    {
        match lane {
            Lane::Auth => self
                .auth
                .ask(self.secret.as_slice(), owner, request, now, into),
            Lane::Acct => self
                .acct
                .ask(self.secret.as_slice(), owner, request, now, into),
        }
    }

    /// What a datagram is to the lane's requests: a reply counts only for a request that is in hand at its very sender. Where it
    /// is the reply to one, that request is in hand no longer. Stranger comes exactly where the sender is none of the lane's
    /// servers.
    pub fn reply(&mut self, lane: Lane, from: Peer, bytes: &[u8]) -> Replied
        ensures answer { Hears lane (servers_of self.old lane) (servers_of self.new lane) from self.old.secret bytes.now result }
        ensures owners { Leaves (answered result) (servers_of self.old lane) (servers_of self.new lane) }
        ensures others { ChangesLane self.old self.new lane }
    {
        match lane {
            Lane::Auth => self.auth.reply(lane, self.secret.as_slice(), from, bytes),
            Lane::Acct => self.acct.reply(lane, self.secret.as_slice(), from, bytes),
        }
    }

    /// Whose request the server at this place of the lane's list, from 0, holds under this identifier. None exactly where it
    /// holds none.
    pub fn owner(&self, lane: Lane, server: u8, id: u8) -> Option<Owner>
        ensures { result ≡ option_map (λ r. r.owner) (request_at (servers_of self.now lane) server id) }
    {
        match lane {
            Lane::Auth => self.auth.owner(server, id),
            Lane::Acct => self.acct.owner(server, id),
        }
    }

    /// Frees an identifier of the server at this place of the lane's list, from 0, and answers whose request had it, which is in
    /// hand no longer. None exactly where that server held none under it.
    pub fn withdraw(&mut self, lane: Lane, server: u8, id: u8) -> Option<Owner>
        ensures owner { result ≡ option_map (λ r. r.owner) (request_at (servers_of self.old lane) server id) }
        ensures servers { Withdraws (servers_of self.old lane) (servers_of self.new lane) server id }
        ensures owners { Leaves result (servers_of self.old lane) (servers_of self.new lane) }
        ensures others { ChangesLane self.old self.new lane }
    {
        match lane {
            Lane::Auth => self.auth.withdraw(server, id),
            Lane::Acct => self.acct.withdraw(server, id),
        }
    }

    /// What is due at this moment, 3 s after the last send of a request. Where `timeouts` is true: an Access-Request that was sent
    /// as often to the last server as it is to be, and so to each, has timed out, and is in hand no longer; `into` is left as it
    /// was. Else: a request is to be sent, and counts as sent now. `into` has its octets: those of its last send, to the same
    /// server, or once it was sent as often as it is to be, the same request with an identifier of the next server, signed. After
    /// the last server an Accounting-Request begins again with the first; where it has one server alone, it stays with it. Of
    /// several that are due Access-Requests come first, then the request of the server that stands first, then the one that was
    /// sent first. None comes exactly where nothing of that kind is due.
    pub fn due(&mut self, now: u64, timeouts: bool, into: &mut Frame) -> Option<DueSend>
        ensures due { IsDue self.old self.new now timeouts into.new result }
        ensures kept { IfNone result ((self.new ≡ self.old) × (into.new ≡ into.old)) }
        ensures unsent { timeouts ≡ true → into.new ≡ into.old }
        ensures auth { Leaves (timed_out result) self.old.auth self.new.auth }
        ensures acct { Keeps self.old.acct self.new.acct }
    {
        if timeouts {
            return match self.auth.give_up(self.tries, now) {
                Some(owner) => Some(DueSend::TimedOut(owner)),
                None => None,
            };
        }
        let secret = self.secret.as_slice();
        if let Some(peer) = self.auth.send(Lane::Auth, secret, self.tries, now, into) {
            return Some(DueSend::Send(Lane::Auth, peer));
        }
        match self.acct.send(Lane::Acct, secret, self.tries, now, into) {
            Some(peer) => Some(DueSend::Send(Lane::Acct, peer)),
            None => None,
        }
    }

    /// The first moment at which a request of the lane is due, if no other call comes before. None exactly where none is in
    /// hand.
    pub fn deadline(&self, lane: Lane) -> Option<u64>
        ensures { IsDeadline (servers_of self.now lane) result }
    {
        match lane {
            Lane::Auth => self.auth.deadline(),
            Lane::Acct => self.acct.deadline(),
        }
    }
}
