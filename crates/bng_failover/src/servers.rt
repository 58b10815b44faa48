ghost use Rattle.std.specs.Prelude.{◌≡◌, ◌≤◌, ◌<◌, ◌+◌, ◌↔◌, IsTrue, IfOk, IfSome, IfNone, map, length, List};
ghost use Rattle.std.specs.Option.{option_map};
ghost use Rattle.bng_radius_wire.specs.Grammar.{Packet, IsRadius};
ghost use Rattle.bng_radius_wire.specs.Digests.{CanBeSigned};
ghost use Rattle.bng_rad_client.specs.Replies.{WhenIgnored, WhenMatched};
ghost use Rattle.bng_failover.specs.Servers.{new_server, request_at, in_hand, Gains, Keeps, Leaves};
ghost use Rattle.bng_failover.specs.Asking.{IsAskedAt, WhenSend, WhenWaiting};
ghost use Rattle.bng_failover.specs.Replies.{Hears, answered};
ghost use Rattle.bng_failover.specs.Due.{NoneDue, IsSent, NoneGivenUp, IsGivenUp, IsDeadline};
ghost use Rattle.bng_failover.specs.Withdrawing.{Withdraws};

use crate::due::{earliest, first_due, goes_to, place_of, timed_out};
use crate::place;
use crate::rules::FailAsked;
use crate::server::{Server, opened};
use bng_base::{Frame, Peer};
use bng_rad_client::{INTERVAL, IgnoredReply, Lane, Owner, Replied};
use std::alloc::{AllocError, Global};
use std::marker::Model;

// The most requests of a lane in hand.
const MOST: usize = 256;

/// The servers of a lane in their order, and the number of requests that are in hand at all of them.
#[derive(Drop)]
pub struct Servers {
    list: Vec<Server>,
    out: usize,
}

impl Model for Servers {
    ghost use Rattle.std.specs.Prelude.{◌≡◌, List};
    ghost use Rattle.bng_failover.specs.declared.server.Server.{Server};
    ghost use Rattle.bng_failover.specs.Servers.{in_hand, AreSound};

    ghost Value = { List Server };

    ghost view = { λ s. s.list.items };

    ghost invariant = { λ s. AreSound s.list.items × (s.out ≡ in_hand s.list.items) };
}

impl Servers {
    /// The servers with no request.
    pub(crate) fn open(alloc: Global, peers: &[Peer]) -> Result<Servers, AllocError>
        requires { 0 < length peers.now }
        ensures { IfOk result (λ s. s ≡ map new_server peers.now) }
    {
        let list = opened(alloc, peers)?;
        Ok(Servers { list, out: 0 })
    }

    pub(crate) fn room(&self) -> bool
        ensures { IsTrue result ↔ (in_hand self.now < 256) }
    {
        self.out < MOST
    }

    pub(crate) fn ask(
        &mut self,
        secret: &[u8],
        owner: Owner,
        request: &Frame,
        now: u64,
        into: &mut Frame,
    ) -> FailAsked
        requires grammar { (p : Packet) × IsRadius p request.now.payload × CanBeSigned p }
        requires key { length secret.now ≤ 64 }
        ensures sent { WhenSend result (λ peer. IsAskedAt self.old self.new 0 owner request.now.payload secret.now now peer into.new) }
        ensures owners { WhenSend result (λ peer. Gains self.old self.new owner) }
        ensures waiting { (result ≡ FailAsked.Waiting) ↔ (in_hand self.old ≡ 256) }
        ensures kept { WhenWaiting result ((self.new ≡ self.old) × (into.new ≡ into.old)) }
    {
        if self.out == MOST {
            return FailAsked::Waiting;
        }
        let peer = place::ask(
            &mut self.list,
            0,
            secret,
            owner,
            request.payload(),
            now,
            into,
        );
        self.out += 1;
        FailAsked::Send(peer)
    }

    pub(crate) fn reply(&mut self, lane: Lane, secret: &[u8], from: Peer, bytes: &[u8]) -> Replied
        requires { length secret.now ≤ 64 }
        ensures answer { Hears lane self.old self.new from secret.now bytes.now result }
        ensures owners { Leaves (answered result) self.old self.new }
    {
        let Some(at) = place_of(self.list.as_slice(), from) else {
            return Replied::Ignored(IgnoredReply::Stranger);
        };
        let replied = place::hear(&mut self.list, at, lane, secret, bytes);
        if let Replied::Matched(_) = replied {
            self.out -= 1;
        }
        replied
    }

    pub(crate) fn owner(&self, server: u8, id: u8) -> Option<Owner>
        ensures { result ≡ option_map (λ r. r.owner) (request_at self.now server id) }
    {
        let server = self.list.get(usize::from(server))?;
        match server.requests.get(id) {
            Some(request) => Some(request.owner),
            None => None,
        }
    }

    pub(crate) fn withdraw(&mut self, server: u8, id: u8) -> Option<Owner>
        ensures owner { result ≡ option_map (λ r. r.owner) (request_at self.old server id) }
        ensures servers { Withdraws self.old self.new server id }
        ensures owners { Leaves result self.old self.new }
    {
        let at = usize::from(server);
        if self.list.len() <= at {
            return None;
        }
        match place::withdraw(&mut self.list, at, id) {
            Some(request) => {
                self.out -= 1;
                Some(request.owner)
            }
            None => None,
        }
    }

    pub(crate) fn send(
        &mut self,
        lane: Lane,
        secret: &[u8],
        tries: u8,
        now: u64,
        into: &mut Frame,
    ) -> Option<Peer>
        requires { length secret.now ≤ 64 }
        ensures some { IfSome result (λ peer. (owner : Owner) × IsSent lane self.old self.new secret.now tries now owner peer into.new) }
        ensures none { IfNone result (NoneDue lane self.old tries now) }
        ensures kept { IfNone result ((self.new ≡ self.old) × (into.new ≡ into.old)) }
        ensures owners { Keeps self.old self.new }
    {
        let first = first_due(self.list.as_slice(), lane, tries, now)?;
        let (at, id) = (first.at, first.due.id);
        let next = goes_to(self.list.as_slice(), lane, tries, at, id);
        Some(match next {
            None => place::repeat(&mut self.list, at, id, now, into),
            Some(next) => place::hand_over(&mut self.list, at, id, next, secret, now, into),
        })
    }

    pub(crate) fn give_up(&mut self, tries: u8, now: u64) -> Option<Owner>
        ensures some { IfSome result (IsGivenUp self.old self.new tries now) }
        ensures none { IfNone result (NoneGivenUp self.old tries now) }
        ensures kept { IfNone result (self.new ≡ self.old) }
        ensures owners { Leaves result self.old self.new }
    {
        let last = timed_out(self.list.as_slice(), tries, now)?;
        match place::withdraw(&mut self.list, last.at, last.due.id) {
            Some(request) => {
                self.out -= 1;
                Some(request.owner)
            }
            None => unreachable!(),
        }
    }

    pub(crate) fn deadline(&self) -> Option<u64>
        ensures { IsDeadline self.now result }
    {
        match earliest(self.list.as_slice()) {
            Some(sent_at) => Some(sent_at.saturating_add(INTERVAL)),
            None => None,
        }
    }
}
