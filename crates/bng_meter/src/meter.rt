//! The meter.
ghost use Rattle.std.specs.Prelude.{◌≡◌, ◌+◌, ◌-◌, ◌*◌, ◌≤◌, ◌∷◌, ◌++◌, ℕ, List, []};
ghost use mathlib.Core.Logic.{◌↔◌};
ghost use Rattle.bng_meter.specs.Bucket.{Buckets, Offer, started, arrived, filled, colour_of, without, taken, after, colours};

use crate::colour::Colour;
use crate::level;
use bng_base::Rate;
use std::marker::Model;

/// A meter of one direction of a term. Clauses see its rate, the moment of its start and that of its last packet in
/// milliseconds, and the tokens in its buckets.
#[derive(Clone, Copy)]
pub struct Meter {
    rate: Rate,
    start: u64,
    last: u64,
    committed: u64,
    excess: u64,
}

impl Model for Meter {
    ghost use Rattle.std.specs.Prelude.{◌≤◌};
    ghost use Rattle.bng_meter.specs.Bucket.{Buckets};

    ghost Value = { Buckets };

    ghost view = { λ m. record { rate = m.rate; start = m.start; last = m.last; committed = m.committed; excess = m.excess } };

    ghost inverse = { λ b. record { rate = b.rate; start = b.start; last = b.last; committed = b.committed; excess = b.excess } };

    ghost invariant = { λ m. (m.start ≤ m.last) × (m.committed ≤ m.rate.cbs) × (m.excess ≤ m.rate.ebs) };
}

impl Meter {
    /// A meter that starts at that moment, in milliseconds, with both buckets full.
    pub fn new(rate: Rate, now: u64) -> Meter
        ensures { result ≡ started rate now }
    {
        Meter {
            rate,
            start: now,
            last: now,
            committed: rate.cbs,
            excess: rate.ebs,
        }
    }

    /// The moment of the last packet that it coloured, in milliseconds, and that of its start where there was none.
    pub fn last(&self) -> u64
        ensures { result ≡ self.now.last }
    {
        self.last
    }

    /// Colours a packet of so many octets at that moment, which is not before that of the last packet, and takes its
    /// tokens. RFC 2697 section 3, colour-blind.
    pub fn take(&mut self, now: u64, octets: u32) -> Colour
        requires { self.old.last ≤ now }
        // Token n has come by t milliseconds after the start exactly where CIR * t >= 1000 * n.
        ensures arrivals { let t = now - self.old.start in
            (n : ℕ) → (n ≤ arrived self.old.rate t) ↔ (1000 * n ≤ self.old.rate.cir * t) }
        ensures kept { self.new ≡ record self.old { last = now; committed = self.new.committed; excess = self.new.excess } }
        ensures colour { result ≡ colour_of (filled self.old now) octets }
        ensures buckets { self.new ≡ taken self.old (now, octets) }
        // So the meter is where the definition is after each list of packets, and its colours are the definition's.
        ensures history { (b : Buckets) (offers : List Offer) → self.old ≡ after b offers
            → self.new ≡ after b (offers ++ (now, octets) ∷ []) }
        ensures told { (b : Buckets) (offers : List Offer) → self.old ≡ after b offers
            → colours b (offers ++ (now, octets) ∷ []) ≡ colours b offers ++ result ∷ [] }
    {
        self.fill(now);
        self.spend(octets as u64)
    }

    // Adds the tokens that arrived since the last packet, in one sum.
    fn fill(&mut self, now: u64)
        requires { self.old.last ≤ now }
        ensures filled { self.new ≡ filled self.old now }
        ensures kept { self.new ≡ record self.old { last = now; committed = self.new.committed; excess = self.new.excess } }
    {
        let by_now = level::arrived(self.rate.cir, now - self.start);
        let tokens = by_now - level::arrived(self.rate.cir, self.last - self.start);
        let over = level::left_over(self.committed, self.rate.cbs, tokens);
        self.committed = level::raised(self.committed, self.rate.cbs, tokens);
        self.excess = level::raised(self.excess, self.rate.ebs, over);
        self.last = now;
    }

    // Takes a packet's tokens from the buckets as they are.
    fn spend(&mut self, octets: u64) -> Colour
        ensures colour { result ≡ colour_of self.old octets }
        ensures buckets { self.new ≡ without self.old octets }
        ensures kept { self.new ≡ record self.old { committed = self.new.committed; excess = self.new.excess } }
    {
        if octets <= self.committed {
            self.committed -= octets;
            Colour::Green
        } else if octets <= self.excess {
            self.excess -= octets;
            Colour::Yellow
        } else {
            Colour::Red
        }
    }
}
