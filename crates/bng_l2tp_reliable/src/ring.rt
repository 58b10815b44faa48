//! The messages of a channel in a ring of places, so that none is moved once it is there.
ghost use Rattle.std.specs.Prelude.{◌≡◌, ◌+◌, ◌<◌, ◌≤◌, ◌++◌, ◌∷◌, [], drop, length, slice_get, List};

use crate::message::Message;
use std::marker::Model;

/// The most messages that wait for the window.
pub const WAITING_MOST: usize = 64;

/// The most messages in flight, whatever window the peer has.
pub const IN_FLIGHT_MOST: usize = 8;

/// How many messages there is room for.
pub(crate) const PLACES: usize = WAITING_MOST + IN_FLIGHT_MOST;

/// A queue of messages. Contracts see them, oldest first.
#[derive(Drop)]
pub(crate) struct Ring {
    places: [Message; PLACES],
    oldest: usize,
    len: usize,
}

impl Model for Ring {
    ghost use Rattle.std.specs.Prelude.{◌≡◌, ◌<◌, ◌≤◌, List, length};
    ghost use Rattle.bng_l2tp_reliable.specs.ChannelState.{Message as Octets};
    ghost use Rattle.bng_l2tp_reliable.specs.Ring.{window};

    ghost Value = { List Octets };

    ghost view = { λ r. window r.oldest r.len r.places };

    ghost invariant = { λ r. (r.oldest < 72) × (r.len ≤ 72) × (length r.places ≡ 72) };
}

impl Ring {
    /// A queue without messages.
    pub(crate) fn new() -> Ring
        ensures { result ≡ [] }
    {
        Ring {
            places: Default::default(),
            oldest: 0,
            len: 0,
        }
    }

    /// How many messages there are.
    pub(crate) fn len(&self) -> usize
        ensures value { result ≡ length self.now }
        ensures fits { result ≤ PLACES }
    {
        self.len
    }

    /// Appends a message.
    pub(crate) fn push(&mut self, message: Message)
        requires { length self.old < PLACES }
        ensures { self.new ≡ self.old ++ message ∷ [] }
    {
        self.places[(self.oldest + self.len) % PLACES] = message;
        self.len += 1;
    }

    /// Forgets the oldest messages.
    pub(crate) fn forget(&mut self, count: usize)
        requires { count ≤ length self.old }
        ensures { self.new ≡ drop count self.old }
    {
        self.oldest = (self.oldest + count) % PLACES;
        self.len -= count;
    }

    /// The message at a place, from 0.
    pub(crate) fn at(&self, place: usize) -> &Message
        requires { place < length self.now }
        ensures { slice_get self.now place ≡ Some result.now }
    {
        &self.places[(self.oldest + place) % PLACES]
    }
}
