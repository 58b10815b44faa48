//! The frames that wait for one entry.
ghost use Rattle.std.specs.Prelude.{◌≡◌, ◌+◌, ◌≤◌, ◌<◌, ◌∷◌, [], ◌++◌, length, take, drop, IfOk};
ghost use Rattle.bng_vlan.specs.Ring.{HaveHeadroom};

use crate::tag::ADDRESSES;
use bng_base::Frame;
use std::alloc::{AllocError, Global};
use std::marker::Model;

/// How many frames wait for an entry at most: 16 that are kept, and one that is held.
pub(crate) const PLACES: usize = 17;

/// Frames, the oldest first, in places that are kept: a frame is written over what stood there. No call but `new` takes memory.
/// A contract sees the list of their octets.
#[derive(Drop)]
pub struct FrameQueue {
    places: Vec<Frame>,
    oldest: usize,
    size: usize,
}

impl Model for FrameQueue {
    ghost use Rattle.std.specs.Prelude.{◌≡◌, ◌<◌, ◌≤◌, List, ℕ, length};
    ghost use Rattle.bng_vlan.specs.Ring.{window, payloads, HaveHeadroom};

    ghost Value = { List (List ℕ) };

    ghost view = { λ q. payloads (window q.oldest q.size q.places.items) };

    ghost invariant = { λ q. (q.oldest < 17) × (q.size ≤ 17) × (length q.places.items ≡ 17) × HaveHeadroom q.places.items };
}

/// So many places.
fn places(alloc: Global) -> Result<Vec<Frame>, AllocError>
    ensures size { IfOk result (λ v. length v.items ≡ 17) }
    ensures headroom { IfOk result (λ v. HaveHeadroom v.items) }
{
    let mut places = Vec::with_capacity(alloc, PLACES)?;
    for _ in 0..PLACES {
        places.push_reserved(Frame::new());
    }
    Ok(places)
}

impl FrameQueue {
    /// A queue without a frame.
    pub(crate) fn new(alloc: Global) -> Result<FrameQueue, AllocError>
        ensures { IfOk result (λ q. q ≡ []) }
    {
        Ok(FrameQueue {
            places: places(alloc)?,
            oldest: 0,
            size: 0,
        })
    }

    pub(crate) fn len(&self) -> usize
        ensures size { result ≡ length self.now }
        ensures few { length self.now ≤ PLACES }
    {
        self.size
    }

    /// Puts a frame at the end, without so many octets behind its addresses.
    pub(crate) fn put(&mut self, octets: &[u8], width: usize)
        requires room { length self.old < PLACES }
        requires whole { 12 + width ≤ length octets.now }
        requires fits { length octets.now ≤ 4096 }
        ensures { self.new ≡ self.old ++ (take 12 octets.now ++ drop (12 + width) octets.now) ∷ [] }
    {
        let place = &mut self.places[(self.oldest + self.size) % PLACES];
        place.set(&octets[..ADDRESSES]);
        place.put_back(&octets[ADDRESSES + width..]);
        self.size += 1;
    }

    /// Takes the oldest frame out, into a frame that then has its whole headroom.
    pub(crate) fn give(&mut self, into: &mut Frame)
        requires { 0 < length self.old }
        ensures given { self.old ≡ into.new.payload ∷ self.new }
        ensures headroom { into.new.headroom ≡ 64 }
    {
        into.copy_from(&self.places[self.oldest]);
        self.oldest = (self.oldest + 1) % PLACES;
        self.size -= 1;
    }
}
