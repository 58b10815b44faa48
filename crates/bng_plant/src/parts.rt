//! Flat lists that are cut into parts, with a room that was made with them.
ghost use Rattle.std.specs.Prelude.{◌≡◌, ◌<◌, ◌≤◌, ◌+◌, ◌-◌, ◌++◌, ◌∷◌, ◌&&◌, [], nat_lt, nat_le, length, sum, sum_by, vec_len, vec_capacity, IfOk};
ghost use Rattle.std.specs.List.{flat_map};

use crate::again::Again;
use bng_base::Listed;
use std::alloc::{AllocError, Global};

/// A flat list that is cut into parts, one after the other.
#[derive(Drop)]
pub struct Parts<T> {
    lengths: Vec<usize>,
    items: Vec<T>,
    ghost whole: { sum lengths.items ≡ length items.items },
}

/// Whether so many items suffice for these parts.
pub fn suffices<T>(parts: &[Listed<T>], room: usize) -> bool
    ensures { result ≡ nat_le (sum_by length parts.now) room }
{
    let mut left = room;
    for part in parts {
        let len = part.as_slice().len();
        if len > left {
            return false;
        }
        left -= len;
    }
    true
}

/// Appends copies of items for which there is room.
fn append<T: Again>(to: &mut Vec<T>, from: &[T])
    requires { vec_len to.old + length from.now ≤ vec_capacity to.old }
    ensures items { to.new.items ≡ to.old.items ++ from.now }
    ensures len { vec_len to.new ≡ vec_len to.old + length from.now }
    ensures capacity { vec_capacity to.new ≡ vec_capacity to.old }
{
    for item in from {
        to.push_reserved(item.again());
    }
}

impl<T: Again> Parts<T> {
    ghost use Rattle.bng_plant.specs.Parts.{parts_of, room_of};

    /// No parts, and room for so many parts and so many items.
    pub fn new(alloc: Global, parts: usize, items: usize) -> Result<Parts<T>, AllocError>
        ensures parts { IfOk result (λ p. parts_of p ≡ []) }
        ensures room { IfOk result (λ p. room_of p ≡ record { parts = parts; items = items }) }
    {
        Ok(Parts {
            lengths: Vec::with_capacity(alloc, parts)?,
            items: Vec::with_capacity(alloc, items)?,
        })
    }

    /// How many parts more it has room for.
    pub fn part_room(&self) -> usize
        ensures { result ≡ (room_of self.now).parts }
    {
        self.lengths.capacity() - self.lengths.len()
    }

    /// How many items more it has room for.
    pub fn item_room(&self) -> usize
        ensures { result ≡ (room_of self.now).items }
    {
        self.items.capacity() - self.items.len()
    }

    /// Puts copies of these items after the others, as one part more.
    pub fn push(&mut self, part: &[T])
        requires part { 0 < (room_of self.old).parts }
        requires items { length part.now ≤ (room_of self.old).items }
        ensures parts { parts_of self.new ≡ parts_of self.old ++ part.now ∷ [] }
        ensures room { room_of self.new ≡ record { parts = (room_of self.old).parts - 1; items = (room_of self.old).items - length part.now } }
    {
        append(&mut self.items, part);
        self.lengths.push_reserved(part.len());
    }

    /// Puts copies of these parts after the others.
    pub fn push_all(&mut self, parts: &[Listed<T>])
        requires parts { length parts.now ≤ (room_of self.old).parts }
        requires items { sum_by length parts.now ≤ (room_of self.old).items }
        ensures parts { parts_of self.new ≡ parts_of self.old ++ parts.now }
        ensures room { room_of self.new ≡ record { parts = (room_of self.old).parts - length parts.now; items = (room_of self.old).items - sum_by length parts.now } }
    {
        for part in parts {
            self.push(part.as_slice());
        }
    }

    /// All items, those of the first part first.
    pub fn items(&self) -> &[T]
        ensures { result.now ≡ flat_map (λ x. x) (parts_of self.now) }
    {
        self.items.as_slice()
    }
}
