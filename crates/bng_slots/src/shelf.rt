//! The values of a shard's slots: they stand in a slab, and a table has the slab's key of each place.
ghost use Rattle.std.specs.Prelude.{◌≡◌, ◌<◌, length, None, Some, replicate, slice_index_or, slice_set, is_some, count_by, IfOk};
ghost use Rattle.std.specs.Option.{option_copied};

use crate::vacancy::PLACES;
use slab::Slab;
use std::alloc::{AllocError, Global};
use std::marker::Model;

/// At each place a value or none. It has room for a value at each place.
#[derive(Drop)]
pub(crate) struct Shelf<V> {
    keys: Vec<Option<usize>>,
    values: Slab<V>,
}

impl<V> Model for Shelf<V> {
    ghost use Rattle.std.specs.Prelude.{List, Option};
    ghost use Rattle.std.specs.Coded.{coded_list, coded_option};
    ghost use Rattle.bng_slots.specs.Shelves.{placed, IsShelf};

    ghost Value = { List (Option V) };

    ghost coded = { coded_list (coded_option V.code) };

    ghost view = { λ a. placed a.values a.keys.items };

    ghost invariant = { λ a. IsShelf a.values a.keys.items };
}

impl<V> Shelf<V> {
    /// No place has a value.
    pub(crate) fn open(alloc: Global) -> Result<Shelf<V>, AllocError>
        ensures { IfOk result (λ s. s ≡ replicate PLACES None) }
    {
        let keys = vec![in alloc; None; PLACES]?;
        let values = Slab::with_capacity(alloc, PLACES)?;
        Ok(Shelf { keys, values })
    }

    /// The value at a place.
    pub(crate) fn get(&self, place: usize) -> Option<&V>
        ensures { option_copied result ≡ slice_index_or self.now place None }
    {
        let key = (*self.keys.get(place)?)?;
        self.values.get(key)
    }

    /// Puts a value at a place that has none.
    pub(crate) fn put(&mut self, place: usize, value: V)
        requires within { place < length self.old }
        requires empty { slice_index_or self.old place None ≡ None }
        ensures { self.new ≡ slice_set self.old place (Some value) }
    {
        self.keys[place] = Some(self.values.insert_reserved(value));
    }

    /// Takes the value at a place out, where there is one.
    pub(crate) fn take(&mut self, place: usize) -> Option<V>
        requires within { place < length self.old }
        ensures value { result ≡ slice_index_or self.old place None }
        ensures after { self.new ≡ slice_set self.old place None }
    {
        let key = self.keys[place].take()?;
        self.values.try_remove(key)
    }

    /// How many places have a value.
    pub(crate) fn count(&self) -> usize
        ensures { result ≡ count_by is_some self.now }
    {
        self.values.len()
    }
}
