//! An index: the sessions by one kind of key, in a vector by rising key that is searched by halving.
ghost use Rattle.std.specs.Prelude.{◌≡◌, ◌+◌, ◌<◌, ◌≤◌, [], length, map, true, false, is_some, IfOk, IfErr, IfSome, IfNone, Some, None, if◌then◌else◌, slice_index_or};
ghost use Rattle.std.specs.List.{HoldsAt, AllWithin};
ghost use Rattle.std.specs.Ordering.{eq_by_cmp, is_gt};
ghost use Rattle.std.specs.declared.cmp.Ordering.TheVariants.{Less, Equal, Greater};
ghost use Rattle.std.specs.FinMap.{find};
ghost use Rattle.bng_slots.specs.Inside.{noted, forgotten};

use crate::key::IndexKey;
use bng_base::SessionNo;
use std::alloc::{AllocError, Global};
use std::cmp::Ordering;
use std::marker::Model;

/// Sessions by one kind of key. Each key has one session.
#[derive(Drop)]
pub(crate) struct Index<K: IndexKey> {
    entries: Vec<(K, SessionNo)>,
}

impl<K: IndexKey> Model for Index<K> {
    ghost use Rattle.std.specs.Prelude.{T, vec_capacity};
    ghost use Rattle.std.specs.FinMap.{is_sorted};
    ghost use Rattle.bng_slots.specs.Listing.{Listing, listing_code};

    ghost Value = { Listing K };

    ghost coded = { listing_code K.code };

    ghost view = { λ a. record { entries = a.entries.items; room = vec_capacity a.entries } };

    ghost invariant = { λ a. T (is_sorted K.order a.entries.items) };
}

impl<K: IndexKey> Index<K> {
    /// An index with no entry and room for so many.
    pub(crate) fn open(alloc: Global, room: usize) -> Result<Index<K>, AllocError>
        ensures empty { IfOk result (λ x. x.entries ≡ []) }
        ensures room { IfOk result (λ x. x.room ≡ room) }
    {
        Ok(Index {
            entries: Vec::with_capacity(alloc, room)?,
        })
    }

    // Where the key is, or where it would go.
    fn search(&self, key: &K) -> Result<usize, usize>
        ensures here { IfOk result (λ i. (i < length self.now.entries) × HoldsAt (λ e. K.order e.0 key.now ≡ Equal) self.now.entries i) }
        ensures bound { IfErr result (λ i. i ≤ length self.now.entries) }
        ensures before { IfErr result (λ i. AllWithin (λ e. K.order e.0 key.now ≡ Less) self.now.entries 0 i) }
        ensures after { IfErr result (λ i. AllWithin (λ e. K.order e.0 key.now ≡ Greater) self.now.entries i (length self.now.entries)) }
    {
        self.entries.binary_search_by(
            |entry: &(K, SessionNo)| -> Ordering
                ensures { result ≡ K.order entry.now.0 key.entry.now }
            { entry.0.compare(key) },
        )
    }

    /// The session of a key; none exactly where no entry has the key.
    pub(crate) fn find(&self, key: &K) -> Option<SessionNo>
        ensures { result ≡ find K.order key.now self.now.entries }
    {
        match self.search(key) {
            Ok(place) => Some(self.entries[place].1),
            Err(_) => None,
        }
    }

    /// The least key; none exactly where there is no entry.
    pub(crate) fn first(&self) -> Option<K>
        ensures there { IfSome result (λ k. is_some (find K.order k self.now.entries) ≡ true) }
        ensures least { IfSome result (λ k. (j : K) (n : SessionNo) → find K.order j self.now.entries ≡ Some n → is_gt (K.order k j) ≡ false) }
        ensures none { IfNone result (self.now.entries ≡ []) }
    {
        let entry = self.entries.first()?;
        Some(entry.0)
    }

    // Adds an entry of a key that no entry has.
    fn insert(&mut self, key: K, session: SessionNo)
        requires room { length self.old.entries < self.old.room }
        requires absent { find K.order key self.old.entries ≡ None }
        ensures finds { (k : K) → find K.order k self.new.entries ≡ (if eq_by_cmp K.order k key then Some session else find K.order k self.old.entries) }
        ensures len { length self.new.entries ≡ length self.old.entries + 1 }
        ensures room { self.new.room ≡ self.old.room }
    {
        match self.search(&key) {
            Ok(_) => unreachable!(),
            Err(place) => {
                let _ = self.entries.insert(place, (key, session));
            }
        }
    }

    // Takes the entry of a key out, where there is one.
    fn remove(&mut self, key: &K)
        ensures finds { (k : K) → find K.order k self.new.entries ≡ (if eq_by_cmp K.order k key.now then None else find K.order k self.old.entries) }
        ensures len { length self.new.entries + (if is_some (find K.order key.now self.old.entries) then 1 else 0) ≡ length self.old.entries }
        ensures room { self.new.room ≡ self.old.room }
    {
        if let Ok(place) = self.search(key) {
            let _ = self.entries.remove(place);
        }
    }

    /// Notes a session under a key that no entry has, where the session has such a key.
    pub(crate) fn note(&mut self, key: Option<K>, session: SessionNo)
        requires room { length self.old.entries < self.old.room }
        requires absent { (k : K) → key ≡ Some k → find K.order k self.old.entries ≡ None }
        ensures finds { (k : K) → find K.order k self.new.entries ≡ noted K.order key session k (find K.order k self.old.entries) }
        ensures len { length self.new.entries ≡ length self.old.entries + (if is_some key then 1 else 0) }
        ensures room { self.new.room ≡ self.old.room }
    {
        if let Some(key) = key {
            self.insert(key, session);
        }
    }

    /// Forgets a key that an entry has, where there is such a key.
    pub(crate) fn forget(&mut self, key: Option<K>)
        requires there { (k : K) → key ≡ Some k → is_some (find K.order k self.old.entries) ≡ true }
        ensures finds { (k : K) → find K.order k self.new.entries ≡ forgotten K.order key k (find K.order k self.old.entries) }
        ensures len { length self.new.entries + (if is_some key then 1 else 0) ≡ length self.old.entries }
        ensures room { self.new.room ≡ self.old.room }
    {
        if let Some(key) = key {
            self.remove(&key);
        }
    }
}
