//! The list of profiles.
ghost use Rattle.std.specs.Prelude.{◌≡◌, ◌<◌, ◌≤◌, ℕ, map, length, position, replicate, slice_get, slice_set, IfOk, IfSome, IfNone, IsTrue};
ghost use Rattle.std.specs.Str.{bytes_eq};
ghost use mathlib.Core.Logic.{◌↔◌};
ghost use Rattle.bng_profile.specs.Books.{AreDifferent, names_of, HasRoom, Holds};
ghost use Rattle.bng_base.specs.Books.{empty_book, entered, taken_off};

use arrayvec::ArrayVec;
use bng_base::{Book, Profile};
use std::alloc::Global;
use std::marker::Model;

/// Why no profiles were opened.
#[derive(Debug, Clone, Copy)]
pub enum ProfileError {
    /// There is no memory for their names and books.
    OutOfMemory,
}

/// The profiles by their places, from 0. Clauses see the names and the books, in the order of the list.
#[derive(Drop)]
pub struct Profiles {
    names: Vec<ArrayVec<u8, 32>>,
    books: Vec<Book>,
}

impl Model for Profiles {
    ghost use Rattle.std.specs.Prelude.{◌≡◌, ◌≤◌, length, map};
    ghost use Rattle.bng_profile.specs.Books.{Ledger, AreDifferent};

    ghost Value = { Ledger };

    ghost view = { λ p. record { names = map (λ n. n.items) p.names.items; books = p.books.items } };

    ghost invariant = { λ p. (length p.names.items ≡ length p.books.items) × (length p.books.items ≤ 16)
        × AreDifferent (map (λ n. n.items) p.names.items) };
}

impl Profiles {
    /// The profiles of a list of 1 to 16 with different names, each with an empty book.
    pub fn open(alloc: Global, list: &[Profile]) -> Result<Profiles, ProfileError>
        requires count { (1 ≤ length list.now) × (length list.now ≤ 16) }
        requires different { AreDifferent (names_of list.now) }
        ensures names { IfOk result (λ p. p.names ≡ names_of list.now) }
        ensures books { IfOk result (λ p. p.books ≡ replicate (length list.now) empty_book) }
    {
        let Ok(mut names) = Vec::with_capacity(alloc, list.len()) else {
            return Err(ProfileError::OutOfMemory);
        };
        let Ok(mut books) = Vec::with_capacity(alloc, list.len()) else {
            return Err(ProfileError::OutOfMemory);
        };
        for profile in list {
            let Ok(()) = names.push(copied(&profile.name)) else {
                return Err(ProfileError::OutOfMemory);
            };
            let Ok(()) = books.push(Book::empty()) else {
                return Err(ProfileError::OutOfMemory);
            };
        }
        Ok(Profiles { names, books })
    }

    /// How many profiles there are, 16 at most. Their places are those below.
    pub fn count(&self) -> u8
        ensures { result ≡ length self.now.books }
    {
        self.books.len() as u8
    }

    /// The place of the profile with that name, None exactly where no profile has it.
    pub fn find(&self, name: &[u8]) -> Option<u8>
        ensures found { IfSome result (λ k. slice_get self.now.names k ≡ Some name.now) }
        ensures only { (k : ℕ) → slice_get self.now.names k ≡ Some name.now → result ≡ Some k }
        ensures unknown { (result ≡ None) ↔ ((k : ℕ) → ¬ (slice_get self.now.names k ≡ Some name.now)) }
        ensures place { result ≡ position (λ n. bytes_eq n name.now) self.now.names }
    {
        match place_of(self.names.as_slice(), name) {
            Some(place) => Some(place as u8),
            None => None,
        }
    }

    /// The book of the profile at that place.
    pub fn book(&self, profile: u8) -> Book
        requires { profile < length self.now.books }
        ensures { slice_get self.now.books profile ≡ Some result }
    {
        self.books[profile as usize]
    }

    /// Counts a packet of so many octets (its IPv4 total length) in the book of the profile at that place, input (from the
    /// subscriber) or output. Condition: no sum of that direction passes 2^64 - 1.
    pub fn pass(&mut self, profile: u8, input: bool, octets: u16)
        requires profile { profile < length self.old.books }
        requires room { (b : _) → slice_get self.old.books profile ≡ Some b → HasRoom b input octets }
        ensures names { self.new.names ≡ self.old.names }
        ensures places { length self.new.books ≡ length self.old.books }
        ensures books { (b : _) → slice_get self.old.books profile ≡ Some b
            → self.new.books ≡ slice_set self.old.books profile (entered b input octets) }
    {
        self.books[usize::from(profile)].enter(input, octets);
    }

    /// Takes a packet that was counted off the book of the profile at that place, as where its send failed. Condition: it is in
    /// the book.
    pub fn take_off(&mut self, profile: u8, input: bool, octets: u16)
        requires profile { profile < length self.old.books }
        requires held { (b : _) → slice_get self.old.books profile ≡ Some b → Holds b input octets }
        ensures names { self.new.names ≡ self.old.names }
        ensures places { length self.new.books ≡ length self.old.books }
        ensures books { (b : _) → slice_get self.old.books profile ≡ Some b
            → self.new.books ≡ slice_set self.old.books profile (taken_off b input octets) }
        // It undoes `pass`.
        ensures undone { (b : _) → slice_get self.old.books profile ≡ Some (entered b input octets)
            → slice_get self.new.books profile ≡ Some b }
    {
        self.books[usize::from(profile)].take_off(input, octets);
    }
}

fn copied(name: &ArrayVec<u8, 32>) -> ArrayVec<u8, 32>
    ensures { result.items ≡ name.now.items }
{
    let mut copy = ArrayVec::new();
    let Ok(()) = copy.try_extend_from_slice(name.as_slice()) else {
        unreachable!()
    };
    copy
}

// The first place with that name.
fn place_of(names: &[ArrayVec<u8, 32>], name: &[u8]) -> Option<usize>
    ensures found { IfSome result (λ k. slice_get (map (λ n. n.items) names.now) k ≡ Some name.now) }
    ensures unknown { IfNone result ((k : ℕ) → ¬ (slice_get (map (λ n. n.items) names.now) k ≡ Some name.now)) }
    ensures place { result ≡ position (λ n. bytes_eq n name.now) (map (λ n. n.items) names.now) }
{
    for (place, other) in names.iter().enumerate() {
        if is_named(other, name) {
            return Some(place);
        }
    }
    None
}

fn is_named(one: &ArrayVec<u8, 32>, name: &[u8]) -> bool
    ensures { IsTrue result ↔ (one.now.items ≡ name.now) }
{
    one.as_slice() == name
}
