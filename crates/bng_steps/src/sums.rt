//! What passed, packet by packet.
ghost use Rattle.std.specs.Prelude.{◌≡◌, ◌+◌, ◌^◌, ◌<◌, ◌≤◌, ◌∷◌, [], ℕ, length};
ghost use Rattle.bng_engine.specs.Books.{book_at, BooksRise};
ghost use Rattle.bng_steps.specs.Sums.{charged_as, AreLow, AreMore, Has, IsLow, IsMore, Rises};

use bng_base::{Book, Charge, OutRecord};
use bng_profile::Profiles;

/// Octets of packets from a subscriber (input) and towards it (output).
#[derive(Clone, Copy, PartialEq, Eq, Debug)]
pub struct Traffic {
    pub input: u64,
    pub output: u64,
}

/// Whose an out was that was charged.
#[derive(Clone, Copy, PartialEq, Eq, Debug)]
pub enum Charged {
    /// A packet of a term, from the subscriber or towards it, with its total length in octets.
    Packet { input: bool, octets: u16 },
    /// No term's packet.
    Control,
}

/// Whose an out is.
pub fn charged_as(charge: Option<Charge>) -> Charged
    ensures { result ≡ charged_as charge }
{
    match charge {
        Some(charge) => Charged::Packet {
            input: charge.input,
            octets: charge.octets,
        },
        None => Charged::Control,
    }
}

// Enters one packet more in a book, of so many octets in this direction.
pub fn enter(book: &mut Book, input: bool, octets: u16)
    requires low { IsLow (2 ^ 63 + 2 ^ 62) book.old }
    ensures more { IsMore book.old input octets book.new }
    ensures few { (most : ℕ) → IsLow most book.old → IsLow (most + 2 ^ 16) book.new }
{
    book.enter(input, octets);
}

// Enters one in the book of this profile.
fn pass(profiles: &mut Profiles, profile: u8, input: bool, octets: u16)
    requires profile { profile < length profiles.old.books }
    requires low { AreLow (2 ^ 63 + 2 ^ 62) profiles.old.books }
    ensures names { profiles.new.names ≡ profiles.old.names }
    ensures more { AreMore profiles.old.books profile input octets profiles.new.books }
    ensures few { (most : ℕ) → AreLow most profiles.old.books → AreLow (most + 2 ^ 16) profiles.new.books }
{
    profiles.pass(profile, input, octets);
}

// Takes one off the book of this profile.
pub fn take_off(profiles: &mut Profiles, profile: u8, input: bool, octets: u16)
    requires profile { profile < length profiles.old.books }
    requires there { Has (book_at profile profiles.old.books) input octets }
    ensures names { profiles.new.names ≡ profiles.old.names }
    ensures less { AreMore profiles.new.books profile input octets profiles.old.books }
{
    profiles.take_off(profile, input, octets);
}

// Enters the packet of an out, if it has one, in a tally.
fn tally_one(tally: &mut Book, out: &OutRecord)
    requires low { IsLow (2 ^ 63 + 2 ^ 62) tally.old }
    ensures rises { Rises tally.old (out.now ∷ []) tally.new }
    ensures few { (most : ℕ) → IsLow most tally.old → IsLow (most + 2 ^ 16) tally.new }
{
    match out.charge {
        Some(charge) => enter(tally, charge.input, charge.octets),
        None => {}
    }
}

// Enters it in the book of its profile, if there is that profile.
fn book_one(profiles: &mut Profiles, out: &OutRecord)
    requires low { AreLow (2 ^ 63 + 2 ^ 62) profiles.old.books }
    ensures names { profiles.new.names ≡ profiles.old.names }
    ensures rises { BooksRise profiles.old.books (out.now ∷ []) profiles.new.books }
    ensures few { (most : ℕ) → AreLow most profiles.old.books → AreLow (most + 2 ^ 16) profiles.new.books }
{
    let Some(charge) = out.charge else {
        return;
    };
    if charge.profile < profiles.count() {
        pass(profiles, charge.profile, charge.input, charge.octets);
    }
}

/// Enters the packets among these outs in a tally.
pub fn tally(tally: &mut Book, outs: &[OutRecord])
    requires few { length outs.now ≤ 2 ^ 16 }
    requires low { IsLow (2 ^ 63) tally.old }
    ensures { Rises tally.old outs.now tally.new }
{
    for out in outs {
        tally_one(tally, out);
    }
}

/// Enters each in the book of its profile.
pub fn book(profiles: &mut Profiles, outs: &[OutRecord])
    requires few { length outs.now ≤ 2 ^ 16 }
    requires low { AreLow (2 ^ 63) profiles.old.books }
    ensures names { profiles.new.names ≡ profiles.old.names }
    ensures rises { BooksRise profiles.old.books outs.now profiles.new.books }
{
    for out in outs {
        book_one(profiles, out);
    }
}
