//! Two profiles and their books.
ghost use Rattle.std.specs.Prelude.{◌≡◌, ◌≤◌, ◌<◌, length, IfOk};

use crate::asserts::assert_same;
use arrayvec::ArrayVec;
use bng_base::{Book, Profile};
use bng_profile::{ProfileError, Profiles};
use std::alloc::Global;
use std::process::Abort;
use std::test::Fail;

fn unmetered(name: &[u8]) -> Profile
    requires { length name.now ≤ 32 }
    ensures { result.name.items ≡ name.now }
{
    let mut letters = ArrayVec::new();
    let Ok(()) = letters.try_extend_from_slice(name) else {
        unreachable!()
    };
    Profile {
        name: letters,
        up: None,
        down: None,
    }
}

const MOST: u64 = 1 << 63;

fn pass(profiles: &mut Profiles, profile: u8, input: bool, octets: u16) -> Option<()>
    requires { profile < length profiles.old.books }
    ensures { length profiles.new.books ≡ length profiles.old.books }
{
    let book = profiles.book(profile);
    let full = book.input > MOST || book.output > MOST;
    if full || book.input_packets > MOST || book.output_packets > MOST {
        return None;
    }
    profiles.pass(profile, input, octets);
    Some(())
}

fn take_off(profiles: &mut Profiles, profile: u8, octets: u16) -> Option<()>
    requires { profile < length profiles.old.books }
    ensures { length profiles.new.books ≡ length profiles.old.books }
{
    let book = profiles.book(profile);
    if book.input < octets as u64 || book.input_packets < 1 {
        return None;
    }
    profiles.take_off(profile, true, octets);
    Some(())
}

// Two profiles.
fn bronze_and_gold(alloc: Global) -> Result<Profiles, ProfileError>
    ensures { IfOk result (λ p. length p.books ≡ 2) }
{
    Profiles::open(alloc, &[unmetered(b"bronze"), unmetered(b"gold")])
}

// The profile of this name is at this place.
fn finds(rt: &impl Abort, profiles: &Profiles, name: &[u8], place: Option<u8>) {
    assert_same(rt, &profiles.find(name), &place);
}

#[test]
fn finds_each_profile_by_its_whole_name(rt: HostRuntime) -> Result<(), Fail> {
    let profiles = bronze_and_gold(rt.alloc())?;
    finds(&rt, &profiles, b"bronze", Some(0));
    finds(&rt, &profiles, b"gold", Some(1));
    finds(&rt, &profiles, b"golden", None);
    finds(&rt, &profiles, b"", None);
    assert_same(&rt, &profiles.count(), &2);
    Ok(())
}

// Four packets pass. None where a book is full.
fn pass_four(profiles: &mut Profiles) -> Option<()>
    requires { length profiles.old.books ≡ 2 }
    ensures { length profiles.new.books ≡ 2 }
{
    pass(profiles, 0, true, 100)?;
    pass(profiles, 1, true, 200)?;
    pass(profiles, 1, false, 84)?;
    pass(profiles, 1, true, u16::MAX)
}

// Four packets pass, and the last one is taken off.
fn pass_and_take_off(profiles: &mut Profiles) -> Result<(), Fail>
    requires { length profiles.old.books ≡ 2 }
    ensures { length profiles.new.books ≡ 2 }
{
    pass_four(profiles).ok_or("full")?;
    take_off(profiles, 1, u16::MAX).ok_or("empty")?;
    Ok(())
}

const BRONZE: Book = Book {
    input: 100,
    output: 0,
    input_packets: 1,
    output_packets: 0,
};

const GOLD: Book = Book {
    input: 200,
    output: 84,
    input_packets: 1,
    output_packets: 1,
};

#[test]
fn a_book_counts_what_passed_and_was_not_taken_off(rt: HostRuntime) -> Result<(), Fail> {
    let mut profiles = bronze_and_gold(rt.alloc())?;
    pass_and_take_off(&mut profiles)?;
    assert_same(&rt, &profiles.book(0), &BRONZE);
    assert_same(&rt, &profiles.book(1), &GOLD);
    Ok(())
}
