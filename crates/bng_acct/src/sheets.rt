//! Open records by number. A new one gets the lowest number that no open one has.
ghost use Rattle.std.specs.Prelude.{◌≡◌, ◌<◌, ◌≤◌, ◌+◌, ◌*◌, ◌^◌, ℕ, [], None, Some, IfOk, IfSome, IfNone, is_some, not, if◌then◌else◌, true, length, max, vec_capacity};
ghost use Rattle.std.specs.Option.{option_copied, option_map};
ghost use Rattle.bng_acct.specs.declared.sheet.Sheet.{Sheet};
ghost use Rattle.bng_acct.specs.Queue.{sheet_at, count, Sets};
ghost use Rattle.bng_acct.specs.Sheets.{AreUsed, AreFull, handed};

use crate::sheet::Sheet;
use std::alloc::{AllocError, Global};
use std::marker::Model;

// How many numbers stand in a row.
const ROW: usize = 64;

/// Open records, each at the place of its number, and for how many there is room. A row that is marked has no free number.
#[derive(Drop)]
pub(crate) struct Sheets {
    places: Vec<Option<Sheet>>,
    full: Vec<bool>,
    room: usize,
}

impl Model for Sheets {
    ghost use Rattle.bng_acct.specs.Sheets.{Table, IsTable};
    ghost use Rattle.std.specs.Prelude.{vec_capacity};

    ghost Value = { Table };

    ghost view = { λ s. record { places = s.places.items; room = s.room } };

    ghost invariant = { λ s. IsTable s.places.items s.full.items s.room (vec_capacity s.places) };
}

// Whether no record has a number.
fn is_free(places: &[Option<Sheet>], number: usize) -> bool
    ensures { result ≡ not (is_some (sheet_at places.now number)) }
{
    match places.get(number) {
        Some(Some(_)) => false,
        Some(None) => true,
        None => true,
    }
}

// The lowest number of a row that no record has.
fn free_in(places: &[Option<Sheet>], row: usize) -> Option<usize>
    requires { row < 2 ^ 32 }
    ensures free { IfSome result (λ n. sheet_at places.now n ≡ None) }
    ensures lowest { IfSome result (λ n. AreUsed places.now (64 * row) n) }
    ensures none { IfNone result (AreUsed places.now (64 * row) (64 * (row + 1))) }
{
    for number in ROW * row..ROW * (row + 1) {
        if is_free(places, number) {
            return Some(number);
        }
    }
    None
}

// The lowest number that no record has. Each row that is looked through and has none is marked.
fn lowest_free(places: &Vec<Option<Sheet>>, full: &mut Vec<bool>) -> usize
    requires marked { AreFull places.now.items full.old.items }
    requires few { length full.old.items < 2 ^ 32 }
    requires room { count places.now.items < 64 * length full.old.items }
    ensures free { sheet_at places.now.items result ≡ None }
    ensures lowest { AreUsed places.now.items 0 result }
    ensures marked { AreFull places.now.items full.new.items }
    ensures rows { length full.new.items ≡ length full.old.items }
{
    for row in 0..full.len() {
        if !full[row] {
            match free_in(places.as_slice(), row) {
                Some(number) => return number,
                None => full[row] = true,
            }
        }
    }
    unreachable!()
}

// A record in a place that is empty, or in one more behind the others.
fn fill(places: &mut Vec<Option<Sheet>>, number: usize, sheet: Sheet)
    requires free { sheet_at places.old.items number ≡ None }
    requires next { number ≤ length places.old.items }
    requires room { number < vec_capacity places.old }
    ensures sets { Sets places.old.items places.new.items number (Some sheet) }
    ensures counts { count places.new.items ≡ count places.old.items + 1 }
    ensures length { length places.new.items ≡ max (length places.old.items) (number + 1) }
    ensures capacity { vec_capacity places.new ≡ vec_capacity places.old }
{
    if number == places.len() {
        places.push_reserved(None);
    }
    places[number] = Some(sheet);
}

// The record in a place, if there is one, is handed out.
fn hand(place: &mut Option<Sheet>)
    ensures { place.new ≡ option_map handed place.old }
{
    if let Some(sheet) = place {
        sheet.handed = true;
    }
}

impl Sheets {
    /// No record, and room for so many.
    pub(crate) fn open(alloc: Global, room: usize) -> Result<Sheets, AllocError>
        requires { room < 2 ^ 32 }
        ensures { IfOk result (λ s. s ≡ record { places = []; room = room }) }
    {
        Ok(Sheets {
            places: Vec::with_capacity(alloc, room)?,
            full: vec![in alloc; false; room / ROW + 1]?,
            room,
        })
    }

    /// For how many records there is room.
    pub(crate) fn room(&self) -> usize
        ensures { result ≡ self.now.room }
    {
        self.room
    }

    /// The record with a number, if it is open.
    pub(crate) fn get(&self, number: u32) -> Option<&Sheet>
        ensures { option_copied result ≡ sheet_at self.now.places number }
    {
        match self.places.get(number as usize) {
            Some(Some(sheet)) => Some(sheet),
            Some(None) => None,
            None => None,
        }
    }

    /// Marks a record as handed out.
    pub(crate) fn mark_handed(&mut self, number: u32)
        ensures sets { (x : Sheet) → sheet_at self.old.places number ≡ Some x → Sets self.old.places self.new.places number (Some (record x { handed = true })) }
        ensures counts { count self.new.places ≡ count self.old.places }
        ensures room { self.new.room ≡ self.old.room }
    {
        if (number as usize) < self.places.len() {
            hand(&mut self.places[number as usize]);
        }
    }

    /// Adds a record, under the lowest number that no open one has.
    pub(crate) fn put(&mut self, sheet: Sheet) -> u32
        requires { count self.old.places < self.old.room }
        ensures free { sheet_at self.old.places result ≡ None }
        ensures lowest { AreUsed self.old.places 0 result }
        ensures below { result < self.old.room }
        ensures sets { Sets self.old.places self.new.places result (Some sheet) }
        ensures counts { count self.new.places ≡ count self.old.places + 1 }
        ensures room { self.new.room ≡ self.old.room }
    {
        let number = lowest_free(&self.places, &mut self.full);
        fill(&mut self.places, number, sheet);
        number as u32
    }

    /// Takes a record out. Its number is free again.
    pub(crate) fn take(&mut self, number: u32) -> Option<Sheet>
        ensures value { result ≡ sheet_at self.old.places number }
        ensures sets { Sets self.old.places self.new.places number None }
        ensures counts { count self.new.places + (if is_some result then 1 else 0) ≡ count self.old.places }
        ensures room { self.new.room ≡ self.old.room }
        ensures kept { IfNone result (self.new ≡ self.old) }
    {
        let place = number as usize;
        if place >= self.places.len() {
            return None;
        }
        let sheet = self.places[place].take()?;
        self.full[place / ROW] = false;
        Some(sheet)
    }
}
