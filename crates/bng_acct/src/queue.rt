//! The records that are open, by their numbers, and those of them that were not handed out, in their order.
ghost use Rattle.std.specs.Prelude.{◌≡◌, ◌<◌, ◌≤◌, ◌+◌, ◌*◌, ◌^◌, ◌++◌, ◌∷◌, ◌↔◌, [], None, Some, IfOk, IfSome, IfNone, is_some, if◌then◌else◌, false, true, length};
ghost use Rattle.std.specs.Option.{option_copied};
ghost use Rattle.bng_acct.specs.declared.sheet.Sheet.{Sheet};
ghost use Rattle.bng_acct.specs.Queue.{sheet_at, count, without, Sets, HandsOut, AreWaiting, AllBelow};
ghost use Rattle.bng_acct.specs.Sheets.{AreUsed};

use crate::line::NumberList;
use crate::rules::SpoolError;
use crate::sheet::Sheet;
use crate::sheets::Sheets;
use std::alloc::Global;
use std::marker::Model;

/// The open records. All their memory is taken by `open`.
#[derive(Drop)]
pub(crate) struct RecordQueue {
    sheets: Sheets,
    waiting: NumberList,
}

impl Model for RecordQueue {
    ghost use Rattle.bng_acct.specs.Queue.{Open, IsQueue};

    ghost Value = { Open };

    ghost view = { λ q. record { sheets = q.sheets.places; waiting = q.waiting.numbers; most = q.sheets.room } };

    ghost invariant = { λ q. IsQueue q.sheets.places q.waiting.numbers q.sheets.room q.waiting.room };
}

impl RecordQueue {
    pub(crate) fn open(alloc: Global, most: usize) -> Result<RecordQueue, SpoolError>
        requires { most < 2 ^ 32 }
        ensures { IfOk result (λ q. q ≡ record { sheets = []; waiting = []; most = most }) }
    {
        let Ok(sheets) = Sheets::open(alloc, most) else {
            return Err(SpoolError::OutOfMemory);
        };
        let Ok(waiting) = NumberList::open(alloc, most as u32) else {
            return Err(SpoolError::OutOfMemory);
        };
        Ok(RecordQueue { sheets, waiting })
    }

    /// The record with this number, if it is open.
    pub(crate) fn get(&self, number: u32) -> Option<&Sheet>
        ensures { option_copied result ≡ sheet_at self.now.sheets number }
    {
        self.sheets.get(number)
    }

    /// A number above those of all records.
    pub(crate) fn bound(&self) -> u32
        ensures below { AllBelow self.now.sheets result }
        ensures waiting { AreWaiting self.now.sheets self.now.waiting }
    {
        self.sheets.room() as u32
    }

    /// Adds a record, which waits from then on, and answers its number, the lowest that no open one has.
    pub(crate) fn add(&mut self, sheet: Sheet) -> u32
        requires room { count self.old.sheets < self.old.most }
        requires fresh { sheet.handed ≡ false }
        ensures fresh { sheet_at self.old.sheets result ≡ None }
        ensures lowest { AreUsed self.old.sheets 0 result }
        ensures sets { Sets self.old.sheets self.new.sheets result (Some sheet) }
        ensures counts { count self.new.sheets ≡ count self.old.sheets + 1 }
        ensures waiting { self.new.waiting ≡ self.old.waiting ++ result ∷ [] }
        ensures most { self.new.most ≡ self.old.most }
    {
        let number = self.sheets.put(sheet);
        self.waiting.push(number);
        number
    }

    /// Whether a record waits.
    pub(crate) fn waits(&self) -> bool
        ensures { (result ≡ false) ↔ (self.now.waiting ≡ []) }
    {
        self.waiting.first().is_some()
    }

    /// The number of the record that waited longest, which waits no longer.
    pub(crate) fn hand_out(&mut self) -> Option<u32>
        ensures some { IfSome result (λ n. HandsOut self.old self.new n) }
        ensures none { (result ≡ None) ↔ (self.old.waiting ≡ []) }
        ensures kept { IfNone result (self.new ≡ self.old) }
    {
        let number = self.waiting.first()?;
        self.waiting.remove(number);
        self.sheets.mark_handed(number);
        Some(number)
    }

    /// Takes a record out.
    pub(crate) fn remove(&mut self, number: u32) -> Option<Sheet>
        ensures value { result ≡ sheet_at self.old.sheets number }
        ensures sets { Sets self.old.sheets self.new.sheets number None }
        ensures counts { count self.new.sheets + (if is_some result then 1 else 0) ≡ count self.old.sheets }
        ensures waiting { self.new.waiting ≡ without number self.old.waiting }
        ensures most { self.new.most ≡ self.old.most }
        ensures kept { IfNone result (self.new ≡ self.old) }
    {
        let sheet = self.sheets.take(number)?;
        if sheet.handed {
            return Some(sheet);
        }
        self.waiting.remove(number);
        Some(sheet)
    }
}
