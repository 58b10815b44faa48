ghost use Rattle.std.specs.Prelude.{◌≡◌, ◌<◌, ◌≤◌, ◌-◌, [], ◌∷◌, Some, ◌&&◌, ◌↔◌, not, nat_lt, length, position, is_some, is_ok, IfOk, IfSome, OnErr, IsErrOf, IsTrue, IsSome};
ghost use Rattle.bng_base.specs.Causes.{HasCause};
ghost use Rattle.bng_base.specs.Told.{Grows};
ghost use Rattle.bng_plant.specs.Failing.{goes_on, fresh};
ghost use Rattle.bng_plant.specs.MemoryFile.{is_named, name_at, contents_at};
ghost use Rattle.bng_plant.specs.Calls.{reads};

use crate::answers::FileError;
use crate::failing::{Failing, has_room};
use crate::memory_file::MemoryFile;
use crate::outside::Files;
use std::alloc::{AllocError, Global};

/// Files in memory: a read answers a copy.
#[derive(Drop)]
pub struct MemoryFiles {
    files: Vec<MemoryFile>,
    reads: Vec<usize>,
    failing: Failing,
}

impl MemoryFiles {
    ghost use Rattle.bng_plant.specs.MemoryFiles.{told_by, held_by};

    /// These files; of two with one name the first is read. The reads with the numbers of `fail_at` fail, the first
    /// being 1, and so do reads of an unknown name. `room` is how many reads it tells: one past it fails.
    pub fn new(
        alloc: Global,
        files: Vec<MemoryFile>,
        fail_at: Vec<u64>,
        room: usize,
    ) -> Result<MemoryFiles, AllocError>
        ensures told { IfOk result (λ f. told_by f ≡ record { reads = Some []; faults = 0 }) }
        ensures held { IfOk result (λ f. held_by f ≡ record { calls = fresh fail_at.items; files = files.items; reads = room }) }
    {
        Ok(MemoryFiles {
            files,
            reads: Vec::with_capacity(alloc, room)?,
            failing: Failing::new(fail_at),
        })
    }

    /// How many reads failed.
    pub fn faults(&self) -> u64
        ensures { (told_by self.now).faults ≡ result }
    {
        self.failing.faults
    }
}

/// Looks for the first file of this name.
fn first_named(files: &[MemoryFile], name: &str) -> Option<usize>
    ensures { result ≡ position (is_named name.now) files.now }
{
    files.iter().position(|file| file.name.as_str() == name)
}

/// The place of the first file of this name.
#[tactic(auto, using(crate::proofs::FileLaws::named_there))]
fn place_of(files: &[MemoryFile], name: &str) -> Option<usize>
    ensures found { result ≡ position (is_named name.now) files.now }
    ensures named { IfSome result (λ place. name_at files.now place ≡ name.now) }
{
    first_named(files, name)
}

/// What the file at this place contains.
#[tactic(auto, using(crate::proofs::FileLaws::contents_there))]
fn contents(files: &[MemoryFile], place: usize) -> &[u8]
    requires { place < length files.now }
    ensures { result.now ≡ contents_at files.now place }
{
    files[place].contents.as_slice()
}

impl Files for MemoryFiles {
    ghost use Rattle.bng_plant.specs.MemoryFiles.{told_by, held_by, place, text_of, after_read};

    ghost told = { told_by };

    #[tactic(auto, using(std::proofs::lemmas::List::map_push))]
    fn read(&mut self, alloc: Global, name: &str) -> Result<Vec<u8>, FileError>
        ensures reads { IfOk result (λ text. Grows (told_by self.old).reads (told_by self.new).reads (reads name.now text.items)) }
        ensures kept { OnErr result ((told_by self.new).reads ≡ (told_by self.old).reads) }
        ensures cause { HasCause (told_by self.old).faults (told_by self.new).faults (IsErrOf result FileError.Failed) }
        // The text of the first file of this name.
        ensures text { IfOk result (λ text. text_of (held_by self.old) name.now ≡ Some text.items) }
        // It answers Failed exactly where it is to fail, goes past its room, or no file has the name.
        ensures failed { IsErrOf result FileError.Failed ↔ IsTrue (not (goes_on (held_by self.old).calls (nat_lt 0 (held_by self.old).reads && is_some (place (held_by self.old) name.now)))) }
        ensures unfailing { (held_by self.old).calls.fail_at ≡ [] → 0 < (held_by self.old).reads → IsSome (place (held_by self.old) name.now) → ¬ IsErrOf result FileError.Failed }
        ensures uncounted { ¬ IsErrOf result FileError.Failed → (told_by self.new).faults ≡ (told_by self.old).faults }
        ensures held { held_by self.new ≡ after_read (is_ok result) (held_by self.old) }
    {
        let room = has_room(&self.reads);
        let found = place_of(&self.files, name);
        if !self.failing.goes_on(room && found.is_some()) {
            return Err(FileError::Failed);
        }
        let Some(place) = found else {
            return Err(FileError::Failed);
        };
        let contents = contents(&self.files, place);
        let Ok(text) = Vec::from_slice(alloc, contents) else {
            return Err(FileError::OutOfMemory);
        };
        self.reads.push_reserved(place);
        Ok(text)
    }
}
