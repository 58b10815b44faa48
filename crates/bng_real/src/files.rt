//! The system's files.
ghost use Rattle.std.specs.Prelude.{◌≡◌, None, IfOk, IfSome, take};

use bng_plant::{FileError, Files};
use std::alloc::Global;
use std::fs::Files as SystemFiles;
use std::io::{ErrorKind, Read};
use std::{fs, io};

/// Reads files whole, as long as they have at most so many octets. Of a longer one the front is read, so that no file,
/// as /dev/zero, takes all memory: let `most` be more than any reader takes.
#[derive(Drop)]
pub struct RealFiles<'a, F: SystemFiles> {
    files: &'a F,
    most: u64,
    faults: u64,
}

impl<'a, F: SystemFiles> RealFiles<'a, F> {
    pub fn new(files: &'a F, most: u64) -> RealFiles<'a, F>
        ensures limit { result.most ≡ most }
        ensures faults { result.faults ≡ 0 }
    {
        RealFiles {
            files,
            most,
            faults: 0,
        }
    }

    /// How many reads failed, but for want of memory.
    pub fn faults(&self) -> u64
        ensures { self.now.faults ≡ result }
    {
        self.faults
    }
}

impl<F: SystemFiles> Files for RealFiles<'_, F> {
    ghost told = { λ files. record { reads = None; faults = files.faults } };

    fn read(&mut self, alloc: Global, name: &str) -> Result<Vec<u8>, FileError> {
        match read_front(self.files, alloc, name, self.most) {
            Ok(text) => Ok(text),
            Err(error) if error.kind() == ErrorKind::OutOfMemory => Err(FileError::OutOfMemory),
            Err(_) => {
                self.faults = self.faults.saturating_add(1);
                Err(FileError::Failed)
            }
        }
    }
}

fn read_front<F: SystemFiles>(
    files: &F,
    alloc: Global,
    name: &str,
    most: u64,
) -> io::Result<Vec<u8>> {
    front_of(fs::open(files, name)?, alloc, most)
}

/// What a reader gives, of more than so many octets the first ones.
#[tactic(auto, using(crate::proofs::Known::front_known))]
fn front_of<R: Read + Drop>(reader: R, alloc: Global, most: u64) -> io::Result<Vec<u8>>
    ensures { IfOk result (λ text. IfSome (R.remaining reader) (λ octets. text.items ≡ take most octets)) }
{
    let mut text = Vec::new(alloc);
    reader.take(most).read_to_end(&mut text)?;
    Ok(text)
}
