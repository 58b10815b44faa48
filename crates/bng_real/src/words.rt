//! The words of the command line.
ghost use Rattle.std.specs.Prelude.{◌≡◌, ℕ, List, Option, None, IfOk, IfSome, drop};
ghost use Rattle.bng_real.specs.Words.{texts};

use std::alloc::{AllocError, Global};
use std::env;
use std::io::ErrorKind;
use std::rt::Env;

/// A command line. It may tell its words; the system's does not.
pub trait CommandLine {
    ghost given: { Self → Option (List (List ℕ)) };

    /// Its words, the program's name first; none where one of them is not UTF-8.
    fn words(&self, alloc: Global) -> Result<Vec<String>, AllocError>
        ensures gives { IfOk result (λ words. IfSome (given self.now) (λ line. texts words.items ≡ line)) };
}

/// The command line of the program's runtime.
impl<R: Env + AllocGlobal> CommandLine for &R {
    ghost given = { λ _. None };

    fn words(&self, alloc: Global) -> Result<Vec<String>, AllocError> {
        match env::args(*self) {
            Ok(all) => all.collect(alloc),
            Err(error) if error.kind() == ErrorKind::OutOfMemory => Err(AllocError),
            Err(_) => Ok(Vec::new(alloc)),
        }
    }
}

/// The words after the program's name, each as it stands; none where one of them is not UTF-8, which is no command.
pub fn words_of<L: CommandLine + Drop>(line: L, alloc: Global) -> Result<Vec<String>, AllocError>
    ensures { IfOk result (λ words. IfSome (L.given line) (λ told. texts words.items ≡ drop 1 told)) }
{
    let mut words = line.words(alloc)?;
    if !words.is_empty() {
        let _ = words.remove(0);
    }
    Ok(words)
}
