ghost use Rattle.std.specs.Prelude.{◌≡◌, ◌↔◌, IfOk};
ghost use Rattle.bng_words.specs.Words.{texts};
ghost use Rattle.bng_words.specs.Meaning.{Meaning, Says, meaning_of};
ghost use Rattle.bng_words.specs.Rows.{Commands};

use crate::command::{Command, WordsError};
use crate::line::is_command;
use crate::matches::command_of;
use crate::program::program;
use clap::error::ErrorKind;
use std::alloc::Global;

/// The command that the words are, without the program's name. Refused comes exactly where they are none, and OutOfMemory
/// where there is no memory to read them.
pub fn read(alloc: Global, words: &Vec<String>) -> Result<Command, WordsError>
    ensures command { IfOk result (λ c. Says (texts words.now.items) (meaning_of c)) }
    ensures refused { (result ≡ Err WordsError.Refused) ↔ ((m : Meaning) → ¬ Says (texts words.now.items) m) }
{
    if is_command(words.as_slice()) {
        parse(alloc, words.as_slice())
    } else {
        Err(WordsError::Refused)
    }
}

// What `clap` reads. Of words that are a command it reads what they say, or wants memory.
fn parse(alloc: Global, words: &[String]) -> Result<Command, WordsError>
    ensures { (m : Meaning) → Says (texts words.now) m → Commands m result }
{
    let Ok(program) = program(alloc) else {
        return Err(WordsError::OutOfMemory);
    };
    match program.try_get_matches_from(words) {
        Ok(matches) => command_of(alloc, &matches),
        Err(error) => Err(cause_of(error.kind())),
    }
}

// Why no command was read, by the kind of `clap`'s error.
fn cause_of(kind: ErrorKind) -> WordsError
    ensures { kind ≡ ErrorKind.OutOfMemory → result ≡ WordsError.OutOfMemory }
{
    match kind {
        ErrorKind::OutOfMemory => WordsError::OutOfMemory,
        _ => WordsError::Refused,
    }
}
