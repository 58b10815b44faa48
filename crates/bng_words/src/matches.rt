ghost use Rattle.std.specs.Prelude.{◌≡◌, IfOk, IfErr, option_map, string_bytes};
ghost use Rattle.clap.specs.Words.{found_of, rows_of, subcommand_rows_of};
ghost use Rattle.bng_words.specs.declared.command_name.CommandName.{CommandName};
ghost use Rattle.bng_words.specs.Meaning.{Meaning};
ghost use Rattle.bng_words.specs.Rows.{Commands, HasValues, SaysBy};

use crate::command::{Command, WordsError};
use crate::command_name::{CommandName, command_named};
use clap::ArgMatches;
use std::alloc::Global;

/// The command of these matches, with names of its own.
pub(crate) fn command_of(alloc: Global, matches: &ArgMatches<'_>) -> Result<Command, WordsError>
    ensures { (m : Meaning) → SaysBy (subcommand_rows_of matches.now) m → Commands m result }
{
    let Some((word, given)) = matches.subcommand() else {
        return Err(WordsError::Refused);
    };
    match command_named(word) {
        Some(CommandName::Serve) => serve(alloc, given),
        Some(CommandName::Check) => check(alloc, given),
        Some(CommandName::Exercise) => exercise(given),
        Some(CommandName::Audit) => audit(alloc, given),
        None => Err(WordsError::Refused),
    }
}

fn serve(alloc: Global, given: &ArgMatches<'_>) -> Result<Command, WordsError>
    ensures { (m : Meaning) → HasValues CommandName.Serve (rows_of (found_of given.now)) m → Commands m result }
{
    let Some(configuration) = given.get_str("config") else {
        return Err(WordsError::Refused);
    };
    let Some(rounds) = given.get_one::<u64>("rounds") else {
        return Err(WordsError::Refused);
    };
    let configuration = owned(alloc, configuration)?;
    let trace = owned_if(alloc, given.get_str("trace"))?;
    Ok(Command::Serve {
        configuration,
        trace,
        rounds,
    })
}

fn check(alloc: Global, given: &ArgMatches<'_>) -> Result<Command, WordsError>
    ensures { (m : Meaning) → HasValues CommandName.Check (rows_of (found_of given.now)) m → Commands m result }
{
    let Some(configuration) = given.get_str("config") else {
        return Err(WordsError::Refused);
    };
    let configuration = owned(alloc, configuration)?;
    Ok(Command::Check { configuration })
}

fn exercise(given: &ArgMatches<'_>) -> Result<Command, WordsError>
    ensures { (m : Meaning) → HasValues CommandName.Exercise (rows_of (found_of given.now)) m → Commands m result }
{
    let Some(subscribers) = given.get_one::<u64>("subscribers") else {
        return Err(WordsError::Refused);
    };
    let Some(workers) = given.get_one::<u64>("workers") else {
        return Err(WordsError::Refused);
    };
    Ok(Command::Exercise {
        subscribers,
        workers,
    })
}

fn audit(alloc: Global, given: &ArgMatches<'_>) -> Result<Command, WordsError>
    ensures { (m : Meaning) → HasValues CommandName.Audit (rows_of (found_of given.now)) m → Commands m result }
{
    let Some(trace) = given.get_str("file") else {
        return Err(WordsError::Refused);
    };
    let trace = owned(alloc, trace)?;
    Ok(Command::Audit { trace })
}

fn owned(alloc: Global, text: &str) -> Result<String, WordsError>
    ensures ok { IfOk result (λ s. string_bytes s ≡ text.now) }
    ensures err { IfErr result (λ e. e ≡ WordsError.OutOfMemory) }
{
    match String::from_str(alloc, text) {
        Ok(text) => Ok(text),
        Err(_) => Err(WordsError::OutOfMemory),
    }
}

fn owned_if(alloc: Global, text: Option<&str>) -> Result<Option<String>, WordsError>
    ensures ok { IfOk result (λ o. option_map (λ s. string_bytes s) o ≡ option_map (λ t. t.now) text.entry) }
    ensures err { IfErr result (λ e. e ≡ WordsError.OutOfMemory) }
{
    match text {
        Some(text) => Ok(Some(owned(alloc, text)?)),
        None => Ok(None),
    }
}
