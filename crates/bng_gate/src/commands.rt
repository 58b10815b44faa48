//! The top call.
ghost use Rattle.std.specs.Prelude.{◌≡◌, ◌≤◌, ◌⊎◌, ℕ, List, IsSome, None};
ghost use Rattle.bng_base.specs.Told.{Grows};
ghost use Rattle.bng_plant.specs.Calls.{reads};
ghost use Rattle.bng_config.specs.declared.config.Config.{Config as Settings};
ghost use Rattle.bng_config.specs.declared.fault.Fault.{Fault as Rule};
ghost use Rattle.bng_config.specs.Configuration.{HasFault};
ghost use Rattle.bng_words.specs.Words.{texts as words_of};
ghost use Rattle.bng_words.specs.Meaning.{Meaning, Says, meaning_of, serve as serving, exercise as exercising};
ghost use Rattle.bng_gate.specs.Commands.{CommandEnds, UsageEnds, Outcome, IsCarriedOut, IsInRange, refusal_for};
ghost use Rattle.bng_gate.specs.Exercise.{Exercised, SafelyExercised};
ghost use Rattle.bng_gate.specs.Headline.{Headline, IsQuiet, WasSafe};
ghost use Rattle.bng_gate.specs.Run.{Prepares, IsUnfailed, IsFaultless};

use crate::checking::check;
use crate::exercise::exercise;
use crate::texts::Refusal;
use crate::top::{refuse, serve_file};
use bng_plant::{Clock, Entropy, Files, Gate, Plant, Sink, Trace};
use bng_words::{Command, WordsError};
use std::alloc::Global;
use std::sync::Wait;
use std::thread::Threads;

// Does what a command says, and answers the status. A trace file is neither written nor judged yet.
fn carry_out<R, P: Plant, C: Clock, E: Entropy, F: Files, T: Trace, O: Sink, X: Sink, G>(
    rt: &R,
    alloc: Global,
    command: Command,
    files: &mut F,
    plant: &mut P,
    clock: &mut C,
    entropy: &mut E,
    trace: &mut T,
    out: &mut O,
    err: &mut X,
    gate: &G,
) -> u8
where
    R: Threads + Wait + Sync,
    G: Gate + Sync,
    requires { IsInRange (meaning_of command) }
    ensures { CommandEnds (meaning_of command)
        (record { files = F.told files.old; plant = P.told plant.old; clock = C.told clock.old; entropy = E.told entropy.old; trace = T.told trace.old; out = O.told out.old; err = X.told err.old })
        (record { files = F.told files.new; plant = P.told plant.new; clock = C.told clock.new; entropy = E.told entropy.new; trace = T.told trace.new; out = O.told out.new; err = X.told err.new })
        result }
{
    match command {
        Command::Serve {
            configuration,
            trace: None,
            rounds,
        } => serve_file(
            rt,
            alloc,
            configuration.as_str(),
            rounds,
            files,
            plant,
            clock,
            entropy,
            trace,
            out,
            err,
            gate,
        ),
        Command::Check { configuration } => check(alloc, configuration.as_str(), files, out, err),
        Command::Exercise {
            subscribers,
            workers,
        } => exercise(
            rt,
            alloc,
            subscribers as u32,
            workers as u16,
            trace,
            out,
            err,
            gate,
        ),
        Command::Serve { trace: Some(_), .. } | Command::Audit { .. } => {
            refuse(err, Refusal::Usage)
        }
    }
}

// Why words that were not read are refused.
fn refusal_of(error: WordsError) -> Refusal
    ensures { result ≡ refusal_for error }
{
    match error {
        WordsError::Refused => Refusal::Usage,
        WordsError::OutOfMemory => Refusal::OutOfMemory,
    }
}

// Reads the words and does what they say, and answers the status.
fn obey<R, P: Plant, C: Clock, E: Entropy, F: Files, T: Trace, O: Sink, X: Sink, G>(
    rt: &R,
    alloc: Global,
    words: &Vec<String>,
    files: &mut F,
    plant: &mut P,
    clock: &mut C,
    entropy: &mut E,
    trace: &mut T,
    out: &mut O,
    err: &mut X,
    gate: &G,
) -> u8
where
    R: Threads + Wait + Sync,
    G: Gate + Sync,
    ensures { Outcome (words_of words.now.items)
        (record { files = F.told files.old; plant = P.told plant.old; clock = C.told clock.old; entropy = E.told entropy.old; trace = T.told trace.old; out = O.told out.old; err = X.told err.old })
        (record { files = F.told files.new; plant = P.told plant.new; clock = C.told clock.new; entropy = E.told entropy.new; trace = T.told trace.new; out = O.told out.new; err = X.told err.new })
        result }
{
    match bng_words::read(alloc, words) {
        Ok(command) => carry_out(
            rt, alloc, command, files, plant, clock, entropy, trace, out, err, gate,
        ),
        Err(error) => refuse(err, refusal_of(error)),
    }
}

/// The program: reads the words, serves, and answers the status with which it ends. The words stand without the
/// program's name.
pub fn run<R, P: Plant, C: Clock, E: Entropy, F: Files, T: Trace, O: Sink, X: Sink, G>(
    rt: &R,
    alloc: Global,
    words: &Vec<String>,
    files: &mut F,
    plant: &mut P,
    clock: &mut C,
    entropy: &mut E,
    trace: &mut T,
    out: &mut O,
    err: &mut X,
    gate: &G,
) -> u8
where
    R: Threads + Wait + Sync,
    G: Gate + Sync,

    // How the command ends that the words are: what each status says of it. A configuration is read once, in the file that the words name.
    ensures ends { (command : Meaning) → Says (words_of words.now.items) command → CommandEnds command
        (record { files = F.told files.old; plant = P.told plant.old; clock = C.told clock.old; entropy = E.told entropy.old; trace = T.told trace.old; out = O.told out.old; err = X.told err.old })
        (record { files = F.told files.new; plant = P.told plant.new; clock = C.told clock.new; entropy = E.told entropy.new; trace = T.told trace.new; out = O.told out.new; err = X.told err.new })
        result }

    // Words that are no command give status 1, if the line can be written, and nothing else is touched.
    ensures no_command { ((command : Meaning) → ¬ Says (words_of words.now.items) command) → UsageEnds
        (record { files = F.told files.old; plant = P.told plant.old; clock = C.told clock.old; entropy = E.told entropy.old; trace = T.told trace.old; out = O.told out.old; err = X.told err.old })
        (record { files = F.told files.new; plant = P.told plant.new; clock = C.told clock.new; entropy = E.told entropy.new; trace = T.told trace.new; out = O.told out.new; err = X.told err.new })
        result }

    // Where a configuration was served, with status 0 or 6: no two live sessions ever held one address; the packets sent, their circuits and
    // addresses; each term has its Stop, and the Stops say exactly what was sent; and the octets and drops printed. With status 0 each Stop
    // was acknowledged; with status 6 the lines of those that were not were written.
    ensures headline { (file : List ℕ) (rounds : ℕ) → Says (words_of words.now.items) (serving file None rounds) → (result ≡ 0) ⊎ (result ≡ 6)
        → (config : Settings) × Prepares file (F.told files.old) (F.told files.new) config × Headline config rounds result
        (record { files = F.told files.old; plant = P.told plant.old; clock = C.told clock.old; entropy = E.told entropy.old; trace = T.told trace.old; out = O.told out.old; err = X.told err.old })
        (record { files = F.told files.new; plant = P.told plant.new; clock = C.told clock.new; entropy = E.told entropy.new; trace = T.told trace.new; out = O.told out.new; err = X.told err.new }) }

    // With status 4 or 5: nothing was heard or sent, or what the headline says of the turns holds of those that were made.
    ensures safe { (file : List ℕ) (rounds : ℕ) → Says (words_of words.now.items) (serving file None rounds) → (result ≡ 4) ⊎ (result ≡ 5) → IsQuiet
        (record { files = F.told files.old; plant = P.told plant.old; clock = C.told clock.old; entropy = E.told entropy.old; trace = T.told trace.old; out = O.told out.old; err = X.told err.old })
        (record { files = F.told files.new; plant = P.told plant.new; clock = C.told clock.new; entropy = E.told entropy.new; trace = T.told trace.new; out = O.told out.new; err = X.told err.new })
        ⊎ WasSafe file rounds
        (record { files = F.told files.old; plant = P.told plant.old; clock = C.told clock.old; entropy = E.told entropy.old; trace = T.told trace.old; out = O.told out.old; err = X.told err.old })
        (record { files = F.told files.new; plant = P.told plant.new; clock = C.told clock.new; entropy = E.told entropy.new; trace = T.told trace.new; out = O.told out.new; err = X.told err.new }) }

    // An exercise with status 0 or 6: the trace was told the rounds of a run from the opening state of an exercise's configuration, and each
    // number of the line printed is its sum over these rounds.
    ensures exercised { (subscribers workers : ℕ) → Says (words_of words.now.items) (exercising subscribers workers) → (result ≡ 0) ⊎ (result ≡ 6) → Exercised subscribers workers result
        (record { files = F.told files.old; plant = P.told plant.old; clock = C.told clock.old; entropy = E.told entropy.old; trace = T.told trace.old; out = O.told out.old; err = X.told err.old })
        (record { files = F.told files.new; plant = P.told plant.new; clock = C.told clock.new; entropy = E.told entropy.new; trace = T.told trace.new; out = O.told out.new; err = X.told err.new }) }

    // An exercise with whatever status: the trace was told nothing, or what the headline says of the turns holds of
    // those that were made, and the trace was told their rounds.
    ensures safely_exercised { (subscribers workers : ℕ) → Says (words_of words.now.items) (exercising subscribers workers) → (T.told trace.new ≡ T.told trace.old) ⊎ SafelyExercised workers
        (record { files = F.told files.old; plant = P.told plant.old; clock = C.told clock.old; entropy = E.told entropy.old; trace = T.told trace.old; out = O.told out.old; err = X.told err.old })
        (record { files = F.told files.new; plant = P.told plant.new; clock = C.told clock.new; entropy = E.told entropy.new; trace = T.told trace.new; out = O.told out.new; err = X.told err.new }) }

    // Status 4 comes where no read, seed or note failed.
    ensures unfailed { result ≡ 4 → IsUnfailed
        (record { files = F.told files.old; plant = P.told plant.old; clock = C.told clock.old; entropy = E.told entropy.old; trace = T.told trace.old; out = O.told out.old; err = X.told err.old })
        (record { files = F.told files.new; plant = P.told plant.new; clock = C.told clock.new; entropy = E.told entropy.new; trace = T.told trace.new; out = O.told out.new; err = X.told err.new }) }

    // A configuration that was read and has a fault gives status 2, if there is memory and the line can be written.
    ensures faulty { IsSome (F.told files.old).reads → (name text : List ℕ) (fault : Rule) → Grows (F.told files.old).reads (F.told files.new).reads (reads name text) → HasFault text fault
        → (result ≡ 2) ⊎ (result ≡ 4) ⊎ (result ≡ 5) }

    // Where no count rose, a command of a configuration without a fault gives status 0, or 6 where a Stop was not acknowledged, if there is
    // memory.
    ensures complete { (command : Meaning) → IsCarriedOut command → Says (words_of words.now.items) command
        → ((name text : List ℕ) (fault : Rule) → Grows (F.told files.old).reads (F.told files.new).reads (reads name text) → ¬ HasFault text fault)
        → IsFaultless
        (record { files = F.told files.old; plant = P.told plant.old; clock = C.told clock.old; entropy = E.told entropy.old; trace = T.told trace.old; out = O.told out.old; err = X.told err.old })
        (record { files = F.told files.new; plant = P.told plant.new; clock = C.told clock.new; entropy = E.told entropy.new; trace = T.told trace.new; out = O.told out.new; err = X.told err.new })
        → (result ≡ 0) ⊎ (result ≡ 4) ⊎ (result ≡ 6) }
{
    obey(
        rt, alloc, words, files, plant, clock, entropy, trace, out, err, gate,
    )
}
