ghost use Rattle.std.specs.Prelude.{◌≡◌, IfOk, false};
ghost use Rattle.clap.specs.Words.{app_of, rule_of};
ghost use Rattle.bng_words.specs.Program.{IsSub, number_rule, option_rule, program_app, word_rule};
ghost use Rattle.bng_words.specs.declared.command_name.CommandName.{CommandName};

use crate::place::{ROUNDS_MOST, SUBSCRIBERS_MOST, WORKERS_MOST};
use clap::builder::ValueParser;
use clap::{Arg, Command};
use std::alloc::{AllocError, Global};

/// The program as `clap` is told of it: its commands with their arguments, without a help of its own.
pub(crate) fn program<'a>(alloc: Global) -> Result<Command<'a>, AllocError>
    ensures { IfOk result (λ c. app_of c ≡ program_app) }
{
    Command::new(alloc, "bng")
        .no_binary_name(true)
        .disable_help_flag(true)
        .disable_help_subcommand(true)
        .subcommand_required(true)
        .subcommand(serve(alloc)?)?
        .subcommand(check(alloc)?)?
        .subcommand(exercise(alloc)?)?
        .subcommand(audit(alloc)?)
}

fn serve<'a>(alloc: Global) -> Result<Command<'a>, AllocError>
    ensures { IfOk result (IsSub CommandName.Serve) }
{
    let rounds = number(option(alloc, "rounds"), ROUNDS_MOST).default_value("1099511627776");
    Command::new(alloc, "serve")
        .arg(word(alloc, "config"))?
        .arg(option(alloc, "trace"))?
        .arg(rounds)
}

fn check<'a>(alloc: Global) -> Result<Command<'a>, AllocError>
    ensures { IfOk result (IsSub CommandName.Check) }
{
    Command::new(alloc, "check").arg(word(alloc, "config"))
}

fn exercise<'a>(alloc: Global) -> Result<Command<'a>, AllocError>
    ensures { IfOk result (IsSub CommandName.Exercise) }
{
    let subscribers = number(word(alloc, "subscribers"), SUBSCRIBERS_MOST);
    let workers = number(option(alloc, "workers"), WORKERS_MOST).default_value("4");
    Command::new(alloc, "exercise")
        .arg(subscribers)?
        .arg(workers)
}

fn audit<'a>(alloc: Global) -> Result<Command<'a>, AllocError>
    ensures { IfOk result (IsSub CommandName.Audit) }
{
    Command::new(alloc, "audit").arg(word(alloc, "file"))
}

// A word that is no option and has to stand.
fn word<'a>(alloc: Global, id: &'a str) -> Arg<'a>
    ensures rule { rule_of result ≡ word_rule id.entry.now }
    ensures local { result.global ≡ false }
{
    Arg::new(alloc, id).required(true)
}

fn option<'a>(alloc: Global, name: &'a str) -> Arg<'a>
    ensures rule { rule_of result ≡ option_rule name.entry.now }
    ensures local { result.global ≡ false }
{
    Arg::new(alloc, name).long(name)
}

// The argument with a number from 1 to this most as its value.
fn number<'a>(arg: Arg<'a>, most: u64) -> Arg<'a>
    ensures rule { rule_of result ≡ number_rule most (rule_of arg.entry) }
    ensures local { result.global ≡ arg.entry.global }
{
    arg.value_parser(ValueParser::unsigned(1, most))
}
