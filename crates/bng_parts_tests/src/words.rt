use crate::asserts::assert_same;
use bng_words::read;
use std::alloc::{AllocError, Global};
use std::process::Abort;
use std::test::Fail;

fn words(alloc: Global, texts: &[&str]) -> Result<Vec<String>, AllocError> {
    let mut words = Vec::new(alloc);
    for text in texts {
        words.push(String::from_str(alloc, *text)?)?;
    }
    Ok(words)
}

// What is read of the words, as it is printed.
fn told(alloc: Global, texts: &[&str]) -> Result<String, AllocError> {
    let words = words(alloc, texts)?;
    let told = read(alloc, &words);
    format!(in alloc; "{told:?}")
}

// What is read of the words is this.
fn reads(rt: &impl Abort, alloc: Global, texts: &[&str], wanted: &str) -> Result<(), Fail> {
    let told = told(alloc, texts)?;
    assert_same(rt, &told.as_str(), &wanted);
    Ok(())
}

// The words of a command, and what is read of them.
const COMMANDS: &[(&[&str], &str)] = &[
    (
        &["serve", "a.toml"],
        "Ok(Serve { configuration: \"a.toml\", trace: None, rounds: 1099511627776 })",
    ),
    (
        &["serve", "a.toml", "--rounds", "5"],
        "Ok(Serve { configuration: \"a.toml\", trace: None, rounds: 5 })",
    ),
    (
        &[
            "serve",
            "--rounds=1099511627776",
            "a.toml",
            "--trace",
            "t=1",
        ],
        "Ok(Serve { configuration: \"a.toml\", trace: Some(\"t=1\"), rounds: 1099511627776 })",
    ),
    (
        &[
            "serve",
            "--trace=t=1",
            "--rounds",
            "0000000000005",
            "a.toml",
        ],
        "Ok(Serve { configuration: \"a.toml\", trace: Some(\"t=1\"), rounds: 5 })",
    ),
    (
        &["check", "a.toml"],
        "Ok(Check { configuration: \"a.toml\" })",
    ),
    (
        &["exercise", "4000"],
        "Ok(Exercise { subscribers: 4000, workers: 4 })",
    ),
    (
        &["exercise", "1", "--workers", "16"],
        "Ok(Exercise { subscribers: 1, workers: 16 })",
    ),
    (
        &["exercise", "--workers=1", "2000"],
        "Ok(Exercise { subscribers: 2000, workers: 1 })",
    ),
    (&["check", ""], "Ok(Check { configuration: \"\" })"),
    (&["audit", "t"], "Ok(Audit { trace: \"t\" })"),
    (&["check", "help"], "Ok(Check { configuration: \"help\" })"),
    (
        &["serve", "a.toml", "--trace", "audit"],
        "Ok(Serve { configuration: \"a.toml\", trace: Some(\"audit\"), rounds: 1099511627776 })",
    ),
    (
        &["serve", "serve"],
        "Ok(Serve { configuration: \"serve\", trace: None, rounds: 1099511627776 })",
    ),
];

#[test]
fn reads_each_command(rt: HostRuntime) -> Result<(), Fail> {
    for (texts, wanted) in COMMANDS {
        reads(&rt, rt.alloc(), *texts, *wanted)?;
    }
    Ok(())
}

const OTHERS: &[&[&str]] = &[
    &[],
    &["serve"],
    &["serve", "a.toml", "--rounds=0"],
    &["serve", "--rounds", "5"],
    &["serve", "a.toml", "--rounds", "5", "--rounds", "5"],
    &["serve", "a.toml", "--rounds", "1099511627777"],
    &["serve", "a.toml", "--rounds", "00000000000005"],
    &["serve", "a.toml", "--rounds", "+5"],
    &["serve", "a.toml", "--rounds"],
    &["serve", "a.toml", "--rounds="],
    &["serve", "a.toml", "--trace", "-t"],
    &["serve", "a.toml", "--trace=-t"],
    &["serve", "--", "a.toml"],
    &["serve", "-"],
    &["serve", "a.toml", "b.toml"],
    &["serve", "a.toml", "--workers", "1"],
    &["check", "a.toml", "--help"],
    &["exercise", "0"],
    &["exercise", "4001"],
    &["exercise", "4", "--workers", "17"],
    &["--version"],
    &["help"],
    &["serv", "a.toml"],
    &["serve", "a.toml", "-h"],
    &["serve", "a.toml", "--"],
    &["serve", "a.toml", "--round", "5"],
    &["serve", "a.toml", "--rounds", "5", "6"],
    &["--rounds", "5", "serve", "a.toml"],
];

#[test]
fn refuses_other_words(rt: HostRuntime) -> Result<(), Fail> {
    for texts in OTHERS {
        reads(&rt, rt.alloc(), *texts, "Err(Refused)")?;
    }
    Ok(())
}
