//! The judgement of a Configure-Request as text.

use bng_ppp_wire::{Judged, MadeOpt, Opt};
use std::alloc::{AllocError, Global};

// Appends an option: its type and its data, after a space.
fn push_option(alloc: Global, text: &mut String, kind: u8, value: &[u8]) -> Result<(), AllocError> {
    let option = format!(in alloc; " {kind}{value:?}")?;
    text.push_str(option.as_str())
}

// A Configure-Nak with these options.
fn naked(alloc: Global, made: &[MadeOpt]) -> Result<String, AllocError> {
    let mut text = String::from_str(alloc, "Nak")?;
    for option in made {
        push_option(alloc, &mut text, option.kind, option.value.as_slice())?;
    }
    Ok(text)
}

// A Configure-Reject with these options.
fn rejected(alloc: Global, options: &[Opt<'_>]) -> Result<String, AllocError> {
    let mut text = String::from_str(alloc, "Reject")?;
    for option in options {
        push_option(alloc, &mut text, option.kind, option.value)?;
    }
    Ok(text)
}

/// The answer, with each option's type and data.
pub(crate) fn printed(alloc: Global, judged: &Judged<'_>) -> Result<String, AllocError> {
    match judged {
        Judged::Ack => String::from_str(alloc, "Ack"),
        Judged::Nak(made) => naked(alloc, made.as_slice()),
        Judged::Reject(options) => rejected(alloc, options.as_slice()),
    }
}
