//! What is written of an exercise.
ghost use Rattle.std.specs.Prelude.{◌≡◌, ◌++◌, IfOk, OnOk, string_bytes, sum};
ghost use Rattle.bng_gate.specs.Exercise.{exercise_text, input_text, number_text, output_text, stops_text, terms_text};

use bng_base::Book;
use bng_desk::{CAUSES, Sums};
use std::alloc::{AllocError, Global};

// How many items were dropped, by whatever cause.
fn dropped(drops: &[u64; CAUSES]) -> u128
    ensures { result ≡ sum drops.now }
{
    let mut sum: u128 = 0;
    for items in drops {
        sum += u128::from(*items);
    }
    sum
}

// Appends a name and a number.
fn push_number(text: &mut String, name: &str, number: u128) -> Result<(), AllocError>
    ensures { OnOk result (string_bytes text.new ≡ string_bytes text.old ++ number_text name.now number) }
{
    text.push_str(name)?;
    write!(text, "{number}")
}

// Appends how many subscribers and terms there were.
fn push_terms(text: &mut String, subscribers: u32, terms: u64) -> Result<(), AllocError>
    ensures { OnOk result (string_bytes text.new ≡ string_bytes text.old ++ terms_text subscribers terms) }
{
    push_number(text, "exercise subscribers=", u128::from(subscribers))?;
    push_number(text, " terms=", u128::from(terms))?;
    Ok(())
}

// Appends what was carried from the subscribers.
fn push_input(text: &mut String, carried: Book) -> Result<(), AllocError>
    ensures { OnOk result (string_bytes text.new ≡ string_bytes text.old ++ input_text carried) }
{
    push_number(text, " in_packets=", u128::from(carried.input_packets))?;
    push_number(text, " in_octets=", u128::from(carried.input))?;
    Ok(())
}

// Appends what was carried towards them.
fn push_output(text: &mut String, carried: Book) -> Result<(), AllocError>
    ensures { OnOk result (string_bytes text.new ≡ string_bytes text.old ++ output_text carried) }
{
    push_number(text, " out_packets=", u128::from(carried.output_packets))?;
    push_number(text, " out_octets=", u128::from(carried.output))?;
    Ok(())
}

// Appends how many Stops were formed and items dropped, and the line's end.
fn push_stops(text: &mut String, stops: u64, dropped: u128) -> Result<(), AllocError>
    ensures { OnOk result (string_bytes text.new ≡ string_bytes text.old ++ stops_text stops dropped) }
{
    push_number(text, " stops=", u128::from(stops))?;
    push_number(text, " dropped=", dropped)?;
    text.push_str("\n")
}

/// The line of an exercise of so many subscribers with these sums.
pub(crate) fn line_of(alloc: Global, subscribers: u32, sums: &Sums) -> Result<String, AllocError>
    ensures { IfOk result (λ text. string_bytes text ≡ exercise_text subscribers sums.now.terms sums.now.total sums.now.stops (sum sums.now.drops)) }
{
    let mut text = String::new(alloc);
    push_terms(&mut text, subscribers, sums.terms)?;
    push_input(&mut text, sums.total)?;
    push_output(&mut text, sums.total)?;
    push_stops(&mut text, sums.stops, dropped(&sums.drops))?;
    Ok(text)
}
