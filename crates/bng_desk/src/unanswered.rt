//! The Stops that the server of accounting did not acknowledge, as text.
ghost use Rattle.std.specs.Prelude.{◌≡◌, ◌++◌, IfOk, OnOk, string_bytes};
ghost use Rattle.bng_acct.specs.Spool.{unacked_stops};
ghost use Rattle.bng_desk.specs.Report.{carried_text, stop_line, stop_lines};

use crate::report::{push_address, push_quantities};
use bng_acct::TermFacts;
use bng_acct::texts::port_id;
use bng_billing::Billing;
use std::alloc::{AllocError, Global};

// The address of a term, and what was carried for it.
fn carried_text(alloc: Global, facts: &TermFacts) -> Result<String, AllocError>
    ensures { IfOk result (λ text. string_bytes text ≡ carried_text facts.now) }
{
    let mut text = String::new(alloc);
    push_address(&mut text, facts.address)?;
    let (input, output) = (facts.carried.input, facts.carried.output);
    push_quantities(&mut text, u128::from(input), u128::from(output))?;
    Ok(text)
}

// Appends the line of a term's Stop. `id` is its Acct-Session-Id.
fn push_stop_line(
    alloc: Global,
    text: &mut Vec<u8>,
    id: [u8; 24],
    facts: &TermFacts,
) -> Result<(), AllocError>
    ensures { OnOk result (text.new.items ≡ text.old.items ++ stop_line id facts.now) }
{
    let carried = carried_text(alloc, facts)?;
    text.extend_from_slice(b"stop ")?;
    text.extend_from_slice(&id)?;
    text.extend_from_slice(b" ")?;
    text.extend_from_slice(port_id(facts.circuit).as_slice())?;
    text.extend_from_slice(b" ")?;
    text.extend_from_slice(carried.as_bytes())
}

/// A line for each Stop that is not acknowledged, by session and term number.
pub(crate) fn unanswered(alloc: Global, billing: &Billing) -> Result<Vec<u8>, AllocError>
    ensures { IfOk result (λ text. text.items ≡ stop_lines billing.now.spool.rules.wall (unacked_stops billing.now.spool)) }
{
    let mut text = Vec::new(alloc);
    for at in 0..billing.unacked_stops() {
        let Some(facts) = billing.unacked(at) else {
            unreachable!();
        };
        push_stop_line(alloc, &mut text, billing.session_id(facts.term), facts)?;
    }
    Ok(text)
}
