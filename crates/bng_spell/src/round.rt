//! How a round is read.
ghost use Rattle.std.specs.Prelude.{◌≡◌, ◌<◌, ◌≤◌, ◌^◌, ◌↔◌, ◌++◌, ℕ, List, IfOk, IfSome, IfNone, length, IsTrue};
ghost use Rattle.std.specs.List.{AllByRecursion};
ghost use Rattle.bng_spell.specs.Standing.{Stands, Lacks};
ghost use Rattle.bng_spell.specs.Kept.{AreInOrder, IsKept, NotAfter};
ghost use Rattle.bng_spell.specs.Texts.{round_text};
ghost use Rattle.bng_spell.specs.Many.{numbers_line_text, AreJournals};

use crate::fields::Long;
use crate::many::{Within, many};
use crate::numbers::Number;
use crate::opening::SpellError;
use crate::piece::{Piece, Until, literal};
use bng_base::{Entry, Item, Listed, Loose, OutRecord, RoundRecord};
use std::alloc::{AllocError, Global};

// Whether loose items stand by seat and place.
fn are_in_order(loose: &[Loose]) -> bool
    ensures { IsTrue result ↔ AreInOrder loose.now }
{
    let mut rest = loose;
    while let [first, after @ ..] = rest {
        if let [second, ..] = after {
            if !is_not_after(first, second) {
                return false;
            }
        }
        rest = after;
    }
    true
}

// Whether an item stands before another or at its place.
fn is_not_after(first: &Loose, second: &Loose) -> bool
    ensures { IsTrue result ↔ NotAfter first.now second.now }
{
    first.seat < second.seat || (first.seat == second.seat && first.place <= second.place)
}

// The numbers of a line whose end stands behind them, and the place behind it.
fn numbers_line(
    alloc: Global,
    within: Within,
    whole: &[u8],
    at: usize,
) -> Result<Option<(Vec<u32>, usize)>, AllocError>
    requires { at ≤ length whole.now }
    ensures found { IfOk result (λ r. IfSome r (λ p. AllByRecursion (λ (n : ℕ). n < 2 ^ 32) p.0.items × Stands whole.now at (numbers_line_text p.0.items) p.1)) }
    ensures none { IfOk result (λ r. IfNone r (Lacks (λ (ns : List ℕ). AllByRecursion (λ (n : ℕ). n < 2 ^ 32) ns) numbers_line_text whole.now at)) }
{
    if let Some(next) = literal(whole, at, b"-\n") {
        return Ok(Some((Vec::new(alloc), next)));
    }
    let (mut numbers, at) = many::<u32>(alloc, within, whole, at)?;
    let Some((last, next)) = Until::<Number<0xffff_ffff>, 10>::read(whole, at) else {
        return Ok(None);
    };
    numbers.push(last.0.0 as u32)?;
    Ok(Some((numbers, next)))
}

// The journals of so many shards, and the place behind their lines.
fn journals(
    alloc: Global,
    moment: u64,
    shards: usize,
    whole: &[u8],
    at: usize,
) -> Result<(Vec<Listed<Entry>>, usize), AllocError>
    requires { at ≤ length whole.now }
    ensures { IfOk result (λ p. AreJournals moment shards whole.now at p.0.items p.1) }
{
    let mut journals = Vec::new(alloc);
    let mut next = at;
    for shard in 0..shards {
        let within = Within {
            shard: shard as u64,
            moment,
        };
        let (journal, after) = many::<Entry>(alloc, within, whole, next)?;
        journals.push(Listed::of(journal))?;
        next = after;
    }
    Ok((journals, next))
}

/// The round that begins at this place, and the place behind its `end` line; `None` exactly where no whole round stands there.
pub fn read_round(
    alloc: Global,
    text: &[u8],
    at: usize,
) -> Result<Option<(RoundRecord, usize)>, SpellError>
    requires { at ≤ length text.now }
    ensures found { IfOk result (λ r. IfSome r (λ p. IsKept p.0 × Stands text.now at (round_text p.0) p.1)) }
    ensures none { IfOk result (λ r. IfNone r (Lacks IsKept round_text text.now at)) }
{
    let Some(at) = literal(text, at, b"round ") else {
        return Ok(None);
    };
    let Some((fields, at)) = <(Long, (Long, Long))>::read(text, at) else {
        return Ok(None);
    };
    let (number, (moment, wall)) = fields;
    let moment = moment.0.0;
    let within = Within { shard: 0, moment };
    let Some((allowances, at)) = numbers_line(alloc, within, text, at)? else {
        return Ok(None);
    };
    let (journals, at) = journals(alloc, moment, allowances.len(), text, at)?;
    let (loose, at) = many::<Loose>(alloc, within, text, at)?;
    let (refused, at) = many::<Item>(alloc, within, text, at)?;
    let (outs, at) = many::<OutRecord>(alloc, within, text, at)?;
    let Some(next) = literal(text, at, b"end\n") else {
        return Ok(None);
    };
    if !are_in_order(loose.as_slice()) {
        return Ok(None);
    }
    let round = RoundRecord {
        number: number.0.0,
        moment,
        wall: wall.0.0,
        allowances: Listed::of(allowances),
        journals: Listed::of(journals),
        loose: Listed::of(loose),
        outs: Listed::of(outs),
        refused: Listed::of(refused),
    };
    Ok(Some((round, next)))
}
