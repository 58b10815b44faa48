//! The text of a trace, both ways: an opening and rounds are spelled into a sink, and read back from octets.
//!
//! A text is lines of fields that one space parts; numbers are decimal, octets lower-case hexadecimal. Its form is one equation,
//! `trace_text`: the opening's lines, and each round's lines up to its `end`. No such text begins another, so reading is exact:
//! it finds a round exactly where one is spelled.
#![tactic(auto)]

mod block;
mod fields;
mod laws;
mod lines;
mod many;
mod names;
mod numbers;
mod octets;
mod opening;
mod parts;
mod piece;
mod round;
mod spell;
mod token;

pub use crate::laws::{charges_are_not_spelled, one_form};
pub use crate::opening::{ReadOpening, SpellError, read_opening};
pub use crate::round::read_round;
pub use crate::spell::{spell_opening, spell_round};
