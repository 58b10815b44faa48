//! How an opening is read.
ghost use Rattle.std.specs.Prelude.{◌≤◌, ◌++◌, IfOk, IfSome, IfNone, codes, length};
ghost use Rattle.bng_spell.specs.Standing.{Stands, Lacks};
ghost use Rattle.bng_spell.specs.Many.{octets_line_text};
ghost use Rattle.bng_spell.specs.Kept.{AreOctets, IsKeptOpening};
ghost use Rattle.bng_spell.specs.Opening.{read_view};
ghost use Rattle.bng_spell.specs.Texts.{opening_text};

use crate::fields::Long;
use crate::octets::{Fixed, are_digits};
use crate::piece::{Piece, Until, literal, place_of, rest_of};
use hex::FromHexError;
use std::alloc::{AllocError, Global};

/// What a run began with, as it is read: the moment in milliseconds, the second on the wall, the seed of the random octets, and the
/// octets of the configuration.
#[derive(Drop)]
pub struct ReadOpening {
    pub now: u64,
    pub wall: u64,
    pub seed: [u8; 32],
    pub configuration: Vec<u8>,
}

/// Why a trace is not read.
#[derive(Clone, Copy, PartialEq, Eq, Debug)]
pub enum SpellError {
    OutOfMemory,
}

impl From<AllocError> for SpellError {
    fn from(_: AllocError) -> SpellError {
        SpellError::OutOfMemory
    }
}

// The octets that are spelled up to the line's end at this place, and the place behind it.
fn octets_line(
    alloc: Global,
    whole: &[u8],
    at: usize,
) -> Result<Option<(Vec<u8>, usize)>, AllocError>
    requires { at ≤ length whole.now }
    ensures found { IfOk result (λ r. IfSome r (λ p. AreOctets p.0.items × Stands whole.now at (octets_line_text p.0.items) p.1)) }
    ensures none { IfOk result (λ r. IfNone r (Lacks AreOctets octets_line_text whole.now at)) }
{
    let rest = rest_of(whole, at);
    let Some(length) = place_of(rest, 10) else {
        return Ok(None);
    };
    let field = &rest[..length];
    if field == b"-".as_slice() {
        return Ok(Some((Vec::new(alloc), at + length + 1)));
    }
    match hex::decode(alloc, field) {
        Ok(octets) => {
            if !octets.is_empty() && are_digits(field, octets.as_slice()) {
                Ok(Some((octets, at + length + 1)))
            } else {
                Ok(None)
            }
        }
        Err(error) => match error {
            FromHexError::OutOfMemory => Err(AllocError),
            _ => Ok(None),
        },
    }
}

/// The opening with which a text begins, and the place behind its two lines; `None` exactly where the text does not begin with the two
/// lines of an opening.
pub fn read_opening(alloc: Global, text: &[u8]) -> Result<Option<(ReadOpening, usize)>, SpellError>
    ensures found { IfOk result (λ r. IfSome r (λ p. IsKeptOpening (read_view p.0) × Stands text.now 0 (opening_text (read_view p.0)) p.1)) }
    ensures none { IfOk result (λ r. IfNone r (Lacks IsKeptOpening opening_text text.now 0)) }
{
    let Some(at) = literal(text, 0, b"bng-trace 1\nopened ") else {
        return Ok(None);
    };
    let Some((fields, at)) = <(Long, (Long, Until<Fixed<32>, 32>))>::read(text, at) else {
        return Ok(None);
    };
    let (now, (wall, seed)) = fields;
    let seed = seed.0.0;
    let Some((configuration, next)) = octets_line(alloc, text, at)? else {
        return Ok(None);
    };
    let opening = ReadOpening {
        now: now.0.0,
        wall: wall.0.0,
        seed,
        configuration,
    };
    Ok(Some((opening, next)))
}
